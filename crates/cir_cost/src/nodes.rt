//! Nodes as they are written.
ghost use Rattle.std.specs.Prelude.{◌≡◌};
ghost use Rattle.cir_ast.specs.Tree.{bare, bare_exprs, place_accessors};
ghost use Rattle.cir_meaning.specs.Limits.{standing};
ghost use Rattle.cir_meaning.specs.Costs as M;

use cir_ast::program::{Accessor, Expr, Place};

/// The nodes of an expression.
#[cycle(counting)]
pub fn nodes_of(e: &Expr) -> u64
    ensures { result ≡ standing (M.nodes_of (bare e.now)) }
{
    match e {
        Expr::Number(_) | Expr::Anonymous(_) => 1,
        Expr::Place(place) => place_nodes(place).saturating_add(1),
        Expr::Call(_, _, _, arguments) => all_nodes(arguments.as_slice()).saturating_add(1),
        Expr::Parentheses(inner) => nodes_of(inner).saturating_add(1),
        Expr::Array(elements) => all_nodes(elements.as_slice()).saturating_add(1),
        Expr::Unary(_, a) => nodes_of(a).saturating_add(1),
        Expr::Binary(_, a, b) => nodes_of(a).saturating_add(nodes_of(b)).saturating_add(1),
        Expr::Choice(c, a, b) => nodes_of(c)
            .saturating_add(nodes_of(a))
            .saturating_add(nodes_of(b))
            .saturating_add(1),
    }
}

#[cycle(counting)]
fn all_nodes(es: &[Expr]) -> u64
    ensures { result ≡ standing (M.all_nodes (bare_exprs es.now)) }
{
    let mut count = 0u64;
    for e in es {
        count = count.saturating_add(nodes_of(e));
    }
    count
}

#[cycle(counting)]
fn place_nodes(place: &Place) -> u64
    ensures { result ≡ standing (M.place_nodes (place_accessors place.now)) }
{
    let mut count = 0u64;
    for accessor in place.accessors.as_slice() {
        if let Accessor::Index(e) = accessor {
            count = count.saturating_add(nodes_of(e));
        }
    }
    count
}
