//! Whether two expressions are the same.
ghost use Rattle.std.specs.Prelude.{◌≡◌, [], ◌∷◌};
ghost use Rattle.cir_ast.specs.Tree.{Array, Call, Number, Parentheses};
ghost use Rattle.cir_ast.specs.Tree.{Unary as UnaryOf, as_accessors, bare, bare_exprs, bare_place};
ghost use Rattle.wit_sourced.specs.Same as S;

use cir_ast::program::{Accessor, Expr, Meant, Place, Unary};

fn is_same_meant(a: Meant, b: Meant) -> bool
    ensures { result ≡ S.same_meant a b }
{
    match (a, b) {
        (Meant::Other, Meant::Other) => true,
        (Meant::Variable(n), Meant::Variable(m)) => n == m,
        (Meant::Signal(d, n), Meant::Signal(e, m)) => d == e && n == m,
        (Meant::Component(n), Meant::Component(m)) => n == m,
        (Meant::Template(n), Meant::Template(m)) => n == m,
        (Meant::Function(n), Meant::Function(m)) => n == m,
        _ => false,
    }
}

/// Anonymous components aren't compared.
#[cycle(comparing)]
pub fn is_same(a: &Expr, b: &Expr) -> bool
    ensures { result ≡ S.same_expr (bare a.now) (bare b.now) }
{
    match a {
        Expr::Number(n) => is_number(*n, b),
        Expr::Place(place) => is_place(place, b),
        Expr::Call(parallel, name, meant, es) => {
            is_call(*parallel, name.as_slice(), *meant, es.as_slice(), b)
        }
        Expr::Anonymous(_) => false,
        Expr::Parentheses(inner) => is_inner(inner, b),
        Expr::Array(es) => is_array(es.as_slice(), b),
        Expr::Unary(op, x) => is_unary(*op, x, b),
        Expr::Binary(op, x, y) => match b {
            Expr::Binary(other, z, w) => op == other && is_same(x, z) && is_same(y, w),
            _ => false,
        },
        Expr::Choice(c, x, y) => match b {
            Expr::Choice(d, z, w) => is_same(c, d) && is_same(x, z) && is_same(y, w),
            _ => false,
        },
    }
}

fn is_number(n: u128, b: &Expr) -> bool
    ensures { result ≡ S.same_expr (Number n) (bare b.now) }
{
    match b {
        Expr::Number(m) => n == *m,
        _ => false,
    }
}

#[cycle(comparing)]
#[tactic(auto, using(crate::proofs::SameTrees::trees))]
fn is_place(a: &Place, b: &Expr) -> bool
    ensures { result ≡ S.same_expr (bare_place a.now) (bare b.now) }
{
    match b {
        Expr::Place(place) => is_same_place(a, place),
        _ => false,
    }
}

fn is_same_head(
    parallel: bool,
    name: &[u8],
    meant: Meant,
    other_parallel: bool,
    other: &[u8],
    other_meant: Meant,
) -> bool
    ensures { result
        ≡ S.same_head parallel name.now meant other_parallel other.now other_meant }
{
    parallel == other_parallel && name == other && is_same_meant(meant, other_meant)
}

#[cycle(comparing)]
fn is_call(parallel: bool, name: &[u8], meant: Meant, arguments: &[Expr], b: &Expr) -> bool
    ensures { result
        ≡ S.same_expr (Call parallel name.now meant (bare_exprs arguments.now)) (bare b.now) }
{
    match b {
        Expr::Call(q, other, n, fs) => {
            is_same_head(parallel, name, meant, *q, other.as_slice(), *n)
                && are_same(arguments, fs.as_slice())
        }
        _ => false,
    }
}

#[cycle(comparing)]
fn is_inner(a: &Expr, b: &Expr) -> bool
    ensures { result ≡ S.same_expr (Parentheses (bare a.now)) (bare b.now) }
{
    match b {
        Expr::Parentheses(other) => is_same(a, other),
        _ => false,
    }
}

#[cycle(comparing)]
fn is_array(elements: &[Expr], b: &Expr) -> bool
    ensures { result ≡ S.same_expr (Array (bare_exprs elements.now)) (bare b.now) }
{
    match b {
        Expr::Array(others) => are_same(elements, others.as_slice()),
        _ => false,
    }
}

#[cycle(comparing)]
fn is_unary(op: Unary, a: &Expr, b: &Expr) -> bool
    ensures { result ≡ S.same_expr (UnaryOf op (bare a.now)) (bare b.now) }
{
    match b {
        Expr::Unary(other, x) => op == *other && is_same(a, x),
        _ => false,
    }
}

#[cycle(comparing)]
#[tactic(auto, using(crate::proofs::SameTrees::trees))]
fn is_same_place(a: &Place, b: &Place) -> bool
    ensures { result ≡ S.same_expr (bare_place a.now) (bare_place b.now) }
{
    a.name.as_slice() == b.name.as_slice()
        && is_same_meant(a.meant, b.meant)
        && are_same_accessors(a.accessors.as_slice(), b.accessors.as_slice())
}

#[cycle(comparing)]
fn are_same(a: &[Expr], b: &[Expr]) -> bool
    ensures { result ≡ S.same_exprs (bare_exprs a.now) (bare_exprs b.now) }
{
    let mut rest = b;
    for e in a {
        let Some((other, others)) = rest.split_first() else {
            return false;
        };
        if !is_same(e, other) {
            return false;
        }
        rest = others;
    }
    rest.is_empty()
}

#[cycle(comparing)]
fn are_same_accessors(a: &[Accessor], b: &[Accessor]) -> bool
    ensures { result ≡ S.same_accessors (as_accessors a.now) (as_accessors b.now) }
{
    let mut rest = b;
    for accessor in a {
        let Some((other, others)) = rest.split_first() else {
            return false;
        };
        if !is_same_accessor(accessor, other) {
            return false;
        }
        rest = others;
    }
    rest.is_empty()
}

#[cycle(comparing)]
fn is_same_accessor(a: &Accessor, b: &Accessor) -> bool
    ensures { result ≡ S.same_front (as_accessors (a.now ∷ []))
        (as_accessors (b.now ∷ [])) }
{
    match (a, b) {
        (Accessor::Index(e), Accessor::Index(f)) => is_same(e, f),
        (Accessor::Member(name), Accessor::Member(other)) => name.as_slice() == other.as_slice(),
        _ => false,
    }
}
