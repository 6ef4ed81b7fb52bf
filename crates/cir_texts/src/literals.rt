//! Where array literals stand.
ghost use Rattle.std.specs.Prelude.{◌≡◌, map};
ghost use Rattle.std.specs.List.{list_any};
ghost use Rattle.cir_ast.specs.Tree.{bare, bare_exprs, as_accessors};
ghost use Rattle.cir_arrays.specs.Reached.{want_of};
ghost use Rattle.cir_meaning.specs.Evaluate as E;
ghost use Rattle.cir_meaning.specs.Reached as R;
ghost use Rattle.cir_texts.specs.Shown.{wanted_of};

use crate::texts::Wanted;
use cir_arrays::Want;
use cir_ast::program::{Accessor, Expr};

/// Whether it is an array literal, with parentheses or without.
pub fn is_literal(e: &Expr) -> bool
    ensures { result ≡ E.is_literal (bare e.now) }
{
    match e {
        Expr::Parentheses(inner) => is_literal(inner),
        Expr::Array(_) => true,
        Expr::Number(_)
        | Expr::Place(_)
        | Expr::Call(_, _, _, _)
        | Expr::Anonymous(_)
        | Expr::Unary(_, _)
        | Expr::Binary(_, _, _)
        | Expr::Choice(_, _, _) => false,
    }
}

/// Whether one of them is an array literal as a whole, with parentheses or without.
pub fn has_literal(es: &[Expr]) -> bool
    ensures { result ≡ E.has_literal (bare_exprs es.now) }
{
    for e in es {
        if is_literal(e) {
            return true;
        }
    }
    false
}

/// Whether a literal stands elsewhere than as the whole value of an assignment or of `return`, or
/// in another literal.
pub fn has_misplaced(wanted: &[Wanted]) -> bool
    ensures { result
        ≡ list_any (λ x. R.is_misplaced x.want x.expr) (map wanted_of wanted.now) }
{
    for each in wanted {
        if is_wanted_misplaced(*each) {
            return true;
        }
    }
    false
}

#[tactic(auto, using(crate::proofs::Lists::misplaced_wanted))]
fn is_wanted_misplaced(wanted: Wanted) -> bool
    ensures { result
        ≡ R.is_misplaced (wanted_of wanted.entry).want (wanted_of wanted.entry).expr }
{
    match wanted {
        Wanted::Number(e) => is_misplaced(Want::Scalar, e),
        Wanted::Whole(e) => is_misplaced(Want::Whole, e),
        Wanted::Compound(_, place, e) => {
            index_misplaced(place.accessors.as_slice()) || is_misplaced(Want::Scalar, e)
        }
        Wanted::Step(_, place) => index_misplaced(place.accessors.as_slice()),
    }
}

#[cycle(misplacing)]
#[tactic(auto, using(crate::proofs::Lists::misplaced_lists))]
fn is_misplaced(want: Want, e: &Expr) -> bool
    ensures { result ≡ R.is_misplaced (want_of want) (bare e.now) }
{
    match e {
        Expr::Number(_) => false,
        Expr::Place(place) => index_misplaced(place.accessors.as_slice()),
        Expr::Call(_, _, _, arguments) => argument_misplaced(arguments.as_slice()),
        Expr::Anonymous(_) => false,
        Expr::Parentheses(inner) => is_misplaced(want, inner),
        Expr::Array(elements) => match want {
            Want::Scalar => true,
            Want::Whole => any_misplaced(elements.as_slice()),
        },
        Expr::Unary(_, a) => is_misplaced(Want::Scalar, a),
        Expr::Binary(_, a, b) => is_misplaced(Want::Scalar, a) || is_misplaced(Want::Scalar, b),
        Expr::Choice(c, a, b) => {
            is_misplaced(Want::Scalar, c)
                || is_misplaced(Want::Scalar, a)
                || is_misplaced(Want::Scalar, b)
        }
    }
}

#[cycle(misplacing)]
fn any_misplaced(es: &[Expr]) -> bool
    ensures { result ≡ R.any_misplaced (bare_exprs es.now) }
{
    for e in es {
        if is_misplaced(Want::Whole, e) {
            return true;
        }
    }
    false
}

#[cycle(misplacing)]
fn argument_misplaced(es: &[Expr]) -> bool
    ensures { result ≡ R.argument_misplaced (bare_exprs es.now) }
{
    for e in es {
        if is_literal(e) || is_misplaced(Want::Whole, e) {
            return true;
        }
    }
    false
}

#[cycle(misplacing)]
fn index_misplaced(accessors: &[Accessor]) -> bool
    ensures { result ≡ R.index_misplaced (as_accessors accessors.now) }
{
    for accessor in accessors {
        if let Accessor::Index(index) = accessor {
            if is_misplaced(Want::Scalar, index) {
                return true;
            }
        }
    }
    false
}
