//! Whether a statement holds anonymous components, where it may. An index, a dimension, an argument
//! and what isn't always looked at hold none.
ghost use Rattle.std.specs.Prelude.{◌≡◌, ℕ, [], ◌∷◌, false, map};
ghost use Rattle.cir_ast.specs.Tree.{bare, bare_exprs, bare_simple, bare_assign, bare_signal};
ghost use Rattle.cir_ast.specs.Tree.{bare_source, Assigned, Target, One, Values};
ghost use Rattle.cir_ast.specs.Tree.{Signals as BareSignals};
ghost use Rattle.cir_ast.specs.declared.program.Meant.{Meant as AnyMeant};
ghost use Rattle.cir_ast.specs.Program.{Program};
ghost use Rattle.cir_meaning.specs.Anonymous as A;
ghost use Rattle.cir_lift.specs.Turned.{turned, as_values, is_parentheses};

use cir_ast::program::{Assign, Expr, SignalValue, Signals, Simple, Source};

/// Whether a simple statement is to be lifted: always where it holds an anonymous component.
pub fn holds(simple: &Simple) -> bool
    ensures { result ≡ false → (p : Program) (first n : ℕ)
        → A.lift_simple p first (bare_simple simple.now) n
        ≡ A.same (turned (bare_simple simple.now)) n }
{
    match simple {
        Simple::Vars(_) | Simple::Components(_) => false,
        Simple::Signals(signals) => signals_hold(signals),
        Simple::Assign(assign) => assign_holds(assign),
        Simple::Constrain(a, b) => expr_holds(a) || expr_holds(b),
        Simple::Right(e, _, _) => expr_holds(e),
        Simple::TargetLeft(_, _, source) | Simple::TargetRight(source, _, _) => {
            source_holds(source)
        }
        Simple::Anonymous(_) => true,
    }
}

/// Whether an assignment does.
pub fn assign_holds(assign: &Assign) -> bool
    ensures { result ≡ false → (p : Program) (first n : ℕ)
        → A.lift_simple p first (Assigned (bare_assign assign.now)) n
        ≡ A.same (Assigned (bare_assign assign.now)) n }
{
    match assign {
        Assign::Left(_, _, e) => expr_holds(e),
        Assign::Set(_, _)
        | Assign::Compound(_, _, _)
        | Assign::Increment(_)
        | Assign::Decrement(_) => false,
    }
}

fn signals_hold(signals: &Signals) -> bool
    ensures { result ≡ false → (p : Program) (first n : ℕ)
        → A.lift_simple p first
        (BareSignals signals.now.direction (map bare_signal signals.now.signals)) n
        ≡ A.same (BareSignals signals.now.direction (map bare_signal signals.now.signals)) n }
{
    for signal in signals.signals.as_slice() {
        if let SignalValue::Given(_, e) = &signal.value {
            if expr_holds(e) {
                return true;
            }
        }
    }
    false
}

fn source_holds(source: &Source) -> bool
    ensures { result ≡ false → (p : Program) (first n : ℕ) (target : Target AnyMeant)
        → A.lift_source p first target (bare_source source.now) n
        ≡ A.same (as_values (bare_source source.now)) n }
{
    match source {
        Source::One(e) => single_holds(e),
        Source::Tuple(es) => any_holds(es.as_slice()),
    }
}

/// A single value in parentheses counts too, since as a tuple it stands without them.
fn single_holds(e: &Expr) -> bool
    ensures { result ≡ false → (p : Program) (first n : ℕ) (target : Target AnyMeant)
        → A.lift_source p first target (One (bare e.now)) n
        ≡ A.same (Values (bare e.now ∷ [])) n }
{
    if is_parentheses(e) {
        return true;
    }
    expr_holds(e)
}

fn is_parentheses(e: &Expr) -> bool
    ensures { result ≡ is_parentheses (bare e.now) }
{
    matches!(e, Expr::Parentheses(_))
}

#[cycle(holding)]
fn expr_holds(e: &Expr) -> bool
    ensures { result ≡ false → (p : Program) (first n : ℕ)
        → A.lift p first (bare e.now) n ≡ A.same (bare e.now) n }
{
    match e {
        Expr::Number(_) | Expr::Place(_) | Expr::Call(_, _, _, _) => false,
        Expr::Anonymous(_) => true,
        Expr::Parentheses(inner) => expr_holds(inner),
        Expr::Array(elements) => any_holds(elements.as_slice()),
        Expr::Unary(_, a) => expr_holds(a),
        Expr::Binary(_, a, b) => expr_holds(a) || expr_holds(b),
        Expr::Choice(c, _, _) => expr_holds(c),
    }
}

#[cycle(holding)]
fn any_holds(es: &[Expr]) -> bool
    ensures { result ≡ false → (p : Program) (first n : ℕ)
        → A.lift_all p first (bare_exprs es.now) n ≡ A.same (bare_exprs es.now) n }
{
    for e in es {
        if expr_holds(e) {
            return true;
        }
    }
    false
}
