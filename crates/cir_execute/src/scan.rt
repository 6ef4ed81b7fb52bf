//! A statement whose condition isn't known is only scanned: its expressions are shaded, a variable
//! that it assigns or declares is opaque, and all refusals stand at it.
ghost use Rattle.std.specs.Prelude.{◌≡◌, true, List, OnOk, map};
ghost use Rattle.cir_ast.specs.Tree.{as_accessors, bare, bare_assign, bare_first, bare_statement};
ghost use Rattle.cir_ast.specs.Tree.{bare_variable};
ghost use Rattle.cir_arrays.specs.Stopped.{Gives};
ghost use Rattle.cir_frame.specs.Shown.{state_of};
ghost use Rattle.cir_meaning.specs.Tried.{next};
ghost use Rattle.cir_meaning.specs.Source.{Equation};
ghost use Rattle.cir_meaning.specs.Simple.{each};
ghost use Rattle.cir_meaning.specs.Scan as S;
ghost use Rattle.cir_evaluate.specs.Within.{Means, context_at, where_at};
ghost use Rattle.cir_assign.specs.Given.{given_by};

use cir_arrays::{Datum, Fault, Filling};
use cir_assign::{Given, Placed, Written, placed_of, variable_assignment};
use cir_ast::Kind;
use cir_ast::program::{
    Assign, DeclaredVariable, Expr, First, FirstForm, Meant, Simple, Spot, Statement,
    StatementForm, Step,
};
use cir_declare::declare_variable;
use cir_evaluate::{Here, dims_in, number};
use cir_frame::{Frame, World};
use cir_values::Value;

/// Scans a statement in the order of execution; all branches are scanned.
#[cycle(scanning)]
pub fn scan<C: Fn(Spot, u32, Vec<Datum>, &mut World) -> Result<Datum, Fault>>(
    dark: &Here<C>,
    statement: &Statement,
    frame: &mut Frame,
    world: &mut World,
) -> Result<(), Fault>
    requires calls { C.IsAlwaysCallable dark.now.context.now.call.now }
    ensures state { (m : Means (C.post dark.now.context.now.call.now) dark.now.context.now)
        (qs : List Equation) → dark.now.shaded ≡ true
        → Gives (λ _. state_of frame.new world.new qs) result
        (S.scan (context_at dark.now m) (where_at dark.now) (bare_statement statement.now)
        (state_of frame.old world.old qs)) }
    ensures constraints { Means (C.post dark.now.context.now.call.now) dark.now.context.now
        → OnOk result (world.new.constraints.items ≡ world.old.constraints.items) }
{
    match &statement.form {
        StatementForm::Block(block) => {
            for inner in block.statements.as_slice() {
                scan(dark, inner, frame, world)?;
            }
            Ok(())
        }
        StatementForm::If(condition, chosen) => {
            scan_condition(dark, condition, frame, world)?;
            scan(dark, chosen, frame, world)
        }
        StatementForm::While(condition, repeated) => {
            scan_condition(dark, condition, frame, world)?;
            scan(dark, repeated, frame, world)
        }
        StatementForm::IfElse(condition, chosen, other) => {
            scan_condition(dark, condition, frame, world)?;
            scan(dark, chosen, frame, world)?;
            scan(dark, other, frame, world)
        }
        StatementForm::For(first, condition, step, body) => {
            scan_first(dark, first, frame, world)?;
            scan_loop(dark, body, condition, step, frame, world)
        }
        StatementForm::Assert(condition) => scan_condition(dark, condition, frame, world),
        StatementForm::Simple(Simple::Vars(vars)) => {
            scan_variables(dark, vars.variables.as_slice(), frame, world)
        }
        StatementForm::Simple(Simple::Assign(assign)) => { scan_assign(dark, assign, frame, world) }
        StatementForm::Return(_) | StatementForm::Log(_) | StatementForm::Simple(_) => {
            Err(dark.refused(Kind::WrongKind))
        }
    }
}

/// Scans the loop of a `for`.
#[cycle(scanning)]
pub fn scan_loop<C: Fn(Spot, u32, Vec<Datum>, &mut World) -> Result<Datum, Fault>>(
    dark: &Here<C>,
    body: &Statement,
    condition: &Expr,
    step: &Step,
    frame: &mut Frame,
    world: &mut World,
) -> Result<(), Fault>
    requires calls { C.IsAlwaysCallable dark.now.context.now.call.now }
    ensures state { (m : Means (C.post dark.now.context.now.call.now) dark.now.context.now)
        (qs : List Equation) → dark.now.shaded ≡ true
        → Gives (λ _. state_of frame.new world.new qs) result
        (next (S.scan_test (context_at dark.now m) (where_at dark.now) (bare condition.now)
        (state_of frame.old world.old qs))
        (λ s1. next (S.scan (context_at dark.now m) (where_at dark.now)
        (bare_statement body.now) s1)
        (S.scan_assign (context_at dark.now m) (where_at dark.now)
        (bare_assign step.now.assign)))) }
    ensures constraints { Means (C.post dark.now.context.now.call.now) dark.now.context.now
        → OnOk result (world.new.constraints.items ≡ world.old.constraints.items) }
{
    scan_condition(dark, condition, frame, world)?;
    scan(dark, body, frame, world)?;
    scan_assign(dark, &step.assign, frame, world)
}

/// A condition is a number.
fn scan_condition<C: Fn(Spot, u32, Vec<Datum>, &mut World) -> Result<Datum, Fault>>(
    dark: &Here<C>,
    condition: &Expr,
    frame: &Frame,
    world: &mut World,
) -> Result<(), Fault>
    requires calls { C.IsAlwaysCallable dark.now.context.now.call.now }
    ensures state { (m : Means (C.post dark.now.context.now.call.now) dark.now.context.now)
        (qs : List Equation) → dark.now.shaded ≡ true
        → Gives (λ _. state_of frame.now world.new qs) result
        (S.scan_test (context_at dark.now m) (where_at dark.now) (bare condition.now)
        (state_of frame.now world.old qs)) }
    ensures constraints { Means (C.post dark.now.context.now.call.now) dark.now.context.now
        → OnOk result (world.new.constraints.items ≡ world.old.constraints.items) }
{
    let v = number(dark, condition, frame, world)?;
    discard(v);
    Ok(())
}

/// Lets a number go. Its forms are told apart here alone, and not wherever one is dropped.
pub fn discard(_value: Value) {}

fn scan_first<C: Fn(Spot, u32, Vec<Datum>, &mut World) -> Result<Datum, Fault>>(
    dark: &Here<C>,
    first: &First,
    frame: &mut Frame,
    world: &mut World,
) -> Result<(), Fault>
    requires calls { C.IsAlwaysCallable dark.now.context.now.call.now }
    ensures state { (m : Means (C.post dark.now.context.now.call.now) dark.now.context.now)
        (qs : List Equation) → dark.now.shaded ≡ true
        → Gives (λ _. state_of frame.new world.new qs) result
        (S.scan_first (context_at dark.now m) (where_at dark.now) (bare_first first.now.form)
        (state_of frame.old world.old qs)) }
    ensures constraints { Means (C.post dark.now.context.now.call.now) dark.now.context.now
        → OnOk result (world.new.constraints.items ≡ world.old.constraints.items) }
{
    match &first.form {
        FirstForm::Vars(vars) => scan_variables(dark, vars.variables.as_slice(), frame, world),
        FirstForm::Assign(assign) => scan_assign(dark, assign, frame, world),
    }
}

fn scan_assign<C: Fn(Spot, u32, Vec<Datum>, &mut World) -> Result<Datum, Fault>>(
    dark: &Here<C>,
    assign: &Assign,
    frame: &Frame,
    world: &mut World,
) -> Result<(), Fault>
    requires calls { C.IsAlwaysCallable dark.now.context.now.call.now }
    ensures state { (m : Means (C.post dark.now.context.now.call.now) dark.now.context.now)
        (qs : List Equation) → dark.now.shaded ≡ true
        → Gives (λ _. state_of frame.now world.new qs) result
        (S.scan_assign (context_at dark.now m) (where_at dark.now) (bare_assign assign.now)
        (state_of frame.now world.old qs)) }
    ensures constraints { Means (C.post dark.now.context.now.call.now) dark.now.context.now
        → OnOk result (world.new.constraints.items ≡ world.old.constraints.items) }
{
    match placed_of(assign) {
        Some(p) => scan_set(dark, &p, frame, world),
        None => Err(dark.refused(Kind::WrongKind)),
    }
}

/// The shapes of an assignment must fit.
fn scan_set<C: Fn(Spot, u32, Vec<Datum>, &mut World) -> Result<Datum, Fault>>(
    dark: &Here<C>,
    p: &Placed,
    frame: &Frame,
    world: &mut World,
) -> Result<(), Fault>
    requires calls { C.IsAlwaysCallable dark.now.context.now.call.now }
    ensures state { (m : Means (C.post dark.now.context.now.call.now) dark.now.context.now)
        (qs : List Equation) → dark.now.shaded ≡ true
        → Gives (λ _. state_of frame.now world.new qs) result
        (S.scan_set (context_at dark.now m) (where_at dark.now) p.now.meant
        (as_accessors p.now.accessors.now) (given_by p.now.given)
        (state_of frame.now world.old qs)) }
    ensures constraints { Means (C.post dark.now.context.now.call.now) dark.now.context.now
        → OnOk result (world.new.constraints.items ≡ world.old.constraints.items) }
{
    let Meant::Variable(variable) = p.meant else {
        return Err(dark.refused(Kind::WrongKind));
    };
    let w = Written {
        variable,
        accessors: p.accessors,
        given: p.given,
    };
    let _assignment = variable_assignment(dark, &w, frame, world)?;
    Ok(())
}

fn scan_variables<C: Fn(Spot, u32, Vec<Datum>, &mut World) -> Result<Datum, Fault>>(
    dark: &Here<C>,
    variables: &[DeclaredVariable],
    frame: &mut Frame,
    world: &mut World,
) -> Result<(), Fault>
    requires calls { C.IsAlwaysCallable dark.now.context.now.call.now }
    ensures state { (m : Means (C.post dark.now.context.now.call.now) dark.now.context.now)
        (qs : List Equation) → dark.now.shaded ≡ true
        → Gives (λ _. state_of frame.new world.new qs) result
        (each (S.scan_variable (context_at dark.now m) (where_at dark.now))
        (map bare_variable variables.now) (state_of frame.old world.old qs)) }
    ensures constraints { Means (C.post dark.now.context.now.call.now) dark.now.context.now
        → OnOk result (world.new.constraints.items ≡ world.old.constraints.items) }
{
    for variable in variables {
        scan_variable(dark, variable, frame, world)?;
    }
    Ok(())
}

fn scan_variable<C: Fn(Spot, u32, Vec<Datum>, &mut World) -> Result<Datum, Fault>>(
    dark: &Here<C>,
    v: &DeclaredVariable,
    frame: &mut Frame,
    world: &mut World,
) -> Result<(), Fault>
    requires calls { C.IsAlwaysCallable dark.now.context.now.call.now }
    ensures state { (m : Means (C.post dark.now.context.now.call.now) dark.now.context.now)
        (qs : List Equation) → dark.now.shaded ≡ true
        → Gives (λ _. state_of frame.new world.new qs) result
        (S.scan_variable (context_at dark.now m) (where_at dark.now) (bare_variable v.now)
        (state_of frame.old world.old qs)) }
    ensures constraints { Means (C.post dark.now.context.now.call.now) dark.now.context.now
        → OnOk result (world.new.constraints.items ≡ world.old.constraints.items) }
{
    let Meant::Variable(n) = v.meant else {
        return Err(dark.refused(Kind::WrongKind));
    };
    let dims = dims_in(dark, v.dimensions.as_slice(), frame, world)?;
    declare_variable(dark.alloc(), n, dims, Filling::Opaque, frame, world)?;
    match &v.value {
        None => Ok(()),
        Some(e) => {
            let p = Placed {
                meant: v.meant,
                accessors: &[],
                given: Given::Plain(e),
            };
            scan_set(dark, &p, frame, world)
        }
    }
}
