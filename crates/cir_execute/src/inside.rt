//! What stands in a statement under a condition that isn't known, in the state behind its scan.
ghost use Rattle.std.specs.Prelude.{◌≡◌, true, List, [], ◌∷◌, None, map, IfErr, IfOk, OnOk};
ghost use Rattle.cir_ast.specs.declared.program.Spot.{Spot as AnySpot};
ghost use Rattle.cir_ast.specs.Tree.{bare_assign, bare_first, bare_statement, bare_variable};
ghost use Rattle.cir_frame.specs.Shown.{state_of};
ghost use Rattle.cir_arrays.specs.declared.stop.Fault.TheVariants.{OutOfMemory};
ghost use Rattle.cir_meaning.specs.Source.{Equation};
ghost use Rattle.cir_meaning.specs.Unknown.{assign_fault, fault_of, first_fault};
ghost use Rattle.cir_evaluate.specs.Within.{Means, context_at, where_at};
ghost use Rattle.cir_execute.specs.Again.{AddsOnce, IsOnce, IsUnchanged};
ghost use Rattle.cir_execute.specs.Rests.{assign_inside, first_inside, inside, variables_inside};
ghost use Rattle.cir_execute.specs.Rests.{rest_by, rest_fault};

use crate::undecided::Rest;
use cir_arrays::{Datum, Fault};
use cir_assign::{add_assigned, placed_of};
use cir_ast::program::{
    Assign, DeclaredVariable, First, FirstForm, Simple, Spot, Statement, StatementForm,
};
use cir_cost::Cost;
use cir_evaluate::Here;
use cir_frame::{Frame, World};
use std::alloc::AllocError;

/// What is left of a statement costs what stands in it.
pub fn inside_cost<C: Fn(Spot, u32, Vec<Datum>, &mut World) -> Result<Datum, Fault>>(
    dark: &Here<C>,
    rest: &Rest,
    frame: &Frame,
    world: &mut World,
) -> Result<Cost, Fault>
    requires calls { C.IsAlwaysCallable dark.now.context.now.call.now }
    ensures cost { (m : Means (C.post dark.now.context.now.call.now) dark.now.context.now)
        (spot : AnySpot) (qs : List Equation) → dark.now.shaded ≡ true → rest_fault rest.now ≡ None
        → IfOk result (λ cost. IsOnce cost
        (inside (context_at dark.now m) (where_at dark.now) (rest_by spot rest.now)
        (state_of frame.now world.old qs))) }
    ensures memory { IfErr result (λ f. f ≡ OutOfMemory) }
    ensures same { Means (C.post dark.now.context.now.call.now) dark.now.context.now
        → OnOk result (IsUnchanged world.old world.new) }
{
    let mut cost = Cost::new(dark.alloc());
    match rest {
        Rest::Whole(statement) => {
            add_statement(&mut cost, dark, statement, frame, world)?;
            Ok(cost)
        }
        // a loop of a block of the body and the step
        Rest::Loop(rest) => {
            cost.node();
            cost.node();
            cost.node();
            cost.add(dark, rest.condition, frame, world)?;
            add_statement(&mut cost, dark, rest.body, frame, world)?;
            add_assign(&mut cost, dark, &rest.step.assign, frame, world)?;
            Ok(cost)
        }
    }
}

/// What a statement under an unknown condition costs.
fn add_statement<C: Fn(Spot, u32, Vec<Datum>, &mut World) -> Result<Datum, Fault>>(
    cost: &mut Cost,
    dark: &Here<C>,
    statement: &Statement,
    frame: &Frame,
    world: &mut World,
) -> Result<(), AllocError>
    requires calls { C.IsAlwaysCallable dark.now.context.now.call.now }
    ensures cost { (m : Means (C.post dark.now.context.now.call.now) dark.now.context.now)
        (qs : List Equation) → dark.now.shaded ≡ true
        → fault_of (bare_statement statement.now) ≡ None
        → OnOk result (AddsOnce cost.old cost.new
        (inside (context_at dark.now m) (where_at dark.now) (bare_statement statement.now)
        (state_of frame.now world.old qs))) }
    ensures same { Means (C.post dark.now.context.now.call.now) dark.now.context.now
        → OnOk result (IsUnchanged world.old world.new) }
{
    cost.node();
    match &statement.form {
        StatementForm::Block(block) => {
            for inner in block.statements.as_slice() {
                add_statement(cost, dark, inner, frame, world)?;
            }
            Ok(())
        }
        StatementForm::If(condition, chosen) | StatementForm::While(condition, chosen) => {
            cost.add(dark, condition, frame, world)?;
            add_statement(cost, dark, chosen, frame, world)
        }
        StatementForm::IfElse(condition, chosen, other) => {
            cost.add(dark, condition, frame, world)?;
            add_statement(cost, dark, chosen, frame, world)?;
            add_statement(cost, dark, other, frame, world)
        }
        StatementForm::For(first, condition, step, body) => {
            add_first(cost, dark, first, frame, world)?;
            cost.add(dark, condition, frame, world)?;
            add_statement(cost, dark, body, frame, world)?;
            add_assign(cost, dark, &step.assign, frame, world)
        }
        StatementForm::Assert(condition) => cost.add(dark, condition, frame, world),
        StatementForm::Simple(simple) => match simple {
            Simple::Vars(vars) => {
                add_variables(cost, dark, vars.variables.as_slice(), frame, world)
            }
            Simple::Assign(assign) => add_assign(cost, dark, assign, frame, world),
            _ => Ok(()),
        },
        StatementForm::Return(_) | StatementForm::Log(_) => Ok(()),
    }
}

fn add_first<C: Fn(Spot, u32, Vec<Datum>, &mut World) -> Result<Datum, Fault>>(
    cost: &mut Cost,
    dark: &Here<C>,
    first: &First,
    frame: &Frame,
    world: &mut World,
) -> Result<(), AllocError>
    requires calls { C.IsAlwaysCallable dark.now.context.now.call.now }
    ensures cost { (m : Means (C.post dark.now.context.now.call.now) dark.now.context.now)
        (spot : AnySpot) (qs : List Equation) → dark.now.shaded ≡ true
        → first_fault spot (bare_first first.now.form) ≡ None
        → OnOk result (AddsOnce cost.old cost.new (first_inside (context_at dark.now m)
        (where_at dark.now) (bare_first first.now.form) (state_of frame.now world.old qs))) }
    ensures same { Means (C.post dark.now.context.now.call.now) dark.now.context.now
        → OnOk result (IsUnchanged world.old world.new) }
{
    match &first.form {
        FirstForm::Vars(vars) => {
            add_variables(cost, dark, vars.variables.as_slice(), frame, world)
        }
        FirstForm::Assign(assign) => add_assign(cost, dark, assign, frame, world),
    }
}

fn add_assign<C: Fn(Spot, u32, Vec<Datum>, &mut World) -> Result<Datum, Fault>>(
    cost: &mut Cost,
    dark: &Here<C>,
    assign: &Assign,
    frame: &Frame,
    world: &mut World,
) -> Result<(), AllocError>
    requires calls { C.IsAlwaysCallable dark.now.context.now.call.now }
    ensures cost { (m : Means (C.post dark.now.context.now.call.now) dark.now.context.now)
        (spot : AnySpot) (qs : List Equation) → dark.now.shaded ≡ true
        → assign_fault spot (bare_assign assign.now) ≡ None
        → OnOk result (AddsOnce cost.old cost.new (assign_inside (context_at dark.now m)
        (where_at dark.now) (bare_assign assign.now) (state_of frame.now world.old qs))) }
    ensures same { Means (C.post dark.now.context.now.call.now) dark.now.context.now
        → OnOk result (IsUnchanged world.old world.new) }
{
    match placed_of(assign) {
        Some(p) => match add_assigned(cost, dark, p.accessors, p.given, frame, world) {
            Ok(()) => Ok(()),
            Err(_fault) => Err(AllocError),
        },
        None => Ok(()),
    }
}

fn add_variables<C: Fn(Spot, u32, Vec<Datum>, &mut World) -> Result<Datum, Fault>>(
    cost: &mut Cost,
    dark: &Here<C>,
    variables: &[DeclaredVariable],
    frame: &Frame,
    world: &mut World,
) -> Result<(), AllocError>
    requires calls { C.IsAlwaysCallable dark.now.context.now.call.now }
    ensures cost { (m : Means (C.post dark.now.context.now.call.now) dark.now.context.now)
        (qs : List Equation) → dark.now.shaded ≡ true
        → OnOk result (AddsOnce cost.old cost.new (variables_inside (context_at dark.now m)
        (where_at dark.now) (map bare_variable variables.now) (state_of frame.now world.old qs))) }
    ensures same { Means (C.post dark.now.context.now.call.now) dark.now.context.now
        → OnOk result (IsUnchanged world.old world.new) }
{
    for variable in variables {
        add_variable(cost, dark, variable, frame, world)?;
    }
    Ok(())
}

fn add_variable<C: Fn(Spot, u32, Vec<Datum>, &mut World) -> Result<Datum, Fault>>(
    cost: &mut Cost,
    dark: &Here<C>,
    variable: &DeclaredVariable,
    frame: &Frame,
    world: &mut World,
) -> Result<(), AllocError>
    requires calls { C.IsAlwaysCallable dark.now.context.now.call.now }
    ensures cost { (m : Means (C.post dark.now.context.now.call.now) dark.now.context.now)
        (qs : List Equation) → dark.now.shaded ≡ true
        → OnOk result (AddsOnce cost.old cost.new (variables_inside (context_at dark.now m)
        (where_at dark.now) (bare_variable variable.now ∷ []) (state_of frame.now world.old qs))) }
    ensures same { Means (C.post dark.now.context.now.call.now) dark.now.context.now
        → OnOk result (IsUnchanged world.old world.new) }
{
    for dimension in variable.dimensions.as_slice() {
        cost.add(dark, dimension, frame, world)?;
    }
    match &variable.value {
        None => Ok(()),
        Some(value) => cost.add(dark, value, frame, world),
    }
}
