//! A statement whose condition isn't known becomes one run-time statement.
ghost use Rattle.std.specs.Prelude.{◌≡◌, ◌++◌, true, List, Option, Ok, filter, sum_by, IfOk, OnOk};
ghost use Rattle.cir_ast.specs.declared.program.Spot.{Spot as AnySpot};
ghost use Rattle.cir_ast.specs.declared.program.Meant.{Meant as AnyMeant};
ghost use Rattle.cir_ast.specs.Tree.{Statement as AnyStatement};
ghost use Rattle.cir_frame.specs.declared.world.World.{World as AnyWorld};
ghost use Rattle.cir_arrays.specs.Stopped.{Gives};
ghost use Rattle.cir_frame.specs.Shown.{frame_of, state_of};
ghost use Rattle.cir_meaning.specs.Limits.{Counts as AnyCounts, standing};
ghost use Rattle.cir_meaning.specs.Places.{elements as element_count};
ghost use Rattle.cir_meaning.specs.Source.{Equation};
ghost use Rattle.cir_meaning.specs.Frame as M;
ghost use Rattle.cir_meaning.specs.Costs as K;
ghost use Rattle.cir_meaning.specs.Steps.{is_outer, start_reads};
ghost use Rattle.cir_meaning.specs.Scan as S;
ghost use Rattle.cir_known.specs.Answers.{Tells};
ghost use Rattle.cir_evaluate.specs.Within.{Means, context_at, context_of, where_at};
ghost use Rattle.cir_cost.specs.Adds.{IsCost, cell_of, read_alone};
ghost use Rattle.cir_execute.specs.Rests.{IsTouched, rest_by, rest_fault};

use crate::inside::inside_cost;
use crate::scan::{scan, scan_loop};
use cir_arrays::{Datum, Fault, elements};
use cir_ast::program::{Expr, Spot, Statement, Step};
use cir_ast::{Form, Kind};
use cir_cost::{Cell, Cost, stepped};
use cir_evaluate::{Context, Here};
use cir_frame::{Frame, World};
use cir_known::{
    Touched, UnknownFault, allowed_assign, allowed_statement, touched_by, touched_by_loop,
};
use std::alloc::{AllocError, Global};

/// The loop of a `for` behind its first statement.
#[derive(Clone, Copy)]
pub struct Loop<'a> {
    pub condition: &'a Expr,
    pub body: &'a Statement,
    pub step: &'a Step,
}

/// What is left of a statement where its condition isn't known: the statement, or the loop of a
/// `for`.
#[derive(Clone, Copy)]
pub enum Rest<'a> {
    Whole(&'a Statement),
    Loop(Loop<'a>),
}

/// First the statements in it are tested, at their own places. Then it is scanned, and afterwards
/// each outer variable that it may assign is opaque.
pub fn undecided<C: Fn(Spot, u32, Vec<Datum>, &mut World) -> Result<Datum, Fault>>(
    context: &Context<C>,
    spot: Spot,
    rest: &Rest,
    frame: &mut Frame,
    world: &mut World,
) -> Result<(), Fault>
    requires calls { C.IsAlwaysCallable context.now.call.now }
    ensures state { (m : Means (C.post context.now.call.now) context.now) (qs : List Equation)
        → Gives (λ _. state_of frame.new world.new qs) result
        (S.undecided (context_of context.now m.call m.make) spot (rest_fault rest.now)
        (rest_by spot rest.now) (state_of frame.old world.old qs)) }
    ensures constraints { Means (C.post context.now.call.now) context.now
        → OnOk result (world.new.constraints.items ≡ world.old.constraints.items) }
{
    allowed(context, rest)?;
    let touched = touched(context, rest)?;
    let variables = touched.assigned.as_slice();
    let (mut cost, cells) = read_before(context.alloc, variables, frame)?;
    forget(variables, frame);
    let here = context.here(spot);
    let dark = here.dark();
    scan_rest(&dark, rest, frame, world)?;
    let inside = inside_cost(&dark, rest, frame, world)?;
    enclose(&mut cost, inside, &touched)?;
    stepped(&here, cost, cells, world)?;
    context.settle(spot, world)
}

/// Scans what is left, shaded: shapes are tested, and whether the signals in it are written. An
/// index out of bounds or a zero divisor is left to the run.
pub fn scan_rest<C: Fn(Spot, u32, Vec<Datum>, &mut World) -> Result<Datum, Fault>>(
    dark: &Here<C>,
    rest: &Rest,
    frame: &mut Frame,
    world: &mut World,
) -> Result<(), Fault>
    requires calls { C.IsAlwaysCallable dark.now.context.now.call.now }
    ensures state { (m : Means (C.post dark.now.context.now.call.now) dark.now.context.now)
        (spot : AnySpot) (qs : List Equation) → dark.now.shaded ≡ true
        → Gives (λ _. state_of frame.new world.new qs) result
        (S.scan (context_at dark.now m) (where_at dark.now) (rest_by spot rest.now)
        (state_of frame.old world.old qs)) }
    ensures constraints { Means (C.post dark.now.context.now.call.now) dark.now.context.now
        → OnOk result (world.new.constraints.items ≡ world.old.constraints.items) }
{
    match rest {
        Rest::Whole(statement) => scan(dark, statement, frame, world),
        Rest::Loop(rest) => scan_loop(dark, rest.body, rest.condition, rest.step, frame, world),
    }
}

/// Refuses what may not stand under a condition that isn't known: all but variables, `assert`,
/// `if`, `while`, `for` and blocks.
pub fn allowed<C>(context: &Context<C>, rest: &Rest) -> Result<(), Fault>
    ensures { (call : M.Caller) (make : Option M.Maker) (s : M.State) → Gives (λ _. s) result
        (S.allowed (context_of context.now call make) (rest_fault rest.now) (Ok s)) }
{
    match tested(rest) {
        Ok(()) => Ok(()),
        Err(UnknownFault::Control { line, column }) => {
            let site = context.at(Spot { line, column });
            Err(site.refused(context.alloc, Kind::UnknownControl))
        }
        Err(UnknownFault::Log { line, column }) => {
            let site = context.at(Spot { line, column });
            let form = Form::LogPlace;
            Err(site.refused(context.alloc, Kind::NotInProfile { form }))
        }
        Err(UnknownFault::OutOfMemory) => Err(Fault::OutOfMemory),
    }
}

fn tested(rest: &Rest) -> Result<(), UnknownFault>
    ensures { Tells result (rest_fault rest.now) }
{
    match rest {
        Rest::Whole(statement) => allowed_statement(statement),
        // the step stands before the body
        Rest::Loop(rest) => {
            allowed_assign(rest.step.spot, &rest.step.assign)?;
            allowed_statement(rest.body)
        }
    }
}

/// The variables that it touches.
pub fn touched<C>(context: &Context<C>, rest: &Rest) -> Result<Touched, AllocError>
    ensures { (spot : AnySpot) → IfOk result (IsTouched (rest_by spot rest.now)) }
{
    match rest {
        Rest::Whole(statement) => touched_by(context.alloc, statement),
        Rest::Loop(rest) => touched_by_loop(context.alloc, rest.body, &rest.step.assign),
    }
}

/// Each outer variable that may be assigned is read as it stands before, and written: what it
/// reads when it begins, and how many cells it writes.
pub fn read_before(
    alloc: Global,
    variables: &[u32],
    frame: &Frame,
) -> Result<(Cost, u64), AllocError>
    ensures reads { (w : AnyWorld) (qs : List Equation) → IfOk result (λ start.
        IsCost start.0 (read_alone (start_reads variables.now (state_of frame.now w qs)))) }
    ensures cells { (c : AnyCounts) → IfOk result (λ start. start.1
        ≡ standing (sum_by (λ n. element_count (M.variable_at (frame_of frame.now c) n).dims)
        variables.now)) }
{
    let mut cost = Cost::new(alloc);
    let mut cells = 0u64;
    for n in variables {
        cost.read_variable(*n, frame)?;
        cells = cells.saturating_add(elements(frame.variable_dims(*n)));
    }
    Ok((cost, cells))
}

/// Makes each item of the variables of these numbers opaque.
pub fn forget(variables: &[u32], frame: &mut Frame)
    ensures { (w : AnyWorld) (qs : List Equation) → state_of frame.new w qs
        ≡ S.forget variables.now (state_of frame.old w qs) }
{
    for n in variables {
        frame.forget_variable(*n);
    }
}

/// Puts what stands in a statement behind what it reads when it begins. Of its own variables
/// nothing is read, and an outer variable that it may assign is read as it stood before.
pub fn enclose(cost: &mut Cost, inside: Cost, touched: &Touched) -> Result<(), AllocError>
    ensures { (a : AnyStatement AnySpot AnyMeant) (reads : List K.Cell) (c : K.Cost)
        → IsTouched a touched.now → IsCost cost.old (read_alone reads) → IsCost inside c
        → OnOk result (IsCost cost.new
        record c { reads = reads ++ filter (is_outer a) c.reads }) }
{
    cost.nodes = inside.nodes;
    let (reads, calls) = inside.into_lists();
    cost.calls = calls;
    for cell in reads.as_slice() {
        if is_outer(cell, touched) {
            cost.reads.push(*cell)?;
        }
    }
    Ok(())
}

fn is_outer(cell: &Cell, touched: &Touched) -> bool
    ensures { (a : AnyStatement AnySpot AnyMeant) → IsTouched a touched.now
        → result ≡ is_outer a (cell_of cell.now) }
{
    match cell {
        Cell::Wire(_) => true,
        Cell::Element {
            variable,
            element: _,
        } => !touched.touches(*variable),
    }
}
