//! Assertions and log lines.
ghost use Rattle.std.specs.Prelude.{◌≡◌, ◌+◌, ◌++◌, ◌∷◌, [], false, List, Some, IfErr, IfOk, OnOk};
ghost use Rattle.std.specs.Prelude.{map};
ghost use Rattle.cir_ast.specs.declared.program.Meant.{Meant as AnyMeant};
ghost use Rattle.cir_ast.specs.Tree.{LogArgument as AnyArgument, bare, bare_argument};
ghost use Rattle.cir_arrays.specs.declared.stop.Fault.TheVariants.{OutOfMemory};
ghost use Rattle.cir_frame.specs.declared.frame.Frame.{Frame as AnyFrame};
ghost use Rattle.cir_frame.specs.Shown.{state_of};
ghost use Rattle.cir_meaning.specs.Arrays.{Scalar};
ghost use Rattle.cir_meaning.specs.Costs.{Cost as AnyCost, Made as Key};
ghost use Rattle.cir_meaning.specs.Evaluate as V;
ghost use Rattle.cir_meaning.specs.Frame.{uncounted};
ghost use Rattle.cir_meaning.specs.Places.{numbers_from};
ghost use Rattle.cir_meaning.specs.Source.{Equation};
ghost use Rattle.cir_meaning.specs.Statement as X;
ghost use Rattle.cir_meaning.specs.Steps as M;
ghost use Rattle.cir_evaluate.specs.Within.{Means, at_spot, context_at, kept_of, where_at};
ghost use Rattle.cir_assign.specs.Leads.{Leads};
ghost use Rattle.cir_execute.specs.Rests.{rest_by, rest_fault};
ghost use Rattle.cir_steps.specs.Step as S;
ghost use Rattle.cir_steps.specs.Emission.{Emission, Emitted, known_in, step_of};
ghost use Rattle.cir_steps.specs.Making.{log_parts};
ghost use Rattle.cir_steps.specs.Statements as E;
ghost use Rattle.wit_circuit.specs.declared.code.LogPart.TheVariants as part;
ghost use Rattle.wit_circuit.specs.Whole.{part_of};
ghost use Rattle.cir_assert.specs.Asserts.{IsAsserted};
ghost use Rattle.cir_make.specs.Emits.{Emits, go_on};
ghost use Rattle.cir_make.specs.Means.{BodyMeans, emitting_in};
ghost use Rattle.cir_make.specs.Shows.{IsKept, Shows};

use cir_arrays::{Datum, Fault};
use cir_ast::program::{Expr, LogArgument, Spot};
use cir_ast::{Kind, Text};
use cir_cost::{Cost, stepped};
use cir_evaluate::{Here, number};
use cir_execute::log as execute_log;
use cir_frame::{Frame, World};
use cir_make::{Body, Cast, Cells, Doing, Inside, Made, Making, Whole, make_step, plain_step};
use cir_values::{Side, side_of};
use items::Items;
use numbers::Numbers;
use std::alloc::{AllocError, Global};
use wit_circuit::LogPart;

/// An assertion is a step where its condition isn't known.
pub fn assert<C, M>(
    body: &Body<C, M>,
    spot: Spot,
    condition: &Expr,
    inside: &mut Inside,
    whole: &mut Whole,
) -> Result<(), Fault>
where
    C: Fn(Spot, u32, Vec<Datum>, &mut World) -> Result<Datum, Fault>,
    M: Fn(Spot, u32, Vec<Datum>, &[u8], &mut Whole) -> Result<Cast, Fault>,
    requires calls { C.IsAlwaysCallable body.now.context.now.call.now }
    requires makes { M.IsAlwaysCallable body.now.make.now }
    ensures { (m : BodyMeans (C.post body.now.context.now.call.now) (M.post body.now.make.now)
        body.now) (d : Emitted) → Shows m.first inside.old whole.old d
        → Emits m.first inside.new whole.new result
        (go_on d (E.emit_assert (emitting_in body.now m) (at_spot body.now.context.now spot)
        (bare condition.now))) }
{
    asserted(&body.context.here(spot), condition, inside, whole)
}

/// An assertion that is known must hold; another is left to the run.
fn asserted<C: Fn(Spot, u32, Vec<Datum>, &mut World) -> Result<Datum, Fault>>(
    here: &Here<C>,
    condition: &Expr,
    inside: &mut Inside,
    whole: &mut Whole,
) -> Result<(), Fault>
    requires calls { C.IsAlwaysCallable here.now.context.now.call.now }
    ensures leads { (m : Means (C.post here.now.context.now.call.now) here.now.context.now)
        (qs : List Equation) → here.now.shaded ≡ false
        → Leads qs whole.old.world inside.new.frame whole.new.world result
        (V.scalar (V.value_in (context_at here.now m) (where_at here.now) false Scalar
        (bare condition.now) (state_of inside.old.frame whole.old.world qs))
        (X.assert_value (context_at here.now m) (where_at here.now) (bare condition.now)
        (state_of inside.old.frame whole.old.world qs))) }
    ensures kept { (m : Means (C.post here.now.context.now.call.now) here.now.context.now)
        (qs : List Equation) (first : List Key) (x : Emission) (steps : List S.Step)
        → here.now.shaded ≡ false → known_in x ≡ state_of inside.old.frame whole.old.world qs
        → IsKept first inside.old.frame inside.old.cells whole.old.made x steps
        → OnOk result (IsAsserted (context_at here.now m) (where_at here.now)
        (bare condition.now) first inside.new whole.new x steps) }
{
    let v = number(here, condition, &inside.frame, &mut whole.world)?;
    match side_of(&v) {
        Side::First => Ok(()),
        Side::Second => Err(here.refused(Kind::AssertFalse)),
        Side::Both => {
            plain_step(
                here,
                Doing::Asserts(condition),
                Numbers::new(here.alloc()),
                &inside.frame,
                &mut inside.cells,
                &mut whole.made,
                &mut whole.world,
            )?;
            let mut cost = Cost::new(here.alloc());
            cost.node();
            cost.add(here, condition, &inside.frame, &mut whole.world)?;
            stepped(here, cost, 0, &mut whole.world)
        }
    }
}

/// A log line is a step, which writes its values.
pub fn log<C, M>(
    body: &Body<C, M>,
    spot: Spot,
    arguments: &[LogArgument],
    inside: &mut Inside,
    whole: &mut Whole,
) -> Result<(), Fault>
where
    C: Fn(Spot, u32, Vec<Datum>, &mut World) -> Result<Datum, Fault>,
    M: Fn(Spot, u32, Vec<Datum>, &[u8], &mut Whole) -> Result<Cast, Fault>,
    requires calls { C.IsAlwaysCallable body.now.context.now.call.now }
    requires makes { M.IsAlwaysCallable body.now.make.now }
    ensures { (m : BodyMeans (C.post body.now.context.now.call.now) (M.post body.now.make.now)
        body.now) (d : Emitted) → Shows m.first inside.old whole.old d
        → Emits m.first inside.new whole.new result
        (go_on d (E.emit_log (emitting_in body.now m) (at_spot body.now.context.now spot)
        (map bare_argument arguments.now))) }
{
    line_step(
        &body.context.here(spot),
        arguments,
        &inside.frame,
        &mut inside.cells,
        &mut whole.made,
        &mut whole.world,
    )?;
    execute_log(
        body.context,
        spot,
        arguments,
        &inside.frame,
        &mut whole.world,
    )
}

/// The step of a log line.
fn line_step<C: Fn(Spot, u32, Vec<Datum>, &mut World) -> Result<Datum, Fault>>(
    here: &Here<C>,
    arguments: &[LogArgument],
    frame: &Frame,
    cells: &mut Cells,
    made: &mut Made,
    world: &mut World,
) -> Result<(), Fault>
    requires calls { C.IsAlwaysCallable here.now.context.now.call.now }
    ensures made { (m : Means (C.post here.now.context.now.call.now) here.now.context.now)
        (qs : List Equation) (first : List Key) (x : Emission) (steps : List S.Step)
        (c : AnyCost) → here.now.shaded ≡ false
        → uncounted (known_in x) ≡ uncounted (state_of frame.now world.old qs)
        → IsKept first frame.now cells.old made.old x steps
        → OnOk result (IsKept first frame.now cells.new made.new
        record x { next = x.next + M.logged_cells (map bare_argument arguments.now) }
        (steps ++ step_of (context_at here.now m) (where_at here.now) (known_in x) c
        (S.Logging (map bare_argument arguments.now))
        (numbers_from x.next (M.logged_cells (map bare_argument arguments.now)))
        (Some (log_parts x.next (map bare_argument arguments.now))) x ∷ [])) }
    ensures memory { IfErr result (λ f. f ≡ OutOfMemory) }
    ensures same { (m : Means (C.post here.now.context.now.call.now) here.now.context.now)
        (f : AnyFrame) (qs : List Equation)
        → OnOk result (state_of f world.new qs ≡ state_of f world.old qs) }
    ensures keeps { Means (C.post here.now.context.now.call.now) here.now.context.now
        → kept_of world.new ≡ kept_of world.old }
{
    let line = line_from(here.alloc(), arguments, made.next)?;
    let next = line.next;
    let step = Making {
        doing: Doing::Logs(arguments),
        befores: &[],
        targets: line.targets,
        line: Some(line.parts),
    };
    make_step(here, step, frame, cells, made, world)?;
    made.next = next;
    Ok(())
}

/// The parts of a log line, the cells of its values, and the next cell.
#[derive(Drop)]
struct Line {
    parts: Items<LogPart>,
    targets: Numbers,
    next: u32,
}

impl Line {
    fn add(&mut self, alloc: Global, argument: &LogArgument) -> Result<(), AllocError>
        ensures parts { (rest : List (AnyArgument AnyMeant)) → OnOk result
            (self.old.parts
            ++ map part_of (log_parts self.old.next (bare_argument argument.now ∷ rest))
            ≡ self.new.parts ++ map part_of (log_parts self.new.next rest)) }
        ensures targets { (rest : List (AnyArgument AnyMeant)) → OnOk result (self.old.targets
            ++ numbers_from self.old.next (M.logged_cells (bare_argument argument.now ∷ rest))
            ≡ self.new.targets ++ numbers_from self.new.next (M.logged_cells rest)) }
        ensures next { (rest : List (AnyArgument AnyMeant)) → OnOk result (self.old.next
            + M.logged_cells (bare_argument argument.now ∷ rest)
            ≡ self.new.next + M.logged_cells rest) }
    {
        match argument {
            LogArgument::Words(text) => self.add_words(alloc, text),
            LogArgument::Value(_) => self.add_value(),
        }
    }

    fn add_words(&mut self, alloc: Global, text: &Text) -> Result<(), AllocError>
        ensures parts { OnOk result (self.new.parts
            ≡ self.old.parts ++ part.Words text.now ∷ []) }
        ensures targets { self.new.targets ≡ self.old.targets }
        ensures next { self.new.next ≡ self.old.next }
    {
        let words = Text::from_slice(alloc, text.as_slice())?;
        self.parts.push(LogPart::Words(words))?;
        Ok(())
    }

    fn add_value(&mut self) -> Result<(), AllocError>
        ensures { OnOk result (
            (self.new.parts ≡ self.old.parts ++ part.Cell self.old.next ∷ [])
            × (self.new.targets ≡ self.old.targets ++ self.old.next ∷ [])
            × (self.new.next ≡ self.old.next + 1)) }
    {
        let cell = self.next;
        let Some(next) = cell.checked_add(1) else {
            return Err(AllocError);
        };
        self.parts.push(LogPart::Cell(cell))?;
        self.targets.push(cell)?;
        self.next = next;
        Ok(())
    }
}

fn line_from(alloc: Global, arguments: &[LogArgument], first: u32) -> Result<Line, AllocError>
    ensures parts { IfOk result (λ line. line.parts
        ≡ map part_of (log_parts first (map bare_argument arguments.now))) }
    ensures targets { IfOk result (λ line. line.targets
        ≡ numbers_from first (M.logged_cells (map bare_argument arguments.now))) }
    ensures next { IfOk result (λ line. line.next
        ≡ first + M.logged_cells (map bare_argument arguments.now)) }
{
    let mut line = Line {
        parts: Items::new(alloc),
        targets: Numbers::new(alloc),
        next: first,
    };
    for argument in arguments {
        line.add(alloc, argument)?;
    }
    Ok(line)
}
