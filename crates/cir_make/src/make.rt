//! The making of steps.
ghost use Rattle.std.specs.Prelude.{◌≡◌, ◌++◌, ◌∷◌, [], List, Option, None, false, IfErr, OnOk};
ghost use Rattle.cir_arrays.specs.declared.stop.Fault.TheVariants.{OutOfMemory};
ghost use Rattle.cir_frame.specs.declared.frame.Frame.{Frame as AnyFrame};
ghost use Rattle.cir_frame.specs.Shown.{state_of};
ghost use Rattle.cir_meaning.specs.Source.{Equation};
ghost use Rattle.cir_meaning.specs.Costs.{Made as Key, Cost as AnyCost};
ghost use Rattle.cir_meaning.specs.Frame.{State, uncounted};
ghost use Rattle.cir_evaluate.specs.Within.{Means, context_at, kept_of, where_at};
ghost use Rattle.cir_steps.specs.Step as S;
ghost use Rattle.cir_steps.specs.Emission.{Emission, known_in, step_of};
ghost use Rattle.wit_circuit.specs.Whole.{line_of, place_of};
ghost use Rattle.cir_make.specs.Shows.{IsKept};
ghost use Rattle.cir_make.specs.Steps.{StandsBehind, work_of};

use crate::cells::Cells;
use crate::collecting::Standing;
use crate::whole::Made;
use crate::work::code_for;
use cir_arrays::{Datum, Fault};
use cir_assign::Written;
use cir_ast::program::{Expr, LogArgument, Spot};
use cir_evaluate::Here;
use cir_execute::Rest;
use cir_frame::{Frame, World};
use items::Items;
use numbers::Numbers;
use wit_circuit::{LogPart, MadeStep, StepPlace};

/// So many elements of a variable.
#[derive(Clone, Copy)]
pub struct Elements {
    pub variable: u32,
    pub count: u64,
}

/// What a step does.
#[derive(Clone, Copy)]
pub enum Doing<'a, 'b> {
    /// A write of signals gives its value.
    Gives(&'a Expr),
    Compares(&'a Expr, &'a Expr),
    Asserts(&'a Expr),
    Logs(&'a [LogArgument]),
    /// An assignment gives elements of its variable, by their places.
    Sets(&'a Written<'b>, &'a [u64]),
    /// What is left where a condition isn't known gives the variables that it may assign.
    Decides(&'a Rest<'b>, &'a [Elements]),
}

/// A variable's value before what comes first of a step.
#[derive(Drop)]
pub struct Before {
    pub variable: u32,
    pub value: Datum,
}

/// What a step does, the cells that it writes, and its log line.
#[derive(Drop)]
pub struct Making<'a, 'b> {
    pub doing: Doing<'a, 'b>,
    /// Variables that had other values before: of what is left where a condition isn't known,
    /// those that it may assign.
    pub befores: &'a [Before],
    pub targets: Numbers,
    pub line: Option<Items<LogPart>>,
}

/// Where a step stands.
fn place_at<C>(here: &Here<C>) -> StepPlace
    ensures { result ≡ place_of (where_at here.now) }
{
    StepPlace {
        file: here.context.file,
        spot: here.spot,
        instance: here.context.instance,
    }
}

/// One more step of the body, with its code.
pub fn make_step<C: Fn(Spot, u32, Vec<Datum>, &mut World) -> Result<Datum, Fault>>(
    here: &Here<C>,
    step: Making,
    frame: &Frame,
    cells: &mut Cells,
    made: &mut Made,
    world: &mut World,
) -> Result<(), Fault>
    requires calls { C.IsAlwaysCallable here.now.context.now.call.now }
    ensures made { (m : Means (C.post here.now.context.now.call.now) here.now.context.now)
        (qs : List Equation) (f : AnyFrame) (first : List Key) (x : Emission)
        (steps : List S.Step) (s : State) (c : AnyCost) (line : Option (List S.LogPart))
        → here.now.shaded ≡ false → step.entry.line ≡ line_of line
        → uncounted s ≡ uncounted (state_of frame.now world.old qs)
        → StandsBehind f x s step.entry.befores.now → IsKept first f cells.old made.old x steps
        → OnOk result (IsKept first f cells.new made.new x (steps ++ step_of (context_at here.now m)
        (where_at here.now) s c (work_of here.now.spot step.entry.doing) step.entry.targets
        line x ∷ [])) }
    ensures memory { IfErr result (λ f. f ≡ OutOfMemory) }
    ensures same { (m : Means (C.post here.now.context.now.call.now) here.now.context.now)
        (f : AnyFrame) (qs : List Equation)
        → OnOk result (state_of f world.new qs ≡ state_of f world.old qs) }
    ensures keeps { Means (C.post here.now.context.now.call.now) here.now.context.now
        → kept_of world.new ≡ kept_of world.old }
    ensures next { made.new.next ≡ made.old.next }
{
    let Making {
        doing,
        befores,
        targets,
        line,
    } = step;
    let standing = Standing {
        frame,
        cells,
        befores,
    };
    let code = code_for(here, &standing, doing, targets, &mut made.keys, world)?;
    let place = place_at(here);
    cells.steps.push(MadeStep { place, code, line })?;
    Ok(())
}

/// A step of the statement at hand, without a log line.
pub fn plain_step<C: Fn(Spot, u32, Vec<Datum>, &mut World) -> Result<Datum, Fault>>(
    here: &Here<C>,
    doing: Doing,
    targets: Numbers,
    frame: &Frame,
    cells: &mut Cells,
    made: &mut Made,
    world: &mut World,
) -> Result<(), Fault>
    requires calls { C.IsAlwaysCallable here.now.context.now.call.now }
    ensures made { (m : Means (C.post here.now.context.now.call.now) here.now.context.now)
        (qs : List Equation) (first : List Key) (x : Emission) (steps : List S.Step) (c : AnyCost)
        → here.now.shaded ≡ false
        → uncounted (known_in x) ≡ uncounted (state_of frame.now world.old qs)
        → IsKept first frame.now cells.old made.old x steps
        → OnOk result (IsKept first frame.now cells.new made.new x (steps
        ++ step_of (context_at here.now m) (where_at here.now) (known_in x) c
        (work_of here.now.spot doing.entry) targets None x ∷ [])) }
    ensures memory { IfErr result (λ f. f ≡ OutOfMemory) }
    ensures same { (m : Means (C.post here.now.context.now.call.now) here.now.context.now)
        (f : AnyFrame) (qs : List Equation)
        → OnOk result (state_of f world.new qs ≡ state_of f world.old qs) }
    ensures keeps { Means (C.post here.now.context.now.call.now) here.now.context.now
        → kept_of world.new ≡ kept_of world.old }
    ensures next { made.new.next ≡ made.old.next }
{
    let step = Making {
        doing,
        befores: &[],
        targets,
        line: None,
    };
    make_step(here, step, frame, cells, made, world)
}
