//! The execution of statements, in source order.
ghost use Rattle.std.specs.Prelude.{◌≡◌, false, List, OnOk, map};
ghost use Rattle.cir_ast.specs.declared.refusal.Kind.TheVariants.{Limit as LimitKind};
ghost use Rattle.cir_ast.specs.declared.refusal.Which.TheVariants.{Statements as StatementCount};
ghost use Rattle.cir_ast.specs.Tree.{Return, as_statements, bare, bare_argument, bare_first};
ghost use Rattle.cir_ast.specs.Tree.{bare_statement};
ghost use Rattle.cir_arrays.specs.Stopped.{Refuses};
ghost use Rattle.cir_frame.specs.declared.frame.Frame.{Frame as AnyFrame};
ghost use Rattle.cir_frame.specs.declared.world.World.{World as AnyWorld};
ghost use Rattle.cir_frame.specs.Shown.{state_of};
ghost use Rattle.cir_meaning.specs.Frame.{State};
ghost use Rattle.cir_meaning.specs.Tried.{Tried, next};
ghost use Rattle.cir_meaning.specs.Source.{Equation};
ghost use Rattle.cir_meaning.specs.Arrays.{Scalar};
ghost use Rattle.cir_meaning.specs.Frame as W;
ghost use Rattle.cir_meaning.specs.Evaluate as E;
ghost use Rattle.cir_meaning.specs.Scan as U;
ghost use Rattle.cir_meaning.specs.Simple as S;
ghost use Rattle.cir_meaning.specs.Statement as X;
ghost use Rattle.cir_evaluate.specs.Within.{Means, at_spot, context_of};
ghost use Rattle.cir_assign.specs.Leads.{Leads};
ghost use Rattle.cir_create.specs.Makes.{BodyMeans, context_in};
ghost use Rattle.cir_execute.specs.Flows.{Decides, Flows};
ghost use Rattle.cir_execute.specs.Rests.{rest_by, rest_fault, turn_of};

use crate::scan::discard;
use crate::simple::{simple, simple_assign, simple_vars};
use crate::undecided::{Loop, Rest, undecided};
use cir_arrays::{Datum, Fault};
use cir_ast::program::{Expr, First, FirstForm, LogArgument, Spot, Statement, StatementForm, Step};
use cir_ast::{Kind, Which};
use cir_cost::{Cost, log_cost, stepped};
use cir_create::Body;
use cir_evaluate::{Context, datum, number};
use cir_frame::{Frame, SignalEntry, World};
use cir_values::{Side, side_of};

/// A statement goes on to the next, or returns from its function.
#[derive(Drop)]
pub enum Flow {
    Going,
    Returned(Datum),
}

/// At most as many turns are taken as statements may be executed: their count is tested first.
const MOST_TURNS: u32 = 16777217;

/// Executes statements up to a `return`.
#[cycle(statements)]
pub fn execute_all<C, M>(
    body: &Body<C, M>,
    statements: &[Statement],
    frame: &mut Frame,
    world: &mut World,
) -> Result<Flow, Fault>
where
    C: Fn(Spot, u32, Vec<Datum>, &mut World) -> Result<Datum, Fault>,
    M: Fn(Spot, u32, Vec<Datum>, &[u8], &mut World) -> Result<Vec<Option<SignalEntry>>, Fault>,
    requires calls { C.IsAlwaysCallable body.now.context.now.call.now }
    requires makes { M.IsAlwaysCallable body.now.make.now }
    ensures { (m : BodyMeans (C.post body.now.context.now.call.now) (M.post body.now.make.now)
        body.now) (qs : List Equation) → Flows qs world.old frame.new world.new result
        (X.exec_all (context_in body.now m) (as_statements (map bare_statement statements.now))
        (state_of frame.old world.old qs)) }
{
    for statement in statements {
        match execute(body, statement, frame, world)? {
            Flow::Going => {}
            Flow::Returned(d) => return Ok(Flow::Returned(d)),
        }
    }
    Ok(Flow::Going)
}

/// Executes a statement. It is counted when it begins, a simple one at its end.
#[cycle(statements)]
fn execute<C, M>(
    body: &Body<C, M>,
    statement: &Statement,
    frame: &mut Frame,
    world: &mut World,
) -> Result<Flow, Fault>
where
    C: Fn(Spot, u32, Vec<Datum>, &mut World) -> Result<Datum, Fault>,
    M: Fn(Spot, u32, Vec<Datum>, &[u8], &mut World) -> Result<Vec<Option<SignalEntry>>, Fault>,
    requires calls { C.IsAlwaysCallable body.now.context.now.call.now }
    requires makes { M.IsAlwaysCallable body.now.make.now }
    ensures { (m : BodyMeans (C.post body.now.context.now.call.now) (M.post body.now.make.now)
        body.now) (qs : List Equation) → Flows qs world.old frame.new world.new result
        (X.exec (context_in body.now m) (bare_statement statement.now)
        (state_of frame.old world.old qs)) }
{
    let spot = statement.spot;
    match &statement.form {
        StatementForm::Block(block) => {
            body.context.counted(spot, world)?;
            execute_all(body, block.statements.as_slice(), frame, world)
        }
        StatementForm::If(condition, chosen) => match decide_branch(
            body.context,
            spot,
            condition,
            frame,
            world,
        )? {
            Side::First => execute(body, chosen, frame, world),
            Side::Second => Ok(Flow::Going),
            Side::Both => left(body.context, spot, &Rest::Whole(statement), frame, world),
        },
        StatementForm::IfElse(condition, chosen, other) => {
            match decide_branch(body.context, spot, condition, frame, world)? {
                Side::First => execute(body, chosen, frame, world),
                Side::Second => execute(body, other, frame, world),
                Side::Both => left(body.context, spot, &Rest::Whole(statement), frame, world),
            }
        }
        StatementForm::While(condition, repeated) => {
            body.context.counted(spot, world)?;
            let rest = Rest::Whole(statement);
            turns(body, spot, repeated, condition, None, &rest, frame, world)
        }
        StatementForm::For(first, condition, step, repeated) => {
            let step: &Step = step;
            let repeated: &Statement = repeated;
            begin(body, spot, first, frame, world)?;
            let rest = Rest::Loop(Loop {
                condition,
                body: repeated,
                step,
            });
            let step = Some(step);
            turns(body, spot, repeated, condition, step, &rest, frame, world)
        }
        StatementForm::Return(value) => returned(body.context, spot, value, frame, world),
        StatementForm::Assert(condition) => {
            assert(body.context, spot, condition, frame, world)?;
            ended(body.context.counted(spot, world))
        }
        StatementForm::Log(arguments) => {
            log(body.context, spot, arguments.as_slice(), frame, world)?;
            ended(body.context.counted(spot, world))
        }
        StatementForm::Simple(form) => ended(simple(body, spot, form, frame, world)),
    }
}

/// Behind a step that is done a statement goes on to the next.
fn ended(step: Result<(), Fault>) -> Result<Flow, Fault>
    ensures { (qs : List Equation) (old new : AnyWorld) (f : AnyFrame) (m : Tried State)
        → Leads qs old f new step m → Flows qs old f new result (X.goes m) }
{
    step?;
    Ok(Flow::Going)
}

/// A `return` is counted behind its value.
fn returned<C: Fn(Spot, u32, Vec<Datum>, &mut World) -> Result<Datum, Fault>>(
    context: &Context<C>,
    spot: Spot,
    value: &Expr,
    frame: &Frame,
    world: &mut World,
) -> Result<Flow, Fault>
    requires calls { C.IsAlwaysCallable context.now.call.now }
    ensures { (m : Means (C.post context.now.call.now) context.now) (qs : List Equation)
        → Flows qs world.old frame.now world.new result
        (X.exec (context_of context.now m.call m.make) (Return spot (bare value.now))
        (state_of frame.now world.old qs)) }
{
    let d = datum(&context.here(spot), value, frame, world)?;
    context.counted(spot, world)?;
    Ok(Flow::Returned(d))
}

/// What is left where a condition isn't known is a run-time statement.
fn left<C: Fn(Spot, u32, Vec<Datum>, &mut World) -> Result<Datum, Fault>>(
    context: &Context<C>,
    spot: Spot,
    rest: &Rest,
    frame: &mut Frame,
    world: &mut World,
) -> Result<Flow, Fault>
    requires calls { C.IsAlwaysCallable context.now.call.now }
    ensures { (m : Means (C.post context.now.call.now) context.now) (qs : List Equation)
        → Flows qs world.old frame.new world.new result
        (X.goes (U.undecided (context_of context.now m.call m.make) spot (rest_fault rest.now)
        (rest_by spot rest.now) (state_of frame.old world.old qs))) }
{
    ended(undecided(context, spot, rest, frame, world))
}

/// A compound statement is counted when it begins; then comes its condition.
pub fn decide_branch<C: Fn(Spot, u32, Vec<Datum>, &mut World) -> Result<Datum, Fault>>(
    context: &Context<C>,
    spot: Spot,
    condition: &Expr,
    frame: &Frame,
    world: &mut World,
) -> Result<Side, Fault>
    requires calls { C.IsAlwaysCallable context.now.call.now }
    ensures side { (m : Means (C.post context.now.call.now) context.now) (qs : List Equation)
        → Decides (state_of frame.now world.new qs) result
        (next (W.counted (at_spot context.now spot) (state_of frame.now world.old qs))
        (X.condition (context_of context.now m.call m.make) spot (bare condition.now))) }
    ensures constraints { Means (C.post context.now.call.now) context.now
        → OnOk result (world.new.constraints.items ≡ world.old.constraints.items) }
{
    context.counted(spot, world)?;
    decide(context, spot, condition, frame, world)
}

/// Whether a condition is true, false, or not known.
pub fn decide<C: Fn(Spot, u32, Vec<Datum>, &mut World) -> Result<Datum, Fault>>(
    context: &Context<C>,
    spot: Spot,
    condition: &Expr,
    frame: &Frame,
    world: &mut World,
) -> Result<Side, Fault>
    requires calls { C.IsAlwaysCallable context.now.call.now }
    ensures side { (m : Means (C.post context.now.call.now) context.now) (qs : List Equation)
        → Decides (state_of frame.now world.new qs) result
        (X.condition (context_of context.now m.call m.make) spot (bare condition.now)
        (state_of frame.now world.old qs)) }
    ensures constraints { Means (C.post context.now.call.now) context.now
        → OnOk result (world.new.constraints.items ≡ world.old.constraints.items) }
{
    let v = number(&context.here(spot), condition, frame, world)?;
    let side = side_of(&v);
    discard(v);
    context.settle(spot, world)?;
    Ok(side)
}

/// The turns of a loop, whose step is that of a `for`.
#[cycle(statements)]
fn turns<C, M>(
    body: &Body<C, M>,
    spot: Spot,
    repeated: &Statement,
    condition: &Expr,
    step: Option<&Step>,
    rest: &Rest,
    frame: &mut Frame,
    world: &mut World,
) -> Result<Flow, Fault>
where
    C: Fn(Spot, u32, Vec<Datum>, &mut World) -> Result<Datum, Fault>,
    M: Fn(Spot, u32, Vec<Datum>, &[u8], &mut World) -> Result<Vec<Option<SignalEntry>>, Fault>,
    requires calls { C.IsAlwaysCallable body.now.context.now.call.now }
    requires makes { M.IsAlwaysCallable body.now.make.now }
    ensures { (m : BodyMeans (C.post body.now.context.now.call.now) (M.post body.now.make.now)
        body.now) (qs : List Equation) → Flows qs world.old frame.new world.new result
        (X.turns X.most_turns (context_in body.now m) spot (bare condition.now)
        (turn_of (context_in body.now m) spot (bare_statement repeated.now) step.entry)
        (λ s. X.goes (U.undecided (context_in body.now m) spot (rest_fault rest.now)
        (rest_by spot rest.now) s))
        (state_of frame.old world.old qs)) }
{
    for _turn in 0..MOST_TURNS {
        match decide(body.context, spot, condition, frame, world)? {
            Side::First => match turn(body, spot, repeated, step, frame, world)? {
                Flow::Going => {}
                Flow::Returned(d) => return Ok(Flow::Returned(d)),
            },
            Side::Second => return Ok(Flow::Going),
            Side::Both => return left(body.context, spot, rest, frame, world),
        }
    }
    Err(too_many(body.context, spot))
}

/// The refusal of a loop that takes more turns than there may be statements.
pub fn too_many<C>(context: &Context<C>, spot: Spot) -> Fault
    ensures { Refuses (at_spot context.now spot) (LimitKind StatementCount 16777217) result }
{
    let which = Which::Statements;
    let count = u64::from(MOST_TURNS);
    context
        .at(spot)
        .refused(context.alloc, Kind::Limit { which, count })
}

/// A turn of a loop: of a `for` it is a block of the body and the step.
#[cycle(statements)]
fn turn<C, M>(
    body: &Body<C, M>,
    spot: Spot,
    repeated: &Statement,
    step: Option<&Step>,
    frame: &mut Frame,
    world: &mut World,
) -> Result<Flow, Fault>
where
    C: Fn(Spot, u32, Vec<Datum>, &mut World) -> Result<Datum, Fault>,
    M: Fn(Spot, u32, Vec<Datum>, &[u8], &mut World) -> Result<Vec<Option<SignalEntry>>, Fault>,
    requires calls { C.IsAlwaysCallable body.now.context.now.call.now }
    requires makes { M.IsAlwaysCallable body.now.make.now }
    ensures { (m : BodyMeans (C.post body.now.context.now.call.now) (M.post body.now.make.now)
        body.now) (qs : List Equation) → Flows qs world.old frame.new world.new result
        (next (W.counted (at_spot body.now.context.now spot) (state_of frame.old world.old qs))
        (turn_of (context_in body.now m) spot (bare_statement repeated.now) step.entry)) }
{
    body.context.counted(spot, world)?; // the turn
    let Some(step) = step else {
        return execute(body, repeated, frame, world);
    };
    body.context.counted(spot, world)?;
    match execute(body, repeated, frame, world)? {
        Flow::Returned(d) => Ok(Flow::Returned(d)),
        Flow::Going => ended(simple_assign(body, step.spot, &step.assign, frame, world)),
    }
}

/// A `for` is counted when it begins, and as a loop behind its first statement.
fn begin<C, M>(
    body: &Body<C, M>,
    spot: Spot,
    first: &First,
    frame: &mut Frame,
    world: &mut World,
) -> Result<(), Fault>
where
    C: Fn(Spot, u32, Vec<Datum>, &mut World) -> Result<Datum, Fault>,
    M: Fn(Spot, u32, Vec<Datum>, &[u8], &mut World) -> Result<Vec<Option<SignalEntry>>, Fault>,
    requires calls { C.IsAlwaysCallable body.now.context.now.call.now }
    requires makes { M.IsAlwaysCallable body.now.make.now }
    ensures { (m : BodyMeans (C.post body.now.context.now.call.now) (M.post body.now.make.now)
        body.now) (qs : List Equation) → Leads qs world.old frame.new world.new result
        (next (W.counted (at_spot body.now.context.now spot) (state_of frame.old world.old qs))
        (λ s. next (S.simple (context_in body.now m) first.now.spot
        (X.first_simple (bare_first first.now.form)) s)
        (W.counted (at_spot body.now.context.now spot)))) }
{
    body.context.counted(spot, world)?;
    first_statement(body, first, frame, world)?;
    body.context.counted(spot, world)
}

/// The first statement of a `for`.
fn first_statement<C, M>(
    body: &Body<C, M>,
    first: &First,
    frame: &mut Frame,
    world: &mut World,
) -> Result<(), Fault>
where
    C: Fn(Spot, u32, Vec<Datum>, &mut World) -> Result<Datum, Fault>,
    M: Fn(Spot, u32, Vec<Datum>, &[u8], &mut World) -> Result<Vec<Option<SignalEntry>>, Fault>,
    requires calls { C.IsAlwaysCallable body.now.context.now.call.now }
    requires makes { M.IsAlwaysCallable body.now.make.now }
    ensures { (m : BodyMeans (C.post body.now.context.now.call.now) (M.post body.now.make.now)
        body.now) (qs : List Equation) → Leads qs world.old frame.new world.new result
        (S.simple (context_in body.now m) first.now.spot
        (X.first_simple (bare_first first.now.form))
        (state_of frame.old world.old qs)) }
{
    match &first.form {
        FirstForm::Vars(vars) => simple_vars(body, first.spot, vars, frame, world),
        FirstForm::Assign(assign) => simple_assign(body, first.spot, assign, frame, world),
    }
}

/// An assertion that is known must hold; another is left to the run.
fn assert<C: Fn(Spot, u32, Vec<Datum>, &mut World) -> Result<Datum, Fault>>(
    context: &Context<C>,
    spot: Spot,
    condition: &Expr,
    frame: &Frame,
    world: &mut World,
) -> Result<(), Fault>
    requires calls { C.IsAlwaysCallable context.now.call.now }
    ensures { (m : Means (C.post context.now.call.now) context.now) (qs : List Equation)
        → Leads qs world.old frame.now world.new result
        (E.scalar (E.value_in (context_of context.now m.call m.make) (at_spot context.now spot)
        false Scalar (bare condition.now) (state_of frame.now world.old qs))
        (X.assert_value (context_of context.now m.call m.make) (at_spot context.now spot)
        (bare condition.now) (state_of frame.now world.old qs))) }
{
    let here = context.here(spot);
    let v = number(&here, condition, frame, world)?;
    let side = side_of(&v);
    discard(v);
    match side {
        Side::First => Ok(()),
        Side::Second => Err(here.refused(Kind::AssertFalse)),
        Side::Both => {
            let mut cost = Cost::new(context.alloc);
            cost.node();
            cost.add(&here, condition, frame, world)?;
            stepped(&here, cost, 0, world)
        }
    }
}

/// The values of a `log` are cells.
pub fn log<C: Fn(Spot, u32, Vec<Datum>, &mut World) -> Result<Datum, Fault>>(
    context: &Context<C>,
    spot: Spot,
    arguments: &[LogArgument],
    frame: &Frame,
    world: &mut World,
) -> Result<(), Fault>
    requires calls { C.IsAlwaysCallable context.now.call.now }
    ensures { (m : Means (C.post context.now.call.now) context.now) (qs : List Equation)
        → Leads qs world.old frame.now world.new result
        (X.log_values (context_of context.now m.call m.make) (at_spot context.now spot)
        (map bare_argument arguments.now) (state_of frame.now world.old qs)) }
{
    let here = context.here(spot);
    let mut cells = 0u64;
    for argument in arguments {
        if let LogArgument::Value(e) = argument {
            let v = number(&here, e, frame, world)?;
            discard(v);
            cells = cells.saturating_add(1);
        }
    }
    let cost = log_cost(&here, arguments, frame, world)?;
    stepped(&here, cost, cells, world)
}
