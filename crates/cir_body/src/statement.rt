//! The execution of a template's statements, in source order, with their steps.
ghost use Rattle.std.specs.Prelude.{map};
ghost use Rattle.cir_ast.specs.Tree.{as_statements, bare, bare_first, bare_statement};
ghost use Rattle.cir_meaning.specs.Statement as X;
ghost use Rattle.cir_execute.specs.Rests.{rest_by, rest_fault};
ghost use Rattle.cir_steps.specs.Emission.{Emitted, then_emit};
ghost use Rattle.cir_steps.specs.Emit as E;
ghost use Rattle.cir_steps.specs.Statements as S;
ghost use Rattle.cir_make.specs.Emits.{Emits, go_on};
ghost use Rattle.cir_make.specs.Means.{BodyMeans, emitting_in};
ghost use Rattle.cir_make.specs.Shows.{Shows};
ghost use Rattle.cir_body.specs.Turns.{turn_of};

use crate::simple::{simple, simple_assign, simple_vars};
use crate::undecided::left;
use cir_arrays::{Datum, Fault};
use cir_assert::{assert, log};
use cir_ast::Kind;
use cir_ast::program::{Expr, First, FirstForm, Spot, Statement, StatementForm, Step};
use cir_execute::{Loop, Rest, decide, decide_branch, too_many};
use cir_frame::World;
use cir_make::{Body, Cast, Inside, Whole};
use cir_values::Side;

/// At most as many turns are taken as statements may be executed: their count is tested first.
const MOST_TURNS: u32 = 16777217;

/// Executes statements, one after the other.
#[cycle(statements)]
pub fn execute_all<C, M>(
    body: &Body<C, M>,
    statements: &[Statement],
    inside: &mut Inside,
    whole: &mut Whole,
) -> Result<(), Fault>
where
    C: Fn(Spot, u32, Vec<Datum>, &mut World) -> Result<Datum, Fault>,
    M: Fn(Spot, u32, Vec<Datum>, &[u8], &mut Whole) -> Result<Cast, Fault>,
    requires calls { C.IsAlwaysCallable body.now.context.now.call.now }
    requires makes { M.IsAlwaysCallable body.now.make.now }
    ensures { (m : BodyMeans (C.post body.now.context.now.call.now) (M.post body.now.make.now)
        body.now) (d : Emitted) → Shows m.first inside.old whole.old d
        → Emits m.first inside.new whole.new result
        (go_on d (S.emit_all (emitting_in body.now m)
        (as_statements (map bare_statement statements.now)))) }
{
    for statement in statements {
        execute(body, statement, inside, whole)?;
    }
    Ok(())
}

/// Executes a statement. It is counted when it begins, a simple one at its end.
#[cycle(statements)]
fn execute<C, M>(
    body: &Body<C, M>,
    statement: &Statement,
    inside: &mut Inside,
    whole: &mut Whole,
) -> Result<(), Fault>
where
    C: Fn(Spot, u32, Vec<Datum>, &mut World) -> Result<Datum, Fault>,
    M: Fn(Spot, u32, Vec<Datum>, &[u8], &mut Whole) -> Result<Cast, Fault>,
    requires calls { C.IsAlwaysCallable body.now.context.now.call.now }
    requires makes { M.IsAlwaysCallable body.now.make.now }
    ensures { (m : BodyMeans (C.post body.now.context.now.call.now) (M.post body.now.make.now)
        body.now) (d : Emitted) → Shows m.first inside.old whole.old d
        → Emits m.first inside.new whole.new result
        (go_on d (S.emit (emitting_in body.now m) (bare_statement statement.now))) }
{
    let spot = statement.spot;
    match &statement.form {
        StatementForm::Block(block) => {
            body.context.counted(spot, &mut whole.world)?;
            execute_all(body, block.statements.as_slice(), inside, whole)
        }
        StatementForm::If(condition, chosen) => match decide_branch(
            body.context,
            spot,
            condition,
            &inside.frame,
            &mut whole.world,
        )? {
            Side::First => execute(body, chosen, inside, whole),
            Side::Second => Ok(()),
            Side::Both => left(body, spot, &Rest::Whole(statement), inside, whole),
        },
        StatementForm::IfElse(condition, chosen, other) => match decide_branch(
            body.context,
            spot,
            condition,
            &inside.frame,
            &mut whole.world,
        )? {
            Side::First => execute(body, chosen, inside, whole),
            Side::Second => execute(body, other, inside, whole),
            Side::Both => left(body, spot, &Rest::Whole(statement), inside, whole),
        },
        StatementForm::While(condition, repeated) => {
            body.context.counted(spot, &mut whole.world)?;
            let rest = Rest::Whole(statement);
            turns(body, spot, repeated, condition, None, &rest, inside, whole)
        }
        StatementForm::For(first, condition, step, repeated) => {
            let step: &Step = step;
            let repeated: &Statement = repeated;
            body.context.counted(spot, &mut whole.world)?;
            begin(body, first, inside, whole)?;
            body.context.counted(spot, &mut whole.world)?;
            let rest = Rest::Loop(Loop {
                condition,
                body: repeated,
                step,
            });
            let step = Some(step);
            turns(body, spot, repeated, condition, step, &rest, inside, whole)
        }
        StatementForm::Return(_) => Err(body.context.here(spot).refused(Kind::WrongKind)),
        StatementForm::Assert(condition) => {
            assert(body, spot, condition, inside, whole)?;
            body.context.counted(spot, &mut whole.world)
        }
        StatementForm::Log(arguments) => {
            log(body, spot, arguments.as_slice(), inside, whole)?;
            body.context.counted(spot, &mut whole.world)
        }
        StatementForm::Simple(form) => simple(body, spot, form, inside, whole),
    }
}

/// The turns of a loop, whose step is that of a `for`.
#[cycle(statements)]
fn turns<C, M>(
    body: &Body<C, M>,
    spot: Spot,
    repeated: &Statement,
    condition: &Expr,
    step: Option<&Step>,
    rest: &Rest,
    inside: &mut Inside,
    whole: &mut Whole,
) -> Result<(), Fault>
where
    C: Fn(Spot, u32, Vec<Datum>, &mut World) -> Result<Datum, Fault>,
    M: Fn(Spot, u32, Vec<Datum>, &[u8], &mut Whole) -> Result<Cast, Fault>,
    requires calls { C.IsAlwaysCallable body.now.context.now.call.now }
    requires makes { M.IsAlwaysCallable body.now.make.now }
    ensures { (m : BodyMeans (C.post body.now.context.now.call.now) (M.post body.now.make.now)
        body.now) (d : Emitted) → Shows m.first inside.old whole.old d
        → Emits m.first inside.new whole.new result
        (go_on d (S.emit_turns X.most_turns (emitting_in body.now m) spot (bare condition.now)
        (turn_of (emitting_in body.now m) spot (bare_statement repeated.now) step.entry)
        (S.emit_undecided (emitting_in body.now m) spot (rest_fault rest.now)
        (rest_by spot rest.now)))) }
{
    for _turn in 0..MOST_TURNS {
        match decide(
            body.context,
            spot,
            condition,
            &inside.frame,
            &mut whole.world,
        )? {
            Side::First => turn(body, spot, repeated, step, inside, whole)?,
            Side::Second => return Ok(()),
            Side::Both => return left(body, spot, rest, inside, whole),
        }
    }
    Err(too_many(body.context, spot))
}

/// A turn of a loop: of a `for` it is a block of the body and the step.
#[cycle(statements)]
fn turn<C, M>(
    body: &Body<C, M>,
    spot: Spot,
    repeated: &Statement,
    step: Option<&Step>,
    inside: &mut Inside,
    whole: &mut Whole,
) -> Result<(), Fault>
where
    C: Fn(Spot, u32, Vec<Datum>, &mut World) -> Result<Datum, Fault>,
    M: Fn(Spot, u32, Vec<Datum>, &[u8], &mut Whole) -> Result<Cast, Fault>,
    requires calls { C.IsAlwaysCallable body.now.context.now.call.now }
    requires makes { M.IsAlwaysCallable body.now.make.now }
    ensures { (m : BodyMeans (C.post body.now.context.now.call.now) (M.post body.now.make.now)
        body.now) (d : Emitted) → Shows m.first inside.old whole.old d
        → Emits m.first inside.new whole.new result
        (go_on d (λ x. then_emit (E.emit_counted (emitting_in body.now m) spot x)
        (turn_of (emitting_in body.now m) spot (bare_statement repeated.now) step.entry))) }
{
    body.context.counted(spot, &mut whole.world)?; // the turn
    let Some(step) = step else {
        return execute(body, repeated, inside, whole);
    };
    body.context.counted(spot, &mut whole.world)?;
    execute(body, repeated, inside, whole)?;
    simple_assign(body, step.spot, &step.assign, inside, whole)
}

/// The first statement of a `for`.
fn begin<C, M>(
    body: &Body<C, M>,
    first: &First,
    inside: &mut Inside,
    whole: &mut Whole,
) -> Result<(), Fault>
where
    C: Fn(Spot, u32, Vec<Datum>, &mut World) -> Result<Datum, Fault>,
    M: Fn(Spot, u32, Vec<Datum>, &[u8], &mut Whole) -> Result<Cast, Fault>,
    requires calls { C.IsAlwaysCallable body.now.context.now.call.now }
    requires makes { M.IsAlwaysCallable body.now.make.now }
    ensures { (m : BodyMeans (C.post body.now.context.now.call.now) (M.post body.now.make.now)
        body.now) (d : Emitted) → Shows m.first inside.old whole.old d
        → Emits m.first inside.new whole.new result
        (go_on d (E.emit_simple (emitting_in body.now m) first.now.spot
        (X.first_simple (bare_first first.now.form)))) }
{
    match &first.form {
        FirstForm::Vars(vars) => simple_vars(body, first.spot, vars, inside, whole),
        FirstForm::Assign(assign) => simple_assign(body, first.spot, assign, inside, whole),
    }
}
