ghost use Rattle.std.specs.Prelude.{◌≡◌};
ghost use Rattle.cir_ast.specs.Tree.{bare_assign, bare_first, bare_simple, bare_statement};
ghost use Rattle.cir_ast.specs.Tree.{bare_block};
ghost use Rattle.cir_meaning.specs.Unknown.{meant_fault, assign_fault, first_fault, simple_fault};
ghost use Rattle.cir_meaning.specs.Unknown.{fault_of, fault_in};
ghost use Rattle.cir_known.specs.Answers.{Tells};

use cir_ast::program::{Assign, Block, FirstForm, Meant, Simple, Spot, Statement, StatementForm};

/// Why statements may not stand under an unknown condition.
#[derive(Clone, Copy)]
pub enum UnknownFault {
    /// This statement may not stand there.
    Control { line: u32, column: u32 },
    /// This statement is a `log`.
    Log { line: u32, column: u32 },
    /// Never answered, since no memory is taken.
    OutOfMemory,
}

/// Names the first statement of a block, in source order, that may not stand under an unknown
/// condition. What may stand there: declarations of variables, assignments to variables, `assert`,
/// and `if`, `while`, `for` and blocks of such statements. The head of a `for` comes before its
/// body.
#[cycle(allowed)]
pub fn allowed_unknown(block: &Block) -> Result<(), UnknownFault>
    ensures { Tells result (fault_in (bare_block block.now)) }
{
    for statement in block.statements.as_slice() {
        allowed_statement(statement)?;
    }
    Ok(())
}

/// The same of one statement.
#[cycle(allowed)]
pub fn allowed_statement(statement: &Statement) -> Result<(), UnknownFault>
    ensures { Tells result (fault_of (bare_statement statement.now)) }
{
    let spot = statement.spot;
    match &statement.form {
        StatementForm::Block(block) => allowed_unknown(block),
        StatementForm::If(_, chosen) => allowed_statement(chosen),
        StatementForm::IfElse(_, chosen, other) => {
            allowed_statement(chosen)?;
            allowed_statement(other)
        }
        StatementForm::While(_, body) => allowed_statement(body),
        StatementForm::For(first, _, step, body) => {
            allowed_first(first.spot, &first.form)?;
            allowed_assign(step.spot, &step.assign)?;
            allowed_statement(body)
        }
        StatementForm::Return(_) => Err(UnknownFault::control(spot)),
        StatementForm::Assert(_) => Ok(()),
        StatementForm::Log(_) => Err(UnknownFault::log(spot)),
        StatementForm::Simple(simple) => allowed_simple(spot, simple),
    }
}

impl UnknownFault {
    ghost use Rattle.cir_known.specs.declared.faults.UnknownFault.TheVariants.{Control, Log};

    fn control(spot: Spot) -> UnknownFault
        ensures { result ≡ Control spot.line spot.column }
    {
        UnknownFault::Control {
            line: spot.line,
            column: spot.column,
        }
    }

    fn log(spot: Spot) -> UnknownFault
        ensures { result ≡ Log spot.line spot.column }
    {
        UnknownFault::Log {
            line: spot.line,
            column: spot.column,
        }
    }
}

fn allowed_first(spot: Spot, first: &FirstForm) -> Result<(), UnknownFault>
    ensures { Tells result (first_fault spot (bare_first first.now)) }
{
    match first {
        FirstForm::Vars(_) => Ok(()),
        FirstForm::Assign(assign) => allowed_assign(spot, assign),
    }
}

#[tactic(auto, using(crate::proofs::Components::components_fault))]
fn allowed_simple(spot: Spot, simple: &Simple) -> Result<(), UnknownFault>
    ensures { Tells result (simple_fault spot (bare_simple simple.now)) }
{
    match simple {
        Simple::Vars(_) => Ok(()),
        Simple::Assign(assign) => allowed_assign(spot, assign),
        Simple::Signals(_)
        | Simple::Components(_)
        | Simple::Constrain(_, _)
        | Simple::Right(_, _, _)
        | Simple::TargetLeft(_, _, _)
        | Simple::TargetRight(_, _, _)
        | Simple::Anonymous(_) => Err(UnknownFault::control(spot)),
    }
}

/// The same of an assignment at this place.
pub fn allowed_assign(spot: Spot, assign: &Assign) -> Result<(), UnknownFault>
    ensures { Tells result (assign_fault spot (bare_assign assign.now)) }
{
    match assign {
        Assign::Set(place, _)
        | Assign::Compound(place, _, _)
        | Assign::Increment(place)
        | Assign::Decrement(place) => allowed_meant(spot, place.meant),
        Assign::Left(_, _, _) => Err(UnknownFault::control(spot)),
    }
}

/// Whether what an assignment writes is a variable.
fn allowed_meant(spot: Spot, meant: Meant) -> Result<(), UnknownFault>
    ensures { Tells result (meant_fault spot meant) }
{
    match meant {
        Meant::Variable(_) => Ok(()),
        Meant::Other
        | Meant::Signal(_, _)
        | Meant::Component(_)
        | Meant::Template(_)
        | Meant::Function(_) => Err(UnknownFault::control(spot)),
    }
}
