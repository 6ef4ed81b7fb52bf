//! The code of a run-time statement with what it is to write.
ghost use Rattle.std.specs.Prelude.{◌≡◌, ◌++◌, map, length, OnOk};
ghost use Rattle.cir_ast.specs.Tree.{bare_argument};
ghost use Rattle.wit_lower.specs.Tasks as T;
ghost use Rattle.wit_statements.specs.Asked.{element_of, task_of};
ghost use Rattle.wit_sourced.specs.Shown.{homes_of, scope_of};
ghost use Rattle.wit_emit.specs.Grounds.{ground_of};

use crate::assigning::emit_assign;
use crate::statements::{emit_inner, emit_turns};
use cir_ast::program::{Assign, Expr, LogArgument, Spot, Statement, Step};
use items::Items;
use numbers::behind;
use std::alloc::AllocError;
use wit_code::Op;
use wit_emit::{Ground, emit, size_of};
use wit_sourced::{Scope, Sought};

/// An element of a variable.
#[derive(Clone, Copy)]
pub struct Element {
    pub variable: u32,
    pub element: u64,
}

/// A run-time statement, with the elements of variables that it is to write.
#[derive(Clone, Copy)]
pub enum Task<'a> {
    /// A write of signals gives its value.
    Gives(&'a Expr),
    /// Two sides that are to be equal give nothing.
    Equal(&'a Expr, &'a Expr),
    /// A `log` gives its numbers.
    Logs(&'a [LogArgument]),
    Asserts(Spot, &'a Expr),
    Assigns(Spot, &'a Assign, &'a [Element]),
    Executes(&'a Statement, &'a [Element]),
    /// The loop that is left of a `for` behind its first statement.
    Repeats(Spot, &'a Expr, &'a Step, &'a Statement, &'a [Element]),
}

/// Numbers in a row are written.
fn writes(code: &mut Items<Op>, from: u32, count: u64) -> Result<(), AllocError>
    ensures { OnOk result (code.new ≡ code.old ++ T.writes from count) }
{
    let mut left = count;
    let mut at = from;
    while left > 0 {
        code.push(Op::Write(at))?;
        at = behind(at, 1)?;
        left -= 1;
    }
    Ok(())
}

/// The numbers of a line of the log.
fn emit_logs(
    ground: &Ground,
    scope: &Scope,
    code: &mut Items<Op>,
    arguments: &[LogArgument],
) -> Result<(), AllocError>
    ensures { OnOk result (code.new ≡ code.old ++ T.logs_code (ground_of ground.now)
        (scope_of scope.now) (length code.old) (T.logged (map bare_argument arguments.now))) }
{
    for argument in arguments {
        if let LogArgument::Value(e) = argument {
            emit(ground, scope, code, scope.top, e)?;
            code.push(Op::Write(scope.top))?;
        }
    }
    Ok(())
}

/// The elements that are wanted.
fn emit_targets(scope: &Scope, code: &mut Items<Op>, targets: &[Element]) -> Result<(), AllocError>
    ensures { OnOk result (code.new ≡ code.old
        ++ T.targets_code (homes_of scope.now.homes.items) (map element_of targets.now)) }
{
    for target in targets {
        if let Some(home) = scope.find(Sought::Variable(target.variable)) {
            code.push(Op::Write(behind(home.base, target.element)?))?;
        }
    }
    Ok(())
}

/// What is asked for is executed, and what it gives is written.
pub fn emit_task(
    ground: &Ground,
    scope: &Scope,
    code: &mut Items<Op>,
    task: Task,
) -> Result<(), AllocError>
    ensures { OnOk result (code.new ≡ code.old ++ T.task_code (ground_of ground.now)
        (scope_of scope.now) (length code.old) (task_of task.entry)) }
{
    let top = scope.top;
    match task {
        Task::Gives(e) => {
            emit(ground, scope, code, top, e)?;
            writes(code, top, size_of(ground, scope, e)?)?;
            Ok(())
        }
        Task::Equal(a, b) => {
            let next = behind(top, 1)?;
            emit(ground, scope, code, top, a)?;
            emit(ground, scope, code, next, b)?;
            code.push(Op::Check(top, next))?;
            Ok(())
        }
        Task::Logs(arguments) => {
            emit_logs(ground, scope, code, arguments)?;
            Ok(())
        }
        Task::Asserts(_, e) => {
            emit(ground, scope, code, top, e)?;
            code.push(Op::Assert(top))?;
            Ok(())
        }
        Task::Assigns(_, a, targets) => {
            emit_assign(ground, scope, code, a)?;
            emit_targets(scope, code, targets)?;
            Ok(())
        }
        Task::Executes(a, targets) => {
            let mut inner = scope.copied(ground.alloc)?;
            emit_inner(ground, &mut inner, code, a)?;
            emit_targets(scope, code, targets)?;
            Ok(())
        }
        Task::Repeats(_, condition, step, body, targets) => {
            let mut inner = scope.copied(ground.alloc)?;
            emit_turns(
                ground,
                &mut inner,
                code,
                body,
                condition,
                Some(&step.assign),
            )?;
            emit_targets(scope, code, targets)?;
            Ok(())
        }
    }
}
