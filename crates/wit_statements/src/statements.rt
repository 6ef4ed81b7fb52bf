//! The code of statements. What a statement declares has its home for the rest of its block.
ghost use Rattle.std.specs.Prelude.{◌≡◌, ◌++◌, map, length, option_map, take, OnOk};
ghost use Rattle.std.specs.Option.{option_copied};
ghost use Rattle.cir_ast.specs.Tree.{as_statements, bare, bare_assign, bare_block, bare_first};
ghost use Rattle.cir_ast.specs.Tree.{bare_simple, bare_statement};
ghost use Rattle.wit_lower.specs.Pieces as P;
ghost use Rattle.wit_lower.specs.Statements as S;
ghost use Rattle.wit_sourced.specs.Behind.{IsBehind, IsLeft};
ghost use Rattle.wit_statements.specs.Parts as E;
ghost use Rattle.wit_sourced.specs.Shown.{scope_of};
ghost use Rattle.wit_emit.specs.Grounds.{ground_of};

use crate::assigning::emit_assign;
use crate::declaring::emit_variables;
use cir_ast::program::{Assign, Block, Expr, FirstForm, Simple, Statement, StatementForm};
use items::Items;
use std::alloc::AllocError;
use wit_code::Op;
use wit_emit::{
    Ground, begin_jump, begin_other, begin_turns, emit, end_jump, end_jump_zero, end_turns,
};
use wit_sourced::Scope;

/// What the head of a `for` begins with.
fn emit_first(
    ground: &Ground,
    scope: &mut Scope,
    code: &mut Items<Op>,
    first: &FirstForm,
) -> Result<(), AllocError>
    ensures code { OnOk result (code.new ≡ code.old ++ S.first_code (ground_of ground.now)
        (scope_of scope.old) (length code.old) (bare_first first.now)) }
    ensures scope { OnOk result (IsBehind scope.old scope.new
        (S.first_scope (ground_of ground.now) (scope_of scope.old) (bare_first first.now))) }
{
    match first {
        FirstForm::Vars(vars) => {
            emit_variables(ground, scope, code, vars.variables.as_slice())?;
            Ok(())
        }
        FirstForm::Assign(a) => {
            emit_assign(ground, scope, code, a)?;
            Ok(())
        }
    }
}

/// A simple statement; in what is lowered it declares variables or assigns.
#[tactic(auto, using(wit_sourced::proofs::Left::behind_same))]
fn emit_simple(
    ground: &Ground,
    scope: &mut Scope,
    code: &mut Items<Op>,
    form: &Simple,
) -> Result<(), AllocError>
    ensures code { OnOk result (code.new ≡ code.old ++ S.simple_code (ground_of ground.now)
        (scope_of scope.old) (length code.old) (bare_simple form.now)) }
    ensures scope { OnOk result (IsBehind scope.old scope.new
        (S.simple_scope (ground_of ground.now) (scope_of scope.old) (bare_simple form.now))) }
{
    match form {
        Simple::Vars(vars) => {
            emit_variables(ground, scope, code, vars.variables.as_slice())?;
            Ok(())
        }
        Simple::Assign(a) => {
            emit_assign(ground, scope, code, a)?;
            Ok(())
        }
        Simple::Signals(_)
        | Simple::Components(_)
        | Simple::Constrain(_, _)
        | Simple::Right(_, _, _)
        | Simple::TargetLeft(_, _, _)
        | Simple::TargetRight(_, _, _)
        | Simple::Anonymous(_) => Ok(()),
    }
}

/// The code of a statement.
#[cycle(statements)]
fn emit_statement(
    ground: &Ground,
    scope: &mut Scope,
    code: &mut Items<Op>,
    statement: &Statement,
) -> Result<(), AllocError>
    ensures code { OnOk result (code.new ≡ code.old ++ S.statement_code (ground_of ground.now)
        (scope_of scope.old) (length code.old) (bare_statement statement.now)) }
    ensures scope { OnOk result (IsBehind scope.old scope.new (S.scope_behind
        (ground_of ground.now) (scope_of scope.old) (bare_statement statement.now))) }
{
    let top = scope.top;
    match &statement.form {
        StatementForm::Block(block) => {
            emit_block(ground, scope, code, block)?;
            Ok(())
        }
        StatementForm::If(condition, chosen) => {
            emit(ground, scope, code, top, condition)?;
            let jump = begin_jump(code, top)?;
            emit_inner(ground, scope, code, chosen)?;
            end_jump_zero(code, jump, top)?;
            Ok(())
        }
        StatementForm::IfElse(condition, chosen, other) => {
            emit(ground, scope, code, top, condition)?;
            let jump = begin_jump(code, top)?;
            emit_inner(ground, scope, code, chosen)?;
            let last = begin_other(code, jump, top)?;
            emit_inner(ground, scope, code, other)?;
            end_jump(code, last)?;
            Ok(())
        }
        StatementForm::While(condition, body) => {
            emit_turns(ground, scope, code, body, condition, None)?;
            Ok(())
        }
        StatementForm::For(first, condition, step, body) => {
            let count = scope.homes.len();
            emit_first(ground, scope, code, &first.form)?;
            emit_turns(ground, scope, code, body, condition, Some(&step.assign))?;
            scope.leave(count, top);
            Ok(())
        }
        StatementForm::Return(e) => {
            emit(ground, scope, code, top, e)?;
            code.push(Op::Return(top))?;
            Ok(())
        }
        StatementForm::Assert(e) => {
            emit(ground, scope, code, top, e)?;
            code.push(Op::Assert(top))?;
            Ok(())
        }
        StatementForm::Log(_) => Ok(()),
        StatementForm::Simple(form) => {
            emit_simple(ground, scope, code, form)?;
            Ok(())
        }
    }
}

/// A statement in a branch or a loop: what it declares has no home behind it.
#[cycle(statements)]
pub fn emit_inner(
    ground: &Ground,
    scope: &mut Scope,
    code: &mut Items<Op>,
    statement: &Statement,
) -> Result<(), AllocError>
    ensures code { OnOk result (code.new ≡ code.old ++ S.statement_code (ground_of ground.now)
        (scope_of scope.old) (length code.old) (bare_statement statement.now)) }
    ensures scope { OnOk result (IsLeft scope.old scope.new) }
{
    let count = scope.homes.len();
    let top = scope.top;
    emit_statement(ground, scope, code, statement)?;
    scope.leave(count, top);
    Ok(())
}

/// The turns of a loop, each with the step that a `for` has.
#[cycle(statements)]
pub fn emit_turns(
    ground: &Ground,
    scope: &mut Scope,
    code: &mut Items<Op>,
    body: &Statement,
    condition: &Expr,
    step: Option<&Assign>,
) -> Result<(), AllocError>
    ensures code { OnOk result (code.new ≡ code.old ++ P.turns scope.old.top (length code.old)
        (λ q. E.turn_code (ground_of ground.now) (scope_of scope.old) q (bare_statement body.now)
        (option_map bare_assign (option_copied step.entry)))
        (λ q. S.test_code (ground_of ground.now) (scope_of scope.old) q (bare condition.now))) }
    ensures scope { OnOk result (IsLeft scope.old scope.new) }
{
    let top = scope.top;
    let jump = begin_turns(code)?;
    emit_turn(ground, scope, code, body, step)?;
    end_jump(code, jump)?;
    emit(ground, scope, code, top, condition)?;
    end_turns(code, jump, top)?;
    Ok(())
}

#[cycle(statements)]
fn emit_turn(
    ground: &Ground,
    scope: &mut Scope,
    code: &mut Items<Op>,
    body: &Statement,
    step: Option<&Assign>,
) -> Result<(), AllocError>
    ensures code { OnOk result (code.new ≡ code.old ++ E.turn_code (ground_of ground.now)
        (scope_of scope.old) (length code.old) (bare_statement body.now)
        (option_map bare_assign (option_copied step.entry))) }
    ensures scope { OnOk result (IsLeft scope.old scope.new) }
{
    let Some(step) = step else {
        emit_inner(ground, scope, code, body)?;
        return Ok(());
    };
    let count = scope.homes.len();
    let top = scope.top;
    emit_statement(ground, scope, code, body)?;
    emit_assign(ground, scope, code, step)?;
    scope.leave(count, top);
    Ok(())
}

/// A block, or the body of a function.
#[cycle(statements)]
pub fn emit_block(
    ground: &Ground,
    scope: &mut Scope,
    code: &mut Items<Op>,
    block: &Block,
) -> Result<(), AllocError>
    ensures code { OnOk result (code.new ≡ code.old ++ S.statements_code (ground_of ground.now)
        (scope_of scope.old) (length code.old) (bare_block block.now)) }
    ensures scope { OnOk result (IsLeft scope.old scope.new) }
{
    let count = scope.homes.len();
    let top = scope.top;
    emit_statements(ground, scope, code, block.statements.as_slice())?;
    scope.leave(count, top);
    Ok(())
}

/// One statement behind the other.
#[cycle(statements)]
fn emit_statements(
    ground: &Ground,
    scope: &mut Scope,
    code: &mut Items<Op>,
    statements: &[Statement],
) -> Result<(), AllocError>
    ensures code { OnOk result (code.new ≡ code.old ++ S.statements_code (ground_of ground.now)
        (scope_of scope.old) (length code.old)
        (as_statements (map bare_statement statements.now))) }
    ensures homes { OnOk result (take (length scope.old.homes.items) scope.new.homes.items
        ≡ scope.old.homes.items) }
{
    for statement in statements {
        emit_statement(ground, scope, code, statement)?;
    }
    Ok(())
}
