//! Whether the names of statements have homes, and their calls keys. What a statement declares has
//! its home for the rest of its block.
ghost use Rattle.std.specs.Prelude.{◌≡◌, length, map, take, OnOk};
ghost use Rattle.cir_ast.specs.Tree.{as_statements, bare, bare_assign, bare_block, bare_first};
ghost use Rattle.cir_ast.specs.Tree.{bare_simple, bare_statement};
ghost use Rattle.cir_emit.specs.Sourced as H;
ghost use Rattle.cir_meaning.specs.Writing.{plain};
ghost use Rattle.wit_lower.specs.Statements as S;
ghost use Rattle.wit_emit.specs.Grounds.{ground_of};
ghost use Rattle.wit_sourced.specs.Behind.{IsBehind, IsLeft};
ghost use Rattle.wit_sourced.specs.Shown.{scope_of};

use crate::declaring::has_variables;
use crate::lack::Lack;
use crate::names::Arrays;
use crate::sets::has_assign;
use crate::values::has;
use cir_ast::program::{Assign, Block, Expr, FirstForm, Simple, Statement, StatementForm};
use wit_emit::Ground;
use wit_sourced::Scope;

/// What the head of a `for` begins with.
#[tactic(auto, using(wit_sourced::proofs::Left::behind_same))]
fn has_first<A: Arrays>(
    arrays: &A,
    ground: &Ground,
    scope: &mut Scope,
    first: &FirstForm,
) -> Result<(), Lack>
    ensures has { OnOk result (H.FirstHas (A.there arrays.now) (ground_of ground.now)
        (scope_of scope.old) (bare_first first.now)) }
    ensures scope { OnOk result (IsBehind scope.old scope.new
        (S.first_scope (ground_of ground.now) (scope_of scope.old) (bare_first first.now))) }
{
    match first {
        FirstForm::Vars(vars) => has_variables(arrays, ground, scope, vars.variables.as_slice()),
        FirstForm::Assign(a) => has_assign(arrays, ground, scope, a),
    }
}

/// A simple statement.
#[tactic(auto, using(wit_sourced::proofs::Left::behind_same))]
fn has_simple<A: Arrays>(
    arrays: &A,
    ground: &Ground,
    scope: &mut Scope,
    form: &Simple,
) -> Result<(), Lack>
    ensures has { OnOk result (H.SimpleHas (A.there arrays.now) (ground_of ground.now)
        (scope_of scope.old) (bare_simple form.now)) }
    ensures scope { OnOk result (IsBehind scope.old scope.new
        (S.simple_scope (ground_of ground.now) (scope_of scope.old) (bare_simple form.now))) }
{
    match form {
        Simple::Vars(vars) => has_variables(arrays, ground, scope, vars.variables.as_slice()),
        Simple::Assign(a) => has_assign(arrays, ground, scope, a),
        Simple::Signals(_)
        | Simple::Components(_)
        | Simple::Constrain(_, _)
        | Simple::Right(_, _, _)
        | Simple::TargetLeft(_, _, _)
        | Simple::TargetRight(_, _, _)
        | Simple::Anonymous(_) => Ok(()),
    }
}

/// A statement.
#[cycle(statements)]
fn has_statement<A: Arrays>(
    arrays: &A,
    ground: &Ground,
    scope: &mut Scope,
    statement: &Statement,
) -> Result<(), Lack>
    ensures has { OnOk result (H.StatementHas (A.there arrays.now) (ground_of ground.now)
        (scope_of scope.old) (bare_statement statement.now)) }
    ensures scope { OnOk result (IsBehind scope.old scope.new (S.scope_behind
        (ground_of ground.now) (scope_of scope.old) (bare_statement statement.now))) }
{
    match &statement.form {
        StatementForm::Block(block) => has_block(arrays, ground, scope, block),
        StatementForm::If(condition, chosen) => {
            has(arrays, ground, scope, condition)?;
            has_inner(arrays, ground, scope, chosen)
        }
        StatementForm::IfElse(condition, chosen, other) => {
            has(arrays, ground, scope, condition)?;
            has_inner(arrays, ground, scope, chosen)?;
            has_inner(arrays, ground, scope, other)
        }
        StatementForm::While(condition, body) => {
            has(arrays, ground, scope, condition)?;
            has_inner(arrays, ground, scope, body)
        }
        StatementForm::For(first, condition, step, body) => {
            let count = scope.homes.len();
            let top = scope.top;
            has_first(arrays, ground, scope, &first.form)?;
            has_turn(arrays, ground, scope, body, condition, &step.assign)?;
            scope.leave(count, top);
            Ok(())
        }
        StatementForm::Return(_) | StatementForm::Log(_) => Ok(()),
        StatementForm::Assert(e) => has(arrays, ground, scope, e),
        StatementForm::Simple(form) => has_simple(arrays, ground, scope, form),
    }
}

/// A statement in a branch or a loop: what it declares has no home behind it.
#[cycle(statements)]
pub fn has_inner<A: Arrays>(
    arrays: &A,
    ground: &Ground,
    scope: &mut Scope,
    statement: &Statement,
) -> Result<(), Lack>
    ensures has { OnOk result (H.StatementHas (A.there arrays.now) (ground_of ground.now)
        (scope_of scope.old) (bare_statement statement.now)) }
    ensures scope { OnOk result (IsLeft scope.old scope.new) }
{
    let count = scope.homes.len();
    let top = scope.top;
    has_statement(arrays, ground, scope, statement)?;
    scope.leave(count, top);
    Ok(())
}

/// A turn of a `for`: its step stands behind its body.
#[cycle(statements)]
pub fn has_turn<A: Arrays>(
    arrays: &A,
    ground: &Ground,
    scope: &mut Scope,
    body: &Statement,
    condition: &Expr,
    step: &Assign,
) -> Result<(), Lack>
    ensures condition { OnOk result (H.HasAll (A.there arrays.now) (ground_of ground.now)
        (scope_of scope.old).homes (bare condition.now)) }
    ensures body { OnOk result (H.StatementHas (A.there arrays.now) (ground_of ground.now)
        (scope_of scope.old) (bare_statement body.now)) }
    ensures step { OnOk result (H.PlainHas (A.there arrays.now) (ground_of ground.now)
        (S.scope_behind (ground_of ground.now) (scope_of scope.old)
        (bare_statement body.now)).homes (plain (bare_assign step.now))) }
    ensures scope { OnOk result (take (length scope.old.homes.items) scope.new.homes.items
        ≡ scope.old.homes.items) }
{
    has(arrays, ground, scope, condition)?;
    has_statement(arrays, ground, scope, body)?;
    has_assign(arrays, ground, scope, step)
}

#[cycle(statements)]
fn has_block<A: Arrays>(
    arrays: &A,
    ground: &Ground,
    scope: &mut Scope,
    block: &Block,
) -> Result<(), Lack>
    ensures has { OnOk result (H.StatementsHave (A.there arrays.now) (ground_of ground.now)
        (scope_of scope.old) (bare_block block.now)) }
    ensures scope { OnOk result (IsLeft scope.old scope.new) }
{
    let count = scope.homes.len();
    let top = scope.top;
    has_statements(arrays, ground, scope, block.statements.as_slice())?;
    scope.leave(count, top);
    Ok(())
}

/// One statement behind the other.
#[cycle(statements)]
fn has_statements<A: Arrays>(
    arrays: &A,
    ground: &Ground,
    scope: &mut Scope,
    statements: &[Statement],
) -> Result<(), Lack>
    ensures has { OnOk result (H.StatementsHave (A.there arrays.now) (ground_of ground.now)
        (scope_of scope.old) (as_statements (map bare_statement statements.now))) }
    ensures homes { OnOk result (take (length scope.old.homes.items) scope.new.homes.items
        ≡ scope.old.homes.items) }
{
    for statement in statements {
        has_statement(arrays, ground, scope, statement)?;
    }
    Ok(())
}
