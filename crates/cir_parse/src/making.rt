//! Statements around others, on the heap, so that only pointers are alive while the parts are read.
ghost use Rattle.std.specs.Prelude.{◌≡◌, ◌++◌, ◌∷◌, [], map, IfOk, OnOk};
ghost use Rattle.cir_ast.specs.Tree.{as_statements, Block, If, IfElse, While, For};
ghost use Rattle.cir_expression.specs.Answers.{seen};
ghost use Rattle.cir_simple_statement.specs.Answers.{seen_assign};
ghost use Rattle.cir_parse.specs.Answers.{seen_first, seen_statement};

use cir_ast::marked::{Expr, First, Statement, StatementForm, Step};
use cir_expression::tight;
use std::alloc::{AllocError, Global};

/// What stands in the parentheses of a `for`.
#[derive(Drop)]
pub struct Head<S, N> {
    pub first: First<S, N>,
    pub condition: Expr<N>,
    pub step: Step<S, N>,
}

/// Puts an item behind the others.
pub fn add<T: Drop>(items: &mut Vec<T>, item: Box<T>) -> Result<(), AllocError>
    ensures { OnOk result (items.new.items ≡ items.old.items ++ item.value ∷ []) }
{
    items.push(Box::into_inner(item))?;
    Ok(())
}

/// A value on the heap.
pub fn boxed<T: Drop>(alloc: Global, value: T) -> Result<Box<T>, AllocError>
    ensures { IfOk result (λ b. b.value ≡ value) }
{
    Ok(Box::new(alloc, value)?)
}

// The outer two on the heap.
fn outer_boxed<A: Drop, B: Drop, C: Drop>(
    alloc: Global,
    a: A,
    b: B,
    c: C,
) -> Result<(Box<A>, B, Box<C>), AllocError>
    ensures { IfOk result (λ r. (r.0.value ≡ a) × (r.1 ≡ b) × (r.2.value ≡ c)) }
{
    let a = boxed(alloc, a)?;
    let c = boxed(alloc, c)?;
    Ok((a, b, c))
}

/// A statement on the heap.
pub fn stated<S: Drop, N: Drop>(
    alloc: Global,
    spot: S,
    form: StatementForm<S, N>,
) -> Result<Box<Statement<S, N>>, AllocError>
    ensures { IfOk result (λ s. (s.value.spot ≡ spot) × (s.value.form ≡ form)) }
{
    boxed(alloc, Statement { spot, form })
}

pub fn block_of<S: Drop, N: Drop>(
    alloc: Global,
    spot: S,
    statements: Vec<Statement<S, N>>,
) -> Result<Box<Statement<S, N>>, AllocError>
    ensures { IfOk result
        (λ s. seen_statement s.value
        ≡ Block spot (as_statements (map seen_statement statements.items))) }
{
    let block = Statement::block(spot, tight(statements));
    Ok(boxed(alloc, block)?)
}

pub fn if_of<S: Drop, N: Drop>(
    alloc: Global,
    spot: S,
    condition: Box<Expr<N>>,
    chosen: Box<Statement<S, N>>,
) -> Result<Box<Statement<S, N>>, AllocError>
    ensures { IfOk result (λ s. seen_statement s.value
        ≡ If spot (seen condition.value) (seen_statement chosen.value)) }
{
    let form = StatementForm::If(Box::into_inner(condition), chosen);
    stated(alloc, spot, form)
}

pub fn if_else_of<S: Drop, N: Drop>(
    alloc: Global,
    spot: S,
    condition: Box<Expr<N>>,
    chosen: Box<Statement<S, N>>,
    other: Box<Statement<S, N>>,
) -> Result<Box<Statement<S, N>>, AllocError>
    ensures { IfOk result (λ s. seen_statement s.value
        ≡ IfElse spot (seen condition.value) (seen_statement chosen.value)
        (seen_statement other.value)) }
{
    let form = StatementForm::IfElse(Box::into_inner(condition), chosen, other);
    stated(alloc, spot, form)
}

pub fn while_of<S: Drop, N: Drop>(
    alloc: Global,
    spot: S,
    condition: Box<Expr<N>>,
    body: Box<Statement<S, N>>,
) -> Result<Box<Statement<S, N>>, AllocError>
    ensures { IfOk result
        (λ s. seen_statement s.value
        ≡ While spot (seen condition.value) (seen_statement body.value)) }
{
    let form = StatementForm::While(Box::into_inner(condition), body);
    stated(alloc, spot, form)
}

pub fn for_of<S: Drop, N: Drop>(
    alloc: Global,
    spot: S,
    head: Box<Head<S, N>>,
    body: Box<Statement<S, N>>,
) -> Result<Box<Statement<S, N>>, AllocError>
    ensures { let h = head.value in IfOk result (λ s. seen_statement s.value
        ≡ For spot h.first.spot (seen_first h.first.form) (seen h.condition) h.step.spot
        (seen_assign h.step.assign) (seen_statement body.value)) }
{
    let Head {
        first,
        condition,
        step,
    } = Box::into_inner(head);
    let (first, condition, step) = outer_boxed(alloc, first, condition, step)?;
    let form = StatementForm::For(first, condition, step, body);
    stated(alloc, spot, form)
}
