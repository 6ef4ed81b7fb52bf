//! An assignment that a step does, as the task of its code has it: of a whole new value.
ghost use Rattle.std.specs.Prelude.{◌≡◌, [], IfOk};
ghost use Rattle.cir_ast.specs.declared.program.Meant.TheVariants.{Variable};
ghost use Rattle.cir_ast.specs.Tree.{Binary as BinaryTree, Set, as_accessors, bare, bare_assign};
ghost use Rattle.cir_ast.specs.Tree.{bare_place};
ghost use Rattle.cir_assign.specs.Given.{given_by};

use cir_assign::{Given, Written};
use cir_ast::Text;
use cir_ast::program::{Assign, Binary, Expr, Meant, Place};
use cir_lift::{accessors_copy, expr_copy, place_copy};
use cir_texts::compound_of;
use std::alloc::{AllocError, Global};

/// An operator over what a place has.
fn changed(alloc: Global, op: Binary, place: &Place, right: Expr) -> Result<Expr, AllocError>
    ensures { IfOk result (λ e. bare e ≡ BinaryTree op (bare_place place.now) (bare right)) }
{
    let place = place_copy(alloc, place)?;
    let left = Box::new(alloc, Expr::Place(place))?;
    let right = Box::new(alloc, right)?;
    Ok(Expr::Binary(op, left, right))
}

/// The expression that is given.
fn given_copy(alloc: Global, given: Given) -> Result<Expr, AllocError>
    ensures { IfOk result (λ e. bare e ≡ given_by given.entry) }
{
    match given {
        Given::Plain(e) => expr_copy(alloc, e),
        Given::Compound(op, place, e) => {
            let value = expr_copy(alloc, e)?;
            let inner = Box::new(alloc, value)?;
            changed(alloc, compound_of(op), place, Expr::Parentheses(inner))
        }
        Given::Increment(place) => changed(alloc, Binary::Add, place, Expr::Number(1)),
        Given::Decrement(place) => changed(alloc, Binary::Sub, place, Expr::Number(1)),
    }
}

/// The assignment of a new value.
pub(crate) fn assign_copy(alloc: Global, w: &Written) -> Result<Assign, AllocError>
    ensures { IfOk result (λ a. bare_assign a ≡ Set [] (Variable w.now.variable)
        (as_accessors w.now.accessors.now) (given_by w.now.given)) }
{
    let value = given_copy(alloc, w.given)?;
    let accessors = accessors_copy(alloc, w.accessors)?;
    let place = Place {
        name: Text::new(),
        meant: Meant::Variable(w.variable),
        accessors,
    };
    Ok(Assign::Set(place, value))
}
