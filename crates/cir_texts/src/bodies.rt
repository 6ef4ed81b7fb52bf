//! The bodies of functions, and the dimensions of their variables as they are written.
ghost use Rattle.std.specs.Prelude.{◌≡◌, ◌==◌, map, unwrap_or, is_none, IfOk};
ghost use Rattle.std.specs.List.{list_any};
ghost use Rattle.cir_ast.specs.Tree.{bare, bare_exprs, bare_variable};
ghost use Rattle.cir_ast.specs.Program.{bare_program};
ghost use Rattle.cir_meaning.specs.Reached.{body_of, declaration_of};
ghost use Rattle.cir_meaning.specs.Texts.{list_of, literal_number};
ghost use Rattle.cir_meaning.specs.Unknown.{variable_of};
ghost use Rattle.cir_texts.specs.Shown.{Shows};

use crate::texts::Texts;
use cir_ast::program::{DeclaredVariable, Expr, Meant, Program};
use gold_field::Gold;
use std::alloc::{AllocError, Global};

/// What stands in the body of a function of this number, and nothing where there is none.
pub fn text_of(alloc: Global, program: &Program, function: u32) -> Result<Texts<'_>, AllocError>
    ensures { IfOk result (λ t. Shows t (body_of (bare_program program.now) function)) }
{
    match program.functions.get(function as usize) {
        Some(f) => Texts::of(alloc, &f.body),
        None => Ok(Texts::new(alloc)),
    }
}

/// The dimensions in the declaration of the variable of this number.
#[tactic(auto, using(crate::proofs::Lists::listed))]
pub fn declaration_of<'t>(n: u32, variables: &[&'t DeclaredVariable]) -> &'t [Expr]
    ensures { map bare result.now
        ≡ declaration_of n (map (λ v. bare_variable v.now) variables.now) }
{
    for variable in variables {
        if is_variable(variable.meant, n) {
            return variable.dimensions.as_slice();
        }
    }
    &[]
}

fn is_variable(meant: Meant, n: u32) -> bool
    ensures { result ≡ list_any (λ m. m == n) (variable_of meant) }
{
    match meant {
        Meant::Variable(m) => m == n,
        Meant::Other
        | Meant::Signal(_, _)
        | Meant::Component(_)
        | Meant::Template(_)
        | Meant::Function(_) => false,
    }
}

/// A number as it is written.
pub fn literal_number(e: &Expr) -> Option<u64>
    ensures { result ≡ literal_number (bare e.now) }
{
    match e {
        Expr::Parentheses(inner) => literal_number(inner),
        Expr::Number(n) => Some(Gold::from_wide(*n).get()),
        Expr::Place(_)
        | Expr::Call(_, _, _, _)
        | Expr::Anonymous(_)
        | Expr::Array(_)
        | Expr::Unary(_, _)
        | Expr::Binary(_, _, _)
        | Expr::Choice(_, _, _) => None,
    }
}

/// The dimensions as they are written; one that is no number counts as 0.
pub fn written_dims(alloc: Global, dimensions: &[Expr]) -> Result<Vec<u64>, AllocError>
    ensures { IfOk result (λ v. v.items
        ≡ map (λ e. unwrap_or (literal_number (bare e)) 0) dimensions.now) }
{
    let mut dims = Vec::new(alloc);
    for e in dimensions {
        dims.push(literal_number(e).unwrap_or(0))?;
    }
    Ok(dims)
}

/// Whether a dimension is no number as it is written.
pub fn has_run_dimension(variables: &[&DeclaredVariable]) -> bool
    ensures { result ≡ list_any (λ v. list_any (λ e. is_none (literal_number e))
        (list_of v.dimensions)) (map (λ v. bare_variable v.now) variables.now) }
{
    for variable in variables {
        if has_other(variable.dimensions.as_slice()) {
            return true;
        }
    }
    false
}

/// Whether one isn't a number as it is written.
fn has_other(dimensions: &[Expr]) -> bool
    ensures { result
        ≡ list_any (λ e. is_none (literal_number e)) (list_of (bare_exprs dimensions.now)) }
{
    for e in dimensions {
        if literal_number(e).is_none() {
            return true;
        }
    }
    false
}
