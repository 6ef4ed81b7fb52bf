//! What has to be told of a function before it gets code.
ghost use Rattle.std.specs.Prelude.{◌≡◌, IsTrue, map, IfOk};
ghost use Rattle.std.specs.List.{list_all};
ghost use Rattle.cir_ast.specs.Program.{bare_function, bare_program};
ghost use Rattle.cir_ast.specs.Tree.{bare_variable};
ghost use Rattle.cir_rules.specs.Shown.{made_of};
ghost use Rattle.wit_procs.specs.Rules.{is_small, written_dims, is_plain, is_key_plain};
ghost use Rattle.wit_procs.specs.Rules.{MayBeMadeAll};

use cir_arrays::is_too_large;
use cir_ast::program::{DeclaredVariable, Function, Program};
use cir_rules::{Made, Verdict, judge};
use cir_texts::{Texts, written_dims};
use std::alloc::{AllocError, Global};

fn is_small(dims: &[u64]) -> bool
    ensures { result ≡ is_small dims.now }
{
    !is_too_large(dims)
}

fn are_given_small(shapes: &[Vec<u64>]) -> bool
    ensures { result ≡ list_all is_small (map (λ d. d.items) shapes.now) }
{
    for dims in shapes {
        if !is_small(dims.as_slice()) {
            return false;
        }
    }
    true
}

fn are_declared_small(alloc: Global, variables: &[&DeclaredVariable]) -> Result<bool, AllocError>
    ensures { IfOk result (λ small. small ≡ list_all (λ v. is_small (written_dims v))
        (map (λ v. bare_variable v.now) variables.now)) }
{
    for variable in variables {
        if !is_declared_small(alloc, variable)? {
            return Ok(false);
        }
    }
    Ok(true)
}

fn is_declared_small(alloc: Global, variable: &DeclaredVariable) -> Result<bool, AllocError>
    ensures { IfOk result (λ small. small
        ≡ is_small (written_dims (bare_variable variable.now))) }
{
    let dims = written_dims(alloc, variable.dimensions.as_slice())?;
    Ok(is_small(dims.as_slice()))
}

/// Whether the parameters and the arrays of a function are plain.
fn is_plain(alloc: Global, function: &Function, shapes: &[Vec<u64>]) -> Result<bool, AllocError>
    ensures { IfOk result (λ plain. plain
        ≡ is_plain (bare_function function.now) (map (λ d. d.items) shapes.now)) }
{
    if shapes.len() != function.parameters.len() || !are_given_small(shapes) {
        return Ok(false);
    }
    let texts = Texts::of(alloc, &function.body)?;
    are_declared_small(alloc, texts.variables.as_slice())
}

fn is_key_plain(alloc: Global, program: &Program, key: &Made) -> Result<bool, AllocError>
    ensures { IfOk result (λ plain. plain
        ≡ is_key_plain (bare_program program.now) (made_of key.now)) }
{
    match program.functions.get(key.function as usize) {
        None => Ok(false),
        Some(function) => is_plain(alloc, function, key.shapes.as_slice()),
    }
}

fn are_keys_plain(alloc: Global, program: &Program, keys: &[Made]) -> Result<bool, AllocError>
    ensures { IfOk result (λ plain. plain
        ≡ list_all (is_key_plain (bare_program program.now)) (map made_of keys.now)) }
{
    for key in keys {
        if !is_key_plain(alloc, program, key)? {
            return Ok(false);
        }
    }
    Ok(true)
}

/// Whether the functions of these keys get code.
pub fn may_be_made(alloc: Global, program: &Program, keys: &[Made]) -> Result<bool, AllocError>
    ensures { IfOk result (λ may. IsTrue may
        → MayBeMadeAll (bare_program program.now) (map made_of keys.now)) }
{
    match judge(alloc, program, keys)? {
        Verdict::Faulty(_) => Ok(false),
        Verdict::Fine(_) => are_keys_plain(alloc, program, keys),
    }
}
