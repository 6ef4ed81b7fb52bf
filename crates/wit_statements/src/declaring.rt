//! The code of declarations: dimensions, zeros, then the value.
ghost use Rattle.std.specs.Prelude.{◌≡◌, ◌++◌, map, length, unwrap_or, IfOk, OnOk};
ghost use Rattle.cir_ast.specs.Tree.{bare_exprs, bare_value, bare_variable};
ghost use Rattle.cir_meaning.specs.Texts.{list_of};
ghost use Rattle.wit_lower.specs.Statements as S;
ghost use Rattle.wit_sourced.specs.Behind.{IsBehind};
ghost use Rattle.wit_statements.specs.Parts as E;
ghost use Rattle.wit_sourced.specs.Shown.{scope_of};
ghost use Rattle.wit_emit.specs.Grounds.{ground_of};

use cir_arrays::made_elements;
use cir_ast::program::{DeclaredVariable, Expr, Meant};
use items::Items;
use numbers::behind;
use std::alloc::AllocError;
use wit_code::Op;
use wit_emit::{Front, Ground, emit, size_of, write, zeros};
use wit_sourced::Scope;

/// Dimensions are evaluated, although their numbers are known.
fn emit_dims(
    ground: &Ground,
    scope: &Scope,
    code: &mut Items<Op>,
    es: &[Expr],
) -> Result<(), AllocError>
    ensures { OnOk result (code.new ≡ code.old ++ S.dims_code (ground_of ground.now)
        (scope_of scope.now) (length code.old) (bare_exprs es.now)) }
{
    for e in es {
        emit(ground, scope, code, scope.top, e)?;
    }
    Ok(())
}

/// The numbers of the dimensions.
pub fn known_dims(ground: &Ground, es: &[Expr]) -> Result<Items<u64>, AllocError>
    ensures { IfOk result (λ dims. dims ≡ map (λ e. unwrap_or ((ground_of ground.now).known e) 0)
        (list_of (bare_exprs es.now))) }
{
    let mut dims = Vec::new(ground.alloc);
    for e in es {
        let number = ground.known(e)?;
        dims.push(number.unwrap_or(0))?;
    }
    Ok(Items::of(dims))
}

/// A name that is a variable gets its home.
#[tactic(auto, using(wit_sourced::proofs::Left::behind_same))]
pub fn declare_as(scope: &mut Scope, meant: Meant, dims: Items<u64>) -> Result<(), AllocError>
    ensures { OnOk result (IsBehind scope.old scope.new
        (E.declared_as meant dims (scope_of scope.old))) }
{
    match meant {
        Meant::Variable(n) => {
            scope.declare(n, dims)?;
            Ok(())
        }
        Meant::Other
        | Meant::Signal(_, _)
        | Meant::Component(_)
        | Meant::Template(_)
        | Meant::Function(_) => Ok(()),
    }
}

/// The value that a variable is given at once.
fn emit_value(
    ground: &Ground,
    scope: &Scope,
    code: &mut Items<Op>,
    meant: Meant,
    value: &Option<Expr>,
) -> Result<(), AllocError>
    ensures { OnOk result (code.new ≡ code.old ++ S.value_code (ground_of ground.now)
        (scope_of scope.now) (length code.old) meant (bare_value value.now)) }
{
    let Some(e) = value else {
        return Ok(());
    };
    emit(ground, scope, code, scope.top, e)?;
    let size = size_of(ground, scope, e)?;
    let home = Front::Named(meant).home(scope);
    write(code, home, behind(scope.top, size)?, 0, scope.top, size)?;
    Ok(())
}

/// A variable begins with 0 in each element, whatever stood in its slots.
fn emit_variable(
    ground: &Ground,
    scope: &mut Scope,
    code: &mut Items<Op>,
    v: &DeclaredVariable,
) -> Result<(), AllocError>
    ensures code { OnOk result (code.new ≡ code.old ++ S.variable_code (ground_of ground.now)
        (scope_of scope.old) (length code.old) (bare_variable v.now)) }
    ensures scope { OnOk result (IsBehind scope.old scope.new
        (S.variable_scope (ground_of ground.now) (scope_of scope.old) (bare_variable v.now))) }
{
    let dimensions = v.dimensions.as_slice();
    emit_dims(ground, scope, code, dimensions)?;
    let dims = known_dims(ground, dimensions)?;
    zeros(code, scope.top, made_elements(dims.as_slice()))?;
    declare_as(scope, v.meant, dims)?;
    emit_value(ground, scope, code, v.meant, &v.value)?;
    Ok(())
}

/// One declaration behind the other.
pub fn emit_variables(
    ground: &Ground,
    scope: &mut Scope,
    code: &mut Items<Op>,
    vs: &[DeclaredVariable],
) -> Result<(), AllocError>
    ensures code { OnOk result (code.new ≡ code.old ++ S.variables_code (ground_of ground.now)
        (scope_of scope.old) (length code.old) (map bare_variable vs.now)) }
    ensures scope { OnOk result (IsBehind scope.old scope.new
        (S.variables_scope (ground_of ground.now) (scope_of scope.old)
        (map bare_variable vs.now))) }
{
    for v in vs {
        emit_variable(ground, scope, code, v)?;
    }
    Ok(())
}
