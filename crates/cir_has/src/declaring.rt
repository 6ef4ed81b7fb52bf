//! Whether the names of declarations have homes, and their calls keys.
ghost use Rattle.std.specs.Prelude.{◌≡◌, map, OnOk};
ghost use Rattle.std.specs.List.{AllByRecursion};
ghost use Rattle.cir_ast.specs.Tree.{bare_exprs, bare_value, bare_variable};
ghost use Rattle.cir_emit.specs.Sourced as H;
ghost use Rattle.cir_meaning.specs.Texts.{list_of};
ghost use Rattle.wit_lower.specs.Statements as S;
ghost use Rattle.wit_emit.specs.Grounds.{ground_of};
ghost use Rattle.wit_sourced.specs.Behind.{IsBehind};
ghost use Rattle.wit_sourced.specs.Shown.{homes_of, scope_of};

use crate::lack::Lack;
use crate::names::{Arrays, has_end};
use crate::values::has;
use cir_ast::program::{DeclaredVariable, Expr, Meant};
use wit_emit::{Front, Ground};
use wit_sourced::Scope;
use wit_statements::{declare_as, known_dims};

fn has_dims<A: Arrays>(arrays: &A, ground: &Ground, scope: &Scope, es: &[Expr]) -> Result<(), Lack>
    ensures { OnOk result (AllByRecursion (H.HasAll (A.there arrays.now) (ground_of ground.now)
        (homes_of scope.now.homes.items)) (list_of (bare_exprs es.now))) }
{
    for e in es {
        has(arrays, ground, scope, e)?;
    }
    Ok(())
}

/// The value that a variable is given at once.
fn has_value<A: Arrays>(
    arrays: &A,
    ground: &Ground,
    scope: &Scope,
    meant: Meant,
    value: &Option<Expr>,
) -> Result<(), Lack>
    ensures { OnOk result (H.ValueHas (A.there arrays.now) (ground_of ground.now)
        (homes_of scope.now.homes.items) meant (bare_value value.now)) }
{
    let Some(e) = value else {
        return Ok(());
    };
    has_end(arrays, scope, Front::Named(meant))?;
    has(arrays, ground, scope, e)
}

/// A variable, which is in scope behind its dimensions.
fn has_declared<A: Arrays>(
    arrays: &A,
    ground: &Ground,
    scope: &mut Scope,
    v: &DeclaredVariable,
) -> Result<(), Lack>
    ensures has { OnOk result (H.VariableHas (A.there arrays.now) (ground_of ground.now)
        (scope_of scope.old) (bare_variable v.now)) }
    ensures scope { OnOk result (IsBehind scope.old scope.new
        (S.variable_scope (ground_of ground.now) (scope_of scope.old) (bare_variable v.now))) }
{
    let dimensions = v.dimensions.as_slice();
    has_dims(arrays, ground, scope, dimensions)?;
    let dims = known_dims(ground, dimensions)?;
    declare_as(scope, v.meant, dims)?;
    has_value(arrays, ground, scope, v.meant, &v.value)
}

/// One declaration behind the other.
pub fn has_variables<A: Arrays>(
    arrays: &A,
    ground: &Ground,
    scope: &mut Scope,
    vs: &[DeclaredVariable],
) -> Result<(), Lack>
    ensures has { OnOk result (H.VariablesHave (A.there arrays.now) (ground_of ground.now)
        (scope_of scope.old) (map bare_variable vs.now)) }
    ensures scope { OnOk result (IsBehind scope.old scope.new
        (S.variables_scope (ground_of ground.now) (scope_of scope.old)
        (map bare_variable vs.now))) }
{
    for v in vs {
        has_declared(arrays, ground, scope, v)?;
    }
    Ok(())
}
