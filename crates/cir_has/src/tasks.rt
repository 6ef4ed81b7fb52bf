//! Whether the names of a task have homes, and its calls keys.
ghost use Rattle.std.specs.Prelude.{◌≡◌, map, None, OnOk};
ghost use Rattle.std.specs.List.{AllByRecursion};
ghost use Rattle.cir_ast.specs.Tree.{bare_argument};
ghost use Rattle.cir_emit.specs.Sourced as H;
ghost use Rattle.wit_lower.specs.Homes as L;
ghost use Rattle.wit_lower.specs.Tasks as T;
ghost use Rattle.wit_emit.specs.Grounds.{ground_of};
ghost use Rattle.wit_sourced.specs.Shown.{homes_of, scope_of};
ghost use Rattle.wit_statements.specs.Asked.{task_of};

use crate::lack::Lack;
use crate::names::{Arrays, has_variable};
use crate::sets::has_assign;
use crate::statements::{has_inner, has_turn};
use crate::values::has;
use cir_ast::program::LogArgument;
use cir_known::{Touched, touched_by, touched_by_loop};
use wit_emit::Ground;
use wit_sourced::{Scope, Sought};
use wit_statements::Task;

/// The numbers of a line of the log.
fn has_logged<A: Arrays>(
    arrays: &A,
    ground: &Ground,
    scope: &Scope,
    arguments: &[LogArgument],
) -> Result<(), Lack>
    ensures { OnOk result (AllByRecursion (H.HasAll (A.there arrays.now) (ground_of ground.now)
        (homes_of scope.now.homes.items)) (T.logged (map bare_argument arguments.now))) }
{
    for argument in arguments {
        if let LogArgument::Value(e) = argument {
            has(arrays, ground, scope, e)?;
        }
    }
    Ok(())
}

/// What is declared has no home yet.
fn are_fresh(scope: &Scope, declared: &[u32]) -> Result<(), Lack>
    ensures { OnOk result (AllByRecursion (λ n. L.find (L.Variable n)
        (homes_of scope.now.homes.items) ≡ None) declared.now) }
{
    for n in declared {
        if scope.find(Sought::Variable(*n)).is_some() {
            return Err(Lack::Home);
        }
    }
    Ok(())
}

fn have_homes<A: Arrays>(arrays: &A, scope: &Scope, assigned: &[u32]) -> Result<(), Lack>
    ensures { OnOk result (AllByRecursion (λ n. H.HasHome (A.there arrays.now)
        (homes_of scope.now.homes.items) (L.Variable n)) assigned.now) }
{
    for n in assigned {
        has_variable(arrays, scope, *n)?;
    }
    Ok(())
}

/// The variables that a statement touches.
fn has_touched<A: Arrays>(arrays: &A, scope: &Scope, touched: &Touched) -> Result<(), Lack>
    ensures fresh { OnOk result (AllByRecursion (λ n. L.find (L.Variable n)
        (homes_of scope.now.homes.items) ≡ None) touched.now.declared.items) }
    ensures homes { OnOk result (AllByRecursion (λ n. H.HasHome (A.there arrays.now)
        (homes_of scope.now.homes.items) (L.Variable n)) touched.now.assigned.items) }
{
    are_fresh(scope, touched.declared.as_slice())?;
    have_homes(arrays, scope, touched.assigned.as_slice())
}

/// A task.
pub fn has_task<A: Arrays>(
    arrays: &A,
    ground: &Ground,
    scope: &Scope,
    task: Task,
) -> Result<(), Lack>
    ensures { OnOk result (H.TaskHas (A.there arrays.now) (ground_of ground.now)
        (scope_of scope.now) (task_of task.entry)) }
{
    match task {
        Task::Gives(e) | Task::Asserts(_, e) => has(arrays, ground, scope, e),
        Task::Equal(a, b) => {
            has(arrays, ground, scope, a)?;
            has(arrays, ground, scope, b)
        }
        Task::Logs(arguments) => has_logged(arrays, ground, scope, arguments),
        Task::Assigns(_, a, _) => has_assign(arrays, ground, scope, a),
        Task::Executes(a, _) => {
            let touched = touched_by(ground.alloc, a)?;
            has_touched(arrays, scope, &touched)?;
            let mut inner = scope.copied(ground.alloc)?;
            has_inner(arrays, ground, &mut inner, a)
        }
        Task::Repeats(_, condition, step, body, _) => {
            let touched = touched_by_loop(ground.alloc, body, &step.assign)?;
            has_touched(arrays, scope, &touched)?;
            let mut inner = scope.copied(ground.alloc)?;
            has_turn(arrays, ground, &mut inner, body, condition, &step.assign)?;
            Ok(())
        }
    }
}
