//! The calls that stand in a task, and the variables that it changes.
ghost use Rattle.std.specs.Prelude.{◌≡◌, ◌++◌, true, map, flat_map, IfOk, OnOk};
ghost use Rattle.std.specs.List.{list_all};
ghost use Rattle.cir_ast.specs.Tree.{as_accessors, bare, bare_argument, bare_exprs};
ghost use Rattle.cir_ast.specs.Tree.{bare_statement};
ghost use Rattle.cir_texts.specs.Shown.{wanted_of};
ghost use Rattle.wit_lower.specs.Known.{changes};
ghost use Rattle.wit_lower.specs.Tasks as T;
ghost use Rattle.wit_emit.specs.Asked as A;
ghost use Rattle.wit_sourced.specs.Loaded.{changed_of, has_call};
ghost use Rattle.wit_statements.specs.Asked.{asked_by, task_of};

use crate::tasks::Task;
use cir_ast::program::{Accessor, Expr, LogArgument, Simple, Statement, StatementForm};
use cir_frame::ComponentEntry;
use cir_known::{Touched, touched_by, touched_by_loop};
use cir_texts::{Texts, Wanted};
use std::alloc::{AllocError, Global};
use wit_sourced::{CallValue, is_listed};

/// The calls of an expression, an outer one before those in it.
#[cycle(asking)]
fn add<'p>(e: &'p Expr, calls: &mut Vec<&'p Expr>) -> Result<(), AllocError>
    ensures { OnOk result (map (λ c. bare c.now) calls.new.items
        ≡ map (λ c. bare c.now) calls.old.items ++ A.asked (bare e.now)) }
{
    match e {
        Expr::Number(_) | Expr::Anonymous(_) => Ok(()),
        Expr::Place(place) => add_place(place.accessors.as_slice(), calls),
        Expr::Call(_, _, _, arguments) => {
            calls.push(e)?;
            add_all(arguments.as_slice(), calls)
        }
        Expr::Parentheses(inner) => add(inner, calls),
        Expr::Array(elements) => add_all(elements.as_slice(), calls),
        Expr::Unary(_, a) => add(a, calls),
        Expr::Binary(_, a, b) => {
            add(a, calls)?;
            add(b, calls)
        }
        Expr::Choice(c, a, b) => {
            add(c, calls)?;
            add(a, calls)?;
            add(b, calls)
        }
    }
}

#[cycle(asking)]
fn add_all<'p>(es: &'p [Expr], calls: &mut Vec<&'p Expr>) -> Result<(), AllocError>
    ensures { OnOk result (map (λ c. bare c.now) calls.new.items
        ≡ map (λ c. bare c.now) calls.old.items ++ A.all_asked (bare_exprs es.now)) }
{
    for e in es {
        add(e, calls)?;
    }
    Ok(())
}

#[cycle(asking)]
fn add_place<'p>(accessors: &'p [Accessor], calls: &mut Vec<&'p Expr>) -> Result<(), AllocError>
    ensures { OnOk result (map (λ c. bare c.now) calls.new.items
        ≡ map (λ c. bare c.now) calls.old.items ++ A.place_asked (as_accessors accessors.now)) }
{
    for accessor in accessors {
        if let Accessor::Index(index) = accessor {
            add(index, calls)?;
        }
    }
    Ok(())
}

fn add_wanted<'p>(wanted: Wanted<'p>, calls: &mut Vec<&'p Expr>) -> Result<(), AllocError>
    ensures { OnOk result (map (λ c. bare c.now) calls.new.items
        ≡ map (λ c. bare c.now) calls.old.items ++ A.asked (wanted_of wanted.entry).expr) }
{
    match wanted {
        Wanted::Number(e) | Wanted::Whole(e) => add(e, calls),
        Wanted::Compound(_, place, e) => {
            add_place(place.accessors.as_slice(), calls)?;
            add(e, calls)
        }
        Wanted::Step(_, place) => add_place(place.accessors.as_slice(), calls),
    }
}

fn add_texts<'p>(wanted: &[Wanted<'p>], calls: &mut Vec<&'p Expr>) -> Result<(), AllocError>
    ensures { OnOk result (map (λ c. bare c.now) calls.new.items
        ≡ map (λ c. bare c.now) calls.old.items
        ++ flat_map (λ x. A.asked x.expr) (map wanted_of wanted.now)) }
{
    for each in wanted {
        add_wanted(*each, calls)?;
    }
    Ok(())
}

fn add_logged<'p>(arguments: &'p [LogArgument], calls: &mut Vec<&'p Expr>) -> Result<(), AllocError>
    ensures { OnOk result (map (λ c. bare c.now) calls.new.items
        ≡ map (λ c. bare c.now) calls.old.items
        ++ flat_map A.asked (T.logged (map bare_argument arguments.now))) }
{
    for argument in arguments {
        if let LogArgument::Value(e) = argument {
            add(e, calls)?;
        }
    }
    Ok(())
}

/// The calls that stand in a task: all that its code may ask for a value.
pub fn asked_calls(alloc: Global, task: Task<'_>) -> Result<Vec<&'_ Expr>, AllocError>
    ensures { IfOk result (λ calls. map (λ c. bare c.now) calls.items
        ≡ asked_by (task_of task.entry)) }
{
    let mut calls = Vec::new(alloc);
    match task {
        Task::Gives(e) | Task::Asserts(_, e) => add(e, &mut calls)?,
        Task::Equal(a, b) => {
            add(a, &mut calls)?;
            add(b, &mut calls)?;
        }
        Task::Logs(arguments) => add_logged(arguments, &mut calls)?,
        Task::Assigns(_, a, _) => {
            let mut texts = Texts::new(alloc);
            texts.add_assign(a)?;
            add_texts(texts.wanted.as_slice(), &mut calls)?;
        }
        Task::Executes(a, _) => {
            let mut texts = Texts::new(alloc);
            texts.add(a)?;
            add_texts(texts.wanted.as_slice(), &mut calls)?;
        }
        Task::Repeats(_, condition, step, body, _) => {
            add(condition, &mut calls)?;
            let mut texts = Texts::new(alloc);
            texts.add(body)?;
            texts.add_assign(&step.assign)?;
            add_texts(texts.wanted.as_slice(), &mut calls)?;
        }
    }
    Ok(calls)
}

/// Whether all calls of the task are among these.
fn are_listed(alloc: Global, task: Task, calls: &[CallValue]) -> Result<bool, AllocError>
    ensures { IfOk result (λ listed. listed
        ≡ list_all (has_call calls.now) (asked_by (task_of task.entry))) }
{
    let asked = asked_calls(alloc, task)?;
    for call in asked.as_slice() {
        if !is_listed(calls, call) {
            return Ok(false);
        }
    }
    Ok(true)
}

/// The task of a step, with what is told of it: the body's components, each call that stands in
/// it, with its value where it has one already, and the variables whose numbers change while it is
/// done.
#[derive(Drop)]
pub struct StepTask<'a> {
    pub task: Task<'a>,
    pub components: &'a [Option<ComponentEntry>],
    pub calls: &'a [CallValue<'a>],
    pub changed: Option<Touched>,
    ghost listed: { list_all (has_call calls.now) (asked_by (task_of task)) ≡ true },
    ghost changes: { changed_of changed ≡ T.changed_by (task_of task) },
}

impl<'a> StepTask<'a> {
    /// Answers want of memory, too, where `calls` leave out a call that stands in the task.
    pub fn of(
        alloc: Global,
        task: Task<'a>,
        components: &'a [Option<ComponentEntry>],
        calls: &'a [CallValue<'a>],
    ) -> Result<StepTask<'a>, AllocError>
        ensures task { IfOk result (λ s. task_of s.task ≡ task_of task.entry) }
        ensures components { IfOk result (λ s. s.components.now ≡ components.now) }
        ensures calls { IfOk result (λ s. s.calls.now ≡ calls.now) }
    {
        if !are_listed(alloc, task, calls)? {
            return Err(AllocError);
        }
        let changed = changed_by(alloc, task)?;
        Ok(StepTask {
            task,
            components,
            calls,
            changed,
        })
    }
}

/// The variables whose numbers change while the task is done. An assignment alone reads before it
/// writes.
fn changed_by(alloc: Global, task: Task) -> Result<Option<Touched>, AllocError>
    ensures { IfOk result (λ t. changed_of t ≡ T.changed_by (task_of task.entry)) }
{
    match task {
        Task::Executes(a, _) => changed_in(alloc, a),
        Task::Repeats(_, _, step, body, _) => {
            Ok(Some(touched_by_loop(alloc, body, &step.assign)?))
        }
        Task::Gives(_)
        | Task::Equal(_, _)
        | Task::Logs(_)
        | Task::Asserts(_, _)
        | Task::Assigns(_, _, _) => Ok(None),
    }
}

fn changed_in(alloc: Global, a: &Statement) -> Result<Option<Touched>, AllocError>
    ensures { IfOk result (λ t. changed_of t ≡ changes (bare_statement a.now)) }
{
    match &a.form {
        StatementForm::Simple(Simple::Assign(_)) => Ok(None),
        _ => Ok(Some(touched_by(alloc, a)?)),
    }
}
