//! The sources of a task.
ghost use Rattle.std.specs.Prelude.{◌≡◌, ◌++◌, List, [], map, flat_map, IfOk, OnOk, IsTrue, Some};
ghost use Rattle.std.specs.Prelude.{option_map};
ghost use Rattle.std.specs.List.{AllByRecursion};
ghost use Rattle.std.specs.Option.{option_copied};
ghost use Rattle.cir_ast.specs.declared.program.Spot.{Spot as AnySpot};
ghost use Rattle.cir_ast.specs.Tree.{Assert as AnyAssert, Assigned, Binary as AnyBinary, Ended};
ghost use Rattle.cir_ast.specs.Tree.{Parentheses as AnyParentheses, bare, bare_argument};
ghost use Rattle.cir_ast.specs.Tree.{bare_assign, bare_place, bare_statement};
ghost use Rattle.cir_meaning.specs.Statement.{loop_of};
ghost use Rattle.cir_meaning.specs.Costs.{Made};
ghost use Rattle.cir_texts.specs.Shown.{wanted_of};
ghost use Rattle.wit_lower.specs.Homes as L;
ghost use Rattle.wit_lower.specs.Known.{changes};
ghost use Rattle.wit_lower.specs.Steps.{SourcesFit};
ghost use Rattle.wit_lower.specs.Tasks as T;
ghost use Rattle.cir_emit.specs.Lowered.{AreLoaded};
ghost use Rattle.cir_emit.specs.Reads as E;
ghost use Rattle.wit_sourced.specs.Loaded.{AreTold, Calls, changed_of};
ghost use Rattle.wit_sourced.specs.Loads.{shape_of, source_of};
ghost use Rattle.wit_statements.specs.Asked.{element_of, step_sources, task_of};
ghost use Rattle.wit_sources.specs.Collected.{Collects, homes_of};
ghost use Rattle.wit_sources.specs.Told as S;
ghost use Rattle.wit_sources.specs.Statements.{assign_in};

use crate::found::Found;
use crate::inputs::Inputs;
use crate::kept::{add_changed, add_targets, collect_unwritten};
use crate::setting::Setting;
use crate::values::{collect, collect_place};
use cir_ast::program::{
    Assign, Binary, Expr, LogArgument, Place, Simple, Statement, StatementForm, Step,
};
use cir_evaluate::{Operator, operator_of};
use cir_texts::{Texts, Wanted};
use items::Items;
use std::alloc::{AllocError, Global};
use std::collections::BTreeMap;
use wit_sourced::{Named, Sources};
use wit_statements::{Element, StepTask, Task};

/// The sources of a task, and whether each element that it may read has one.
#[derive(Drop)]
pub struct Collected<'a> {
    pub sources: Sources<'a>,
    pub is_whole: bool,
}

/// What a place reads.
fn collect_read<'a, I: Inputs>(
    setting: &Setting,
    inputs: &I,
    found: &mut Found<'a>,
    place: &'a Place,
) -> Result<(), AllocError>
    ensures shapes { found.new.sources.named.now.shapes
        ≡ found.old.sources.named.now.shapes }
    ensures reads { OnOk result (Collects setting.now (I.offer inputs.now) found.old found.new
        (λ g homes. E.expr_reads g homes (bare_place place.now))) }
{
    collect_place(
        setting,
        inputs,
        found,
        place.meant,
        place.accessors.as_slice(),
    )
}

/// A place and an expression under an operator, which is never lazy in a compound assignment.
fn collect_compound<'a, I: Inputs>(
    setting: &Setting,
    inputs: &I,
    found: &mut Found<'a>,
    op: Binary,
    place: &'a Place,
    e: &'a Expr,
) -> Result<(), AllocError>
    ensures shapes { found.new.sources.named.now.shapes
        ≡ found.old.sources.named.now.shapes }
    ensures reads { OnOk result (Collects setting.now (I.offer inputs.now) found.old found.new
        (λ g homes. E.expr_reads g homes
        (AnyBinary op (bare_place place.now) (AnyParentheses (bare e.now))))) }
{
    let Operator::Strict(_) = operator_of(op) else {
        return Err(AllocError);
    };
    collect_read(setting, inputs, found, place)?;
    collect(setting, inputs, found, e)
}

/// An expression that is evaluated.
fn collect_wanted<'a, I: Inputs>(
    setting: &Setting,
    inputs: &I,
    found: &mut Found<'a>,
    wanted: Wanted<'a>,
) -> Result<(), AllocError>
    ensures shapes { found.new.sources.named.now.shapes
        ≡ found.old.sources.named.now.shapes }
    ensures reads { OnOk result (Collects setting.now (I.offer inputs.now) found.old found.new
        (λ g homes. E.expr_reads g homes (wanted_of wanted.entry).expr)) }
{
    match wanted {
        Wanted::Number(e) => collect(setting, inputs, found, e),
        Wanted::Whole(e) => collect(setting, inputs, found, e),
        Wanted::Compound(op, place, e) => { collect_compound(setting, inputs, found, op, place, e) }
        Wanted::Step(_, place) => collect_read(setting, inputs, found, place),
    }
}

fn collect_texts<'a, I: Inputs>(
    setting: &Setting,
    inputs: &I,
    found: &mut Found<'a>,
    wanted: &[Wanted<'a>],
) -> Result<(), AllocError>
    ensures shapes { found.new.sources.named.now.shapes
        ≡ found.old.sources.named.now.shapes }
    ensures reads { OnOk result (Collects setting.now (I.offer inputs.now) found.old found.new
        (λ g homes. flat_map (λ x. E.expr_reads g homes x.expr) (map wanted_of wanted.now))) }
{
    for each in wanted {
        collect_wanted(setting, inputs, found, *each)?;
    }
    Ok(())
}

fn collect_logged<'a, I: Inputs>(
    setting: &Setting,
    inputs: &I,
    found: &mut Found<'a>,
    arguments: &'a [LogArgument],
) -> Result<(), AllocError>
    ensures shapes { found.new.sources.named.now.shapes
        ≡ found.old.sources.named.now.shapes }
    ensures reads { OnOk result (Collects setting.now (I.offer inputs.now) found.old found.new
        (λ g homes. flat_map (E.expr_reads g homes) (T.logged (map bare_argument arguments.now)))) }
{
    for argument in arguments {
        match argument {
            LogArgument::Value(e) => collect(setting, inputs, found, e)?,
            LogArgument::Words(_) => {}
        }
    }
    Ok(())
}

/// An assignment alone.
fn collect_assign<'a, I: Inputs>(
    setting: &Setting,
    inputs: &I,
    found: &mut Found<'a>,
    a: &'a Assign,
    targets: &[Element],
) -> Result<(), AllocError>
    ensures shapes { found.new.sources.named.now.shapes
        ≡ found.old.sources.named.now.shapes }
    ensures reads { (spot : AnySpot) → OnOk result (Collects setting.now (I.offer inputs.now)
        found.old found.new (λ g homes. E.task_reads g homes
        (T.Executes (Ended spot (Assigned (bare_assign a.now))) (map element_of targets.now)))) }
{
    let mut texts = Texts::new(setting.alloc);
    texts.add_assign(a)?;
    collect_texts(setting, inputs, found, texts.wanted.as_slice())?;
    collect_unwritten(setting, inputs, found, a, targets)
}

/// Another statement.
fn collect_statement<'a, I: Inputs>(
    setting: &Setting,
    inputs: &I,
    found: &mut Found<'a>,
    texts: &Texts<'a>,
    targets: &[Element],
) -> Result<(), AllocError>
    ensures shapes { found.new.sources.named.now.shapes
        ≡ found.old.sources.named.now.shapes }
    ensures reads { OnOk result (Collects setting.now (I.offer inputs.now) found.old found.new
        (λ g homes. flat_map (λ x. E.expr_reads g homes x.expr)
        (map wanted_of texts.now.wanted.items)
        ++ (flat_map (λ n. E.part_of (L.Variable n) (L.find (L.Variable n) homes) [])
        (changed_of (option_copied setting.now.changed))
        ++ E.targets_kept (map element_of targets.now)))) }
{
    collect_texts(setting, inputs, found, texts.wanted.as_slice())?;
    add_changed(setting, inputs, found)?;
    add_targets(inputs, found, &None, targets)
}

fn collect_assertion<'a, I: Inputs>(
    setting: &Setting,
    inputs: &I,
    found: &mut Found<'a>,
    e: &'a Expr,
) -> Result<(), AllocError>
    ensures shapes { found.new.sources.named.now.shapes
        ≡ found.old.sources.named.now.shapes }
    ensures reads { (spot : AnySpot) → OnOk result (Collects setting.now (I.offer inputs.now)
        found.old found.new
        (λ g homes. E.task_reads g homes (T.Executes (AnyAssert spot (bare e.now)) []))) }
{
    collect(setting, inputs, found, e)
}

/// The assignment that a statement is.
fn assigned(a: &Statement) -> Option<&Assign>
    ensures { option_map bare_assign (option_copied result) ≡ assign_in (bare_statement a.now) }
{
    match &a.form {
        StatementForm::Simple(Simple::Assign(assign)) => Some(assign),
        _ => None,
    }
}

fn collect_executed<'a, I: Inputs>(
    setting: &Setting,
    inputs: &I,
    found: &mut Found<'a>,
    a: &'a Statement,
    targets: &[Element],
) -> Result<(), AllocError>
    requires { changed_of (option_copied setting.now.changed) ≡ changes (bare_statement a.now) }
    ensures shapes { found.new.sources.named.now.shapes
        ≡ found.old.sources.named.now.shapes }
    ensures reads { OnOk result (Collects setting.now (I.offer inputs.now) found.old found.new
        (λ g homes. E.task_reads g homes
        (T.Executes (bare_statement a.now) (map element_of targets.now)))) }
{
    if let Some(assign) = assigned(a) {
        return collect_assign(setting, inputs, found, assign, targets);
    }
    let mut texts = Texts::new(setting.alloc);
    texts.add(a)?;
    collect_statement(setting, inputs, found, &texts, targets)
}

/// The loop that is left of a `for`.
fn collect_repeated<'a, I: Inputs>(
    setting: &Setting,
    inputs: &I,
    found: &mut Found<'a>,
    condition: &'a Expr,
    step: &'a Step,
    body: &'a Statement,
    targets: &[Element],
) -> Result<(), AllocError>
    requires { (spot : AnySpot) → changed_of (option_copied setting.now.changed)
        ≡ changes (loop_of spot (bare condition.now) (bare_statement body.now) step.now.spot
        (bare_assign step.now.assign)) }
    ensures shapes { found.new.sources.named.now.shapes
        ≡ found.old.sources.named.now.shapes }
    ensures reads { (spot : AnySpot) → OnOk result (Collects setting.now (I.offer inputs.now)
        found.old found.new (λ g homes. E.task_reads g homes
        (T.Executes (loop_of spot (bare condition.now) (bare_statement body.now) step.now.spot
        (bare_assign step.now.assign)) (map element_of targets.now)))) }
{
    let mut texts = Texts::new(setting.alloc);
    texts.wanted.push(Wanted::Number(condition))?;
    texts.add(body)?;
    texts.add_assign(&step.assign)?;
    collect_statement(setting, inputs, found, &texts, targets)
}

fn collect_task<'a, I: Inputs>(
    setting: &Setting,
    inputs: &I,
    found: &mut Found<'a>,
    task: Task<'a>,
) -> Result<(), AllocError>
    requires { changed_of (option_copied setting.now.changed) ≡ T.changed_by (task_of task) }
    ensures shapes { found.new.sources.named.now.shapes
        ≡ found.old.sources.named.now.shapes }
    ensures reads { OnOk result (Collects setting.now (I.offer inputs.now) found.old found.new
        (λ g homes. E.task_reads g homes (task_of task.entry))) }
{
    match task {
        Task::Gives(e) => collect(setting, inputs, found, e),
        Task::Equal(a, b) => {
            collect(setting, inputs, found, a)?;
            collect(setting, inputs, found, b)
        }
        Task::Logs(arguments) => collect_logged(setting, inputs, found, arguments),
        Task::Asserts(_, e) => collect_assertion(setting, inputs, found, e),
        Task::Assigns(_, a, targets) => collect_assign(setting, inputs, found, a, targets),
        Task::Executes(a, targets) => collect_executed(setting, inputs, found, a, targets),
        Task::Repeats(_, condition, step, body, targets) => {
            collect_repeated(setting, inputs, found, condition, step, body, targets)
        }
    }
}

/// The sources of a step's task. An element that has no input is left out.
pub fn sources_of<'a, I: Inputs>(
    alloc: Global,
    named: &'a Named<'a>,
    step: &'a StepTask<'a>,
    inputs: &I,
) -> Result<Collected<'a>, AllocError>
    ensures shapes { IfOk result (λ c. c.sources.named.now.shapes ≡ named.now.shapes) }
    ensures fit { IfOk result (λ c. SourcesFit (homes_of (map shape_of c.sources.named.now.shapes))
        (map source_of c.sources.list)) }
    ensures given { IfOk result (λ c. AllByRecursion (λ x. I.offer inputs.now x.name x.element
        ≡ Some x.input) (map source_of c.sources.list)) }
    ensures few { (keys : List Made) (called : Calls) → AreTold called step.now.calls.now
        → IfOk result (λ c. S.AreFew (step_sources step.now.components.now called c.sources)
        (S.reads_of keys (step_sources step.now.components.now called c.sources)
        (task_of step.now.task))) }
    ensures loaded { (keys : List Made) (called : Calls) → AreTold called step.now.calls.now
        → IfOk result (λ c. AllByRecursion (S.HasOffered (I.offer inputs.now)
        (step_sources step.now.components.now called c.sources))
        (S.reads_of keys (step_sources step.now.components.now called c.sources)
        (task_of step.now.task))) }
    ensures whole { (keys : List Made) (called : Calls) → AreTold called step.now.calls.now
        → IfOk result (λ c. IsTrue c.is_whole
        → AreLoaded (step_sources step.now.components.now called c.sources)
        (S.reads_of keys (step_sources step.now.components.now called c.sources)
        (task_of step.now.task))) }
{
    let setting = Setting {
        alloc,
        components: step.components,
        changed: step.changed.as_ref(),
        calls: step.calls,
    };
    let list = Items::new(alloc);
    let mut found = Found {
        sources: Sources { named, list },
        places: BTreeMap::new(alloc),
        is_whole: true,
    };
    collect_task(&setting, inputs, &mut found, step.task)?;
    let Found {
        sources,
        is_whole,
        ..
    } = found;
    Ok(Collected { sources, is_whole })
}
