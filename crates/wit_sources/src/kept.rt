//! The elements that a task may keep: they are written as they were.
ghost use Rattle.std.specs.Prelude.{◌≡◌, ℕ, List, [], map, filter, flat_map, not, IfOk, OnOk};
ghost use Rattle.std.specs.Option.{option_copied};
ghost use Rattle.cir_ast.specs.Tree.{Expr, Set, as_accessors, bare_assign, place_accessors};
ghost use Rattle.cir_ast.specs.declared.program.Meant.{Meant as AnyMeant};
ghost use Rattle.cir_meaning.specs.Texts.{indices_of};
ghost use Rattle.cir_meaning.specs.Writing.{plain};
ghost use Rattle.wit_lower.specs.Homes as L;
ghost use Rattle.wit_lower.specs.Tasks as T;
ghost use Rattle.cir_emit.specs.Reads as E;
ghost use Rattle.wit_sourced.specs.Loaded.{changed_of};
ghost use Rattle.wit_statements.specs.Asked.{element_of};
ghost use Rattle.wit_sources.specs.Given.{Reads};
ghost use Rattle.wit_sources.specs.Collected.{ground_with, homes_in, seen, shapes_in};
ghost use Rattle.wit_sources.specs.Runs.{in_run};

use crate::found::Found;
use crate::inputs::Inputs;
use crate::parts::{add_named_element, add_part};
use crate::setting::Setting;
use crate::values::known;
use cir_arrays::{is_all_known, places_of};
use cir_ast::program::{Accessor, Assign, Meant, Place};
use cir_texts::value_of;
use std::alloc::{AllocError, Global};
use wit_sourced::Sought;
use wit_statements::Element;

/// Elements of a variable that stand in a row.
#[derive(Drop)]
pub struct Run {
    variable: u32,
    first: u64,
    count: u64,
}

/// All elements of variables.
fn add_variables<'a, I: Inputs>(
    alloc: Global,
    inputs: &I,
    found: &mut Found<'a>,
    numbers: &[u32],
) -> Result<(), AllocError>
    ensures shapes { found.new.sources.named.now.shapes
        ≡ found.old.sources.named.now.shapes }
    ensures reads { OnOk result (Reads (homes_in found.old) (I.offer inputs.now) (seen found.old)
        (seen found.new) (flat_map (λ n. E.part_of (L.Variable n)
        (L.find (L.Variable n) (homes_in found.old)) []) numbers.now)) }
{
    for n in numbers {
        add_part(alloc, inputs, found, Sought::Variable(*n), &[])?;
    }
    Ok(())
}

/// All elements of the variables that change while the task is done.
pub fn add_changed<'a, I: Inputs>(
    setting: &Setting,
    inputs: &I,
    found: &mut Found<'a>,
) -> Result<(), AllocError>
    ensures shapes { found.new.sources.named.now.shapes
        ≡ found.old.sources.named.now.shapes }
    ensures reads { OnOk result (Reads (homes_in found.old) (I.offer inputs.now) (seen found.old)
        (seen found.new) (flat_map (λ n. E.part_of (L.Variable n)
        (L.find (L.Variable n) (homes_in found.old)) [])
        (changed_of (option_copied setting.now.changed)))) }
{
    match setting.changed {
        Some(touched) => {
            add_variables(setting.alloc, inputs, found, touched.written.as_slice())?;
            add_variables(setting.alloc, inputs, found, touched.declared.as_slice())
        }
        None => Ok(()),
    }
}

fn is_in(run: &Option<Run>, target: Element) -> bool
    ensures { result ≡ in_run run.now (element_of target) }
{
    match run {
        Some(run) => {
            run.variable == target.variable
                && run.first <= target.element
                && target.element - run.first < run.count
        }
        None => false,
    }
}

/// The elements that are wanted but for those that are surely written.
pub fn add_targets<'a, I: Inputs>(
    inputs: &I,
    found: &mut Found<'a>,
    written: &Option<Run>,
    targets: &[Element],
) -> Result<(), AllocError>
    ensures shapes { found.new.sources.named.now.shapes
        ≡ found.old.sources.named.now.shapes }
    ensures reads { OnOk result (Reads (homes_in found.old) (I.offer inputs.now) (seen found.old)
        (seen found.new) (E.targets_kept (filter (λ t. not (in_run written.now t))
        (map element_of targets.now)))) }
{
    for target in targets {
        if !is_in(written, *target) {
            let name = Sought::Variable(target.variable);
            add_named_element(inputs, found, name, target.element)?;
        }
    }
    Ok(())
}

/// The elements that an assignment surely writes. Where targets are wanted there are such elements.
fn written_by(setting: &Setting, found: &Found, a: &Assign) -> Result<Option<Run>, AllocError>
    ensures { IfOk result (λ run. (t : T.Element) → in_run run t ≡ E.is_written
        (ground_with setting.now (shapes_in found.now) (seen found.now).list)
        (homes_in found.now) (plain (bare_assign a.now)) t) }
{
    let Some(assigned) = value_of(a) else {
        return Ok(None);
    };
    place_run(setting, found, assigned.place)
}

fn place_run(setting: &Setting, found: &Found, place: &Place) -> Result<Option<Run>, AllocError>
    ensures { (name : List ℕ) (e : Expr AnyMeant) → IfOk result (λ run. (t : T.Element)
        → in_run run t ≡ E.is_written
        (ground_with setting.now (shapes_in found.now) (seen found.now).list) (homes_in found.now)
        (Set name place.now.meant (place_accessors place.now) e) t) }
{
    let Meant::Variable(variable) = place.meant else {
        return Ok(None);
    };
    let Some(home) = found.sources.named.scope.find(Sought::Variable(variable)) else {
        return Ok(None);
    };
    let indices = known_indices(setting, found, place.accessors.as_slice())?;
    if !is_all_known(indices.as_slice()) {
        return Ok(None);
    }
    let places = places_of(setting.alloc, home.dims.as_slice(), indices.as_slice())?;
    match places.as_slice().first() {
        Some(first) => Ok(Some(Run {
            variable,
            first: *first,
            count: places.len() as u64,
        })),
        None => Err(AllocError),
    }
}

fn known_indices(
    setting: &Setting,
    found: &Found,
    accessors: &[Accessor],
) -> Result<Vec<Option<u64>>, AllocError>
    ensures { IfOk result (λ known. known.items ≡ map (ground_with setting.now
        (shapes_in found.now) (seen found.now).list).known
        (indices_of (as_accessors accessors.now))) }
{
    let mut indices = Vec::new(setting.alloc);
    for accessor in accessors {
        if let Accessor::Index(e) = accessor {
            let index = known(setting, found, e)?;
            indices.push(index)?;
        }
    }
    Ok(indices)
}

/// The elements that an assignment keeps.
pub fn collect_unwritten<'a, I: Inputs>(
    setting: &Setting,
    inputs: &I,
    found: &mut Found<'a>,
    a: &'a Assign,
    targets: &[Element],
) -> Result<(), AllocError>
    ensures shapes { found.new.sources.named.now.shapes
        ≡ found.old.sources.named.now.shapes }
    ensures reads { OnOk result (Reads (homes_in found.old) (I.offer inputs.now) (seen found.old)
        (seen found.new) (E.targets_kept (filter (λ t. not (E.is_written
        (ground_with setting.now (shapes_in found.old) (seen found.old).list)
        (homes_in found.old) (plain (bare_assign a.now)) t)) (map element_of targets.now)))) }
{
    if targets.is_empty() {
        return Ok(());
    }
    let written = written_by(setting, found, a)?;
    add_targets(inputs, found, &written, targets)
}
