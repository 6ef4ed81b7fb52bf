//! The table of a circuit's signals, and the final numbers.
ghost use Rattle.std.specs.Prelude.{◌≡◌, ◌≤◌, ◌+◌, ◌++◌, IfOk, OnOk, All, List, flat_map, map};
ghost use Rattle.std.specs.Prelude.{sum_by, IfErr};
ghost use Rattle.cir_meaning.specs.Places.{elements as element_count};
ghost use Rattle.cir_meaning.specs.Source.{Equation};
ghost use Rattle.cir_meaning.specs.Frame as F;
ghost use Rattle.cir_meaning.specs.Compile as M;
ghost use Rattle.cir_meaning.specs.Compile.{circuit_of, group_size, names_of_row, rows_of};
ghost use Rattle.cir_meaning.specs.Compile.{shapes_of};
ghost use Rattle.cir_frame.specs.Shown.{group_of, row_of, sizes_of, world_of};
ghost use Rattle.cir_inst.specs.Table.{IsTableOf, name_of, shape_of};
ghost use Rattle.cir_inst.specs.Renumbered.{AreDeclared, IsNumbered, IsRoomy};
ghost use Rattle.cir_inst.specs.Renumbered.{renumbered_constraint, renumbered_terms};

use cir_arrays::elements;
use cir_frame::{GROUP_SIZE, Group, Row, Sizes, World};
use cir_values::{InputShape, SignalName, Signals, Text, indexed};
use gold_field::{Constraint, Lc, Term};
use items::Items;
use numbers::{TooLarge, narrow};
use std::alloc::{AllocError, Global};

/// The signals in the order of their numbers, and main's inputs.
pub fn table_of(alloc: Global, world: &World) -> Result<Signals, AllocError>
    ensures { (es : List Equation)
        → IfOk result (IsTableOf (circuit_of group_size (world_of world.now es))) }
{
    let outputs = narrow(world.sizes.outputs)?;
    let public_inputs = narrow(world.sizes.public_inputs)?;
    let private_inputs = narrow(world.sizes.private_inputs)?;
    let names = names_of(alloc, world.rows.as_slice())?;
    let inputs = inputs_of(alloc, world.sizes.outputs, world.rows.as_slice())?;
    Ok(Signals {
        names: Items::of(names),
        outputs,
        public_inputs,
        private_inputs,
        inputs: Items::of(inputs),
    })
}

fn names_of(alloc: Global, rows: &[Row]) -> Result<Vec<SignalName>, AllocError>
    ensures { IfOk result (λ names. map name_of names.items
        ≡ flat_map names_of_row (M.in_order (map row_of rows.now))) }
{
    let mut names = Vec::new(alloc);
    add_names(alloc, Group::Outputs, rows, &mut names)?;
    add_names(alloc, Group::PublicInputs, rows, &mut names)?;
    add_names(alloc, Group::PrivateInputs, rows, &mut names)?;
    add_names(alloc, Group::Others, rows, &mut names)?;
    Ok(names)
}

fn add_names(
    alloc: Global,
    group: Group,
    rows: &[Row],
    names: &mut Vec<SignalName>,
) -> Result<(), AllocError>
    ensures { OnOk result (map name_of names.new.items ≡ map name_of names.old.items
        ++ flat_map names_of_row (rows_of (group_of group) (map row_of rows.now))) }
{
    for row in rows {
        if row.group == group {
            add_row(alloc, row, names)?;
        }
    }
    Ok(())
}

/// The names of a row's elements.
fn add_row(alloc: Global, row: &Row, names: &mut Vec<SignalName>) -> Result<(), AllocError>
    ensures { OnOk result (map name_of names.new.items ≡ map name_of names.old.items
        ++ names_of_row (row_of row.now)) }
{
    for place in 0..count_of(row)? {
        let base = indexed(alloc, row.name.as_slice(), row.dims.as_slice())?;
        names.push(SignalName {
            instance: row.instance,
            base,
            place,
        })?;
    }
    Ok(())
}

fn count_of(row: &Row) -> Result<u32, TooLarge>
    ensures ok { IfOk result (λ n. n ≡ element_count row.now.dims.items) }
    ensures err { IfErr result (λ _. 4294967296 ≤ element_count row.now.dims.items) }
{
    narrow(elements(row.dims.as_slice()))
}

fn inputs_of(alloc: Global, outputs: u64, rows: &[Row]) -> Result<Vec<InputShape>, AllocError>
    ensures { IfOk result (λ inputs. map shape_of inputs.items ≡ shapes_of (1 + outputs)
        (rows_of F.PublicInputs (map row_of rows.now)
        ++ rows_of F.PrivateInputs (map row_of rows.now))) }
{
    let first = u64::from(narrow(outputs)?) + 1;
    let mut inputs = Vec::new(alloc);
    let next = add_inputs(alloc, Group::PublicInputs, first, rows, &mut inputs)?;
    let _end = add_inputs(alloc, Group::PrivateInputs, next, rows, &mut inputs)?;
    Ok(inputs)
}

/// The number behind them.
fn add_inputs(
    alloc: Global,
    group: Group,
    first: u64,
    rows: &[Row],
    inputs: &mut Vec<InputShape>,
) -> Result<u64, AllocError>
    ensures next { IfOk result (λ next. next ≡ first + sum_by (λ r. element_count r.dims)
        (rows_of (group_of group) (map row_of rows.now))) }
    ensures shapes { OnOk result (map shape_of inputs.new.items ≡ map shape_of inputs.old.items
        ++ shapes_of first (rows_of (group_of group) (map row_of rows.now))) }
{
    let mut next = first;
    for row in rows {
        if row.group == group {
            let shape = shape(alloc, row, next)?;
            next = u64::from(shape.first) + u64::from(shape.count);
            inputs.push(shape)?;
        }
    }
    Ok(next)
}

fn shape(alloc: Global, row: &Row, first: u64) -> Result<InputShape, AllocError>
    ensures { IfOk result (λ shape. shape ≡ record {
      name = row.now.name;
      first = first;
      count = element_count row.now.dims.items;
    }) }
{
    let first = narrow(first)?;
    let count = count_of(row)?;
    let name = Text::from_slice(alloc, row.name.as_slice())?;
    Ok(InputShape { name, first, count })
}

/// The constraints by the final numbers: those of a group follow those of the groups before it.
pub fn renumbered(
    alloc: Global,
    sizes: &Sizes,
    constraints: Vec<Constraint>,
) -> Result<Items<Constraint>, AllocError>
    requires roomy { IsRoomy (sizes_of sizes.now) }
    requires numbered { All (IsNumbered (sizes_of sizes.now)) constraints.items }
    ensures { IfOk result (λ ks. ks
        ≡ map (renumbered_constraint (sizes_of sizes.now)) constraints.items) }
{
    let mut list = Vec::with_capacity(alloc, constraints.len())?;
    for constraint in constraints {
        list.push(with_final_numbers(sizes, constraint))?;
    }
    Ok(Items::of(list))
}

fn with_final_numbers(sizes: &Sizes, constraint: Constraint) -> Constraint
    requires roomy { IsRoomy (sizes_of sizes.now) }
    requires numbered { IsNumbered (sizes_of sizes.now) constraint }
    ensures { result ≡ renumbered_constraint (sizes_of sizes.now) constraint }
{
    let Constraint { a, b, c } = constraint;
    Constraint {
        a: renumbered_form(sizes, a),
        b: renumbered_form(sizes, b),
        c: renumbered_form(sizes, c),
    }
}

fn renumbered_form(sizes: &Sizes, f: Lc) -> Lc
    requires roomy { IsRoomy (sizes_of sizes.now) }
    requires declared { AreDeclared (sizes_of sizes.now) f }
    ensures { result ≡ renumbered_terms (sizes_of sizes.now) f }
{
    let mut terms = f.into_vec();
    for k in 0..terms.len() {
        let Term { signal, coef } = terms[k];
        terms[k] = Term {
            signal: final_number(sizes, signal),
            coef,
        };
    }
    Lc::of(terms)
}

fn final_number(sizes: &Sizes, signal: u32) -> u32
    requires { IsRoomy (sizes_of sizes.now) }
    ensures { result ≡ M.final_number group_size (sizes_of sizes.now) signal }
{
    if signal == 0 {
        return 0;
    }
    let before = signal - 1;
    1 + before_group(sizes, before / GROUP_SIZE) + before % GROUP_SIZE
}

/// How many signals stand in the groups before the one of this place.
fn before_group(sizes: &Sizes, place: u32) -> u32
    requires { IsRoomy (sizes_of sizes.now) }
    ensures count { result ≡ M.before (sizes_of sizes.now) place }
    ensures few { result ≤ 3145725 }
{
    let outputs = sizes.outputs as u32;
    let public_inputs = sizes.public_inputs as u32;
    let private_inputs = sizes.private_inputs as u32;
    match place {
        0 => 0,
        1 => outputs,
        2 => outputs + public_inputs,
        _ => outputs + (public_inputs + private_inputs),
    }
}
