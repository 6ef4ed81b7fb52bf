//! The cells of all signals by their numbers.
ghost use Rattle.std.specs.Prelude.{◌≡◌, ◌+◌, ◌++◌, ◌<◌, ℕ, IfOk, OnOk, length, map, replicate};
ghost use Rattle.std.specs.Prelude.{None, Some};
ghost use Rattle.cir_meaning.specs.Compile.{group_size};
ghost use Rattle.cir_meaning.specs.Frame as M;
ghost use Rattle.cir_meaning.specs.Places.{numbers_from};
ghost use Rattle.cir_frame.specs.Shown.{group_of, sizes_of};
ghost use Rattle.cir_make.specs.Housed.{home_in};
ghost use Rattle.cir_homes.specs.Filled.{Puts, PutsOne, group_homes, homes_by};
ghost use Rattle.cir_homes.specs.Homed.{signal_homes};

use crate::homes::add_signals;
use cir_frame::{GROUP_SIZE, Group, SignalEntry, Sizes};
use cir_make::{Homes, Run};
use numbers::{TooLarge, behind};
use std::alloc::{AllocError, Global};

/// The cells of all signals by their final numbers, that of signal 0 first, from those of main and
/// where those inside stand. There is no memory for signals without cells.
pub fn homes_of(
    alloc: Global,
    sizes: &Sizes,
    signals: &[Option<SignalEntry>],
    ports: &[Vec<Run>],
    inside: &[Homes],
) -> Result<Vec<u32>, AllocError>
    ensures { IfOk result (λ cells. map Some cells.items ≡ homes_by (sizes_of sizes.now)
        (signal_homes signals.now ports.now ++ inside.now)) }
{
    let mut homes = Vec::new(alloc);
    add_signals(signals, ports, &mut homes)?;
    homes.extend_from_slice(inside)?;
    all_homes(alloc, sizes, homes.as_slice())
}

fn all_homes(alloc: Global, sizes: &Sizes, homes: &[Homes]) -> Result<Vec<u32>, AllocError>
    ensures { IfOk result (λ cells. map Some cells.items
        ≡ homes_by (sizes_of sizes.now) homes.now) }
{
    let mut cells = Vec::new(alloc);
    cells.push(0)?;
    add_group(alloc, Group::Outputs, sizes, homes, &mut cells)?;
    add_group(alloc, Group::PublicInputs, sizes, homes, &mut cells)?;
    add_group(alloc, Group::PrivateInputs, sizes, homes, &mut cells)?;
    add_group(alloc, Group::Others, sizes, homes, &mut cells)?;
    Ok(cells)
}

/// Those of a group's signals.
fn add_group(
    alloc: Global,
    group: Group,
    sizes: &Sizes,
    homes: &[Homes],
    cells: &mut Vec<u32>,
) -> Result<(), AllocError>
    ensures { OnOk result (map Some cells.new.items ≡ map Some cells.old.items
        ++ group_homes (sizes_of sizes.now) homes.now (group_of group)) }
{
    let Ok(count) = usize::try_from(sizes.of(group)) else {
        return Err(AllocError);
    };
    let mut found = nothing_yet(alloc, count)?;
    put_all(homes, first_number(group), found.as_mut_slice())?;
    add_all(found.as_slice(), cells)
}

/// The number of a group's first signal.
fn first_number(group: Group) -> u64
    ensures { result ≡ 1 + M.before_group group_size (group_of group) }
{
    1 + u64::from(group.place()) * u64::from(GROUP_SIZE)
}

fn nothing_yet(alloc: Global, count: usize) -> Result<Vec<Option<u32>>, AllocError>
    ensures { IfOk result (λ found. found.items ≡ replicate count None) }
{
    let mut found = Vec::with_capacity(alloc, count)?;
    for _place in 0..count {
        found.push(None)?;
    }
    Ok(found)
}

/// The cells of the numbers from the first on, as the rows have them.
fn put_all(homes: &[Homes], first: u64, found: &mut [Option<u32>]) -> Result<(), TooLarge>
    ensures { found.old ≡ replicate (length found.old) None → OnOk result
        (found.new ≡ map (home_in homes.now) (numbers_from first (length found.old))) }
{
    for row in homes {
        put(row, first, found)?;
    }
    Ok(())
}

/// The elements of a row that have no cell yet have the row's.
fn put(row: &Homes, first: u64, found: &mut [Option<u32>]) -> Result<(), TooLarge>
    ensures { OnOk result (Puts row.now first found.old found.new) }
{
    for k in 0..row.count {
        put_one(row, k, first, found)?;
    }
    Ok(())
}

fn put_one(row: &Homes, k: u64, first: u64, found: &mut [Option<u32>]) -> Result<(), TooLarge>
    ensures { OnOk result (PutsOne row.now k first found.old found.new) }
{
    let Some(place) = place_of(row.number, k, first, found.len()) else {
        return Ok(());
    };
    if found[place].is_some() {
        return Ok(());
    }
    found[place] = Some(behind(row.cell, k)?);
    Ok(())
}

/// The place of a number, counted from the first, if there is one.
fn place_of(number: u128, k: u64, first: u64, count: usize) -> Option<usize>
    ensures found { (p : ℕ) → result ≡ Some p → (first + p ≡ number + k) × (p < count) }
    ensures none { result ≡ None → (p : ℕ) → p < count → first + p ≡ number + k → ⊥ }
{
    let number = number.checked_add(u128::from(k))?;
    let place = number.checked_sub(u128::from(first))?;
    if place < count as u128 {
        Some(place as usize)
    } else {
        None
    }
}

fn add_all(found: &[Option<u32>], cells: &mut Vec<u32>) -> Result<(), AllocError>
    ensures { OnOk result (map Some cells.new.items ≡ map Some cells.old.items ++ found.now) }
{
    for cell in found {
        let Some(cell) = *cell else {
            return Err(AllocError);
        };
        cells.push(cell)?;
    }
    Ok(())
}
