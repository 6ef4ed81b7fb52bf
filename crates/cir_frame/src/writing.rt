//! The elements of signals that assignments write, each once.
ghost use Rattle.std.specs.Prelude.{◌≡◌, ℕ, Option, Some, OnErr};
ghost use Rattle.cir_meaning.specs.Tried.{Tried};
ghost use Rattle.cir_meaning.specs.Limits.{Counts as AnyCounts};
ghost use Rattle.cir_meaning.specs.Arrays.{Reach as AnyReach};
ghost use Rattle.cir_meaning.specs.Frame as M;
ghost use Rattle.cir_meaning.specs.Writing as W;
ghost use Rattle.cir_arrays.specs.Stopped.{where_of, Gives};
ghost use Rattle.cir_frame.specs.Shown.{signal_of, signals_of, part_of, frame_of};
ghost use Rattle.cir_frame.specs.Targets.{Targeted, Targets, FindsInput, marked_inside};
ghost use Rattle.cir_frame.specs.Targets.{marked_once, first_written, target_at, target_by};
ghost use Rattle.cir_frame.specs.Targets.{written_by};

use crate::frame::{Frame, Part};
use crate::reading::{Reading, named_signal, part_at};
use crate::signal::SignalEntry;
use cir_arrays::{Fault, Meaning, Reach, Site, Want, is_all_known, reach_of};
use cir_ast::Kind;
use std::alloc::Global;

/// The elements of a signal that are to be written: an own signal, or an input of a part, by its
/// number.
pub struct Target {
    /// `None` for an own signal.
    pub part: Option<u32>,
    pub number: usize,
    pub reach: Reach,
}

// Written out, so that the proof of an owner sees one call and not the drop of each part.
impl Drop for Target {
    fn drop(self) {
        let Target {
            part: _part,
            number: _number,
            reach: _reach,
        } = self;
    }
}

impl Target {
    ghost use Rattle.cir_frame.specs.Targets.{run_of};

    /// The first element and how many there are.
    pub fn run(&self) -> (u64, u64)
        ensures { result ≡ run_of self.now.reach.part }
    {
        match self.reach.part {
            Meaning::Known { first, count } => (first, count),
            Meaning::Unknown | Meaning::Outside => (0, 0),
        }
    }
}

/// An own signal as it is to be written.
pub fn own_target(alloc: Global, r: &Reading, n: u32, frame: &Frame) -> Result<Target, Fault>
    ensures { (c : AnyCounts) → Targets (frame_of frame.now c) r.now.indices.now result
        (target_at (where_of r.now.site.now) None n r.now.indices.now (frame_of frame.now c)) }
{
    target_of(alloc, r, None, n as usize, frame)
}

/// The input of this name of the component that the indices mean, by its part and number. The
/// other signals of a component aren't written from outside.
pub fn input_at(
    alloc: Global,
    r: &Reading,
    n: u32,
    name: &[u8],
    frame: &Frame,
) -> Result<(Option<u32>, usize), Fault>
    ensures { (c : AnyCounts) (w : M.World)
        (go : Option ℕ → ℕ → M.SignalEntry → Tried (W.Target × M.State))
        → FindsInput (where_of r.now.site.now) n r.now.indices.now name.now
        (record { frame = frame_of frame.now c; world = w }) go result }
{
    let lit = Reading {
        site: r.site,
        shaded: false,
        indices: r.indices,
    };
    let part = part_at(alloc, &lit, n, frame)?;
    let signals = frame.signals_of(part);
    let i = named_signal(alloc, r.site, name, signals)?;
    if is_input_at(signals, i) {
        Ok((part, i))
    } else {
        Err(r.site.refused(alloc, Kind::WrongKind))
    }
}

fn is_input_at(signals: &[Option<SignalEntry>], i: usize) -> bool
    ensures { (e : M.SignalEntry) → M.entry_at (signals_of signals.now) i ≡ Some e
        → result ≡ M.is_input e.direction }
{
    match signals.get(i) {
        Some(Some(entry)) => entry.is_input(),
        _ => false,
    }
}

/// A signal of the body or of a part as it is to be written.
pub fn target_of(
    alloc: Global,
    r: &Reading,
    part: Option<u32>,
    n: usize,
    frame: &Frame,
) -> Result<Target, Fault>
    ensures { (c : AnyCounts) → Targets (frame_of frame.now c) r.now.indices.now result
        (target_at (where_of r.now.site.now) part n r.now.indices.now (frame_of frame.now c)) }
{
    match frame.signal_of(part, n) {
        None => Err(r.site.refused(alloc, Kind::ReadBeforeWrite)),
        Some(entry) => targeted(alloc, r, part, n, entry),
    }
}

/// All indices of a written signal must be known.
fn targeted(
    alloc: Global,
    r: &Reading,
    part: Option<u32>,
    n: usize,
    entry: &SignalEntry,
) -> Result<Target, Fault>
    ensures { Targeted part n entry.now.dims.items r.now.indices.now result
        (W.targeted (where_of r.now.site.now) part n (signal_of entry.now) r.now.indices.now) }
{
    if !is_all_known(r.indices) {
        return Err(r.site.refused(alloc, Kind::UnknownIndex));
    }
    let dims = entry.dims.as_slice();
    let reach = reach_of(alloc, r.site, false, Want::Whole, dims, r.indices)?;
    Ok(Target {
        part,
        number: n,
        reach,
    })
}

/// Writes an element once, and answers the number of the signal's first element.
pub fn write_element(
    alloc: Global,
    site: &Site,
    target: &Target,
    place: u64,
    frame: &mut Frame,
) -> Result<u128, Fault>
    ensures { (c : AnyCounts) (w : M.World) (m : AnyReach)
        → Gives (written_by frame.new c w) result
        (first_written (where_of site.now) (target_by target.now m) place
        (record { frame = frame_of frame.old c; world = w })) }
{
    let number = target.number;
    match target.part {
        None => {
            if number < frame.signals.len() {
                if let Some(entry) = &mut frame.signals[number] {
                    return mark(alloc, site, entry, place);
                }
            }
        }
        Some(j) => {
            if (j as usize) < frame.parts.len() {
                return mark_inside(alloc, site, target, place, &mut frame.parts[j as usize]);
            }
        }
    }
    Err(site.refused(alloc, Kind::ReadBeforeWrite))
}

fn mark_inside(
    alloc: Global,
    site: &Site,
    target: &Target,
    place: u64,
    part: &mut Part,
) -> Result<u128, Fault>
    ensures { Gives (λ first. (first, part_of part.new)) result
        (marked_inside (where_of site.now) target.now.number place (part_of part.old)) }
{
    let number = target.number;
    if number < part.signals.len() {
        if let Some(entry) = &mut part.signals[number] {
            let first = mark(alloc, site, entry, place)?;
            if entry.is_input() {
                part.missing -= 1;
            }
            return Ok(first);
        }
    }
    Err(site.refused(alloc, Kind::ReadBeforeWrite))
}

fn mark(alloc: Global, site: &Site, entry: &mut SignalEntry, place: u64) -> Result<u128, Fault>
    ensures once { Gives (λ first. (first, signal_of entry.new)) result
        (marked_once (where_of site.now) place (signal_of entry.old)) }
    ensures kept { OnErr result (entry.new ≡ entry.old) }
{
    if entry.is_written(place) {
        return Err(site.refused(alloc, Kind::SecondWrite));
    }
    entry.mark(place);
    Ok(entry.first)
}
