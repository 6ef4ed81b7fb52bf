//! What a name is read as: a variable, an own signal, or a signal of a component.
ghost use Rattle.std.specs.Prelude.{◌≡◌, ◌+◌, ℕ, true, is_some, List, [], ◌∷◌, Option, map, IfOk};
ghost use Rattle.std.specs.Prelude.{◌≤◌, IfErr};
ghost use Rattle.std.specs.List.{list_all};
ghost use Rattle.cir_ast.specs.declared.refusal.Kind.TheVariants.{ReadBeforeWrite};
ghost use Rattle.cir_values.specs.Meant.{meant};
ghost use Rattle.cir_meaning.specs.Limits.{Counts as AnyCounts};
ghost use Rattle.cir_meaning.specs.Places.{all_known, numbers_from};
ghost use Rattle.cir_meaning.specs.Values.{Known as KnownValue};
ghost use Rattle.cir_meaning.specs.Arrays as A;
ghost use Rattle.cir_meaning.specs.Frame as M;
ghost use Rattle.cir_meaning.specs.Reading as N;
ghost use Rattle.cir_arrays.specs.Stopped.{where_of, Gives, Tests};
ghost use Rattle.cir_arrays.specs.Shown.{datum_of};
ghost use Rattle.cir_frame.specs.Shown.{signal_of, component_of, part_of, frame_of};
ghost use Rattle.cir_arrays.specs.Reached.{IsReach, places_within};
ghost use Rattle.cir_frame.specs.Read.{stored_of, origin_from, root_of, reached_part, told_part};
ghost use Rattle.cir_frame.specs.Read.{NamesSignal};

use crate::frame::{ComponentEntry, Frame, Part};
use crate::signal::SignalEntry;
use cir_arrays::{
    Array, Datum, Fault, Filling, Meaning, Reach, Site, Want, is_all_known, made_elements,
    places_of, reach_of,
};
use cir_ast::Kind;
use cir_ast::program::Meant;
use cir_values::{Value, signal_form};
use gold_field::Gold;
use numbers::TooLarge;
use std::alloc::{AllocError, Global};

/// What is read.
#[derive(Clone, Copy)]
pub enum Source<'f> {
    /// A variable; none of its number reads as 0.
    Stored(Option<&'f Datum>),
    /// A signal, with whether it may be read at all.
    Wired {
        may_read: bool,
        entry: &'f SignalEntry,
    },
    /// What no known index means.
    Lost,
}

/// What stands in front of indices: a name, or the signal of a component that is found already.
#[derive(Clone, Copy)]
pub enum Root<'f> {
    Named(Meant),
    Found(Source<'f>),
}

/// A reading: where it stands, whether it is shaded, and the indices.
#[derive(Clone, Copy)]
pub struct Reading<'a> {
    pub site: &'a Site<'a>,
    pub shaded: bool,
    pub indices: &'a [Option<u64>],
}

/// The number that is read.
pub fn read_number(alloc: Global, source: Source, r: &Reading) -> Result<Value, Fault>
    ensures { Gives (λ v. A.single (meant v)) result
        (N.read_origin (where_of r.now.site.now) r.now.shaded A.Scalar r.now.indices.now
        (origin_from source.entry)) }
{
    match source {
        Source::Lost => Ok(Value::Opaque),
        Source::Stored(d) => {
            let dims = stored_dims(d);
            let part = reach_of(alloc, r.site, r.shaded, Want::Scalar, dims, r.indices)?;
            let v = stored_number(alloc, d, &part)?;
            Ok(v)
        }
        Source::Wired { may_read, entry } => {
            let dims = entry.dims.as_slice();
            let part = reach_of(alloc, r.site, r.shaded, Want::Scalar, dims, r.indices)?;
            test_written(alloc, r, may_read, entry, &part)?;
            let v = wired_number(alloc, entry, &part)?;
            Ok(v)
        }
    }
}

/// The number or the array that is read.
pub fn read_datum(alloc: Global, source: Source, r: &Reading) -> Result<Datum, Fault>
    ensures { Gives datum_of result
        (N.read_origin (where_of r.now.site.now) r.now.shaded A.Whole r.now.indices.now
        (origin_from source.entry)) }
{
    match source {
        Source::Lost => Ok(Datum::Number(Value::Opaque)),
        Source::Stored(d) => {
            let dims = stored_dims(d);
            let part = reach_of(alloc, r.site, r.shaded, Want::Whole, dims, r.indices)?;
            let v = stored_part(alloc, d, part)?;
            Ok(v)
        }
        Source::Wired { may_read, entry } => {
            let dims = entry.dims.as_slice();
            let part = reach_of(alloc, r.site, r.shaded, Want::Whole, dims, r.indices)?;
            test_written(alloc, r, may_read, entry, &part)?;
            let v = wired_part(alloc, entry, part)?;
            Ok(v)
        }
    }
}

fn stored_dims(d: Option<&Datum>) -> &[u64]
    ensures { result.now ≡ (stored_of d.entry).dims }
{
    match d {
        Some(d) => d.dims(),
        None => &[],
    }
}

fn stored_number(alloc: Global, d: Option<&Datum>, reach: &Reach) -> Result<Value, AllocError>
    ensures { (indices : List (Option ℕ)) (m : A.Reach)
        → IsReach (stored_of d.entry).dims indices reach.now m → m.left ≡ []
        → IfOk result (λ v. A.single (meant v)
        ≡ A.read_part m (A.item_at (stored_of d.entry).items)) }
{
    match (reach.part, d) {
        (Meaning::Known { first, count: _ }, Some(d)) => {
            let v = d.item_at(alloc, first)?;
            Ok(v)
        }
        (Meaning::Known { .. }, None) => Ok(Value::Known(Gold::ZERO)),
        _ => Ok(Value::Opaque),
    }
}

fn stored_part(alloc: Global, d: Option<&Datum>, reach: Reach) -> Result<Datum, AllocError>
    ensures { (indices : List (Option ℕ)) (m : A.Reach)
        → IsReach (stored_of d.entry).dims indices reach m
        → IfOk result (λ v. datum_of v ≡ A.read_part m (A.item_at (stored_of d.entry).items)) }
{
    match d {
        Some(d) => {
            let v = d.part(alloc, reach)?;
            Ok(v)
        }
        None => no_part(alloc, reach),
    }
}

/// A variable that isn't there reads as 0.
fn no_part(alloc: Global, reach: Reach) -> Result<Datum, AllocError>
    ensures { (indices : List (Option ℕ)) (m : A.Reach) → IsReach [] indices reach m
        → IfOk result (λ v. datum_of v ≡ A.read_part m (A.item_at (KnownValue 0 ∷ []))) }
{
    let Reach { left, part } = reach;
    match part {
        Meaning::Known { .. } => {
            let v = Datum::filled(alloc, left, Filling::Zero)?;
            Ok(v)
        }
        Meaning::Unknown | Meaning::Outside => {
            let v = Datum::filled(alloc, left, Filling::Opaque)?;
            Ok(v)
        }
    }
}

/// Every element that can be meant must be written, and an output is read only where the inputs of
/// its component are written.
fn test_written(
    alloc: Global,
    r: &Reading,
    may_read: bool,
    entry: &SignalEntry,
    reach: &Reach,
) -> Result<(), Fault>
    ensures { (m : A.Reach) → IsReach entry.now.dims.items r.now.indices.now reach.now m
        → Tests (N.is_readable may_read (signal_of entry.now) r.now.indices.now m.places)
        (where_of r.now.site.now) ReadBeforeWrite result }
{
    if is_readable(alloc, r, may_read, entry, reach)? {
        Ok(())
    } else {
        Err(r.site.refused(alloc, Kind::ReadBeforeWrite))
    }
}

fn is_readable(
    alloc: Global,
    r: &Reading,
    may_read: bool,
    entry: &SignalEntry,
    reach: &Reach,
) -> Result<bool, AllocError>
    ensures { (m : A.Reach) → IsReach entry.now.dims.items r.now.indices.now reach.now m
        → IfOk result (λ b. b
        ≡ N.is_readable may_read (signal_of entry.now) r.now.indices.now m.places) }
{
    match reach.part {
        Meaning::Outside => Ok(true),
        Meaning::Known { first, count } => {
            if !may_read {
                return Ok(false);
            }
            Ok(is_run_written(entry, first, count))
        }
        Meaning::Unknown => {
            if !may_read {
                return Ok(false);
            }
            let written = is_each_written(alloc, r, entry)?;
            Ok(written)
        }
    }
}

fn is_run_written(entry: &SignalEntry, first: u64, count: u64) -> bool
    ensures { result ≡ list_all (M.is_written (signal_of entry.now)) (numbers_from first count) }
{
    if entry.written.is_empty() {
        return true;
    }
    for k in 0..count {
        if !entry.is_written(first.saturating_add(k)) {
            return false;
        }
    }
    true
}

fn is_each_written(alloc: Global, r: &Reading, entry: &SignalEntry) -> Result<bool, AllocError>
    ensures { IfOk result (λ b. b ≡ list_all (M.is_written (signal_of entry.now))
        (places_within entry.now.dims.items r.now.indices.now)) }
{
    if entry.written.is_empty() {
        return Ok(true);
    }
    let places = places_of(alloc, entry.dims.as_slice(), r.indices)?;
    for k in places.as_slice() {
        if !entry.is_written(*k) {
            return Ok(false);
        }
    }
    Ok(true)
}

fn wired_number(alloc: Global, entry: &SignalEntry, reach: &Reach) -> Result<Value, AllocError>
    ensures { (indices : List (Option ℕ)) (m : A.Reach)
        → IsReach entry.now.dims.items indices reach.now m → m.left ≡ []
        → IfOk result (λ v. A.single (meant v)
        ≡ A.read_part m (M.signal_item (signal_of entry.now))) }
{
    match reach.part {
        Meaning::Known { first, count: _ } => {
            let v = signal_item(alloc, entry, first)?;
            Ok(v)
        }
        Meaning::Unknown | Meaning::Outside => Ok(Value::Opaque),
    }
}

fn wired_part(alloc: Global, entry: &SignalEntry, reach: Reach) -> Result<Datum, AllocError>
    ensures { (indices : List (Option ℕ)) (m : A.Reach)
        → IsReach entry.now.dims.items indices reach m
        → IfOk result (λ v. datum_of v ≡ A.read_part m (M.signal_item (signal_of entry.now))) }
{
    let Reach { left, part } = reach;
    match part {
        Meaning::Unknown | Meaning::Outside => Datum::filled(alloc, left, Filling::Opaque),
        Meaning::Known { first, count: _ } => {
            if left.is_empty() {
                let v = signal_item(alloc, entry, first)?;
                return Ok(Datum::Number(v));
            }
            let items = items_from(alloc, entry, first, made_elements(left.as_slice()))?;
            Ok(Datum::Array(Array { dims: left, items }))
        }
    }
}

/// As many elements of a signal, from a place on.
fn items_from(
    alloc: Global,
    entry: &SignalEntry,
    first: u64,
    count: u64,
) -> Result<Vec<Value>, AllocError>
    ensures { IfOk result (λ items. map meant items.items
        ≡ map (M.signal_item (signal_of entry.now)) (numbers_from first count)) }
{
    let mut items = Vec::with_capacity(alloc, count as usize)?;
    for k in 0..count {
        let v = signal_item(alloc, entry, first.saturating_add(k))?;
        items.push(v)?;
    }
    Ok(items)
}

/// An element of a signal; one that was not made reads as 0.
fn signal_item(alloc: Global, entry: &SignalEntry, place: u64) -> Result<Value, AllocError>
    ensures { IfOk result (λ v. meant v ≡ M.signal_item (signal_of entry.now) place) }
{
    if place >= entry.written.len() as u64 {
        return Ok(Value::Known(Gold::ZERO));
    }
    let number = number_of(entry, place)?;
    let f = signal_form(alloc, number)?;
    Ok(Value::Linear(f))
}

/// The number of an element.
pub fn number_of(entry: &SignalEntry, place: u64) -> Result<u32, TooLarge>
    ensures ok { IfOk result (λ n. n ≡ entry.now.first + place) }
    ensures err { IfErr result (λ _. 4294967296 ≤ entry.now.first + place) }
{
    number_at(entry.first, place)
}

/// The number of an element, by the number of the first one.
pub fn number_at(first: u128, place: u64) -> Result<u32, TooLarge>
    ensures ok { IfOk result (λ n. n ≡ first + place) }
    ensures err { IfErr result (λ _. 4294967296 ≤ first + place) }
{
    u32::try_from(first.saturating_add(u128::from(place))).map_err(|_| TooLarge)
}

/// What a name in front of indices is.
pub fn source_of<'f>(
    alloc: Global,
    site: &Site,
    root: Root<'f>,
    frame: &'f Frame,
) -> Result<Source<'f>, Fault>
    ensures { (c : AnyCounts) → Gives origin_from result
        (N.origin_of (where_of site.now) (root_of root.entry) (frame_of frame.now c)) }
{
    match root {
        Root::Found(source) => Ok(source),
        Root::Named(meant) => named_source(alloc, site, meant, frame),
    }
}

fn named_source<'f>(
    alloc: Global,
    site: &Site,
    meant: Meant,
    frame: &'f Frame,
) -> Result<Source<'f>, Fault>
    ensures { (c : AnyCounts) → Gives origin_from result
        (N.origin_of (where_of site.now) (N.Named meant) (frame_of frame.now c)) }
{
    match meant {
        Meant::Variable(n) => Ok(Source::Stored(frame.variable(n))),
        Meant::Signal(_, n) => match frame.signal(n) {
            Some(entry) => Ok(Source::Wired {
                may_read: true,
                entry,
            }),
            None => Err(site.refused(alloc, Kind::ReadBeforeWrite)),
        },
        Meant::Other | Meant::Component(_) | Meant::Template(_) | Meant::Function(_) => {
            Err(site.refused(alloc, Kind::WrongKind))
        }
    }
}

/// The signal of this name of the component that the indices mean.
pub fn inner_source<'f>(
    alloc: Global,
    r: &Reading,
    root: Root<'f>,
    name: &[u8],
    frame: &'f Frame,
) -> Result<Source<'f>, Fault>
    ensures { (c : AnyCounts) → Gives origin_from result
        (N.inner_origin (where_of r.now.site.now) r.now.shaded (root_of root.entry)
        r.now.indices.now name.now (frame_of frame.now c)) }
{
    match root {
        Root::Named(meant) => member_source(alloc, r, meant, name, frame),
        Root::Found(_) => Err(r.site.refused(alloc, Kind::WrongKind)),
    }
}

fn member_source<'f>(
    alloc: Global,
    r: &Reading,
    meant: Meant,
    name: &[u8],
    frame: &'f Frame,
) -> Result<Source<'f>, Fault>
    ensures { (c : AnyCounts) → Gives origin_from result
        (N.inner_origin (where_of r.now.site.now) r.now.shaded (N.Named meant) r.now.indices.now
        name.now (frame_of frame.now c)) }
{
    match meant {
        Meant::Component(n) => {
            let part = part_at(alloc, r, n, frame)?;
            located(alloc, r.site, name, part, frame)
        }
        Meant::Other
        | Meant::Variable(_)
        | Meant::Signal(_, _)
        | Meant::Template(_)
        | Meant::Function(_) => Err(r.site.refused(alloc, Kind::WrongKind)),
    }
}

fn located<'f>(
    alloc: Global,
    site: &Site,
    name: &[u8],
    part: Option<u32>,
    frame: &'f Frame,
) -> Result<Source<'f>, Fault>
    ensures { (c : AnyCounts) → Gives origin_from result
        (N.located (where_of site.now) name.now part (frame_of frame.now c).parts) }
{
    match part {
        None => Ok(Source::Lost),
        Some(j) => match frame.parts.get(j as usize) {
            Some(part) => part_source(alloc, site, name, part),
            None => Err(site.refused(alloc, Kind::ReadBeforeWrite)),
        },
    }
}

/// The place among the parts of the component that known indices mean, or none where one of them
/// is out of bounds in a shaded expression.
pub fn part_at(alloc: Global, r: &Reading, n: u32, frame: &Frame) -> Result<Option<u32>, Fault>
    ensures { (c : AnyCounts) → Gives (λ j. j) result
        (N.part_at (where_of r.now.site.now) r.now.shaded n r.now.indices.now
        (frame_of frame.now c)) }
{
    match frame.component(n) {
        None => Err(r.site.refused(alloc, Kind::ReadBeforeWrite)),
        Some(entry) => part_among(alloc, r, entry),
    }
}

fn part_among(alloc: Global, r: &Reading, entry: &ComponentEntry) -> Result<Option<u32>, Fault>
    ensures { Gives (λ j. j) result (told_part (where_of r.now.site.now) r.now.shaded
        r.now.indices.now (component_of entry.now)) }
{
    if !is_all_known(r.indices) {
        return Err(r.site.refused(alloc, Kind::UnknownIndex));
    }
    part_reached(alloc, r, entry)
}

fn part_reached(alloc: Global, r: &Reading, entry: &ComponentEntry) -> Result<Option<u32>, Fault>
    requires { is_some (all_known r.now.indices.now) ≡ true }
    ensures { Gives (λ j. j) result (reached_part (where_of r.now.site.now) r.now.shaded
        r.now.indices.now (component_of entry.now)) }
{
    let dims = entry.dims.as_slice();
    let reach = reach_of(alloc, r.site, r.shaded, Want::Scalar, dims, r.indices)?;
    match reach.part {
        Meaning::Unknown | Meaning::Outside => Ok(None),
        Meaning::Known { first, count: _ } => match entry.part(first) {
            Some(j) => Ok(Some(j)),
            None => Err(r.site.refused(alloc, Kind::ReadBeforeWrite)),
        },
    }
}

/// An output is read once all inputs are written.
fn part_source<'f>(
    alloc: Global,
    site: &Site,
    name: &[u8],
    part: &'f Part,
) -> Result<Source<'f>, Fault>
    ensures { Gives origin_from result
        (N.part_origin (where_of site.now) name.now (part_of part.now)) }
{
    let n = named_signal(alloc, site, name, part.signals.as_slice())?;
    match part.signals.get(n) {
        Some(Some(entry)) => Ok(Source::Wired {
            may_read: entry.is_input() || part.is_fed(),
            entry,
        }),
        _ => Err(site.refused(alloc, Kind::UnknownName)),
    }
}

/// A component's input or output of this name; an inner signal can't be named.
pub fn named_signal(
    alloc: Global,
    site: &Site,
    name: &[u8],
    signals: &[Option<SignalEntry>],
) -> Result<usize, Fault>
    ensures { NamesSignal (where_of site.now) name.now signals.now result }
{
    let mut is_inner_name = false;
    for n in 0..signals.len() {
        if let Some(entry) = &signals[n] {
            if entry.name.as_slice() == name {
                if !entry.is_inner() {
                    return Ok(n);
                }
                is_inner_name = true;
            }
        }
    }
    let kind = if is_inner_name {
        Kind::WrongKind
    } else {
        Kind::UnknownName
    };
    Err(site.refused(alloc, kind))
}
