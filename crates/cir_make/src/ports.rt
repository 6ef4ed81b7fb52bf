//! The signals of components that a step names.
ghost use Rattle.std.specs.Prelude.{◌≡◌, ℕ, List, Some, None, IfNone, IfSome, map, not};
ghost use Rattle.std.specs.Prelude.{option_map};
ghost use Rattle.cir_frame.specs.Shown.{component_of, part_of, signal_of, signals_of};
ghost use Rattle.cir_meaning.specs.Frame.{entry_at, is_inner};
ghost use Rattle.cir_meaning.specs.Reading.{find_signal};
ghost use Rattle.cir_meaning.specs.Run.{Wires};
ghost use Rattle.cir_steps.specs.Step as S;
ghost use Rattle.wit_sourced.specs.declared.names.Sought.TheVariants as name;
ghost use Rattle.cir_make.specs.Arrays.{IsArrayOf, IsPortOf, IsSizedBy, StandsIn, is_part};
ghost use Rattle.cir_make.specs.Arrays.{is_there, part_at};
ghost use Rattle.wit_lower.specs.Homes.{Port};
ghost use Rattle.cir_make.specs.Cells.{wires_by};
ghost use Rattle.cir_make.specs.Shows.{SameWires};

use crate::arrays::{StepArray, at, wired};
use crate::cells::{Cells, PartCells};
use crate::make::Before;
use cir_frame::{Frame, Part, SignalEntry};
use wit_sourced::Sought;

/// The signal of this name of an element of a component.
pub fn port_array<'a>(
    frame: &'a Frame,
    cells: &'a Cells,
    n: u32,
    element: u64,
    name: &'a [u8],
) -> Option<StepArray<'a>>
    ensures { (step : S.Step) (components : ℕ → List ℕ) (befores : List Before)
        → StandsIn frame.now cells.now befores step → IsSizedBy frame.now components
        → IfSome result (IsArrayOf step components) }
{
    let Some(entry) = frame.component(n) else {
        return None;
    };
    let Some(j) = entry.part(element) else {
        return None;
    };
    let (Some(part), Some(ports)) = (frame.part(j), at(cells.parts.as_slice(), j as usize)) else {
        return None;
    };
    part_array(n, element, name, part, ports)
}

/// The part that an element of a component is, once it is created.
fn part_at(frame: &Frame, n: u32, element: u64) -> Option<u32>
    ensures { result ≡ part_at (entry_at (map (option_map component_of)
        frame.now.components.items) n) element }
{
    match frame.component(n) {
        Some(entry) => entry.part(element),
        None => None,
    }
}

/// Whether a part has an input or output of this name.
fn part_has(frame: &Frame, j: u32, name: &[u8]) -> bool
    ensures { result ≡ is_part (map part_of frame.now.parts.items) (Some j) name.now }
{
    match frame.part(j) {
        Some(part) => port(name, part.signals.as_slice()).is_some(),
        None => false,
    }
}

/// Whether an element of a component has an input or output of this name.
pub fn has_port(frame: &Frame, n: u32, element: u64, name: &[u8]) -> bool
    ensures { result ≡ is_there frame.now (Port n element name.now) }
{
    match part_at(frame, n, element) {
        Some(j) => part_has(frame, j, name),
        None => false,
    }
}

/// The input or output of this name of a component's element.
fn part_array<'a>(
    n: u32,
    element: u64,
    name: &'a [u8],
    part: &'a Part,
    ports: &'a PartCells,
) -> Option<StepArray<'a>>
    ensures { (wires : Wires) → SameWires wires (wires_by ports.now.ports.items)
        → IfSome result (IsPortOf n element name.now (part_of part.now) wires) }
{
    let (m, entry) = port(name, part.signals.as_slice())?;
    match at(ports.ports.as_slice(), m) {
        Some(rows) => wired(Sought::Port(n, element, name), entry, rows.as_slice()),
        None => None,
    }
}

/// A component's input or output of this name, and its number.
fn port<'a>(name: &[u8], signals: &'a [Option<SignalEntry>]) -> Option<(usize, &'a SignalEntry)>
    ensures found { IfSome result (λ p. find_signal (λ e. not (is_inner e.direction)) name.now 0
        (signals_of signals.now) ≡ Some (p.0, signal_of p.1.now)) }
    ensures none { IfNone result (find_signal (λ e. not (is_inner e.direction)) name.now 0
        (signals_of signals.now) ≡ None) }
{
    for n in 0..signals.len() {
        if let Some(entry) = &signals[n] {
            if entry.name.as_slice() == name && !entry.is_inner() {
                return Some((n, entry));
            }
        }
    }
    None
}
