//! What the execution of one body keeps.
ghost use Rattle.std.specs.Prelude.{◌≡◌, length, is_some};
ghost use Rattle.std.specs.List.{position_from};
ghost use Rattle.cir_arrays.specs.Made.{made_count};
ghost use Rattle.cir_frame.specs.Missing.{missing_in};

use crate::entries::put_entry;
use crate::signal::SignalEntry;
use cir_arrays::{Datum, Reach};
use cir_ast::Text;
use cir_ast::program::Spot;
use std::alloc::AllocError;

/// A component that is created: where, its template, and the signals that it has declared. Its
/// inputs are written by its parent.
pub struct Part {
    pub spot: Spot,
    pub template: u32,
    pub signals: Vec<Option<SignalEntry>>,
    /// How many elements of its inputs aren't written yet.
    pub missing: u128,
    pub ghost counted: { missing ≡ missing_in signals.items },
}

// Written out, so that the proof of an owner sees one call and not the drop of each part.
impl Drop for Part {
    fn drop(self) {
        let Part {
            spot: _spot,
            template: _template,
            signals: _signals,
            missing: _missing,
        } = self;
    }
}

/// A declared component: each element has the place of its part once it is created.
pub struct ComponentEntry {
    pub name: Text,
    pub dims: Vec<u64>,
    /// None of an array that is too large.
    pub parts: Vec<Option<u32>>,
    /// The first element that is created.
    pub first: Option<usize>,
    pub ghost sized: { length parts.items ≡ made_count dims.items },
    pub ghost led: { first ≡ position_from is_some 0 parts.items },
}

// Written out for the same reason.
impl Drop for ComponentEntry {
    fn drop(self) {
        let ComponentEntry {
            name: _name,
            dims: _dims,
            parts: _parts,
            first: _first,
        } = self;
    }
}

/// What the execution of one body keeps. Variables, signals and components stand by the number of
/// their declaration, and the parts in order of creation.
pub struct Frame {
    pub variables: Vec<Datum>,
    pub signals: Vec<Option<SignalEntry>>,
    pub components: Vec<Option<ComponentEntry>>,
    pub parts: Vec<Part>,
}

// Written out for the same reason.
impl Drop for Frame {
    fn drop(self) {
        let Frame {
            variables: _variables,
            signals: _signals,
            components: _components,
            parts: _parts,
        } = self;
    }
}

impl Part {
    ghost use Rattle.cir_meaning.specs.Frame.{is_fed};
    ghost use Rattle.cir_frame.specs.Shown.{signals_of};

    /// Whether all inputs are written.
    pub fn is_fed(&self) -> bool
        ensures { result ≡ is_fed (signals_of self.now.signals.items) }
    {
        self.missing == 0
    }
}

impl ComponentEntry {
    ghost use Rattle.std.specs.Prelude.{Some, slice_set};
    ghost use Rattle.cir_meaning.specs.Frame.{entry_at};
    ghost use Rattle.cir_frame.specs.Shown.{component_of};

    /// The part of the element at a place, once it is created.
    pub fn part(&self, place: u64) -> Option<u32>
        ensures { result ≡ entry_at self.now.parts.items place }
    {
        match self.parts.get(place as usize) {
            Some(part) => *part,
            None => None,
        }
    }

    /// The element at a place is created, as the part of this number.
    pub fn set_part(&mut self, place: u64, part: u32)
        ensures { component_of self.new ≡ record (component_of self.old) {
          parts = slice_set (component_of self.old).parts place (Some part);
        } }
    {
        if place < self.parts.len() as u64 {
            self.parts[place as usize] = Some(part);
            self.first = match self.first {
                None => Some(place as usize),
                Some(first) => Some(first.min(place as usize)),
            };
        }
    }
}

impl Frame {
    ghost use Rattle.std.specs.Prelude.{ℕ, List, Option, option_map, option_copied, map, slice_get};
    ghost use Rattle.std.specs.Prelude.{slice_set, OnOk};
    ghost use Rattle.cir_meaning.specs.Limits.{Counts as AnyCounts};
    ghost use Rattle.cir_meaning.specs.Arrays as A;
    ghost use Rattle.cir_meaning.specs.Frame as M;
    ghost use Rattle.cir_meaning.specs.Writing as W;
    ghost use Rattle.cir_arrays.specs.Reached.{IsReach};
    ghost use Rattle.cir_arrays.specs.Shown.{datum_of};
    ghost use Rattle.cir_frame.specs.Shown.{signal_of, component_of, part_of, frame_of};

    /// The signals; the rest is given up.
    pub fn into_signals(self) -> Vec<Option<SignalEntry>>
        ensures { result ≡ self.signals }
    {
        let Frame {
            variables: _,
            signals,
            components: _,
            parts: _,
        } = self;
        signals
    }

    /// The variable, if there is one of this number.
    pub fn variable(&self, n: u32) -> Option<&Datum>
        ensures { (c : AnyCounts) → option_map datum_of (option_copied result)
            ≡ slice_get (frame_of self.now c).variables n }
    {
        self.variables.get(n as usize)
    }

    /// The dimensions of the variable.
    pub fn variable_dims(&self, n: u32) -> &[u64]
        ensures { (c : AnyCounts) → result.now ≡ (M.variable_at (frame_of self.now c) n).dims }
    {
        match self.variables.get(n as usize) {
            Some(variable) => variable.dims(),
            None => &[],
        }
    }

    /// Puts a value in place of the whole variable, with its own dimensions.
    pub fn set_variable(&mut self, n: u32, value: Datum)
        ensures { (c : AnyCounts) → frame_of self.new c ≡ record (frame_of self.old c) {
          variables = slice_set (frame_of self.old c).variables n (datum_of value);
        } }
    {
        if (n as usize) < self.variables.len() {
            self.variables[n as usize] = value;
        }
    }

    /// Puts new items into a part of the variable.
    pub fn write_variable(&mut self, n: u32, reach: &Reach, value: Datum)
        ensures { (c : AnyCounts) (indices : List (Option ℕ)) (m : A.Reach)
            → IsReach (M.variable_at (frame_of self.old c) n).dims indices reach.now m
            → frame_of self.new c ≡ record (frame_of self.old c) {
              variables = slice_set (frame_of self.old c).variables n
                  (W.written_datum (M.variable_at (frame_of self.old c) n) m (datum_of value));
            } }
    {
        if (n as usize) < self.variables.len() {
            self.variables[n as usize].write(reach, value);
        }
    }

    /// Makes every item of the variable opaque.
    pub fn forget_variable(&mut self, n: u32)
        ensures { (c : AnyCounts) → frame_of self.new c ≡ record (frame_of self.old c) {
          variables = slice_set (frame_of self.old c).variables n
              (A.forgotten (M.variable_at (frame_of self.old c) n));
        } }
    {
        if (n as usize) < self.variables.len() {
            self.variables[n as usize].forget();
        }
    }

    /// The own signal, once it is declared.
    pub fn signal(&self, n: u32) -> Option<&SignalEntry>
        ensures { (c : AnyCounts) → option_map signal_of (option_copied result)
            ≡ M.entry_at (frame_of self.now c).signals n }
    {
        self.signal_of(None, n as usize)
    }

    /// The component, once it is declared.
    pub fn component(&self, n: u32) -> Option<&ComponentEntry>
        ensures { (c : AnyCounts) → option_map component_of (option_copied result)
            ≡ M.entry_at (frame_of self.now c).components n }
    {
        match self.components.get(n as usize) {
            Some(Some(entry)) => Some(entry),
            _ => None,
        }
    }

    /// The part of this number, once it is created.
    pub fn part(&self, j: u32) -> Option<&Part>
        ensures { (c : AnyCounts) → option_map part_of (option_copied result)
            ≡ slice_get (frame_of self.now c).parts j }
    {
        self.parts.get(j as usize)
    }

    /// The signals of the body, or of a part.
    pub fn signals_of(&self, part: Option<u32>) -> &[Option<SignalEntry>]
        ensures { (c : AnyCounts) → map (option_map signal_of) result.now
            ≡ W.signals_of part (frame_of self.now c) }
    {
        match part {
            None => self.signals.as_slice(),
            Some(j) => match self.parts.get(j as usize) {
                Some(part) => part.signals.as_slice(),
                None => &[],
            },
        }
    }

    /// The signal of the body, or of a part.
    pub fn signal_of(&self, part: Option<u32>, n: usize) -> Option<&SignalEntry>
        ensures { (c : AnyCounts) → option_map signal_of (option_copied result)
            ≡ M.entry_at (W.signals_of part (frame_of self.now c)) n }
    {
        match self.signals_of(part).get(n) {
            Some(Some(entry)) => Some(entry),
            _ => None,
        }
    }

    /// Puts a signal at its number.
    pub fn put_signal(&mut self, n: u32, entry: SignalEntry) -> Result<(), AllocError>
        ensures { (c : AnyCounts) → OnOk result (frame_of self.new c
            ≡ record (frame_of self.old c) {
              signals = M.put_at n (signal_of entry) (frame_of self.old c).signals;
            }) }
    {
        put_entry(&mut self.signals, n as usize, entry)?;
        Ok(())
    }

    /// Puts a component at its number.
    pub fn put_component(&mut self, n: u32, entry: ComponentEntry) -> Result<(), AllocError>
        ensures { (c : AnyCounts) → OnOk result (frame_of self.new c
            ≡ record (frame_of self.old c) {
              components = M.put_at n (component_of entry) (frame_of self.old c).components;
            }) }
    {
        put_entry(&mut self.components, n as usize, entry)?;
        Ok(())
    }
}
