ghost use Rattle.std.specs.Prelude.{IfOk};
ghost use Rattle.cir_values.specs.Names.{HasName, NamesSignal};

use crate::names::name_of;
use items::Items;
use std::alloc::{AllocError, Global};
use text::Text;

/// The signals of a circuit, in the order of their numbers: main's outputs, its public inputs, its
/// private inputs, then all others. Signal 0, which stands for 1, has no entry.
pub struct Signals {
    /// The name of signal `n` stands at place `n - 1`.
    pub names: Items<SignalName>,
    pub outputs: u32,
    pub public_inputs: u32,
    pub private_inputs: u32,
    /// Main's inputs, in the order of their numbers.
    pub inputs: Items<InputShape>,
}

// Written out, so that the proof of an owner sees one call and not the drop of each part.
impl Drop for Signals {
    fn drop(self) {
        let Signals {
            names: _names,
            outputs: _outputs,
            public_inputs: _public_inputs,
            private_inputs: _private_inputs,
            inputs: _inputs,
        } = self;
    }
}

/// One input of main, an array or a scalar: its first signal and how many it has.
pub struct InputShape {
    pub name: Text,
    pub first: u32,
    pub count: u32,
}

// Written out for the same reason.
impl Drop for InputShape {
    fn drop(self) {
        let InputShape {
            name: _name,
            first: _first,
            count: _count,
        } = self;
    }
}

/// The name of a signal in the instance of its number. The base is the declared name, followed for
/// an array by its dimensions in brackets, as `in[2][2]`; `place` is the element's place in row
/// order.
pub struct SignalName {
    pub instance: u32,
    pub base: Text,
    pub place: u32,
}

// Written out for the same reason.
impl Drop for SignalName {
    fn drop(self) {
        let SignalName {
            instance: _instance,
            base: _base,
            place: _place,
        } = self;
    }
}

impl Signals {
    /// The name of a signal in its instance: the declared name, followed for an element of an array
    /// by its indices in brackets, as `in[1][0]`.
    pub fn name(&self, alloc: Global, signal: u32) -> Result<Text, AllocError>
        requires { HasName self.now signal }
        ensures { IfOk result (NamesSignal self.now signal) }
    {
        let names = self.names.as_slice();
        let text = name_of(alloc, &names[signal as usize - 1])?;
        Ok(text)
    }
}
