//! Where the elements of a step's arrays come from.
ghost use Rattle.std.specs.Prelude.{◌≡◌, IfOk, option_map};
ghost use Rattle.wit_sourced.specs.Loads.{input_of};
ghost use Rattle.wit_sourced.specs.Shown.{sought_name};
ghost use Rattle.wit_sources.specs.Given.{Offer};

use numbers::TooLarge;
use wit_sourced::{Input, Sought};

/// What gives each element of a step's arrays its input.
pub trait Inputs {
    ghost offer: { Self → Offer };

    /// The input of an element, where it has one.
    fn input(&self, name: Sought, element: u64) -> Result<Option<Input>, TooLarge>
        ensures { IfOk result (λ i. option_map input_of i
            ≡ offer self.now (sought_name name.entry) element) };
}
