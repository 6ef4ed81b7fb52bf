//! What is known of a step's numbers, and of its calls.
ghost use Rattle.std.specs.Prelude.{◌≡◌, IfSome};
ghost use Rattle.cir_meaning.specs.RunValues.{the_number};
ghost use Rattle.wit_sourced.specs.Loaded.{called_of, components_in};

use crate::sources::Sources;
use cir_ast::program::Expr;
use cir_frame::ComponentEntry;
use cir_known::Touched;
use gold_field::Gold;
use items::Items;

/// The value of a call that isn't made.
#[derive(Drop)]
pub struct Called {
    pub dims: Items<u64>,
    pub items: Items<u64>,
}

impl Called {
    /// The number that stands first.
    pub fn number(&self) -> Option<Gold>
        ensures { IfSome result (λ n. n ≡ the_number (called_of self.now)) }
    {
        Gold::new(*self.items.as_slice().first()?)
    }
}

/// A call that stands in a step, with its value where it has one already.
#[derive(Drop)]
pub struct CallValue<'a> {
    pub call: &'a Expr,
    pub value: Option<Called>,
}

/// The dimensions of a component.
pub fn component_dims(components: &[Option<ComponentEntry>], n: u32) -> &[u64]
    ensures { result.now ≡ components_in components.now n }
{
    match components.get(n as usize) {
        Some(Some(entry)) => entry.dims.as_slice(),
        _ => &[],
    }
}

/// What a step's code loads, with homes for it; the body's components; the variables whose numbers
/// change while the step is executed; and the step's calls.
#[derive(Drop)]
pub struct Loaded<'a> {
    pub sources: &'a Sources<'a>,
    pub components: &'a [Option<ComponentEntry>],
    pub changed: Option<&'a Touched>,
    pub calls: &'a [CallValue<'a>],
}
