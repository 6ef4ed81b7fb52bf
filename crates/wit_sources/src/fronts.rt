//! What stands in front of indices.
ghost use Rattle.std.specs.Prelude.{◌≡◌, IfOk, option_map};
ghost use Rattle.cir_emit.specs.Reads as E;
ghost use Rattle.wit_sourced.specs.Loaded.{components_in};
ghost use Rattle.wit_sourced.specs.Shown.{sought_name};
ghost use Rattle.wit_sources.specs.Fronts.{front_of, port_by};

use crate::setting::Setting;
use cir_arrays::all_known;
use cir_ast::program::Meant;
use std::alloc::AllocError;
use wit_sourced::{Sought, component_dims, is_inside, offset};

/// A name as it is written, or what a member of a component is.
#[derive(Clone, Copy)]
pub enum Front<'a> {
    Written(Meant),
    Reached(Option<Sought<'a>>),
}

impl<'a> Front<'a> {
    /// The name of an array.
    pub fn name(self) -> Option<Sought<'a>>
        ensures { option_map sought_name result ≡ E.name_of (front_of self.entry) }
    {
        match self {
            Front::Written(Meant::Variable(n)) => Some(Sought::Variable(n)),
            Front::Written(Meant::Signal(_, n)) => Some(Sought::Signal(n)),
            Front::Written(_) => None,
            Front::Reached(name) => name,
        }
    }
}

/// The signal of this name of the component that the indices mean, where all are known.
pub fn port_of<'n>(
    setting: &Setting,
    front: Front,
    indices: &[Option<u64>],
    name: &'n [u8],
) -> Result<Front<'n>, AllocError>
    ensures { IfOk result (λ f. front_of f ≡ E.Reached (port_by
        (components_in setting.now.components.now) (front_of front.entry) indices.now name.now)) }
{
    let Front::Written(Meant::Component(n)) = front else {
        return Ok(Front::Reached(None));
    };
    let Some(indices) = all_known(setting.alloc, indices)? else {
        return Ok(Front::Reached(None));
    };
    let dims = component_dims(setting.components, n);
    if !is_inside(dims, indices.as_slice()) {
        return Ok(Front::Reached(None));
    }
    let element = offset(dims, indices.as_slice())?;
    Ok(Front::Reached(Some(Sought::Port(n, element, name))))
}
