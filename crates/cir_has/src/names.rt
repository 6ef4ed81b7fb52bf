//! Whether names have homes.
ghost use Rattle.std.specs.Prelude.{◌≡◌, IsFalse, OnOk};
ghost use Rattle.cir_emit.specs.Sourced as H;
ghost use Rattle.wit_lower.specs.Homes.{Name, Variable};
ghost use Rattle.wit_emit.specs.Grounds.{front_of, ground_of};
ghost use Rattle.wit_sourced.specs.Shown.{homes_of, sought_name};

use crate::lack::Lack;
use cir_arrays::all_known;
use cir_ast::program::Meant;
use wit_emit::{Front, Ground};
use wit_sourced::{Scope, Sought, is_inside, offset};

/// The arrays that a step has.
pub trait Arrays {
    ghost there: { Self → Name → Type 0 };

    /// Whether the step may have an array of this name.
    fn is_there(&self, name: Sought) -> bool
        ensures { IsFalse result → there self.now (sought_name name.entry) → ⊥ };
}

fn has_home<A: Arrays>(arrays: &A, scope: &Scope, name: Sought) -> Result<(), Lack>
    ensures { OnOk result (H.HasHome (A.there arrays.now) (homes_of scope.now.homes.items)
        (sought_name name.entry)) }
{
    if scope.find(name).is_some() || !arrays.is_there(name) {
        return Ok(());
    }
    Err(Lack::Home)
}

/// A variable.
pub fn has_variable<A: Arrays>(arrays: &A, scope: &Scope, n: u32) -> Result<(), Lack>
    ensures { OnOk result (H.HasHome (A.there arrays.now) (homes_of scope.now.homes.items)
        (Variable n)) }
{
    has_home(arrays, scope, Sought::Variable(n))
}

/// A name that stands without a member.
pub fn has_end<A: Arrays>(arrays: &A, scope: &Scope, front: Front) -> Result<(), Lack>
    ensures { OnOk result (H.EndHas (A.there arrays.now) (homes_of scope.now.homes.items)
        (front_of front.entry)) }
{
    match front {
        Front::Named(Meant::Variable(n)) => has_home(arrays, scope, Sought::Variable(n)),
        Front::Named(Meant::Signal(_, n)) => has_home(arrays, scope, Sought::Signal(n)),
        Front::Named(_) | Front::Found(_) | Front::Lost => Ok(()),
    }
}

/// A signal of the component that known indices inside its dimensions mean.
pub fn has_port<A: Arrays>(
    arrays: &A,
    ground: &Ground,
    scope: &Scope,
    front: Front,
    indices: &[Option<u64>],
    name: &[u8],
) -> Result<(), Lack>
    ensures { OnOk result (H.PortHas (A.there arrays.now) (ground_of ground.now)
        (homes_of scope.now.homes.items) (front_of front.entry) indices.now name.now) }
{
    let Front::Named(Meant::Component(n)) = front else {
        return Ok(());
    };
    let Some(indices) = all_known(ground.alloc, indices)? else {
        return Ok(());
    };
    let dims = ground.component_dims(front);
    if !is_inside(dims, indices.as_slice()) {
        return Ok(());
    }
    let element = offset(dims, indices.as_slice())?;
    has_home(arrays, scope, Sought::Port(n, element, name))
}
