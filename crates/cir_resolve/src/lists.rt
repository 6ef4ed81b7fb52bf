//! Lists that are changed in place.
ghost use Rattle.std.specs.Prelude.{◌≡◌};

use items::Items;
use std::alloc::Global;
use std::mem;

/// The elements of a list. `Items` lends no `&mut`, so they are taken out, changed in place and put
/// back; where a name ends the change early they aren't put back, and the definitions are dropped.
pub(crate) fn take_out<T: Drop>(alloc: Global, items: &mut Items<T>) -> Vec<T>
    ensures { result.items ≡ items.old }
{
    mem::replace(items, Items::new(alloc)).into_vec()
}
