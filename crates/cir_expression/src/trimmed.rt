//! Lists without room for more, so that a tree keeps no memory that it doesn't need.
ghost use Rattle.std.specs.Prelude.{◌≡◌};

use items::Items;

/// These items, in as little memory as the allocator gives.
pub fn tight<T>(items: Vec<T>) -> Items<T>
    ensures { result ≡ items.items }
{
    let mut items = items;
    items.shrink_to_fit();
    Items::of(items)
}
