ghost use Rattle.std.specs.Prelude.{◌≡◌, ◌+◌, ◌*◌, ◌^◌, ◌<◌, ◌≤◌, ◌↔◌, IsTrue, Some, length};
ghost use Rattle.cir_values.specs.Places.{elements, place_of, IsInside};

use items::Items;

/// The dimensions of an array, the outermost first. A number has none.
#[derive(Drop)]
pub struct Shape {
    pub dims: Items<u32>,
}

/// The place of an element in row order. `None` where the number of indices is another than that of
/// the dimensions, or an index isn't below its dimension.
pub fn flat(shape: &Shape, index: &[u64]) -> Option<u32>
    requires { elements shape.now.dims ≤ 2 ^ 32 }
    ensures { result ≡ place_of shape.now.dims index.now }
{
    let dims = shape.dims.as_slice();
    if !is_inside(dims, index) {
        return None;
    }
    Some(place(dims, index))
}

// Whether each index is below its dimension.
fn is_inside(dims: &[u32], index: &[u64]) -> bool
    ensures { IsTrue result ↔ IsInside dims.now index.now }
{
    if dims.len() != index.len() {
        return false;
    }
    for at in 0..dims.len() {
        if dims[at] as u64 <= index[at] {
            return false;
        }
    }
    true
}

fn place(dims: &[u32], index: &[u64]) -> u32
    requires few { elements dims.now ≤ 2 ^ 32 }
    requires inside { IsInside dims.now index.now }
    ensures { place_of dims.now index.now ≡ Some result }
{
    let mut place = 0u64;
    for at in 0..dims.len() {
        place = place * dims[at] as u64 + index[at];
    }
    place as u32
}
