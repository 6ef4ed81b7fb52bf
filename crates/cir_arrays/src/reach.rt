ghost use Rattle.std.specs.Prelude.{◌≡◌, ◌≤◌, true, length, drop, vec_len, IfOk};
ghost use Rattle.cir_meaning.specs.Places.{is_inside as are_inside};
ghost use Rattle.cir_meaning.specs.Arrays.{reach, fits};
ghost use Rattle.cir_arrays.specs.Stopped.{where_of};
ghost use Rattle.cir_arrays.specs.Reached.{want_of, is_sure, reached, IsPart, Reaches};

use crate::counts::elements;
use crate::places::{first_place, is_all_known, is_inside};
use crate::stop::{Fault, Site};
use cir_ast::Kind;
use std::alloc::{AllocError, Global};

/// Whether a number is wanted, or an array will do.
#[derive(Clone, Copy, PartialEq, Eq)]
pub enum Want {
    Scalar,
    Whole,
}

impl Want {
    /// Whether a value of these dimensions will do; a number has none.
    pub fn fits(self, dims: &[u64]) -> bool
        ensures { result ≡ fits (want_of self) dims.now }
    {
        match self {
            Want::Whole => true,
            Want::Scalar => dims.is_empty(),
        }
    }
}

/// The part of an array that indices mean, by its dimensions.
#[derive(Drop)]
pub struct Reach {
    /// The dimensions of the part: those for which no index stands.
    pub left: Vec<u64>,
    pub part: Part,
}

/// Which part it is.
#[derive(Clone, Copy)]
pub enum Part {
    /// As many elements from this place on.
    Known { first: u64, count: u64 },
    /// One of several.
    Unknown,
    /// None: a known index is out of bounds.
    Outside,
}

/// The part that indices mean. First the number of indices is tested, then each known index, then
/// whether a number is wanted. In a shaded expression an index that is out of bounds means no
/// element.
pub fn reach_of(
    alloc: Global,
    site: &Site,
    shaded: bool,
    want: Want,
    dims: &[u64],
    indices: &[Option<u64>],
) -> Result<Reach, Fault>
    ensures reach { Reaches dims.now indices.now result
        (reach (where_of site.now) shaded (want_of want) dims.now indices.now) }
    ensures fits { IfOk result (λ r. fits (want_of want) r.left.items ≡ true) }
{
    if indices.len() > dims.len() {
        return Err(site.refused(alloc, Kind::ShapeDiffers));
    }
    let inside = is_inside(dims, indices);
    if !inside && !shaded {
        return Err(site.refused(alloc, Kind::OutOfBounds));
    }
    let left = &dims[indices.len()..];
    if !want.fits(left) {
        return Err(site.refused(alloc, Kind::ShapeDiffers));
    }
    let part = part_of(dims, indices, inside);
    let left = dims_copy(alloc, left)?;
    Ok(Reach { left, part })
}

/// A copy of dimensions; of none, as a number has, it is made at once.
fn dims_copy(alloc: Global, dims: &[u64]) -> Result<Vec<u64>, AllocError>
    ensures items { IfOk result (λ copy. copy.items ≡ dims.now) }
    ensures len { IfOk result (λ copy. vec_len copy ≡ length dims.now) }
{
    if dims.is_empty() {
        return Ok(Vec::new(alloc));
    }
    Vec::from_slice(alloc, dims)
}

fn part_of(dims: &[u64], indices: &[Option<u64>], inside: bool) -> Part
    requires few { length indices.now ≤ length dims.now }
    requires inside { inside ≡ are_inside dims.now indices.now }
    ensures { IsPart dims.now indices.now result
        (reached dims.now indices.now (drop (length indices.now) dims.now)) }
{
    if !inside {
        return Part::Outside;
    }
    if !is_all_known(indices) {
        return Part::Unknown;
    }
    Part::Known {
        first: first_place(dims, indices),
        count: elements(&dims[indices.len()..]),
    }
}

impl Reach {
    /// Whether a part is meant and it is known which; an index out of bounds means none.
    pub fn is_sure(&self) -> bool
        ensures { result ≡ is_sure self.now.part }
    {
        matches!(self.part, Part::Known { .. })
    }
}
