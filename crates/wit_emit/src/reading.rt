//! Code that reads and writes parts of arrays.
ghost use Rattle.std.specs.Prelude.{◌≡◌, ◌++◌, drop, option_map, OnOk};
ghost use Rattle.std.specs.Option.{option_copied};
ghost use Rattle.wit_lower.specs.Pieces as L;
ghost use Rattle.wit_sourced.specs.Shown.{home_of};

use crate::pieces::{loads, moves, offset, stores};
use cir_arrays::made_elements;
use items::Items;
use std::alloc::AllocError;
use wit_code::Op;
use wit_sourced::Home;

/// The dimensions behind so many indices.
pub fn left(dims: &[u64], count: usize) -> &[u64]
    ensures { result.now ≡ drop count dims.now }
{
    if count <= dims.len() {
        &dims[count..]
    } else {
        &[]
    }
}

/// The part that so many indices mean, which stand from slot `top` on, comes there.
pub fn read(
    code: &mut Items<Op>,
    home: Option<&Home>,
    top: u32,
    count: usize,
) -> Result<(), AllocError>
    ensures { OnOk result (code.new
        ≡ code.old ++ L.read_code (option_map home_of (option_copied home.entry)) top count) }
{
    let Some(home) = home else {
        return Ok(());
    };
    let dims = home.dims.as_slice();
    if count == 0 {
        moves(code, top, home.base, made_elements(dims))?;
        return Ok(());
    }
    offset(code, top, dims, count - 1)?;
    loads(code, top, home.base, made_elements(left(dims, count)))?;
    Ok(())
}

/// As many numbers from slot `from` on into the part that indices from slot `s` on mean.
pub fn write(
    code: &mut Items<Op>,
    home: Option<&Home>,
    s: u32,
    count: usize,
    from: u32,
    size: u64,
) -> Result<(), AllocError>
    ensures { OnOk result (code.new ≡ code.old
        ++ L.write_code (option_map home_of (option_copied home.entry)) s count from size) }
{
    let Some(home) = home else {
        return Ok(());
    };
    if count == 0 {
        moves(code, home.base, from, size)?;
        return Ok(());
    }
    offset(code, s, home.dims.as_slice(), count - 1)?;
    stores(code, home.base, s, from, size)?;
    Ok(())
}
