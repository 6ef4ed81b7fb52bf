//! The cells that a step reads.
ghost use Rattle.std.specs.Prelude.{◌≡◌, map, IfOk, OnOk};
ghost use Rattle.wit_lower.specs.Sources as R;
ghost use Rattle.wit_sourced.specs.Loads.{input_of, source_of};
ghost use Rattle.wit_sourced.specs.Told.{AreTold};

use crate::sources::{Input, Source};
use numbers::{Numbers, TooLarge, narrow};
use std::alloc::{AllocError, Global};
use std::collections::BTreeMap;

/// The cells, each once, and where each of them stands.
#[derive(Drop)]
pub struct Reads {
    pub cells: Numbers,
    places: BTreeMap<u32, u32>,
    ghost told: { AreTold places cells },
}

impl Reads {
    /// The cells that are read, in the order of the list.
    pub fn of(alloc: Global, list: &[Source]) -> Result<Reads, AllocError>
        ensures { IfOk result (λ reads. reads.cells ≡ R.cells_read (map source_of list.now)) }
    {
        let mut cells = Numbers::new(alloc);
        let mut places = BTreeMap::new(alloc);
        for source in list {
            add_cell(&mut cells, &mut places, source.input)?;
        }
        Ok(Reads { cells, places })
    }

    /// The place of a cell.
    pub fn place(&self, cell: u32) -> Result<u32, TooLarge>
        ensures { IfOk result (λ n. n ≡ R.place_of cell self.now.cells) }
    {
        match self.places.get(&cell) {
            Some(place) => Ok(*place),
            None => narrow(self.cells.len() as u64),
        }
    }

    /// The cells in their order; where each of them stands is given up.
    pub fn into_cells(self) -> Numbers
        ensures { result ≡ self.cells }
    {
        let Reads { cells, .. } = self;
        cells
    }
}

/// A cell that isn't there is one more.
fn add_cell(
    cells: &mut Numbers,
    places: &mut BTreeMap<u32, u32>,
    input: Input,
) -> Result<(), AllocError>
    requires { AreTold places.old cells.old }
    ensures cells { OnOk result (cells.new ≡ R.with_cell (input_of input) cells.old) }
    ensures places { OnOk result (AreTold places.new cells.new) }
{
    let Input::Cell(cell) = input else {
        return Ok(());
    };
    if places.contains_key(&cell) {
        return Ok(());
    }
    places.insert(cell, narrow(cells.len() as u64)?)?;
    cells.push(cell)?;
    Ok(())
}
