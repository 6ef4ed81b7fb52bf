//! What a step reads, and the code that loads it.
ghost use Rattle.std.specs.Prelude.{◌≡◌, [], ◌∷◌, ◌++◌, map, IfOk, OnOk};
ghost use Rattle.wit_lower.specs.Homes as L;
ghost use Rattle.wit_lower.specs.Sources as R;
ghost use Rattle.wit_sourced.specs.Loads.{input_of, shape_of, source_of};
ghost use Rattle.wit_sourced.specs.Shown.{homes_of, sought_name, scope_of};

use crate::homes::Scope;
use crate::names::Sought;
use crate::reads::Reads;
use gold_field::Gold;
use items::Items;
use numbers::behind;
use std::alloc::{AllocError, Global};
use wit_code::Op;

/// The dimensions of what a step names.
#[derive(Drop)]
pub struct Shape<'a> {
    pub name: Sought<'a>,
    pub dims: &'a [u64],
}

/// What a step names, with homes for it in a row, in the order of the shapes.
#[derive(Drop)]
pub struct Named<'a> {
    pub shapes: Items<Shape<'a>>,
    pub scope: Scope<'a>,
    ghost shown: { scope_of scope ≡ R.homes_from (map shape_of shapes)
        record { homes = []; top = 0 } },
}

/// Where an element's number comes from.
#[derive(Clone, Copy)]
pub enum Input {
    Constant(Gold),
    Cell(u32),
}

/// An element of what a step names, by its place in row order, and where its number comes from.
#[derive(Drop)]
pub struct Source<'a> {
    pub name: Sought<'a>,
    pub element: u64,
    pub input: Input,
}

/// What a step names, and a source for each element that it may read.
#[derive(Drop)]
pub struct Sources<'a> {
    pub named: &'a Named<'a>,
    pub list: Items<Source<'a>>,
}

impl<'a> Named<'a> {
    /// The shapes with homes in a row, in their order.
    pub fn of(alloc: Global, shapes: Items<Shape<'a>>) -> Result<Named<'a>, AllocError>
        ensures { IfOk result (λ named. named.shapes ≡ shapes.entry) }
    {
        let scope = Scope::of(alloc, shapes.as_slice())?;
        Ok(Named { shapes, scope })
    }
}

impl<'a> Scope<'a> {
    /// The homes stand in a row, in the order of the shapes.
    pub fn of(alloc: Global, shapes: &[Shape<'a>]) -> Result<Scope<'a>, AllocError>
        ensures { IfOk result (λ s. scope_of s ≡ R.homes_from (map shape_of shapes.now)
            record { homes = []; top = 0 }) }
    {
        let mut scope = Scope::new(alloc);
        for shape in shapes {
            let dims = Items::from_slice(alloc, shape.dims)?;
            scope.place(shape.name, dims)?;
        }
        Ok(scope)
    }
}

/// A source is loaded into a slot.
fn emit_load(code: &mut Items<Op>, reads: &Reads, input: Input, slot: u32) -> Result<(), AllocError>
    ensures { OnOk result (code.new
        ≡ code.old ++ R.load_code reads.now.cells (input_of input) slot ∷ []) }
{
    match input {
        Input::Constant(n) => {
            code.push(Op::Const(slot, n))?;
            Ok(())
        }
        Input::Cell(cell) => {
            code.push(Op::Read(slot, reads.place(cell)?))?;
            Ok(())
        }
    }
}

fn emit_source(
    code: &mut Items<Op>,
    scope: &Scope,
    reads: &Reads,
    source: &Source,
) -> Result<(), AllocError>
    ensures { OnOk result (code.new ≡ code.old ++ R.source_code reads.now.cells
        (L.find (sought_name source.now.name) (homes_of scope.now.homes.items))
        (source_of source.now)) }
{
    let Some(home) = scope.find(source.name) else {
        return Ok(());
    };
    let slot = behind(home.base, source.element)?;
    emit_load(code, reads, source.input, slot)?;
    Ok(())
}

/// Each source is loaded into the slot of its element.
pub fn emit_sources(
    code: &mut Items<Op>,
    scope: &Scope,
    reads: &Reads,
    list: &[Source],
) -> Result<(), AllocError>
    ensures { OnOk result (code.new ≡ code.old ++ R.sources_code reads.now.cells
        (homes_of scope.now.homes.items) (map source_of list.now)) }
{
    for source in list {
        emit_source(code, scope, reads, source)?;
    }
    Ok(())
}
