//! The making of steps while a template's body is executed: the cells of a body, and the code of a
//! step of what isn't known at compile time.
#![tactic(auto)]

mod arrays;
mod assigned;
mod calls;
mod cells;
mod collecting;
mod make;
mod offered;
mod ports;
mod told;
mod whole;
mod work;

pub use cells::{Cells, Homes, PartCells, Run, Source, VariableCells};
pub use make::{Before, Doing, Elements, Making, make_step, plain_step};
pub use whole::{Body, Cast, Inside, Made, Whole};
