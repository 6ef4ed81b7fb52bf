//! The value of an expression where it stands. What a call of a function answers is told by a
//! closure, so that nothing here knows how a body is executed.
#![tactic(auto)]

mod context;
mod evaluate;
mod literal;
mod looking;
mod operands;

pub use context::{Context, Here, reading};
pub use evaluate::{data, datum, number, place_number};
pub use looking::{arguments_in, dims_in, indices_in};
pub use operands::{
    Look, Operator, compound_operator, op_of, operator_of, right_look, side_looks, strict,
};
