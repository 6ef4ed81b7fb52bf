//! Values of a circuit's expressions, shapes of arrays, and the table of a circuit's signals.
#![tactic(auto)]

mod class;
mod names;
mod operators;
mod shape;
mod signals;
mod value;

pub use cir_meaning::Class;
pub use class::class_of;
pub use names::indexed;
pub use operators::{Lazy, Side, and_left, or_left, result_of, side_of, truth_of, unary_result};
pub use shape::{Shape, flat};
pub use signals::{InputShape, SignalName, Signals};
pub use text::Text;
pub use value::{
    Value, constant_form, difference, negative, product, quad_of, signal_form, sum, zero,
};
