//! The matrix that Ligero (Ames, Hazay, Ishai, Venkitasubramaniam, CCS 2017) commits to, for the
//! constraints of an `.r1cs` file, and the linear system over it.
//!
//! The matrix has `rows` rows of `l` values. The wires `w` fill the first rows; then come the
//! values of the three sides of the constraints, `x = A w`, `y = B w` and `z = C w`, each in rows
//! of its own. What is left of a last row is 0. The linear system says that `x`, `y` and `z` are
//! made so, and that wire 0 and the public wires have their values.
#![tactic(auto)]

mod fill;
mod laws;
mod matrix;
mod params;
mod side;
mod system;

pub use fill::vectors;
pub use laws::{combining_is_linear, system_is_file, vectors_solve};
pub use matrix::Vectors;
pub use params::Params;
pub use system::combine;
