//! Anonymous components as components with a name: a simple statement that holds some is preceded
//! by statements that create each and write its inputs, and has in their places the outputs of
//! these components. They come in the order of their first tokens, an inner one before the one that
//! holds it.
#![tactic(auto)]

mod copies;
mod holding;
mod lifting;
mod made;
mod values;

pub use copies::{accessors as accessors_copy, expr as expr_copy, place as place_copy};
pub use holding::{assign_holds, holds};
pub use lifting::{Lifted, lift_assign, lift_simple};
