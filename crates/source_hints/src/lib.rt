//! What a source shows of its refusal: the token, the name that was meant, the counts and shapes
//! that its declarations have.
#![tactic(auto)]

mod advice;
mod declared;
mod names;
mod nearest;
mod shapes;
mod slips;
mod tokens;

pub use advice::{Advice, Rule, Spot, add};
pub use names::{Source, unknown_key, unknown_name, wrong_arity};
pub use nearest::Nearest;
pub use shapes::wrong_shape;
pub use slips::syntax_slip;
pub use tokens::{spot_of, tokens_from, tokens_of};
