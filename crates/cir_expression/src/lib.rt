//! From tokens to the expressions that print them.
//!
//! A [`Reader`] holds the tokens that are left, and each call reads what stands at their front: an
//! expression, a place, the arguments of a call, or what begins with a parenthesis, no higher than
//! the room that is given. It answers the tree, and leaves the tokens behind it. Where there is
//! none such it answers [`Stop::NoTree`], and then its tokens are of no use.
//!
//! The contracts name the readings of `specs/Reading`, which are functions of the tokens. That what
//! is read prints the tokens, is shaped as the grammar wants and is low enough, and that whatever
//! is so is read, is proved of them in proofs/, for the contracts of the crates above.
//!
//! A call that is given `room` reads what may be that high, and a call that is given `inner` reads
//! a node whose inner expressions may be that high. `room` is below 2^16, so that no height wraps;
//! the parser begins with 254.
//!
//! Levels are climbed, and not descended one by one: an operand is read, and then operators as long
//! as they are of the wanted level or a tighter one, each with its right operand. So whatever is
//! read passes a token at least and looks at a few beside, and the time is linear in the tokens
//! that are passed, though no clause says so. Calls lie no deeper than six for each node on the
//! way down.
#![tactic(auto)]

mod expressions;
mod measured;
mod operators;
mod reader;
mod trimmed;

pub use expressions::Grouped;
pub use reader::{Reader, Stop};
pub use trimmed::tight;
