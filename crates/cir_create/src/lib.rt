//! Declarations and the creation of components. What a component is made to is told by a closure,
//! so that nothing here knows how a template's body is executed.
#![tactic(auto)]

mod body;
mod creating;
mod declaring;
mod setting;

pub use body::Body;
pub use creating::{Creation, created_at, may_be, path_of, template_call};
pub use declaring::{components, created, declared_number, signals, variables};
pub use setting::set;
