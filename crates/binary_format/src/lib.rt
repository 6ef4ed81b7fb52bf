//! Reading and writing binary formats: a reader that knows where in the file it is, and the laws of
//! the readings that formats are put together from.
#![tactic(auto)]

mod reader;
mod writing;

pub use reader::Reader;
pub use writing::{put_u32, put_u64};
