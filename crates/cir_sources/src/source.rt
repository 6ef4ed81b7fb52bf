//! Source files and their includes.
use cir_ast::Text;
use cir_ast::marked::File;
use cir_ast::program::{Meant, Spot};

/// The number of bytes that a source file may have.
pub(crate) const MAX_SOURCE: usize = 16_777_216;

/// The number of source files that a program may have.
pub(crate) const MAX_FILES: usize = 1_024;

/// A source file: its name, and the tree of its tokens with their places. What names mean isn't
/// known yet.
#[derive(Drop)]
pub struct Source {
    pub name: Text,
    pub file: File<Spot, Meant>,
}

/// An include: the file in which it stands, what stands between its quotes, and its place.
#[derive(Drop)]
pub struct Site {
    pub file: Text,
    pub name: Text,
    pub spot: Spot,
}
