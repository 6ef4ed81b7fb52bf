ghost use Rattle.std.specs.Prelude.{◌≡◌, IfOk};
ghost use Rattle.cir_ast.specs.Spot.{refusal_at};

use crate::program::Spot;
use cir_token::{LexCause, Text};
use std::alloc::{AllocError, Global};

/// Where a refusal stands. Lines and columns count from 1, and a column counts bytes.
#[derive(Drop)]
pub struct Place {
    pub file: Text,
    pub line: u32,
    pub column: u32,
    /// The path of the instance, or `-` before any is made.
    pub path: Text,
}

/// Why a source is refused, and where.
pub struct Refusal {
    pub kind: Kind,
    pub place: Place,
}

// Written out, so that the proof of an owner sees one call and not the drop of each part.
impl Drop for Refusal {
    fn drop(self) {
        let Refusal {
            kind: _kind,
            place: _place,
        } = self;
    }
}

impl Refusal {
    /// The refusal at a place of the file of this name, before any instance is made.
    pub fn at(alloc: Global, file: &[u8], kind: Kind, spot: Spot) -> Result<Refusal, AllocError>
        ensures { IfOk result (λ r. r ≡ refusal_at file.now kind spot) }
    {
        let file = Text::from_slice(alloc, file)?;
        let path = Text::from_slice(alloc, b"-")?;
        Ok(Refusal {
            kind,
            place: Place {
                file,
                line: spot.line,
                column: spot.column,
                path,
            },
        })
    }
}

/// The 22 kinds of refusal of a source, E1 to E22.
#[derive(Clone, Copy)]
pub enum Kind {
    Lexical { cause: LexCause },
    Syntax,
    Include,
    Duplicate,
    Main,
    UnknownName,
    Arity,
    WrongKind,
    UnknownControl,
    UnknownIndex,
    NonQuadratic,
    ReadBeforeWrite,
    SecondWrite,
    NeverWritten,
    InputsMissing,
    OutOfBounds,
    ZeroDivisor,
    AssertFalse,
    Limit { which: Which, count: u64 },
    TooDeep,
    NotInProfile { form: Form },
    ShapeDiffers,
}

/// A form that is left out of the language.
#[derive(Clone, Copy, PartialEq, Eq)]
pub enum Form {
    Version,
    CustomTemplate,
    Bus,
    Tag,
    NoReturn,
    MixedComponents,
    LiteralPlace,
    DeclarationPlace,
    LogPlace,
    RunArray,
    RunDimension,
    AnonymousPlace,
}

/// What a limit counts.
#[derive(Clone, Copy, PartialEq, Eq)]
pub enum Which {
    Source,
    Files,
    Signals,
    Constraints,
    Terms,
    Elements,
    Cells,
    Steps,
    Nodes,
    Reads,
    Statements,
}
