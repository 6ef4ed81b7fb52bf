//! What tests compare of a refusal.
use cir_ast::Kind;

// The number that a user sees, without the `E`.
fn number_of(kind: Kind) -> u32 {
    match kind {
        Kind::Lexical { .. } => 1,
        Kind::Syntax => 2,
        Kind::Include => 3,
        Kind::Duplicate => 4,
        Kind::Main => 5,
        Kind::UnknownName => 6,
        Kind::Arity => 7,
        Kind::WrongKind => 8,
        Kind::UnknownControl => 9,
        Kind::UnknownIndex => 10,
        Kind::NonQuadratic => 11,
        Kind::ReadBeforeWrite => 12,
        Kind::SecondWrite => 13,
        Kind::NeverWritten => 14,
        Kind::InputsMissing => 15,
        Kind::OutOfBounds => 16,
        Kind::ZeroDivisor => 17,
        Kind::AssertFalse => 18,
        Kind::Limit { .. } => 19,
        Kind::TooDeep => 20,
        Kind::NotInProfile { .. } => 21,
        Kind::ShapeDiffers => 22,
    }
}

/// Whether both are the same kind, with the same cause, limit or form.
pub fn is_kind(found: Kind, wanted: Kind) -> bool {
    match (found, wanted) {
        (Kind::Lexical { cause: a }, Kind::Lexical { cause: b }) => a == b,
        (Kind::Limit { which: a, count: n }, Kind::Limit { which: b, count: m }) => {
            a == b && n == m
        }
        (Kind::NotInProfile { form: a }, Kind::NotInProfile { form: b }) => a == b,
        _ => number_of(found) == number_of(wanted),
    }
}
