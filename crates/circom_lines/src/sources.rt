//! The lines of refusals at a place of a source.

ghost use Rattle.std.specs.Prelude.{◌≡◌, IfOk, decimal, string_bytes};
ghost use Rattle.circom_lines.specs.Lines.{placed_line, source_line, kind_text, detail_text};
ghost use Rattle.circom_lines.specs.Lines.{count_text, lex_text, which_text, form_text};

use crate::lines::line;
use cir_ast::{Form, Kind, Place, Refusal, Which};
use cir_token::LexCause;
use std::alloc::{AllocError, Global};

/// The line with the kind, the place and the instance.
pub fn source_line(alloc: Global, refusal: &Refusal) -> Result<Vec<u8>, AllocError>
    ensures { IfOk result (λ v. v.items ≡ source_line refusal.now) }
{
    let count = count_text(alloc, refusal.kind)?;
    let kind = kind_text(refusal.kind);
    let detail = detail_text(refusal.kind);
    placed_line(alloc, kind, detail, count.as_str(), &refusal.place)
}

/// The line of a refusal at a place.
pub fn placed_line(
    alloc: Global,
    what: &str,
    detail: &str,
    count: &str,
    place: &Place,
) -> Result<Vec<u8>, AllocError>
    ensures { IfOk result (λ v. v.items ≡ placed_line what.now detail.now count.now place.now) }
{
    let number = place.line;
    let row = format!(in alloc; "{number}")?;
    let number = place.column;
    let column = format!(in alloc; "{number}")?;
    spelled(
        alloc,
        what,
        detail,
        count,
        place,
        row.as_str(),
        column.as_str(),
    )
}

fn spelled<'a>(
    alloc: Global,
    what: &'a str,
    detail: &'a str,
    count: &'a str,
    place: &'a Place,
    row: &'a str,
    column: &'a str,
) -> Result<Vec<u8>, AllocError>
    requires row { row.now ≡ decimal place.now.line }
    requires column { column.now ≡ decimal place.now.column }
    ensures { IfOk result (λ v. v.items ≡ placed_line what.now detail.now count.now place.now) }
{
    line(
        alloc,
        &[
            b"refused: ",
            what.as_bytes(),
            detail.as_bytes(),
            count.as_bytes(),
            b" at ",
            place.file.as_slice(),
            b":",
            row.as_bytes(),
            b":",
            column.as_bytes(),
            b" in ",
            place.path.as_slice(),
        ],
    )
}

fn kind_text(kind: Kind) -> &'static str
    ensures { result.now ≡ kind_text kind }
{
    match kind {
        Kind::Lexical { .. } => "E1 Lexical",
        Kind::Syntax => "E2 Syntax",
        Kind::Include => "E3 Include",
        Kind::Duplicate => "E4 Duplicate",
        Kind::Main => "E5 Main",
        Kind::UnknownName => "E6 UnknownName",
        Kind::Arity => "E7 Arity",
        Kind::WrongKind => "E8 WrongKind",
        Kind::UnknownControl => "E9 UnknownControl",
        Kind::UnknownIndex => "E10 UnknownIndex",
        Kind::NonQuadratic => "E11 NonQuadratic",
        Kind::ReadBeforeWrite => "E12 ReadBeforeWrite",
        Kind::SecondWrite => "E13 SecondWrite",
        Kind::NeverWritten => "E14 NeverWritten",
        Kind::InputsMissing => "E15 InputsMissing",
        Kind::OutOfBounds => "E16 OutOfBounds",
        Kind::ZeroDivisor => "E17 ZeroDivisor",
        Kind::AssertFalse => "E18 AssertFalse",
        Kind::Limit { .. } => "E19 Limit",
        Kind::TooDeep => "E20 TooDeep",
        Kind::NotInProfile { .. } => "E21 NotInProfile",
        Kind::ShapeDiffers => "E22 ShapeDiffers",
    }
}

// What stands behind the kind's name: the cause, the quantity, or the form.
fn detail_text(kind: Kind) -> &'static str
    ensures { result.now ≡ detail_text kind }
{
    match kind {
        Kind::Lexical { cause } => lex_text(cause),
        Kind::Limit { which, .. } => which_text(which),
        Kind::NotInProfile { form } => form_text(form),
        _ => "",
    }
}

// The count of a limit.
fn count_text(alloc: Global, kind: Kind) -> Result<String, AllocError>
    ensures { IfOk result (λ s. string_bytes s ≡ count_text kind) }
{
    match kind {
        Kind::Limit { count, .. } => Ok(format!(in alloc; "{count}")?),
        _ => Ok(String::new(alloc)),
    }
}

fn lex_text(cause: LexCause) -> &'static str
    ensures { result.now ≡ lex_text cause }
{
    match cause {
        LexCause::BadChar => " BadChar",
        LexCause::OpenComment => " OpenComment",
        LexCause::OpenString => " OpenString",
        LexCause::NumberTooWide => " NumberTooWide",
    }
}

fn which_text(which: Which) -> &'static str
    ensures { result.now ≡ which_text which }
{
    match which {
        Which::Source => " Source ",
        Which::Files => " Files ",
        Which::Signals => " Signals ",
        Which::Constraints => " Constraints ",
        Which::Terms => " Terms ",
        Which::Elements => " Elements ",
        Which::Cells => " Cells ",
        Which::Steps => " Steps ",
        Which::Nodes => " Nodes ",
        Which::Reads => " Reads ",
        Which::Statements => " Statements ",
    }
}

fn form_text(form: Form) -> &'static str
    ensures { result.now ≡ form_text form }
{
    match form {
        Form::Version => " Version",
        Form::CustomTemplate => " CustomTemplate",
        Form::Bus => " Bus",
        Form::Tag => " Tag",
        Form::NoReturn => " NoReturn",
        Form::MixedComponents => " MixedComponents",
        Form::LiteralPlace => " LiteralPlace",
        Form::DeclarationPlace => " DeclarationPlace",
        Form::LogPlace => " LogPlace",
        Form::RunArray => " RunArray",
        Form::RunDimension => " RunDimension",
        Form::AnonymousPlace => " AnonymousPlace",
    }
}
