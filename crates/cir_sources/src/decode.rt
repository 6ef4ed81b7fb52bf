//! From the bytes of a file to a source, or to its first fault.
ghost use Rattle.std.specs.Prelude.{◌≡◌, ◌<◌, ◌^◌, length, IfOk};
ghost use Rattle.cir_sources.specs.Includes.{seen, seen_items, includes_of, other_version};
ghost use Rattle.cir_sources.specs.Steps.{Lexes, ParsesFile, Decodes};

use crate::fault::{LoadFault, refusal};
use crate::place::{Places, spot_of, spots};
use crate::source::{MAX_SOURCE, Site, Source};
use cir_ast::marked::{File, Item, ItemForm};
use cir_ast::program::{Meant, Spot};
use cir_ast::{Form, Kind, Text, Which};
use cir_lexer::{LexFault, Token, lex};
use cir_parse::{ParseFault, Spots, parse_marked};
use std::alloc::{AllocError, Global};

/// The source of this name and these bytes.
pub(crate) fn source(alloc: Global, name: &[u8], bytes: Vec<u8>) -> Result<Source, LoadFault>
    ensures { Decodes name.now bytes.items result }
{
    let text = bytes.as_slice();
    let tokens = tokens_of(alloc, name, text)?;
    let tokens = tokens.as_slice();
    let spots = spots(alloc, text, tokens)?;
    let file = file_of(alloc, name, tokens, spots.as_slice())?;
    let name = Text::from_slice(alloc, name)?;
    Ok(Source { name, file })
}

fn tokens_of(alloc: Global, name: &[u8], bytes: &[u8]) -> Result<Vec<Token>, LoadFault>
    ensures { Lexes name.now bytes.now result }
{
    if bytes.len() > MAX_SOURCE {
        let (which, count) = (Which::Source, bytes.len() as u64);
        let start = Spot { line: 1, column: 1 };
        return Err(refusal(alloc, name, Kind::Limit { which, count }, start));
    }
    match lex(alloc, bytes) {
        Ok(tokens) => Ok(tokens),
        Err(LexFault::At { cause, offset }) => {
            let spot = Places::new(bytes).of_offset(offset);
            Err(refusal(alloc, name, Kind::Lexical { cause }, spot))
        }
        Err(LexFault::OutOfMemory) => Err(LoadFault::OutOfMemory),
    }
}

// The file of the tokens with these places.
fn file_of(
    alloc: Global,
    name: &[u8],
    tokens: &[Token],
    spots: &[Spot],
) -> Result<File<Spot, Meant>, LoadFault>
    requires { length tokens.now < 2 ^ 32 }
    ensures { ParsesFile name.now tokens.now spots.now result }
{
    match parse_marked(alloc, tokens, &Spots { spots }) {
        Ok(file) => match other_version(file.items.as_slice()) {
            None => Ok(file),
            Some(spot) => {
                let form = Form::Version;
                Err(refusal(alloc, name, Kind::NotInProfile { form }, spot))
            }
        },
        Err(ParseFault::Form { token, form }) => {
            let kind = Kind::NotInProfile { form };
            Err(refusal(alloc, name, kind, spot_of(spots, token)))
        }
        Err(ParseFault::Syntax { token }) => {
            Err(refusal(alloc, name, Kind::Syntax, spot_of(spots, token)))
        }
        Err(ParseFault::OutOfMemory) => Err(LoadFault::OutOfMemory),
    }
}

// The place of the first pragma whose first number isn't 2.
fn other_version(items: &[Item<Spot, Meant>]) -> Option<Spot>
    ensures { result ≡ other_version (seen_items items.now) }
{
    for item in items {
        if let ItemForm::Pragma(pragma) = &item.form {
            if pragma.major != 2 {
                return Some(item.spot);
            }
        }
    }
    None
}

/// The includes of the source, in order.
pub(crate) fn sites(alloc: Global, source: &Source) -> Result<Vec<Site>, AllocError>
    ensures { IfOk result (λ v. v.items ≡ includes_of (seen source.now)) }
{
    let mut sites = Vec::new(alloc);
    for item in source.file.items.as_slice() {
        if let ItemForm::Include(include) = &item.form {
            let file = Text::from_slice(alloc, source.name.as_slice())?;
            let name = Text::from_slice(alloc, include.name.as_slice())?;
            let spot = item.spot;
            sites.push(Site { file, name, spot })?;
        }
    }
    Ok(sites)
}
