ghost use Rattle.std.specs.Prelude.{◌<◌, ◌^◌, length};
ghost use Rattle.cir_expression.specs.Answers.{kinds};
ghost use Rattle.cir_parse.specs.Contract.{Parses, ParsesMarked};

use crate::fault::{MAX_HEIGHT, ParseFault};
use crate::item::item;
use crate::left_out::first_left_out;
use crate::marks::{Marks, Nothing};
use cir_ast::tree::File;
use cir_ast::{Blank, marked};
use cir_expression::{Reader, Stop, tight};
use cir_token::Token;
use std::alloc::Global;

/// The tree that prints these tokens, of a height of at most 256.
///
/// A form that the language leaves out is looked for first, and the refusal names its first token.
/// Else, where there is no tree, the refusal names the first token of the first item that has no
/// reading.
#[tactic(auto, using(crate::proofs::Seen::parses))]
pub fn parse(alloc: Global, tokens: &[Token]) -> Result<File, ParseFault>
    requires { length tokens.now < 2 ^ 32 }
    ensures { Parses (kinds tokens.now) result }
{
    parse_marked(alloc, tokens, &Nothing)
}

/// The same tree, whose items and statements carry the marks of the tokens from them on.
///
/// What the names carry is blank.
pub fn parse_marked<S: Drop, N: Blank + Drop, M: Marks<S>>(
    alloc: Global,
    tokens: &[Token],
    marks: &M,
) -> Result<marked::File<S, N>, ParseFault>
    requires { length tokens.now < 2 ^ 32 }
    ensures { ParsesMarked (M.mark marks.now) (kinds tokens.now) result }
{
    if let Some((token, form)) = first_left_out(tokens) {
        return Err(ParseFault::Form { token, form });
    }
    let mut reader = Reader { rest: tokens };
    let mut items = Vec::new(alloc);
    while !reader.rest.is_empty() {
        let token = (tokens.len() - reader.rest.len()) as u32;
        match item(alloc, marks, &mut reader, MAX_HEIGHT - 2) {
            Ok(item) => items.push(item)?,
            Err(Stop::NoTree) => return Err(ParseFault::Syntax { token }),
            Err(Stop::OutOfMemory) => return Err(ParseFault::OutOfMemory),
        }
    }
    Ok(marked::File {
        items: tight(items),
    })
}
