//! Forms that are left out of the language.
ghost use Rattle.std.specs.Prelude.{◌≡◌, ◌<◌, ◌^◌, codes, length};
ghost use Rattle.cir_expression.specs.Answers.{kinds};
ghost use Rattle.cir_parse.specs.LeftOut.{custom_at, tag_at, left_out_at, first_left_out};

use cir_ast::Form;
use cir_expression::Reader;
use cir_token::{Reserved, Symbol, Token, TokenKind};

// This name, which makes a custom template.
fn custom(word: &[u8], tokens: &[Token]) -> Option<Form>
    ensures { result ≡ custom_at word.now (kinds tokens.now) }
{
    match &tokens.first()?.kind {
        TokenKind::Name(name) if name.as_slice() == word => Some(Form::CustomTemplate),
        _ => None,
    }
}

// Behind `pragma`, the word that allows custom templates.
fn custom_pragma(tokens: &[Token]) -> Option<Form>
    ensures { result ≡ custom_at (codes "custom_templates") (kinds tokens.now) }
{
    custom(b"custom_templates".as_slice(), tokens)
}

// Behind `signal`, its tags.
fn tag(tokens: &[Token]) -> Option<Form>
    ensures { result ≡ tag_at (kinds tokens.now) }
{
    let mut reader = Reader { rest: tokens };
    if reader.begins_word(Reserved::Input) || reader.begins_word(Reserved::Output) {
        reader.skip();
    }
    if reader.begins(Symbol::OpenBrace) {
        Some(Form::Tag)
    } else {
        None
    }
}

// The form that begins at the front.
fn left_out(tokens: &[Token]) -> Option<Form>
    ensures { result ≡ left_out_at (kinds tokens.now) }
{
    let (first, rest) = tokens.split_first()?;
    match &first.kind {
        TokenKind::Reserved(word) => match word {
            Reserved::Bus => Some(Form::Bus),
            Reserved::Template => custom(b"custom".as_slice(), rest),
            Reserved::Pragma => custom_pragma(rest),
            Reserved::Signal => tag(rest),
            _ => None,
        },
        _ => None,
    }
}

/// The first form that is left out, with the number of its first token.
pub fn first_left_out(tokens: &[Token]) -> Option<(u32, Form)>
    requires { length tokens.now < 2 ^ 32 }
    ensures { result ≡ first_left_out 0 (kinds tokens.now) }
{
    let mut rest = tokens;
    for token in 0..tokens.len() {
        if let Some(form) = left_out(rest) {
            return Some((token as u32, form));
        }
        if let Some((_, behind)) = rest.split_first() {
            rest = behind;
        }
    }
    None
}
