//! Lists with commas between their elements, as functions that read on.
ghost use Rattle.std.specs.Prelude.{◌<◌, ◌^◌, ℕ, List, Option, map, length};
ghost use Rattle.cir_expression.specs.Front.{Tokens, name_at};
ghost use Rattle.cir_expression.specs.Combinators.{parted_by, separated};
ghost use Rattle.cir_expression.specs.Answers.{kinds, Reads};

use cir_ast::Text;
use cir_expression::{Reader, Stop};
use cir_token::Symbol;
use std::alloc::Global;

/// What reading gives.
pub type Read<T> = Result<T, Stop>;

/// What may stand in a list.
pub trait Element: Sized + Drop {
    // An element, as its tokens say.
    ghost Seen: { Type 0 };

    ghost seen: { Self → Seen };

    ghost reading: { ℕ → Tokens → Option (Seen × Tokens) };

    fn read(alloc: Global, reader: &mut Reader, room: u32) -> Read<Self>
        requires { room < 2 ^ 16 }
        ensures { Reads seen result (kinds reader.new.rest.now)
            (reading room (kinds reader.old.rest.now)) };
}

impl Element for Text {
    ghost Seen = { List ℕ };

    ghost seen = { λ x. x };

    ghost reading = { λ _. name_at };

    fn read(alloc: Global, reader: &mut Reader, _room: u32) -> Read<Text> {
        reader.name(alloc)
    }
}

/// One element or more, with this symbol between them, behind those that were read before.
pub fn separated_behind<E: Element>(
    alloc: Global,
    reader: &mut Reader,
    room: u32,
    mark: Symbol,
    before: Vec<E>,
) -> Read<Vec<E>>
    requires { room < 2 ^ 16 }
    ensures { let left = kinds reader.old.rest.now
        in Reads (λ v. map E.seen v.items) result (kinds reader.new.rest.now)
        (parted_by mark (length left) (E.reading room) (map E.seen before.items) left) }
{
    let mut elements = before;
    for _ in 0..reader.rest.len() {
        let element = E::read(alloc, reader, room)?;
        elements.push(element)?;
        if !reader.begins(mark) {
            return Ok(elements);
        }
        reader.skip();
    }
    Err(Stop::NoTree)
}

/// One element or more, with commas between them.
#[tactic(auto, unfolding(cir_expression::specs::Combinators::separated))]
pub fn separated<E: Element>(alloc: Global, reader: &mut Reader, room: u32) -> Read<Vec<E>>
    requires { room < 2 ^ 16 }
    ensures { Reads (λ v. map E.seen v.items) result (kinds reader.new.rest.now)
        (separated (E.reading room) (kinds reader.old.rest.now)) }
{
    let before = Vec::new(alloc);
    separated_behind(alloc, reader, room, Symbol::Comma, before)
}
