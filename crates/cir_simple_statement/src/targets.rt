//! Targets and sources, and the statements that begin with one, as functions that read on.
ghost use Rattle.std.specs.Prelude.{◌≡◌, ◌<◌, ◌^◌, Option, option_map, map};
ghost use Rattle.cir_ast.specs.Tree.{Expr as BareExpr, Slot as BareSlot, bare, bare_slot};
ghost use Rattle.cir_ast.specs.Plain.{PlainExpr, PlainSlot, plain, plain_slot};
ghost use Rattle.cir_expression.specs.Combinators.{next};
ghost use Rattle.cir_expression.specs.Reading.{group};
ghost use Rattle.cir_simple_statement.specs.Reading.{right_arrow_at, slot, target, each_of};
ghost use Rattle.cir_simple_statement.specs.Reading.{slot_of, source, tupled, behind_group};
ghost use Rattle.cir_expression.specs.Answers.{kinds, Reads, seen_element};
ghost use Rattle.cir_simple_statement.specs.Answers.{seen_target, seen_source, seen_simple, Are};

use crate::assignments::equation;
use crate::lists::{Element, Read, separated_behind};
use cir_ast::Blank;
use cir_ast::marked::{Arrow, Expr, Simple, Slot, Source, Target};
use cir_expression::{Grouped, Reader, Stop, tight};
use cir_token::{Symbol, TokenKind};
use std::alloc::Global;

/// The arrow to the right that comes next.
pub fn right_arrow(reader: &Reader) -> Option<Arrow>
    ensures { result ≡ right_arrow_at (kinds reader.now.rest.now) }
{
    match reader.rest.first() {
        Some(token) => match &token.kind {
            TokenKind::Symbol(Symbol::AssignRight) => Some(Arrow::Assign),
            TokenKind::Symbol(Symbol::ConstrainRight) => Some(Arrow::Constrain),
            _ => None,
        },
        None => None,
    }
}

impl<N: Blank + Drop> Element for Slot<N> {
    ghost Seen = { PlainSlot };

    ghost seen = { λ x. plain_slot (bare_slot x) };

    ghost reading = { slot };

    #[tactic(auto, unfolding(crate::specs::Reading::slot))]
    fn read(alloc: Global, reader: &mut Reader, room: u32) -> Read<Slot<N>> {
        if reader.begins_underscore() {
            reader.skip();
            return Ok(Slot::Discard);
        }
        let place = reader.place(alloc, room)?;
        Ok(Slot::Place(place))
    }
}

/// `_`, or a tuple of slots.
#[tactic(auto, using(crate::proofs::Seen::seen_map), unfolding(crate::specs::Reading::target))]
pub fn target<N: Blank + Drop>(alloc: Global, reader: &mut Reader, room: u32) -> Read<Target<N>>
    requires { room < 2 ^ 16 }
    ensures { Reads seen_target result (kinds reader.new.rest.now)
        (target room (kinds reader.old.rest.now)) }
{
    if reader.begins_underscore() {
        reader.skip();
        return Ok(Target::Discard);
    }
    reader.behind(Symbol::OpenParenthesis)?;
    let first = Slot::read(alloc, reader, room)?;
    reader.behind(Symbol::Comma)?;
    let mut slots = Vec::new(alloc);
    slots.push(first)?;
    let slots = separated_behind(alloc, reader, room, Symbol::Comma, slots)?;
    reader.behind(Symbol::CloseParenthesis)?;
    Ok(Target::Tuple(tight(slots)))
}

// What an element of a tuple may stand for.
trait Part<N>: Sized + Drop {
    ghost Bare: { Type 0 };

    ghost Seen: { Type 0 };

    ghost bare: { Self → Bare };

    ghost plain: { Bare → Seen };

    ghost meaning: { Option PlainExpr → Option Seen };

    fn of(element: Option<Expr<N>>) -> Option<Self>
        ensures { meaning (seen_element element) ≡ option_map (λ x. plain (bare x)) result };
}

impl<N: Drop> Part<N> for Expr<N> {
    ghost Bare = { BareExpr N };

    ghost Seen = { PlainExpr };

    ghost bare = { bare };

    ghost plain = { plain };

    ghost meaning = { λ x. x };

    fn of(element: Option<Expr<N>>) -> Option<Expr<N>>
        ensures { seen_element element ≡ option_map (λ x. plain (bare x)) result }
    {
        element
    }
}

impl<N: Drop> Part<N> for Slot<N> {
    ghost Bare = { BareSlot N };

    ghost Seen = { PlainSlot };

    ghost bare = { bare_slot };

    ghost plain = { plain_slot };

    ghost meaning = { slot_of };

    fn of(element: Option<Expr<N>>) -> Option<Slot<N>>
        ensures { slot_of (seen_element element)
            ≡ option_map (λ x. plain_slot (bare_slot x)) result }
    {
        match element {
            None => Some(Slot::Discard),
            Some(Expr::Place(place)) => Some(Slot::Place(place)),
            Some(_) => None,
        }
    }
}

// What the elements of a tuple stand for, if all of them do.
fn parts<N: Drop, P: Part<N>>(alloc: Global, elements: Vec<Option<Expr<N>>>) -> Read<Vec<P>>
    ensures { Are (λ v. map P.plain (map P.bare v.items)) (each_of P.meaning
        (map seen_element elements.items)) result }
{
    let mut parts = Vec::new(alloc);
    for element in elements {
        let Some(part) = P::of(element) else {
            return Err(Stop::NoTree);
        };
        parts.push(part)?;
    }
    Ok(parts)
}

/// One value, or a tuple of values.
#[tactic(auto, unfolding(crate::specs::Reading::source))]
pub fn source<N: Blank + Drop>(alloc: Global, reader: &mut Reader, room: u32) -> Read<Source<N>>
    requires { room < 2 ^ 16 }
    ensures { Reads seen_source result (kinds reader.new.rest.now)
        (source room (kinds reader.old.rest.now)) }
{
    if reader.begins(Symbol::OpenParenthesis) {
        reader.skip();
        let found = reader.group(alloc, room)?;
        match found {
            Grouped::Whole(value) => return Ok(Source::One(value)),
            Grouped::Tuple(elements) => {
                let values = parts(alloc, elements)?;
                return Ok(Source::Tuple(tight(values)));
            }
        }
    }
    let value = reader.expression(alloc, room)?;
    Ok(Source::One(value))
}

// What stands behind a tuple that begins a statement.
#[tactic(auto, unfolding(crate::specs::Reading::tupled))]
fn tupled<N: Blank + Drop>(
    alloc: Global,
    reader: &mut Reader,
    room: u32,
    elements: Vec<Option<Expr<N>>>,
) -> Read<Simple<N>>
    requires { room < 2 ^ 16 }
    ensures { Reads seen_simple result (kinds reader.new.rest.now)
        (tupled room (map seen_element elements.items) (kinds reader.old.rest.now)) }
{
    if let Some(arrow) = reader.arrow() {
        let slots = parts(alloc, elements)?;
        reader.skip();
        let source = source(alloc, reader, room)?;
        return Ok(Simple::TargetLeft(Target::Tuple(tight(slots)), arrow, source));
    }
    let Some(arrow) = right_arrow(reader) else {
        return Err(Stop::NoTree);
    };
    let values = parts(alloc, elements)?;
    reader.skip();
    let target = target(alloc, reader, room)?;
    Ok(Simple::TargetRight(Source::Tuple(tight(values)), arrow, target))
}

/// A simple statement behind the `(` that begins it.
pub fn grouped<N: Blank + Drop>(alloc: Global, reader: &mut Reader, room: u32) -> Read<Simple<N>>
    requires { room < 2 ^ 16 }
    ensures { Reads seen_simple result (kinds reader.new.rest.now)
        (next (group room (kinds reader.old.rest.now)) (λ g. behind_group room g.0 g.1)) }
{
    let found = reader.group(alloc, room)?;
    match found {
        Grouped::Whole(left) => equation(alloc, reader, room, left),
        Grouped::Tuple(elements) => tupled(alloc, reader, room, elements),
    }
}
