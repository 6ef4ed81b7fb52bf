//! Declarations, as functions that read on.
ghost use Rattle.std.specs.Prelude.{◌≡◌, ◌<◌, ◌^◌, map};
ghost use Rattle.cir_ast.specs.Tree.{bare_signal, bare_component};
ghost use Rattle.cir_ast.specs.Plain.{PlainExpr, PlainVariable, PlainSignal, PlainComponent};
ghost use Rattle.cir_ast.specs.Plain.{plain_signal, plain_component};
ghost use Rattle.cir_expression.specs.Front.{name_at};
ghost use Rattle.cir_expression.specs.Combinators.{separated};
ghost use Rattle.cir_simple_statement.specs.Reading.{dimension, dimensions, value, variable};
ghost use Rattle.cir_simple_statement.specs.Reading.{signal_value, signal, direction_at, component};
ghost use Rattle.cir_simple_statement.specs.Reading.{signals, components};
ghost use Rattle.cir_expression.specs.Answers.{kinds, Reads, seen};
ghost use Rattle.cir_simple_statement.specs.Answers.{seen_value, seen_variable, seen_signal_value};
ghost use Rattle.cir_simple_statement.specs.Answers.{seen_simple};

use crate::lists::{Element, Read, separated, separated_behind};
use cir_ast::marked::{
    Components, DeclaredComponent, DeclaredSignal, DeclaredVariable, Direction, Expr, SignalValue,
    Signals, Simple,
};
use cir_ast::{Blank, Text};
use cir_expression::{Reader, tight};
use cir_token::{Reserved, Symbol};
use std::alloc::Global;

/// One name or more, with commas between them.
pub fn names(alloc: Global, reader: &mut Reader) -> Read<Vec<Text>>
    ensures { Reads (λ v. v.items) result (kinds reader.new.rest.now)
        (separated name_at (kinds reader.old.rest.now)) }
{
    let names = separated(alloc, reader, 0)?;
    Ok(names)
}

impl<N: Blank + Drop> Element for Expr<N> {
    ghost Seen = { PlainExpr };

    ghost seen = { seen };

    ghost reading = { dimension };

    fn read(alloc: Global, reader: &mut Reader, room: u32) -> Read<Expr<N>> {
        let dimension = reader.expression(alloc, room)?;
        reader.behind(Symbol::CloseBracket)?;
        Ok(dimension)
    }
}

// Expressions, each in brackets.
#[tactic(auto, unfolding(crate::specs::Reading::dimensions))]
fn dimensions<N: Blank + Drop>(alloc: Global, reader: &mut Reader, room: u32) -> Read<Vec<Expr<N>>>
    requires { room < 2 ^ 16 }
    ensures { Reads (λ v. map seen v.items) result (kinds reader.new.rest.now)
        (dimensions room (kinds reader.old.rest.now)) }
{
    let before = Vec::new(alloc);
    if !reader.begins(Symbol::OpenBracket) {
        return Ok(before);
    }
    reader.skip();
    separated_behind(alloc, reader, room, Symbol::OpenBracket, before)
}

// `=` and what a variable is given, or nothing.
fn value<N: Blank + Drop>(alloc: Global, reader: &mut Reader, room: u32) -> Read<Option<Expr<N>>>
    requires { room < 2 ^ 16 }
    ensures { Reads seen_value result (kinds reader.new.rest.now)
        (value room (kinds reader.old.rest.now)) }
{
    if !reader.begins(Symbol::Equal) {
        return Ok(None);
    }
    reader.skip();
    let value = reader.expression(alloc, room)?;
    Ok(Some(value))
}

impl<N: Blank + Drop> Element for DeclaredVariable<N> {
    ghost Seen = { PlainVariable };

    ghost seen = { seen_variable };

    ghost reading = { variable };

    #[tactic(auto, using(crate::proofs::Seen::lists), unfolding(crate::specs::Reading::variable))]
    fn read(alloc: Global, reader: &mut Reader, room: u32) -> Read<DeclaredVariable<N>> {
        let name = reader.name(alloc)?;
        let dimensions = dimensions(alloc, reader, room)?;
        let value = value(alloc, reader, room)?;
        Ok(DeclaredVariable {
            name,
            meant: N::blank(),
            dimensions: tight(dimensions),
            value,
        })
    }
}

/// One variable or more, with commas between them.
pub fn variables<N: Blank + Drop>(
    alloc: Global,
    reader: &mut Reader,
    room: u32,
) -> Read<Vec<DeclaredVariable<N>>>
    requires { room < 2 ^ 16 }
    ensures { Reads (λ v. map seen_variable v.items) result (kinds reader.new.rest.now)
        (separated (variable room) (kinds reader.old.rest.now)) }
{
    separated(alloc, reader, room)
}

fn signal_value<N: Blank + Drop>(
    alloc: Global,
    reader: &mut Reader,
    room: u32,
) -> Read<SignalValue<N>>
    requires { room < 2 ^ 16 }
    ensures { Reads seen_signal_value result (kinds reader.new.rest.now)
        (signal_value room (kinds reader.old.rest.now)) }
{
    let Some(arrow) = reader.arrow() else {
        return Ok(SignalValue::Nothing);
    };
    reader.skip();
    let value = reader.expression(alloc, room)?;
    Ok(SignalValue::Given(arrow, value))
}

impl<N: Blank + Drop> Element for DeclaredSignal<N> {
    ghost Seen = { PlainSignal };

    ghost seen = { λ x. plain_signal (bare_signal x) };

    ghost reading = { signal };

    #[tactic(auto, using(crate::proofs::Seen::lists), unfolding(crate::specs::Reading::signal))]
    fn read(alloc: Global, reader: &mut Reader, room: u32) -> Read<DeclaredSignal<N>> {
        let name = reader.name(alloc)?;
        let dimensions = dimensions(alloc, reader, room)?;
        let value = signal_value(alloc, reader, room)?;
        Ok(DeclaredSignal {
            name,
            meant: N::blank(),
            dimensions: tight(dimensions),
            value,
        })
    }
}

// The word behind `signal`.
fn direction(reader: &mut Reader) -> Direction
    ensures { direction_at (kinds reader.old.rest.now) ≡ (result, kinds reader.new.rest.now) }
{
    if reader.begins_word(Reserved::Input) {
        reader.skip();
        return Direction::Input;
    }
    if reader.begins_word(Reserved::Output) {
        reader.skip();
        return Direction::Output;
    }
    Direction::Inner
}

/// What stands behind `signal`.
#[tactic(auto, using(crate::proofs::Seen::seen_map), unfolding(crate::specs::Reading::signals))]
pub fn signals<N: Blank + Drop>(alloc: Global, reader: &mut Reader, room: u32) -> Read<Simple<N>>
    requires { room < 2 ^ 16 }
    ensures { Reads seen_simple result (kinds reader.new.rest.now)
        (signals room (kinds reader.old.rest.now)) }
{
    let direction = direction(reader);
    let signals = separated(alloc, reader, room)?;
    Ok(Simple::Signals(Signals {
        direction,
        signals: tight(signals),
    }))
}

impl<N: Blank + Drop> Element for DeclaredComponent<N> {
    ghost Seen = { PlainComponent };

    ghost seen = { λ x. plain_component (bare_component x) };

    ghost reading = { component };

    #[tactic(auto, using(crate::proofs::Seen::lists), unfolding(crate::specs::Reading::component))]
    fn read(alloc: Global, reader: &mut Reader, room: u32) -> Read<DeclaredComponent<N>> {
        let name = reader.name(alloc)?;
        let dimensions = dimensions(alloc, reader, room)?;
        Ok(DeclaredComponent {
            name,
            meant: N::blank(),
            dimensions: tight(dimensions),
        })
    }
}

/// What stands behind `component`.
#[tactic(auto, using(crate::proofs::Seen::seen_map), unfolding(crate::specs::Reading::components))]
pub fn components<N: Blank + Drop>(alloc: Global, reader: &mut Reader, room: u32) -> Read<Simple<N>>
    requires { room < 2 ^ 16 }
    ensures { Reads seen_simple result (kinds reader.new.rest.now)
        (components room (kinds reader.old.rest.now)) }
{
    let mut ahead = *reader;
    let name = ahead.name(alloc)?;
    if ahead.begins(Symbol::Equal) {
        ahead.skip();
        let value = ahead.expression(alloc, room)?;
        *reader = ahead;
        return Ok(Simple::Components(Components::Created(name, N::blank(), value)));
    }
    let components = separated(alloc, reader, room)?;
    Ok(Simple::Components(Components::Declared(tight(components))))
}
