//! Assignments and the other simple statements, as functions that read on.
ghost use Rattle.std.specs.Prelude.{◌≡◌, ◌<◌, ◌^◌};
ghost use Rattle.cir_ast.specs.Tree.{place_accessors};
ghost use Rattle.cir_ast.specs.Plain.{plain_accessors};
ghost use Rattle.cir_expression.specs.Answers.{kinds, Reads, seen};
ghost use Rattle.cir_simple_statement.specs.Reading.{compound_at, assignment, assign};
ghost use Rattle.cir_simple_statement.specs.Reading.{equation, simple};
ghost use Rattle.cir_simple_statement.specs.Answers.{seen_assign, seen_simple};

use crate::declarations::{components, signals};
use crate::lists::{Read, separated};
use crate::targets::{grouped, right_arrow, source, target};
use cir_ast::Blank;
use cir_ast::marked::{Assign, Compound, Expr, Place, Simple, Source, Target, Vars};
use cir_expression::{Reader, Stop, tight};
use cir_token::{Reserved, Symbol, TokenKind};
use std::alloc::Global;

// The operation of the symbol at the front, such as `+=`.
fn compound(reader: &Reader) -> Option<Compound>
    ensures { result ≡ compound_at (kinds reader.now.rest.now) }
{
    match reader.rest.first() {
        Some(token) => match &token.kind {
            TokenKind::Symbol(symbol) => match symbol {
                Symbol::StarStarEqual => Some(Compound::Pow),
                Symbol::ShiftLeftEqual => Some(Compound::ShiftLeft),
                Symbol::ShiftRightEqual => Some(Compound::ShiftRight),
                Symbol::PlusEqual => Some(Compound::Add),
                Symbol::MinusEqual => Some(Compound::Sub),
                Symbol::StarEqual => Some(Compound::Mul),
                Symbol::SlashEqual => Some(Compound::Div),
                Symbol::BackslashEqual => Some(Compound::Quotient),
                Symbol::PercentEqual => Some(Compound::Remainder),
                Symbol::AmpersandEqual => Some(Compound::And),
                Symbol::BarEqual => Some(Compound::Or),
                Symbol::CaretEqual => Some(Compound::Xor),
                _ => None,
            },
            _ => None,
        },
        None => None,
    }
}

// What stands behind a written place.
#[tactic(auto, unfolding(crate::specs::Reading::assignment))]
fn assignment<N: Blank + Drop>(
    alloc: Global,
    reader: &mut Reader,
    room: u32,
    place: Place<N>,
) -> Read<Assign<N>>
    requires { room < 2 ^ 16 }
    ensures { Reads seen_assign result (kinds reader.new.rest.now)
        (assignment room place.name (plain_accessors (place_accessors place))
        (kinds reader.old.rest.now)) }
{
    if reader.begins(Symbol::Equal) {
        reader.skip();
        let value = reader.expression(alloc, room)?;
        return Ok(Assign::Set(place, value));
    }
    if let Some(arrow) = reader.arrow() {
        reader.skip();
        let value = reader.expression(alloc, room)?;
        return Ok(Assign::Left(place, arrow, value));
    }
    if reader.begins(Symbol::PlusPlus) {
        reader.skip();
        return Ok(Assign::Increment(place));
    }
    if reader.begins(Symbol::MinusMinus) {
        reader.skip();
        return Ok(Assign::Decrement(place));
    }
    let Some(op) = compound(reader) else {
        return Err(Stop::NoTree);
    };
    reader.skip();
    let value = reader.expression(alloc, room)?;
    Ok(Assign::Compound(place, op, value))
}

/// An assignment to a place.
#[tactic(auto, unfolding(crate::specs::Reading::assign))]
pub fn assign<N: Blank + Drop>(alloc: Global, reader: &mut Reader, room: u32) -> Read<Assign<N>>
    requires { room < 2 ^ 16 }
    ensures { Reads seen_assign result (kinds reader.new.rest.now)
        (assign room (kinds reader.old.rest.now)) }
{
    let place = reader.place(alloc, room)?;
    assignment(alloc, reader, room, place)
}

/// What stands behind the first expression of a statement.
#[tactic(auto, using(crate::proofs::Seen::alone), unfolding(crate::specs::Reading::equation))]
pub fn equation<N: Blank + Drop>(
    alloc: Global,
    reader: &mut Reader,
    room: u32,
    left: Expr<N>,
) -> Read<Simple<N>>
    requires { room < 2 ^ 16 }
    ensures { Reads seen_simple result (kinds reader.new.rest.now)
        (equation room (seen left) (kinds reader.old.rest.now)) }
{
    if reader.begins(Symbol::Constrain) {
        reader.skip();
        let right = reader.expression(alloc, room)?;
        return Ok(Simple::Constrain(left, right));
    }
    let Some(arrow) = right_arrow(reader) else {
        return match left {
            Expr::Place(place) => {
                let assign = assignment(alloc, reader, room, place)?;
                Ok(Simple::Assign(assign))
            }
            Expr::Anonymous(component) => Ok(Simple::Anonymous(component)),
            _other => Err(Stop::NoTree),
        };
    };
    reader.skip();
    if reader.begins_underscore() || reader.begins(Symbol::OpenParenthesis) {
        let target = target(alloc, reader, room)?;
        return Ok(Simple::TargetRight(Source::One(left), arrow, target));
    }
    let place = reader.place(alloc, room)?;
    Ok(Simple::Right(left, arrow, place))
}

/// A simple statement, without its `;`.
#[tactic(auto, using(crate::proofs::Seen::vars), unfolding(crate::specs::Reading::simple))]
pub fn simple<N: Blank + Drop>(alloc: Global, reader: &mut Reader, room: u32) -> Read<Simple<N>>
    requires { room < 2 ^ 16 }
    ensures { Reads seen_simple result (kinds reader.new.rest.now)
        (simple room (kinds reader.old.rest.now)) }
{
    if reader.begins_word(Reserved::Var) {
        reader.skip();
        let variables = separated(alloc, reader, room)?;
        return Ok(Simple::Vars(Vars {
            variables: tight(variables),
        }));
    }
    if reader.begins_word(Reserved::Signal) {
        reader.skip();
        return signals(alloc, reader, room);
    }
    if reader.begins_word(Reserved::Component) {
        reader.skip();
        return components(alloc, reader, room);
    }
    if reader.begins_underscore() {
        reader.skip();
        let Some(arrow) = reader.arrow() else {
            return Err(Stop::NoTree);
        };
        reader.skip();
        let source = source(alloc, reader, room)?;
        return Ok(Simple::TargetLeft(Target::Discard, arrow, source));
    }
    if reader.begins(Symbol::OpenParenthesis) {
        reader.skip();
        return grouped(alloc, reader, room);
    }
    let left = reader.expression(alloc, room)?;
    equation(alloc, reader, room, left)
}
