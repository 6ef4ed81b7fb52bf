//! Operators, by what their operands are.
ghost use Rattle.std.specs.Prelude.{◌≡◌, Bool};
ghost use Rattle.cir_values.specs.Meant.{meant, meant_lazy, meant_side};
ghost use Rattle.cir_meaning.specs.Values as M;
ghost use Rattle.cir_meaning.specs.Operators as O;
ghost use Rattle.cir_arrays.specs.Stopped.{Gives};
ghost use Rattle.cir_evaluate.specs.Within.{where_at};
ghost use Rattle.cir_evaluate.specs.Parts.{look_shading, operator_by};

use crate::context::Here;
use cir_arrays::Fault;
use cir_ast::Kind;
use cir_ast::program::{Binary, Compound, Unary};
use cir_values::{Lazy, Side, Value, and_left, or_left, result_of, side_of, truth_of};
use gold_field::{Op1, Op2};

/// An operator of one operand.
pub fn op_of(op: Unary) -> Op1
    ensures { result ≡ O.unary_of op }
{
    match op {
        Unary::Negate => Op1::Neg,
        Unary::Not => Op1::Not,
        Unary::Complement => Op1::Compl,
    }
}

/// An operator of both operands, or one whose left side tells what becomes of the right one.
#[derive(Clone, Copy)]
pub enum Operator {
    Strict(Op2),
    And,
    Or,
}

/// An operator of two operands.
pub fn operator_of(op: Binary) -> Operator
    ensures { operator_by result ≡ O.operator_of op }
{
    match op {
        Binary::Pow => Operator::Strict(Op2::Pow),
        Binary::Mul => Operator::Strict(Op2::Mul),
        Binary::Div => Operator::Strict(Op2::Div),
        Binary::Quotient => Operator::Strict(Op2::Quot),
        Binary::Remainder => Operator::Strict(Op2::Rem),
        Binary::Add => Operator::Strict(Op2::Add),
        Binary::Sub => Operator::Strict(Op2::Sub),
        Binary::ShiftLeft => Operator::Strict(Op2::Shl),
        Binary::ShiftRight => Operator::Strict(Op2::Shr),
        Binary::BitAnd => Operator::Strict(Op2::And),
        Binary::BitXor => Operator::Strict(Op2::Xor),
        Binary::BitOr => Operator::Strict(Op2::Or),
        Binary::Equal => Operator::Strict(Op2::Eq),
        Binary::NotEqual => Operator::Strict(Op2::Ne),
        Binary::Less => Operator::Strict(Op2::Lt),
        Binary::LessEqual => Operator::Strict(Op2::Le),
        Binary::Greater => Operator::Strict(Op2::Gt),
        Binary::GreaterEqual => Operator::Strict(Op2::Ge),
        Binary::And => Operator::And,
        Binary::Or => Operator::Or,
    }
}

/// The operator of a symbol such as `+=`.
pub fn compound_operator(op: Compound) -> Op2
    ensures { O.operator_of (O.compound_of op) ≡ O.Strict result }
{
    match op {
        Compound::Pow => Op2::Pow,
        Compound::ShiftLeft => Op2::Shl,
        Compound::ShiftRight => Op2::Shr,
        Compound::Add => Op2::Add,
        Compound::Sub => Op2::Sub,
        Compound::Mul => Op2::Mul,
        Compound::Div => Op2::Div,
        Compound::Quotient => Op2::Quot,
        Compound::Remainder => Op2::Rem,
        Compound::And => Op2::And,
        Compound::Or => Op2::Or,
        Compound::Xor => Op2::Xor,
    }
}

/// How an operand is looked at: not at all, as the operator itself, or shaded.
#[derive(Clone, Copy, PartialEq, Eq)]
pub enum Look {
    Skipped,
    Plain,
    Dark,
}

/// How the right side is looked at behind a left side.
pub fn right_look(op: Binary, x: &Value) -> Look
    ensures { (shaded : Bool) → look_shading result shaded
        ≡ O.shading (O.left_tells (O.operator_of op) (meant x.now)) shaded }
{
    match operator_of(op) {
        Operator::Strict(_) => Look::Plain,
        Operator::And => look_of(and_left(x)),
        Operator::Or => look_of(or_left(x)),
    }
}

fn look_of(left: Lazy) -> Look
    ensures { (shaded : Bool) → look_shading result shaded ≡ O.shading (meant_lazy left) shaded }
{
    match left {
        Lazy::Decided(_) => Look::Skipped,
        Lazy::Right => Look::Plain,
        Lazy::Shaded => Look::Dark,
    }
}

/// How the operands of `?:` are looked at.
pub fn side_looks(side: Side) -> (Look, Look)
    ensures first { (shaded : Bool) → look_shading result.0 shaded
        ≡ O.first_shading (meant_side side) shaded }
    ensures second { (shaded : Bool) → look_shading result.1 shaded
        ≡ O.second_shading (meant_side side) shaded }
{
    match side {
        Side::First => (Look::Plain, Look::Skipped),
        Side::Second => (Look::Skipped, Look::Plain),
        Side::Both => (Look::Dark, Look::Dark),
    }
}

/// The value of an operator at operands that are looked at so.
pub fn applied<C>(here: &Here<C>, op: Binary, x: Value, y: Value) -> Result<Value, Fault>
    ensures { Gives meant result (O.applied (where_at here.now) here.now.shaded (O.operator_of op)
        (meant x) (meant y)) }
{
    match operator_of(op) {
        Operator::Strict(op) => strict(here, op, x, y),
        Operator::And => Ok(lazy_value(and_left(&x), &y)),
        Operator::Or => Ok(lazy_value(or_left(&x), &y)),
    }
}

fn lazy_value(left: Lazy, y: &Value) -> Value
    ensures { meant result ≡ M.lazy_result (meant_lazy left) (meant y.now) }
{
    match left {
        Lazy::Decided(n) => Value::Known(n),
        Lazy::Right => truth_of(y),
        Lazy::Shaded => Value::Opaque,
    }
}

/// What a condition tells of the operands of `?:`.
pub fn side_told(x: Value) -> Side
    ensures { meant_side result ≡ M.side_of (meant x) }
{
    side_of(&x)
}

/// What an index tells: its number, if it is known.
pub fn number_told(x: Value) -> Option<u64>
    ensures { result ≡ M.known_number (meant x) }
{
    x.known_number()
}

/// The value of `?:`.
pub fn chosen(side: Side, y: Value, z: Value) -> Value
    ensures { meant result ≡ M.chosen (meant_side side) (meant y) (meant z) }
{
    match side {
        Side::First => y,
        Side::Second => z,
        Side::Both => Value::Opaque,
    }
}

/// The value of an operator of both operands. A known divisor 0 is refused, but in a shaded
/// expression it is left to the run.
pub fn strict<C>(here: &Here<C>, op: Op2, x: Value, y: Value) -> Result<Value, Fault>
    ensures { Gives meant result (O.divided_at (where_at here.now) here.now.shaded
        (M.result_of op (meant x) (meant y))) }
{
    match result_of(here.alloc(), op, x, y)? {
        Some(v) => Ok(v),
        None if here.shaded => Ok(Value::Opaque),
        None => Err(here.refused(Kind::ZeroDivisor)),
    }
}
