ghost use Rattle.std.specs.Prelude.{◌≡◌, ◌<◌, ℕ, Some, None, IfOk, IfSome, if◌then◌else◌};
ghost use Rattle.cir_lc.specs.Number.{value_of};
ghost use Rattle.cir_lc.specs.Terms.{IsWithin};
ghost use Rattle.cir_lc.specs.Normal.{IsQuadWithin};
ghost use Rattle.cir_meaning.specs.Values as M;
ghost use Rattle.cir_values.specs.Meant.{meant, meant_option, meant_lazy, meant_side};
ghost use Rattle.cir_values.specs.Meant.{strict_result, IsValueWithin};

use crate::value::{Value, difference, negative, product, sum, times_known, zero};
use cir_lc::{Quad, copy_of};
use gold_field::{Gold, Lc, Op1, Op2, binary, unary};
use std::alloc::{AllocError, Global};

/// An operator of both operands, by what it does to values.
#[derive(Clone, Copy)]
enum Strict {
    Sum,
    Difference,
    Product,
    Quotient,
    Power,
    /// `\` or `%`
    Division(Op2),
    /// Any other, which is of numbers alone.
    Plain(Op2),
}

fn strict_of(op: Op2) -> Strict
    ensures { (x y : M.Value) → strict_result result x y ≡ M.result_of op x y }
{
    match op {
        Op2::Add => Strict::Sum,
        Op2::Sub => Strict::Difference,
        Op2::Mul => Strict::Product,
        Op2::Div => Strict::Quotient,
        Op2::Pow => Strict::Power,
        Op2::Quot => Strict::Division(Op2::Quot),
        Op2::Rem => Strict::Division(Op2::Rem),
        Op2::Shl => Strict::Plain(Op2::Shl),
        Op2::Shr => Strict::Plain(Op2::Shr),
        Op2::And => Strict::Plain(Op2::And),
        Op2::Xor => Strict::Plain(Op2::Xor),
        Op2::Or => Strict::Plain(Op2::Or),
        Op2::Lt => Strict::Plain(Op2::Lt),
        Op2::Le => Strict::Plain(Op2::Le),
        Op2::Gt => Strict::Plain(Op2::Gt),
        Op2::Ge => Strict::Plain(Op2::Ge),
        Op2::Eq => Strict::Plain(Op2::Eq),
        Op2::Ne => Strict::Plain(Op2::Ne),
    }
}

/// The value of a binary operator. There is none where its divisor is a known 0.
pub fn result_of(alloc: Global, op: Op2, x: Value, y: Value) -> Result<Option<Value>, AllocError>
    ensures value { IfOk result (λ v. meant_option v ≡ M.result_of op (meant x) (meant y)) }
    ensures within { IfOk result (λ v. (n : ℕ) → 0 < n → IsValueWithin n x → IsValueWithin n y
        → IfSome v (IsValueWithin n)) }
{
    let strict = strict_of(op);
    let v = applied(alloc, strict, x, y)?;
    Ok(v)
}

fn applied(alloc: Global, op: Strict, x: Value, y: Value) -> Result<Option<Value>, AllocError>
    ensures value { IfOk result (λ v. meant_option v ≡ strict_result op (meant x) (meant y)) }
    ensures within { IfOk result (λ v. (n : ℕ) → 0 < n → IsValueWithin n x → IsValueWithin n y
        → IfSome v (IsValueWithin n)) }
{
    match op {
        Strict::Sum => {
            let v = sum(alloc, x, y)?;
            Ok(Some(v))
        }
        Strict::Difference => {
            let v = difference(alloc, x, y)?;
            Ok(Some(v))
        }
        Strict::Product => {
            let v = product(alloc, x, y)?;
            Ok(Some(v))
        }
        Strict::Quotient => {
            let v = divided(alloc, x, y)?;
            Ok(v)
        }
        Strict::Power => {
            let v = power(alloc, x, y)?;
            Ok(Some(v))
        }
        Strict::Division(op) => Ok(divided_numbers(op, &x, &y)),
        Strict::Plain(op) => Ok(Some(numbers(op, &x, &y))),
    }
}

/// A quotient by a known number is the product with its inverse.
fn divided(alloc: Global, x: Value, y: Value) -> Result<Option<Value>, AllocError>
    ensures value { IfOk result (λ v. meant_option v
        ≡ M.divided (meant y) (M.quotient_of (meant x) (meant y))) }
    ensures within { IfOk result (λ v. (n : ℕ) → 0 < n → IsValueWithin n x
        → IfSome v (IsValueWithin n)) }
{
    match y {
        Value::Known(k) => match k.inv() {
            None => Ok(None),
            Some(inverse) => {
                let v = times_known(alloc, x, inverse)?;
                Ok(Some(v))
            }
        },
        Value::Linear(_) | Value::Quadratic(_) | Value::Opaque => Ok(Some(Value::Opaque)),
    }
}

/// The operators `\` and `%`.
fn divided_numbers(op: Op2, x: &Value, y: &Value) -> Option<Value>
    ensures value { meant_option result
        ≡ M.divided (meant y.now) (M.known_of op (meant x.now) (meant y.now)) }
    ensures within { (n : ℕ) → IfSome result (IsValueWithin n) }
{
    if is_zero(y) {
        None
    } else {
        Some(numbers(op, x, y))
    }
}

/// Whether it is the known number 0.
fn is_zero(y: &Value) -> bool
    ensures { (v : M.Value) → M.divided (meant y.now) v ≡ (if result then None else Some v) }
{
    match y {
        Value::Known(k) => *k == Gold::ZERO,
        Value::Linear(_) | Value::Quadratic(_) | Value::Opaque => false,
    }
}

/// An operator on numbers alone.
fn numbers(op: Op2, x: &Value, y: &Value) -> Value
    ensures value { meant result ≡ M.known_of op (meant x.now) (meant y.now) }
    ensures within { (n : ℕ) → IsValueWithin n result }
{
    match x {
        Value::Known(j) => numbers_with(op, *j, y),
        Value::Linear(_) | Value::Quadratic(_) | Value::Opaque => Value::Opaque,
    }
}

fn numbers_with(op: Op2, j: Gold, y: &Value) -> Value
    ensures value { meant result ≡ M.known_of op (M.Known j) (meant y.now) }
    ensures within { (n : ℕ) → IsValueWithin n result }
{
    match y {
        Value::Known(k) => known(binary(op, j, *k)),
        Value::Linear(_) | Value::Quadratic(_) | Value::Opaque => Value::Opaque,
    }
}

fn known(n: Option<Gold>) -> Value
    ensures value { meant result ≡ M.known_or_opaque n }
    ensures within { (n : ℕ) → IsValueWithin n result }
{
    match n {
        Some(n) => Value::Known(n),
        None => Value::Opaque,
    }
}

/// A power by a known number.
fn power(alloc: Global, x: Value, y: Value) -> Result<Value, AllocError>
    ensures value { IfOk result (λ v. meant v ≡ M.power_of (meant x) (meant y)) }
    ensures within { IfOk result (λ v. (n : ℕ) → IsValueWithin n x → IsValueWithin n v) }
{
    match y {
        Value::Known(e) => {
            let v = power_by(alloc, x, e)?;
            Ok(v)
        }
        Value::Linear(_) | Value::Quadratic(_) | Value::Opaque => Ok(Value::Opaque),
    }
}

/// The powers 0, 1 and 2 of a value that isn't opaque are 1, the value, and the value times itself.
fn power_by(alloc: Global, x: Value, e: Gold) -> Result<Value, AllocError>
    ensures value { IfOk result (λ v. meant v ≡ M.power_by (meant x) e) }
    ensures within { IfOk result (λ v. (n : ℕ) → IsValueWithin n x → IsValueWithin n v) }
{
    match x {
        Value::Known(j) => Ok(known_power(j, e)),
        Value::Linear(f) => {
            let v = linear_power(alloc, f, e)?;
            Ok(v)
        }
        Value::Quadratic(q) => Ok(quadratic_power(q, e)),
        Value::Opaque => Ok(Value::Opaque),
    }
}

fn known_power(j: Gold, e: Gold) -> Value
    ensures value { meant result ≡ M.power_by (M.Known j) e }
    ensures within { (n : ℕ) → IsValueWithin n result }
{
    match e.get() {
        0 => Value::Known(Gold::ONE),
        1 => Value::Known(j),
        2 => Value::Known(j.mul(j)),
        _ => known(binary(Op2::Pow, j, e)),
    }
}

fn linear_power(alloc: Global, f: Lc, e: Gold) -> Result<Value, AllocError>
    ensures value { IfOk result (λ v. meant v ≡ M.power_by (M.Linear (value_of f)) e) }
    ensures within { IfOk result (λ v. (n : ℕ) → IsWithin n f → IsValueWithin n v) }
{
    match e.get() {
        0 => Ok(Value::Known(Gold::ONE)),
        1 => Ok(Value::Linear(f)),
        2 => {
            let g = copy_of(alloc, &f)?;
            let c = zero(alloc);
            Ok(Value::Quadratic(Quad { a: f, b: g, c }))
        }
        _ => Ok(Value::Opaque),
    }
}

fn quadratic_power(q: Quad, e: Gold) -> Value
    ensures value { meant result
        ≡ M.power_by (M.Quadratic (value_of q.a) (value_of q.b) (value_of q.c)) e }
    ensures within { (n : ℕ) → IsQuadWithin n q → IsValueWithin n result }
{
    match e.get() {
        0 => Value::Known(Gold::ONE),
        1 => Value::Quadratic(q),
        _ => Value::Opaque,
    }
}

/// The value of an operator of one operand.
pub fn unary_result(alloc: Global, op: Op1, x: Value) -> Result<Value, AllocError>
    ensures value { IfOk result (λ v. meant v ≡ M.unary_result op (meant x)) }
    ensures within { IfOk result (λ v. (n : ℕ) → 0 < n → IsValueWithin n x → IsValueWithin n v) }
{
    match op {
        Op1::Neg => {
            let v = negative(alloc, x)?;
            Ok(v)
        }
        Op1::Not | Op1::Compl => Ok(number_alone(op, x)),
    }
}

fn number_alone(op: Op1, x: Value) -> Value
    ensures { meant result ≡ M.known_unary op (meant x) }
{
    match x {
        Value::Known(k) => Value::Known(unary(op, k)),
        Value::Linear(_) | Value::Quadratic(_) | Value::Opaque => Value::Opaque,
    }
}

/// What is known of a lazy operator by its left side: the answer, that the right side decides, or
/// that the right side is shaded.
#[derive(Clone, Copy)]
pub enum Lazy {
    Decided(Gold),
    Right,
    Shaded,
}

/// What the left side of `&&` tells.
pub fn and_left(x: &Value) -> Lazy
    ensures { meant_lazy result ≡ M.and_left (meant x.now) }
{
    match x {
        Value::Known(k) => {
            if *k == Gold::ZERO {
                Lazy::Decided(Gold::ZERO)
            } else {
                Lazy::Right
            }
        }
        Value::Linear(_) | Value::Quadratic(_) | Value::Opaque => Lazy::Shaded,
    }
}

/// What the left side of `||` tells.
pub fn or_left(x: &Value) -> Lazy
    ensures { meant_lazy result ≡ M.or_left (meant x.now) }
{
    match x {
        Value::Known(k) => {
            if *k == Gold::ZERO {
                Lazy::Right
            } else {
                Lazy::Decided(Gold::ONE)
            }
        }
        Value::Linear(_) | Value::Quadratic(_) | Value::Opaque => Lazy::Shaded,
    }
}

/// The truth of a right side that decides.
pub fn truth_of(x: &Value) -> Value
    ensures value { meant result ≡ M.truth_of (meant x.now) }
    ensures within { (n : ℕ) → IsValueWithin n result }
{
    match x {
        Value::Known(k) => {
            if *k == Gold::ZERO {
                Value::Known(Gold::ZERO)
            } else {
                Value::Known(Gold::ONE)
            }
        }
        Value::Linear(_) | Value::Quadratic(_) | Value::Opaque => Value::Opaque,
    }
}

/// Which side of `?:` a condition chooses; both are shaded where it isn't known.
#[derive(Clone, Copy, PartialEq, Eq)]
pub enum Side {
    First,
    Second,
    Both,
}

/// The side that a condition chooses.
pub fn side_of(x: &Value) -> Side
    ensures { meant_side result ≡ M.side_of (meant x.now) }
{
    match x {
        Value::Known(k) => {
            if *k == Gold::ZERO {
                Side::Second
            } else {
                Side::First
            }
        }
        Value::Linear(_) | Value::Quadratic(_) | Value::Opaque => Side::Both,
    }
}
