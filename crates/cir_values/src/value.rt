ghost use Rattle.std.specs.Prelude.{◌≡◌, ◌<◌, [], ◌∷◌, ℕ, IfOk, IfSome};
ghost use Rattle.gold_field.specs.declared.gold.TheConstants.{P};
ghost use Rattle.cir_lc.specs.Number.{value_of, constant, signal, added, scaled, negated};
ghost use Rattle.cir_lc.specs.Terms.{IsWithin};
ghost use Rattle.cir_lc.specs.Normal.{IsQuadWithin};
ghost use Rattle.cir_meaning.specs.Values.{sum_of, negative_of, product_of, parts_of};
ghost use Rattle.cir_meaning.specs.Values.{Known as KnownValue, Linear as LinearValue};
ghost use Rattle.cir_meaning.specs.Values.{Quadratic as QuadraticValue};
ghost use Rattle.cir_values.specs.Meant.{meant, meant_parts, IsValueWithin};

use cir_lc::{Quad, add, add_multiple, copy_of, minus, scale};
use gold_field::{Gold, Lc, Term};
use std::alloc::{AllocError, Global};

/// The value of an expression: a number that is known, a linear combination of signals, a quadratic
/// form in them, or anything else.
#[derive(Drop)]
pub enum Value {
    Known(Gold),
    Linear(Lc),
    Quadratic(Quad),
    Opaque,
}

impl Value {
    ghost use Rattle.std.specs.Prelude.{◌≡◌, IfOk};
    ghost use Rattle.cir_meaning.specs.Values.{known_number as number_known};
    ghost use Rattle.cir_meaning.specs.Arrays.{is_known as is_number};
    ghost use Rattle.cir_values.specs.Meant.{meant as value_meant};

    /// The same value, with forms in memory of their own.
    pub fn copy(&self, alloc: Global) -> Result<Value, AllocError>
        ensures { IfOk result (λ v. v ≡ self.now) }
    {
        match self {
            Value::Known(k) => Ok(Value::Known(*k)),
            Value::Linear(f) => {
                let f = copy_of(alloc, f)?;
                Ok(Value::Linear(f))
            }
            Value::Quadratic(q) => {
                let q = quad_copy(alloc, q)?;
                Ok(Value::Quadratic(q))
            }
            Value::Opaque => Ok(Value::Opaque),
        }
    }

    /// The number, where it is known.
    pub fn known_number(&self) -> Option<u64>
        ensures { result ≡ number_known (value_meant self.now) }
    {
        match self {
            Value::Known(k) => Some(k.get()),
            Value::Linear(_) | Value::Quadratic(_) | Value::Opaque => None,
        }
    }

    /// Whether it is a number that doesn't depend on a signal.
    pub fn is_known(&self) -> bool
        ensures { result ≡ is_number (value_meant self.now) }
    {
        match self {
            Value::Known(_) => true,
            Value::Linear(_) | Value::Quadratic(_) | Value::Opaque => false,
        }
    }
}

fn quad_copy(alloc: Global, q: &Quad) -> Result<Quad, AllocError>
    ensures { IfOk result (λ r. r ≡ q.now) }
{
    let a = copy_of(alloc, &q.a)?;
    let b = copy_of(alloc, &q.b)?;
    let c = copy_of(alloc, &q.c)?;
    Ok(Quad { a, b, c })
}

/// The parts of a value `a * b + c`; an opaque value has none.
pub fn quad_of(alloc: Global, v: Value) -> Result<Option<Quad>, AllocError>
    ensures value { IfOk result (λ o. meant_parts o ≡ parts_of (meant v)) }
    ensures within { IfOk result (λ o. (n : ℕ) → 0 < n → IsValueWithin n v
        → IfSome o (IsQuadWithin n)) }
{
    match v {
        Value::Known(k) => {
            let c = constant_form(alloc, k)?;
            let a = zero(alloc);
            let b = zero(alloc);
            Ok(Some(Quad { a, b, c }))
        }
        Value::Linear(c) => {
            let a = zero(alloc);
            let b = zero(alloc);
            Ok(Some(Quad { a, b, c }))
        }
        Value::Quadratic(q) => Ok(Some(q)),
        Value::Opaque => Ok(None),
    }
}

/// The sum of two values.
pub fn sum(alloc: Global, x: Value, y: Value) -> Result<Value, AllocError>
    ensures value { IfOk result (λ v. meant v ≡ sum_of (meant x) (meant y)) }
    ensures within { IfOk result (λ v. (n : ℕ) → 0 < n → IsValueWithin n x → IsValueWithin n y
        → IsValueWithin n v) }
{
    match x {
        Value::Known(j) => known_sum(alloc, j, y),
        Value::Linear(f) => linear_sum(alloc, f, y),
        Value::Quadratic(q) => quadratic_sum(alloc, q, y),
        Value::Opaque => Ok(Value::Opaque),
    }
}

fn known_sum(alloc: Global, j: Gold, y: Value) -> Result<Value, AllocError>
    ensures value { IfOk result (λ v. meant v ≡ sum_of (KnownValue j) (meant y)) }
    ensures within { IfOk result (λ v. (n : ℕ) → 0 < n → j < P → IsValueWithin n y
        → IsValueWithin n v) }
{
    match y {
        Value::Known(k) => Ok(Value::Known(j.add(k))),
        Value::Linear(g) => {
            let f = constant_form(alloc, j)?;
            let h = add(alloc, &f, &g)?;
            Ok(Value::Linear(h))
        }
        Value::Quadratic(q) => {
            let Quad { a, b, c } = q;
            let f = constant_form(alloc, j)?;
            let c = add(alloc, &f, &c)?;
            Ok(Value::Quadratic(Quad { a, b, c }))
        }
        Value::Opaque => Ok(Value::Opaque),
    }
}

fn linear_sum(alloc: Global, f: Lc, y: Value) -> Result<Value, AllocError>
    ensures value { IfOk result (λ v. meant v ≡ sum_of (LinearValue (value_of f)) (meant y)) }
    ensures within { IfOk result (λ v. (n : ℕ) → 0 < n → IsWithin n f → IsValueWithin n y
        → IsValueWithin n v) }
{
    match y {
        Value::Known(k) => {
            let g = constant_form(alloc, k)?;
            let h = add(alloc, &f, &g)?;
            Ok(Value::Linear(h))
        }
        Value::Linear(g) => {
            let h = add(alloc, &f, &g)?;
            Ok(Value::Linear(h))
        }
        Value::Quadratic(q) => {
            let Quad { a, b, c } = q;
            let c = add_to(alloc, f, &c)?;
            Ok(Value::Quadratic(Quad { a, b, c }))
        }
        Value::Opaque => Ok(Value::Opaque),
    }
}

fn quadratic_sum(alloc: Global, q: Quad, y: Value) -> Result<Value, AllocError>
    ensures value { IfOk result
        (λ v. meant v ≡ sum_of (QuadraticValue (value_of q.a) (value_of q.b) (value_of q.c))
        (meant y)) }
    ensures within { IfOk result (λ v. (n : ℕ) → 0 < n → IsQuadWithin n q → IsValueWithin n y
        → IsValueWithin n v) }
{
    let Quad { a, b, c } = q;
    match y {
        Value::Known(k) => {
            let g = constant_form(alloc, k)?;
            let c = add(alloc, &c, &g)?;
            Ok(Value::Quadratic(Quad { a, b, c }))
        }
        Value::Linear(g) => {
            let c = add_to(alloc, g, &c)?;
            Ok(Value::Quadratic(Quad { a, b, c }))
        }
        Value::Quadratic(_) | Value::Opaque => Ok(Value::Opaque),
    }
}

/// `-x`.
pub fn negative(alloc: Global, x: Value) -> Result<Value, AllocError>
    ensures value { IfOk result (λ v. meant v ≡ negative_of (meant x)) }
    ensures within { IfOk result (λ v. (n : ℕ) → 0 < n → IsValueWithin n x → IsValueWithin n v) }
{
    match x {
        Value::Known(k) => Ok(Value::Known(k.neg())),
        Value::Linear(f) => {
            let g = minus(alloc, &f)?;
            Ok(Value::Linear(g))
        }
        Value::Quadratic(q) => {
            let Quad { a, b, c } = q;
            let a = minus(alloc, &a)?;
            let c = minus(alloc, &c)?;
            Ok(Value::Quadratic(Quad { a, b, c }))
        }
        Value::Opaque => Ok(Value::Opaque),
    }
}

/// `x - y`.
pub fn difference(alloc: Global, x: Value, y: Value) -> Result<Value, AllocError>
    ensures value { IfOk result (λ v. meant v ≡ sum_of (meant x) (negative_of (meant y))) }
    ensures within { IfOk result (λ v. (n : ℕ) → 0 < n → IsValueWithin n x → IsValueWithin n y
        → IsValueWithin n v) }
{
    match x {
        Value::Linear(f) => linear_difference(alloc, f, y),
        Value::Known(j) => {
            let minus_y = negative(alloc, y)?;
            let v = known_sum(alloc, j, minus_y)?;
            Ok(v)
        }
        Value::Quadratic(q) => {
            let minus_y = negative(alloc, y)?;
            let v = quadratic_sum(alloc, q, minus_y)?;
            Ok(v)
        }
        Value::Opaque => Ok(Value::Opaque),
    }
}

fn linear_difference(alloc: Global, f: Lc, y: Value) -> Result<Value, AllocError>
    ensures value { IfOk result
        (λ v. meant v ≡ sum_of (LinearValue (value_of f)) (negative_of (meant y))) }
    ensures within { IfOk result (λ v. (n : ℕ) → 0 < n → IsWithin n f → IsValueWithin n y
        → IsValueWithin n v) }
{
    match y {
        Value::Known(k) => linear_sum(alloc, f, Value::Known(k.neg())),
        Value::Linear(g) => {
            let h = less(alloc, f, &g)?;
            Ok(Value::Linear(h))
        }
        Value::Quadratic(q) => {
            let Quad { a, b, c } = q;
            let a = minus(alloc, &a)?;
            let c = less(alloc, f, &c)?;
            Ok(Value::Quadratic(Quad { a, b, c }))
        }
        Value::Opaque => Ok(Value::Opaque),
    }
}

/// `f - g`.
fn less(alloc: Global, f: Lc, g: &Lc) -> Result<Lc, AllocError>
    ensures value { IfOk result
        (λ h. value_of h ≡ added (value_of f) (negated (value_of g.now))) }
    ensures within { IfOk result (λ h. (n : ℕ) → IsWithin n f → IsWithin n g.now
        → IsWithin n h) }
{
    match g.as_slice() {
        [] => Ok(f),
        _ => {
            let h = add_multiple(alloc, &f, g, Gold::ONE.neg())?;
            Ok(h)
        }
    }
}

/// `f + g`.
fn add_to(alloc: Global, f: Lc, g: &Lc) -> Result<Lc, AllocError>
    ensures value { IfOk result (λ h. value_of h ≡ added (value_of f) (value_of g.now)) }
    ensures within { IfOk result (λ h. (n : ℕ) → IsWithin n f → IsWithin n g.now
        → IsWithin n h) }
{
    match g.as_slice() {
        [] => Ok(f),
        _ => {
            let h = add(alloc, &f, g)?;
            Ok(h)
        }
    }
}

/// `x * y`, which is quadratic of two linear values, and opaque where the degree would be higher.
pub fn product(alloc: Global, x: Value, y: Value) -> Result<Value, AllocError>
    ensures value { IfOk result (λ v. meant v ≡ product_of (meant x) (meant y)) }
    ensures within { IfOk result (λ v. (n : ℕ) → 0 < n → IsValueWithin n x → IsValueWithin n y
        → IsValueWithin n v) }
{
    match x {
        Value::Known(j) => known_product(alloc, j, y),
        Value::Linear(f) => linear_product(alloc, f, y),
        Value::Quadratic(q) => quadratic_product(alloc, q, y),
        Value::Opaque => Ok(Value::Opaque),
    }
}

fn known_product(alloc: Global, k: Gold, y: Value) -> Result<Value, AllocError>
    ensures value { IfOk result (λ v. meant v ≡ product_of (KnownValue k) (meant y)) }
    ensures within { IfOk result (λ v. (n : ℕ) → 0 < n → IsValueWithin n y → IsValueWithin n v) }
{
    match y {
        Value::Known(j) => Ok(Value::Known(k.mul(j))),
        Value::Linear(f) => {
            let g = scale(alloc, &f, k)?;
            Ok(Value::Linear(g))
        }
        Value::Quadratic(q) => {
            let scaled = scaled_quad(alloc, q, k)?;
            Ok(Value::Quadratic(scaled))
        }
        Value::Opaque => Ok(Value::Opaque),
    }
}

/// `x * k`
pub fn times_known(alloc: Global, x: Value, k: Gold) -> Result<Value, AllocError>
    ensures value { IfOk result (λ v. meant v ≡ product_of (meant x) (KnownValue k)) }
    ensures within { IfOk result (λ v. (n : ℕ) → IsValueWithin n x → IsValueWithin n v) }
{
    match x {
        Value::Known(j) => Ok(Value::Known(j.mul(k))),
        Value::Linear(f) => {
            let g = scale(alloc, &f, k)?;
            Ok(Value::Linear(g))
        }
        Value::Quadratic(q) => {
            let scaled = scaled_quad(alloc, q, k)?;
            Ok(Value::Quadratic(scaled))
        }
        Value::Opaque => Ok(Value::Opaque),
    }
}

fn linear_product(alloc: Global, f: Lc, y: Value) -> Result<Value, AllocError>
    ensures value { IfOk result (λ v. meant v ≡ product_of (LinearValue (value_of f)) (meant y)) }
    ensures within { IfOk result (λ v. (n : ℕ) → 0 < n → IsWithin n f → IsValueWithin n y
        → IsValueWithin n v) }
{
    match y {
        Value::Known(k) => {
            let g = scale(alloc, &f, k)?;
            Ok(Value::Linear(g))
        }
        Value::Linear(g) => {
            let c = zero(alloc);
            Ok(Value::Quadratic(Quad { a: f, b: g, c }))
        }
        Value::Quadratic(_) | Value::Opaque => Ok(Value::Opaque),
    }
}

fn quadratic_product(alloc: Global, q: Quad, y: Value) -> Result<Value, AllocError>
    ensures value { IfOk result
        (λ v. meant v ≡ product_of (QuadraticValue (value_of q.a) (value_of q.b) (value_of q.c))
        (meant y)) }
    ensures within { IfOk result (λ v. (n : ℕ) → 0 < n → IsQuadWithin n q → IsValueWithin n y
        → IsValueWithin n v) }
{
    match y {
        Value::Known(k) => {
            let scaled = scaled_quad(alloc, q, k)?;
            Ok(Value::Quadratic(scaled))
        }
        Value::Linear(_) | Value::Quadratic(_) | Value::Opaque => Ok(Value::Opaque),
    }
}

// A factor multiplies a and c.
fn scaled_quad(alloc: Global, q: Quad, k: Gold) -> Result<Quad, AllocError>
    ensures a { IfOk result (λ r. value_of r.a ≡ scaled k (value_of q.a)) }
    ensures b { IfOk result (λ r. value_of r.b ≡ value_of q.b) }
    ensures c { IfOk result (λ r. value_of r.c ≡ scaled k (value_of q.c)) }
    ensures within { IfOk result (λ r. (n : ℕ) → IsQuadWithin n q → IsQuadWithin n r) }
{
    let Quad { a, b, c } = q;
    let a = scale(alloc, &a, k)?;
    let c = scale(alloc, &c, k)?;
    Ok(Quad { a, b, c })
}

/// No term.
pub fn zero(alloc: Global) -> Lc
    ensures value { value_of result ≡ constant 0 }
    ensures within { (n : ℕ) → IsWithin n result }
{
    Lc::of(Vec::new(alloc))
}

/// The number, as a linear combination.
pub fn constant_form(alloc: Global, k: Gold) -> Result<Lc, AllocError>
    ensures value { IfOk result (λ f. value_of f ≡ constant k) }
    ensures within { IfOk result (λ f. (n : ℕ) → 0 < n → IsWithin n f) }
{
    if k.get() == 0 {
        Ok(zero(alloc))
    } else {
        let f = single(alloc, 0, k)?;
        Ok(f)
    }
}

/// One term.
fn single(alloc: Global, signal: u32, coef: Gold) -> Result<Lc, AllocError>
    requires { 0 < coef }
    ensures { IfOk result (λ f. f ≡ record { signal = signal; coef = coef } ∷ []) }
{
    let mut terms = Vec::with_capacity(alloc, 1)?;
    terms.push(Term { signal, coef })?;
    Ok(Lc::of(terms))
}

/// A signal alone.
pub fn signal_form(alloc: Global, number: u32) -> Result<Lc, AllocError>
    ensures value { IfOk result (λ f. value_of f ≡ signal number) }
    ensures within { IfOk result (λ f. (n : ℕ) → number < n → IsWithin n f) }
{
    let f = single(alloc, number, Gold::ONE)?;
    Ok(f)
}
