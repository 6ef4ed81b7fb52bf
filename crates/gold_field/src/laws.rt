//! Laws of the field, for proofs that cite a call: each function does nothing, and its contract is
//! the law.

ghost use Rattle.std.specs.Prelude.{◌≡◌, ◌≢◌, ℕ, ◌+◌, ◌-◌, ◌*◌, ◌%◌, ◌^◌, ◌<◌, ◌≤◌, ◌⊎◌, Some};
ghost use Rattle.gold_field.specs.declared.operators.Op1.{Op1};
ghost use Rattle.gold_field.specs.declared.operators.Op2.{Op2};
ghost use Rattle.gold_field.specs.Operators.{HALF, binary_of, unary_of};
ghost use Rattle.gold_field.specs.Prime.{IsPrime};

use crate::gold::P;

/// The order of the field, as a number, and the number above which one counts as negative: half of
/// what is below the order.
pub fn the_order()
    ensures order { P ≡ 18446744069414584321 }
    ensures half { 2 * HALF + 1 ≡ P }
{}

/// The order of the field is prime.
pub fn p_is_prime()
    ensures { IsPrime P }
{}

/// A product is 0 only where a factor is 0.
pub fn no_zero_product()
    ensures { (a b : ℕ) → (a * b) % P ≡ 0 → (a % P ≡ 0) ⊎ (b % P ≡ 0) }
{}

/// Fermat's theorem.
pub fn fermat()
    ensures { (a : ℕ) → 0 < a → a < P → (a * a ^ (P - 2)) % P ≡ 1 }
{}

/// So the power `P - 2` is the inverse.
pub fn inverse()
    ensures { (a r : ℕ) → a ≢ 0 → a < P → r ≡ a ^ (P - 2) % P → (a * r) % P ≡ 1 }
{}

/// A sum and a product are those of representatives; sums and products associate, and products
/// distribute.
pub fn arithmetic()
    ensures sum { (a b : ℕ) → (a % P + b % P) % P ≡ (a + b) % P }
    ensures product { (a b : ℕ) → (a % P * (b % P)) % P ≡ (a * b) % P }
    ensures sum_assoc { (a b c : ℕ) → ((a + b) % P + c) % P ≡ (a + (b + c) % P) % P }
    ensures product_assoc { (a b c : ℕ) → ((a * b) % P * c) % P ≡ (a * ((b * c) % P)) % P }
    ensures product_over_sum { (a b c : ℕ)
        → (a * ((b + c) % P)) % P ≡ ((a * b) % P + (a * c) % P) % P }
    ensures difference { (a b : ℕ) → b ≤ P → ((a + (P - b)) % P + b) % P ≡ a % P }
{}

/// An equal summand cancels, and so does an equal factor that is not 0.
pub fn cancellation()
    ensures sum { (a b c : ℕ) → (a + b) % P ≡ (a + c) % P → b % P ≡ c % P }
    ensures product { (a b c : ℕ) → a % P ≢ 0 → (a * b) % P ≡ (a * c) % P → b % P ≡ c % P }
{}

/// What an operator answers on a number of the field is one again.
pub fn answers_are_numbers()
    ensures unary { (op : Op1) (a : ℕ) → unary_of op a < P }
    ensures binary { (op : Op2) (a b v : ℕ) → a < P → binary_of op a b ≡ Some v → v < P }
{}
