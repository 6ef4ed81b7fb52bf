//! Laws of polynomials and their values: each function does nothing, and its contract is the law.

ghost use Rattle.std.specs.Prelude.{◌≡◌, ◌≢◌, ℕ, ◌+◌, ◌*◌, ◌%◌, ◌^◌, ◌<◌, ◌≤◌, ◌==◌, if◌then◌else◌};
ghost use Rattle.std.specs.Prelude.{List, length, slice_index};
ghost use Rattle.gold_field.specs.declared.gold.TheConstants.{P};
ghost use Rattle.gold_ntt.specs.Polynomial.{sum_to, eval_at, IsSum, IsMultiple, IsProduct};
ghost use Rattle.gold_ntt.specs.Polynomial.{IsPadded, IsDivision};
ghost use Rattle.gold_ntt.specs.Transform.{root_of, IsTransform};

/// The powers of a root of unity sum to 0, but those of 1, which sum to their number.
pub fn powers_of_roots()
    ensures zero { (e k : ℕ) → e ≤ 32 → k % 2 ^ e ≢ 0
        → sum_to (2 ^ e) (λ j. (root_of e ^ k) ^ j) % P ≡ 0 }
    ensures number { (e k : ℕ) → e ≤ 32 → k % 2 ^ e ≡ 0
        → sum_to (2 ^ e) (λ j. (root_of e ^ k) ^ j) % P ≡ 2 ^ e % P }
{}

/// Values of a sum, a multiple, a product, and of the same polynomial with zeros behind.
pub fn values()
    ensures sum { (a b c : List ℕ) (x : ℕ) → IsSum a b c
        → eval_at c x ≡ (eval_at a x + eval_at b x) % P }
    ensures multiple { (s : ℕ) (a c : List ℕ) (x : ℕ) → IsMultiple s a c
        → eval_at c x ≡ s * eval_at a x % P }
    ensures product { (a b c : List ℕ) (x : ℕ) → IsProduct a b c
        → eval_at c x ≡ eval_at a x * eval_at b x % P }
    ensures padded { (a c : List ℕ) (x : ℕ) → IsPadded a c → eval_at c x ≡ eval_at a x }
{}

/// The values at the roots determine the coefficients.
pub fn interpolation()
    ensures { (e : ℕ) (a b values : List ℕ) → e ≤ 32 → length values ≡ 2 ^ e
        → IsTransform e a values → IsTransform e b values
        → (k : ℕ) → k < 2 ^ e → slice_index a k % P ≡ slice_index b k % P }
{}

/// The sum of the values at the roots comes from every `2 ^ e`-th coefficient alone.
pub fn sum_of_values()
    ensures { (e : ℕ) (a : List ℕ) → e ≤ 32
        → sum_to (2 ^ e) (λ j. eval_at a (root_of e ^ j % P)) % P
        ≡ 2 ^ e * sum_to (length a) (λ k. if k % 2 ^ e == 0 then slice_index a k else 0) % P }
{}

/// Division by `X ^ n - 1`: there is one, its values, and that it leaves no remainder exactly where
/// the values at the roots of order `n` are 0.
pub fn division()
    ensures exists { (n : ℕ) (f : List ℕ) → 0 < n
        → (q : List ℕ) × ((r : List ℕ) × IsDivision n f q r) }
    ensures value { (n : ℕ) (f q r : List ℕ) (x : ℕ) → IsDivision n f q r
        → (eval_at f x + eval_at q x) % P ≡ (x ^ n * eval_at q x + eval_at r x) % P }
    ensures exact { (e : ℕ) (f q r : List ℕ) → e ≤ 32 → IsDivision (2 ^ e) f q r
        → ((j : ℕ) → j < 2 ^ e → eval_at f (root_of e ^ j % P) ≡ 0)
        → (k : ℕ) → slice_index r k % P ≡ 0 }
    ensures zero { (e : ℕ) (f q r : List ℕ) → e ≤ 32 → IsDivision (2 ^ e) f q r
        → ((k : ℕ) → slice_index r k % P ≡ 0)
        → (j : ℕ) → eval_at f (root_of e ^ j % P) ≡ 0 }
{}
