ghost use Rattle.std.specs.Prelude.{◌≡◌, ◌≢◌, ℕ, ◌<◌, ◌^◌, ◌++◌, ◌∷◌, ◌↔◌, List, [], All, IsTrue};
ghost use Rattle.std.specs.Prelude.{MatchOption};
ghost use Rattle.gold_field.specs.declared.gold.TheConstants.{P as ORDER};
ghost use Rattle.cir_determined.specs.Bits.{AreBits, ArePowers, ArePowersBy};

use gold_field::{Gold, P};

fn is_power_of_two(n: u64) -> bool
    ensures { IsTrue result ↔ ((e : ℕ) × (n ≡ 2 ^ e)) }
{
    if n == 0 {
        return false;
    }
    let place = n.trailing_zeros();
    n == 1 << place
}

// The sum of different powers of two and one more, which is to differ from each.
fn with_power(sum: u64, power: u64) -> Option<u64>
    ensures { (powers : List ℕ) → ArePowers powers sum
        → MatchOption result
        ((rest : List ℕ) (n : ℕ) → ArePowers (powers ++ power ∷ rest) n → ⊥)
        (λ n. ArePowers (powers ++ power ∷ []) n) }
{
    if !is_power_of_two(power) {
        return None;
    }
    if sum & power != 0 {
        return None;
    }
    Some(sum | power)
}

fn are_powers(coefs: &[Gold], factor: Gold) -> bool
    ensures { IsTrue result ↔ ArePowersBy factor coefs.now }
{
    let mut sum = 0;
    for c in coefs {
        let power = c.mul(factor).get();
        match with_power(sum, power) {
            Some(more) => sum = more,
            None => return false,
        }
    }
    sum < P
}

/// Whether the numbers, none of which is 0, are at least one, and the bits of one number. The first
/// of them is the factor times a power of two below 2^64, so a number by which they are powers is
/// among 64.
pub(crate) fn are_bits(coefs: &[Gold]) -> bool
    requires { All (λ c. (0 < c) × (c < ORDER)) coefs.now }
    ensures { IsTrue result ↔ (coefs.now ≢ []) × AreBits coefs.now }
{
    if coefs.is_empty() {
        return false;
    }
    let Some(inverse) = coefs[0].inv() else {
        return false;
    };
    let mut factor = inverse;
    for exponent in 0..64u32 {
        if are_powers(coefs, factor) {
            return true;
        }
        factor = factor.add(factor);
    }
    false
}
