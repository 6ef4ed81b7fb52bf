ghost use Rattle.std.specs.Prelude.{◌≡◌, ◌<◌, ◌≤◌, ◌+◌, ◌-◌, ◌*◌, ◌%◌, ◌↔◌, ℕ, IsNone, IfSome};

use std::marker::Model;

/// The order of the field, 2^64 - 2^32 + 1.
pub const P: u64 = 18446744069414584321;

/// 2^64 modulo `P`: so a multiple of 2^64 is reduced by one product and no division.
const EPSILON: u64 = 4294967295;

/// A number of the field, in its least representative: in every contract a `Gold` is that number.
#[derive(Clone, Copy, PartialEq, Eq)]
pub struct Gold {
    number: u64,
}

impl Model for Gold {
    ghost use Rattle.std.specs.Prelude.{ℕ, ◌<◌};
    ghost use Rattle.gold_field.specs.declared.gold.TheConstants.{P};

    ghost Value = { ℕ };

    ghost view = { λ g. g.number };

    ghost invariant = { λ g. g.number < P };

    ghost inverse = { λ n. record { number = n } };
}

impl Gold {
    /// The number that counts as false.
    pub const ZERO: Gold = Gold { number: 0 };

    /// The answer of a test that holds.
    pub const ONE: Gold = Gold { number: 1 };

    /// A number that is a least representative already; `from_wide` takes any other.
    pub fn new(n: u64) -> Option<Gold>
        ensures none { IsNone result ↔ (P ≤ n) }
        ensures value { IfSome result (λ g. g ≡ n) }
    {
        if n < P {
            Some(Gold { number: n })
        } else {
            None
        }
    }

    /// The number `n`, for a caller that knows it to be below `P`.
    pub(crate) fn of(n: u64) -> Gold
        requires { n < P }
        ensures { result ≡ n }
    {
        Gold { number: n }
    }

    /// The least representative, as a plain number.
    pub fn get(self) -> u64
        ensures value { result ≡ self }
        ensures below { result < P }
    {
        self.number
    }

    /// The sum, by one comparison and no division.
    pub fn add(self, b: Gold) -> Gold
        ensures { result ≡ (self + b) % P }
    {
        let gap = P - b.number;
        if self.number < gap {
            Gold {
                number: self.number + b.number,
            }
        } else {
            Gold {
                number: self.number - gap,
            }
        }
    }

    /// The difference, by one comparison and no division.
    pub fn sub(self, b: Gold) -> Gold
        ensures { result ≡ (self + (P - b)) % P }
    {
        if b.number <= self.number {
            Gold {
                number: self.number - b.number,
            }
        } else {
            Gold {
                number: P - b.number + self.number,
            }
        }
    }

    /// The number that gives 0 when it is added to this one.
    pub fn neg(self) -> Gold
        ensures { result ≡ (P - self) % P }
    {
        if self.number == 0 {
            self
        } else {
            Gold {
                number: P - self.number,
            }
        }
    }

    /// The product, which has up to 128 bits before it is reduced.
    pub fn mul(self, b: Gold) -> Gold
        ensures { result ≡ (self * b) % P }
    {
        Gold::from_wide(self.number as u128 * b.number as u128)
    }

    /// `n` modulo `P`, by 2^64 = 2^32 - 1 and 2^96 = -1 (both modulo `P`), without a division.
    pub fn from_wide(n: u128) -> Gold
        ensures { result ≡ n % P }
    {
        let low = (n & 0xffff_ffff_ffff_ffff) as u64;
        let middle = ((n >> 64) & 0xffff_ffff) as u64;
        let high = (n >> 96) as u64;
        reduced(low)
            .add(reduced(middle * EPSILON))
            .sub(Gold { number: high })
    }
}

/// Any word modulo `P`, by one test.
pub(crate) fn reduced(n: u64) -> Gold
    ensures { result ≡ n % P }
{
    if P <= n {
        Gold { number: n - P }
    } else {
        Gold { number: n }
    }
}
