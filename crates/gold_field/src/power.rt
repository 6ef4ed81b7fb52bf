ghost use Rattle.std.specs.Prelude.{◌≡◌, ◌-◌, ◌*◌, ◌%◌, ◌^◌, ◌↔◌, IsNone, IfSome};

use crate::gold::{Gold, P};

impl Gold {
    /// By 64 squarings, whatever the exponent; `0^0` is 1.
    pub fn pow(self, e: u64) -> Gold
        ensures { result ≡ (self ^ e) % P }
    {
        let mut power = Gold::ONE;
        let mut square = self;
        let mut rest = e;
        for i in 0..64u32 {
            if rest & 1 == 1 {
                power = power.mul(square);
            }
            square = square.mul(square);
            rest = rest >> 1;
        }
        power
    }

    /// The inverse, by Fermat's theorem, in 72 products.
    #[tactic(auto, using(crate::proofs::PrimeLaws::inverse_from))]
    pub fn inv(self) -> Option<Gold>
        ensures none { IsNone result ↔ (self ≡ 0) }
        ensures value { IfSome result (λ g. g ≡ (self ^ (P - 2)) % P) }
        ensures inverse { IfSome result (λ g. (self * g) % P ≡ 1) }
    {
        if self.get() == 0 {
            None
        } else {
            Some(self.fermat_power())
        }
    }

    // In base 2 the exponent is 31 ones, a zero and 32 ones: `ones_n` is the power with n ones.
    fn fermat_power(self) -> Gold
        ensures { result ≡ (self ^ (P - 2)) % P }
    {
        let ones_2 = self.squared_times(1, self);
        let ones_3 = ones_2.squared_times(1, self);
        let ones_6 = ones_3.squared_times(3, ones_3);
        let ones_12 = ones_6.squared_times(6, ones_6);
        let ones_24 = ones_12.squared_times(12, ones_12);
        let ones_30 = ones_24.squared_times(6, ones_6);
        let ones_31 = ones_30.squared_times(1, self);
        let ones_31_twice = ones_31.squared_times(32, ones_31);
        ones_31_twice.squared_times(1, self)
    }

    // `turns` squarings and a product
    fn squared_times(self, turns: u32, factor: Gold) -> Gold
        ensures { result ≡ (self ^ (2 ^ turns) * factor) % P }
    {
        let mut power = self;
        for i in 0..turns {
            power = power.mul(power);
        }
        power.mul(factor)
    }
}
