ghost use Rattle.std.specs.Prelude.{◌≡◌, ◌*◌, ◌/◌, ◌%◌, ◌^◌, ◌<◌, ◌↔◌, IsNone};
ghost use Rattle.gold_field.specs.Operators.{val, truth, left, right, shifted_left, shifted_right};
ghost use Rattle.gold_field.specs.Operators.{is_less, unary_of, binary_of, Divides};

use crate::gold::{Gold, P, reduced};

/// The largest number that comparisons take as positive, (p - 1) / 2. A shift by more goes the
/// other way.
pub const HALF: u64 = 9223372034707292160;

/// The operators of one operand.
#[derive(Clone, Copy, PartialEq, Eq)]
pub enum Op1 {
    /// `-a`
    Neg,
    /// `!a`
    Not,
    /// `~a`, of 64 bits
    Compl,
}

/// The operators of two operands.
#[derive(Clone, Copy, PartialEq, Eq)]
pub enum Op2 {
    Add,
    Sub,
    Mul,
    /// `a / b`, division in the field
    Div,
    /// `a \ b`, the quotient of the numbers
    Quot,
    /// `a % b`, the remainder of the numbers
    Rem,
    /// `a ** b`
    Pow,
    Shl,
    Shr,
    And,
    Xor,
    Or,
    Lt,
    Le,
    Gt,
    Ge,
    Eq,
    Ne,
}

impl Gold {
    /// The number as comparisons see it, from -(p - 1) / 2 to (p - 1) / 2.
    pub fn signed(self) -> i128
        ensures { result ≡ val self }
    {
        let number = self.get();
        if number <= HALF {
            number as i128
        } else {
            number as i128 - P as i128
        }
    }
}

/// Circom's operators of one operand.
pub fn unary(op: Op1, a: Gold) -> Gold
    ensures { result ≡ unary_of op a }
{
    match op {
        Op1::Neg => a.neg(),
        Op1::Not => truth_of(a == Gold::ZERO),
        Op1::Compl => reduced(!a.get()),
    }
}

/// Circom's operators of two operands. `None` is the answer to a division by 0.
pub fn binary(op: Op2, a: Gold, b: Gold) -> Option<Gold>
    ensures value { result ≡ binary_of op a b }
    ensures none { IsNone result ↔ (Divides op × (b ≡ 0)) }
{
    match op {
        Op2::Add => Some(a.add(b)),
        Op2::Sub => Some(a.sub(b)),
        Op2::Mul => Some(a.mul(b)),
        Op2::Div => divided(a, b),
        Op2::Quot => quotient(a, b),
        Op2::Rem => remainder(a, b),
        Op2::Pow => Some(a.pow(b.get())),
        Op2::Shl => Some(shl(a, b)),
        Op2::Shr => Some(shr(a, b)),
        Op2::And => Some(reduced(a.get() & b.get())),
        Op2::Xor => Some(reduced(a.get() ^ b.get())),
        Op2::Or => Some(reduced(a.get() | b.get())),
        Op2::Lt => Some(truth_of(less(a, b))),
        Op2::Le => Some(truth_of(!less(b, a))),
        Op2::Gt => Some(truth_of(less(b, a))),
        Op2::Ge => Some(truth_of(!less(a, b))),
        Op2::Eq => Some(truth_of(a == b)),
        Op2::Ne => Some(truth_of(a != b)),
    }
}

fn truth_of(b: bool) -> Gold
    ensures { result ≡ truth b }
{
    if b { Gold::ONE } else { Gold::ZERO }
}

fn less(a: Gold, b: Gold) -> bool
    ensures { result ≡ is_less a b }
{
    a.signed() < b.signed()
}

fn divided(a: Gold, b: Gold) -> Option<Gold>
    ensures { result ≡ binary_of Op2.Div a b }
{
    let inverse = b.inv()?;
    Some(a.mul(inverse))
}

fn quotient(a: Gold, b: Gold) -> Option<Gold>
    ensures { result ≡ binary_of Op2.Quot a b }
{
    let divisor = b.get();
    if divisor == 0 {
        None
    } else {
        Some(Gold::of(a.get() / divisor))
    }
}

fn remainder(a: Gold, b: Gold) -> Option<Gold>
    ensures { result ≡ binary_of Op2.Rem a b }
{
    let divisor = b.get();
    if divisor == 0 {
        None
    } else {
        Some(Gold::of(a.get() % divisor))
    }
}

fn shl(a: Gold, k: Gold) -> Gold
    ensures { result ≡ shifted_left a k }
{
    let k = k.get();
    if k <= HALF {
        left_by(a, k)
    } else {
        right_by(a, P - k)
    }
}

fn shr(a: Gold, k: Gold) -> Gold
    ensures { result ≡ shifted_right a k }
{
    let k = k.get();
    if k > HALF {
        left_by(a, P - k)
    } else {
        right_by(a, k)
    }
}

#[tactic(auto, using(crate::proofs::ShiftLaws::left_past))]
fn left_by(a: Gold, k: u64) -> Gold
    ensures { result ≡ left a k }
{
    if k < 64 {
        reduced(a.get() << k)
    } else {
        Gold::ZERO
    }
}

#[tactic(auto, using(crate::proofs::ShiftLaws::right_past))]
fn right_by(a: Gold, k: u64) -> Gold
    ensures { result ≡ right a k }
{
    let number = a.get();
    if k < 64 {
        Gold::of(number >> k)
    } else {
        Gold::ZERO
    }
}
