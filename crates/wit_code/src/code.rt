use gold_field::{Gold, Op1, Op2};
use items::Items;
use numbers::Numbers;

/// One instruction. A slot is a place of the running frame, named by its number; `d` is the slot
/// that gets the result, and `t` a place of the code.
#[derive(Clone, Copy)]
pub enum Op {
    /// `Const(d, v)`: the number `v`.
    Const(u32, Gold),
    /// `Move(d, s)`: the number of slot `s`.
    Move(u32, u32),
    /// `Read(d, i)`: the number that the step reads at place `i`.
    Read(u32, u32),
    /// `Un(op, d, a)`.
    Un(Op1, u32, u32),
    /// `Bin(op, d, a, b)`; a zero divisor stops with `ZeroDivisor`.
    Bin(Op2, u32, u32, u32),
    /// `Bound(s, n)` stops with `IndexOut` where slot `s` holds `n` or more.
    Bound(u32, u32),
    /// `Load(d, base, s)`: the number of the slot `base` plus the number in slot `s`; outside the
    /// frame it stops with `IndexOut`.
    Load(u32, u32, u32),
    /// `Store(base, s, a)` puts slot `a` into the slot that `Load` would read.
    Store(u32, u32, u32),
    /// `Jump(t)` goes on at place `t`.
    Jump(u32),
    /// `JumpZero(s, t)` goes on at place `t` where slot `s` is 0.
    JumpZero(u32, u32),
    /// Costs a unit; with none left it stops with `FuelSpent`.
    Turn,
    /// `Call(proc, first, d)` costs a unit, and the 257th open call stops with `TooDeep`. The
    /// parameters are the slots from `first` on, and slot `d` gets the answer.
    Call(u32, u32, u32),
    /// `Return(s)` ends the call with the number of slot `s`.
    Return(u32),
    /// `Check(a, b)` stops with `ConstraintFails` where the two slots differ.
    Check(u32, u32),
    /// `Assert(s)` stops with `AssertFails` where slot `s` is 0.
    Assert(u32),
    /// `Write(s)` appends slot `s` to what the step writes.
    Write(u32),
}

/// Code with its frame: `slots` numbers, of which the first `params` are given and the others start
/// at 0.
#[derive(Drop)]
pub struct Proc {
    pub params: u32,
    pub slots: u32,
    pub body: Items<Op>,
}

/// One run-time statement: its code, the cells that it reads, in the order of `Read`'s places, and
/// the cells that it writes, in the order of the code's `Write`s.
#[derive(Drop)]
pub struct Step {
    pub code: Proc,
    pub reads: Numbers,
    pub writes: Numbers,
}

/// Where code stands: in a step, which reads so many numbers, or in a procedure.
#[derive(Clone, Copy)]
pub enum Stands {
    InStep(usize),
    InProc,
}

/// Why a run ended before its code did.
#[derive(Clone, Copy, PartialEq, Eq)]
pub enum Stop {
    ConstraintFails = 1,
    AssertFails = 2,
    ZeroDivisor = 3,
    IndexOut = 4,
    FuelSpent = 5,
    TooDeep = 6,
    OutOfMemory,
}

impl Stop {
    ghost use Rattle.std.specs.Prelude.{◌≡◌};
    ghost use Rattle.wit_code.specs.Table.{stop_number};

    /// The number by which a refusal names the stop, from 1 to 6.
    pub fn number(self) -> Option<u32>
        ensures { result ≡ stop_number self }
    {
        match self {
            Stop::OutOfMemory => None,
            stop => Some(stop as u32),
        }
    }
}
