//! What holds of every count of faults, as the contract of a function that does nothing.
ghost use Rattle.std.specs.Prelude.{ℕ, ◌-◌, ◌^◌, ◌<◌};
ghost use Rattle.out_io.specs.Faults.{Rose};

/// A count that rose is greater, unless it stood at the last value of its type.
pub fn counts_that_rose_are_greater()
    ensures { (before now : ℕ) → before < 2 ^ 64 - 1 → Rose before now → before < now }
{}
