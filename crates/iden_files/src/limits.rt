/// How many wires an `.r1cs` file has at most, and how many values a `.wtns` file.
pub const MAX_WIRES: u32 = 1_048_576;

pub const MAX_CONSTRAINTS: u32 = 1_048_576;

/// How many terms all constraints of a file have at most, counted as they are written.
pub const MAX_TERMS: u32 = 8_388_608;
