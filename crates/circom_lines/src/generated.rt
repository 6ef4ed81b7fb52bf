//! The circuit that `generate` makes: in a chain of links none reads another, and the last one's
//! number is the output.

ghost use Rattle.std.specs.Prelude.{◌≡◌, ◌+◌, ◌≤◌, ◌∷◌, IfOk};
ghost use Rattle.circom_lines.specs.Generated.{generated_text, generated_input};

use crate::lines::line;
use gold_field::Gold;
use std::alloc::{AllocError, Global};

/// The source of the circuit of so many links.
pub fn generated_text(alloc: Global, size: u32) -> Result<Vec<u8>, AllocError>
    ensures { IfOk result (λ v. v.items ≡ generated_text size) }
{
    let size = format!(in alloc; "{size}")?;
    line(
        alloc,
        &[
            b"template Link() { signal input x; signal input k; signal output y; \
            y <== x * x + k; }\n\
            template Links(n) { signal input s; signal input k[8]; signal output out; \
            component l[n];\n\
            for (var i = 0; i < n; i++) { l[i] = Link(); l[i].k <== k[i % 8]; \
            l[i].x <== s; }\n\
            out <== l[n - 1].y; }\n\
            component main = Links(",
            size.as_bytes(),
            b");",
        ],
    )
}

/// The numbers that its run starts from: 1, and its input.
pub fn generated_start(alloc: Global, seed: u32) -> Result<Vec<Gold>, AllocError>
    ensures { IfOk result (λ v. v.items ≡ 1 ∷ generated_input seed) }
{
    let numbers = vec![in alloc;
        Gold::ONE,
        sum(seed, 0),
        sum(seed, 1),
        sum(seed, 2),
        sum(seed, 3),
        sum(seed, 4),
        sum(seed, 5),
        sum(seed, 6),
        sum(seed, 7),
        sum(seed, 8),
    ]?;
    Ok(numbers)
}

fn sum(seed: u32, more: u32) -> Gold
    requires { more ≤ 8 }
    ensures { result ≡ seed + more }
{
    Gold::from_wide(u128::from(seed) + u128::from(more))
}
