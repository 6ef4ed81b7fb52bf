//! The test that the values sum to the right sides of the linear system.

ghost use Rattle.std.specs.Prelude.{◌≡◌, ◌<◌, ◌+◌, ◌*◌, ◌%◌, ◌↔◌, ℕ, IsTrue, length, slice_index};
ghost use Rattle.gold_field.specs.declared.gold.TheConstants.{P};
ghost use Rattle.gold_ntt.specs.Polynomial.{sum_to};
ghost use Rattle.iden_files.specs.File.{InLimits};
ghost use Rattle.lig_layout.specs.System.{equation_count, public_count, right_sides};
ghost use Rattle.lig_proof.specs.Audit.{LinearSum};
ghost use Rattle.lig_auditor.specs.Opened.{IsOpening, audit_in, no_system};

use crate::opening::{Opening, linear_polynomial};
use gold_field::Gold;
use iden_files::R1cs;
use lig_proof::r_numbers;

/// Whether the values of what was sent for the linear system, at the message points, sum to the
/// right sides.
pub fn linear_sum(file: &R1cs, publics: &[Gold], opening: &Opening<'_>) -> bool
    requires limits { InLimits file.now }
    requires publics { length publics.now ≡ public_count file.now }
    requires numbers { length opening.now.challenges.now.r ≡ 2 * equation_count file.now }
    requires opening { IsOpening opening.now }
    ensures { IsTrue result
        ↔ LinearSum (audit_in opening.now (right_sides file.now publics.now) no_system) }
{
    let constraints = file.constraints().len();
    for t in 0..2 {
        let r = r_numbers(opening.challenges, t);
        let sum = sum_of_values(linear_polynomial(opening, t), opening.params.l);
        if sum != known_sum(&r[3 * constraints..], publics) {
            return false;
        }
    }
    true
}

// The sum of a polynomial's values at the message points: every l-th coefficient, l times.
fn sum_of_values(polynomial: &[Gold], l: u32) -> Gold
    requires some { 0 < l }
    requires count { length polynomial.now ≡ 3 * l }
    ensures { result ≡ l * (slice_index polynomial.now 0
        + (slice_index polynomial.now l + slice_index polynomial.now (2 * l))) % P }
{
    let width = l as usize;
    let others = polynomial[width].add(polynomial[2 * width]);
    let sum = polynomial[0].add(others);
    Gold::from_wide(u128::from(l)).mul(sum)
}

// The numbers times 1 and the public values.
fn known_sum(numbers: &[Gold], publics: &[Gold]) -> Gold
    requires { length numbers.now ≡ 1 + length publics.now }
    ensures { result ≡ (slice_index numbers.now 0
        + sum_to (length publics.now)
        (λ k. slice_index numbers.now (1 + k) * slice_index publics.now k)) % P }
{
    let mut sum = Gold::ZERO;
    for (k, public) in publics.iter().enumerate() {
        sum = sum.add(numbers[1 + k].mul(*public));
    }
    numbers[0].add(sum)
}
