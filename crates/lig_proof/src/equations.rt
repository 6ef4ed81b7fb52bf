//! The equations of the linear system, and the numbers that are drawn for them.

ghost use Rattle.std.specs.Prelude.{◌≡◌, ◌<◌, ◌*◌, ℕ, length};
ghost use Rattle.iden_files.specs.File.{InLimits};
ghost use Rattle.lig_layout.specs.System.{equation_count};
ghost use Rattle.lig_proof.specs.Sent.{r_numbers};

use crate::challenge::Challenges;
use gold_field::Gold;
use iden_files::R1cs;

/// How many equations the linear system of a file has.
pub fn equation_count(file: &R1cs) -> u32
    requires { InLimits file.now }
    ensures { result ≡ equation_count file.now }
{
    let constraints = file.constraints().len() as u32;
    3 * constraints + (1 + (file.outputs + file.public_inputs))
}

/// The numbers of one repetition, one for each equation.
pub fn r_numbers(challenges: &Challenges, t: usize) -> &[Gold]
    requires { t < 2 }
    ensures value { (equations : ℕ) → length challenges.now.r ≡ 2 * equations
        → result.now ≡ r_numbers equations challenges.now t }
    ensures count { (equations : ℕ) → length challenges.now.r ≡ 2 * equations
        → length result.now ≡ equations }
{
    let numbers = challenges.r.as_slice();
    let equations = numbers.len() / 2;
    let (_, from) = numbers.split_at(t * equations);
    let (of_one, _) = from.split_at(equations);
    of_one
}
