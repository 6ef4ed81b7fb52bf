//! Laws of the definitions: empty functions whose contracts say them.

ghost use Rattle.std.specs.Prelude.{◌≡◌, ℕ, ◌<◌, ◌≤◌, List, length, All, Ok};
ghost use Rattle.gold_field.specs.declared.gold.TheConstants.{P};
ghost use Rattle.iden_files.specs.File.{File, IsWhole, InLimits};
ghost use Rattle.gold_field.specs.declared.form.Term.{Term};
ghost use Rattle.gold_field.specs.Form.{SignalsBelow, value_at};
ghost use Rattle.iden_files.specs.Meaning.{form_of};
ghost use Rattle.iden_files.specs.ReadR1cs.{r1cs_of};
ghost use Rattle.iden_files.specs.ReadWtns.{wtns_of};
ghost use Rattle.iden_files.specs.Spelling.{r1cs_bytes, wtns_bytes};
ghost use Rattle.iden_files.specs.Limits.{most_wires};

/// The spelling of a file means that file.
pub fn spelled_file_is_read()
    ensures { (f : File) → IsWhole f → InLimits f → r1cs_of (r1cs_bytes f) ≡ Ok f }
{}

/// A file that is read is within the limits.
pub fn read_files_are_in_limits()
    ensures { (bytes : List ℕ) (f : File) → r1cs_of bytes ≡ Ok f → InLimits f }
{}

/// The spelling of values means those values.
pub fn spelled_values_are_read()
    ensures { (values : List ℕ) → length values ≤ most_wires → All (λ v. v < P) values →
        wtns_of (wtns_bytes values) ≡ Ok values }
{}

/// The linear combination that terms mean has the sum of all these terms, at every assignment.
pub fn meaning_has_the_value()
    ensures { (s : ℕ → ℕ) (wires : ℕ) (terms : List Term) → SignalsBelow wires terms →
        value_at s (form_of wires terms) ≡ value_at s terms }
{}
