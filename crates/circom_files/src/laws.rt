ghost use Rattle.std.specs.Prelude.{◌≡◌, ◌↔◌, ℕ, List};
ghost use Rattle.iden_files.specs.File.{File};
ghost use Rattle.circom_files.specs.Check.{verdict};
ghost use Rattle.circom_files.specs.Satisfaction.{Satisfies, FailsFirstAt};
ghost use Rattle.circom_lines.specs.declared.answer.Verdict.TheVariants.{Satisfied};
ghost use Rattle.circom_lines.specs.declared.answer.Verdict.TheVariants.{ConstraintFails};

/// What the answers of `check` mean: `satisfied` says that every constraint holds, and
/// `unsatisfied: constraint K` that K is the least one that doesn't.
pub fn check_laws()
    ensures satisfied { (file : File) (values : List ℕ)
        → (verdict file values ≡ Satisfied) ↔ Satisfies file values }
    ensures least { (file : File) (values : List ℕ) (k : ℕ)
        → (verdict file values ≡ ConstraintFails k) ↔ FailsFirstAt file values k }
{}
