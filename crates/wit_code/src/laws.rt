//! Laws of the table that says what runs of a step's code do: empty functions whose contracts say
//! them.

ghost use Rattle.std.specs.Prelude.{◌≡◌, ◌<◌, ℕ, All, List, length};
ghost use Rattle.gold_field.specs.declared.gold.TheConstants.{P};
ghost use Rattle.wit_code.specs.declared.code.Proc.{Proc};
ghost use Rattle.wit_code.specs.Code.{IsWellFormed};
ghost use Rattle.wit_code.specs.Table.{Outcome, RunsTo, Wrote, outcome_of};

/// Every run of well-formed code ends, and no run has two outcomes.
pub fn every_run_ends_once()
    ensures ends { (procs : List Proc) (code : Proc) (reads : List ℕ) (fuel : ℕ) →
        IsWellFormed procs (length reads) code
        → RunsTo procs code reads fuel (outcome_of procs code reads fuel) }
    ensures once { (procs : List Proc) (code : Proc) (reads : List ℕ) (fuel : ℕ) (a b : Outcome) →
        RunsTo procs code reads fuel a → RunsTo procs code reads fuel b → a ≡ b }
{}

/// Well-formed code that reads numbers of the field writes numbers of the field.
pub fn runs_write_numbers()
    ensures { (procs : List Proc) (code : Proc) (reads : List ℕ) (fuel : ℕ) (values : List ℕ) →
        IsWellFormed procs (length reads) code → All (λ v. v < P) reads →
        RunsTo procs code reads fuel (Wrote values) → All (λ v. v < P) values }
{}
