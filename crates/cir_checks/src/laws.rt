//! What holds of every program, as the contract of a function that does nothing.
ghost use Rattle.std.specs.Prelude.{◌≡◌, ℕ, List, None};
ghost use Rattle.cir_resolve.specs.Definitions.{Definition};
ghost use Rattle.cir_checks.specs.Checks.{first_fault, program_with};
ghost use Rattle.cir_checks.specs.Checked.{IsUsed};

/// Where there is no fault, each name means something of the kind that it is used as, each call has
/// as many arguments as what it calls has parameters, each form stands where it may, and there is
/// one main component.
pub fn names_are_used_as_they_may_be()
    ensures { (files : List (List ℕ)) (definitions : List Definition)
        → first_fault definitions ≡ None → IsUsed (program_with files definitions) }
{}
