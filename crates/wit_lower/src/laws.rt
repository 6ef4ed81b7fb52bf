//! Laws over the code of run-time statements, each the contract of a function that does nothing.

ghost use Rattle.std.specs.Prelude.{List, ℕ};
ghost use Rattle.cir_ast.specs.Program.{Program};
ghost use Rattle.cir_meaning.specs.Costs.{Made};
ghost use Rattle.wit_lower.specs.Sources.{Sources};
ghost use Rattle.wit_lower.specs.Tasks.{Task, step_code, step_ground};
ghost use Rattle.wit_lower.specs.Steps.{IsRight, StepFits};

/// The code of a step that fits is well formed with the procedures that it calls. Whatever the
/// cells hold that it reads, and with any number of units, it writes what its statement means with
/// as many units, or stops as that does. It writes a number for each target, or stops.
pub fn code_is_right()
    ensures { (program : Program) (keys : List Made) (sources : Sources) (variables : ℕ)
        (task : Task) → StepFits keys sources variables task
        → IsRight program keys sources variables task
        (step_code (step_ground keys sources task) sources task) }
{}
