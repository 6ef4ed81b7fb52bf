//! Laws over the code of steps, each the contract of a function that does nothing.

ghost use Rattle.std.specs.Prelude.{◌≡◌, ℕ, List, length, slice_get, Some, Ok};
ghost use Rattle.cir_ast.specs.Program.{Program};
ghost use Rattle.cir_meaning.specs.Costs.{Made};
ghost use Rattle.cir_meaning.specs.Scoped.{IsResolved};
ghost use Rattle.cir_scope.specs.Counted.{AreCounted};
ghost use Rattle.cir_steps.specs.Circuit.{Circuit, circuit_of};
ghost use Rattle.cir_steps.specs.Places.{ArePlacesMeant};
ghost use Rattle.cir_steps.specs.Step.{Step};
ghost use Rattle.wit_lower.specs.Sources.{Sources, cells_read};
ghost use Rattle.wit_lower.specs.Tasks.{step_code, step_ground};
ghost use Rattle.wit_lower.specs.Steps.{StepFits};
ghost use Rattle.cir_emit.specs.Tasks.{step_task};
ghost use Rattle.cir_emit.specs.Lowered.{IsLoweredStep, IsStepRight};
ghost use Rattle.cir_emit.specs.Sourced.{AreSourcesOf};

/// The code of a step that is lowered is well formed with the procedures that it calls, and does
/// what the step does: from the numbers of the cells that it reads, with as many units, it writes
/// the numbers that the step gives, one for each of its targets, or stops as the step does.
pub fn lowered_steps_are_right()
    ensures { (program : Program) (keys : List Made) (step : Step) (sources : Sources)
        → IsLoweredStep keys step sources
        → StepFits keys sources (length step.variables) (step_task step)
        → IsStepRight program keys step (cells_read sources.list)
        (step_code (step_ground keys sources (step_task step)) sources (step_task step)) }
{}

/// Each step of a program's circuit, with sources that are the step's, is lowered with them, and
/// its code fits: what compiling accepted has code.
pub fn steps_of_circuits_fit()
    ensures { (p : Program) (b : Circuit) (keys : List Made) (i : ℕ) (step : Step)
        (sources : Sources) → IsResolved p → ArePlacesMeant p → AreCounted p → circuit_of p ≡ Ok b
        → slice_get b.steps i ≡ Some step → AreSourcesOf keys step sources
        → IsLoweredStep keys step sources
        × StepFits keys sources (length step.variables) (step_task step) }
{}
