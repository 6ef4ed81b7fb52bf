//! Laws over machine code for circuits, each the contract of a function that does nothing.

ghost use Rattle.std.specs.Prelude.{◌≡◌, ◌≤◌, ◌+◌, ◌++◌, ◌∷◌, ℕ, List, Ok, length};
ghost use Rattle.wit_code.specs.declared.code.Proc.{Proc};
ghost use Rattle.wit_code.specs.declared.code.Step.{Step as CodeStep};
ghost use Rattle.cir_ast.specs.Program.{Program};
ghost use Rattle.cir_meaning.specs.Bodies.{most_open};
ghost use Rattle.cir_meaning.specs.Compile.{Circuit as Compiled, compiled};
ghost use Rattle.cir_meaning.specs.RunBodies.{ran};
ghost use Rattle.cir_meaning.specs.Scoped.{IsResolved};
ghost use Rattle.cir_meaning.specs.RunStatements.{run_call};
ghost use Rattle.cir_scope.specs.Counted.{AreCounted};
ghost use Rattle.cir_steps.specs.Step.{Step};
ghost use Rattle.cir_steps.specs.Circuit.{Circuit, circuit_of};
ghost use Rattle.cir_steps.specs.Places.{ArePlacesMeant};
ghost use Rattle.cir_steps.specs.Read.{AreBehind};
ghost use Rattle.cir_steps.specs.Written.{times, targets_of};
ghost use Rattle.wit_flow.specs.Cut.{CanCut};
ghost use Rattle.wit_flow.specs.OneThread.{IsOutcome};
ghost use Rattle.wit_flow.specs.declared.flow.Outcome.{Outcome};
ghost use Rattle.wit_circuit.specs.Told.{Tells};
ghost use Rattle.cir_meaning.specs.Costs.{Made as Key};
ghost use Rattle.wit_lower.specs.Procedures.{IsTable};
ghost use Rattle.wit_lower.specs.Sources.{Sources, cells_read};
ghost use Rattle.wit_lower.specs.Steps.{StepFits};
ghost use Rattle.wit_lower.specs.Tasks.{step_code, step_ground};
ghost use Rattle.cir_emit.specs.Tasks.{step_task};
ghost use Rattle.cir_emit.specs.Lowered.{IsLoweredStep};
ghost use Rattle.wit_circuit.specs.Coded.{AreCodeOfSteps};
ghost use Rattle.wit_circuit.specs.Made.{AreMadeOf, IsMadeOf};
ghost use Rattle.cir_steps.specs.Lines.{AreLinesOf};
ghost use Rattle.wit_circuit.specs.Ending.{NeverMisses, IsEnding, ran_from, code_ending};

/// Code that is made of the steps of a circuit, run one step after the other from the start cells,
/// ends as the circuit does: with the same numbers in the cells and the same log lines, or with the
/// same stop at the same place behind the same lines. Each cell that a step reads has its number
/// before it, no cell is written twice, and no number is missing.
pub fn code_runs_the_circuit()
    ensures { (p : Program) (procs : List Proc) (steps : List Step) (code : List CodeStep)
        (starts inputs : List ℕ) (fuel : ℕ) → AreMadeOf (run_call p most_open) procs steps code
        → length starts ≡ length inputs → AreBehind starts steps → AreLinesOf steps
        → ((c : ℕ) → times c (targets_of steps) ≤ 1)
        → NeverMisses (ran_from p fuel starts inputs steps)
        → IsEnding steps (ran_from p fuel starts inputs steps)
        (code_ending procs fuel code starts inputs) }
{}

/// The code of a step with its sources stands for the step, over every table of procedures that
/// begins with the keys of its calls.
pub fn lowered_code_is_made()
    ensures { (p : Program) (keys later : List Key) (procs : List Proc) (s : Step)
        (sources : Sources) (m : CodeStep) → IsLoweredStep keys s sources
        → StepFits keys sources (length s.variables) (step_task s)
        → IsTable p (keys ++ later) procs
        → m.code ≡ step_code (step_ground keys sources (step_task s)) sources (step_task s)
        → m.reads ≡ cells_read sources.list → m.writes ≡ s.targets
        → IsMadeOf (run_call p most_open) procs s m }
{}

/// The code of all steps of a program's circuit, each with sources that are the step's, stands for
/// them, over the table of procedures in which its calls have their keys.
pub fn code_of_circuits_is_made()
    ensures { (p : Program) (b : Circuit) (keys : List Key) (procs : List Proc)
        (code : List CodeStep) → IsResolved p → ArePlacesMeant p → AreCounted p
        → circuit_of p ≡ Ok b → AreCodeOfSteps keys b.steps code → IsTable p keys procs
        → AreMadeOf (run_call p most_open) procs b.steps code }
{}

/// Code that is made of the steps of a program's circuit can be cut into strands: each cell is a
/// start cell or is written by one step, once, before each step that reads it.
pub fn circuits_can_be_cut()
    ensures { (p : Program) (procs : List Proc) (b : Circuit) (code : List CodeStep)
        → IsResolved p → ArePlacesMeant p → circuit_of p ≡ Ok b
        → AreMadeOf (run_call p most_open) procs b.steps code
        → CanCut code procs b.cells b.starts }
{}

/// The answer of one thread that runs the code of the circuit of a program that compiles, on as
/// many inputs as its main component has, tells the program's run: the numbers of all signals and
/// the log lines; or the stop, its place, and the log lines before it.
pub fn outcomes_tell_the_run()
    ensures { (p : Program) (c : Compiled) (procs : List Proc) (b : Circuit)
        (code : List CodeStep) (inputs : List ℕ) (fuel : ℕ) (o : Outcome)
        → IsResolved p → ArePlacesMeant p → compiled p ≡ Ok c → circuit_of p ≡ Ok b
        → length inputs ≡ c.public_inputs + c.private_inputs
        → AreMadeOf (run_call p most_open) procs b.steps code
        → IsOutcome b.cells o (code_ending procs fuel code b.starts (1 ∷ inputs))
        → Tells b o (ran p fuel inputs) }
{}
