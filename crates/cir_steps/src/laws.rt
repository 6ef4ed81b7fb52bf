//! Laws over the steps of a circuit, each the contract of a function that does nothing. Their
//! premise, that names mean what is in scope (`IsResolved`), holds of every program that is loaded.

ghost use Rattle.std.specs.Prelude.{◌≡◌, ◌+◌, ◌<◌, ◌≤◌, ℕ, List, length, slice_get, Some, Ok};
ghost use Rattle.cir_ast.specs.Program.{Program};
ghost use Rattle.cir_checks.specs.Checked.{IsChecked};
ghost use Rattle.cir_meaning.specs.Tried.{Where};
ghost use Rattle.cir_meaning.specs.Arrays.{Datum};
ghost use Rattle.cir_meaning.specs.Frame.{World};
ghost use Rattle.cir_meaning.specs.Bodies.{most_open};
ghost use Rattle.cir_meaning.specs.Compile.{Circuit as Compiled, compiled};
ghost use Rattle.cir_meaning.specs.Run.{Wires};
ghost use Rattle.cir_meaning.specs.RunBodies.{body_at, ran};
ghost use Rattle.cir_meaning.specs.RunStatements.{run_call};
ghost use Rattle.cir_meaning.specs.Scoped.{IsResolved};
ghost use Rattle.cir_steps.specs.Circuit.{Circuit, circuit_of, run_circuit};
ghost use Rattle.cir_steps.specs.Lines.{AreLinesOf};
ghost use Rattle.cir_steps.specs.Making.{Cast};
ghost use Rattle.cir_steps.specs.Running.{Begins, Starts, IsRunBy};
ghost use Rattle.cir_steps.specs.RunSteps.{Progress, run_steps};
ghost use Rattle.cir_steps.specs.Statements.{cast_at};
ghost use Rattle.cir_steps.specs.Step.{Step};
ghost use Rattle.cir_steps.specs.Written.{times, EachCellOnce};
ghost use Rattle.cir_steps.specs.Places.{ArePlacesMeant};
ghost use Rattle.cir_steps.specs.Read.{EachReadBehind};

/// A program that compiles has a circuit.
pub fn compiled_programs_have_circuits()
    ensures { (p : Program) (c : Compiled) → IsResolved p → compiled p ≡ Ok c →
        (b : Circuit) × (circuit_of p ≡ Ok b) }
{}

/// Each cell of a circuit is a start cell or is written by one step, once, and there are no other
/// cells.
pub fn cells_are_written_once()
    ensures { (p : Program) (b : Circuit) → IsResolved p → circuit_of p ≡ Ok b → EachCellOnce b }
{}

/// Signal 0 and each signal of a program that compiles, by its number, has a cell of the circuit.
pub fn signals_have_homes()
    ensures count { (p : Program) (c : Compiled) (b : Circuit) → IsResolved p → compiled p ≡ Ok c →
        circuit_of p ≡ Ok b → length b.homes ≡ 1 + length c.names }
    ensures cells { (p : Program) (c : Compiled) (b : Circuit) (i : ℕ) → IsResolved p →
        compiled p ≡ Ok c → circuit_of p ≡ Ok b → i ≤ length c.names →
        (cell : ℕ) × (slice_get b.homes i ≡ Some (Some cell)) × (cell < b.cells) }
{}

/// The start cells of the circuit of a program that compiles are one more than the inputs of its
/// main component.
pub fn circuits_start_with_the_inputs()
    ensures { (p : Program) (c : Compiled) (b : Circuit) → IsResolved p → compiled p ≡ Ok c →
        circuit_of p ≡ Ok b → length b.starts ≡ 1 + (c.public_inputs + c.private_inputs) }
{}

/// A circuit has no more cells and steps than the limits.
pub fn circuits_are_small()
    ensures cells { (p : Program) (b : Circuit) → IsResolved p → circuit_of p ≡ Ok b →
        b.cells ≤ 2097152 }
    ensures steps { (p : Program) (b : Circuit) → IsResolved p → circuit_of p ≡ Ok b →
        length b.steps ≤ 2097152 }
{}

/// The numbers of a log line are in cells that its step writes.
pub fn lines_have_numbers_of_their_steps()
    ensures { (p : Program) (b : Circuit) → IsResolved p → circuit_of p ≡ Ok b →
        AreLinesOf b.steps }
{}

/// Each step of a circuit stands in an instance of the program that compiles: the path of the
/// instance of its number is the path of its place.
pub fn steps_stand_in_instances()
    ensures { (p : Program) (c : Compiled) (b : Circuit) (i : ℕ) (step : Step) → IsResolved p
        → compiled p ≡ Ok c → circuit_of p ≡ Ok b → slice_get b.steps i ≡ Some step
        → slice_get c.instances step.place.instance ≡ Some step.place.path }
{}

/// The steps that are made of a component's body do what the body does when it runs, with as many
/// units for each statement, from cells that have the numbers of its inputs. Where the body ends,
/// the steps end with its numbers in the cells of its signals, and of those of the components in
/// it, behind the same log lines; where it stops, other than for a number that is missing, they
/// stop with the same number, at the same place and behind the same lines. Nothing is told where
/// the body refuses what was accepted when it was compiled.
pub fn bodies_run_as_their_steps()
    ensures { (p : Program) (size fuel room n first : ℕ) (w : Where) (arguments : List Datum)
        (path : List ℕ) (world : World) (o : Cast) (given : Wires) (q : Progress) → IsResolved p →
        Begins arguments world → cast_at p size room w n arguments path world first ≡ Ok o →
        Starts o given q →
        IsRunBy o (body_at p size fuel room w n arguments path world given q.log)
        (run_steps (run_call p most_open) fuel o.steps q) }
{}

/// In a program that is checked, members stand behind components alone where a place is assigned,
/// one each.
pub fn checked_programs_have_places()
    ensures { (p : Program) → IsChecked p → ArePlacesMeant p }
{}

/// In the circuit of a program each cell that a step reads is a start cell, or is written by an
/// earlier step; so it is one of the circuit's cells. Where a place is assigned, members are to
/// stand behind components alone, one each, as in every program that is checked.
pub fn cells_are_read_behind_their_writes()
    ensures behind { (p : Program) (b : Circuit) → IsResolved p → ArePlacesMeant p
        → circuit_of p ≡ Ok b → EachReadBehind b }
    ensures near { (p : Program) (b : Circuit) (i : ℕ) (step : Step) (c : ℕ) → IsResolved p
        → ArePlacesMeant p → circuit_of p ≡ Ok b → slice_get b.steps i ≡ Some step
        → 1 ≤ times c step.reads → c < b.cells }
{}

/// The steps of the circuit of a program that compiles do what the program does when it runs, on as
/// many inputs as its main component has and with as many units for each step: they end with the
/// same values of all signals, by their numbers, behind the same log lines, or stop with the same
/// number, at the same place and behind the same lines.
pub fn circuit_runs()
    ensures { (p : Program) (c : Compiled) (b : Circuit) (fuel : ℕ) (inputs : List ℕ)
        → IsResolved p → compiled p ≡ Ok c → circuit_of p ≡ Ok b
        → length inputs ≡ c.public_inputs + c.private_inputs
        → run_circuit p fuel inputs b ≡ ran p fuel inputs }
{}
