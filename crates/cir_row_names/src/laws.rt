//! What holds of what a program compiles to, as the contract of a function that does nothing.
ghost use Rattle.std.specs.Prelude.{◌≡◌, ℕ, List, Bool, true, Ok};
ghost use Rattle.cir_ast.specs.Program.{Program};
ghost use Rattle.cir_meaning.specs.Compile.{Circuit, compiled};
ghost use Rattle.cir_row_names.specs.Rows.{IsLineText, IsNamedCircuit, IsNamedProgram};

/// Where each name in a program's templates passes a test, and what passes it is text of one line,
/// each signal that the program makes has such a name with a place inside its dimensions, and one
/// of the instances that are created; and their paths are text of one line.
pub fn rows_have_declared_names()
    ensures { (p : List ℕ → Bool) (program : Program) (c : Circuit)
        → ((name : List ℕ) → p name ≡ true → IsLineText name)
        → IsNamedProgram p program → compiled program ≡ Ok c
        → IsNamedCircuit p c }
{}
