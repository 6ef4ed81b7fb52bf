//! What holds of every loaded program, as the contract of a function that does nothing.
ghost use Rattle.std.specs.Prelude.{ℕ, List, Option};
ghost use Rattle.out_io.specs.Contents.{Contents};
ghost use Rattle.cir_ast.specs.Program.{Program};
ghost use Rattle.cir_names.specs.Loading.{IsLoaded, IsOfSources};
ghost use Rattle.cir_meaning.specs.Scoped.{IsResolved};
ghost use Rattle.cir_scope.specs.Counted.{AreCounted};
ghost use Rattle.cir_scope.specs.Runnable.{AreRunnable};

/// In a program that loading gives, each variable that is named is in scope, each call means a
/// function, and declarations have their numbers in the order of the text; no loop declares a
/// signal, no template returns, and functions have variables and calls of functions alone. This
/// holds whatever the store holds.
pub fn loaded_programs_are_resolved()
    ensures any { (p : Program) → IsOfSources p → IsResolved p }
    ensures loaded { (files : Contents) (name : List ℕ) (library : Option (List ℕ))
        (p : Program) → IsLoaded files name library p → IsResolved p }
{}

/// Functions of a program that loading gives may run: each variable that they name is in scope,
/// and their declarations have their numbers in the order of the text, behind the parameters, as
/// many as the function has variables.
pub fn loaded_functions_may_run()
    ensures any { (p : Program) → IsOfSources p → AreRunnable p }
    ensures loaded { (files : Contents) (name : List ℕ) (library : Option (List ℕ))
        (p : Program) → IsLoaded files name library p → AreRunnable p }
{}

/// Templates of a program that loading gives have a variable for each of their parameters and each
/// variable that their bodies declare.
pub fn loaded_templates_are_counted()
    ensures any { (p : Program) → IsOfSources p → AreCounted p }
    ensures loaded { (files : Contents) (name : List ℕ) (library : Option (List ℕ))
        (p : Program) → IsLoaded files name library p → AreCounted p }
{}
