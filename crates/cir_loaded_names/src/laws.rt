//! What holds of the names of every loaded program, as contracts of functions that do nothing.
ghost use Rattle.std.specs.Prelude.{◌≡◌, ℕ, List, Option, true};
ghost use Rattle.out_io.specs.Contents.{Contents};
ghost use Rattle.cir_ast.specs.Program.{Program};
ghost use Rattle.cir_lexer.specs.Spelling.{is_identifier};
ghost use Rattle.cir_names.specs.Loading.{IsLoaded, IsOfSources};
ghost use Rattle.cir_row_names.specs.Rows.{IsLineText, IsNamedProgram};
ghost use Rattle.cir_values.specs.Names.{IsPlain};

/// Each name in the templates of a program that loading gives is an identifier. This holds whatever
/// the store holds.
pub fn loaded_names_are_identifiers()
    ensures any { (p : Program) → IsOfSources p → IsNamedProgram is_identifier p }
    ensures loaded { (files : Contents) (name : List ℕ) (library : Option (List ℕ))
        (p : Program) → IsLoaded files name library p → IsNamedProgram is_identifier p }
{}

/// An identifier is ASCII without line feeds, and has no bracket in it.
pub fn identifiers_are_plain()
    ensures line { (name : List ℕ) → is_identifier name ≡ true → IsLineText name }
    ensures plain { (name : List ℕ) → is_identifier name ≡ true → IsPlain name }
{}
