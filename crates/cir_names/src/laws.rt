//! What holds of every program's loading, as contracts of functions that do nothing.
ghost use Rattle.std.specs.Prelude.{◌≡◌, ◌≢◌, ℕ, List, Option, None};
ghost use Rattle.out_io.specs.Contents.{Contents};
ghost use Rattle.cir_ast.specs.Program.{Program};
ghost use Rattle.cir_ast.specs.declared.refusal.Refusal.{Refusal};
ghost use Rattle.cir_names.specs.Asking.{IsUnasked};
ghost use Rattle.cir_names.specs.Loading.{IsLoaded, IsLoadFault};

/// Over the same files a name has one answer: one program, or one refusal of one kind and place,
/// and there are not both, nor one of them where the first file isn't there.
pub fn one_loading()
    ensures program { (files : Contents) (name : List ℕ) (library : Option (List ℕ)) (p q : Program)
        →
        IsLoaded files name library p → IsLoaded files name library q → p ≡ q }
    ensures refusal { (files : Contents) (name : List ℕ) (library : Option (List ℕ)) (r s : Refusal)
        →
        IsLoadFault files name library r → IsLoadFault files name library s → r ≡ s }
    ensures either { (files : Contents) (name : List ℕ) (library : Option (List ℕ)) (p : Program)
        (r : Refusal) →
        IsLoaded files name library p → IsLoadFault files name library r → ⊥ }
    ensures there { (files : Contents) (name : List ℕ) (library : Option (List ℕ)) (p : Program) →
        files name ≡ None → IsLoaded files name library p → ⊥ }
    ensures missing { (files : Contents) (name : List ℕ) (library : Option (List ℕ)) (r : Refusal) →
        files name ≡ None → IsLoadFault files name library r → ⊥ }
{}

/// A file that the loading of a source doesn't ask for has no part in it: where other files differ
/// in that one alone, the same program is loaded from them.
pub fn unasked_files_change_nothing()
    ensures { (files after : Contents) (source : List ℕ) (library : Option (List ℕ))
        (name : List ℕ) (p : Program) → IsLoaded files source library p
        → IsUnasked files source library name
        → ((other : List ℕ) → other ≢ name → after other ≡ files other)
        → IsLoaded after source library p }
{}
