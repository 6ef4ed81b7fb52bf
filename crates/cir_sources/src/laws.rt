//! What holds of every program's sources, as the contract of a function that does nothing.
ghost use Rattle.std.specs.Prelude.{◌≡◌, ℕ, List, Option};
ghost use Rattle.out_io.specs.Contents.{Contents};
ghost use Rattle.cir_sources.specs.Loading.{Answer, IsAnswer};

/// Over the same files a name has one answer: no two lists of sources, no two refusals, and not
/// both.
pub fn one_loading()
    ensures { (files : Contents) (name : List ℕ) (library : Option (List ℕ)) (a b : Answer) →
        IsAnswer files name library a → IsAnswer files name library b → a ≡ b }
{}
