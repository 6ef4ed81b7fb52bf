//! What holds of the names in every tree, as the contract of a function that does nothing.
ghost use Rattle.std.specs.Prelude.{ℕ, List, Bool};
ghost use Rattle.std.specs.List.{AllByRecursion};
ghost use Rattle.cir_ast.specs.declared.program.Spot.{Spot};
ghost use Rattle.cir_ast.specs.Plain.{PlainFile};
ghost use Rattle.cir_ast.specs.Print.{file_tokens};
ghost use Rattle.cir_tree_names.specs.Named.{IsNamedItem, IsNamedToken};

/// Each name in a tree is among the tokens that the tree prints: it passes every test that the
/// names among them pass.
pub fn names_are_among_tokens()
    ensures { (p : List ℕ → Bool) (file : PlainFile Spot)
        → AllByRecursion (IsNamedToken p) (file_tokens file)
        → AllByRecursion (IsNamedItem p) file }
{}
