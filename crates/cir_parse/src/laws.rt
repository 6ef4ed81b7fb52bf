//! What holds of every tree, as contracts of functions that do nothing.
ghost use Rattle.std.specs.Prelude.{◌≡◌, ◌++◌, ℕ, List, []};
ghost use Rattle.cir_token.specs.declared.token.TokenKind.{TokenKind as Kind};
ghost use Rattle.cir_ast.specs.Plain.{PlainFile, PlainItem};
ghost use Rattle.cir_ast.specs.Print.{file_tokens, item_tokens};
ghost use Rattle.cir_ast.specs.Shape.{IsShaped, IsShapedItem};
ghost use Rattle.cir_parse.specs.Contract.{IsFirstUnread};

/// Two shaped trees that print the same tokens are equal, however high they are.
#[tactic(auto, using(crate::proofs::Files::one_tree))]
pub fn one_tree()
    ensures { (f g : PlainFile (Unit {0})) → IsShaped f → IsShaped g → file_tokens f ≡ file_tokens g
        → f ≡ g }
{}

/// No shaped item's tokens go on where those of another end.
pub fn item_ends()
    ensures { (i j : PlainItem (Unit {0})) → (rest : List Kind) → IsShapedItem i → IsShapedItem j
        → item_tokens i ++ rest ≡ item_tokens j → rest ≡ [] }
{}

/// The first token of the first item that has no reading is one.
pub fn one_first_unread()
    ensures { (tokens : List Kind) (a b : ℕ) → IsFirstUnread (Unit {0}) tokens a
        → IsFirstUnread (Unit {0}) tokens b → a ≡ b }
{}
