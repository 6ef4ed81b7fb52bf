ghost use Rattle.std.specs.Prelude.{ℕ, List, Option};
ghost use Rattle.std.specs.Borrow.{ftrue};
ghost use Rattle.flow_core.specs.Flow.{Flow};
ghost use Rattle.flow_core.specs.declared.Hold.{Hold};

use std::marker::Model;

/// What a seat knows. No value of it is made.
pub struct View {
    // The graph, the start values and the answers, which all seats of a board share.
    pub ghost flow: { Flow },
    pub ghost holding: { Option Hold },
    // The strands that it has done, and those that it has refused.
    pub ghost done: { List ℕ },
    pub ghost refused: { List ℕ },
    // The least refusal that it has seen, or the number of strands.
    pub ghost seen: { ℕ },
    // The word that its last step was on, and the number that it found there, or put there by a
    // store. Splits and joins are on no word.
    pub ghost word: { ℕ },
    pub ghost found: { ℕ },
    // How many steps it has made, and those of the seats that it took in.
    pub ghost steps: { ℕ },
    // How many of the board's 65 parts are its own.
    pub ghost share: { ℕ },
}

impl Model for View {
    ghost also_owns = { λ _. ftrue };
}
