ghost use Rattle.std.specs.Prelude.{◌≡◌, ◌∷◌, ℕ, List};
ghost use Rattle.out_io.specs.Faults.{CountsFaults, faults_after};
ghost use Rattle.out_io.specs.History.{Appended, Call, Put};

use crate::IoFault;

/// Where printed bytes go.
pub trait Sink {
    // Whether this may be what was put so far: it agrees with all its answers.
    ghost may_have: { Self → List ℕ → Type 0 };

    // Its calls so far, of which the last one stands first.
    ghost calls: { Self → List Call };

    // How many of its calls have failed.
    ghost faults: { Self → ℕ };

    // No call fails from here on, for want of memory excepted.
    ghost never_fails: { Self → Type 0 };

    /// Appends all of `bytes`, or after an error a prefix of them.
    fn put(&mut self, bytes: &[u8]) -> Result<(), IoFault>
        ensures appended { (text : List ℕ) → may_have self.new text →
            (before : List ℕ) × may_have self.old before
            × Appended result bytes.now before text }
        ensures asked { calls self.new ≡ Put bytes.now result ∷ calls self.old }

        ensures cause { CountsFaults (faults self.old) (faults self.new) result }
        ensures counted { faults self.new ≡ faults_after result (faults self.old) }
        ensures steady { never_fails self.old → never_fails self.new
            × (faults self.new ≡ faults self.old) };
}
