ghost use Rattle.std.specs.Prelude.{◌≡◌, ◌∷◌, ℕ, List, IfOk};
ghost use Rattle.out_io.specs.Contents.{Contents, bytes_of};
ghost use Rattle.out_io.specs.Faults.{CountsFaults, faults_after};
ghost use Rattle.out_io.specs.History.{Call, Read, Write, Wrote, found_of};

use crate::IoFault;
use std::alloc::Global;

/// Named files.
pub trait Store {
    // Whether these may be its contents: they agree with all its answers so far.
    ghost may_hold: { Self → Contents → Type 0 };

    // Its calls so far, of which the last one stands first.
    ghost calls: { Self → List Call };

    // How many of its calls have failed.
    ghost faults: { Self → ℕ };

    // No call fails from here on, for want of memory excepted.
    ghost never_fails: { Self → Type 0 };

    /// The bytes under `name`, or `None` exactly where the name isn't there.
    fn read(&mut self, alloc: Global, name: &str) -> Result<Option<Vec<u8>>, IoFault>
        ensures there { IfOk result (λ found. (files : Contents) →
            may_hold self.new files → bytes_of found ≡ files name.now) }
        ensures still { (files : Contents) → may_hold self.new files → may_hold self.old files }
        ensures again { (files : Contents) → may_hold self.old files →
            IfOk result (λ found. bytes_of found ≡ files name.now) → may_hold self.new files }
        ensures asked { calls self.new ≡ Read name.now (found_of result) ∷ calls self.old }

        ensures cause { CountsFaults (faults self.old) (faults self.new) result }
        ensures counted { faults self.new ≡ faults_after result (faults self.old) }
        ensures steady { never_fails self.old → never_fails self.new
            × (faults self.new ≡ faults self.old) };

    /// Makes `name` hold exactly `bytes`. After an error it is as before or holds a prefix of them.
    fn write(&mut self, alloc: Global, name: &str, bytes: &[u8]) -> Result<(), IoFault>
        ensures wrote { (after : Contents) → may_hold self.new after →
            (files : Contents) × may_hold self.old files
            × Wrote result name.now bytes.now files after }
        ensures asked { calls self.new ≡ Write name.now bytes.now result ∷ calls self.old }

        ensures cause { CountsFaults (faults self.old) (faults self.new) result }
        ensures counted { faults self.new ≡ faults_after result (faults self.old) }
        ensures steady { never_fails self.old → never_fails self.new
            × (faults self.new ≡ faults self.old) };
}
