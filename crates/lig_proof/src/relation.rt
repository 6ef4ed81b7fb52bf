//! The relation of which values are proved.

ghost use Rattle.std.specs.Prelude.{◌≡◌};
ghost use Rattle.sha2.specs.Sha256.{sha256};

use lig_merkle::Hash;
use sha2::{Digest, Sha256};

/// A relation: the bytes of its `.r1cs` file, with their SHA-256 digest, so that it is taken once.
#[derive(Clone, Copy)]
pub struct Relation<'a> {
    pub bytes: &'a [u8],
    pub digest: Hash,
    pub ghost digested: { digest ≡ sha256 bytes.now },
}

impl<'a> Relation<'a> {
    /// The relation of the file with these bytes. It takes no memory.
    pub fn of(bytes: &'a [u8]) -> Relation<'a>
        ensures { result.bytes.now ≡ bytes.now }
    {
        Relation {
            bytes,
            digest: Sha256::digest(bytes),
        }
    }
}
