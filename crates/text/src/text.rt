ghost use Rattle.std.specs.Prelude.{◌≡◌, ◌↔◌, ℕ, List, [], length, IsTrue, IfOk};

use std::alloc::{AllocError, Global};
use std::marker::Model;

/// How many bytes a text holds in itself, so that it takes 24 bytes in all.
const ROOM: usize = 22;

/// The bytes of a name, a string or a path. In every contract it is the list of its bytes.
///
/// Up to 22 bytes lie in the value itself, so the names of a source, which are many and short, take
/// no memory of their own.
pub struct Text {
    stored: Stored,
}

#[derive(Drop)]
enum Stored {
    Few { len: u8, bytes: [u8; ROOM] },
    Many(Box<Vec<u8>>),
}

impl Model for Text {
    ghost use Rattle.std.specs.Prelude.{ℕ, List};
    ghost use Rattle.text.specs.Stored.{bytes_of, IsSound};

    ghost Value = { List ℕ };

    ghost view = { λ t. bytes_of t.stored };

    ghost invariant = { λ t. IsSound t.stored };
}

// Written out, so that the proof of an owner sees one call and not the two cases of what is stored.
impl Drop for Text {
    fn drop(self) {
        let Text { stored: _stored } = self;
    }
}

impl Text {
    /// Takes no memory.
    pub fn new() -> Text
        ensures { result ≡ [] }
    {
        let bytes = [0; ROOM];
        Text {
            stored: Stored::Few { len: 0, bytes },
        }
    }

    /// Takes memory where there are more than 22 bytes.
    pub fn from_slice(alloc: Global, bytes: &[u8]) -> Result<Text, AllocError>
        ensures { IfOk result (λ text. text ≡ bytes.now) }
    {
        if bytes.len() > ROOM {
            let bytes = Vec::from_slice(alloc, bytes)?;
            let stored = Stored::Many(Box::new(alloc, bytes)?);
            return Ok(Text { stored });
        }
        let len = bytes.len();
        let mut few = [0; ROOM];
        few[..len].copy_from_slice(bytes);
        let stored = Stored::Few {
            len: len as u8,
            bytes: few,
        };
        Ok(Text { stored })
    }

    /// The bytes, wherever they lie.
    pub fn as_slice(&self) -> &[u8]
        ensures { result.now ≡ self.now }
    {
        match &self.stored {
            Stored::Few { len, bytes } => &bytes[..*len as usize],
            Stored::Many(bytes) => bytes.as_slice(),
        }
    }

    /// How many bytes there are; a character may take several.
    pub fn len(&self) -> usize
        ensures { result ≡ length self.now }
    {
        self.as_slice().len()
    }

    /// Whether there is no byte.
    pub fn is_empty(&self) -> bool
        ensures { IsTrue result ↔ (self.now ≡ []) }
    {
        self.as_slice().is_empty()
    }
}
