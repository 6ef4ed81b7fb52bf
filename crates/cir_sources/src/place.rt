//! Places in a text, found from token to token.
ghost use Rattle.std.specs.Prelude.{◌≡◌, ◌+◌, ◌<◌, ◌≤◌, ◌^◌, length, fold, IfOk};
ghost use Rattle.cir_ast.specs.Spot.{behind, spot_at};
ghost use Rattle.cir_sources.specs.Places.{IsRight, most_bytes, spots_of, spot_of};

use cir_ast::program::Spot;
use cir_lexer::Token;
use std::alloc::{AllocError, Global};

/// The place behind these bytes, from the place before them.
fn behind_all(from: Spot, bytes: &[u8]) -> Spot
    requires line { from.line + length bytes.now < 2 ^ 31 }
    requires column { from.column + length bytes.now < 2 ^ 31 }
    ensures spot { result ≡ fold behind from bytes.now }
    ensures line { result.line ≤ from.line + length bytes.now }
    ensures column { result.column ≤ from.column + length bytes.now }
{
    let mut spot = from;
    for byte in bytes {
        if *byte == b'\n' {
            spot.line += 1;
            spot.column = 1;
        } else {
            spot.column += 1;
        }
    }
    spot
}

/// A walk over a text. It goes on from place to place, so that it is linear where the places come
/// in order.
#[derive(Clone, Copy)]
pub(crate) struct Places<'t> {
    pub(crate) bytes: &'t [u8],
    at: usize,
    spot: Spot,
}

impl<'t> Places<'t> {
    pub(crate) fn new(bytes: &'t [u8]) -> Places<'t>
        requires { length bytes.now ≤ most_bytes }
        ensures right { IsRight result }
        ensures bytes { result.bytes.now ≡ bytes.now }
    {
        Places {
            bytes,
            at: 0,
            spot: Spot { line: 1, column: 1 },
        }
    }

    // Goes to the start where the walk is behind this offset.
    fn go_back(&mut self, to: usize)
        requires { IsRight self.old }
        ensures right { IsRight self.new }
        ensures before { self.new.at ≤ to }
        ensures bytes { self.new.bytes.now ≡ self.old.bytes.now }
    {
        if to < self.at {
            self.at = 0;
            self.spot = Spot { line: 1, column: 1 };
        }
    }

    /// The place of the byte at this offset, that of the end for an offset behind it.
    #[tactic(auto, using(crate::proofs::Walk::spot_on, crate::proofs::Walk::spot_min))]
    pub(crate) fn of_offset(&mut self, offset: u32) -> Spot
        requires { IsRight self.old }
        ensures spot { result ≡ spot_at self.old.bytes.now offset }
        ensures right { IsRight self.new }
        ensures bytes { self.new.bytes.now ≡ self.old.bytes.now }
    {
        let to = self.bytes.len().min(offset as usize);
        self.go_back(to);
        let spot = behind_all(self.spot, &self.bytes[self.at..to]);
        self.at = to;
        self.spot = spot;
        spot
    }
}

/// The places of the tokens, found in one pass over the bytes.
pub(crate) fn spots(alloc: Global, bytes: &[u8], tokens: &[Token]) -> Result<Vec<Spot>, AllocError>
    requires { length bytes.now ≤ most_bytes }
    ensures { IfOk result (λ v. v.items ≡ spots_of bytes.now tokens.now) }
{
    let mut places = Places::new(bytes);
    let mut spots = Vec::with_capacity(alloc, tokens.len())?;
    for token in tokens {
        let spot = places.of_offset(token.offset);
        spots.push(spot)?;
    }
    Ok(spots)
}

/// The place of the token with this number, the start of the text where there is none.
pub(crate) fn spot_of(spots: &[Spot], token: u32) -> Spot
    ensures { result ≡ spot_of spots.now token }
{
    match spots.get(token as usize) {
        Some(spot) => *spot,
        None => Spot { line: 1, column: 1 },
    }
}
