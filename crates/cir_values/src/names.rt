ghost use Rattle.std.specs.Prelude.{◌≡◌, ◌+◌, ◌<◌, ◌≤◌, [], ◌∷◌, ◌++◌, IfOk, OnOk, Some, length};
ghost use Rattle.std.specs.Fmt.{decimal};
ghost use Rattle.cir_values.specs.Names.{IsNameOf, IsNamed, brackets};
ghost use Rattle.cir_values.specs.Places.{elements, place_of};
ghost use Rattle.cir_values.specs.Reading.{bracket_at, read_from};

use crate::signals::SignalName;
use itoa::Buffer;
use std::alloc::{AllocError, Global};
use text::Text;

/// The bytes of the longest index in its brackets.
const LONGEST: usize = 22;

/// The name of an element: the declared name, followed by the element's indices.
pub fn name_of(alloc: Global, name: &SignalName) -> Result<Text, AllocError>
    requires { IsNamed name.now }
    ensures { IfOk result (λ text. IsNameOf name.now text) }
{
    let base = name.base.as_slice();
    let end = declared_end(base);
    let dims = dimensions(alloc, &base[end..])?;
    let index = indices(alloc, dims.as_slice(), name.place)?;
    let text = indexed(alloc, &base[..end], index.as_slice())?;
    Ok(text)
}

// Where the declared name ends: at the first `[`, or with the bytes.
fn declared_end(base: &[u8]) -> usize
    ensures place { result ≡ bracket_at base.now }
    ensures within { result ≤ length base.now }
{
    for at in 0..base.len() {
        if base[at] == b'[' {
            return at;
        }
    }
    base.len()
}

// The numbers in brackets.
fn dimensions(alloc: Global, bytes: &[u8]) -> Result<Vec<u64>, AllocError>
    ensures { IfOk result (λ dims. dims.items ≡ read_from bytes.now 0 []) }
{
    let mut dims = Vec::new(alloc);
    let mut number = 0u64;
    for b in bytes {
        match *b {
            b'[' => number = 0,
            b']' => dims.push(number)?,
            digit => {
                number = number
                    .wrapping_mul(10)
                    .wrapping_add(u64::from(digit).saturating_sub(48))
            }
        }
    }
    Ok(dims)
}

// The indices of a place in row order.
fn indices(alloc: Global, dims: &[u64], place: u32) -> Result<Vec<u64>, AllocError>
    requires { place < elements dims.now }
    ensures { IfOk result (λ index. place_of dims.now index.items ≡ Some place) }
{
    let mut index = vec![in alloc; 0u64; dims.len()]?;
    let mut rest = place as u64;
    let mut at = dims.len();
    while at > 0 {
        at -= 1;
        index[at] = rest % dims[at];
        rest /= dims[at];
    }
    Ok(index)
}

/// A name, followed by its indices in brackets.
pub fn indexed(alloc: Global, declared: &[u8], index: &[u64]) -> Result<Text, AllocError>
    ensures { IfOk result (λ text. text ≡ declared.now ++ brackets index.now) }
{
    if index.is_empty() {
        return Text::from_slice(alloc, declared);
    }
    let room = index.len().saturating_mul(LONGEST);
    let mut text = Vec::with_capacity(alloc, declared.len().saturating_add(room))?;
    text.extend_from_slice(declared)?;
    for i in index {
        push_bracket(&mut text, *i)?;
    }
    Text::from_slice(alloc, text.as_slice())
}

fn push_bracket(text: &mut Vec<u8>, i: u64) -> Result<(), AllocError>
    ensures { OnOk result (text.new.items ≡ text.old.items ++ (91 ∷ (decimal i ++ (93 ∷ [])))) }
{
    let mut digits = Buffer::new();
    text.push(b'[')?;
    text.extend_from_slice(digits.format(i).as_bytes())?;
    text.push(b']')?;
    Ok(())
}
