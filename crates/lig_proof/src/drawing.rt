//! Drawing numbers from a key.

ghost use Rattle.std.specs.Prelude.{◌≡◌, ◌<◌, ◌≤◌, ◌+◌, ◌*◌, ◌%◌, ◌^◌, ◌++◌, OnOk, length};
ghost use Rattle.rand_chacha.specs.ChaCha.{ChaCha, key_of, word_at};
ghost use Rattle.lig_proof.specs.Drawing.{numbers_of, number_at};

use gold_field::Gold;
use rand_chacha::ChaCha20Rng;
use rand_core::utils::NextWord;
use std::alloc::{AllocError, Global};

// The next number of the field, of two words, the low one first.
fn next_number(words: &mut ChaCha20Rng) -> Gold
    requires { words.old.word_pos + 2 < 2 ^ 68 }
    ensures value { result ≡ number_at words.old.key words.old.stream words.old.word_pos }
    ensures after { words.new ≡ record words.old { word_pos = words.old.word_pos + 2 } }
{
    let low = words.next_word();
    let high = words.next_word();
    Gold::from_wide(u128::from(low) + (u128::from(high) << 32))
}

/// The next word of ChaCha20, which has 10 double rounds, modulo a number of columns.
pub fn next_column(words: &mut ChaCha20Rng, columns: u32) -> u32
    requires some { 0 < columns }
    requires left { words.old.word_pos + 1 < 2 ^ 68 }
    ensures value { result
        ≡ word_at 10 words.old.key words.old.stream words.old.word_pos % columns }
    ensures after { words.new ≡ record words.old { word_pos = words.old.word_pos + 1 } }
{
    words.next_word() % columns
}

/// Draws so many numbers, and appends them.
pub fn draw(out: &mut Vec<Gold>, words: &mut ChaCha20Rng, count: u32) -> Result<(), AllocError>
    requires { words.old.word_pos + 2 * count < 2 ^ 68 }
    ensures drawn { OnOk result
        (out.new.items ≡ out.old.items
        ++ numbers_of words.old.key words.old.stream words.old.word_pos count) }
    ensures after { OnOk result
        (words.new ≡ record words.old { word_pos = words.old.word_pos + 2 * count }) }
{
    for _ in 0..count {
        out.push(next_number(words))?;
    }
    Ok(())
}
