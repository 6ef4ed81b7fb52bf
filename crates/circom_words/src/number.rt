//! Numbers among the words.

ghost use Rattle.std.specs.Prelude.{◌≡◌, ◌≤◌, IfSome};
ghost use Rattle.circom_words.specs.Numbers.{within, digits_from, number_in};

/// The number that the word spells, where it is in the range.
pub fn number_in(low: u32, high: u32, word: &[u8]) -> Option<u32>
    ensures number { result ≡ number_in low high word.now }
    ensures range { IfSome result (λ n. (low ≤ n) × (n ≤ high)) }
{
    if word.is_empty() {
        return None;
    }
    digits_in(low, high, word)
}

fn digits_in(low: u32, high: u32, word: &[u8]) -> Option<u32>
    ensures number { result ≡ within low high (digits_from 0 word.now) }
    ensures range { IfSome result (λ n. (low ≤ n) × (n ≤ high)) }
{
    let mut number: u32 = 0;
    for byte in word {
        let digit = char::from(*byte).to_digit(10)?;
        number = number.checked_mul(10)?.checked_add(digit)?;
    }
    if low <= number && number <= high {
        Some(number)
    } else {
        None
    }
}
