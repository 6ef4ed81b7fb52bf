//! The numbers that values stand for.

ghost use Rattle.std.specs.Prelude.{◌≡◌, ◌≤◌, option_map};
ghost use Rattle.serde_json.specs.Find.{as_integer};
ghost use Rattle.serde_json.specs.View.{view, number_view};
ghost use Rattle.wit_input.specs.Numbers.{number_of, residue, text_number, whole_of, limited};
ghost use Rattle.wit_input.specs.Numbers.{digits_of, digits_from};

use gold_field::Gold;
use serde_json::{Number, Value};

/// The number of the field that the value stands for, if it stands for one.
pub(crate) fn number(value: &Value) -> Option<Gold>
    ensures { result ≡ number_of (view value.now) }
{
    match value {
        Value::Number(number) => integer(number),
        Value::String(text) => in_text(text.as_bytes()),
        Value::Null => None,
        Value::Bool(_) => None,
        Value::Array(_) => None,
        Value::Object(_) => None,
    }
}

// A whole number, with or without a sign.
fn integer(number: &Number) -> Option<Gold>
    ensures { result ≡ option_map residue (as_integer (number_view number.now)) }
{
    let number = number.as_i128()?;
    let size = Gold::from_wide(number.unsigned_abs());
    if number < 0 {
        Some(size.neg())
    } else {
        Some(size)
    }
}

// Digits, perhaps behind a sign.
fn in_text(text: &[u8]) -> Option<Gold>
    ensures { result ≡ text_number text.now }
{
    if text.is_empty() {
        return None;
    }
    if text[0] == b'-' {
        let size = whole(&text[1..])?;
        return Some(Gold::from_wide(size).neg());
    }
    let size = whole(text)?;
    Some(Gold::from_wide(size))
}

// Decimal digits, or `0x` and hexadecimal digits, of a number below 2^128.
fn whole(text: &[u8]) -> Option<u128>
    ensures { result ≡ whole_of text.now }
{
    if text.starts_with(b"0x") {
        digits(16, &text[2..])
    } else {
        digits(10, text)
    }
}

// One or more digits.
fn digits(base: u32, text: &[u8]) -> Option<u128>
    requires low { 2 ≤ base }
    requires high { base ≤ 36 }
    ensures { result ≡ limited (digits_of base text.now) }
{
    if text.is_empty() {
        return None;
    }
    digits_below(base, text)
}

fn digits_below(base: u32, text: &[u8]) -> Option<u128>
    requires low { 2 ≤ base }
    requires high { base ≤ 36 }
    ensures { result ≡ limited (digits_from base 0 text.now) }
{
    let mut number: u128 = 0;
    for byte in text {
        let digit = char::from(*byte).to_digit(base)?;
        number = number
            .checked_mul(u128::from(base))?
            .checked_add(u128::from(digit))?;
    }
    Some(number)
}
