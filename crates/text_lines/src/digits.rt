ghost use Rattle.std.specs.Prelude.{◌≡◌, ◌^◌};
ghost use Rattle.text_lines.specs.Number.{number_below, plain_below, has_leading_zero};

/// The number below 2^64 that decimal digits spell. There may be zeros before it, and no sign.
pub fn number(digits: &[u8]) -> Option<u64>
    ensures { result ≡ number_below (2 ^ 64) digits.now }
{
    if digits.is_empty() {
        return None;
    }
    if digits[0] == b'+' {
        return None;
    }
    match str::from_utf8(digits) {
        Ok(text) => text.parse::<u64>().ok(),
        Err(_) => None,
    }
}

/// The number below 2^32 that decimal digits spell, without zeros before it.
pub fn plain_number(digits: &[u8]) -> Option<u32>
    ensures { result ≡ plain_below (2 ^ 32) digits.now }
{
    if has_leading_zero(digits) {
        return None;
    }
    match number(digits) {
        Some(number) => {
            if number < 4294967296 {
                Some(number as u32)
            } else {
                None
            }
        }
        None => None,
    }
}

fn has_leading_zero(digits: &[u8]) -> bool
    ensures { result ≡ has_leading_zero digits.now }
{
    digits.len() > 1 && digits[0] == b'0'
}
