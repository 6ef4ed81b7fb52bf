//! Kinds of bytes.
ghost use Rattle.std.specs.Prelude.{◌≡◌, ◌<◌};
ghost use Rattle.cir_lexer.specs.Bytes.{is_blank, is_letter, is_digit, is_mark, is_name_byte};
ghost use Rattle.cir_lexer.specs.Bytes.{is_hexadecimal, digit_value};
ghost use Rattle.cir_lexer.specs.Class.{class_of};

/// What the first byte of a token or a gap can be.
#[derive(Clone, Copy)]
pub(crate) enum Class {
    Blank,
    /// Of an identifier or of `_`.
    Word,
    Digit,
    Quote,
    Other,
}

pub(crate) fn class_of(byte: u8) -> Class
    ensures { result ≡ class_of byte }
{
    if is_blank(byte) {
        Class::Blank
    } else if is_letter(byte) || is_mark(byte) {
        Class::Word
    } else if is_digit(byte) {
        Class::Digit
    } else if byte == b'"' {
        Class::Quote
    } else {
        Class::Other
    }
}

#[tactic(auto, unfolding(crate::specs::Bytes::is_blank))]
pub(crate) fn is_blank(byte: u8) -> bool
    ensures { result ≡ is_blank byte }
{
    byte == b' ' || byte == b'\t' || byte == b'\r' || byte == b'\n'
}

#[tactic(auto, unfolding(crate::specs::Bytes::is_letter))]
pub(crate) fn is_letter(byte: u8) -> bool
    ensures { result ≡ is_letter byte }
{
    (byte >= b'a' && byte <= b'z') || (byte >= b'A' && byte <= b'Z')
}

#[tactic(auto, unfolding(crate::specs::Bytes::is_mark))]
pub(crate) fn is_mark(byte: u8) -> bool
    ensures { result ≡ is_mark byte }
{
    byte == b'$' || byte == b'_'
}

#[tactic(auto, unfolding(crate::specs::Bytes::is_digit))]
pub(crate) fn is_digit(byte: u8) -> bool
    ensures { result ≡ is_digit byte }
{
    byte >= b'0' && byte <= b'9'
}

pub(crate) fn is_name_byte(byte: u8) -> bool
    ensures { result ≡ is_name_byte byte }
{
    is_letter(byte) || is_mark(byte) || is_digit(byte)
}

#[tactic(auto, unfolding(crate::specs::Bytes::is_hexadecimal))]
pub(crate) fn is_hexadecimal(byte: u8) -> bool
    ensures { result ≡ is_hexadecimal byte }
{
    is_digit(byte) || (byte >= b'a' && byte <= b'f') || (byte >= b'A' && byte <= b'F')
}

/// What a decimal or hexadecimal digit counts.
#[tactic(auto, unfolding(crate::specs::Bytes::digit_value))]
pub(crate) fn digit_value(byte: u8) -> u8
    ensures { result ≡ digit_value byte }
{
    if is_digit(byte) {
        byte.saturating_sub(b'0')
    } else if byte >= b'a' {
        byte.saturating_sub(b'a' - 10)
    } else {
        byte.saturating_sub(b'A' - 10)
    }
}
