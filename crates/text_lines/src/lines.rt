ghost use Rattle.std.specs.Prelude.{◌≡◌, ◌∷◌, ◌<◌, [], length, MatchOption, IfSome, None, Some};
ghost use Rattle.text_lines.specs.Lines.{split_once, lines_of};

/// What stands before the first such byte, and what stands behind it.
pub fn split_once(bytes: &[u8], byte: u8) -> Option<(&[u8], &[u8])>
    ensures split { MatchOption result (split_once byte bytes.now ≡ None)
        (λ r. split_once byte bytes.now ≡ Some (r.0.now, r.1.now)) }
    ensures shorter { IfSome result (λ r. length r.1.now < length bytes.now) }
{
    let Some(place) = bytes.iter().position(|b| *b == byte) else {
        return None;
    };
    Some((&bytes[..place], &bytes[place + 1..]))
}

/// The first line of a text, and the text behind it; None where there is no line.
pub fn first_line(text: &[u8]) -> Option<(&[u8], &[u8])>
    ensures lines { MatchOption result (lines_of text.now ≡ [])
        (λ r. lines_of text.now ≡ r.0.now ∷ lines_of r.1.now) }
    ensures shorter { IfSome result (λ r. length r.1.now < length text.now) }
{
    if text.is_empty() {
        return None;
    }
    let found = split_once(text, b'\n');
    if found.is_some() {
        return found;
    }
    Some(text.split_at(text.len()))
}
