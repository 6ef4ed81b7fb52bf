//! Laws of texts of lines, as functions that do nothing: the law is what each ensures.
ghost use Rattle.std.specs.Prelude.{◌≡◌, ℕ, ◌<◌, ◌^◌, ◌≤◌, List, Option};
ghost use Rattle.std.specs.Prelude.{Some, Ok, All, map, length};
ghost use Rattle.std.specs.Prelude.{decimal};
ghost use Rattle.text_lines.specs.Lines.{lines_of, text_of, HasNo};
ghost use Rattle.text_lines.specs.Number.{plain_below};
ghost use Rattle.text_lines.specs.Reading.{reading};

/// The lines of a text that was written line by line are those that were written.
pub fn written_lines_are_read()
    ensures { (lines : List (List ℕ)) → All (HasNo 10) lines → lines_of (text_of lines) ≡ lines }
{}

/// Numbers without leading zeros are those that are written.
pub fn numbers_are_as_written()
    ensures read { (n : ℕ) → n < 2 ^ 32 → plain_below (2 ^ 32) (decimal n) ≡ Some n }
    ensures written { (n : ℕ) (digits : List ℕ) → plain_below (2 ^ 32) digits ≡ Some n
        → (digits ≡ decimal n) × (n < 2 ^ 32) }
{}
