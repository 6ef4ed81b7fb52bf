//! Laws of files of symbols, as functions that do nothing: the law is what each ensures.
ghost use Rattle.std.specs.Prelude.{◌≡◌, ◌↔◌, ℕ, ◌≤◌, List, All, length, Some};
ghost use Rattle.std.specs.Prelude.{Ok};
ghost use Rattle.sym_file.specs.declared.line.SymLine.{SymLine as ASymLine};
ghost use Rattle.cir_values.specs.declared.signals.Signals.{Signals as AnySignals};
ghost use Rattle.sym_file.specs.Line.{IsWritten, Says, said, symbols_of, symbols_text};
ghost use Rattle.sym_file.specs.Table.{AreLinesOf, CanAllBeNamed};

/// A line says what its parts say, and nothing where it has no such parts.
pub fn lines_say_their_parts()
    ensures { (line : List ℕ) (s : ASymLine) → said line ≡ Some s ↔ Says line s }
{}

/// Lines that were written are read back.
pub fn written_lines_are_read()
    ensures { (lines : List ASymLine) → All IsWritten lines → length lines ≤ 16777216
        → symbols_of (symbols_text lines) ≡ Ok lines }
{}

/// Signals that can be named have one list of lines.
pub fn signals_have_one_list()
    ensures { (signals : AnySignals) (instances : List (List ℕ)) (kept : List ℕ)
        (a b : List ASymLine) → CanAllBeNamed signals instances
        → AreLinesOf signals instances kept a → AreLinesOf signals instances kept b
        → a ≡ b }
{}
