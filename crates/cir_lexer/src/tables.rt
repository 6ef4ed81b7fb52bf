//! The reserved words and the symbols by their first byte, as the tables have them.
ghost use Rattle.std.specs.Prelude.{◌≡◌};
ghost use Rattle.cir_lexer.specs.Class.{words_from, symbols_from};

use cir_token::Reserved::*;
use cir_token::Symbol::*;
use cir_token::{Reserved, Symbol};

/// The reserved words that begin with this byte.
pub(crate) fn words_from(first: u8) -> &'static [Reserved]
    ensures { result.now ≡ words_from first }
{
    match first {
        b'p' => &[Pragma, Parallel, Public],
        b'i' => &[Include, Input, If],
        b't' => &[Template],
        b'f' => &[Function, For],
        b'c' => &[Component],
        b'm' => &[Main],
        b's' => &[Signal],
        b'o' => &[Output],
        b'v' => &[Var],
        b'e' => &[Else],
        b'w' => &[While],
        b'r' => &[Return],
        b'a' => &[Assert],
        b'l' => &[Log],
        b'b' => &[Bus],
        _ => &[],
    }
}

/// The symbols that begin with this byte, the longest first.
pub(crate) fn symbols_from(first: u8) -> &'static [Symbol]
    ensures { result.now ≡ symbols_from first }
{
    match first {
        b'(' => &[OpenParenthesis],
        b')' => &[CloseParenthesis],
        b',' => &[Comma],
        b';' => &[Semicolon],
        b'[' => &[OpenBracket],
        b']' => &[CloseBracket],
        b'{' => &[OpenBrace],
        b'}' => &[CloseBrace],
        b'.' => &[Dot],
        b'<' => &[
            ConstrainLeft,
            AssignLeft,
            ShiftLeftEqual,
            LessEqual,
            ShiftLeft,
            Less,
        ],
        b'=' => &[ConstrainRight, Constrain, EqualEqual, Equal],
        b'-' => &[AssignRight, MinusEqual, MinusMinus, Minus],
        b'*' => &[StarStarEqual, StarEqual, StarStar, Star],
        b'>' => &[ShiftRightEqual, GreaterEqual, ShiftRight, Greater],
        b'+' => &[PlusEqual, PlusPlus, Plus],
        b'&' => &[AmpersandEqual, AmpersandAmpersand, Ampersand],
        b'|' => &[BarEqual, BarBar, Bar],
        b'!' => &[BangEqual, Bang],
        b'/' => &[SlashEqual, Slash],
        b'\\' => &[BackslashEqual, Backslash],
        b'%' => &[PercentEqual, Percent],
        b'^' => &[CaretEqual, Caret],
        b':' => &[Colon],
        b'?' => &[Question],
        b'~' => &[Tilde],
        _ => &[],
    }
}
