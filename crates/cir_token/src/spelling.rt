//! How reserved words and symbols are spelled.
ghost use Rattle.std.specs.Prelude.{◌≡◌};
ghost use Rattle.cir_token.specs.Spelling.{reserved_bytes, symbol_bytes};

use crate::token::{Reserved, Symbol};

impl Reserved {
    /// The word as a source has it.
    pub fn spelling(self) -> &'static [u8]
        ensures { result.now ≡ reserved_bytes self }
    {
        match self {
            Reserved::Pragma => b"pragma",
            Reserved::Include => b"include",
            Reserved::Template => b"template",
            Reserved::Function => b"function",
            Reserved::Parallel => b"parallel",
            Reserved::Component => b"component",
            Reserved::Main => b"main",
            Reserved::Public => b"public",
            Reserved::Signal => b"signal",
            Reserved::Input => b"input",
            Reserved::Output => b"output",
            Reserved::Var => b"var",
            Reserved::If => b"if",
            Reserved::Else => b"else",
            Reserved::For => b"for",
            Reserved::While => b"while",
            Reserved::Return => b"return",
            Reserved::Assert => b"assert",
            Reserved::Log => b"log",
            Reserved::Bus => b"bus",
        }
    }
}

impl Symbol {
    /// The symbol as a source has it.
    pub fn spelling(self) -> &'static [u8]
        ensures { result.now ≡ symbol_bytes self }
    {
        match self {
            Symbol::ConstrainLeft => b"<==",
            Symbol::ConstrainRight => b"==>",
            Symbol::AssignLeft => b"<--",
            Symbol::AssignRight => b"-->",
            Symbol::Constrain => b"===",
            Symbol::StarStarEqual => b"**=",
            Symbol::ShiftLeftEqual => b"<<=",
            Symbol::ShiftRightEqual => b">>=",
            Symbol::PlusEqual => b"+=",
            Symbol::MinusEqual => b"-=",
            Symbol::StarEqual => b"*=",
            Symbol::SlashEqual => b"/=",
            Symbol::BackslashEqual => b"\\=",
            Symbol::PercentEqual => b"%=",
            Symbol::AmpersandEqual => b"&=",
            Symbol::BarEqual => b"|=",
            Symbol::CaretEqual => b"^=",
            Symbol::AmpersandAmpersand => b"&&",
            Symbol::BarBar => b"||",
            Symbol::EqualEqual => b"==",
            Symbol::BangEqual => b"!=",
            Symbol::LessEqual => b"<=",
            Symbol::GreaterEqual => b">=",
            Symbol::ShiftLeft => b"<<",
            Symbol::ShiftRight => b">>",
            Symbol::StarStar => b"**",
            Symbol::PlusPlus => b"++",
            Symbol::MinusMinus => b"--",
            Symbol::Less => b"<",
            Symbol::Greater => b">",
            Symbol::Plus => b"+",
            Symbol::Minus => b"-",
            Symbol::Star => b"*",
            Symbol::Slash => b"/",
            Symbol::Backslash => b"\\",
            Symbol::Percent => b"%",
            Symbol::Ampersand => b"&",
            Symbol::Bar => b"|",
            Symbol::Caret => b"^",
            Symbol::Bang => b"!",
            Symbol::Tilde => b"~",
            Symbol::Equal => b"=",
            Symbol::Question => b"?",
            Symbol::Colon => b":",
            Symbol::Comma => b",",
            Symbol::Semicolon => b";",
            Symbol::Dot => b".",
            Symbol::OpenParenthesis => b"(",
            Symbol::CloseParenthesis => b")",
            Symbol::OpenBracket => b"[",
            Symbol::CloseBracket => b"]",
            Symbol::OpenBrace => b"{",
            Symbol::CloseBrace => b"}",
        }
    }
}
