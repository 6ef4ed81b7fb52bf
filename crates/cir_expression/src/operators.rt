ghost use Rattle.std.specs.Prelude.{◌≡◌, ◌<◌, None, true, false};
ghost use Rattle.cir_token.specs.declared.token.Symbol.TheVariants.{Question};
ghost use Rattle.cir_ast.specs.Shape.{level_of};
ghost use Rattle.cir_expression.specs.Front.{begins};
ghost use Rattle.cir_expression.specs.Reading.{unary_of, unary_at, binary_of, binary_at, continues};
ghost use Rattle.cir_expression.specs.Answers.{kinds};

use crate::reader::Reader;
use cir_ast::tree::{Binary, Unary};
use cir_token::{Symbol, TokenKind};

impl<'a> Reader<'a> {
    /// The operator before an operand that comes next.
    pub fn unary(&self) -> Option<Unary>
        ensures { result ≡ unary_at (kinds self.now.rest.now) }
    {
        match self.rest.first() {
            Some(token) => match &token.kind {
                TokenKind::Symbol(found) => unary_of(*found),
                _ => None,
            },
            None => None,
        }
    }

    fn binary(&self) -> Option<Binary>
        ensures { result ≡ binary_at (kinds self.now.rest.now) }
    {
        match self.rest.first() {
            Some(token) => match &token.kind {
                TokenKind::Symbol(found) => binary_of(*found),
                _ => None,
            },
            None => None,
        }
    }

    /// The operator of this level or a tighter one that comes next.
    pub fn continues(&self, level: u32) -> Option<Binary>
        ensures { result ≡ continues level (kinds self.now.rest.now) }
    {
        match self.binary() {
            Some(op) if level <= level_of(op) => Some(op),
            _ => None,
        }
    }

    /// Whether no operator of this level or a tighter one comes next, and no `?`. It may say no
    /// without need.
    pub fn ends(&self, level: u32) -> bool
        ensures operator { result ≡ true → continues level (kinds self.now.rest.now) ≡ None }
        ensures choice { result ≡ true → begins Question (kinds self.now.rest.now) ≡ false }
    {
        self.continues(level).is_none() && !self.begins(Symbol::Question)
    }
}

/// The operator before an operand that this symbol is.
pub fn unary_of(symbol: Symbol) -> Option<Unary>
    ensures { result ≡ unary_of symbol }
{
    match symbol {
        Symbol::Minus => Some(Unary::Negate),
        Symbol::Bang => Some(Unary::Not),
        Symbol::Tilde => Some(Unary::Complement),
        _ => None,
    }
}

/// The operator between two operands that this symbol is.
pub fn binary_of(symbol: Symbol) -> Option<Binary>
    ensures { result ≡ binary_of symbol }
{
    match symbol {
        Symbol::StarStar => Some(Binary::Pow),
        Symbol::Star => Some(Binary::Mul),
        Symbol::Slash => Some(Binary::Div),
        Symbol::Backslash => Some(Binary::Quotient),
        Symbol::Percent => Some(Binary::Remainder),
        Symbol::Plus => Some(Binary::Add),
        Symbol::Minus => Some(Binary::Sub),
        Symbol::ShiftLeft => Some(Binary::ShiftLeft),
        Symbol::ShiftRight => Some(Binary::ShiftRight),
        Symbol::Ampersand => Some(Binary::BitAnd),
        Symbol::Caret => Some(Binary::BitXor),
        Symbol::Bar => Some(Binary::BitOr),
        Symbol::EqualEqual => Some(Binary::Equal),
        Symbol::BangEqual => Some(Binary::NotEqual),
        Symbol::Less => Some(Binary::Less),
        Symbol::LessEqual => Some(Binary::LessEqual),
        Symbol::Greater => Some(Binary::Greater),
        Symbol::GreaterEqual => Some(Binary::GreaterEqual),
        Symbol::AmpersandAmpersand => Some(Binary::And),
        Symbol::BarBar => Some(Binary::Or),
        _ => None,
    }
}

/// How tightly an operator binds; 2 is the loosest.
pub fn level_of(op: Binary) -> u32
    ensures is { result ≡ level_of op }
    ensures low { result < 12 }
{
    match op {
        Binary::Pow => 11,
        Binary::Mul | Binary::Div | Binary::Quotient | Binary::Remainder => 10,
        Binary::Add | Binary::Sub => 9,
        Binary::ShiftLeft | Binary::ShiftRight => 8,
        Binary::BitAnd => 7,
        Binary::BitXor => 6,
        Binary::BitOr => 5,
        Binary::Equal
        | Binary::NotEqual
        | Binary::Less
        | Binary::LessEqual
        | Binary::Greater
        | Binary::GreaterEqual => 4,
        Binary::And => 3,
        Binary::Or => 2,
    }
}
