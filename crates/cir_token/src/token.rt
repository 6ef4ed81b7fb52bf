use text::Text;

/// A token: what it is, the offset of its first byte, and the number of its bytes.
#[derive(Drop)]
pub struct Token {
    pub kind: TokenKind,
    pub offset: u32,
    pub len: u32,
}

/// What a token is.
#[derive(Drop)]
pub enum TokenKind {
    Reserved(Reserved),
    /// An identifier that isn't a reserved word.
    Name(Text),
    /// A `_` that begins no identifier.
    Underscore,
    /// A decimal or hexadecimal number, before any reduction.
    Number(u128),
    /// The characters between the quotes.
    Str(Text),
    Symbol(Symbol),
}

/// A reserved word.
#[derive(Clone, Copy, PartialEq, Eq)]
pub enum Reserved {
    Pragma,
    Include,
    Template,
    Function,
    Parallel,
    Component,
    Main,
    Public,
    Signal,
    Input,
    Output,
    Var,
    If,
    Else,
    For,
    While,
    Return,
    Assert,
    Log,
    Bus,
}

/// A symbol: an operator, an arrow, or punctuation.
#[derive(Clone, Copy, PartialEq, Eq)]
pub enum Symbol {
    /// `<==`
    ConstrainLeft,
    /// `==>`
    ConstrainRight,
    /// `<--`
    AssignLeft,
    /// `-->`
    AssignRight,
    /// `===`
    Constrain,
    /// `**=`
    StarStarEqual,
    /// `<<=`
    ShiftLeftEqual,
    /// `>>=`
    ShiftRightEqual,
    /// `+=`
    PlusEqual,
    /// `-=`
    MinusEqual,
    /// `*=`
    StarEqual,
    /// `/=`
    SlashEqual,
    /// `\=`
    BackslashEqual,
    /// `%=`
    PercentEqual,
    /// `&=`
    AmpersandEqual,
    /// `|=`
    BarEqual,
    /// `^=`
    CaretEqual,
    /// `&&`
    AmpersandAmpersand,
    /// `||`
    BarBar,
    /// `==`
    EqualEqual,
    /// `!=`
    BangEqual,
    /// `<=`
    LessEqual,
    /// `>=`
    GreaterEqual,
    /// `<<`
    ShiftLeft,
    /// `>>`
    ShiftRight,
    /// `**`
    StarStar,
    /// `++`
    PlusPlus,
    /// `--`
    MinusMinus,
    /// `<`
    Less,
    /// `>`
    Greater,
    /// `+`
    Plus,
    /// `-`
    Minus,
    /// `*`
    Star,
    /// `/`
    Slash,
    /// `\`
    Backslash,
    /// `%`
    Percent,
    /// `&`
    Ampersand,
    /// `|`
    Bar,
    /// `^`
    Caret,
    /// `!`
    Bang,
    /// `~`
    Tilde,
    /// `=`
    Equal,
    /// `?`
    Question,
    /// `:`
    Colon,
    /// `,`
    Comma,
    /// `;`
    Semicolon,
    /// `.`
    Dot,
    /// `(`
    OpenParenthesis,
    /// `)`
    CloseParenthesis,
    /// `[`
    OpenBracket,
    /// `]`
    CloseBracket,
    /// `{`
    OpenBrace,
    /// `}`
    CloseBrace,
}

/// Why a source has no reading as tokens.
#[derive(Clone, Copy, PartialEq, Eq)]
pub enum LexCause {
    /// A byte that begins no valid character, or a character that begins no token and no gap.
    BadChar,
    /// A `/*` without a `*/` behind it.
    OpenComment,
    /// A `"` whose string isn't ended on its line.
    OpenString,
    /// A number of 2^128 or more.
    NumberTooWide,
}
