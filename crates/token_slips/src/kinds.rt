//! Which tokens may stand side by side.

use cir_token::{Reserved, Symbol, Token, TokenKind};

/// What a token is, without its text.
#[derive(Clone, Copy, PartialEq, Eq)]
pub enum Class {
    Name,
    Number,
    Str,
    Underscore,
    Word(Reserved),
    Sign(Symbol),
}

/// The class of a token.
pub fn class_of(token: &Token) -> Class {
    match &token.kind {
        TokenKind::Name(_) => Class::Name,
        TokenKind::Number(_) => Class::Number,
        TokenKind::Str(_) => Class::Str,
        TokenKind::Underscore => Class::Underscore,
        TokenKind::Reserved(word) => Class::Word(*word),
        TokenKind::Symbol(symbol) => Class::Sign(*symbol),
    }
}

/// Whether an operand, a place or a target may end with it.
pub fn ends_operand(class: Class) -> bool {
    match class {
        Class::Name | Class::Number | Class::Str | Class::Underscore => true,
        Class::Sign(symbol) => matches!(
            symbol,
            Symbol::CloseParenthesis | Symbol::CloseBracket | Symbol::PlusPlus | Symbol::MinusMinus
        ),
        Class::Word(_) => false,
    }
}

/// Whether an operand, a place or a target may begin with it.
pub fn begins_operand(class: Class) -> bool {
    match class {
        Class::Name | Class::Number | Class::Str | Class::Underscore => true,
        Class::Word(word) => word == Reserved::Parallel,
        Class::Sign(symbol) => matches!(
            symbol,
            Symbol::OpenParenthesis
                | Symbol::OpenBracket
                | Symbol::Minus
                | Symbol::Bang
                | Symbol::Tilde
        ),
    }
}

/// Whether a statement may begin with it.
pub fn begins_statement(class: Class) -> bool {
    match class {
        Class::Str => false,
        Class::Word(word) => !matches!(
            word,
            Reserved::Main
                | Reserved::Public
                | Reserved::Pragma
                | Reserved::Include
                | Reserved::Template
                | Reserved::Function
                | Reserved::Bus
        ),
        Class::Sign(Symbol::OpenBrace) => true,
        other => begins_operand(other),
    }
}

/// Whether an item of a file may begin with it.
pub fn begins_item(class: Class) -> bool {
    match class {
        Class::Word(word) => matches!(
            word,
            Reserved::Pragma
                | Reserved::Include
                | Reserved::Template
                | Reserved::Function
                | Reserved::Component
                | Reserved::Bus
        ),
        _ => false,
    }
}

/// Whether it assigns or constrains, or counts up or down.
pub fn is_effect(symbol: Symbol) -> bool {
    matches!(
        symbol,
        Symbol::ConstrainLeft
            | Symbol::ConstrainRight
            | Symbol::AssignLeft
            | Symbol::AssignRight
            | Symbol::Constrain
            | Symbol::Equal
            | Symbol::PlusPlus
            | Symbol::MinusMinus
    ) || is_compound(symbol)
}

fn is_compound(symbol: Symbol) -> bool {
    matches!(
        symbol,
        Symbol::StarStarEqual
            | Symbol::ShiftLeftEqual
            | Symbol::ShiftRightEqual
            | Symbol::PlusEqual
            | Symbol::MinusEqual
            | Symbol::StarEqual
            | Symbol::SlashEqual
            | Symbol::BackslashEqual
            | Symbol::PercentEqual
            | Symbol::AmpersandEqual
            | Symbol::BarEqual
            | Symbol::CaretEqual
    )
}

/// Whether this token may stand behind a reserved word.
pub fn follows_word(word: Reserved, next: Class) -> bool {
    match word {
        Reserved::If | Reserved::For | Reserved::While | Reserved::Assert | Reserved::Log => {
            next == Class::Sign(Symbol::OpenParenthesis)
        }
        Reserved::Template => { next == Class::Name || next == Class::Word(Reserved::Parallel) }
        Reserved::Function | Reserved::Parallel | Reserved::Var | Reserved::Pragma => {
            next == Class::Name
        }
        Reserved::Component => next == Class::Name || next == Class::Word(Reserved::Main),
        Reserved::Main => {
            next == Class::Sign(Symbol::Equal) || next == Class::Sign(Symbol::OpenBrace)
        }
        Reserved::Public => next == Class::Sign(Symbol::OpenBracket),
        Reserved::Signal => {
            next == Class::Name
                || next == Class::Word(Reserved::Input)
                || next == Class::Word(Reserved::Output)
        }
        Reserved::Input | Reserved::Output => next == Class::Name,
        Reserved::Include => next == Class::Str,
        Reserved::Return => begins_operand(next),
        Reserved::Else => begins_statement(next),
        Reserved::Bus => true,
    }
}
