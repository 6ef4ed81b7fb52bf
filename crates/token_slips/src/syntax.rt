//! The first token of an item that can't stand where it stands, by the tokens beside it and the
//! brackets round it. It is no reading of the item: it only says where to look.

use crate::kinds::{
    Class, begins_item, begins_operand, begins_statement, class_of, ends_operand, follows_word,
    is_effect,
};
use cir_token::{Reserved, Symbol, Token};
use std::alloc::{AllocError, Global};

/// What is wrong at a token.
#[derive(Clone, Copy, PartialEq, Eq)]
pub enum Slip {
    /// A `;` is wanted before it.
    Semicolon,
    /// It can't stand behind the token before it.
    Unexpected,
    /// The bracket there isn't closed before `ends`.
    Unclosed,
    /// It closes no bracket.
    NotOpened,
    /// It stands in no template.
    Outside,
    /// The statement that begins there does nothing.
    NoEffect,
    /// A signal is given a value by `=`.
    SignalValue,
    /// A declaration of several components gives one a value.
    ComponentValue,
    /// A block is wanted before it, with its `{`.
    Block,
    /// The file ends behind it, and the item doesn't.
    Cut,
}

/// A slip, and the number of its token.
#[derive(Clone, Copy)]
pub struct Found {
    pub slip: Slip,
    pub at: usize,
}

/// A bracket that is open.
#[derive(Clone, Copy)]
struct Open {
    symbol: Symbol,
    at: usize,
    // The reserved word before it, or before the name before it.
    word: Option<Reserved>,
}

/// What is known of the tokens so far.
#[derive(Drop)]
struct Scan {
    open: Vec<Open>,
    before: Option<Class>,
    // The word that the next parenthesis belongs to.
    word: Option<Reserved>,
    // The word of the condition or definition whose parenthesis the token before closed.
    closed_head: Option<Reserved>,
    first: Option<Class>,
    first_at: usize,
    has_effect: bool,
    // Whether `=` and a comma stood in the statement, outside of brackets.
    has_equal: bool,
    has_comma: bool,
}

/// The first slip of the item at the front of these tokens.
pub fn first_slip(alloc: Global, tokens: &[Token]) -> Result<Option<Found>, AllocError> {
    let mut scan = Scan::new(alloc);
    for (at, token) in tokens.iter().enumerate() {
        let class = class_of(token);
        if let Some(found) = scan.look(class, at) {
            return Ok(Some(found));
        }
        scan.add(class, at)?;
        if scan.is_over() {
            return Ok(None);
        }
    }
    match scan.unclosed() {
        Some(found) => Ok(Some(found)),
        None => Ok(Some(Found {
            slip: Slip::Cut,
            at: tokens.len().saturating_sub(1),
        })),
    }
}

impl Scan {
    fn new(alloc: Global) -> Scan {
        Scan {
            open: Vec::new(alloc),
            before: None,
            word: None,
            closed_head: None,
            first: None,
            first_at: 0,
            has_effect: false,
            has_equal: false,
            has_comma: false,
        }
    }

    // Whether the item has ended.
    fn is_over(&self) -> bool {
        self.open.is_empty()
            && matches!(
                self.before,
                Some(Class::Sign(Symbol::Semicolon | Symbol::CloseBrace))
            )
            && self.word != Some(Reserved::Main)
    }

    // The innermost bracket that isn't closed.
    fn unclosed(&self) -> Option<Found> {
        let open = self.open.last()?;
        Some(Found {
            slip: Slip::Unclosed,
            at: open.at,
        })
    }

    // What is wrong with this token.
    fn look(&self, class: Class, at: usize) -> Option<Found> {
        if let Some(found) = self.look_at_brackets(class, at) {
            return Some(found);
        }
        let slip = self.beside(class)?;
        let at = match slip {
            Slip::NoEffect | Slip::SignalValue | Slip::ComponentValue => self.first_at,
            _ => at,
        };
        Some(Found { slip, at })
    }

    fn look_at_brackets(&self, class: Class, at: usize) -> Option<Found> {
        if begins_item(class)
            && class != Class::Word(Reserved::Component)
            && !self.open.is_empty()
        {
            return self.unclosed();
        }
        let Class::Sign(symbol) = class else {
            return None;
        };
        let innermost = self.open.last().copied();
        match (closed_by(symbol), innermost) {
            (Some(_), None) => Some(Found {
                slip: Slip::NotOpened,
                at,
            }),
            (Some(opening), Some(open)) if opening != open.symbol => self.unclosed(),
            (None, Some(open)) if symbol == Symbol::Semicolon && !open.may_hold_semicolon() => {
                self.unclosed()
            }
            _ => None,
        }
    }

    // What is wrong with this token behind the one before it.
    fn beside(&self, class: Class) -> Option<Slip> {
        match self.before {
            None => unless(begins_item(class), Slip::Outside),
            Some(Class::Word(word)) => unless(follows_word(word, class), Slip::Unexpected),
            Some(Class::Sign(Symbol::Semicolon | Symbol::OpenBrace | Symbol::CloseBrace)) => {
                self.at_start(class)
            }
            Some(_) if self.closed_head.is_some() => self.behind_head(class),
            Some(before) if ends_operand(before) => self.behind_operand(before, class),
            Some(before) => unless(
                begins_operand(class) || may_open(before, class),
                Slip::Unexpected,
            ),
        }
    }

    // A token behind the parentheses of a condition or a definition.
    fn behind_head(&self, class: Class) -> Option<Slip> {
        match self.closed_head {
            Some(Reserved::Template | Reserved::Function) => {
                unless(class == Class::Sign(Symbol::OpenBrace), Slip::Block)
            }
            _ => unless(begins_statement(class), Slip::Unexpected),
        }
    }

    // A token that begins a statement or an item, or goes on behind braces.
    fn at_start(&self, class: Class) -> Option<Slip> {
        let may = match class {
            Class::Sign(Symbol::CloseBrace) => true,
            Class::Sign(Symbol::Equal) | Class::Word(Reserved::Public) => {
                self.word == Some(Reserved::Main)
            }
            _ if self.open.is_empty() => begins_item(class),
            _ => begins_statement(class),
        };
        unless(may, Slip::Unexpected)
    }

    fn behind_operand(&self, before: Class, class: Class) -> Option<Slip> {
        match class {
            Class::Sign(Symbol::Semicolon) => self.at_end(),
            Class::Sign(Symbol::OpenParenthesis) => unless(
                before == Class::Name || before == Class::Sign(Symbol::CloseParenthesis),
                Slip::Unexpected,
            ),
            Class::Sign(Symbol::OpenBracket | Symbol::Dot) => unless(
                matches!(
                    before,
                    Class::Name | Class::Number | Class::Sign(Symbol::CloseBracket)
                ),
                Slip::Unexpected,
            ),
            Class::Sign(Symbol::OpenBrace) => Some(Slip::Unexpected),
            Class::Sign(Symbol::CloseBrace) => {
                unless(self.word == Some(Reserved::Main), Slip::Semicolon)
            }
            Class::Sign(Symbol::Bang | Symbol::Tilde) => Some(Slip::Unexpected),
            Class::Sign(_) => None,
            Class::Number if self.is_pragma() => None,
            _ if self.is_in_block() => Some(Slip::Semicolon),
            _ => Some(Slip::Unexpected),
        }
    }

    // `pragma circom 2.0.0`
    fn is_pragma(&self) -> bool {
        self.first == Some(Class::Word(Reserved::Pragma))
    }

    fn is_in_block(&self) -> bool {
        match self.open.last() {
            Some(open) => open.symbol == Symbol::OpenBrace,
            None => true,
        }
    }

    // What is wrong with the statement that ends here.
    fn at_end(&self) -> Option<Slip> {
        if !self.is_in_block() || self.open.is_empty() {
            return None;
        }
        match self.first {
            Some(Class::Name | Class::Number) => unless(self.has_effect, Slip::NoEffect),
            Some(Class::Word(Reserved::Signal)) => unless(!self.has_equal, Slip::SignalValue),
            Some(Class::Word(Reserved::Component)) => unless(
                !self.has_equal || !self.has_comma,
                Slip::ComponentValue,
            ),
            _ => None,
        }
    }

    // One more token, with which nothing is wrong.
    fn add(&mut self, class: Class, at: usize) -> Result<(), AllocError> {
        if self.is_first() {
            self.first = Some(class);
            self.first_at = at;
            self.has_effect = false;
            self.has_equal = false;
            self.has_comma = false;
        }
        self.closed_head = None;
        match class {
            Class::Word(word) => self.add_word(word),
            Class::Sign(symbol) => self.add_symbol(symbol, at)?,
            _ => {}
        }
        self.before = Some(class);
        Ok(())
    }

    // Whether the next token is the first one of a statement.
    fn is_first(&self) -> bool {
        match self.before {
            None => true,
            Some(Class::Sign(Symbol::Semicolon | Symbol::OpenBrace | Symbol::CloseBrace)) => true,
            Some(before) => self.closed_head.is_some() || before == Class::Word(Reserved::Else),
        }
    }

    fn add_word(&mut self, word: Reserved) {
        if word != Reserved::Parallel && word != Reserved::Public {
            self.word = Some(word);
        }
    }

    fn add_symbol(&mut self, symbol: Symbol, at: usize) -> Result<(), AllocError> {
        if is_effect(symbol) || self.is_call_of_call(symbol) {
            self.has_effect = true;
        }
        match symbol {
            Symbol::OpenParenthesis | Symbol::OpenBracket | Symbol::OpenBrace => {
                let word = self.word;
                self.open.push(Open { symbol, at, word })?;
                if symbol == Symbol::OpenParenthesis {
                    self.word = None;
                }
            }
            Symbol::CloseParenthesis | Symbol::CloseBracket | Symbol::CloseBrace => {
                if let Some(open) = self.open.pop() {
                    self.closed_head = open.head();
                    if symbol == Symbol::CloseBrace {
                        self.word = open.word;
                    }
                }
            }
            Symbol::Semicolon => self.word = None,
            Symbol::Equal if self.is_in_block() => self.has_equal = true,
            Symbol::Comma if self.is_in_block() => self.has_comma = true,
            _ => {}
        }
        Ok(())
    }

    // `T(2)(x)` is a statement by itself.
    fn is_call_of_call(&self, symbol: Symbol) -> bool {
        symbol == Symbol::OpenParenthesis
            && self.before == Some(Class::Sign(Symbol::CloseParenthesis))
    }
}

impl Open {
    // The word, where it is the parenthesis of a condition or of a definition's parameters.
    fn head(&self) -> Option<Reserved> {
        match self.word {
            Some(
                Reserved::If
                | Reserved::For
                | Reserved::While
                | Reserved::Template
                | Reserved::Function,
            ) if self.symbol == Symbol::OpenParenthesis => self.word,
            _ => None,
        }
    }

    fn may_hold_semicolon(&self) -> bool {
        self.symbol == Symbol::OpenBrace
            || (self.symbol == Symbol::OpenParenthesis && self.word == Some(Reserved::For))
    }
}

// What may stand behind an opening parenthesis besides an operand: `()`, and `for (var ..`.
fn may_open(before: Class, class: Class) -> bool {
    before == Class::Sign(Symbol::OpenParenthesis)
        && (class == Class::Sign(Symbol::CloseParenthesis) || class == Class::Word(Reserved::Var))
}

// The opening bracket of a closing one.
fn closed_by(symbol: Symbol) -> Option<Symbol> {
    match symbol {
        Symbol::CloseParenthesis => Some(Symbol::OpenParenthesis),
        Symbol::CloseBracket => Some(Symbol::OpenBracket),
        Symbol::CloseBrace => Some(Symbol::OpenBrace),
        _ => None,
    }
}

fn unless(fits: bool, slip: Slip) -> Option<Slip> {
    if fits { None } else { Some(slip) }
}
