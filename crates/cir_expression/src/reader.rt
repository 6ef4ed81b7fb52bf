ghost use Rattle.std.specs.Prelude.{◌≡◌};
ghost use Rattle.cir_expression.specs.Front.{tail, begins, begins_underscore, begins_word, behind};
ghost use Rattle.cir_expression.specs.Front.{behind_word, name_at};
ghost use Rattle.cir_expression.specs.Reading.{arrow_of, arrow_at, input_at};
ghost use Rattle.cir_expression.specs.Answers.{kinds, Reads, Passes, begins_input};

use cir_ast::marked::Arrow;
use cir_token::{Reserved, Symbol, Text, Token, TokenKind};
use std::alloc::{AllocError, AllocFailed, Global};

/// Why no tree was read.
#[derive(Clone, Copy)]
pub enum Stop {
    /// The tokens begin with no such tree, or only with one that is too high.
    NoTree,
    OutOfMemory,
}

impl From<AllocError> for Stop {
    ghost use Rattle.cir_expression.specs.declared.reader.Stop.TheVariants.{OutOfMemory};

    ghost from_gives = { λ _ stop. stop ≡ OutOfMemory };

    fn from(_: AllocError) -> Stop {
        Stop::OutOfMemory
    }
}

impl<T: Drop> From<AllocFailed<T>> for Stop {
    ghost use Rattle.cir_expression.specs.declared.reader.Stop.TheVariants.{OutOfMemory};

    ghost from_gives = { λ _ stop. stop ≡ OutOfMemory };

    fn from(_: AllocFailed<T>) -> Stop {
        Stop::OutOfMemory
    }
}

/// The tokens that are left to be read.
#[derive(Clone, Copy)]
pub struct Reader<'a> {
    pub rest: &'a [Token],
}

impl<'a> Reader<'a> {
    /// Whether this symbol comes next.
    pub fn begins(&self, symbol: Symbol) -> bool
        ensures { result ≡ begins symbol (kinds self.now.rest.now) }
    {
        match self.rest.first() {
            Some(token) => match &token.kind {
                TokenKind::Symbol(found) => *found == symbol,
                _ => false,
            },
            None => false,
        }
    }

    /// Whether this reserved word comes next.
    pub fn begins_word(&self, word: Reserved) -> bool
        ensures { result ≡ begins_word word (kinds self.now.rest.now) }
    {
        match self.rest.first() {
            Some(token) => match &token.kind {
                TokenKind::Reserved(found) => *found == word,
                _ => false,
            },
            None => false,
        }
    }

    /// Whether `_` comes next.
    pub fn begins_underscore(&self) -> bool
        ensures { result ≡ begins_underscore (kinds self.now.rest.now) }
    {
        match self.rest.first() {
            Some(token) => matches!(&token.kind, TokenKind::Underscore),
            None => false,
        }
    }

    /// Passes a token, where one is left.
    pub fn skip(&mut self)
        ensures { kinds self.new.rest.now ≡ tail (kinds self.old.rest.now) }
    {
        if let Some((_, rest)) = self.rest.split_first() {
            self.rest = rest;
        }
    }

    /// Passes this symbol, which must come next.
    pub fn behind(&mut self, symbol: Symbol) -> Result<(), Stop>
        ensures { Passes result (kinds self.new.rest.now)
            (behind symbol (kinds self.old.rest.now)) }
    {
        if self.begins(symbol) {
            self.skip();
            Ok(())
        } else {
            Err(Stop::NoTree)
        }
    }

    /// Passes this reserved word, which must come next.
    pub fn behind_word(&mut self, word: Reserved) -> Result<(), Stop>
        ensures { Passes result (kinds self.new.rest.now)
            (behind_word word (kinds self.old.rest.now)) }
    {
        if self.begins_word(word) {
            self.skip();
            Ok(())
        } else {
            Err(Stop::NoTree)
        }
    }

    /// The name that must come next.
    pub fn name(&mut self, alloc: Global) -> Result<Text, Stop>
        ensures { Reads (λ x. x) result (kinds self.new.rest.now)
            (name_at (kinds self.old.rest.now)) }
    {
        let Some((token, rest)) = self.rest.split_first() else {
            return Err(Stop::NoTree);
        };
        match &token.kind {
            TokenKind::Name(name) => {
                let name = Text::from_slice(alloc, name.as_slice())?;
                self.rest = rest;
                Ok(name)
            }
            _ => Err(Stop::NoTree),
        }
    }

    /// The arrow to the left that comes next.
    pub fn arrow(&self) -> Option<Arrow>
        ensures { result ≡ arrow_at (kinds self.now.rest.now) }
    {
        match self.rest.first() {
            Some(token) => match &token.kind {
                TokenKind::Symbol(found) => arrow_of(*found),
                _ => None,
            },
            None => None,
        }
    }

    /// An input's name and its arrow.
    pub fn input(&mut self, alloc: Global) -> Result<(Text, Arrow), Stop>
        ensures { Reads (λ x. x) result (kinds self.new.rest.now)
            (input_at (kinds self.old.rest.now)) }
    {
        let name = self.name(alloc)?;
        let Some(arrow) = self.arrow() else {
            return Err(Stop::NoTree);
        };
        self.skip();
        Ok((name, arrow))
    }

    /// Whether an input's name and its arrow come next.
    pub fn begins_input(&self) -> bool
        ensures { result ≡ begins_input (kinds self.now.rest.now) }
    {
        let Some((token, rest)) = self.rest.split_first() else {
            return false;
        };
        match &token.kind {
            TokenKind::Name(_) => Reader { rest }.arrow().is_some(),
            _ => false,
        }
    }
}

fn arrow_of(symbol: Symbol) -> Option<Arrow>
    ensures { result ≡ arrow_of symbol }
{
    match symbol {
        Symbol::AssignLeft => Some(Arrow::Assign),
        Symbol::ConstrainLeft => Some(Arrow::Constrain),
        _ => None,
    }
}
