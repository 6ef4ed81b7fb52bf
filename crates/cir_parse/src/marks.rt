ghost use Rattle.std.specs.Prelude.{◌≡◌, List};
ghost use Rattle.cir_token.specs.declared.token.TokenKind.{TokenKind as Kind};
ghost use Rattle.cir_expression.specs.Answers.{kinds};
ghost use Rattle.cir_parse.specs.Marks.{spot_before};

use cir_ast::program::Spot;
use cir_token::Token;

/// What an item or a statement carries as its place, by the tokens from it on.
pub trait Marks<S> {
    ghost mark: { Self → List Kind → S };

    fn mark(&self, rest: &[Token]) -> S
        ensures { result ≡ mark self.now (kinds rest.now) };
}

/// No place.
#[derive(Clone, Copy)]
pub struct Nothing;

impl Marks<()> for Nothing {
    ghost mark = { λ _ _. tt };

    fn mark(&self, _rest: &[Token]) {}
}

/// The places of all tokens of a source, in their order.
#[derive(Clone, Copy)]
pub struct Spots<'s> {
    pub spots: &'s [Spot],
}

impl<'s> Marks<Spot> for Spots<'s> {
    ghost mark = { λ s rest. spot_before s.spots.now rest };

    fn mark(&self, rest: &[Token]) -> Spot {
        let start = Spot { line: 1, column: 1 };
        if rest.len() > self.spots.len() {
            return start;
        }
        match self.spots.get(self.spots.len() - rest.len()) {
            Some(spot) => *spot,
            None => start,
        }
    }
}
