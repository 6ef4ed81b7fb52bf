ghost use Rattle.std.specs.Prelude.{◌≡◌, ◌<◌, ◌*◌, ◌%◌, ◌↔◌, IsTrue, length, slice_index};
ghost use Rattle.gold_field.specs.Form.{value_at, Holds, SignalsBelow, ConstraintBelow};
ghost use Rattle.gold_field.specs.Rises.{RisesFrom};

use crate::gold::Gold;
use std::marker::Model;

/// A signal times a coefficient. Signal 0 stands for the number 1.
#[derive(Clone, Copy)]
pub struct Term {
    pub signal: u32,
    pub coef: Gold,
}

/// A linear combination of signals, in sparse form: its terms by rising signal, none with
/// coefficient 0. So a linear combination has one form only.
#[derive(Drop)]
pub struct Lc {
    terms: Vec<Term>,
}

impl Model for Lc {
    ghost use Rattle.std.specs.Prelude.{List};
    ghost use Rattle.gold_field.specs.declared.form.Term.{Term};
    ghost use Rattle.gold_field.specs.Rises.{RisesFrom};

    ghost Value = { List Term };

    ghost view = { λ a. a.terms.items };

    ghost invariant = { λ a. RisesFrom 0 a.terms.items };
}

/// The rank-1 constraint `a * b - c = 0`.
#[derive(Drop)]
pub struct Constraint {
    pub a: Lc,
    pub b: Lc,
    pub c: Lc,
}

impl Lc {
    /// Takes no memory.
    pub fn of(terms: Vec<Term>) -> Lc
        requires { RisesFrom 0 terms.items }
        ensures { result ≡ terms.items }
    {
        Lc { terms }
    }

    /// The terms, by rising signal.
    pub fn as_slice(&self) -> &[Term]
        ensures terms { result.now ≡ self.now }
        ensures rises { RisesFrom 0 self.now }
    {
        self.terms.as_slice()
    }

    /// Takes no memory.
    pub fn into_vec(self) -> Vec<Term>
        ensures terms { result.items ≡ self }
        ensures rises { RisesFrom 0 self }
    {
        let Lc { terms } = self;
        terms
    }

    /// The sum where signal `i` has the number `w[i]`.
    pub fn value(&self, w: &[Gold]) -> Gold
        requires below { SignalsBelow (length w.now) self.now }
        ensures { result ≡ value_at (slice_index w.now) self.now }
    {
        value_of(self.terms.as_slice(), w)
    }
}

impl Constraint {
    /// Whether the constraint is satisfied where signal `i` has the number `w[i]`.
    pub fn holds(&self, w: &[Gold]) -> bool
        requires below { ConstraintBelow (length w.now) self.now }
        ensures { IsTrue result ↔ Holds (slice_index w.now) self.now }
    {
        self.a.value(w).mul(self.b.value(w)) == self.c.value(w)
    }
}

fn value_of(terms: &[Term], w: &[Gold]) -> Gold
    requires below { SignalsBelow (length w.now) terms.now }
    ensures { result ≡ value_at (slice_index w.now) terms.now }
{
    let mut sum = Gold::ZERO;
    for term in terms {
        sum = sum.add(term.coef.mul(w[term.signal as usize]));
    }
    sum
}
