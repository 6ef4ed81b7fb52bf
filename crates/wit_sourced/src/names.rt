//! Names of what has a home.
ghost use Rattle.std.specs.Prelude.{◌≡◌};
ghost use Rattle.wit_lower.specs.Homes as L;
ghost use Rattle.wit_sourced.specs.Named.{key_of, number_of, sought_name};

use gold_field::Gold;

/// The name of what has a home: a variable, a signal, or a signal of an element of a component.
#[derive(Clone, Copy)]
pub enum Sought<'a> {
    Variable(u32),
    Signal(u32),
    Port(u32, u64, &'a [u8]),
}

/// What a name is looked up by: the same name has the same key. Ports stand under the number that
/// their text is.
#[derive(Clone, Copy, PartialEq, Eq, PartialOrd, Ord)]
pub enum Key {
    Variable(u32),
    Signal(u32),
    Port(u32, u64, u64),
}

/// Bytes as a number in base 256, modulo the field's prime.
fn number_of(text: &[u8]) -> Gold
    ensures { result ≡ number_of 0 text.now }
{
    let mut number = Gold::ZERO;
    for b in text {
        number = Gold::from_wide(u128::from(number.get()) * 256 + u128::from(*b));
    }
    number
}

impl Sought<'_> {
    /// Whether this is the name that is looked for.
    pub fn is(self, sought: Sought) -> bool
        ensures { result ≡ L.same_name (sought_name sought.entry) (sought_name self.entry) }
    {
        match (sought, self) {
            (Sought::Variable(n), Sought::Variable(m)) => n == m,
            (Sought::Signal(n), Sought::Signal(m)) => n == m,
            (Sought::Port(n, j, a), Sought::Port(m, k, b)) => n == m && j == k && a == b,
            _ => false,
        }
    }

    /// What the name is looked up by.
    pub fn key(self) -> Key
        ensures { result ≡ key_of (sought_name self.entry) }
    {
        match self {
            Sought::Variable(n) => Key::Variable(n),
            Sought::Signal(n) => Key::Signal(n),
            Sought::Port(n, j, text) => Key::Port(n, j, number_of(text).get()),
        }
    }
}
