ghost use Rattle.std.specs.Prelude.{◌≡◌, [], ◌∷◌};

use crate::checks::same;
use cir_values::{Class, Shape, SignalName, Signals, Text, class_of, flat};
use gold_field::Op2;
use items::Items;
use std::process::Abort;

#[test]
fn classes_of_the_table(rt: HostRuntime) {
    let square = class_of(Op2::Pow, Class::Linear, Class::Known, Some(2));
    same(&rt, square, Class::Quadratic);
    let sum = class_of(Op2::Add, Class::Quadratic, Class::Quadratic, None);
    same(&rt, sum, Class::Opaque);
    let quotient = class_of(Op2::Div, Class::Quadratic, Class::Known, None);
    same(&rt, quotient, Class::Quadratic);
    let order = class_of(Op2::Lt, Class::Linear, Class::Known, None);
    same(&rt, order, Class::Opaque);
}

#[test]
fn places_go_by_rows(rt: HostRuntime) {
    let dims = Items::from_slice(rt.alloc(), &[2u32, 3]).expect(&rt, "memory");
    let shape = Shape { dims };
    same(&rt, flat(&shape, &[1, 2]), Some(5));
    same(&rt, flat(&shape, &[2, 0]), None);
    same(&rt, flat(&shape, &[1]), None);
}

// The table of one signal with this base, at this place.
fn one_signal<R: AllocGlobal + Abort>(rt: &R, base: &[u8], place: u32) -> Signals
    ensures { result.names ≡ record { instance = 0; base = base.now; place = place } ∷ [] }
{
    let base = Text::from_slice(rt.alloc(), base).expect(rt, "memory");
    let name = SignalName {
        instance: 0,
        base,
        place,
    };
    let mut names = Items::new(rt.alloc());
    names.push(name).expect(rt, "memory");
    Signals {
        names,
        outputs: 1,
        public_inputs: 0,
        private_inputs: 0,
        inputs: Items::new(rt.alloc()),
    }
}

// Signal 1 of a circuit whose one output is `c`.
#[test]
fn a_scalar_has_its_base(rt: HostRuntime) {
    let signals = one_signal(&rt, b"c", 0);
    let text = signals.name(rt.alloc(), 1).expect(&rt, "memory");
    same(&rt, text.as_slice(), b"c".as_slice());
}

#[test]
fn an_element_has_its_indices(rt: HostRuntime) {
    let signals = one_signal(&rt, b"in[2][2]", 2);
    let text = signals.name(rt.alloc(), 1).expect(&rt, "memory");
    same(&rt, text.as_slice(), b"in[1][0]".as_slice());
}
