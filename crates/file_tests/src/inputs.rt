use crate::checks::same;
use cir_values::{InputShape, Signals, Text};
use gold_field::Gold;
use items::Items;
use std::process::Abort;
use wit_input::{InputFault, read_input, read_publics, write_publics};

// `in[2][2]` behind one output.
fn shape<R: AllocGlobal + Abort>(rt: &R) -> InputShape {
    InputShape {
        name: Text::from_slice(rt.alloc(), b"in").expect(rt, "memory"),
        first: 2,
        count: 4,
    }
}

// The table of `signal input in[2][2]; signal output out;`.
fn table<R: AllocGlobal + Abort>(rt: &R) -> Signals {
    let mut inputs = Vec::new(rt.alloc());
    inputs.push(shape(rt)).expect(rt, "memory");
    Signals {
        names: Items::new(rt.alloc()),
        outputs: 1,
        public_inputs: 0,
        private_inputs: 4,
        inputs: Items::of(inputs),
    }
}

fn push(rt: &impl Abort, named: &mut Vec<u64>, number: u64) {
    named.push(number).expect(rt, "memory");
}

// The number of the refusal, and what it names.
fn refused(rt: &impl Abort, fault: &InputFault, named: &mut Vec<u64>) -> u8 {
    match fault {
        InputFault::NotJson => 1,
        InputFault::Missing { input } => {
            push(rt, named, u64::from(*input));
            2
        }
        InputFault::UnknownSignal { key } => {
            for byte in key.as_slice() {
                push(rt, named, u64::from(*byte));
            }
            3
        }
        InputFault::WrongCount { input, has, wants } => {
            push(rt, named, u64::from(*input));
            push(rt, named, *has);
            push(rt, named, u64::from(*wants));
            4
        }
        InputFault::BadNumber { input, index } => {
            push(rt, named, u64::from(*input));
            push(rt, named, *index);
            5
        }
        InputFault::OutOfMemory => 6,
    }
}

fn numbers(rt: &impl Abort, values: &[Gold], named: &mut Vec<u64>) {
    for value in values {
        push(rt, named, value.get());
    }
}

// The answer of a reading is these numbers behind 0, or the refusal of this number that names them.
fn tells<R: AllocGlobal + Abort>(
    rt: &R,
    read: &Result<Vec<Gold>, InputFault>,
    kind: u8,
    wanted: &[u64],
) {
    let mut named = Vec::new(rt.alloc());
    let found = match read {
        Ok(values) => {
            numbers(rt, values, &mut named);
            0
        }
        Err(fault) => refused(rt, fault, &mut named),
    };
    same(rt, found, kind);
    same(rt, named.as_slice(), wanted);
}

type Row = (&'static str, u8, &'static [u64]);

static INPUTS: [Row; 15] = [
    ("{\"in\":[[1,2],[3,4]]}", 0, &[1, 1, 2, 3, 4]),
    ("{\"in\":[1,2,3,4]}", 0, &[1, 1, 2, 3, 4]),
    (
        "{\"in\":[\"-1\",\"0x10\",0,0]}",
        0,
        &[1, 18446744069414584320, 16, 0, 0],
    ),
    (
        "{\"in\":[[[],\"340282366920938463463374607431768211455\"],\
            [[18446744073709551615]],-1,\"-0\"]}",
        0,
        &[1, 18446744065119617024, 4294967294, 18446744069414584320, 0],
    ),
    ("{\"in\":[1,2,3,4,5]}", 4, &[0, 5, 4]),
    ("{}", 2, &[0]),
    ("{\"in\":[1,2,3,4],\"z\":1}", 3, &[122]),
    ("{\"in\":[1,2,3,null,5],\"y\":1,\"x\":1}", 3, &[120]),
    ("{\"in\":[1,2.5,3,4]}", 5, &[0, 1]),
    ("{\"in\":[1,2,-0,4]}", 5, &[0, 2]),
    ("{\"in\":[18446744073709551616,2,3,4]}", 5, &[0, 0]),
    (
        "{\"in\":[1,2,3,\"340282366920938463463374607431768211456\"]}",
        5,
        &[0, 3],
    ),
    ("{\"in\":[\"0x\",\"\",\"-\",\"+1\"]}", 5, &[0, 0]),
    ("[1,2,3,4]", 1, &[]),
    ("[", 1, &[]),
];

#[test]
fn inputs_are_read_or_refused_in_order(rt: HostRuntime) {
    let table = table(&rt);
    assert!(rt; table.inputs.len() == 1);
    for (text, kind, named) in INPUTS.as_slice() {
        let read = read_input(rt.alloc(), text.as_bytes(), &table);
        tells(&rt, &read, *kind, named);
    }
}

static PUBLICS: [Row; 6] = [
    ("[\"33\",\"3\"]", 0, &[33, 3]),
    ("[]", 0, &[]),
    ("[[\"18446744069414584354\"], 0]", 0, &[33, 0]),
    ("[1, [\"x\"], 2.0]", 5, &[0, 1]),
    ("{\"in\":[1]}", 1, &[]),
    ("[1e400]", 1, &[]),
];

#[test]
fn public_files_are_read(rt: HostRuntime) {
    for (text, kind, named) in PUBLICS.as_slice() {
        let read = read_publics(rt.alloc(), text.as_bytes());
        tells(&rt, &read, *kind, named);
    }
}

#[test]
fn public_files_are_written(rt: HostRuntime) {
    for text in ["[\"33\",\"3\"]", "[\"1\"]", "[]"] {
        let values = read_publics(rt.alloc(), text.as_bytes());
        let values = values.ok().expect(&rt, "values");
        let written = write_publics(rt.alloc(), &values).expect(&rt, "memory");
        same(&rt, written.as_slice(), text.as_bytes());
    }
}
