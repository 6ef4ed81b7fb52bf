// `check` with a file of names.
use super::checks::says;
use super::{R1CS, store};
use command_samples::put_file;

// The names, and what is said of values that don't satisfy the constraint.
static NAMES: [(&str, u8, &str); 8] = [
    ("", 2, "unsatisfied: constraint 0: wire 1 wire 2 wire 3\n"),
    (
        "9,3,0,main.z\n2,2,0,main.a,b\n1,3,0,main.y",
        2,
        "unsatisfied: constraint 0: wire 1 main.a,b main.z\n",
    ),
    (
        "1,-1,0,main.c\n2,77,0,main.a\n",
        2,
        "unsatisfied: constraint 0: wire 1 wire 2 wire 3\n",
    ),
    (
        "1,1,0,main.c\n2,2\n",
        1,
        "refused: m.sym: S1 BadLine at line 2\n",
    ),
    ("1,1,0,\n", 1, "refused: m.sym: S1 BadLine at line 1\n"),
    ("\n", 1, "refused: m.sym: S1 BadLine at line 1\n"),
    ("1,-2,0,x\n", 1, "refused: m.sym: S1 BadLine at line 1\n"),
    (
        "1,4294967296,0,x\n",
        1,
        "refused: m.sym: S1 BadLine at line 1\n",
    ),
];

#[test]
fn wires_have_the_name_of_their_first_line(rt: HostRuntime) {
    for (names, status, line) in NAMES.as_slice() {
        let mut store = store(&rt, &R1CS, &[1, 34, 3, 11]);
        put_file(rt.alloc(), &mut store, "m.sym", names.as_bytes()).expect(&rt, "memory");
        let words = "check m.r1cs m.wtns --sym m.sym";
        says(&rt, words, &mut store, *status, line);
    }
}

// The names are read behind the two other files, and before the values are tested.
#[test]
fn names_are_read_last(rt: HostRuntime) {
    let mut store = store(&rt, &R1CS, &[1, 33, 3]);
    let words = "check m.r1cs m.wtns --sym no.sym";
    let line = "refused: no.sym: no such file\n";
    says(&rt, words, &mut store, 1, line);
    let behind = "refused: no.wtns: no such file\n";
    says(
        &rt,
        "check m.r1cs no.wtns --sym no.sym",
        &mut store,
        1,
        behind,
    );
}
