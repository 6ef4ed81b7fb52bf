use crate::checks::same;
use crate::loading::program_of;
use cir_ast::program::{Block, Program, StatementForm};
use cir_known::{UnknownFault, allowed_unknown, assigned};

// The block of the `if` that ends the first template.
fn conditional(program: &Program) -> Option<&Block> {
    let template = program.templates.get(0)?;
    let last = template.body.statements.as_slice().last()?;
    match &last.form {
        StatementForm::If(_, chosen) => match &chosen.form {
            StatementForm::Block(block) => Some(block),
            _ => None,
        },
        _ => None,
    }
}

// A source, and the variables that its last `if` assigns.
static ASSIGNED: [(&str, &[u32]); 2] = [
    (
        "template T(x, y, z) { if (x) { var t; z = 1; t = 2; { y++; } } }
            component main = T(1, 2, 3);",
        &[1, 2],
    ),
    (
        "template T(i, s, u) { if (i) {
                for (u = 8; 1; s += 4) { i--; i = 2; }
                for (var k = 9; 1; k++) s = 4;
            } }
            component main = T(1, 2, 3);",
        &[0, 1, 2],
    ),
];

#[test]
fn outer_variables_are_assigned(rt: HostRuntime) {
    for (source, wanted) in ASSIGNED.as_slice() {
        let program = program_of(&rt, source);
        let block = conditional(&program).expect(&rt, "a block");
        let found = assigned(rt.alloc(), block).expect(&rt, "memory");
        same(&rt, found.as_slice(), *wanted);
        assert!(rt; allowed_unknown(block).is_ok());
    }
}

// A source, whether its first fault is a `log`, and where it stands.
static FAULTS: [(&str, bool, (u32, u32)); 2] = [
    (
        "template T() { signal output a; signal output b; if (1) {
 for (var i = 0; 1; a <== 1) b <== 2;
} }
component main = T();",
        false,
        (2, 21),
    ),
    (
        "template T(x) { if (x) {
 if (1) x = 1; else log();
 assert(x);
} }
component main = T(1);",
        true,
        (2, 21),
    ),
];

#[test]
fn the_first_fault_is_named(rt: HostRuntime) {
    for (source, is_log, place) in FAULTS.as_slice() {
        let program = program_of(&rt, source);
        let block = conditional(&program).expect(&rt, "a block");
        let found = match allowed_unknown(block) {
            Err(UnknownFault::Control { line, column }) => (false, (line, column)),
            Err(UnknownFault::Log { line, column }) => (true, (line, column)),
            _ => panic!(rt; "no fault"),
        };
        same(&rt, found, (*is_log, *place));
    }
}
