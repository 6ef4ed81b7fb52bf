use cir_determined::{Rule, RuleFault, read_rules, write_rules};
use std::alloc::Global;
use std::test::Fail;

// The number of rules that a text has, or the first bad line, or the first one past the limit.
fn read(alloc: Global, text: &[u8]) -> (usize, u32, u32) {
    match read_rules(alloc, text) {
        Ok(rules) => (rules.len(), 0, 0),
        Err(RuleFault::BadLine { line }) => (0, line, 0),
        Err(RuleFault::Limit { line }) => (0, 0, line),
        Err(RuleFault::OutOfMemory) => (0, 0, 0),
    }
}

static GOOD: [(&str, usize); 5] = [
    ("", 0),
    ("bits 4294967295", 1),
    ("solve 0 1\n", 1),
    ("bool 0 10\nbits 0\nsolve 4294967295 0", 3),
    ("bits 1\nbits 1\n", 2),
];

static BAD: [(&str, u32); 18] = [
    ("solve 0", 1),
    ("\n", 1),
    ("solve 0 1\n\n", 2),
    ("solve 0 1\n\nbits 0", 2),
    ("solve 0 1\nsolve 00 1\n", 2),
    ("bits 4294967296", 1),
    ("bool 4294967296 0", 1),
    ("solve  0 1", 1),
    (" solve 0 1", 1),
    ("solve 0 1 ", 1),
    ("solve 0 1\r\n", 1),
    ("solve +1 1", 1),
    ("solve -1 1", 1),
    ("solve 0x1 1", 1),
    ("Solve 0 1", 1),
    ("solve", 1),
    ("bits 0 1", 1),
    ("bits ", 1),
];

#[test]
fn each_line_is_a_rule(rt: HostRuntime) {
    for (text, rules) in &GOOD {
        assert_eq!(rt; read(rt.alloc(), text.as_bytes()), (*rules, 0, 0), "{text}");
    }
    for (text, line) in &BAD {
        assert_eq!(rt; read(rt.alloc(), text.as_bytes()), (0, *line, 0), "{text}");
    }
}

#[test]
fn there_are_at_most_4194304_lines(rt: HostRuntime) -> Result<(), Fail> {
    let alloc = rt.alloc();
    let mut text = Vec::new(alloc);
    for _ in 0..4194304 {
        text.extend_from_slice(b"bits 7\n")?;
    }
    assert_eq!(rt; read(alloc, &text), (4194304, 0, 0));
    text.extend_from_slice(b"x")?;
    assert_eq!(rt; read(alloc, &text), (0, 0, 4194305));
    text[0] = b'x';
    assert_eq!(rt; read(alloc, &text), (0, 1, 0));
    Ok(())
}

#[test]
fn rules_are_written_a_line_each(rt: HostRuntime) -> Result<(), Fail> {
    let alloc = rt.alloc();
    let mut rules = Vec::new(alloc);
    rules.push(Rule::Solve {
        constraint: 0,
        wire: 1,
    })?;
    rules.push(Rule::Bool {
        constraint: 4294967295,
        wire: 10,
    })?;
    rules.push(Rule::Bits { constraint: 200 })?;
    let text = write_rules(alloc, &rules)?;
    let wanted = "solve 0 1\nbool 4294967295 10\nbits 200\n";
    assert!(rt; text.as_slice() == wanted.as_bytes());
    Ok(())
}
