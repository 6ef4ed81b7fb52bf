use std::alloc::Global;
use std::test::Fail;
use sym_file::{SymFault, SymLine, read_sym};

// The number of lines that a text has, or the first bad line, or the first one past the limit.
fn read(alloc: Global, text: &[u8]) -> (usize, u32, u32) {
    match read_sym(alloc, text) {
        Ok(lines) => (lines.len(), 0, 0),
        Err(SymFault::BadLine { line }) => (0, line, 0),
        Err(SymFault::Limit { line }) => (0, 0, line),
        Err(SymFault::OutOfMemory) => (0, 0, 0),
    }
}

static GOOD: [(&str, usize); 8] = [
    ("", 0),
    ("1,1,0,main.c", 1),
    ("1,1,0,main.c\n2,2,0,main.a\n3,3,0,main.b\n", 3),
    ("3,-1,0,main.x[0]\n4,-1,0,main.x[1]", 2),
    ("007,00,0000,x\n", 1),
    ("18446744073709551615,4294967295,18446744073709551615, ", 1),
    ("0,0,0,a,b, c\r\n", 1),
    ("0,0,0,\u{e9}\n", 1),
];

static BAD: [(&str, u32); 16] = [
    ("\n", 1),
    ("1,1,0,main.c\n2,2\n", 2),
    ("1,1,0,main.c\n\n", 2),
    ("1,1,0,\n", 1),
    ("1,1,0", 1),
    (",1,0,x", 1),
    ("1,,0,x", 1),
    ("1,1,,x", 1),
    ("-1,1,0,x", 1),
    ("1,-2,0,x", 1),
    ("1,-01,0,x", 1),
    ("1,+1,0,x", 1),
    ("1,4294967296,0,x", 1),
    ("18446744073709551616,1,0,x", 1),
    ("1,1,18446744073709551616,x", 1),
    ("1, 1,0,x", 1),
];

#[test]
fn each_line_names_a_signal(rt: HostRuntime) {
    for (text, lines) in &GOOD {
        assert_eq!(rt; read(rt.alloc(), text.as_bytes()), (*lines, 0, 0), "{text}");
    }
    for (text, line) in &BAD {
        assert_eq!(rt; read(rt.alloc(), text.as_bytes()), (0, *line, 0), "{text}");
    }
    assert_eq!(rt; read(rt.alloc(), b"0,0,0,\xff\n"), (0, 1, 0));
}

#[test]
fn lines_have_four_parts(rt: HostRuntime) -> Result<(), Fail> {
    let text = b"1,1,0,main.c\n7,-1,2,main.x.y[1],z\n";
    let lines = read_sym(rt.alloc(), text).ok().expect(&rt, "lines");
    let [first, second] = lines.as_slice() else {
        return Err(Fail::from("two lines"));
    };
    assert_eq!(rt; (first.label, first.wire, first.instance), (1, Some(1), 0));
    assert_eq!(rt; first.name.as_slice(), b"main.c".as_slice());
    assert_eq!(rt; (second.label, second.wire, second.instance), (7, None, 2));
    assert_eq!(rt; second.name.as_slice(), b"main.x.y[1],z".as_slice());
    Ok(())
}
