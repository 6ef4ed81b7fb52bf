use crate::checks::same;
use crate::faults::is_kind;
use crate::loading::{expect_place, store_of};
use cir_ast::{Form, Kind, Refusal, Which};
use cir_compile::{CompileFault, Level, compile};
use iden_files::write_r1cs;
use std::process::Abort;

static PRODUCT: &str = "template Mul() {
  signal input a;
  signal input b;
  signal output c;
  c <== a*b;
}
component main = Mul();
";

// The product's file: sections 1, 2 and 3 behind the header.
static PRODUCT_FILE: [u8; 168] = [
    0x72, 0x31, 0x63, 0x73, 1, 0, 0, 0, 3, 0, 0, 0, //
    1, 0, 0, 0, 0x28, 0, 0, 0, 0, 0, 0, 0, 8, 0, 0, 0, 1, 0, 0, 0, 0xff, 0xff, 0xff, 0xff, //
    4, 0, 0, 0, 1, 0, 0, 0, 0, 0, 0, 0, 2, 0, 0, 0, 4, 0, 0, 0, 0, 0, 0, 0, 1, 0, 0, 0, //
    2, 0, 0, 0, 0x30, 0, 0, 0, 0, 0, 0, 0, //
    1, 0, 0, 0, 2, 0, 0, 0, 0, 0, 0, 0, 0xff, 0xff, 0xff, 0xff, //
    1, 0, 0, 0, 3, 0, 0, 0, 1, 0, 0, 0, 0, 0, 0, 0, //
    1, 0, 0, 0, 1, 0, 0, 0, 0, 0, 0, 0, 0xff, 0xff, 0xff, 0xff, //
    3, 0, 0, 0, 0x20, 0, 0, 0, 0, 0, 0, 0, //
    0, 0, 0, 0, 0, 0, 0, 0, 1, 0, 0, 0, 0, 0, 0, 0, //
    2, 0, 0, 0, 0, 0, 0, 0, 3, 0, 0, 0, 0, 0, 0, 0,
];

#[test]
fn a_product_is_written(rt: HostRuntime) {
    let mut store = store_of(&rt, PRODUCT);
    let file = compile(rt.alloc(), &mut store, "t.circom", None, Level::O0);
    let file = file.ok().expect(&rt, "a file");
    let bytes = write_r1cs(rt.alloc(), &file).expect(&rt, "memory");
    same(&rt, bytes.as_slice(), PRODUCT_FILE.as_slice());
}

// A source of a template with these statements, on its third line.
fn source_with<R: AllocGlobal + Abort>(rt: &R, statements: &str) -> String {
    let source = format!(in rt.alloc();
        "template T() {{
  signal input a; signal input b; signal output c;
{statements}
}}
template S() {{ signal input x; signal output y; signal z; z <== x; y <== z; }}
template U(n) {{ signal output y; y <== n; }}
function f(n) {{
  return f(n); }}
function pair(n) {{ return [n, n]; }}
function sized(n) {{ var v[1 + 1]; return n; }}
function first(v) {{ return v[0]; }}
function itself(v) {{ return v; }}
function passed(v, n) {{ return itself(v); }}
function nested(n) {{ if (n) {{ return n; }} return nested([n]); }}
function endless(n) {{ return endless([n]); }}
component main = T();
"
    );
    source.expect(rt, "memory")
}

// The refusal of that source.
fn refusal<R: AllocGlobal + Abort>(rt: &R, statements: &str) -> Refusal {
    let source = source_with(rt, statements);
    let mut store = store_of(rt, source.as_str());
    match compile(rt.alloc(), &mut store, "t.circom", None, Level::O0) {
        Err(CompileFault::Refused(refusal)) => refusal,
        _ => panic!(rt; "not refused"),
    }
}

const SIGNALS: Kind = Kind::Limit {
    which: Which::Signals,
    count: 1048579,
};

// Each row has statements, the kind of their refusal, its line and column, and the path there.
static REFUSALS: [(&str, Kind, (u32, u32), &str); 27] = [
    ("a <== b;", Kind::WrongKind, (3, 1), "-"),
    ("c <== T;", Kind::WrongKind, (3, 1), "-"),
    ("c <== a; c === d;", Kind::UnknownName, (3, 10), "-"),
    (
        "component d = S(); d.w <== a;",
        Kind::UnknownName,
        (3, 20),
        "main",
    ),
    (
        "component d = S(); c <== d.z;",
        Kind::WrongKind,
        (3, 20),
        "main",
    ),
    (
        "signal s; if (a) { s <== 1; }",
        Kind::UnknownControl,
        (3, 20),
        "main",
    ),
    ("var u[a];", Kind::UnknownIndex, (3, 1), "main"),
    ("c <== a*b*a;", Kind::NonQuadratic, (3, 1), "main"),
    ("signal s; c <== s;", Kind::ReadBeforeWrite, (3, 11), "main"),
    ("c <== a; c <== b;", Kind::SecondWrite, (3, 10), "main"),
    (" signal s; c <== a;", Kind::NeverWritten, (3, 2), "main"),
    (
        "c <== a; component d = S();",
        Kind::InputsMissing,
        (3, 10),
        "main",
    ),
    ("var w[2]; c <== w[2];", Kind::OutOfBounds, (3, 11), "main"),
    (" c <-- a / 0;", Kind::ZeroDivisor, (3, 2), "main"),
    (
        "c <== a; assert(1 == 2);",
        Kind::AssertFalse,
        (3, 10),
        "main",
    ),
    (" signal s[1048576];", SIGNALS, (3, 2), "main"),
    ("c <== f(1);", Kind::TooDeep, (8, 3), "main"),
    (
        "component d[2]; d[0] = S(); d[1] = U(1);",
        Kind::NotInProfile {
            form: Form::MixedComponents,
        },
        (3, 29),
        "main",
    ),
    (
        "var v = 1 + [1];",
        Kind::NotInProfile {
            form: Form::LiteralPlace,
        },
        (3, 1),
        "main",
    ),
    (
        "if (a) { log(1); }",
        Kind::NotInProfile {
            form: Form::LogPlace,
        },
        (3, 10),
        "main",
    ),
    (
        "c <-- pair(a);",
        Kind::NotInProfile {
            form: Form::RunArray,
        },
        (3, 1),
        "main",
    ),
    (
        "c <-- sized(a);",
        Kind::NotInProfile {
            form: Form::RunDimension,
        },
        (3, 1),
        "main",
    ),
    (
        "c <-- first([a, b]);",
        Kind::NotInProfile {
            form: Form::LiteralPlace,
        },
        (3, 1),
        "main",
    ),
    (
        "c <-- nested(a);",
        Kind::NotInProfile {
            form: Form::RunArray,
        },
        (3, 1),
        "main",
    ),
    (
        "c <-- endless(a);",
        Kind::NotInProfile {
            form: Form::LiteralPlace,
        },
        (3, 1),
        "main",
    ),
    (
        " var x[2] = 1; c <== a;",
        Kind::ShapeDiffers,
        (3, 2),
        "main",
    ),
    (
        " signal s[2]; s <== [a];",
        Kind::ShapeDiffers,
        (3, 15),
        "main",
    ),
];

#[test]
fn refusals_stand_at_their_statements(rt: HostRuntime) {
    for (statements, kind, (line, column), path) in REFUSALS.as_slice() {
        let refusal = refusal(&rt, statements);
        assert!(rt; is_kind(refusal.kind, *kind));
        expect_place(&rt, &refusal, *line, *column, "t.circom");
        same(&rt, refusal.place.path.as_slice(), path.as_bytes());
    }
}

// A function that another one passes an array of 301 dimensions to returns it.
#[test]
fn arrays_are_followed_however_many_dimensions_they_have(rt: HostRuntime) {
    let mut statements = String::new(rt.alloc());
    statements.push_str("var v").expect(&rt, "memory");
    for _ in 0..301 {
        statements.push_str("[1]").expect(&rt, "memory");
    }
    statements
        .push_str(";\nc <-- passed(v, a);")
        .expect(&rt, "memory");
    let refusal = refusal(&rt, statements.as_str());
    let form = Form::RunArray;
    assert!(rt; is_kind(refusal.kind, Kind::NotInProfile { form }));
    expect_place(&rt, &refusal, 4, 1, "t.circom");
}
