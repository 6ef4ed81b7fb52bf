// `compile` on sources that are refused, and on those that include others.
use crate::checks::says;
use command_samples::{MUL, sources};
use std::process::Abort;
use std::sync::Wait;
use std::thread::Threads;

const CUBIC: &str = "template T() {
  signal input a; signal input b; signal input c; signal output out;
  out <== a*b*c;
}
component main = T();
";

// `compile` refuses the source, by this cause and place.
fn is_refused<R: Threads + Wait + AllocGlobal + Sync + Abort>(rt: &R, source: &str, why: &str) {
    let mut store = sources(rt.alloc(), &[("t.circom", source)]).expect(rt, "memory");
    let line = format!(in rt.alloc(); "refused: {why}\n").expect(rt, "memory");
    says(rt, "compile t.circom m.r1cs", &mut store, 1, line.as_str());
}

// Each row has a source, and the cause and the place of its refusal.
static REFUSALS: [(&str, &str); 15] = [
    (CUBIC, "E11 NonQuadratic at t.circom:3:3 in main"),
    ("@", "E1 Lexical BadChar at t.circom:1:1 in -"),
    (
        "template A() { }\ntemplate B() { x <== ; }",
        "E2 Syntax at t.circom:2:1 in -",
    ),
    (
        "\ninclude \"no.circom\";",
        "E3 Include at t.circom:2:1 in -",
    ),
    (
        "template A() { signal a;\nvar a; } component main = A();",
        "E4 Duplicate at t.circom:2:1 in -",
    ),
    ("", "E5 Main at t.circom:1:1 in -"),
    (
        "template A() { if (1) {\nx === 1; } } component main = A();",
        "E6 UnknownName at t.circom:2:1 in -",
    ),
    (
        "template A(n) { }\ncomponent main = A();",
        "E7 Arity at t.circom:2:1 in -",
    ),
    (
        "template A() { signal input a;\na <== 1; } component main = A();",
        "E8 WrongKind at t.circom:2:1 in -",
    ),
    (
        "template T() {
  signal input a; signal input b; signal input c; signal input d;
  a*b === c*d;
}
component main = T();",
        "E11 NonQuadratic at t.circom:3:3 in main",
    ),
    (
        "template Id() { signal input x; signal output y; y <== x; }
template T() {
  signal input a; signal output out; component c = Id();
  out <== c.y; c.x <== a;
}
component main = T();",
        "E12 ReadBeforeWrite at t.circom:4:3 in main",
    ),
    (
        "template Id() { signal input x; signal output y; y <== x; }
template T() {
  signal input a; signal output out; component c = Id();
  out <== a;
}
component main = T();",
        "E15 InputsMissing at t.circom:3:38 in main",
    ),
    (
        "template Id() { signal input x; signal output y; y <== x; }
template T() {
  signal input a; signal output out; component c = Id();
  c.x <== a;
}
component main = T();",
        "E14 NeverWritten at t.circom:3:19 in main",
    ),
    (
        "template T(n) {
  signal input in; signal output x;
  if (in) { x <== 1; } else { x <== 2; }
}
component main = T(1);",
        "E9 UnknownControl at t.circom:3:13 in main",
    ),
    (
        "template Mul() { signal input a; signal input b; signal output c; c <== a*b; }
template T() { signal input in; signal input x; signal input y;
  if (in) { Mul()(in, in); }
}
component main = T();",
        "E9 UnknownControl at t.circom:3:13 in main",
    ),
];

#[test]
fn compile_says_why_a_source_is_refused(rt: HostRuntime) {
    for (source, why) in REFUSALS.as_slice() {
        is_refused(&rt, source, why);
    }
}

static FORMS: [(&str, &str); 8] = [
    (
        "pragma circom 1.0.0;",
        "E21 NotInProfile Version at t.circom:1:1 in -",
    ),
    (
        "pragma custom_templates;",
        "E21 NotInProfile CustomTemplate at t.circom:1:1 in -",
    ),
    (
        "template custom A() { }",
        "E21 NotInProfile CustomTemplate at t.circom:1:1 in -",
    ),
    ("bus B() { }", "E21 NotInProfile Bus at t.circom:1:1 in -"),
    (
        "template A() { signal input {t} a; }",
        "E21 NotInProfile Tag at t.circom:1:16 in -",
    ),
    (
        "function f() { } component main = A(); template A() { }",
        "E21 NotInProfile NoReturn at t.circom:1:1 in -",
    ),
    (
        "template A() { while (0)\nsignal a; } component main = A();",
        "E21 NotInProfile DeclarationPlace at t.circom:2:1 in -",
    ),
    (
        "function f() {\nlog(1); return 1; } template A() { } component main = A();",
        "E21 NotInProfile LogPlace at t.circom:2:1 in -",
    ),
];

#[test]
fn forms_that_are_left_out_are_named(rt: HostRuntime) {
    for (source, why) in FORMS.as_slice() {
        is_refused(&rt, source, why);
    }
}

static INCLUDING: &str = "include \"lib/b.circom\";\ncomponent main = Mul();\n";

static BACK: &str = "include \"../a.circom\";
template Mul() { signal input a; signal input b; signal output c; c <== a*b; }";

// The line of the words over these files. The status is 1 where it is a refusal, else 0.
fn gives<R: Threads + Wait + AllocGlobal + Sync + Abort>(
    rt: &R,
    words: &str,
    files: &[(&str, &str)],
    line: &str,
) {
    let mut store = sources(rt.alloc(), files).expect(rt, "memory");
    let status = u8::from(line.starts_with("refused: "));
    says(rt, words, &mut store, status, line);
}

#[test]
fn files_that_include_each_other_are_followed(rt: HostRuntime) {
    let circular = [("a.circom", INCLUDING), ("lib/b.circom", BACK)];
    let compiled = "compiled: wires 4, constraints 1\n";
    gives(&rt, "compile a.circom m.r1cs", &circular, compiled);
    let missing = "refused: E3 Include at a.circom:1:1 in -\n";
    gives(&rt, "compile a.circom m.r1cs", &circular[..1], missing);
    let none = "refused: -m.r1cs: no such file\n";
    gives(&rt, "check -- -m.r1cs -", &[], none);
    let unnamed = "refused: : no such file\n";
    gives(&rt, "check \"\" -", &[], unnamed);
}

static WITH_FOLDER: [&str; 5] = [
    "compile a.circom m.r1cs -l inc",
    "compile -l inc a.circom m.r1cs",
    "compile a.circom -linc m.r1cs",
    "compile a.circom m.r1cs -l=inc",
    "compile -l inc -- a.circom m.r1cs",
];

#[test]
fn includes_are_found_in_the_folder(rt: HostRuntime) {
    let library = [("a.circom", INCLUDING), ("inc/lib/b.circom", MUL)];
    for words in WITH_FOLDER.as_slice() {
        gives(&rt, words, &library, "compiled: wires 4, constraints 1\n");
    }
}

// The template itself is the first one that is open.
static DEEP: &str = "template R(n) { signal input x; signal output y; component c; \
    if (n == 0) { y <== x; } else { c = R(n-1); c.x <== x; y <== c.y; } }\n\
    component main = R(256);\n";

// The refusal of that source.
fn too_deep<R: AllocGlobal + Abort>(rt: &R) -> String {
    let front = "refused: E20 TooDeep at t.circom:1:95 in main";
    let mut line = String::from_str(rt.alloc(), front).expect(rt, "memory");
    for _level in 0..255 {
        line.push_str(".c").expect(rt, "memory");
    }
    line.push_str("\n").expect(rt, "memory");
    line
}

#[test]
fn templates_stand_256_deep_at_most(rt: HostRuntime) {
    let mut store = sources(rt.alloc(), &[("t.circom", DEEP)]).expect(&rt, "memory");
    let line = too_deep(&rt);
    says(&rt, "compile t.circom m.r1cs", &mut store, 1, line.as_str());
}
