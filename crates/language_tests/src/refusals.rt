//! A source for each refusal that loading gives.

use crate::loading::{expect_at, refusal_in, store_of, write};
use cir_ast::{Form, Kind, Which};
use out_io::MemStore;
use std::process::Abort;

// A source, and the kind, line and column of its refusal.
type Row = (&'static str, Kind, (u32, u32));

fn are_refused<R: AllocGlobal + Abort>(rt: &R, rows: &[Row]) {
    for (source, kind, (line, column)) in rows {
        let refusal = refusal_in(rt, &mut store_of(rt, source));
        expect_at(rt, &refusal, *kind, *line, *column, "t.circom");
    }
}

static DEFINITIONS: [Row; 4] = [
    (
        "template T() { }\nfunction T() { return 1; }\ncomponent main = T();",
        Kind::Duplicate,
        (2, 1),
    ),
    ("template T() { }", Kind::Main, (1, 1)),
    (
        "template T() { }\ncomponent main = T();\ncomponent main = T();",
        Kind::Main,
        (3, 1),
    ),
    (
        "template T() { signal input a; }\ncomponent main {public [b]} = T();",
        Kind::UnknownName,
        (2, 1),
    ),
];

#[test]
fn duplicates_and_main(rt: HostRuntime) {
    are_refused(&rt, &DEFINITIONS);
}

const ANONYMOUS_PLACE: Kind = Kind::NotInProfile {
    form: Form::AnonymousPlace,
};

const BUS: Kind = Kind::NotInProfile { form: Form::Bus };

const CUSTOM_TEMPLATE: Kind = Kind::NotInProfile {
    form: Form::CustomTemplate,
};

const DECLARATION_PLACE: Kind = Kind::NotInProfile {
    form: Form::DeclarationPlace,
};

const LOG_PLACE: Kind = Kind::NotInProfile {
    form: Form::LogPlace,
};

const NO_RETURN: Kind = Kind::NotInProfile {
    form: Form::NoReturn,
};

const TAG: Kind = Kind::NotInProfile { form: Form::Tag };

const VERSION: Kind = Kind::NotInProfile {
    form: Form::Version,
};

static LEFT_OUT: [Row; 5] = [
    (
        "function f(n) { if (n) { return 1; } }\ntemplate T() { }\ncomponent main = T();",
        NO_RETURN,
        (1, 1),
    ),
    (
        "function f() { log(1); return 1; }\ntemplate T() { }\ncomponent main = T();",
        LOG_PLACE,
        (1, 16),
    ),
    ("\npragma circom 1.0.0;", VERSION, (2, 1)),
    ("template custom T() { }", CUSTOM_TEMPLATE, (1, 1)),
    ("bus B() { }", BUS, (1, 1)),
];

#[test]
fn forms_that_are_left_out(rt: HostRuntime) {
    are_refused(&rt, &LEFT_OUT);
}

// A source of a template T with these statements, on line 3, behind a template A with an input and
// an output, and B with two outputs.
fn source_with<R: AllocGlobal + Abort>(rt: &R, body: &str) -> String {
    let source = format!(in rt.alloc();
        "template A() {{ signal input x; signal output y; y <== x; }}
template B() {{ signal input x; signal output y, z; y <== x; z <== x; }}
template T() {{ signal input a; signal output b, c; {body} }}
component main = T();"
    );
    source.expect(rt, "memory")
}

// Statements, and the kind of their refusal and its column, counted from their first byte.
static STATEMENTS: [(&str, Kind, u32); 15] = [
    ("b <== d;", Kind::UnknownName, 1),
    ("a <== 1;", Kind::WrongKind, 1),
    ("component d = A(1);", Kind::Arity, 1),
    ("component d = a();", Kind::WrongKind, 1),
    ("while (1) signal s;", DECLARATION_PLACE, 11),
    ("{ signal input s; }", DECLARATION_PLACE, 3),
    ("signal {t} s;", TAG, 1),
    ("var v = A()(a);", ANONYMOUS_PLACE, 1),
    ("b <== a && A()(a);", ANONYMOUS_PLACE, 1),
    ("b <== B()(a);", Kind::WrongKind, 1),
    ("b <== A()(a, a);", Kind::Arity, 1),
    ("(b, c) <== A()(a);", Kind::Arity, 1),
    ("(b, c) <== (a, a, a);", Kind::Arity, 1),
    ("b <== A()(z <== a);", Kind::UnknownName, 1),
    ("(b, _) <== B(1)(a);", Kind::Arity, 1),
];

#[test]
fn statements_are_refused_at_their_places(rt: HostRuntime) {
    for (body, kind, column) in STATEMENTS.as_slice() {
        let source = source_with(&rt, body);
        let refusal = refusal_in(&rt, &mut store_of(&rt, source.as_str()));
        expect_at(
            &rt,
            &refusal,
            *kind,
            3,
            column.saturating_add(51),
            "t.circom",
        );
    }
}

#[test]
fn faults_of_an_included_file(rt: HostRuntime) {
    let mut store = store_of(&rt, "\ninclude \"b.circom\";\ncomponent main = T();");
    let missing = refusal_in(&rt, &mut store);
    expect_at(&rt, &missing, Kind::Include, 2, 1, "t.circom");
    let included = b"template T() { }\ntemplate U() { x <== ; }";
    write(&rt, &mut store, "b.circom", included);
    let refusal = refusal_in(&rt, &mut store);
    expect_at(&rt, &refusal, Kind::Syntax, 2, 1, "b.circom");
}

// A file of this number, which includes the next one.
fn write_link<R: AllocGlobal + Abort>(rt: &R, store: &mut MemStore, number: u32) {
    let name = format!(in rt.alloc(); "f{number}.circom").expect(rt, "memory");
    let next = number.wrapping_add(1);
    let text = format!(in rt.alloc(); "include \"f{next}.circom\";").expect(rt, "memory");
    write(rt, store, name.as_str(), text.as_bytes());
}

#[test]
fn a_source_has_1024_files_at_most(rt: HostRuntime) {
    let mut store = store_of(&rt, "include \"f2.circom\";");
    for number in 2..1025 {
        write_link(&rt, &mut store, number);
    }
    let missing = refusal_in(&rt, &mut store);
    expect_at(&rt, &missing, Kind::Include, 1, 1, "f1024.circom");
    write(&rt, &mut store, "f1025.circom", b"");
    let refusal = refusal_in(&rt, &mut store);
    let limit = Kind::Limit {
        which: Which::Files,
        count: 1025,
    };
    expect_at(&rt, &refusal, limit, 1, 1, "f1024.circom");
}
