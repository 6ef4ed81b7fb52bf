use crate::checks::same;
use cir_ast::Form;
use cir_lexer::lex;
use cir_parse::{ParseFault, parse};
use std::process::Abort;

// The number of the file's items, or the token of the fault and the form that is left out.
fn parsed<R: AllocGlobal + Abort>(rt: &R, source: &str) -> Result<usize, (u32, Option<Form>)> {
    assert!(rt; source.len() <= 4096);
    let tokens = lex(rt.alloc(), source.as_bytes()).ok().expect(rt, "tokens");
    assert!(rt; tokens.len() <= 4096);
    match parse(rt.alloc(), &tokens) {
        Ok(file) => Ok(file.items.as_slice().len()),
        Err(ParseFault::Form { token, form }) => Err((token, Some(form))),
        Err(ParseFault::Syntax { token }) => Err((token, None)),
        Err(ParseFault::OutOfMemory) => panic!(rt; "memory"),
    }
}

static EACH: &str = "pragma circom 2.1.0; include \"a.circom\"; function f(n) { return n; }
        template A(n, m) { signal input a[n], b; signal output c <== a[0] * b; var x = 1, y[2];
            component p = A(1, 2); if (n > 1) x++; else if (m == 2) { x += f(3); } else { }
            for (var i = 0; i < n; i++) { while (x < 3) x = x + 1; }
            a --> p.in[0]; c === b; assert(n > 0); log(\"n\", n); log(); x ==> p.b;
            (a[0], _) <== A(1, 2)(a, b); _ <-- b; (b, c) ==> (x, _); A(1, 2)(a <== a, b <== b); }
        component main {public [a, b]} = A(1, 2);";

#[test]
fn items_of_each_kind_are_read(rt: HostRuntime) {
    same(&rt, parsed(&rt, EACH), Ok(5));
}

static FAULTS: [(&str, (u32, Option<Form>)); 4] = [
    ("template A() { } template B() { x <== ; }", (6, None)),
    ("template A() { signal input {t} a;", (5, Some(Form::Tag))),
    ("pragma custom_templates;", (0, Some(Form::CustomTemplate))),
    ("; bus B() { }", (1, Some(Form::Bus))),
];

#[test]
fn faults_have_their_tokens(rt: HostRuntime) {
    for (source, wanted) in FAULTS.as_slice() {
        same(&rt, parsed(&rt, source), Err(*wanted));
    }
}

// So many copies of a text.
fn put(rt: &impl Abort, source: &mut String, text: &str, copies: u32) {
    for _ in 0..copies {
        source.push_str(text).expect(rt, "memory");
    }
}

// A main component whose argument is a number in so many pairs of parentheses.
fn nested<R: AllocGlobal + Abort>(rt: &R, pairs: u32) -> String {
    let mut source = String::new(rt.alloc());
    put(rt, &mut source, "component main = A(", 1);
    put(rt, &mut source, "(", pairs);
    put(rt, &mut source, "1", 1);
    put(rt, &mut source, ")", pairs);
    put(rt, &mut source, ");", 1);
    source
}

#[test]
fn a_tree_is_at_most_256_high(rt: HostRuntime) {
    same(&rt, parsed(&rt, nested(&rt, 254).as_str()), Ok(1));
    same(&rt, parsed(&rt, nested(&rt, 255).as_str()), Err((0, None)));
}
