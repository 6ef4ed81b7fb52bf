use crate::checks::same;
use cir_ast::tree::{Accessor, Arrow, Binary, Expr, Inputs, NamedInput, Unary};
use cir_expression::{Reader, Stop};
use cir_lexer::lex;
use cir_token::{Text, Token};
use std::process::Abort;

fn tokens_of<R: AllocGlobal + Abort>(rt: &R, source: &str) -> Vec<Token> {
    assert!(rt; source.len() <= 4096);
    lex(rt.alloc(), source.as_bytes()).ok().expect(rt, "tokens")
}

fn symbol_of(op: Binary) -> &'static str {
    match op {
        Binary::Pow => "**",
        Binary::Mul => "*",
        Binary::Div => "/",
        Binary::Quotient => "\\",
        Binary::Remainder => "%",
        Binary::Add => "+",
        Binary::Sub => "-",
        Binary::ShiftLeft => "<<",
        Binary::ShiftRight => ">>",
        Binary::BitAnd => "&",
        Binary::BitXor => "^",
        Binary::BitOr => "|",
        Binary::Equal => "==",
        Binary::NotEqual => "!=",
        Binary::Less => "<",
        Binary::LessEqual => "<=",
        Binary::Greater => ">",
        Binary::GreaterEqual => ">=",
        Binary::And => "&&",
        Binary::Or => "||",
    }
}

fn sign_of(op: Unary) -> &'static str {
    match op {
        Unary::Negate => "{-",
        Unary::Not => "{!",
        Unary::Complement => "{~",
    }
}

fn put(rt: &impl Abort, out: &mut String, text: &str) {
    out.push_str(text).expect(rt, "memory");
}

fn put_name(rt: &impl Abort, out: &mut String, name: &Text) {
    for byte in name.as_slice() {
        out.push(char::from(*byte)).expect(rt, "memory");
    }
}

fn put_number(rt: &impl Abort, out: &mut String, number: u128) {
    let written: Result<_, _> = write!(out, "{number}");
    written.expect(rt, "memory");
}

// Writes an expression with each operation in braces; what lies deeper than this as `~`.
#[cycle(shapes)]
fn shape(rt: &impl Abort, e: &Expr, depth: u32, out: &mut String) {
    if depth == 0 {
        put(rt, out, "~");
        return;
    }
    let depth = depth - 1;
    match e {
        Expr::Number(n) => put_number(rt, out, *n),
        Expr::Place(place) => {
            put_name(rt, out, &place.name);
            accessors(rt, place.accessors.as_slice(), depth, out);
        }
        Expr::Call(parallel, name, _, arguments) => {
            put(rt, out, if *parallel { "parallel " } else { "" });
            put_name(rt, out, name);
            shapes(rt, "(", arguments.as_slice(), depth, out);
            put(rt, out, ")");
        }
        Expr::Anonymous(anonymous) => {
            put_name(rt, out, &anonymous.name);
            shapes(rt, "(", anonymous.arguments.as_slice(), depth, out);
            inputs(rt, &anonymous.inputs, depth, out);
            put(rt, out, ")");
        }
        Expr::Parentheses(inner) => {
            part(rt, "(", inner, depth, out);
            put(rt, out, ")");
        }
        Expr::Array(elements) => {
            shapes(rt, "[", elements.as_slice(), depth, out);
            put(rt, out, "]");
        }
        Expr::Unary(op, inner) => {
            part(rt, sign_of(*op), inner, depth, out);
            put(rt, out, "}");
        }
        Expr::Binary(op, left, right) => {
            part(rt, "{", left, depth, out);
            part(rt, symbol_of(*op), right, depth, out);
            put(rt, out, "}");
        }
        Expr::Choice(condition, chosen, other) => {
            part(rt, "{", condition, depth, out);
            part(rt, "?", chosen, depth, out);
            part(rt, ":", other, depth, out);
            put(rt, out, "}");
        }
    }
}

// An expression behind this text.
#[cycle(shapes)]
fn part(rt: &impl Abort, front: &str, e: &Expr, depth: u32, out: &mut String) {
    put(rt, out, front);
    shape(rt, e, depth, out);
}

// Expressions behind this text, with a semicolon behind each.
#[cycle(shapes)]
fn shapes(rt: &impl Abort, front: &str, list: &[Expr], depth: u32, out: &mut String) {
    put(rt, out, front);
    for e in list {
        shape(rt, e, depth, out);
        put(rt, out, ";");
    }
}

#[cycle(shapes)]
fn accessors(rt: &impl Abort, list: &[Accessor], depth: u32, out: &mut String) {
    for accessor in list {
        match accessor {
            Accessor::Index(inner) => {
                part(rt, "[", inner, depth, out);
                put(rt, out, "]");
            }
            Accessor::Member(name) => {
                put(rt, out, ".");
                put_name(rt, out, name);
            }
        }
    }
}

#[cycle(shapes)]
fn inputs(rt: &impl Abort, inputs: &Inputs, depth: u32, out: &mut String) {
    match inputs {
        Inputs::Listed(values) => shapes(rt, ")(", values.as_slice(), depth, out),
        Inputs::Named(inputs) => {
            put(rt, out, ")(");
            for input in inputs.as_slice() {
                named(rt, input, depth, out);
            }
        }
    }
}

#[cycle(shapes)]
fn named(rt: &impl Abort, input: &NamedInput, depth: u32, out: &mut String) {
    put_name(rt, out, &input.name);
    let arrow = match input.arrow {
        Arrow::Assign => "<--",
        Arrow::Constrain => "<==",
    };
    part(rt, arrow, &input.value, depth, out);
    put(rt, out, ";");
}

// The shape of the expression at the front, a space, and how many tokens stand behind it; or
// nothing.
fn reads<R: AllocGlobal + Abort>(rt: &R, source: &str, room: u16) -> String {
    let tokens = tokens_of(rt, source);
    let mut out = String::new(rt.alloc());
    let mut reader = Reader {
        rest: tokens.as_slice(),
    };
    let read: Result<Expr, Stop> = reader.expression(rt.alloc(), u32::from(room));
    match read {
        Ok(e) => {
            shape(rt, &e, 16, &mut out);
            put(rt, &mut out, " ");
            put_number(rt, &mut out, reader.rest.len() as u128);
        }
        Err(stop) => assert!(rt; matches!(stop, Stop::NoTree)),
    }
    out
}

// A source and its shape, where there is one.
type Row = (&'static str, &'static str);

fn have_shapes<R: AllocGlobal + Abort>(rt: &R, rows: &[Row]) {
    for (source, wanted) in rows {
        let found = reads(rt, source, 256);
        same(rt, found.as_str(), *wanted);
    }
}

static OPERATORS: [Row; 7] = [
    ("-a**2", "{{-a}**2} 0"),
    ("1 << 2 + 3", "{1<<{2+3}} 0"),
    ("a && b || c && !d", "{{a&&b}||{c&&{!d}}} 0"),
    ("a - b - c * d", "{{a-b}-{c*d}} 0"),
    ("a | b ^ c & d == e", "{{a|{b^{c&d}}}==e} 0"),
    ("a ? b : c ? d : e", "{a?b:{c?d:e}} 0"),
    ("a ? b ? c : d : e < f", "{a?{b?c:d}:{e<f}} 0"),
];

#[test]
fn operators_group_by_their_levels(rt: HostRuntime) {
    have_shapes(&rt, &OPERATORS);
}

static OPERANDS: [Row; 17] = [
    ("a[1].b[2]", "a[1].b[2] 0"),
    ("f()", "f() 0"),
    ("parallel f(1, 2)", "parallel f(1;2;) 0"),
    ("[1, [2]]", "[1;[2;];] 0"),
    ("(a + 1) * ~(b)", "{({a+1})*{~(b)}} 0"),
    ("A(1)(a, b) + 2", "{A(1;)(a;b;)+2} 0"),
    ("A()(x <== a, y <-- 1)", "A()(x<==a;y<--1;) 0"),
    ("A()()", "A()() 0"),
    ("A()(x <== a, 1)", ""),
    ("a b", "a 1"),
    ("f(1,)", ""),
    ("[]", ""),
    ("(a", ""),
    ("a[1", ""),
    ("parallel a", ""),
    ("a ? b", ""),
    ("", ""),
];

#[test]
fn operands_have_their_forms(rt: HostRuntime) {
    have_shapes(&rt, &OPERANDS);
}

// Each is 3 high.
static HIGH: [&str; 4] = ["((a))", "a[b[1]]", "f(1, -2)", "a + b + c"];

#[test]
fn a_tree_is_no_higher_than_its_room(rt: HostRuntime) {
    for source in HIGH.as_slice() {
        same(&rt, reads(&rt, source, 2).is_empty(), true);
        same(&rt, reads(&rt, source, 3).is_empty(), false);
    }
}
