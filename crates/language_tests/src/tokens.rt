use crate::checks::same;
use cir_lexer::{LexFault, lex};
use cir_token::{LexCause, Symbol, Token, TokenKind};
use std::process::Abort;

// Where the tokens of `c <== a*0x10; // rest` begin, and how long they are.
static SPANS: [(u32, u32); 6] = [(0, 1), (2, 3), (6, 1), (7, 1), (8, 4), (12, 1)];

fn is_symbol(token: &Token, wanted: Symbol) -> bool {
    match &token.kind {
        TokenKind::Symbol(symbol) => *symbol == wanted,
        _ => false,
    }
}

// The kinds of those tokens, but for two.
fn have_kinds(rt: &impl Abort, tokens: &[Token]) {
    assert!(rt; tokens.len() == 6);
    assert!(rt; matches!(&tokens[0].kind, TokenKind::Name(_)));
    assert!(rt; is_symbol(&tokens[1], Symbol::ConstrainLeft));
    assert!(rt; matches!(&tokens[4].kind, TokenKind::Number(16)));
    assert!(rt; is_symbol(&tokens[5], Symbol::Semicolon));
}

#[test]
fn reads_a_statement(rt: HostRuntime) {
    let tokens = lex(rt.alloc(), b"c <== a*0x10; // rest").ok();
    let tokens = tokens.expect(&rt, "tokens");
    have_kinds(&rt, &tokens);
    for (token, span) in tokens.iter().zip(&SPANS) {
        same(&rt, (token.offset, token.len), *span);
    }
}

static CAUSES: [(&[u8], LexCause, u32); 5] = [
    (b"a # b", LexCause::BadChar, 2),
    (b"a /* b", LexCause::OpenComment, 2),
    (b"\"a\nb\"", LexCause::OpenString, 0),
    (
        b" 340282366920938463463374607431768211456",
        LexCause::NumberTooWide,
        1,
    ),
    (b"// \xff", LexCause::BadChar, 3),
];

#[test]
fn names_each_cause(rt: HostRuntime) {
    for (bytes, cause, offset) in CAUSES.as_slice() {
        assert!(rt; bytes.len() <= 4096);
        match lex(rt.alloc(), bytes) {
            Err(
                LexFault::At {
                    cause: c,
                    offset: o,
                },
            ) => same(&rt, (c, o), (*cause, *offset)),
            _ => panic!(rt; "no fault"),
        }
    }
}
