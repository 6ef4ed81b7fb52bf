use crate::checks::same;
use crate::faults::is_kind;
use cir_ast::program::Program;
use cir_ast::{Kind, Refusal};
use cir_names::load;
use cir_sources::LoadFault;
use out_io::{MemStore, Store};
use std::process::Abort;

pub(crate) fn write<R: AllocGlobal + Abort>(rt: &R, store: &mut MemStore, name: &str, text: &[u8]) {
    store.write(rt.alloc(), name, text).expect(rt, "no fault");
}

/// A store that holds this source alone, under the name `t.circom`.
pub(crate) fn store_of<R: AllocGlobal + Abort>(rt: &R, source: &str) -> MemStore {
    let mut store = MemStore::new(rt.alloc());
    write(rt, &mut store, "t.circom", source.as_bytes());
    store
}

/// The program of this source.
pub(crate) fn program_of<R: AllocGlobal + Abort>(rt: &R, source: &str) -> Program {
    let mut store = store_of(rt, source);
    let loaded = load(rt.alloc(), &mut store, "t.circom", None).ok();
    loaded.expect(rt, "a program")
}

/// The refusal of the source `t.circom` of this store.
pub(crate) fn refusal_in<R: AllocGlobal + Abort>(rt: &R, store: &mut MemStore) -> Refusal {
    match load(rt.alloc(), store, "t.circom", None) {
        Err(LoadFault::Refused(refusal)) => refusal,
        _ => panic!(rt; "not refused"),
    }
}

/// A refusal is of this kind, at this line and column of a file.
pub(crate) fn expect_at(
    rt: &impl Abort,
    refusal: &Refusal,
    kind: Kind,
    line: u32,
    column: u32,
    file: &str,
) {
    assert!(rt; is_kind(refusal.kind, kind));
    expect_place(rt, refusal, line, column, file);
}

/// A refusal stands at this line and column of a file.
pub(crate) fn expect_place(rt: &impl Abort, refusal: &Refusal, line: u32, column: u32, file: &str) {
    same(
        rt,
        (refusal.place.line, refusal.place.column),
        (line, column),
    );
    same(rt, refusal.place.file.as_slice(), file.as_bytes());
}
