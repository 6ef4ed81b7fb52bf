use crate::checks::same;
use out_io::{IoFault, MemSink, MemStore, RealSink, RealStore, Sink, Store};
use std::process::Abort;
use std::{fs, process};

fn write<S: Store>(rt: &(impl AllocGlobal + Abort), store: &mut S, name: &str, bytes: &[u8]) {
    store.write(rt.alloc(), name, bytes).expect(rt, "memory");
}

// The file of this name has these bytes.
fn holds<S: Store>(rt: &(impl AllocGlobal + Abort), store: &mut S, name: &str, bytes: &[u8]) {
    let found = store.read(rt.alloc(), name).expect(rt, "no fault");
    let found = found.expect(rt, "the file");
    same(rt, found.as_slice(), bytes);
}

#[test]
fn keeps_what_is_written(rt: HostRuntime) {
    let mut store = MemStore::new(rt.alloc());
    write(&rt, &mut store, "a", b"one");
    write(&rt, &mut store, "b", b"two");
    write(&rt, &mut store, "a", b"three");
    holds(&rt, &mut store, "a", b"three");
    assert!(rt;
        store
            .read(rt.alloc(), "c")
            .expect(&rt, "no fault")
            .is_none()
    );
}

#[test]
fn keeps_what_is_put(rt: HostRuntime) {
    let mut sink = MemSink::new(rt.alloc());
    sink.put(b"12").expect(&rt, "no fault");
    sink.put(b"3").expect(&rt, "no fault");
    same(&rt, sink.bytes.as_slice(), b"123".as_slice());
}

#[test]
fn fails_at_the_listed_calls(rt: HostRuntime) {
    let mut store = MemStore::new(rt.alloc());
    store.fail.push(1).expect(&rt, "memory");
    write(&rt, &mut store, "a", b"one");
    same(
        &rt,
        store.write(rt.alloc(), "a", b"two"),
        Err(IoFault::Failed),
    );
    holds(&rt, &mut store, "a", b"one");
    same(&rt, store.faults, 1);
}

// So many bytes.
fn many<R: AllocGlobal + Abort>(rt: &R, count: u32) -> Vec<u8> {
    let mut bytes = Vec::new(rt.alloc());
    for _ in 0..count {
        bytes.push(b'x').expect(rt, "memory");
    }
    bytes
}

#[test]
fn writes_and_reads_a_real_file(rt: HostRuntime) {
    let mut store = RealStore::new(rt.clone().expect(&rt, "memory"));
    let id = process::id(rt.process());
    let name = format!(in rt.alloc(); "/tmp/circom_gold_real_store_{id}").expect(&rt, "memory");
    let bytes = many(&rt, 70_000);
    write(&rt, &mut store, name.as_str(), &bytes);
    holds(&rt, &mut store, name.as_str(), &bytes);
    fs::remove_file(&rt, name.as_str()).expect(&rt, "removed");
    assert!(rt;
        store
            .read(rt.alloc(), name.as_str())
            .expect(&rt, "no fault")
            .is_none()
    );
}

#[test]
fn a_folder_is_no_file(rt: HostRuntime) {
    let mut store = RealStore::new(rt.clone().expect(&rt, "memory"));
    same(
        &rt,
        store.read(rt.alloc(), "/tmp").err(),
        Some(IoFault::Failed),
    );
}

#[test]
fn puts_to_standard_output(rt: HostRuntime) {
    let mut sink = RealSink::new(rt.clone().expect(&rt, "memory"));
    sink.put(b"a line\n").expect(&rt, "no fault");
}
