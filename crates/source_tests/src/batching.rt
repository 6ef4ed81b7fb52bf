// `batch`.
use crate::checks::{same, says};
use crate::compiling::PRODUCT;
use crate::running::TWO;
use command_samples::{put_file, sources, wtns};
use out_io::MemStore;
use std::process::Abort;
use std::sync::Wait;
use std::thread::Threads;

// The file of few items, with the kind and the bytes of each.
fn items<R: AllocGlobal + Abort>(rt: &R, items: &[(u8, &[u8])]) -> Vec<u8> {
    let count = u8::try_from(items.len()).expect(rt, "few");
    let mut bytes = Vec::from_slice(rt.alloc(), b"wtnb\x01\0\0\0").expect(rt, "memory");
    bytes
        .extend_from_slice(&[count, 0, 0, 0])
        .expect(rt, "memory");
    for (kind, body) in items {
        let size = u8::try_from(body.len()).expect(rt, "few");
        let head = [*kind, 0, 0, 0, size, 0, 0, 0, 0, 0, 0, 0];
        bytes.extend_from_slice(&head).expect(rt, "memory");
        bytes.extend_from_slice(body).expect(rt, "memory");
    }
    bytes
}

// With these options `batch` says so of the lines and writes this file.
fn writes<R: Threads + Wait + AllocGlobal + Sync + Abort>(
    rt: &R,
    store: &mut MemStore,
    options: &str,
    text: &str,
    wanted: &[u8],
) {
    let words = format!(in rt.alloc(); "batch two.circom i.txt o.wtnb {options}");
    let words = words.expect(rt, "memory");
    says(rt, words.as_str(), store, 0, text);
    let bytes = store.files.get("o.wtnb").expect(rt, "a file");
    same(rt, bytes.as_slice(), wanted);
}

#[test]
fn a_batch_has_an_item_for_each_line(rt: HostRuntime) {
    let lines = "{\"a\":3,\"b\":\"11\"}\n{}\n{\"a\":2,\"b\":2}\n";
    let files = [("two.circom", PRODUCT), ("i.txt", lines)];
    let mut store = sources(rt.alloc(), &files).expect(&rt, "memory");
    let first = wtns(rt.alloc(), &[1, 33, 3, 11]).expect(&rt, "memory");
    let third = wtns(rt.alloc(), &[1, 4, 2, 2]).expect(&rt, "memory");
    let wanted = items(
        &rt,
        &[
            (0, first.as_slice()),
            (1, b"refused: I2 Missing a"),
            (0, third.as_slice()),
        ],
    );
    same(&rt, wanted.len(), 237);
    let text = "batch: inputs 3, witnesses 2\n";
    for options in ["", "--workers 1", "--workers 64"] {
        writes(&rt, &mut store, options, text, wanted.as_slice());
    }
}

#[test]
fn a_line_that_stops_touches_no_other(rt: HostRuntime) {
    let files = [("two.circom", TWO), ("i.txt", "{\"a\":1}\n{\"a\":2}")];
    let mut store = sources(rt.alloc(), &files).expect(&rt, "memory");
    let second = wtns(rt.alloc(), &[1, 2, 2]).expect(&rt, "memory");
    let stop = b"refused: W2 AssertFails at two.circom:1:33 in main.p";
    let wanted = items(&rt, &[(1, stop), (0, second.as_slice())]);
    let text = "batch: inputs 2, witnesses 1\n";
    writes(&rt, &mut store, "", text, wanted.as_slice());
}

#[test]
fn a_batch_may_have_no_lines(rt: HostRuntime) {
    let files = [("two.circom", PRODUCT), ("i.txt", "")];
    let mut store = sources(rt.alloc(), &files).expect(&rt, "memory");
    let text = "batch: inputs 0, witnesses 0\n";
    writes(&rt, &mut store, "", text, b"wtnb\x01\0\0\0\0\0\0\0");
}

// Each line of the product counts 4 cells, a step and 64.
#[test]
fn a_large_batch_is_refused(rt: HostRuntime) {
    let files = [("two.circom", PRODUCT)];
    let mut store = sources(rt.alloc(), &files).expect(&rt, "memory");
    let words = "batch two.circom i.txt o.wtnb";
    says(&rt, words, &mut store, 1, "refused: i.txt: no such file\n");
    let lines = vec![in rt.alloc(); b'\n'; 486297].expect(&rt, "memory");
    put_file(rt.alloc(), &mut store, "i.txt", lines.as_slice()).expect(&rt, "memory");
    says(&rt, words, &mut store, 1, "refused: B1 Limit 33554493\n");
    same(&rt, store.files.contains_key("o.wtnb"), false);
}
