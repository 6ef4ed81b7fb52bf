use crate::checks::same;
use crate::loading::{expect_at, write};
use cir_ast::Kind;
use cir_sources::{LoadFault, reach};
use cir_token::LexCause;
use out_io::MemStore;
use std::process::Abort;

#[test]
fn answers_that_the_first_file_is_missing(rt: HostRuntime) {
    let mut store = MemStore::new(rt.alloc());
    let answer = reach(rt.alloc(), &mut store, "a.circom", None);
    assert!(rt; matches!(answer, Err(LoadFault::Missing)));
}

#[test]
fn refuses_a_byte_that_begins_no_token(rt: HostRuntime) {
    let mut store = MemStore::new(rt.alloc());
    write(&rt, &mut store, "dir/a.circom", b"pragma\n  #");
    let cause = LexCause::BadChar;
    match reach(rt.alloc(), &mut store, "dir/a.circom", Some("inc")) {
        Err(LoadFault::Refused(refusal)) => {
            expect_at(&rt, &refusal, Kind::Lexical { cause }, 2, 3, "dir/a.circom");
            same(&rt, refusal.place.path.as_slice(), b"-".as_slice());
        }
        _ => panic!(rt; "not refused"),
    }
}

#[test]
fn answers_that_the_store_failed(rt: HostRuntime) {
    let mut store = MemStore::new(rt.alloc());
    store.fail.push(0).expect(&rt, "memory");
    let answer = reach(rt.alloc(), &mut store, "a.circom", None);
    assert!(rt; matches!(answer, Err(LoadFault::Fault)));
    same(&rt, store.faults, 1);
}

// The sources of a program without libraries have these names, each followed by a blank.
fn have_names<R: AllocGlobal + Abort>(rt: &R, store: &mut MemStore, name: &str, wanted: &[u8]) {
    let found = reach(rt.alloc(), store, name, None).ok();
    let found = found.expect(rt, "sources").sources;
    let mut names = Vec::new(rt.alloc());
    for source in found.as_slice() {
        names
            .extend_from_slice(source.name.as_slice())
            .expect(rt, "memory");
        names.push(b' ').expect(rt, "memory");
    }
    same(rt, names.as_slice(), wanted);
}

#[test]
fn reads_files_that_include_each_other_once(rt: HostRuntime) {
    let mut store = MemStore::new(rt.alloc());
    write(&rt, &mut store, "a", b"include \"lib/b\";");
    write(&rt, &mut store, "lib/b", b"include \"../a\";");
    let calls = store.calls;
    have_names(&rt, &mut store, "a", b"a lib/b ");
    same(&rt, store.calls, calls.saturating_add(2));
}

#[test]
fn follows_includes_depth_first(rt: HostRuntime) {
    let mut store = MemStore::new(rt.alloc());
    let first = b"include \"b\"; include \"./c\"; include \"b\";";
    write(&rt, &mut store, "dir/a", first);
    write(&rt, &mut store, "dir/b", b"include \"x/../../d\";");
    write(&rt, &mut store, "d", b"include \"dir/c\";");
    write(&rt, &mut store, "dir/c", b"");
    have_names(&rt, &mut store, "dir/a", b"dir/a dir/b d dir/c ");
}

#[test]
fn passes_over_empty_segments_of_folders(rt: HostRuntime) {
    let mut store = MemStore::new(rt.alloc());
    write(
        &rt,
        &mut store,
        "sub//y",
        b"include \"../t\"; include \"/t\";",
    );
    write(&rt, &mut store, "t", b"include \"lib//./z\";");
    write(&rt, &mut store, "lib/z", b"");
    write(&rt, &mut store, "sub/t", b"");
    have_names(&rt, &mut store, "sub//y", b"sub//y t lib/z sub/t ");
}
