use command_samples::run_words;
use out_io::MemStore;
use std::fmt::Debug;
use std::process::Abort;
use std::sync::Wait;
use std::thread::Threads;

/// Ends the test unless both are the same. A function of its own, since the proof of a test grows
/// with the square of what stands in it.
pub fn same<T: PartialEq + Debug + Drop>(rt: &impl Abort, found: T, wanted: T) {
    assert_eq!(rt; found, wanted);
}

/// The words over the store end with this status and say this, by one call of the sink.
pub fn says<R: Threads + Wait + AllocGlobal + Sync + Abort>(
    rt: &R,
    words: &str,
    store: &mut MemStore,
    status: u8,
    line: &str,
) {
    let ran = run_words(rt, words, store).expect(rt, "memory");
    same(rt, ran.text.as_slice(), line.as_bytes());
    same(rt, (ran.status, ran.puts), (status, 1));
}

/// The words over the store end with this status and say a line that begins so, by one call of the
/// sink.
pub fn begins<R: Threads + Wait + AllocGlobal + Sync + Abort>(
    rt: &R,
    words: &str,
    store: &mut MemStore,
    status: u8,
    first: &str,
) {
    let ran = run_words(rt, words, store).expect(rt, "memory");
    same(
        rt,
        ran.text.as_slice().get(..first.len()),
        Some(first.as_bytes()),
    );
    same(rt, (ran.status, ran.puts), (status, 1));
}
