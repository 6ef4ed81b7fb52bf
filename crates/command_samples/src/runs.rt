//! Runs of the program.

use circom_gold::run;
use out_io::{MemSink, MemStore};
use std::alloc::{AllocError, Global};
use std::sync::Wait;
use std::thread::Threads;

/// What a run made of the words: the status, the text, and how often it asked store and sink.
#[derive(Drop)]
pub struct Ran {
    pub status: u8,
    pub text: Vec<u8>,
    pub asked: u32,
    pub puts: u32,
}

/// The words between the gaps. `""` stands for an empty one.
pub fn split(alloc: Global, words: &str) -> Result<Vec<String>, AllocError> {
    let mut texts = Vec::new(alloc);
    for word in words.split_whitespace() {
        let word = if word == "\"\"" { "" } else { word };
        texts.push(String::from_str(alloc, word)?)?;
    }
    Ok(texts)
}

/// Runs the words over the store and into the sink.
pub fn run_into<R: Threads + Wait + AllocGlobal + Sync>(
    rt: &R,
    words: &str,
    store: &mut MemStore,
    mut out: MemSink,
) -> Result<Ran, AllocError> {
    let words = split(rt.alloc(), words)?;
    let status = run(rt, rt.alloc(), words.as_slice(), store, &mut out)?;
    Ok(Ran {
        status,
        text: out.bytes,
        asked: store.calls,
        puts: out.calls,
    })
}

/// Runs the words over the store.
pub fn run_words<R: Threads + Wait + AllocGlobal + Sync>(
    rt: &R,
    words: &str,
    store: &mut MemStore,
) -> Result<Ran, AllocError> {
    run_into(rt, words, store, MemSink::new(rt.alloc()))
}
