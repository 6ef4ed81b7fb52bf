//! The program `circom_gold`: its words, files and standard output, given to the library.
#![tactic(auto)]

ghost use Rattle.std.specs.Prelude.{◌≡◌, IfErr, IfOk, IsErr};

mod explaining;
mod progress;

use circom_gold::run;
use explaining::{explain, is_explaining, is_watched, warn};
use out_io::{RealSink, RealStore, Sink, Store};
use progress::{Progress, Teller};
use std::alloc::{AllocError, AllocGlobal};
use std::env;
use std::io::ErrorKind;
use std::process::ExitCode;
use std::rt::{Env, Runtime};
use std::sync::{Arc, Wait};
use std::thread::{Builder, Promise, Threads};
use std::time::Clock;
use watched_io::{Heard, Watched};

// The exit status where memory ran out.
const WANT_OF_MEMORY: u8 = 4;

// A source is executed by calls inside each other, one for each template, call, statement and
// expression that is open: 256 templates and 256 calls, with some 250 others in each. With 240 in
// each it took half a gigabyte; only what is used of it is ever taken from the system. The second
// size is asked for where there is no room for the first.
const STACK: usize = 1 << 30;

const SMALLER_STACK: usize = 5 << 27;

fn main(rt: HostRuntime) -> ExitCode {
    let explains = is_explaining(&rt);
    let progress = if is_watched(&rt, explains) {
        Arc::new(rt.alloc(), Progress::new()).ok()
    } else {
        None
    };
    let told = match &progress {
        Some(progress) => progress.clone().ok(),
        None => None,
    };
    let shown = if told.is_some() { progress } else { None };
    let outcome = match rt.clone() {
        Ok(inner) => on_a_deep_stack(&rt, shown, move || -> Result<u8, AllocError> {
            run_real(&inner, explains, told)
        }),
        Err(error) => Err(error),
    };
    if outcome.is_err() {
        let _ = eprintln!(rt; "want of memory");
    }
    ExitCode::from(exit_status(outcome))
}

// The exit status: the answer, or 4 for want of memory.
fn exit_status(outcome: Result<u8, AllocError>) -> u8
    ensures answer { IfOk outcome (λ status. result ≡ status) }
    ensures want_of_memory { IsErr outcome → result ≡ 4 }
{
    match outcome {
        Ok(status) => status,
        Err(AllocError) => WANT_OF_MEMORY,
    }
}

// Nothing is said of the answer: a thread gives what its work gives.
#[derive(Drop)]
struct Unsaid;

impl Promise<Result<u8, AllocError>> for Unsaid {
    ghost use Rattle.std.specs.Prelude.{⊤};

    ghost kept_by = { λ _ _. ⊤ };
}

// The answer of the work, on a deep stack. Where there can't be one, memory is wanting.
fn on_a_deep_stack<
    R: Threads + Wait + Clock + Eprint,
    F: FnOnce() -> Result<u8, AllocError> + Send + Drop + 'static,
>(rt: &R, progress: Option<Arc<Progress>>, work: F) -> Result<u8, AllocError>
    requires { F.pre work }
{
    match on_a_stack(rt, STACK, &progress, work) {
        Ok(answer) => answer,
        Err(work) => match on_a_stack(rt, SMALLER_STACK, &progress, work) {
            Ok(answer) => answer,
            Err(_) => Err(AllocError),
        },
    }
}

// The answer of the work, on a stack of that size; or the work, where there can't be one. Meanwhile
// this thread says how far it is.
fn on_a_stack<
    R: Threads + Wait + Clock + Eprint,
    F: FnOnce() -> Result<u8, AllocError> + Send + Drop + 'static,
>(
    rt: &R,
    size: usize,
    progress: &Option<Arc<Progress>>,
    work: F,
) -> Result<Result<u8, AllocError>, F>
    requires { F.pre work }
    ensures { IfErr result (λ left. F.pre left) }
{
    match Builder::new().stack_size(size).spawn_with(rt, Unsaid, work) {
        Ok(child) => {
            if let Some(progress) = progress {
                progress.watch(rt);
            }
            Ok(child.join(rt))
        }
        Err(refused) => Err(refused.value),
    }
}

// Does what the words of the command line ask for, over the real files and the real standard
// output. What it explains comes behind the answer, and doesn't change it.
fn run_real<R: Runtime + AllocGlobal + Threads + Wait + Sync>(
    rt: &R,
    explains: bool,
    progress: Option<Arc<Progress>>,
) -> Result<u8, AllocError> {
    match progress {
        None => run_told(rt, explains, None, None),
        Some(progress) => {
            let answer = run_shown(rt, explains, &progress);
            progress.end();
            answer
        }
    }
}

fn run_shown<R: Runtime + AllocGlobal + Threads + Wait + Sync>(
    rt: &R,
    explains: bool,
    progress: &Arc<Progress>,
) -> Result<u8, AllocError> {
    let first = progress.clone()?;
    let second = progress.clone()?;
    run_told(rt, explains, Some(first), Some(second))
}

// The same, telling of each step what both devices see.
fn run_told<R: Runtime + AllocGlobal + Threads + Wait + Sync>(
    rt: &R,
    explains: bool,
    first: Option<Arc<Progress>>,
    second: Option<Arc<Progress>>,
) -> Result<u8, AllocError> {
    let alloc = rt.alloc();
    let words = words(rt)?;
    if let Some(progress) = &first {
        progress.begin(words.as_slice());
    }
    let teller = Teller::new(rt.clone()?, first);
    let mut store = Watched::new(alloc, RealStore::new(rt.clone()?), teller, explains);
    let teller = Teller::new(rt.clone()?, second);
    let mut out = Heard::new(alloc, RealSink::new(rt.clone()?), teller, explains);
    if explains {
        warn(rt, words.as_slice());
    }
    let status = run_words(rt, words.as_slice(), &mut store, &mut out)?;
    if explains {
        let _ = explain(rt, words.as_slice(), out.text(), status, store.asked());
    }
    Ok(status)
}

fn run_words<R: Threads + Wait + AllocGlobal + Sync, S: Store, K: Sink>(
    rt: &R,
    words: &[String],
    store: &mut S,
    out: &mut K,
) -> Result<u8, AllocError> {
    run(rt, rt.alloc(), words, store, out)
}

// The words behind the program's name. Where one isn't UTF-8 there are none, which have no reading
// either.
fn words(rt: &(impl Env + AllocGlobal)) -> Result<Vec<String>, AllocError> {
    match env::args(rt) {
        Ok(words) => words.skip(1).collect(rt.alloc()),
        Err(error) if error.kind() == ErrorKind::OutOfMemory => Err(AllocError),
        Err(_) => Ok(Vec::new(rt.alloc())),
    }
}
