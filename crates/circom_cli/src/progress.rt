//! What a long command is at, and for how long, on a terminal's standard error. The main thread
//! writes that while the other one works, which only sets a number.

use circom_explain::{command_number, work_of};
use std::sync::atomic::{AtomicU64, Ordering};
use std::sync::{Arc, Wait};
use std::thread::Parker;
use std::time::{Clock, Duration};
use watched_io::{Step, Watcher};

const READING: u64 = 0;

const WORKING: u64 = 1;

const WRITING: u64 = 2;

const OVER: u64 = 3;

// Puts the cursor back to the row's first column, and clears the row.
const CLEAR: &str = "\r\u{1b}[K";

/// What both threads see.
pub struct Progress {
    command: AtomicU64,
    step: AtomicU64,
    files: AtomicU64,
    is_shown: AtomicU64,
    sleeper: Parker,
}

impl Drop for Progress {
    fn drop(self) {
        let Progress {
            command: _command,
            step: _step,
            files: _files,
            is_shown: _is_shown,
            sleeper: _sleeper,
        } = self;
    }
}

impl Progress {
    /// Nothing is done yet.
    pub fn new() -> Progress {
        Progress {
            command: AtomicU64::new(0),
            step: AtomicU64::new(WORKING),
            files: AtomicU64::new(0),
            is_shown: AtomicU64::new(0),
            sleeper: Parker::new(),
        }
    }

    /// The command of these words begins.
    pub fn begin(&self, words: &[String]) {
        self.command.store(command_number(words), Ordering::SeqCst);
    }

    /// The command has ended.
    pub fn end(&self) {
        self.step.store(OVER, Ordering::SeqCst);
        self.sleeper.unpark();
    }

    /// Says each second what the command is at, until it has ended or prints.
    pub fn watch<R: Wait + Clock + Eprint>(&self, rt: &R) {
        let mut seconds: u64 = 0;
        for _ in rt.forever() {
            self.sleeper.park_timeout(rt, Duration::from_secs(1));
            seconds = seconds.saturating_add(1);
            if !self.show(rt, seconds) {
                break;
            }
        }
        self.clear(rt);
    }

    // Whether the command goes on.
    fn show(&self, rt: &impl Eprint, seconds: u64) -> bool {
        let step = self.step.load(Ordering::SeqCst);
        if step == OVER {
            return false;
        }
        self.is_shown.store(1, Ordering::SeqCst);
        if self.step.load(Ordering::SeqCst) == OVER {
            return false;
        }
        let files = self.files.load(Ordering::SeqCst);
        let work = work_of(self.command.load(Ordering::SeqCst));
        let _ = match step {
            READING => eprint!(rt; "{CLEAR}circom_gold: reading file {files}, {seconds} s"),
            WRITING => eprint!(rt; "{CLEAR}circom_gold: writing, {seconds} s"),
            _ => eprint!(rt; "{CLEAR}circom_gold: {work}, {seconds} s"),
        };
        true
    }

    // Clears what is shown.
    fn clear(&self, rt: &impl Eprint) {
        if self.is_shown.swap(0, Ordering::SeqCst) != 0 {
            let _ = eprint!(rt; "{CLEAR}");
        }
    }

    fn tell(&self, rt: &impl Eprint, step: Step<'_>) {
        match step {
            Step::Reading(_) => {
                self.files.fetch_add(1, Ordering::SeqCst);
                self.step.store(READING, Ordering::SeqCst);
            }
            Step::Working => self.step.store(WORKING, Ordering::SeqCst),
            Step::Writing(_) => self.step.store(WRITING, Ordering::SeqCst),
            Step::Printing => {
                self.step.store(OVER, Ordering::SeqCst);
                self.clear(rt);
            }
        }
    }
}

/// Tells the progress of each step, where there is one.
#[derive(Drop)]
pub struct Teller<R: Eprint + Drop> {
    rt: R,
    progress: Option<Arc<Progress>>,
}

impl<R: Eprint + Drop> Teller<R> {
    pub fn new(rt: R, progress: Option<Arc<Progress>>) -> Teller<R> {
        Teller { rt, progress }
    }
}

impl<R: Eprint + Drop> Watcher for Teller<R> {
    fn tell(&mut self, step: Step<'_>) {
        if let Some(progress) = &self.progress {
            progress.tell(&self.rt, step);
        }
    }
}
