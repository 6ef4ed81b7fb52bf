ghost use Rattle.std.specs.Prelude.{◌≡◌, ◌↔◌, ◌≤◌, ◌∷◌, ◌++◌, [], ℕ};
ghost use Rattle.std.specs.Prelude.{List, IfOk, if◌then◌else◌, OnOk, OnErr, IsTrue, IsErrOf};
ghost use Rattle.out_io.specs.Contents.{Contents, Replaces, bytes_of};
ghost use Rattle.out_io.specs.Faults.{CountsFaults, faults_after, one_more_fault};
ghost use Rattle.out_io.specs.History.{Appended, Put, Read, Write, Wrote, found_of};
ghost use Rattle.out_io.specs.Memory.{files_of, IsDue, next_call};
ghost use Rattle.out_io.specs.declared.fault.IoFault.TheVariants.{Failed};

use crate::{History, IoFault, Sink, Store};
use std::alloc::Global;
use std::collections::BTreeMap;

/// Files in memory. It fails at the calls whose numbers, counted from 0, stand in `fail`.
#[derive(Drop)]
pub struct MemStore {
    pub files: BTreeMap<String, Vec<u8>>,
    pub fail: Vec<u32>,
    /// The next call's number. It stays at its last value, at which no call fails.
    pub calls: u32,
    pub history: History,
    pub faults: u64,
}

/// Bytes in memory. It fails at the calls whose numbers, counted from 0, stand in `fail`.
#[derive(Drop)]
pub struct MemSink {
    pub bytes: Vec<u8>,
    pub fail: Vec<u32>,
    /// The next call's number. It stays at its last value, at which no call fails.
    pub calls: u32,
    pub history: History,
    pub faults: u64,
}

impl MemStore {
    /// No files, and no call that fails.
    pub fn new(alloc: Global) -> MemStore
        ensures files { result.files.entries ≡ [] }
        ensures fail { result.fail.items ≡ [] }
        ensures calls { result.calls ≡ 0 }
        ensures history { result.history.calls ≡ [] }
        ensures faults { result.faults ≡ 0 }
    {
        MemStore {
            files: BTreeMap::new(alloc),
            fail: Vec::new(alloc),
            calls: 0,
            history: History::new(),
            faults: 0,
        }
    }
}

impl MemSink {
    /// No bytes, and no call that fails.
    pub fn new(alloc: Global) -> MemSink
        ensures bytes { result.bytes.items ≡ [] }
        ensures fail { result.fail.items ≡ [] }
        ensures calls { result.calls ≡ 0 }
        ensures history { result.history.calls ≡ [] }
        ensures faults { result.faults ≡ 0 }
    {
        MemSink {
            bytes: Vec::new(alloc),
            fail: Vec::new(alloc),
            calls: 0,
            history: History::new(),
            faults: 0,
        }
    }
}

// Counts one call, and says whether it is one that fails.
fn count_call(fail: &[u32], calls: &mut u32, faults: &mut u64) -> bool
    ensures due { IsTrue result ↔ IsDue fail.now calls.old }
    ensures calls { calls.new ≡ next_call calls.old }
    ensures faults { faults.new ≡ (if result then one_more_fault faults.old else faults.old) }
    ensures later { faults.old ≤ faults.new }
{
    let number = *calls;
    *calls = number.saturating_add(1);
    let is_due = number < u32::MAX && fail.contains(&number);
    if is_due {
        *faults = faults.saturating_add(1);
    }
    is_due
}

fn found_in(
    alloc: Global,
    files: &BTreeMap<String, Vec<u8>>,
    name: &str,
) -> Result<Option<Vec<u8>>, IoFault>
    ensures found { IfOk result (λ found. bytes_of found ≡ files_of files.now name.now) }
    ensures cause { ¬ IsErrOf result Failed }
{
    match files.get(name) {
        None => Ok(None),
        Some(bytes) => Ok(Some(Vec::from_slice(alloc, bytes)?)),
    }
}

fn put_under(
    alloc: Global,
    files: &mut BTreeMap<String, Vec<u8>>,
    name: &str,
    bytes: &[u8],
) -> Result<(), IoFault>
    ensures ok { OnOk result
        (Replaces name.now bytes.now (files_of files.old) (files_of files.new)) }
    ensures err { OnErr result (files.new.entries ≡ files.old.entries) }
    ensures cause { ¬ IsErrOf result Failed }
{
    let key = String::from_str(alloc, name)?;
    let bytes = Vec::from_slice(alloc, bytes)?;
    files.insert(key, bytes)?;
    Ok(())
}

fn append(text: &mut Vec<u8>, bytes: &[u8]) -> Result<(), IoFault>
    ensures ok { OnOk result (text.new.items ≡ text.old.items ++ bytes.now) }
    ensures err { OnErr result (text.new.items ≡ text.old.items) }
    ensures cause { ¬ IsErrOf result Failed }
{
    text.extend_from_slice(bytes)?;
    Ok(())
}

impl Store for MemStore {
    ghost may_hold = { λ s files. files ≡ files_of s.files };

    ghost calls = { λ s. s.history.calls };

    ghost faults = { λ s. s.faults };

    ghost never_fails = { λ s. s.fail.items ≡ [] };

    fn read(&mut self, alloc: Global, name: &str) -> Result<Option<Vec<u8>>, IoFault>
        ensures found { IfOk result
            (λ found. bytes_of found ≡ files_of self.old.files name.now) }
        ensures same { self.new.files ≡ self.old.files }
        ensures asked { self.new.history.calls
            ≡ Read name.now (found_of result) ∷ self.old.history.calls }

        ensures cause { CountsFaults self.old.faults self.new.faults result }
        ensures steady { self.old.fail.items ≡ [] → (self.new.fail.items ≡ [])
            × (self.new.faults ≡ self.old.faults) }

        ensures failed { IsErrOf result Failed ↔ IsDue self.old.fail.items self.old.calls }
        ensures calls { self.new.calls ≡ next_call self.old.calls }
        ensures faults { self.new.faults ≡ faults_after result self.old.faults }
        ensures to_come { self.new.fail ≡ self.old.fail }
    {
        if count_call(&self.fail, &mut self.calls, &mut self.faults) {
            return self.history.add_read(name, Err(IoFault::Failed));
        }
        let found = found_in(alloc, &self.files, name);
        self.history.add_read(name, found)
    }

    fn write(&mut self, alloc: Global, name: &str, bytes: &[u8]) -> Result<(), IoFault>
        ensures ok { OnOk result
            (Replaces name.now bytes.now (files_of self.old.files) (files_of self.new.files)) }
        ensures err { OnErr result (self.new.files.entries ≡ self.old.files.entries) }
        ensures asked { self.new.history.calls
            ≡ Write name.now bytes.now result ∷ self.old.history.calls }

        ensures cause { CountsFaults self.old.faults self.new.faults result }
        ensures steady { self.old.fail.items ≡ [] → (self.new.fail.items ≡ [])
            × (self.new.faults ≡ self.old.faults) }

        ensures failed { IsErrOf result Failed ↔ IsDue self.old.fail.items self.old.calls }
        ensures calls { self.new.calls ≡ next_call self.old.calls }
        ensures faults { self.new.faults ≡ faults_after result self.old.faults }
        ensures to_come { self.new.fail ≡ self.old.fail }
    {
        if count_call(&self.fail, &mut self.calls, &mut self.faults) {
            return self.history.add_write(name, bytes, Err(IoFault::Failed));
        }
        let done = put_under(alloc, &mut self.files, name, bytes);
        self.history.add_write(name, bytes, done)
    }
}

impl Sink for MemSink {
    ghost may_have = { λ s text. text ≡ s.bytes.items };

    ghost calls = { λ s. s.history.calls };

    ghost faults = { λ s. s.faults };

    ghost never_fails = { λ s. s.fail.items ≡ [] };

    fn put(&mut self, bytes: &[u8]) -> Result<(), IoFault>
        ensures ok { OnOk result (self.new.bytes.items ≡ self.old.bytes.items ++ bytes.now) }
        ensures err { OnErr result (self.new.bytes.items ≡ self.old.bytes.items) }
        ensures asked { self.new.history.calls
            ≡ Put bytes.now result ∷ self.old.history.calls }

        ensures cause { CountsFaults self.old.faults self.new.faults result }
        ensures steady { self.old.fail.items ≡ [] → (self.new.fail.items ≡ [])
            × (self.new.faults ≡ self.old.faults) }

        ensures failed { IsErrOf result Failed ↔ IsDue self.old.fail.items self.old.calls }
        ensures calls { self.new.calls ≡ next_call self.old.calls }
        ensures faults { self.new.faults ≡ faults_after result self.old.faults }
        ensures to_come { self.new.fail ≡ self.old.fail }
    {
        if count_call(&self.fail, &mut self.calls, &mut self.faults) {
            return self.history.add_put(bytes, Err(IoFault::Failed));
        }
        let done = append(&mut self.bytes, bytes);
        self.history.add_put(bytes, done)
    }
}
