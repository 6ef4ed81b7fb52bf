//! The system's files, read and written whole.

use crate::IoFault;
use std::alloc::{AllocError, Global};
use std::fs::{self, File, Metadata, OpenFile, OpenOptions};
use std::io::{ErrorKind, Read, Write};
use std::os::unix::fs::MetadataExt;
use std::rt::Files;

// The most bytes of a file that is read. No command takes a file as long as this.
const MOST_BYTES: usize = 1 << 30;

// The most turns that one reading of a file takes, of at least one byte each.
const MOST_TURNS: u32 = 1 << 20;

// The most bytes that one turn reads.
const BUFFER: usize = 65_536;

// How many names are tried for a file beside another.
const MOST_NAMES: u32 = 16;

// Reads on to the file's end.
fn read_to_end<F: Read>(alloc: Global, file: &mut F) -> Result<Vec<u8>, IoFault> {
    let mut bytes = Vec::new(alloc);
    let mut buffer = [0u8; BUFFER];
    for _ in 0..MOST_TURNS {
        let Ok(count) = file.read(&mut buffer) else {
            return Err(IoFault::Failed);
        };
        if count == 0 {
            return Ok(bytes);
        }
        bytes.extend_from_slice(&buffer[..count])?;
        if bytes.len() > MOST_BYTES {
            return Err(IoFault::Failed);
        }
    }
    match file.read(&mut buffer) {
        Ok(0) => Ok(bytes),
        _ => Err(IoFault::Failed),
    }
}

/// The file's bytes, or `None` where the system finds nothing under the name.
pub fn read_file<R: Files>(rt: &R, alloc: Global, name: &str) -> Result<Option<Vec<u8>>, IoFault> {
    match File::open(rt, name) {
        Ok(mut file) => Ok(Some(read_to_end(alloc, &mut file)?)),
        Err(error) if error.kind() == ErrorKind::NotFound => Ok(None),
        Err(_) => Err(IoFault::Failed),
    }
}

/// Makes the name a file of these bytes. Where nothing stands under it, or an ordinary file of no
/// other name, they are written to a file beside it, which is then moved over it: so after a fault
/// what was there is as it was. A link, a device or a pipe is written through, as is a file whose
/// owner or rights one beside it can't have; after a fault it holds a prefix of the bytes.
pub fn write_file<R: Files>(
    rt: &R,
    alloc: Global,
    name: &str,
    bytes: &[u8],
) -> Result<(), IoFault> {
    let before = match fs::symlink_metadata(rt, name) {
        Ok(before) if before.is_file() && before.nlink() == 1 => Some(before),
        Err(error) if error.kind() == ErrorKind::NotFound => None,
        _ => return write_through(rt, name, bytes),
    };
    if before.is_some() && OpenOptions::new().write(true).open(rt, name).is_err() {
        return Err(IoFault::Failed);
    }
    match beside(rt, alloc, name)? {
        Some(mut new) => {
            if !new.takes_after(&before) {
                new.remove(rt);
                return write_through(rt, name, bytes);
            }
            new.write_and_move(rt, name, bytes)
        }
        None => write_through(rt, name, bytes),
    }
}

// Empties what stands under the name, or makes a file, and writes the bytes to it.
fn write_through<R: Files>(rt: &R, name: &str, bytes: &[u8]) -> Result<(), IoFault> {
    let Ok(mut file) = File::create(rt, name) else {
        return Err(IoFault::Failed);
    };
    match file.write_all(bytes) {
        Ok(()) => Ok(()),
        Err(_) => Err(IoFault::Failed),
    }
}

// A file that was made to be moved over another.
#[derive(Drop)]
struct NewFile<R: Files> {
    file: R::File,
    name: String,
}

// A new file beside the name, where one can be made.
fn beside<R: Files>(rt: &R, alloc: Global, name: &str) -> Result<Option<NewFile<R>>, AllocError> {
    for k in 0..MOST_NAMES {
        let name = format!(in alloc; "{name}.{k}.new")?;
        match File::create_new(rt, name.as_str()) {
            Ok(file) => return Ok(Some(NewFile { file, name })),
            Err(error) if error.kind() == ErrorKind::AlreadyExists => {}
            Err(_) => return Ok(None),
        }
    }
    Ok(None)
}

impl<R: Files> NewFile<R> {
    // Whether it has the owner of the file before, and was given its rights.
    fn takes_after(&self, before: &Option<Metadata>) -> bool {
        let Some(before) = before else {
            return true;
        };
        match self.file.metadata() {
            Ok(made) => {
                made.uid() == before.uid()
                    && made.gid() == before.gid()
                    && self.file.set_permissions(before.permissions()).is_ok()
            }
            Err(_) => false,
        }
    }

    // Writes the bytes, and moves it over the other.
    fn write_and_move(mut self, rt: &R, over: &str, bytes: &[u8]) -> Result<(), IoFault> {
        let is_written = self.file.write_all(bytes).is_ok();
        if is_written && fs::rename(rt, self.name.as_str(), over).is_ok() {
            return Ok(());
        }
        self.remove(rt);
        Err(IoFault::Failed)
    }

    // Takes it away again. Where that fails, it stays.
    fn remove(self, rt: &R) {
        let _removed = fs::remove_file(rt, self.name.as_str());
    }
}
