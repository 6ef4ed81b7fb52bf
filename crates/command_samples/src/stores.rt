//! Stores of files.

use out_io::MemStore;
use std::alloc::{AllocError, Global};

/// A file of these values.
pub fn wtns(alloc: Global, values: &[u64]) -> Result<Vec<u8>, AllocError> {
    let mut bytes = Vec::new(alloc);
    let count = values.len() as u64;
    bytes.extend_from_slice(b"wtns\x02\0\0\0\x02\0\0\0")?;
    bytes.extend_from_slice(b"\x01\0\0\0\x10\0\0\0\0\0\0\0\x08\0\0\0")?;
    bytes.extend_from_slice(b"\x01\0\0\0\xff\xff\xff\xff")?;
    let few = u32::try_from(count).unwrap_or(0);
    bytes.extend_from_slice(&few.to_le_bytes())?;
    bytes.extend_from_slice(&[2, 0, 0, 0])?;
    bytes.extend_from_slice(&count.wrapping_mul(8).to_le_bytes())?;
    for value in values {
        bytes.extend_from_slice(&value.to_le_bytes())?;
    }
    Ok(bytes)
}

/// The store takes a file, or another under its name.
pub fn put_file(
    alloc: Global,
    store: &mut MemStore,
    name: &str,
    bytes: &[u8],
) -> Result<(), AllocError> {
    let name = String::from_str(alloc, name)?;
    let bytes = Vec::from_slice(alloc, bytes)?;
    let _before = store.files.insert(name, bytes)?;
    Ok(())
}

/// A store of sources.
pub fn sources(alloc: Global, files: &[(&str, &str)]) -> Result<MemStore, AllocError> {
    let mut store = MemStore::new(alloc);
    for (name, text) in files {
        put_file(alloc, &mut store, name, text.as_bytes())?;
    }
    Ok(store)
}
