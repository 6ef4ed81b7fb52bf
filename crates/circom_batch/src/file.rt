ghost use Rattle.std.specs.Prelude.{◌≡◌, ◌<◌, ◌^◌, ◌++◌, IfOk, OnOk, length};
ghost use Rattle.iden_files.specs.Spelling.{section_bytes, section_head};
ghost use Rattle.circom_batch.specs.Items.{batch_bytes, item_bytes, witnesses};

use crate::item::Item;
use binary_format::{put_u32, put_u64};
use std::alloc::{AllocError, Global};

/// The file of a batch: how many lines there are, and of each of them what it comes to.
pub fn batch_bytes(alloc: Global, items: &[Item]) -> Result<Vec<u8>, AllocError>
    requires { length items.now < 2 ^ 32 }
    ensures { IfOk result (λ v. v.items ≡ batch_bytes items.now) }
{
    let mut out = Vec::from_slice(alloc, b"wtnb")?;
    put_u32(&mut out, 1)?;
    put_u32(&mut out, items.len() as u32)?;
    for item in items {
        put_item(&mut out, item)?;
    }
    Ok(out)
}

fn put_item(out: &mut Vec<u8>, item: &Item) -> Result<(), AllocError>
    ensures { OnOk result (out.new.items ≡ out.old.items ++ item_bytes item.now) }
{
    match item {
        Item::Witness(bytes) => put_section(out, 0, bytes.as_slice()),
        Item::Refused(line) => put_section(out, 1, line.as_slice()),
    }
}

fn put_section(out: &mut Vec<u8>, kind: u32, body: &[u8]) -> Result<(), AllocError>
    ensures { OnOk result (out.new.items ≡ out.old.items ++ section_bytes kind body.now) }
{
    put_head(out, kind, body.len() as u64)?;
    out.extend_from_slice(body)?;
    Ok(())
}

fn put_head(out: &mut Vec<u8>, kind: u32, size: u64) -> Result<(), AllocError>
    ensures { OnOk result (out.new.items ≡ out.old.items ++ section_head kind size) }
{
    put_u32(out, kind)?;
    put_u64(out, size)
}

/// How many of the lines have values.
pub fn witnesses(items: &[Item]) -> usize
    ensures { result ≡ witnesses items.now }
{
    items.iter().filter(|item| item.is_witness()).count()
}
