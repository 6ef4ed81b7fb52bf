//! Writing a proof.

ghost use Rattle.std.specs.Prelude.{◌≡◌, ◌++◌, IfOk, OnOk, length};
ghost use Rattle.std.specs.List.{flat_map};
ghost use Rattle.lig_proof.specs.ProofBytes.{opened_count, proof_bytes, head_bytes};
ghost use Rattle.lig_proof.specs.ProofBytes.{hashes_bytes, openings_bytes};
ghost use Rattle.lig_merkle.specs.Merkle.{column_bytes};

use crate::proof::Proof;
use binary_format::{put_u32, put_u64};
use gold_field::Gold;
use items::Items;
use lig_merkle::Hash;
use std::alloc::{AllocError, Global};

/// The one spelling of the proof.
pub fn write_proof(alloc: Global, proof: &Proof) -> Result<Vec<u8>, AllocError>
    requires columns { length proof.now.columns ≡ opened_count }
    requires paths { length proof.now.paths ≡ opened_count }
    ensures { IfOk result (λ v. v.items ≡ proof_bytes proof.now) }
{
    let mut out = Vec::new(alloc);
    put_head(&mut out, 1)?;
    put_hash(&mut out, &proof.root)?;
    put_values(&mut out, proof.polys.as_slice())?;
    put_openings(&mut out, proof.columns.as_slice(), proof.paths.as_slice())?;
    Ok(out)
}

pub fn put_head(out: &mut Vec<u8>, version: u32) -> Result<(), AllocError>
    ensures { OnOk result (out.new.items
        ≡ out.old.items ++ head_bytes version) }
{
    out.extend_from_slice(b"ligg")?;
    put_u32(out, version)
}

pub fn put_hash(out: &mut Vec<u8>, hash: &Hash) -> Result<(), AllocError>
    ensures { OnOk result (out.new.items ≡ out.old.items ++ hash.now) }
{
    out.extend_from_slice(hash)
}

pub fn put_values(out: &mut Vec<u8>, values: &[Gold]) -> Result<(), AllocError>
    ensures { OnOk result (out.new.items ≡ out.old.items ++ column_bytes values.now) }
{
    for value in values {
        put_u64(out, value.get())?;
    }
    Ok(())
}

pub fn put_hashes(out: &mut Vec<u8>, hashes: &[Hash]) -> Result<(), AllocError>
    ensures { OnOk result (out.new.items ≡ out.old.items ++ hashes_bytes hashes.now) }
{
    for hash in hashes {
        put_hash(out, hash)?;
    }
    Ok(())
}

fn put_openings(
    out: &mut Vec<u8>,
    columns: &[Items<Gold>],
    paths: &[Items<Hash>],
) -> Result<(), AllocError>
    requires { length columns.now ≡ length paths.now }
    ensures { OnOk result (out.new.items ≡ out.old.items ++ openings_bytes columns.now paths.now) }
{
    for (k, column) in columns.iter().enumerate() {
        put_values(out, column.as_slice())?;
        put_hashes(out, paths[k].as_slice())?;
    }
    Ok(())
}
