//! Writing a proof of version 2.

ghost use Rattle.std.specs.Prelude.{◌≡◌, ◌++◌, IfOk, OnOk};
ghost use Rattle.std.specs.List.{flat_map};
ghost use Rattle.lig_merkle.specs.Merkle.{column_bytes};
ghost use Rattle.lig_proof.specs.SharedProof.{proof2_bytes};

use crate::shared_proof::Proof2;
use crate::write::{put_hash, put_hashes, put_head, put_values};
use gold_field::Gold;
use items::Items;
use std::alloc::{AllocError, Global};

/// The one spelling of the proof.
pub fn write_proof2(alloc: Global, proof: &Proof2) -> Result<Vec<u8>, AllocError>
    ensures { IfOk result (λ v. v.items ≡ proof2_bytes proof.now) }
{
    let mut out = Vec::new(alloc);
    put_head(&mut out, 2)?;
    put_hash(&mut out, &proof.root)?;
    put_values(&mut out, proof.polys.as_slice())?;
    put_columns(&mut out, proof.columns.as_slice())?;
    put_hashes(&mut out, proof.nodes.as_slice())?;
    Ok(out)
}

fn put_columns(out: &mut Vec<u8>, columns: &[Items<Gold>]) -> Result<(), AllocError>
    ensures { OnOk result (out.new.items ≡ out.old.items ++ flat_map column_bytes columns.now) }
{
    for column in columns {
        put_values(out, column.as_slice())?;
    }
    Ok(())
}
