ghost use Rattle.std.specs.Prelude.{◌≡◌, ◌≤◌, ◌<◌, ◌^◌, ◌++◌, length, sum_by, IfOk, OnOk, All, Ok};
ghost use Rattle.std.specs.List.{flat_map};
ghost use Rattle.std.specs.Int.{w32, w64, to_le_bytes};
ghost use Rattle.iden_files.specs.Limits.{most_constraints, most_terms, most_wires};
ghost use Rattle.iden_files.specs.File.{InLimits, IsForm, HasForms, term_count};
ghost use Rattle.iden_files.specs.ReadR1cs.{r1cs_of};
ghost use Rattle.iden_files.specs.ReadWtns.{wtns_of};
ghost use Rattle.iden_files.specs.Spelling.{header_bytes, section_bytes, section_head};
ghost use Rattle.iden_files.specs.Spelling.{field_bytes, sizes_bytes, term_bytes, form_bytes};
ghost use Rattle.iden_files.specs.Spelling.{constraint_bytes, r1cs_bytes, wtns_bytes};

use crate::limits::{MAX_CONSTRAINTS, MAX_TERMS, MAX_WIRES};
use crate::r1cs::R1cs;
use binary_format::{put_u32, put_u64};
use gold_field::{Constraint, Gold, Lc, P, Term};
use std::alloc::{AllocError, Global};

/// The one spelling of the file.
pub fn write_r1cs(alloc: Global, file: &R1cs) -> Result<Vec<u8>, AllocError>
    requires { InLimits file.now }
    ensures bytes { IfOk result (λ v. v.items ≡ r1cs_bytes file.now) }
    ensures read_back { IfOk result (λ v. r1cs_of v.items ≡ Ok file.now) }
{
    let mut out = Vec::new(alloc);
    put_header(&mut out, b"r1cs", 1, 3)?;
    put_sizes(&mut out, file)?;
    put_constraint_section(&mut out, file.constraints.as_slice())?;
    put_label_section(&mut out, file.labels.as_slice())?;
    Ok(out)
}

/// The one spelling of the values.
pub fn write_wtns(alloc: Global, values: &[Gold]) -> Result<Vec<u8>, AllocError>
    requires { length values.now ≤ most_wires }
    ensures bytes { IfOk result (λ v. v.items ≡ wtns_bytes values.now) }
    ensures read_back { IfOk result (λ v. wtns_of v.items ≡ Ok values.now) }
{
    let mut out = Vec::with_capacity(alloc, 52 + 8 * values.len())?;
    put_header(&mut out, b"wtns", 2, 2)?;
    put_value_count(&mut out, values.len() as u32)?;
    put_value_section(&mut out, values)?;
    Ok(out)
}

fn put_header(
    out: &mut Vec<u8>,
    magic: &[u8],
    version: u32,
    sections: u32,
) -> Result<(), AllocError>
    ensures { OnOk result
        (out.new.items ≡ out.old.items ++ header_bytes magic.now version sections) }
{
    out.extend_from_slice(magic)?;
    put_u32(out, version)?;
    put_u32(out, sections)
}

fn put_section_head(out: &mut Vec<u8>, kind: u32, size: u64) -> Result<(), AllocError>
    ensures { OnOk result (out.new.items ≡ out.old.items ++ section_head kind size) }
{
    put_u32(out, kind)?;
    put_u64(out, size)
}

fn put_field(out: &mut Vec<u8>) -> Result<(), AllocError>
    ensures { OnOk result (out.new.items ≡ out.old.items ++ field_bytes) }
{
    put_u32(out, 8)?;
    put_u64(out, P)
}

fn put_sizes(out: &mut Vec<u8>, file: &R1cs) -> Result<(), AllocError>
    requires { InLimits file.now }
    ensures bytes { OnOk result
        (out.new.items ≡ out.old.items ++ section_bytes 1 (sizes_bytes file.now)) }
    ensures fits { OnOk result (file.now.label_count < 2 ^ 64) }
{
    put_section_head(out, 1, 40)?;
    put_field(out)?;
    put_u32(out, file.wires)?;
    put_u32(out, file.outputs)?;
    put_u32(out, file.public_inputs)?;
    put_u32(out, file.private_inputs)?;
    put_u64(out, file.label_count)?;
    put_u32(out, file.constraints.len() as u32)
}

fn put_value_count(out: &mut Vec<u8>, count: u32) -> Result<(), AllocError>
    ensures { OnOk result
        (out.new.items ≡ out.old.items ++ section_bytes 1 (field_bytes ++ to_le_bytes w32 count)) }
{
    put_section_head(out, 1, 16)?;
    put_field(out)?;
    put_u32(out, count)
}

fn put_constraint_section(out: &mut Vec<u8>, constraints: &[Constraint]) -> Result<(), AllocError>
    requires few { length constraints.now ≤ most_constraints }
    requires terms { sum_by term_count constraints.now ≤ most_terms }
    ensures bytes { OnOk result
        (out.new.items ≡ out.old.items
        ++ section_bytes 2 (flat_map constraint_bytes constraints.now)) }
    ensures forms { OnOk result (All HasForms constraints.now) }
{
    let counts = 3 * constraints.len() as u64;
    let size = 4 * counts + 12 * term_total(constraints);
    put_section_head(out, 2, size)?;
    put_constraints(out, constraints)
}

/// How many terms the constraints have.
fn term_total(constraints: &[Constraint]) -> u64
    requires { sum_by term_count constraints.now ≤ most_terms }
    ensures { result ≡ sum_by term_count constraints.now }
{
    let mut total = 0u64;
    for k in constraints {
        total += (k.a.as_slice().len() + (k.b.as_slice().len() + k.c.as_slice().len())) as u64;
    }
    total
}

fn put_constraints(out: &mut Vec<u8>, constraints: &[Constraint]) -> Result<(), AllocError>
    requires { sum_by term_count constraints.now ≤ most_terms }
    ensures bytes { OnOk result
        (out.new.items ≡ out.old.items ++ flat_map constraint_bytes constraints.now) }
    ensures forms { OnOk result (All HasForms constraints.now) }
{
    for k in constraints {
        put_constraint(out, k)?;
    }
    Ok(())
}

fn put_constraint(out: &mut Vec<u8>, k: &Constraint) -> Result<(), AllocError>
    requires { term_count k.now < 2 ^ 32 }
    ensures bytes { OnOk result (out.new.items ≡ out.old.items ++ constraint_bytes k.now) }
    ensures forms { OnOk result (HasForms k.now) }
{
    put_form(out, &k.a)?;
    put_form(out, &k.b)?;
    put_form(out, &k.c)
}

fn put_form(out: &mut Vec<u8>, form: &Lc) -> Result<(), AllocError>
    requires { length form.now < 2 ^ 32 }
    ensures bytes { OnOk result (out.new.items ≡ out.old.items ++ form_bytes form.now) }
    ensures form { OnOk result (IsForm form.now) }
{
    let terms = form.as_slice();
    put_u32(out, terms.len() as u32)?;
    put_terms(out, terms)
}

fn put_terms(out: &mut Vec<u8>, terms: &[Term]) -> Result<(), AllocError>
    ensures bytes { OnOk result (out.new.items ≡ out.old.items ++ flat_map term_bytes terms.now) }
    ensures below { OnOk result (All (λ t. t.coef < P) terms.now) }
{
    for t in terms {
        put_term(out, *t)?;
    }
    Ok(())
}

fn put_term(out: &mut Vec<u8>, t: Term) -> Result<(), AllocError>
    ensures bytes { OnOk result (out.new.items ≡ out.old.items ++ term_bytes t) }
    ensures below { OnOk result (t.coef < P) }
{
    put_u32(out, t.signal)?;
    put_u64(out, t.coef.get())
}

fn put_label_section(out: &mut Vec<u8>, labels: &[u64]) -> Result<(), AllocError>
    requires { length labels.now ≤ most_wires }
    ensures bytes { OnOk result
        (out.new.items ≡ out.old.items ++ section_bytes 3 (flat_map (to_le_bytes w64) labels.now)) }
    ensures fits { All (λ n. n < 2 ^ 64) labels.now }
{
    put_section_head(out, 3, 8 * labels.len() as u64)?;
    put_labels(out, labels)
}

fn put_labels(out: &mut Vec<u8>, labels: &[u64]) -> Result<(), AllocError>
    ensures { OnOk result (out.new.items ≡ out.old.items ++ flat_map (to_le_bytes w64) labels.now) }
{
    for label in labels {
        put_u64(out, *label)?;
    }
    Ok(())
}

fn put_value_section(out: &mut Vec<u8>, values: &[Gold]) -> Result<(), AllocError>
    requires { length values.now ≤ most_wires }
    ensures bytes { OnOk result
        (out.new.items ≡ out.old.items ++ section_bytes 2 (flat_map (to_le_bytes w64) values.now)) }
    ensures below { OnOk result (All (λ v. v < P) values.now) }
{
    put_section_head(out, 2, 8 * values.len() as u64)?;
    put_values(out, values)
}

fn put_values(out: &mut Vec<u8>, values: &[Gold]) -> Result<(), AllocError>
    ensures bytes { OnOk result
        (out.new.items ≡ out.old.items ++ flat_map (to_le_bytes w64) values.now) }
    ensures below { OnOk result (All (λ v. v < P) values.now) }
{
    for v in values {
        put_u64(out, v.get())?;
    }
    Ok(())
}
