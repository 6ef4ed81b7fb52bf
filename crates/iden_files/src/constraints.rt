ghost use Rattle.std.specs.Prelude.{◌≡◌, ◌≤◌, ◌+◌, ◌<◌, ◌^◌, ◌-◌, length, IfOk, All, sum_by};
ghost use Rattle.std.specs.Prelude.{vec_len};
ghost use Rattle.binary_format.specs.Reading.{Gives, Reads, repeated};
ghost use Rattle.gold_field.specs.Form.{ConstraintBelow};
ghost use Rattle.iden_files.specs.Limits.{most_terms};
ghost use Rattle.iden_files.specs.Refusal.{refused, TakesNoMemory};
ghost use Rattle.iden_files.specs.File.{term_count};
ghost use Rattle.iden_files.specs.Meaning.{IsTermOver, IsOver, meaning};
ghost use Rattle.iden_files.specs.ReadR1cs.{term_at, terms_at, constraint_at, constraints_at};
ghost use Rattle.iden_files.specs.ReadR1cs.{meant, constraints_of};
ghost use Rattle.iden_files.specs.Views.{section, written};

use crate::fault::{FileCause, FileFault};
use crate::fields::next_u32;
use crate::forms::form_of;
use crate::limits::MAX_TERMS;
use crate::sections::FoundSection;
use crate::sizes::Sizes;
use crate::values::next_value;
use binary_format::Reader;
use gold_field::{Constraint, Term};
use std::alloc::{AllocError, Global};

/// A constraint as it is written.
#[derive(Drop)]
pub struct Written {
    pub a: Vec<Term>,
    pub b: Vec<Term>,
    pub c: Vec<Term>,
}

/// The constraints of section 2.
#[tactic(auto, unfolding(crate::specs::ReadR1cs::constraints_of))]
pub fn constraints_of(
    alloc: Global,
    sizes: &Sizes,
    found: FoundSection<'_>,
) -> Result<Vec<Constraint>, FileFault>
    ensures read { Gives refused (λ v. v.items) result
        (constraints_of sizes.now (section found.entry)) }
    ensures wired { IfOk result (λ v. All (ConstraintBelow sizes.now.wires) v.items) }
    ensures count { IfOk result (λ v. length v.items ≡ sizes.now.constraints) }
    ensures terms { IfOk result (λ v. sum_by term_count v.items ≤ most_terms) }
{
    let mut fields = found.body;
    let all = constraints(alloc, &mut fields, sizes.wires, sizes.constraints)?;
    if !fields.is_empty() {
        return Err(FileFault::At {
            cause: FileCause::BadCount,
            offset: fields.offset(),
        });
    }
    Ok(all)
}

fn constraints(
    alloc: Global,
    fields: &mut Reader<'_>,
    wires: u32,
    count: u32,
) -> Result<Vec<Constraint>, FileFault>
    ensures read { Reads refused (λ v. v.items) fields.new.rest.now result
        (meant wires (constraints_at wires fields.old.end most_terms count fields.old.rest.now)) }
    ensures end { fields.new.end ≡ fields.old.end }
    ensures wired { IfOk result (λ v. All (ConstraintBelow wires) v.items) }
    ensures count { IfOk result (λ v. length v.items ≡ count) }
    ensures terms { IfOk result (λ v. sum_by term_count v.items ≤ most_terms) }
{
    let mut all = Vec::new(alloc);
    let mut room = MAX_TERMS;
    for _ in 0..count {
        let w = next_written(alloc, fields, wires, room)?;
        room -= (w.a.len() + w.b.len() + w.c.len()) as u32;
        let k = constraint_of(alloc, wires, w)?;
        all.push(k)?;
    }
    Ok(all)
}

fn constraint_of(alloc: Global, wires: u32, w: Written) -> Result<Constraint, AllocError>
    requires { IsOver wires (written w) }
    ensures { IfOk result (λ k. k ≡ meaning wires (written w)) }
{
    let Written { a, b, c } = w;
    let a = form_of(alloc, wires, a)?;
    let b = form_of(alloc, wires, b)?;
    let c = form_of(alloc, wires, c)?;
    Ok(Constraint { a, b, c })
}

#[tactic(auto, unfolding(crate::specs::ReadR1cs::constraint_at))]
fn next_written(
    alloc: Global,
    fields: &mut Reader<'_>,
    wires: u32,
    room: u32,
) -> Result<Written, FileFault>
    ensures read { Reads refused written fields.new.rest.now result
        (constraint_at wires fields.old.end room fields.old.rest.now) }
    ensures end { fields.new.end ≡ fields.old.end }
    ensures over { IfOk result (λ w. IsOver wires (written w)) }
    ensures few { IfOk result (λ w. vec_len w.a + vec_len w.b + vec_len w.c ≤ room) }
{
    let a = terms(alloc, fields, wires, room)?;
    let room = room - a.len() as u32;
    let b = terms(alloc, fields, wires, room)?;
    let room = room - b.len() as u32;
    let c = terms(alloc, fields, wires, room)?;
    Ok(Written { a, b, c })
}

#[tactic(auto, unfolding(crate::specs::ReadR1cs::terms_at))]
fn terms(
    alloc: Global,
    fields: &mut Reader<'_>,
    wires: u32,
    room: u32,
) -> Result<Vec<Term>, FileFault>
    ensures read { Reads refused (λ v. v.items) fields.new.rest.now result
        (terms_at wires fields.old.end room fields.old.rest.now) }
    ensures end { fields.new.end ≡ fields.old.end }
    ensures over { IfOk result (λ v. All (IsTermOver wires) v.items) }
    ensures few { IfOk result (λ v. vec_len v ≤ room) }
    ensures len { IfOk result (λ v. vec_len v ≡ length v.items) }
{
    let place = fields.offset();
    let count = next_u32(fields, FileCause::BadCount)?;
    if count > room {
        return Err(FileFault::At {
            cause: FileCause::Limit,
            offset: place,
        });
    }
    repeated_terms(alloc, fields, wires, count)
}

fn repeated_terms(
    alloc: Global,
    fields: &mut Reader<'_>,
    wires: u32,
    count: u32,
) -> Result<Vec<Term>, FileFault>
    ensures read { Reads refused (λ v. v.items) fields.new.rest.now result
        (repeated (term_at wires fields.old.end) count fields.old.rest.now) }
    ensures end { fields.new.end ≡ fields.old.end }
    ensures over { IfOk result (λ v. All (IsTermOver wires) v.items) }
    ensures count { IfOk result (λ v. vec_len v ≡ count) }
    ensures len { IfOk result (λ v. vec_len v ≡ length v.items) }
{
    let mut terms = Vec::with_capacity(alloc, (count as usize).min(fields.rest.len() / 12))?;
    for _ in 0..count {
        let t = term(fields, wires)?;
        terms.push(t)?;
    }
    Ok(terms)
}

#[tactic(auto, unfolding(crate::specs::ReadR1cs::term_at))]
fn term(fields: &mut Reader<'_>, wires: u32) -> Result<Term, FileFault>
    ensures read { Reads refused (λ t. t) fields.new.rest.now result
        (term_at wires fields.old.end fields.old.rest.now) }
    ensures end { fields.new.end ≡ fields.old.end }
    ensures over { IfOk result (IsTermOver wires) }
    ensures memory { TakesNoMemory result }
{
    let place = fields.offset();
    let signal = next_u32(fields, FileCause::BadCount)?;
    if signal >= wires {
        return Err(FileFault::At {
            cause: FileCause::WireOutOfRange,
            offset: place,
        });
    }
    let coef = next_value(fields)?;
    Ok(Term { signal, coef })
}
