//! The linear system.

ghost use Rattle.std.specs.Prelude.{◌≡◌, ◌<◌, ◌≤◌, ◌+◌, ◌*◌, ◌^◌, ◌∷◌, [], All, IfOk, length};
ghost use Rattle.gold_field.specs.Form.{ConstraintBelow, SignalsBelow};
ghost use Rattle.iden_files.specs.File.{InLimits};
ghost use Rattle.lig_layout.specs.Sizes.{params_of};
ghost use Rattle.lig_layout.specs.Sides.{forms};
ghost use Rattle.lig_layout.specs.System.{left_sides, equation_count, combined, combined_at};
ghost use Rattle.lig_layout.specs.System.{coefficient, differences, wire_forms};
ghost use Rattle.lig_layout.specs.Adding.{Adds, IsReduced};

use crate::params::Params;
use crate::side::{Side, form_of};
use gold_field::{Constraint, Gold, Term};
use iden_files::R1cs;
use std::alloc::{AllocError, Global};

/// The row vector `r` times the linear system, laid out as the rows of the matrix are: `rows` times
/// `l` values, row by row, with 0 at padded places. It takes time linear in the file's terms and in
/// the size of the matrix.
pub fn combine(
    alloc: Global,
    file: &R1cs,
    params: &Params,
    r: &[Gold],
) -> Result<Vec<Gold>, AllocError>
    requires limits { InLimits file.now }
    requires params { params.now ≡ params_of file.now }
    requires numbers { length r.now ≡ equation_count file.now }
    ensures { IfOk result (λ v. v.items
        ≡ combined (params.now.rows * params.now.l) r.now (left_sides params.now file.now)) }
{
    let size = params.rows as usize * params.l as usize;
    let mut row = vec![in alloc; Gold::ZERO; size]?;
    add_system(&mut row, file, params, r);
    Ok(row)
}

// Adds the row vector `r` times the linear system.
fn add_system(row: &mut [Gold], file: &R1cs, params: &Params, r: &[Gold])
    requires limits { InLimits file.now }
    requires params { params.now ≡ params_of file.now }
    requires numbers { length r.now ≡ equation_count file.now }
    requires size { length row.old ≡ params.now.rows * params.now.l }
    requires reduced { IsReduced row.old }
    ensures { Adds (λ place. combined_at place r.now (left_sides params.now file.now)) row.old
        row.new }
{
    let constraints = file.constraints();
    let (x, others) = r.split_at(constraints.len());
    let (y, others) = others.split_at(constraints.len());
    let (z, wires) = others.split_at(constraints.len());
    let start = params.wire_rows as usize * params.l as usize;
    let side = params.constraint_rows as usize * params.l as usize;
    add_side(row, Side::A, constraints, start, x);
    add_side(row, Side::B, constraints, start + side, y);
    add_side(row, Side::C, constraints, start + 2 * side, z);
    add_wires(row, wires);
}

// Adds the equations of one side, each times its number of `r`: the side's form less the value at
// its place.
fn add_side(row: &mut [Gold], side: Side, constraints: &[Constraint], start: usize, r: &[Gold])
    requires numbers { length r.now ≡ length constraints.now }
    requires below { All (ConstraintBelow (length row.old)) constraints.now }
    requires within { start + length constraints.now ≤ length row.old }
    requires small { length row.old < 2 ^ 32 }
    requires reduced { IsReduced row.old }
    ensures { Adds
        (λ place. combined_at place r.now (differences start (forms side constraints.now))) row.old
        row.new }
{
    for (k, constraint) in constraints.iter().enumerate() {
        let number = r[k];
        add_form(row, form_of(side, constraint), number);
        let unknown = Term {
            signal: (start + k) as u32,
            coef: Gold::ONE.neg(),
        };
        add_term(row, &unknown, number);
    }
}

// Adds the first wires, each times its number of `r`.
fn add_wires(row: &mut [Gold], r: &[Gold])
    requires within { length r.now ≤ length row.old }
    requires small { length row.old < 2 ^ 32 }
    requires reduced { IsReduced row.old }
    ensures { Adds (λ place. combined_at place r.now (wire_forms 0 (length r.now))) row.old
        row.new }
{
    for (wire, number) in r.iter().enumerate() {
        let known = Term {
            signal: wire as u32,
            coef: Gold::ONE,
        };
        add_term(row, &known, *number);
    }
}

// Adds a form's terms times the factor, each at its place.
fn add_form(row: &mut [Gold], form: &[Term], factor: Gold)
    requires within { SignalsBelow (length row.old) form.now }
    requires reduced { IsReduced row.old }
    ensures { Adds (λ place. factor * coefficient place form.now) row.old row.new }
{
    for term in form {
        add_term(row, term, factor);
    }
}

// Adds a term times the factor at its place.
fn add_term(row: &mut [Gold], term: &Term, factor: Gold)
    requires within { term.now.signal < length row.old }
    requires reduced { IsReduced row.old }
    ensures { Adds (λ place. factor * coefficient place (term.now ∷ [])) row.old row.new }
{
    let place = term.signal as usize;
    row[place] = row[place].add(factor.mul(term.coef));
}
