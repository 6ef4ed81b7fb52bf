ghost use Rattle.std.specs.Prelude.{◌≡◌, ◌<◌, ◌≤◌, length, IfOk, OnOk, All, ◌++◌};
ghost use Rattle.std.specs.Bool.{OnTrue};
ghost use Rattle.std.specs.List.Sorted.{IsNonDecreasingBy};
ghost use Rattle.gold_field.specs.Rises.{RisesFrom};
ghost use Rattle.iden_files.specs.Meaning.{IsTermOver, form_of};
ghost use Rattle.iden_files.specs.Merging.{closed, merged};

use gold_field::{Gold, Lc, Term};
use std::alloc::{AllocError, Global};

/// The linear combination that terms mean in any order: repeated wires add up.
pub fn form_of(alloc: Global, wires: u32, terms: Vec<Term>) -> Result<Lc, AllocError>
    requires { All (IsTermOver wires) terms.items }
    ensures { IfOk result (λ f. f ≡ form_of wires terms.items) }
{
    if is_form(&terms) {
        return Ok(Lc::of(terms));
    }
    let mut sorted = terms;
    sorted.sort_unstable_by_key(|t| t.signal);
    Ok(Lc::of(merged(alloc, &sorted)?))
}

fn is_form(terms: &[Term]) -> bool
    ensures { OnTrue result (RisesFrom 0 terms.now) }
{
    let mut low = 0u64;
    for t in terms {
        let signal = u64::from(t.signal);
        if signal < low || t.coef == Gold::ZERO {
            return false;
        }
        low = signal + 1;
    }
    true
}

/// The terms with equal neighbours added up, where the signals never fall.
fn merged(alloc: Global, sorted: &[Term]) -> Result<Vec<Term>, AllocError>
    ensures { IfOk result (λ v. v.items ≡ merged (record { signal = 0; coef = 0 }) sorted.now) }
{
    let mut terms = Vec::with_capacity(alloc, sorted.len())?;
    let mut last = Term {
        signal: 0,
        coef: Gold::ZERO,
    };
    for t in sorted {
        if t.signal == last.signal {
            last.coef = last.coef.add(t.coef);
        } else {
            close(&mut terms, last)?;
            last = *t;
        }
    }
    close(&mut terms, last)?;
    Ok(terms)
}

fn close(terms: &mut Vec<Term>, last: Term) -> Result<(), AllocError>
    ensures { OnOk result (terms.new.items ≡ terms.old.items ++ closed last) }
{
    if last.coef != Gold::ZERO {
        terms.push(last)?;
    }
    Ok(())
}
