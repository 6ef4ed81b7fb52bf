//! How many dimensions expressions have, and whether a function returns an array.
ghost use Rattle.std.specs.Prelude.{◌≡◌, ◌==◌, ◌||◌, [], ◌∷◌, false, not, nat_le, map, slice_get};
ghost use Rattle.std.specs.Prelude.{IfOk, OnOk};
ghost use Rattle.std.specs.List.{list_any, list_all};
ghost use Rattle.cir_ast.specs.Tree.{bare, bare_place, as_accessors};
ghost use Rattle.cir_ast.specs.Program.{bare_program};
ghost use Rattle.cir_meaning.specs.Evaluate.{is_literal};
ghost use Rattle.cir_meaning.specs.Limits.{standing};
ghost use Rattle.cir_meaning.specs.Reached as R;
ghost use Rattle.cir_texts.specs.Shown.{called_of};
ghost use Rattle.cir_rules.specs.Shown.{made_of};
ghost use Rattle.cir_rules.specs.Queue.{with_new, visited, told};
ghost use Rattle.cir_rules.specs.Ranked.{ranked_of, ranked_made, ranks_in, followed};

use crate::made::Made;
use cir_ast::program::{Accessor, Expr, Meant, Place, Program};
use cir_texts::{Called, Texts, declaration_of, has_literal, text_of};
use std::alloc::{AllocError, Global};

/// Ranks above this aren't followed through a call with an array literal.
const MOST_RANK: u64 = 300;

/// A function with the rank of each argument.
#[derive(Drop)]
pub struct RankedCall {
    pub function: u32,
    pub ranks: Vec<u64>,
}

impl RankedCall {
    fn is_same(&self, other: &RankedCall) -> bool
        ensures { result ≡ R.same_call (ranked_of self.now) (ranked_of other.now) }
    {
        self.function == other.function && self.ranks.as_slice() == other.ranks.as_slice()
    }

    fn copy(&self, alloc: Global) -> Result<RankedCall, AllocError>
        ensures { IfOk result (λ c. ranked_of c ≡ ranked_of self.now) }
    {
        let ranks = Vec::from_slice(alloc, self.ranks.as_slice())?;
        Ok(RankedCall {
            function: self.function,
            ranks,
        })
    }

    /// With the rank of each argument.
    fn of(alloc: Global, made: &Made) -> Result<RankedCall, AllocError>
        ensures { IfOk result (λ c. ranked_of c ≡ ranked_made (made_of made.now)) }
    {
        let mut ranks = Vec::new(alloc);
        for dims in made.shapes.as_slice() {
            ranks.push(dims.len() as u64)?;
        }
        Ok(RankedCall {
            function: made.function,
            ranks,
        })
    }
}

/// Whether a function that is reached returns an array.
pub fn has_run_array(alloc: Global, program: &Program, made: &[Made]) -> Result<bool, AllocError>
    ensures { IfOk result (λ found. found
        ≡ R.has_run_array (bare_program program.now) (map made_of made.now)) }
{
    let mut known = ranked(alloc, made)?;
    let mut found = false;
    let mut at = 0;
    'visits: while at < known.len() {
        let returns = visit(alloc, program, at, &mut known)?;
        found = found || returns;
        at += 1;
    }
    Ok(found)
}

fn ranked(alloc: Global, made: &[Made]) -> Result<Vec<RankedCall>, AllocError>
    ensures { IfOk result (λ known. map ranked_of known.items
        ≡ R.new_ones R.same_call [] (map ranked_made (map made_of made.now))) }
{
    let mut known = Vec::new(alloc);
    for call in made {
        let call = RankedCall::of(alloc, call)?;
        add_new(&mut known, call)?;
    }
    Ok(known)
}

fn add_new(known: &mut Vec<RankedCall>, call: RankedCall) -> Result<(), AllocError>
    ensures { OnOk result (map ranked_of known.new.items
        ≡ with_new R.same_call (map ranked_of known.old.items) (ranked_of call ∷ [])) }
{
    for other in known.as_slice() {
        if call.is_same(other) {
            return Ok(());
        }
    }
    known.push(call)?;
    Ok(())
}

/// Adds the calls in the body of a known function, and tells whether it returns an array.
fn visit(
    alloc: Global,
    program: &Program,
    at: usize,
    known: &mut Vec<RankedCall>,
) -> Result<bool, AllocError>
    ensures told { IfOk result (λ b. b ≡ told (R.returns_array (bare_program program.now))
        (slice_get (map ranked_of known.old.items) at)) }
    ensures more { OnOk result (map ranked_of known.new.items
        ≡ visited R.same_call (R.ranked_calls (bare_program program.now)) at
        (map ranked_of known.old.items)) }
{
    let Some(call) = known.get(at) else {
        return Ok(false);
    };
    let call = call.copy(alloc)?;
    let texts = text_of(alloc, program, call.function)?;
    let calls = texts.calls(alloc)?;
    let ranks = call.ranks.as_slice();
    add_ranked(alloc, &texts, ranks, calls.as_slice(), known)?;
    Ok(returns_array(&texts, ranks))
}

/// Adds the calls in the body of a function that is called with arguments of these ranks.
fn add_ranked(
    alloc: Global,
    texts: &Texts,
    ranks: &[u64],
    calls: &[Called],
    known: &mut Vec<RankedCall>,
) -> Result<(), AllocError>
    ensures { OnOk result (map ranked_of known.new.items
        ≡ with_new R.same_call (map ranked_of known.old.items)
        (followed (ranks_in ranks.now texts.now) (map called_of calls.now))) }
{
    for inner in calls {
        let ranks = argument_ranks(alloc, texts, ranks, inner.arguments)?;
        if is_followed(inner.arguments, ranks.as_slice()) {
            let function = inner.function;
            add_new(known, RankedCall { function, ranks })?;
        }
    }
    Ok(())
}

/// Whether a call with these arguments, which have these ranks, is followed.
fn is_followed(arguments: &[Expr], ranks: &[u64]) -> bool
    ensures { result ≡ (not (list_any is_literal (map bare arguments.now))
        || list_all (λ r. nat_le r 300) ranks.now) }
{
    !has_literal(arguments) || are_small(ranks)
}

fn are_small(ranks: &[u64]) -> bool
    ensures { result ≡ list_all (λ r. nat_le r 300) ranks.now }
{
    for rank in ranks {
        if *rank > MOST_RANK {
            return false;
        }
    }
    true
}

/// The ranks of arguments; that of a literal may be too large for its type.
fn argument_ranks(
    alloc: Global,
    texts: &Texts,
    ranks: &[u64],
    arguments: &[Expr],
) -> Result<Vec<u64>, AllocError>
    ensures whole { list_any is_literal (map bare arguments.now) ≡ false
        → IfOk result (λ found. found.items
        ≡ map (R.rank_of (ranks_in ranks.now texts.now)) (map bare arguments.now)) }
    ensures at_most { IfOk result (λ found. found.items
        ≡ map (λ e. standing (R.rank_of (ranks_in ranks.now texts.now) e))
        (map bare arguments.now)) }
{
    let mut found = Vec::new(alloc);
    for e in arguments {
        found.push(rank_of(texts, ranks, e))?;
    }
    Ok(found)
}

fn returns_array(texts: &Texts, ranks: &[u64]) -> bool
    ensures { result ≡ list_any (λ e. not (R.rank_of (ranks_in ranks.now texts.now) e == 0))
        (map (λ e. bare e.now) texts.now.returned.items) }
{
    for e in texts.returned.as_slice() {
        if rank_of(texts, ranks, e) != 0 {
            return true;
        }
    }
    false
}

/// A call counts as a number, since its function is looked at by itself.
fn rank_of(texts: &Texts, ranks: &[u64], e: &Expr) -> u64
    ensures whole { is_literal (bare e.now) ≡ false
        → result ≡ R.rank_of (ranks_in ranks.now texts.now) (bare e.now) }
    ensures at_most { result ≡ standing (R.rank_of (ranks_in ranks.now texts.now) (bare e.now)) }
{
    match e {
        Expr::Parentheses(inner) => rank_of(texts, ranks, inner),
        Expr::Place(place) => place_rank(texts, ranks, place),
        Expr::Array(elements) => match elements.as_slice() {
            [first, ..] => rank_of(texts, ranks, first).saturating_add(1),
            [] => 0,
        },
        Expr::Number(_)
        | Expr::Call(_, _, _, _)
        | Expr::Anonymous(_)
        | Expr::Unary(_, _)
        | Expr::Binary(_, _, _)
        | Expr::Choice(_, _, _) => 0,
    }
}

fn place_rank(texts: &Texts, ranks: &[u64], place: &Place) -> u64
    ensures { result ≡ R.rank_of (ranks_in ranks.now texts.now) (bare_place place.now) }
{
    match place.meant {
        Meant::Variable(n) => variable_rank(texts, ranks, n).saturating_sub(indices_count(
            place.accessors.as_slice(),
        )),
        Meant::Other
        | Meant::Signal(_, _)
        | Meant::Component(_)
        | Meant::Template(_)
        | Meant::Function(_) => 0,
    }
}

fn variable_rank(texts: &Texts, ranks: &[u64], n: u32) -> u64
    ensures { result ≡ ranks_in ranks.now texts.now n }
{
    match ranks.get(n as usize) {
        Some(rank) => *rank,
        None => declaration_of(n, texts.variables.as_slice()).len() as u64,
    }
}

pub fn indices_count(accessors: &[Accessor]) -> u64
    ensures { result ≡ R.indices_count (as_accessors accessors.now) }
{
    let mut count = 0u64;
    for accessor in accessors {
        if let Accessor::Index(_) = accessor {
            count = count.saturating_add(1);
        }
    }
    count
}
