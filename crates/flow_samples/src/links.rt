ghost use Rattle.std.specs.Prelude.{◌≡◌, ◌+◌, ◌<◌, [], ◌∷◌, IfOk, IfSome, length};
ghost use Rattle.flow_samples.specs.Links.{adds, spins, AreLinks, IsLink, IsSample};

use gold_field::{Gold, Op2};
use items::Items;
use numbers::Numbers;
use std::alloc::{AllocError, Global};
use wit_code::{Op, Proc, Step, is_well_formed};
use wit_flow::{Flow, cut};

/// A step of 20 instructions: it reads the cell `from`, adds the number 16 times, stops with
/// `AssertFails` where the sum is 0, and else writes it.
#[derive(Clone, Copy)]
pub struct Link {
    pub from: u32,
    pub number: Gold,
}

fn code(alloc: Global, number: Gold) -> Result<Proc, AllocError>
    ensures { IfOk result (λ code. code ≡ adds number) }
{
    let add = Op::Bin(Op2::Add, 0, 0, 1);
    let body = [
        Op::Read(0, 0),
        Op::Const(1, number),
        add,
        add,
        add,
        add,
        add,
        add,
        add,
        add,
        add,
        add,
        add,
        add,
        add,
        add,
        add,
        add,
        Op::Assert(0),
        Op::Write(0),
    ];
    Ok(Proc {
        params: 0,
        slots: 2,
        body: Items::from_slice(alloc, &body)?,
    })
}

fn spin_code(alloc: Global) -> Result<Proc, AllocError>
    ensures { IfOk result (λ code. code ≡ spins) }
{
    Ok(Proc {
        params: 0,
        slots: 1,
        body: Items::from_slice(alloc, &[Op::Turn, Op::Jump(0)])?,
    })
}

// The step at a place; None where it would read a cell that isn't written before it.
fn step(alloc: Global, code: Proc, from: u32, at: u32) -> Result<Option<Step>, AllocError>
    requires near { at < 4294967295 }
    requires sample { IsSample code }
    ensures { IfOk result (λ made. IfSome made (λ s. IsLink s at)) }
{
    if from > at || !is_well_formed(&[], 1, &code) {
        return Ok(None);
    }
    Ok(Some(Step {
        code,
        reads: Numbers::from_slice(alloc, &[from])?,
        writes: Numbers::from_slice(alloc, &[at + 1])?,
    }))
}

fn steps_of(alloc: Global, links: &[Link]) -> Result<Option<Vec<Step>>, AllocError>
    requires { length links.now < 4294967295 }
    ensures each { IfOk result (λ made. IfSome made (λ v. length v.items ≡ length links.now)) }
    ensures links { IfOk result (λ made. IfSome made (λ v. AreLinks v.items)) }
{
    let mut steps = Vec::with_capacity(alloc, links.len())?;
    for (at, link) in links.iter().enumerate() {
        let code = code(alloc, link.number)?;
        match step(alloc, code, link.from, at as u32)? {
            Some(step) => steps.push(step)?,
            None => return Ok(None),
        }
    }
    Ok(Some(steps))
}

fn flow_of(alloc: Global, steps: Vec<Step>) -> Result<Flow, AllocError>
    requires few { length steps.items < 4294967295 }
    requires links { AreLinks steps.items }
    ensures starts { IfOk result (λ f. f.starts ≡ 0 ∷ []) }
    ensures cells { IfOk result (λ f. f.graph.cells ≡ length steps.items + 1) }
{
    let mut starts = Vec::new(alloc);
    starts.push(0u32)?;
    let cells = steps.len() as u32 + 1;
    cut(alloc, steps, Vec::new(alloc), cells, starts)
}

/// A flow whose cell 0 has its value from the start, and whose step k is the link k and writes cell
/// k + 1. None where a link reads a cell above its own place, and for 2^32 - 1 links or more.
pub fn linked(alloc: Global, links: &[Link]) -> Result<Option<Flow>, AllocError>
    ensures starts { IfOk result (λ made. IfSome made (λ f. f.starts ≡ 0 ∷ [])) }
    ensures cells { IfOk result (λ made. IfSome made
        (λ f. f.graph.cells ≡ length links.now + 1)) }
{
    if links.len() >= 4294967295 {
        return Ok(None);
    }
    match steps_of(alloc, links)? {
        Some(steps) => Ok(Some(flow_of(alloc, steps)?)),
        None => Ok(None),
    }
}

/// The same with one more step behind, which reads cell 0 and turns until its fuel is spent.
pub fn with_spin(alloc: Global, links: &[Link]) -> Result<Option<Flow>, AllocError>
    ensures { IfOk result (λ made. IfSome made (λ f. f.starts ≡ 0 ∷ [])) }
{
    if links.len() >= 4294967294 {
        return Ok(None);
    }
    let Some(mut steps) = steps_of(alloc, links)? else {
        return Ok(None);
    };
    let code = spin_code(alloc)?;
    match step(alloc, code, 0, links.len() as u32)? {
        Some(step) => steps.push(step)?,
        None => return Ok(None),
    }
    Ok(Some(flow_of(alloc, steps)?))
}

/// So many steps that read cell 0, each with this number. Each is a strand of its own.
pub fn wide(alloc: Global, steps: u32, number: Gold) -> Result<Option<Flow>, AllocError>
    ensures starts { IfOk result (λ made. IfSome made (λ f. f.starts ≡ 0 ∷ [])) }
    ensures cells { IfOk result (λ made. IfSome made (λ f. f.graph.cells ≡ steps + 1)) }
{
    let mut links = Vec::with_capacity(alloc, steps as usize)?;
    for made in 0..steps {
        links.push(Link { from: 0, number })?;
    }
    linked(alloc, links.as_slice())
}

/// So many steps that each read what the step before wrote, and the first of them cell 0, each with
/// this number. They are strands of 256 steps.
pub fn chain(alloc: Global, steps: u32, number: Gold) -> Result<Option<Flow>, AllocError>
    ensures starts { IfOk result (λ made. IfSome made (λ f. f.starts ≡ 0 ∷ [])) }
    ensures cells { IfOk result (λ made. IfSome made (λ f. f.graph.cells ≡ steps + 1)) }
{
    let mut links = Vec::with_capacity(alloc, steps as usize)?;
    for from in 0..steps {
        links.push(Link { from, number })?;
    }
    linked(alloc, links.as_slice())
}

/// So many steps, of which the step k reads cell k / `width`, each with this number: each step has
/// `width` others behind it, but for the last ones, and most are strands of their own.
pub fn tree(alloc: Global, steps: u32, width: u32, number: Gold) -> Result<Option<Flow>, AllocError>
    requires { 0 < width }
    ensures starts { IfOk result (λ made. IfSome made (λ f. f.starts ≡ 0 ∷ [])) }
    ensures cells { IfOk result (λ made. IfSome made (λ f. f.graph.cells ≡ steps + 1)) }
{
    let mut links = Vec::with_capacity(alloc, steps as usize)?;
    for place in 0..steps {
        let from = place / width;
        links.push(Link { from, number })?;
    }
    linked(alloc, links.as_slice())
}
