// The strands that are cut so far, and what the open one reads and writes.
ghost use Rattle.std.specs.Prelude.{◌≡◌, ℕ, ◌+◌, ◌<◌, ◌↔◌, ◌∷◌, [], IsTrue, IfOk, List, length};
ghost use Rattle.flow_core.specs.Counts.{IsIn};
ghost use Rattle.wit_flow.specs.Draft.{HasCome, IsWritten, WritesFirst};
ghost use Rattle.wit_flow.specs.Run.{reads_at, writes_at};

use crate::flow::{Source, Strand};
use items::Items;
use numbers::Numbers;
use std::alloc::{AllocError, Global};
use std::mem;
use wit_code::Step;

/// The strand that named a cell last, counted from 1, and where its steps find the cell.
#[derive(Clone, Copy)]
pub struct Mark {
    pub strand: u32,
    pub source: Source,
}

/// The strands of the steps before `first`, and the open one from `first` on, of `count` steps so
/// far.
#[derive(Drop)]
pub struct Draft {
    pub strands: Items<Strand>,
    pub reads: Items<Numbers>,
    pub writes: Items<Numbers>,
    pub sources: Items<Items<Source>>,
    pub first: u32,
    pub count: u32,
    pub open_reads: Numbers,
    pub open_writes: Numbers,
    /// The last mark of each cell.
    pub marks: Items<Mark>,
}

fn is_written(source: Source) -> bool
    ensures { IsTrue result ↔ IsWritten source }
{
    matches!(source, Source::Written(_))
}

impl Draft {
    ghost use Rattle.wit_code.specs.declared.code.Step.{Step as AStep};
    ghost use Rattle.wit_flow.specs.Cut.{Joins};
    ghost use Rattle.wit_flow.specs.Sources.{IsSource, AreSources};
    ghost use Rattle.wit_flow.specs.Draft.{AreMarked, HasCome, IsClosed, IsDraft, MayAdd};
    ghost use Rattle.wit_flow.specs.Draft.{ReadsMore, WritesMore, next_of, number_of_open};

    /// No strand yet.
    pub fn new(alloc: Global, cells: u32) -> Result<Draft, AllocError>
        ensures { IfOk result (λ d. (steps : List AStep) → HasCome steps cells 0 d) }
    {
        let blank = Mark {
            strand: 0,
            source: Source::Read(0),
        };
        let marks = vec![in alloc; blank; cells as usize]?;
        Ok(Draft {
            strands: Items::new(alloc),
            reads: Items::new(alloc),
            writes: Items::new(alloc),
            sources: Items::new(alloc),
            first: 0,
            count: 0,
            open_reads: Numbers::new(alloc),
            open_writes: Numbers::new(alloc),
            marks: Items::of(marks),
        })
    }

    // The open strand's number, counted from 1.
    fn number(&self) -> u32
        requires { number_of_open self.now < 4294967296 }
        ensures { result ≡ number_of_open self.now }
    {
        self.strands.len() as u32 + 1
    }

    // Whether one of these cells is written by the open strand.
    fn names_written(&self, cells: &[u32]) -> bool
        requires marked { AreMarked self.now }
        requires few { number_of_open self.now < 4294967296 }
        requires near { (c : ℕ) → IsIn c cells.now → c < length self.now.marks }
        ensures { IsTrue result ↔ ((c : ℕ) × IsIn c cells.now × IsIn c self.now.open_writes) }
    {
        let number = self.number();
        for cell in cells {
            let mark = self.marks.as_slice()[*cell as usize];
            if mark.strand == number && is_written(mark.source) {
                return true;
            }
        }
        false
    }

    /// Whether the next step joins the open strand.
    fn joins(&self, steps: &[Step]) -> bool
        requires draft { IsDraft steps.now self.now }
        requires few { length steps.now < 4294967296 }
        requires at { next_of self.now < length steps.now }
        requires near { (c : ℕ) → IsIn c (reads_at steps.now (next_of self.now))
            → c < length self.now.marks }
        ensures { IsTrue result ↔ Joins steps.now self.now.first (next_of self.now) }
    {
        let step = &steps[self.first as usize + self.count as usize];
        self.count < 256 && self.names_written(step.reads.as_slice())
    }

    // Where the open strand finds a cell, which it reads from now on if it doesn't write it.
    fn source_of(&mut self, cell: u32) -> Result<Source, AllocError>
        requires marked { AreMarked self.old }
        requires few { number_of_open self.old < 4294967296 }
        requires near { cell < length self.old.marks }
        ensures reads { IfOk result (λ s. ReadsMore self.old self.new (cell ∷ [])) }
        ensures source { IfOk result (λ s.
            IsSource self.new.open_reads self.new.open_writes (length self.new.open_writes) s
            cell) }
    {
        let number = self.number();
        let mark = self.marks.as_slice()[cell as usize];
        if mark.strand == number {
            return Ok(mark.source);
        }
        let source = Source::Read(self.open_reads.len());
        self.open_reads.push(cell)?;
        let mark = Mark {
            strand: number,
            source,
        };
        self.marks.set(cell as usize, mark);
        Ok(source)
    }

    // Where the open strand finds the cells that its next step reads.
    fn find(&mut self, alloc: Global, cells: &[u32]) -> Result<Items<Source>, AllocError>
        requires marked { AreMarked self.old }
        requires few { number_of_open self.old < 4294967296 }
        requires near { (c : ℕ) → IsIn c cells.now → c < length self.old.marks }
        ensures reads { IfOk result (λ s. ReadsMore self.old self.new cells.now) }
        ensures sources { IfOk result (λ s.
            AreSources self.new.open_reads self.new.open_writes (length self.new.open_writes) s
            cells.now) }
    {
        let mut sources = Items::new(alloc);
        for cell in cells {
            let source = self.source_of(*cell)?;
            sources.push(source)?;
        }
        Ok(sources)
    }

    // The open strand writes these cells.
    fn write(&mut self, cells: &[u32]) -> Result<(), AllocError>
        requires marked { AreMarked self.old }
        requires few { number_of_open self.old < 4294967296 }
        requires near { (c : ℕ) → IsIn c cells.now → c < length self.old.marks }
        ensures { IfOk result (λ _. WritesMore self.old self.new cells.now) }
    {
        let number = self.number();
        for cell in cells {
            let source = Source::Written(self.open_writes.len());
            self.open_writes.push(*cell)?;
            let mark = Mark {
                strand: number,
                source,
            };
            self.marks.set(*cell as usize, mark);
        }
        Ok(())
    }

    // Adds the next step to the open strand.
    fn add(&mut self, alloc: Global, steps: &[Step]) -> Result<(), AllocError>
        requires draft { IsDraft steps.now self.old }
        requires few { length steps.now < 4294967296 }
        requires at { next_of self.old < length steps.now }
        requires joins { MayAdd steps.now self.old }
        requires reads_near { (c : ℕ) → IsIn c (reads_at steps.now (next_of self.old))
            → c < length self.old.marks }
        requires writes_near { (c : ℕ) → IsIn c (writes_at steps.now (next_of self.old))
            → c < length self.old.marks }
        requires first { WritesFirst steps.now }
        ensures { IfOk result
            (λ _. HasCome steps.now (length self.old.marks) (next_of self.old + 1) self.new) }
    {
        let step = &steps[self.first as usize + self.count as usize];
        let sources = self.find(alloc, step.reads.as_slice())?;
        self.write(step.writes.as_slice())?;
        self.sources.push(sources)?;
        self.count += 1;
        Ok(())
    }

    // Closes the open strand: the next one begins with the next step.
    fn close(&mut self, alloc: Global) -> Result<(), AllocError>
        requires { next_of self.old < 4294967296 }
        ensures { IfOk result (λ _. IsClosed self.old self.new) }
    {
        let reads = mem::replace(&mut self.open_reads, Numbers::new(alloc));
        let writes = mem::replace(&mut self.open_writes, Numbers::new(alloc));
        self.strands.push(Strand {
            first: self.first,
            count: self.count,
        })?;
        self.reads.push(reads)?;
        self.writes.push(writes)?;
        self.first += self.count;
        self.count = 0;
        Ok(())
    }

    // Closes the open strand, unless it has no step or the next step joins it.
    fn make_room(&mut self, alloc: Global, steps: &[Step]) -> Result<(), AllocError>
        requires draft { IsDraft steps.now self.old }
        requires few { length steps.now < 4294967296 }
        requires at { next_of self.old < length steps.now }
        requires near { (c : ℕ) → IsIn c (reads_at steps.now (next_of self.old))
            → c < length self.old.marks }
        ensures come { IfOk result
            (λ _. HasCome steps.now (length self.old.marks) (next_of self.old) self.new) }
        ensures room { IfOk result (λ _. MayAdd steps.now self.new) }
    {
        if self.count == 0 || self.joins(steps) {
            return Ok(());
        }
        self.close(alloc)
    }
}

/// All steps, cut by the rule.
pub fn draft_of(alloc: Global, steps: &[Step], cells: u32) -> Result<Draft, AllocError>
    requires few { length steps.now < 4294967296 }
    requires reads_near { (k c : ℕ) → IsIn c (reads_at steps.now k) → c < cells }
    requires writes_near { (k c : ℕ) → IsIn c (writes_at steps.now k) → c < cells }
    requires first { WritesFirst steps.now }
    ensures { IfOk result (λ d. HasCome steps.now cells (length steps.now) d × (d.count ≡ 0)) }
{
    let mut draft = Draft::new(alloc, cells)?;
    for at in 0..steps.len() {
        draft.make_room(alloc, steps)?;
        draft.add(alloc, steps)?;
    }
    if draft.count > 0 {
        draft.close(alloc)?;
    }
    Ok(draft)
}
