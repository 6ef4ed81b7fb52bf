ghost use Rattle.std.specs.Prelude.{◌≡◌, ◌==◌, if◌then◌else◌, nat_le, Ok};
ghost use Rattle.cir_ast.specs.declared.refusal.Kind.TheVariants.{Limit};
ghost use Rattle.cir_meaning.specs.Tried.{Where, refused};
ghost use Rattle.cir_meaning.specs.Limits.{Counts as AnyCounts, limits, standing, plus, tested};
ghost use Rattle.cir_meaning.specs.Limits.{with_array};
ghost use Rattle.cir_meaning.specs.Limits.{size_of as array_size, is_too_large as is_large};
ghost use Rattle.cir_meaning.specs.Places.{elements as element_count};
ghost use Rattle.cir_arrays.specs.Made.{made_count};
ghost use Rattle.cir_arrays.specs.Counted.{counts_of, passing};
ghost use Rattle.cir_arrays.specs.Stopped.{where_of, Gives};

use crate::stop::{Fault, Site};
use cir_ast::{Kind, Which};
use std::alloc::Global;

/// What is counted while a program is compiled. A count stands still at the end of its type.
#[derive(Clone, Copy)]
pub struct Counts {
    pub signals: u64,
    pub constraints: u64,
    pub terms: u64,
    /// The size of the first array that is too large, or 0.
    pub elements: u64,
    /// Cells of signals, of variables and of logs.
    pub cells: u64,
    /// Run-time statements.
    pub steps: u64,
    /// Tree nodes of the run-time statements.
    pub nodes: u64,
    /// Cells that the run-time statements may read.
    pub reads: u64,
    /// Statements and turns that are executed.
    pub statements: u64,
}

const MOST_SIGNALS: u64 = 1048575;

const MOST_CONSTRAINTS: u64 = 1048576;

const MOST_TERMS: u64 = 8388608;

const MOST_ELEMENTS: u64 = 1048576;

const MOST_CELLS: u64 = 2097152;

const MOST_STEPS: u64 = 2097152;

const MOST_NODES: u64 = 33554432;

const MOST_READS: u64 = 16777216;

const MOST_STATEMENTS: u64 = 16777216;

impl Counts {
    /// Nothing is counted: each count is 0.
    pub const NOTHING: Counts = Counts {
        signals: 0,
        constraints: 0,
        terms: 0,
        elements: 0,
        cells: 0,
        steps: 0,
        nodes: 0,
        reads: 0,
        statements: 0,
    };

    /// What a statement adds is counted at once; its arrays are tested by themselves.
    pub fn plus(&self, more: &Counts) -> Counts
        ensures { counts_of result ≡ plus (counts_of self.now) (counts_of more.now) }
    {
        Counts {
            signals: self.signals.saturating_add(more.signals),
            constraints: self.constraints.saturating_add(more.constraints),
            terms: self.terms.saturating_add(more.terms),
            elements: more.elements,
            cells: self.cells.saturating_add(more.cells),
            steps: self.steps.saturating_add(more.steps),
            nodes: self.nodes.saturating_add(more.nodes),
            reads: self.reads.saturating_add(more.reads),
            statements: self.statements.saturating_add(more.statements),
        }
    }

    /// The first limit that is passed, with the count that passes it.
    fn passed(&self) -> Option<(Which, u64)>
        ensures { (w : Where) → tested limits w (counts_of self.now)
            ≡ passing result w (counts_of self.now) }
    {
        if self.signals > MOST_SIGNALS {
            Some((Which::Signals, self.signals))
        } else if self.constraints > MOST_CONSTRAINTS {
            Some((Which::Constraints, self.constraints))
        } else if self.terms > MOST_TERMS {
            Some((Which::Terms, self.terms))
        } else if self.elements > 0 {
            Some((Which::Elements, self.elements))
        } else if self.cells > MOST_CELLS {
            Some((Which::Cells, self.cells))
        } else if self.steps > MOST_STEPS {
            Some((Which::Steps, self.steps))
        } else if self.nodes > MOST_NODES {
            Some((Which::Nodes, self.nodes))
        } else if self.reads > MOST_READS {
            Some((Which::Reads, self.reads))
        } else {
            over(Which::Statements, self.statements, MOST_STATEMENTS)
        }
    }

    /// Refuses counts that pass a limit.
    pub fn tested(&self, alloc: Global, site: &Site) -> Result<(), Fault>
        ensures { Gives (λ _. counts_of self.now) result
            (tested limits (where_of site.now) (counts_of self.now)) }
    {
        match self.passed() {
            None => Ok(()),
            Some((which, count)) => Err(site.refused(alloc, Kind::Limit { which, count })),
        }
    }
}

/// The limit with the count, where it is passed.
fn over(which: Which, count: u64, most: u64) -> Option<(Which, u64)>
    ensures { (w : Where) (c : AnyCounts)
        → (if nat_le count most then Ok c else refused w (Limit which (standing count)))
        ≡ passing result w c }
{
    if count > most {
        Some((which, count))
    } else {
        None
    }
}

/// How many elements an array has, or the end of the type where they are more.
pub fn elements(dims: &[u64]) -> u64
    ensures { result ≡ standing (element_count dims.now) }
{
    if has_none(dims) {
        return 0;
    }
    let mut count = 1u64;
    for d in dims {
        count = count.saturating_mul(*d);
    }
    count
}

fn has_none(dims: &[u64]) -> bool
    ensures { result ≡ (element_count dims.now == 0) }
{
    for d in dims {
        if *d == 0 {
            return true;
        }
    }
    false
}

/// The greatest of an array's number of elements and its dimensions.
pub fn size_of(dims: &[u64]) -> u64
    ensures { result ≡ standing (array_size dims.now) }
{
    let mut size = elements(dims);
    for d in dims {
        size = size.max(*d);
    }
    size
}

/// Whether an array has more than 1,048,576 elements, or a dimension above that.
pub fn is_too_large(dims: &[u64]) -> bool
    ensures { result ≡ is_large dims.now }
{
    size_of(dims) > MOST_ELEMENTS
}

/// How many elements of an array are made: none of one that is too large.
pub fn made_elements(dims: &[u64]) -> u64
    ensures { result ≡ made_count dims.now }
{
    if is_too_large(dims) {
        0
    } else {
        elements(dims)
    }
}

/// Counts an array of these dimensions, if it is too large and none was before.
pub fn add_array(counts: &mut Counts, dims: &[u64])
    ensures { counts_of counts.new ≡ with_array dims.now (counts_of counts.old) }
{
    if counts.elements == 0 && is_too_large(dims) {
        counts.elements = size_of(dims);
    }
}
