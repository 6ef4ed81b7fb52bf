ghost use Rattle.std.specs.Prelude.{◌≡◌, ℕ, true, false, List};
ghost use Rattle.cir_frame.specs.declared.frame.Frame.{Frame as AnyFrame};
ghost use Rattle.cir_arrays.specs.Stopped.{where_of, Refuses, Gives};
ghost use Rattle.cir_frame.specs.Shown.{state_of};
ghost use Rattle.cir_meaning.specs.Source.{Equation};
ghost use Rattle.cir_meaning.specs.Frame as M;
ghost use Rattle.cir_evaluate.specs.Within.{at_spot, kept_of, where_at};

use cir_arrays::{Fault, Site};
use cir_ast::Kind;
use cir_ast::program::{Program, Spot};
use cir_frame::{Grouping, Reading, World};
use std::alloc::Global;

/// What stays the same while a body is executed.
#[derive(Drop)]
pub struct Context<'p, C> {
    pub alloc: Global,
    pub program: &'p Program,
    pub file: u32,
    pub instance: u32,
    pub path: &'p [u8],
    pub grouping: Grouping<'p>,
    /// How many components the body declares by name; the anonymous ones are numbered from there.
    pub named_components: u32,
    /// What a function answers that is called by a statement of the body with known arguments: by
    /// the statement's place, the number of the function, and the arguments.
    pub call: &'p C,
}

/// Where an expression stands, and whether it is shaded: then it is only scanned, and what may be
/// refused when it runs is left to the run.
#[derive(Drop)]
pub struct Here<'a, C> {
    pub context: &'a Context<'a, C>,
    pub spot: Spot,
    pub shaded: bool,
}

impl<'p, C> Context<'p, C> {
    /// A statement of the body.
    pub fn at(&self, spot: Spot) -> Site<'_>
        ensures { where_of result ≡ at_spot self.now spot }
    {
        Site {
            file: self.file,
            spot,
            instance: self.instance,
            path: self.path,
        }
    }

    /// An expression in a statement of the body.
    pub fn here(&'p self, spot: Spot) -> Here<'p, C>
        ensures { result ≡ record { context = self.entry; spot = spot; shaded = false } }
    {
        Here {
            context: self,
            spot,
            shaded: false,
        }
    }

    /// What was added is counted, and the limits are tested.
    pub fn settle(&self, spot: Spot, world: &mut World) -> Result<(), Fault>
        ensures value { (f : AnyFrame) (es : List Equation)
            → Gives (λ _. state_of f world.new es) result
            (M.settle (at_spot self.now spot) (state_of f world.old es)) }
        ensures keeps { kept_of world.new ≡ kept_of world.old }
    {
        let counts = world.counts.plus(&world.added);
        counts.tested(self.alloc, &self.at(spot))?;
        world.counts = counts;
        world.counts.elements = 0;
        world.added = cir_arrays::Counts::NOTHING;
        Ok(())
    }

    /// A statement or a turn is counted.
    pub fn counted(&self, spot: Spot, world: &mut World) -> Result<(), Fault>
        ensures value { (f : AnyFrame) (es : List Equation)
            → Gives (λ _. state_of f world.new es) result
            (M.counted (at_spot self.now spot) (state_of f world.old es)) }
        ensures keeps { kept_of world.new ≡ kept_of world.old }
    {
        world.added.statements = world.added.statements.saturating_add(1);
        self.settle(spot, world)
    }
}

impl<'a, C> Here<'a, C> {
    /// Where memory is taken.
    pub fn alloc(&self) -> Global
        ensures { result ≡ self.now.context.now.alloc }
    {
        self.context.alloc
    }

    /// The place of the statement that the expression stands in.
    pub fn site(&self) -> Site<'a>
        ensures { where_of result ≡ where_at self.now }
    {
        let context = self.context;
        Site {
            file: context.file,
            spot: self.spot,
            instance: context.instance,
            path: context.path,
        }
    }

    /// A refusal here.
    pub fn refused(&self, kind: Kind) -> Fault
        ensures { Refuses (where_at self.now) kind result }
    {
        self.site().refused(self.context.alloc, kind)
    }

    /// The same place, shaded.
    pub fn dark(&self) -> Here<'a, C>
        ensures { result ≡ record self.now { shaded = true } }
    {
        Here {
            context: self.context,
            spot: self.spot,
            shaded: true,
        }
    }
}

/// A reading at indices.
pub fn reading<'r>(site: &'r Site<'r>, shaded: bool, indices: &'r [Option<u64>]) -> Reading<'r>
    ensures { result ≡ record { site = site.entry; shaded = shaded; indices = indices.entry } }
{
    Reading {
        site,
        shaded,
        indices,
    }
}
