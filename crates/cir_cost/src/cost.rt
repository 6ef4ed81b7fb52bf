//! What a run-time statement costs: the nodes of its tree, the elements that it may read, and the
//! calls that it makes when it runs. A call that has its value already is one node, and nothing of
//! it is read or called. An operand that isn't looked at is neither read nor called; its nodes
//! count as they are written.
ghost use Rattle.std.specs.Prelude.{◌≡◌, Bool, false, [], List, IfOk, OnOk, Ok, map};
ghost use Rattle.cir_ast.specs.Tree.{as_accessors, bare, bare_argument, bare_exprs};
ghost use Rattle.cir_ast.specs.Tree.{place_accessors};
ghost use Rattle.cir_frame.specs.declared.frame.Frame.{Frame as AnyFrame};
ghost use Rattle.cir_frame.specs.Read.{origin_from, stored_of};
ghost use Rattle.cir_arrays.specs.Shown.{datum_of};
ghost use Rattle.cir_frame.specs.Shown.{frame_of, signal_of, state_of};
ghost use Rattle.cir_meaning.specs.Limits.{Counts as AnyCounts};
ghost use Rattle.cir_meaning.specs.Source.{Equation};
ghost use Rattle.cir_meaning.specs.Places.{elements, numbers_from};
ghost use Rattle.cir_meaning.specs.Frame.{variable_at};
ghost use Rattle.cir_meaning.specs.Reading.{Named, Stored, Wired};
ghost use Rattle.cir_meaning.specs.Costs as M;
ghost use Rattle.cir_meaning.specs.Steps as S;
ghost use Rattle.cir_evaluate.specs.Within.{Means, context_at, kept_of, where_at};
ghost use Rattle.cir_evaluate.specs.Parts.{look_shading};
ghost use Rattle.cir_cost.specs.Adds.{Adds, IsCost, called_alone, read_alone};

use crate::nodes::nodes_of;
use crate::reads::{
    Cell, add_all_unknown, add_unknown, add_wires, item_count, places_in, source_or_lost,
};
use crate::seen::{index_seen, right_look_in, seen, side_looks_in};
use cir_arrays::{Datum, Fault, place_of};
use cir_ast::program::{Accessor, Expr, LogArgument, Meant, Place, Spot};
use cir_evaluate::{Here, Look, reading};
use cir_frame::{Frame, Root, SignalEntry, Source, World, inner_source, source_of};
use cir_rules::Made;
use std::alloc::{AllocError, Global};

/// What a statement costs.
pub struct Cost {
    /// The nodes of its tree.
    pub nodes: u64,
    /// The cells that it may read, in order; one may stand there several times.
    pub reads: Vec<Cell>,
    /// The calls that it makes when it runs.
    pub calls: Vec<Made>,
}

// Written out, so that the proof of an owner sees one call and not the drop of each part.
impl Drop for Cost {
    fn drop(self) {
        let Cost {
            nodes: _nodes,
            reads: _reads,
            calls: _calls,
        } = self;
    }
}

impl Cost {
    /// The cells that are read, and the calls.
    pub fn into_lists(self) -> (Vec<Cell>, Vec<Made>)
        ensures { result ≡ (self.reads, self.calls) }
    {
        let Cost {
            nodes: _,
            reads,
            calls,
        } = self;
        (reads, calls)
    }

    /// Nothing yet.
    pub fn new(alloc: Global) -> Cost
        ensures { IsCost result (M.node 0) }
    {
        Cost {
            nodes: 0,
            reads: Vec::new(alloc),
            calls: Vec::new(alloc),
        }
    }

    /// One more node.
    pub fn node(&mut self)
        ensures { Adds self.old self.new (M.node 1) }
    {
        self.nodes = self.nodes.saturating_add(1);
    }

    /// What an expression costs.
    #[cycle(costing)]
    pub fn add<C: Fn(Spot, u32, Vec<Datum>, &mut World) -> Result<Datum, Fault>>(
        &mut self,
        here: &Here<C>,
        e: &Expr,
        frame: &Frame,
        world: &mut World,
    ) -> Result<(), AllocError>
        requires calls { C.IsAlwaysCallable here.now.context.now.call.now }
        ensures cost { (m : Means (C.post here.now.context.now.call.now) here.now.context.now)
            (qs : List Equation) → OnOk result (Adds self.old self.new
            (M.cost_of (context_at here.now m) (where_at here.now) here.now.shaded (bare e.now)
            (state_of frame.now world.old qs))) }
        ensures same { (m : Means (C.post here.now.context.now.call.now) here.now.context.now)
            (f : AnyFrame) (qs : List Equation)
            → OnOk result (state_of f world.new qs ≡ state_of f world.old qs) }
        ensures keeps { Means (C.post here.now.context.now.call.now) here.now.context.now
            → kept_of world.new ≡ kept_of world.old }
    {
        self.node();
        match e {
            Expr::Number(_) | Expr::Anonymous(_) => Ok(()),
            Expr::Place(place) => self.add_place(here, place, frame, world),
            Expr::Call(_, _, meant, arguments) => {
                if is_settled(here, e, frame, world)? {
                    return Ok(());
                }
                self.add_all(here, arguments.as_slice(), frame, world)?;
                self.add_call(here, *meant, arguments.as_slice(), frame, world)
            }
            Expr::Parentheses(inner) => self.add(here, inner, frame, world),
            Expr::Array(elements) => self.add_all(here, elements.as_slice(), frame, world),
            Expr::Unary(_, a) => self.add(here, a, frame, world),
            Expr::Binary(op, a, b) => {
                self.add(here, a, frame, world)?;
                let look = right_look_in(here, *op, a, frame, world)?;
                self.add_operand(here, look, b, frame, world)
            }
            Expr::Choice(c, a, b) => {
                self.add(here, c, frame, world)?;
                let (first, second) = side_looks_in(here, c, frame, world)?;
                self.add_operand(here, first, a, frame, world)?;
                self.add_operand(here, second, b, frame, world)
            }
        }
    }

    /// What elements or arguments cost, one behind the other.
    #[cycle(costing)]
    fn add_all<C: Fn(Spot, u32, Vec<Datum>, &mut World) -> Result<Datum, Fault>>(
        &mut self,
        here: &Here<C>,
        es: &[Expr],
        frame: &Frame,
        world: &mut World,
    ) -> Result<(), AllocError>
        requires calls { C.IsAlwaysCallable here.now.context.now.call.now }
        ensures cost { (m : Means (C.post here.now.context.now.call.now) here.now.context.now)
            (qs : List Equation) → OnOk result (Adds self.old self.new
            (M.all_cost (context_at here.now m) (where_at here.now) here.now.shaded
            (bare_exprs es.now) (state_of frame.now world.old qs))) }
        ensures same { (m : Means (C.post here.now.context.now.call.now) here.now.context.now)
            (f : AnyFrame) (qs : List Equation)
            → OnOk result (state_of f world.new qs ≡ state_of f world.old qs) }
        ensures keeps { Means (C.post here.now.context.now.call.now) here.now.context.now
            → kept_of world.new ≡ kept_of world.old }
    {
        for e in es {
            self.add(here, e, frame, world)?;
        }
        Ok(())
    }

    /// What an operand costs, by how it is looked at.
    #[cycle(costing)]
    fn add_operand<C: Fn(Spot, u32, Vec<Datum>, &mut World) -> Result<Datum, Fault>>(
        &mut self,
        here: &Here<C>,
        look: Look,
        e: &Expr,
        frame: &Frame,
        world: &mut World,
    ) -> Result<(), AllocError>
        requires calls { C.IsAlwaysCallable here.now.context.now.call.now }
        ensures cost { (m : Means (C.post here.now.context.now.call.now) here.now.context.now)
            (qs : List Equation) → OnOk result (Adds self.old self.new
            (M.operand (look_shading look here.now.shaded)
            (λ dark. M.cost_of (context_at here.now m) (where_at here.now) dark (bare e.now)
            (state_of frame.now world.old qs))
            (M.nodes_of (bare e.now)))) }
        ensures same { (m : Means (C.post here.now.context.now.call.now) here.now.context.now)
            (f : AnyFrame) (qs : List Equation)
            → OnOk result (state_of f world.new qs ≡ state_of f world.old qs) }
        ensures keeps { Means (C.post here.now.context.now.call.now) here.now.context.now
            → kept_of world.new ≡ kept_of world.old }
    {
        match look {
            Look::Skipped => {
                self.nodes = self.nodes.saturating_add(nodes_of(e));
                Ok(())
            }
            Look::Plain => self.add(here, e, frame, world),
            Look::Dark => self.add(&here.dark(), e, frame, world),
        }
    }

    /// A call that is made when the statement runs.
    #[tactic(auto, using(crate::proofs::Adding::adds_none))]
    fn add_call<C: Fn(Spot, u32, Vec<Datum>, &mut World) -> Result<Datum, Fault>>(
        &mut self,
        here: &Here<C>,
        meant: Meant,
        arguments: &[Expr],
        frame: &Frame,
        world: &mut World,
    ) -> Result<(), AllocError>
        requires calls { C.IsAlwaysCallable here.now.context.now.call.now }
        ensures cost { (m : Means (C.post here.now.context.now.call.now) here.now.context.now)
            (qs : List Equation) → OnOk result (Adds self.old self.new (called_alone
            (M.call_made (context_at here.now m) (where_at here.now) here.now.shaded meant
            (M.shapes_in (context_at here.now m) (where_at here.now) here.now.shaded
            (bare_exprs arguments.now) (state_of frame.now world.old qs))))) }
        ensures same { (m : Means (C.post here.now.context.now.call.now) here.now.context.now)
            (f : AnyFrame) (qs : List Equation)
            → OnOk result (state_of f world.new qs ≡ state_of f world.old qs) }
        ensures keeps { Means (C.post here.now.context.now.call.now) here.now.context.now
            → kept_of world.new ≡ kept_of world.old }
    {
        match meant {
            Meant::Function(function) => {
                let shapes = shapes_in(here, arguments, frame, world)?;
                self.calls.push(Made { function, shapes })?;
                Ok(())
            }
            Meant::Other
            | Meant::Variable(_)
            | Meant::Signal(_, _)
            | Meant::Component(_)
            | Meant::Template(_) => Ok(()),
        }
    }

    /// What is read behind a name, with its indices; the node isn't counted.
    #[cycle(costing)]
    pub fn add_place<C: Fn(Spot, u32, Vec<Datum>, &mut World) -> Result<Datum, Fault>>(
        &mut self,
        here: &Here<C>,
        place: &Place,
        frame: &Frame,
        world: &mut World,
    ) -> Result<(), AllocError>
        requires calls { C.IsAlwaysCallable here.now.context.now.call.now }
        ensures cost { (m : Means (C.post here.now.context.now.call.now) here.now.context.now)
            (qs : List Equation) → OnOk result (Adds self.old self.new
            (M.place_cost (context_at here.now m) (where_at here.now) here.now.shaded
            place.now.meant (Named place.now.meant) [] (place_accessors place.now)
            (state_of frame.now world.old qs))) }
        ensures same { (m : Means (C.post here.now.context.now.call.now) here.now.context.now)
            (f : AnyFrame) (qs : List Equation)
            → OnOk result (state_of f world.new qs ≡ state_of f world.old qs) }
        ensures keeps { Means (C.post here.now.context.now.call.now) here.now.context.now
            → kept_of world.new ≡ kept_of world.old }
    {
        let alloc = here.alloc();
        let site = here.site();
        let mut root = Root::Named(place.meant);
        let mut indices = Vec::new(alloc);
        for accessor in place.accessors.as_slice() {
            match accessor {
                Accessor::Index(e) => {
                    self.add(here, e, frame, world)?;
                    let index = index_seen(here, e, frame, world)?;
                    indices.push(index)?;
                }
                Accessor::Member(name) => {
                    let r = reading(&site, here.shaded, indices.as_slice());
                    let found = inner_source(alloc, &r, root, name.as_slice(), frame);
                    root = Root::Found(source_or_lost(found)?);
                    indices = Vec::new(alloc);
                }
            }
        }
        match source_of(alloc, &site, root, frame) {
            Ok(source) => self.read(here, place.meant, source, indices.as_slice()),
            Err(Fault::Refused(_)) => Ok(()),
            Err(Fault::OutOfMemory) => Err(AllocError),
        }
    }

    /// The elements that can be meant. Of a variable those that are known aren't read.
    fn read<C>(
        &mut self,
        here: &Here<C>,
        meant: Meant,
        source: Source,
        indices: &[Option<u64>],
    ) -> Result<(), AllocError>
        ensures { OnOk result (Adds self.old self.new (read_alone
            (M.origin_reads (where_at here.now) meant indices.now
            (Ok (origin_from source.entry))))) }
    {
        match source {
            Source::Lost => Ok(()),
            Source::Stored(d) => self.read_stored(here, meant, d, indices),
            Source::Wired { may_read: _, entry } => self.read_wired(here, meant, entry, indices),
        }
    }

    fn read_stored<C>(
        &mut self,
        here: &Here<C>,
        meant: Meant,
        d: Option<&Datum>,
        indices: &[Option<u64>],
    ) -> Result<(), AllocError>
        ensures { OnOk result (Adds self.old self.new (read_alone
            (M.origin_reads (where_at here.now) meant indices.now
            (Ok (Stored (stored_of d.entry)))))) }
    {
        match d {
            Some(d) => self.read_numbered(here, meant, d, indices),
            None => Ok(()),
        }
    }

    #[tactic(auto, using(crate::proofs::Adding::adds_none))]
    fn read_numbered<C>(
        &mut self,
        here: &Here<C>,
        meant: Meant,
        d: &Datum,
        indices: &[Option<u64>],
    ) -> Result<(), AllocError>
        ensures { OnOk result (Adds self.old self.new (read_alone
            (M.origin_reads (where_at here.now) meant indices.now
            (Ok (Stored (datum_of d.now)))))) }
    {
        match meant {
            Meant::Variable(n) => {
                // An array that passes a limit isn't made, and none of its elements is unknown.
                if item_count(d) == 0 {
                    return Ok(());
                }
                let dims = d.dims();
                if let Some(place) = place_of(dims, indices) {
                    return add_unknown(&mut self.reads, n, d, &[place]);
                }
                let places = places_in(here, dims, indices)?;
                add_unknown(&mut self.reads, n, d, places.as_slice())
            }
            Meant::Other
            | Meant::Signal(_, _)
            | Meant::Component(_)
            | Meant::Template(_)
            | Meant::Function(_) => Ok(()),
        }
    }

    fn read_wired<C>(
        &mut self,
        here: &Here<C>,
        meant: Meant,
        entry: &SignalEntry,
        indices: &[Option<u64>],
    ) -> Result<(), AllocError>
        ensures { (may_read : Bool) → OnOk result (Adds self.old self.new (read_alone
            (M.origin_reads (where_at here.now) meant indices.now
            (Ok (Wired may_read (signal_of entry.now)))))) }
    {
        let dims = entry.dims.as_slice();
        if let Some(place) = place_of(dims, indices) {
            return add_wires(&mut self.reads, entry, &[place]);
        }
        let places = places_in(here, dims, indices)?;
        add_wires(&mut self.reads, entry, places.as_slice())
    }

    /// All elements of a variable that aren't known.
    pub fn read_variable(&mut self, n: u32, frame: &Frame) -> Result<(), AllocError>
        ensures { (c : AnyCounts) → OnOk result (Adds self.old self.new (read_alone
            (M.unknown_at n (variable_at (frame_of frame.now c) n)
            (numbers_from 0 (elements (variable_at (frame_of frame.now c) n).dims))))) }
    {
        match frame.variable(n) {
            Some(d) => add_all_unknown(&mut self.reads, n, d),
            None => Ok(()),
        }
    }

    /// The indices of a place that is written.
    pub fn add_indices<C: Fn(Spot, u32, Vec<Datum>, &mut World) -> Result<Datum, Fault>>(
        &mut self,
        here: &Here<C>,
        accessors: &[Accessor],
        frame: &Frame,
        world: &mut World,
    ) -> Result<(), AllocError>
        requires calls { C.IsAlwaysCallable here.now.context.now.call.now }
        ensures cost { (m : Means (C.post here.now.context.now.call.now) here.now.context.now)
            (qs : List Equation) → OnOk result (Adds self.old self.new
            (M.indices_cost (context_at here.now m) (where_at here.now) here.now.shaded
            (as_accessors accessors.now) (state_of frame.now world.old qs))) }
        ensures same { (m : Means (C.post here.now.context.now.call.now) here.now.context.now)
            (f : AnyFrame) (qs : List Equation)
            → OnOk result (state_of f world.new qs ≡ state_of f world.old qs) }
        ensures keeps { Means (C.post here.now.context.now.call.now) here.now.context.now
            → kept_of world.new ≡ kept_of world.old }
    {
        for accessor in accessors {
            match accessor {
                Accessor::Index(e) => self.add(here, e, frame, world)?,
                Accessor::Member(_) => {}
            }
        }
        Ok(())
    }
}

/// Whether a call has its value already.
fn is_settled<C: Fn(Spot, u32, Vec<Datum>, &mut World) -> Result<Datum, Fault>>(
    here: &Here<C>,
    e: &Expr,
    frame: &Frame,
    world: &mut World,
) -> Result<bool, AllocError>
    requires calls { C.IsAlwaysCallable here.now.context.now.call.now }
    ensures settled { (m : Means (C.post here.now.context.now.call.now) here.now.context.now)
        (qs : List Equation) → IfOk result (λ settled. settled ≡ M.is_settled
        (M.seen (context_at here.now m) (where_at here.now) here.now.shaded (bare e.now)
        (state_of frame.now world.old qs))) }
    ensures same { (m : Means (C.post here.now.context.now.call.now) here.now.context.now)
        (f : AnyFrame) (qs : List Equation)
        → OnOk result (state_of f world.new qs ≡ state_of f world.old qs) }
    ensures keeps { Means (C.post here.now.context.now.call.now) here.now.context.now
        → kept_of world.new ≡ kept_of world.old }
{
    match seen(here, e, frame, world)? {
        None => Ok(false),
        Some(d) => Ok(d.is_all_known()),
    }
}

/// The dimensions of arguments, none where one is refused.
fn shapes_in<C: Fn(Spot, u32, Vec<Datum>, &mut World) -> Result<Datum, Fault>>(
    here: &Here<C>,
    es: &[Expr],
    frame: &Frame,
    world: &mut World,
) -> Result<Vec<Vec<u64>>, AllocError>
    requires calls { C.IsAlwaysCallable here.now.context.now.call.now }
    ensures shapes { (m : Means (C.post here.now.context.now.call.now) here.now.context.now)
        (qs : List Equation) → IfOk result (λ shapes. map (λ d. d.items) shapes.items
        ≡ M.shapes_in (context_at here.now m) (where_at here.now) here.now.shaded
        (bare_exprs es.now) (state_of frame.now world.old qs)) }
    ensures same { (m : Means (C.post here.now.context.now.call.now) here.now.context.now)
        (f : AnyFrame) (qs : List Equation)
        → OnOk result (state_of f world.new qs ≡ state_of f world.old qs) }
    ensures keeps { Means (C.post here.now.context.now.call.now) here.now.context.now
        → kept_of world.new ≡ kept_of world.old }
{
    let mut shapes = Vec::new(here.alloc());
    for e in es {
        let shape = shape_in(here, e, frame, world)?;
        shapes.push(shape)?;
    }
    Ok(shapes)
}

fn shape_in<C: Fn(Spot, u32, Vec<Datum>, &mut World) -> Result<Datum, Fault>>(
    here: &Here<C>,
    e: &Expr,
    frame: &Frame,
    world: &mut World,
) -> Result<Vec<u64>, AllocError>
    requires calls { C.IsAlwaysCallable here.now.context.now.call.now }
    ensures shape { (m : Means (C.post here.now.context.now.call.now) here.now.context.now)
        (qs : List Equation) → IfOk result (λ shape. shape.items
        ≡ M.shape_of (M.seen (context_at here.now m) (where_at here.now) here.now.shaded
        (bare e.now) (state_of frame.now world.old qs))) }
    ensures same { (m : Means (C.post here.now.context.now.call.now) here.now.context.now)
        (f : AnyFrame) (qs : List Equation)
        → OnOk result (state_of f world.new qs ≡ state_of f world.old qs) }
    ensures keeps { Means (C.post here.now.context.now.call.now) here.now.context.now
        → kept_of world.new ≡ kept_of world.old }
{
    match seen(here, e, frame, world)? {
        None => Ok(Vec::new(here.alloc())),
        Some(d) => Vec::from_slice(here.alloc(), d.dims()),
    }
}

/// What a `log` costs; a string is one node.
pub fn log_cost<C: Fn(Spot, u32, Vec<Datum>, &mut World) -> Result<Datum, Fault>>(
    here: &Here<C>,
    arguments: &[LogArgument],
    frame: &Frame,
    world: &mut World,
) -> Result<Cost, AllocError>
    requires calls { C.IsAlwaysCallable here.now.context.now.call.now }
    ensures cost { (m : Means (C.post here.now.context.now.call.now) here.now.context.now)
        (qs : List Equation) → here.now.shaded ≡ false → IfOk result (λ cost. IsCost cost
        (S.log_cost (context_at here.now m) (where_at here.now) (map bare_argument arguments.now)
        (state_of frame.now world.old qs))) }
    ensures same { (m : Means (C.post here.now.context.now.call.now) here.now.context.now)
        (f : AnyFrame) (qs : List Equation)
        → OnOk result (state_of f world.new qs ≡ state_of f world.old qs) }
    ensures keeps { Means (C.post here.now.context.now.call.now) here.now.context.now
        → kept_of world.new ≡ kept_of world.old }
{
    let mut cost = Cost::new(here.alloc());
    cost.node();
    for argument in arguments {
        match argument {
            LogArgument::Words(_) => cost.node(),
            LogArgument::Value(e) => cost.add(here, e, frame, world)?,
        }
    }
    Ok(cost)
}
