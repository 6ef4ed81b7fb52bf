//! Assignments to variables.
ghost use Rattle.std.specs.Prelude.{◌≡◌, ℕ, List, false, IfErr, IfOk, OnOk};
ghost use Rattle.cir_ast.specs.declared.program.Meant.TheVariants.{Variable};
ghost use Rattle.cir_ast.specs.declared.operators.Binary.{Binary};
ghost use Rattle.cir_ast.specs.Tree.{as_accessors, bare_assign, bare_place, Binary as BinaryExpr};
ghost use Rattle.cir_ast.specs.Tree.{Number as NumberExpr};
ghost use Rattle.cir_frame.specs.declared.frame.Frame.{Frame as AnyFrame};
ghost use Rattle.cir_arrays.specs.declared.stop.Fault.TheVariants.{OutOfMemory};
ghost use Rattle.cir_arrays.specs.Stopped.{Gives};
ghost use Rattle.cir_arrays.specs.Shown.{datum_of};
ghost use Rattle.cir_frame.specs.Shown.{state_of};
ghost use Rattle.cir_meaning.specs.Source.{Equation};
ghost use Rattle.cir_meaning.specs.Arrays.{Whole};
ghost use Rattle.cir_meaning.specs.Operators as O;
ghost use Rattle.cir_meaning.specs.Limits.{standing};
ghost use Rattle.cir_meaning.specs.Places.{elements as element_count};
ghost use Rattle.cir_meaning.specs.Frame.{State, uncounted, variable_at};
ghost use Rattle.cir_meaning.specs.Writing as W;
ghost use Rattle.cir_meaning.specs.Steps.{new_cells, variable_cost};
ghost use Rattle.cir_meaning.specs.Evaluate as E;
ghost use Rattle.cir_meaning.specs.Simple as S;
ghost use Rattle.cir_evaluate.specs.Within.{Means, context_at, kept_of, where_at};
ghost use Rattle.cir_cost.specs.Adds.{Adds};
ghost use Rattle.cir_assign.specs.Leads.{Leads};
ghost use Rattle.cir_assign.specs.Given.{IsPlaceOf, Places, given_by, written_by};
ghost use Rattle.cir_assign.specs.Assigns.{Assigns, IsAssignment, PaysFor, assigned_cost};
ghost use Rattle.cir_assign.specs.Assigns.{assignment_in};

use crate::growing::{NewValue, new_value, write_assigned};
use cir_arrays::{Datum, Fault, Reach, Want, elements, reach_of, same_dims};
use cir_ast::Kind;
use cir_ast::program::{Accessor, Assign, Compound, Expr, Meant, Place, Spot};
use cir_cost::{Cost, stepped};
use cir_evaluate::{Here, compound_operator, datum, indices_in, number, place_number, strict};
use cir_frame::{Frame, World};
use cir_values::Value;
use gold_field::{Gold, Op2};

/// What an assignment to a variable gives: `x += e` is `x = x + (e)`, and `x++` is `x = x + 1`.
#[derive(Clone, Copy)]
pub enum Given<'a> {
    Plain(&'a Expr),
    Compound(Compound, &'a Place, &'a Expr),
    Increment(&'a Place),
    Decrement(&'a Place),
}

/// A part of a variable that is written, and what is written there.
#[derive(Clone, Copy)]
pub struct Written<'a> {
    pub variable: u32,
    pub accessors: &'a [Accessor],
    pub given: Given<'a>,
}

/// An assignment by its place.
#[derive(Clone, Copy)]
pub struct Placed<'a> {
    pub meant: Meant,
    pub accessors: &'a [Accessor],
    pub given: Given<'a>,
}

/// An assignment that isn't by an arrow.
pub fn placed_of(assign: &Assign) -> Option<Placed<'_>>
    ensures { Places (bare_assign assign.now) result }
{
    match assign {
        Assign::Set(place, e) => Some(at(place, Given::Plain(e))),
        Assign::Compound(place, op, e) => Some(at(place, Given::Compound(*op, place, e))),
        Assign::Increment(place) => Some(at(place, Given::Increment(place))),
        Assign::Decrement(place) => Some(at(place, Given::Decrement(place))),
        Assign::Left(_, _, _) => None,
    }
}

fn at<'a>(place: &'a Place, given: Given<'a>) -> Placed<'a>
    ensures meant { result.meant ≡ place.now.meant }
    ensures accessors { result.accessors.now ≡ place.now.accessors }
    ensures given { result.given ≡ given.entry }
{
    Placed {
        meant: place.meant,
        accessors: place.accessors.as_slice(),
        given,
    }
}

/// The value that an assignment gives.
pub fn given_value<C: Fn(Spot, u32, Vec<Datum>, &mut World) -> Result<Datum, Fault>>(
    here: &Here<C>,
    given: Given,
    frame: &Frame,
    world: &mut World,
) -> Result<Datum, Fault>
    requires calls { C.IsAlwaysCallable here.now.context.now.call.now }
    ensures value { (m : Means (C.post here.now.context.now.call.now) here.now.context.now)
        (qs : List Equation) → Gives (λ d. (datum_of d, state_of frame.now world.new qs)) result
        (E.value_in (context_at here.now m) (where_at here.now) here.now.shaded
        Whole (given_by given.entry) (state_of frame.now world.old qs)) }
    ensures keeps { Means (C.post here.now.context.now.call.now) here.now.context.now
        → kept_of world.new ≡ kept_of world.old }
{
    match given {
        Given::Plain(e) => datum(here, e, frame, world),
        Given::Compound(op, place, e) => {
            let x = place_number(here, place, frame, world)?;
            let y = number(here, e, frame, world)?;
            let v = strict(here, compound_operator(op), x, y)?;
            Ok(Datum::Number(v))
        }
        Given::Increment(place) => stepped_number(here, Op2::Add, place, frame, world),
        Given::Decrement(place) => stepped_number(here, Op2::Sub, place, frame, world),
    }
}

/// The number at a place, with 1 more or less.
fn stepped_number<C: Fn(Spot, u32, Vec<Datum>, &mut World) -> Result<Datum, Fault>>(
    here: &Here<C>,
    op: Op2,
    place: &Place,
    frame: &Frame,
    world: &mut World,
) -> Result<Datum, Fault>
    requires calls { C.IsAlwaysCallable here.now.context.now.call.now }
    ensures value { (m : Means (C.post here.now.context.now.call.now) here.now.context.now)
        (qs : List Equation) (b : Binary) → O.operator_of b ≡ O.Strict op
        → Gives (λ d. (datum_of d, state_of frame.now world.new qs)) result
        (E.value_in (context_at here.now m) (where_at here.now) here.now.shaded
        Whole (BinaryExpr b (bare_place place.now) (NumberExpr 1))
        (state_of frame.now world.old qs)) }
    ensures keeps { Means (C.post here.now.context.now.call.now) here.now.context.now
        → kept_of world.new ≡ kept_of world.old }
{
    let x = place_number(here, place, frame, world)?;
    let v = strict(here, op, x, Value::Known(Gold::ONE))?;
    Ok(Datum::Number(v))
}

/// What an assignment to a variable writes, and where.
#[derive(Drop)]
pub struct Assignment {
    pub value: NewValue,
    pub reach: Reach,
}

/// The value comes first, then the indices of the written place, then shapes.
pub fn variable_assignment<C: Fn(Spot, u32, Vec<Datum>, &mut World) -> Result<Datum, Fault>>(
    here: &Here<C>,
    w: &Written,
    frame: &Frame,
    world: &mut World,
) -> Result<Assignment, Fault>
    requires calls { C.IsAlwaysCallable here.now.context.now.call.now }
    ensures value { (m : Means (C.post here.now.context.now.call.now) here.now.context.now)
        (qs : List Equation) → Assigns w.now.variable (state_of frame.now world.new qs) result
        (assignment_in (context_at here.now m) (where_at here.now) here.now.shaded
        w.now.variable (as_accessors w.now.accessors.now) (given_by w.now.given)
        (state_of frame.now world.old qs)) }
    ensures keeps { Means (C.post here.now.context.now.call.now) here.now.context.now
        → kept_of world.new ≡ kept_of world.old }
{
    let value = new_value(here, w, frame, world)?;
    let indices = indices_in(here, w.accessors, frame, world)?;
    let dims = frame.variable_dims(w.variable);
    let site = here.site();
    let reach = reach_of(
        here.alloc(),
        &site,
        here.shaded,
        Want::Whole,
        dims,
        indices.as_slice(),
    )?;
    if same_dims(reach.left.as_slice(), value.dims()) {
        Ok(Assignment { value, reach })
    } else {
        Err(here.refused(Kind::ShapeDiffers))
    }
}

/// A variable is written. It is a step where an element that it writes isn't known afterwards.
pub fn set_variable<C: Fn(Spot, u32, Vec<Datum>, &mut World) -> Result<Datum, Fault>>(
    here: &Here<C>,
    w: &Written,
    frame: &mut Frame,
    world: &mut World,
) -> Result<(), Fault>
    requires calls { C.IsAlwaysCallable here.now.context.now.call.now }
    ensures { (m : Means (C.post here.now.context.now.call.now) here.now.context.now)
        (name : List ℕ) (qs : List Equation) → here.now.shaded ≡ false
        → IsPlaceOf name (Variable w.now.variable) w.now.accessors.now w.now.given
        → Leads qs world.old frame.new world.new result
        (S.set_variable (context_at here.now m) (where_at here.now)
        (written_by name (Variable w.now.variable) w.now.accessors.now w.now.given)
        w.now.variable (as_accessors w.now.accessors.now) (given_by w.now.given)
        (state_of frame.old world.old qs)) }
{
    let a = variable_assignment(here, w, frame, world)?;
    if !is_unknown(&a, elements(frame.variable_dims(w.variable))) {
        write_assigned(here.alloc(), w.variable, a, frame)?;
        return Ok(());
    }
    let step = variable_step(here, w.variable, w.accessors, w.given, &a, frame, world)?;
    let Step { cost, cells } = step;
    write_assigned(here.alloc(), w.variable, a, frame)?;
    stepped(here, cost, cells, world)
}

/// Whether an element that is written isn't known afterwards, of a variable of so many elements.
pub fn is_unknown(a: &Assignment, count: u64) -> bool
    ensures { (n : ℕ) (s : State) (x : W.VariableAssignment) → IsAssignment n s a.now x
        → count ≡ standing (element_count (variable_at s.frame n).dims)
        → result ≡ W.is_unknown n x }
{
    if a.reach.is_sure() {
        !a.value.is_all_known()
    } else {
        count != 0
    }
}

/// A step that writes a variable, by what it costs and how many cells it writes.
#[derive(Drop)]
pub struct Step {
    pub cost: Cost,
    pub cells: u64,
}

/// The step of an assignment to a variable. Its cells are the items of the value that aren't known,
/// or all elements of the variable where it isn't known which of them are written.
pub fn variable_step<C: Fn(Spot, u32, Vec<Datum>, &mut World) -> Result<Datum, Fault>>(
    here: &Here<C>,
    variable: u32,
    accessors: &[Accessor],
    given: Given,
    a: &Assignment,
    frame: &Frame,
    world: &mut World,
) -> Result<Step, Fault>
    requires calls { C.IsAlwaysCallable here.now.context.now.call.now }
    ensures pays { (m : Means (C.post here.now.context.now.call.now) here.now.context.now)
        (name : List ℕ) (qs : List Equation) (s : State) (x : W.VariableAssignment)
        → here.now.shaded ≡ false
        → IsPlaceOf name (Variable variable) accessors.now given.entry
        → IsAssignment variable (state_of frame.now world.old qs) a.now x
        → uncounted (state_of frame.now world.old qs) ≡ uncounted s
        → IfOk result (λ z. PaysFor (context_at here.now m) (where_at here.now)
        (variable_cost (context_at here.now m) (where_at here.now)
        (written_by name (Variable variable) accessors.now given.entry)
        variable (as_accessors accessors.now) (given_by given.entry) x s)
        (new_cells variable x) z.cost z.cells) }
    ensures memory { IfErr result (λ f. f ≡ OutOfMemory) }
    ensures same { (m : Means (C.post here.now.context.now.call.now) here.now.context.now)
        (f : AnyFrame) (qs : List Equation)
        → OnOk result (state_of f world.new qs ≡ state_of f world.old qs) }
    ensures keeps { Means (C.post here.now.context.now.call.now) here.now.context.now
        → kept_of world.new ≡ kept_of world.old }
{
    let mut cost = Cost::new(here.alloc());
    cost.node();
    add_assigned(&mut cost, here, accessors, given, frame, world)?;
    if a.reach.is_sure() {
        let cells = a.value.unknown_count();
        return Ok(Step { cost, cells });
    }
    cost.read_variable(variable, frame)?;
    let cells = elements(frame.variable_dims(variable));
    Ok(Step { cost, cells })
}

/// What an assignment costs: its nodes as it is written, and what it reads as it is executed.
pub fn add_assigned<C: Fn(Spot, u32, Vec<Datum>, &mut World) -> Result<Datum, Fault>>(
    cost: &mut Cost,
    here: &Here<C>,
    accessors: &[Accessor],
    given: Given,
    frame: &Frame,
    world: &mut World,
) -> Result<(), Fault>
    requires calls { C.IsAlwaysCallable here.now.context.now.call.now }
    ensures cost { (m : Means (C.post here.now.context.now.call.now) here.now.context.now)
        (qs : List Equation) → OnOk result (Adds cost.old cost.new
        (assigned_cost (context_at here.now m) (where_at here.now) here.now.shaded
        (as_accessors accessors.now) given.entry (state_of frame.now world.old qs))) }
    ensures memory { IfErr result (λ f. f ≡ OutOfMemory) }
    ensures same { (m : Means (C.post here.now.context.now.call.now) here.now.context.now)
        (f : AnyFrame) (qs : List Equation)
        → OnOk result (state_of f world.new qs ≡ state_of f world.old qs) }
    ensures keeps { Means (C.post here.now.context.now.call.now) here.now.context.now
        → kept_of world.new ≡ kept_of world.old }
{
    cost.node();
    match given {
        Given::Plain(e) => {
            cost.add(here, e, frame, world)?;
            cost.add_indices(here, accessors, frame, world)?;
            Ok(())
        }
        Given::Compound(_, place, e) => {
            cost.add_place(here, place, frame, world)?;
            cost.add(here, e, frame, world)?;
            Ok(())
        }
        Given::Increment(place) => {
            cost.add_place(here, place, frame, world)?;
            Ok(())
        }
        Given::Decrement(place) => {
            cost.add_place(here, place, frame, world)?;
            Ok(())
        }
    }
}
