//! Assignments to signals: elements are written once, and may be constrained.
ghost use Rattle.std.specs.Prelude.{◌≡◌, ◌+◌, ℕ, List, drop, map, false, IfOk};
ghost use Rattle.std.specs.Prelude.{Ok, OnOk};
ghost use Rattle.cir_ast.specs.Tree.{as_accessors, bare, Left as LeftAssign};
ghost use Rattle.cir_values.specs.Meant.{meant};
ghost use Rattle.cir_lc.specs.Number.{signal};
ghost use Rattle.cir_frame.specs.declared.frame.Frame.{Frame as AnyFrame};
ghost use Rattle.cir_arrays.specs.Counted.{counts_of};
ghost use Rattle.cir_arrays.specs.Shown.{datum_of};
ghost use Rattle.cir_frame.specs.Shown.{frame_of, state_of};
ghost use Rattle.cir_frame.specs.Targets.{target_by};
ghost use Rattle.cir_meaning.specs.Tried.{next};
ghost use Rattle.cir_meaning.specs.Source.{Equation};
ghost use Rattle.cir_meaning.specs.Compile.{group_size};
ghost use Rattle.cir_meaning.specs.Places.{numbers_from};
ghost use Rattle.cir_meaning.specs.Values.{Linear as LinearValue};
ghost use Rattle.cir_meaning.specs.Arrays.{Reach as AnyReach, Whole};
ghost use Rattle.cir_meaning.specs.Frame as M;
ghost use Rattle.cir_meaning.specs.Frame.{State, uncounted};
ghost use Rattle.cir_meaning.specs.Evaluate as E;
ghost use Rattle.cir_meaning.specs.Writing as W;
ghost use Rattle.cir_meaning.specs.Steps.{signal_cost};
ghost use Rattle.cir_meaning.specs.Simple as S;
ghost use Rattle.cir_evaluate.specs.Within.{Means, context_at, kept_of, where_at};
ghost use Rattle.cir_cost.specs.Adds.{IsCost};
ghost use Rattle.cir_assign.specs.Leads.{Leads};
ghost use Rattle.cir_assign.specs.Finds.{Finds, IsFound, IsMember};

use crate::record::constrain;
use cir_arrays::{Contents, Datum, Fault, same_dims};
use cir_ast::program::{Accessor, Arrow, Expr, Meant, Spot};
use cir_ast::{Kind, Text};
use cir_cost::{Cost, stepped};
use cir_evaluate::{Here, datum, indices_in, number, reading};
use cir_frame::{Frame, Target, World, input_at, number_at, own_target, target_of, write_element};
use cir_values::{Value, signal_form};
use numbers::TooLarge;
use std::alloc::AllocError;
use std::mem::replace;

/// A signal that is written, and what is written there.
#[derive(Clone, Copy)]
pub struct Wiring<'a> {
    pub meant: Meant,
    pub accessors: &'a [Accessor],
    pub arrow: Arrow,
    pub value: &'a Expr,
}

/// A signal is written, and constrained by `<==`. A write of no signal is no step.
pub fn set_signal<C: Fn(Spot, u32, Vec<Datum>, &mut World) -> Result<Datum, Fault>>(
    here: &Here<C>,
    w: &Wiring,
    frame: &mut Frame,
    world: &mut World,
) -> Result<(), Fault>
    requires calls { C.IsAlwaysCallable here.now.context.now.call.now }
    ensures { (m : Means (C.post here.now.context.now.call.now) here.now.context.now)
        (name : List ℕ) (qs : List Equation) → here.now.shaded ≡ false
        → Leads qs world.old frame.new world.new result
        (S.set_signal (context_at here.now m) (where_at here.now)
        (LeftAssign name w.now.meant (as_accessors w.now.accessors.now) w.now.arrow
        (bare w.now.value.now)) w.now.meant (as_accessors w.now.accessors.now) w.now.arrow
        (bare w.now.value.now) (state_of frame.old world.old qs)) }
{
    let mut value = datum(here, w.value, frame, world)?;
    let target = target_in(here, w.meant, w.accessors, frame, world)?;
    set_elements(here, w, &target, &mut value, frame, world)
}

/// The elements that are found get the value, if it has their shape. It is taken from its place.
fn set_elements<C: Fn(Spot, u32, Vec<Datum>, &mut World) -> Result<Datum, Fault>>(
    here: &Here<C>,
    w: &Wiring,
    target: &Target,
    value: &mut Datum,
    frame: &mut Frame,
    world: &mut World,
) -> Result<(), Fault>
    requires calls { C.IsAlwaysCallable here.now.context.now.call.now }
    ensures { (m : Means (C.post here.now.context.now.call.now) here.now.context.now)
        (name : List ℕ) (qs : List Equation) (s s1 : State) (x : W.Target)
        → here.now.shaded ≡ false
        → E.value_in (context_at here.now m) (where_at here.now) false Whole
        (bare w.now.value.now) s ≡ Ok (datum_of value.old, s1)
        → W.target_in (context_at here.now m) (where_at here.now) w.now.meant
        (as_accessors w.now.accessors.now) s1 ≡ Ok (x, state_of frame.old world.old qs)
        → IsFound (frame_of frame.old (counts_of world.old.added)) target.now x
        → uncounted (state_of frame.old world.old qs) ≡ uncounted s
        → Leads qs world.old frame.new world.new result
        (S.set_signal (context_at here.now m) (where_at here.now)
        (LeftAssign name w.now.meant (as_accessors w.now.accessors.now) w.now.arrow
        (bare w.now.value.now)) w.now.meant (as_accessors w.now.accessors.now) w.now.arrow
        (bare w.now.value.now) s) }
{
    if !same_dims(target.reach.left.as_slice(), value.dims()) {
        return Err(here.refused(Kind::ShapeDiffers));
    }
    let (_, count) = target.run();
    if count == 0 {
        return Ok(());
    }
    let cost = wiring_cost(here, w, frame, world)?;
    let value = replace(value, Datum::Number(Value::Opaque));
    write_signal(here, w.arrow, target, value, frame, world)?;
    stepped(here, cost, 0, world)
}

/// What the write of a signal costs: its nodes, and what its value and its indices read and call.
pub fn wiring_cost<C: Fn(Spot, u32, Vec<Datum>, &mut World) -> Result<Datum, Fault>>(
    here: &Here<C>,
    w: &Wiring,
    frame: &Frame,
    world: &mut World,
) -> Result<Cost, AllocError>
    requires calls { C.IsAlwaysCallable here.now.context.now.call.now }
    ensures cost { (m : Means (C.post here.now.context.now.call.now) here.now.context.now)
        (name : List ℕ) (qs : List Equation) → here.now.shaded ≡ false
        → IfOk result (λ c. IsCost c (signal_cost (context_at here.now m) (where_at here.now)
        (LeftAssign name w.now.meant (as_accessors w.now.accessors.now) w.now.arrow
        (bare w.now.value.now)) (as_accessors w.now.accessors.now) (bare w.now.value.now)
        (state_of frame.now world.old qs))) }
    ensures same { (m : Means (C.post here.now.context.now.call.now) here.now.context.now)
        (f : AnyFrame) (qs : List Equation)
        → OnOk result (state_of f world.new qs ≡ state_of f world.old qs) }
    ensures keeps { Means (C.post here.now.context.now.call.now) here.now.context.now
        → kept_of world.new ≡ kept_of world.old }
{
    let mut cost = Cost::new(here.alloc());
    cost.node();
    cost.node();
    cost.add(here, w.value, frame, world)?;
    cost.add_indices(here, w.accessors, frame, world)?;
    Ok(cost)
}

/// The elements that are to be written.
pub fn target_in<C: Fn(Spot, u32, Vec<Datum>, &mut World) -> Result<Datum, Fault>>(
    here: &Here<C>,
    meant: Meant,
    accessors: &[Accessor],
    frame: &Frame,
    world: &mut World,
) -> Result<Target, Fault>
    requires calls { C.IsAlwaysCallable here.now.context.now.call.now }
    ensures value { (m : Means (C.post here.now.context.now.call.now) here.now.context.now)
        (qs : List Equation) → here.now.shaded ≡ false
        → Finds (state_of frame.now world.new qs) result
        (W.target_in (context_at here.now m) (where_at here.now) meant
        (as_accessors accessors.now) (state_of frame.now world.old qs)) }
    ensures keeps { Means (C.post here.now.context.now.call.now) here.now.context.now
        → kept_of world.new ≡ kept_of world.old }
{
    match meant {
        Meant::Signal(_, n) => {
            let indices = indices_in(here, accessors, frame, world)?;
            let site = here.site();
            let r = reading(&site, false, indices.as_slice());
            own_target(here.alloc(), &r, n, frame)
        }
        Meant::Component(n) => {
            let indices = indices_in(here, accessors, frame, world)?;
            let rest = behind(accessors, indices.len());
            input_target(here, n, indices.as_slice(), rest, frame, world)
        }
        Meant::Other | Meant::Variable(_) | Meant::Template(_) | Meant::Function(_) => {
            Err(here.refused(Kind::WrongKind))
        }
    }
}

/// Those of an input of the component that the indices mean: what follows them names it.
fn input_target<C: Fn(Spot, u32, Vec<Datum>, &mut World) -> Result<Datum, Fault>>(
    here: &Here<C>,
    n: u32,
    indices: &[Option<u64>],
    rest: &[Accessor],
    frame: &Frame,
    world: &mut World,
) -> Result<Target, Fault>
    requires calls { C.IsAlwaysCallable here.now.context.now.call.now }
    ensures value { (m : Means (C.post here.now.context.now.call.now) here.now.context.now)
        (qs : List Equation) → here.now.shaded ≡ false
        → Finds (state_of frame.now world.new qs) result
        (W.target_at (context_at here.now m) (where_at here.now) n indices.now
        (as_accessors rest.now) (state_of frame.now world.old qs)) }
    ensures keeps { Means (C.post here.now.context.now.call.now) here.now.context.now
        → kept_of world.new ≡ kept_of world.old }
{
    let Some((name, inner)) = member_of(rest) else {
        return Err(here.refused(Kind::WrongKind));
    };
    let site = here.site();
    let r = reading(&site, false, indices);
    let (part, i) = input_at(here.alloc(), &r, n, name.as_slice(), frame)?;
    let inner = indices_in(here, inner, frame, world)?;
    let r = reading(&site, false, inner.as_slice());
    target_of(here.alloc(), &r, part, i, frame)
}

/// The member that comes first, and what follows it.
fn member_of(rest: &[Accessor]) -> Option<(&Text, &[Accessor])>
    ensures { IsMember rest.now result }
{
    match rest.split_first() {
        Some((Accessor::Member(name), inner)) => Some((name, inner)),
        _ => None,
    }
}

fn behind(accessors: &[Accessor], count: usize) -> &[Accessor]
    ensures { result.now ≡ drop count accessors.now }
{
    if count <= accessors.len() {
        &accessors[count..]
    } else {
        &[]
    }
}

/// Element by element in row order: written, then constrained.
pub fn write_signal<C>(
    here: &Here<C>,
    arrow: Arrow,
    target: &Target,
    value: Datum,
    frame: &mut Frame,
    world: &mut World,
) -> Result<(), Fault>
    ensures { (k : M.Context) (x : W.Target) (qs : List Equation) → k.group_size ≡ group_size
        → IsFound (frame_of frame.old (counts_of world.old.added)) target.now x
        → Leads qs world.old frame.new world.new result
        (W.write_elements k (where_at here.now) arrow x x.reach.places (datum_of value).items
        (state_of frame.old world.old qs)) }
{
    let (first, count) = target.run();
    match value.into_contents() {
        Contents::Number(mut v) => {
            if count > 0 {
                return wire(here, arrow, target, first, &mut v, frame, world);
            }
            Ok(())
        }
        Contents::Items(items) => {
            wire_all(here, arrow, target, first, count, items, frame, world)
        }
    }
}

fn wire_all<C>(
    here: &Here<C>,
    arrow: Arrow,
    target: &Target,
    first: u64,
    count: u64,
    mut items: Vec<Value>,
    frame: &mut Frame,
    world: &mut World,
) -> Result<(), Fault>
    ensures { (k : M.Context) (r : AnyReach) (qs : List Equation) → k.group_size ≡ group_size
        → Leads qs world.old frame.new world.new result
        (W.write_elements k (where_at here.now) arrow (target_by target.now r)
        (numbers_from first count) (map meant items.items) (state_of frame.old world.old qs)) }
{
    for at in 0..items.len().min(count as usize) {
        let place = place_at(first, at as u64)?;
        wire(here, arrow, target, place, &mut items[at], frame, world)?;
    }
    Ok(())
}

/// The value is taken from its place only if it is constrained.
fn wire<C>(
    here: &Here<C>,
    arrow: Arrow,
    target: &Target,
    place: u64,
    v: &mut Value,
    frame: &mut Frame,
    world: &mut World,
) -> Result<(), Fault>
    ensures { (k : M.Context) (r : AnyReach) (qs : List Equation) → k.group_size ≡ group_size
        → Leads qs world.old frame.new world.new result
        (next (W.write_element (where_at here.now) (target_by target.now r) place
        (state_of frame.old world.old qs)) (λ (e, s). W.constrained_by k (where_at here.now) arrow
        (LinearValue (signal (e.first + place))) (meant v.old) s)) }
{
    let first = write_element(here.alloc(), &here.site(), target, place, frame)?;
    match arrow {
        Arrow::Assign => Ok(()),
        Arrow::Constrain => {
            let number = number_at(first, place)?;
            let left = signal_form(here.alloc(), number)?;
            constrain(here, Value::Linear(left), replace(v, Value::Opaque), world)
        }
    }
}

/// The place that stands so far behind the first.
fn place_at(first: u64, at: u64) -> Result<u64, TooLarge>
    ensures { IfOk result (λ place. place ≡ first + at) }
{
    first.checked_add(at).ok_or(TooLarge)
}

/// `left === right`
pub fn equal<C: Fn(Spot, u32, Vec<Datum>, &mut World) -> Result<Datum, Fault>>(
    here: &Here<C>,
    left: &Expr,
    right: &Expr,
    frame: &Frame,
    world: &mut World,
) -> Result<(), Fault>
    requires calls { C.IsAlwaysCallable here.now.context.now.call.now }
    ensures { (m : Means (C.post here.now.context.now.call.now) here.now.context.now)
        (qs : List Equation) → here.now.shaded ≡ false
        → Leads qs world.old frame.now world.new result
        (S.equal (context_at here.now m) (where_at here.now) (bare left.now) (bare right.now)
        (state_of frame.now world.old qs)) }
{
    let x = number(here, left, frame, world)?;
    let y = number(here, right, frame, world)?;
    constrain(here, x, y, world)?;
    let mut cost = Cost::new(here.alloc());
    cost.node();
    cost.add(here, left, frame, world)?;
    cost.add(here, right, frame, world)?;
    stepped(here, cost, 0, world)
}
