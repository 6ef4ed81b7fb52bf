//! Constraints that two sides are equal. Each is a step, which compares them.
ghost use Rattle.std.specs.Prelude.{◌≡◌, ◌++◌, ◌∷◌, [], List, None, false, OnOk};
ghost use Rattle.cir_ast.specs.Tree.{bare};
ghost use Rattle.cir_frame.specs.Shown.{state_of};
ghost use Rattle.cir_meaning.specs.Source.{Equation};
ghost use Rattle.cir_meaning.specs.Costs.{Made as Key};
ghost use Rattle.cir_meaning.specs.Steps as M;
ghost use Rattle.cir_meaning.specs.Simple as X;
ghost use Rattle.cir_evaluate.specs.Within.{Means, at_spot, context_at, where_at};
ghost use Rattle.cir_assign.specs.Leads.{Leads};
ghost use Rattle.cir_steps.specs.Step as S;
ghost use Rattle.cir_steps.specs.Emission.{Emission, Emitted, known_in, step_of};
ghost use Rattle.cir_steps.specs.Emit as E;
ghost use Rattle.cir_make.specs.Emits.{Emits, go_on};
ghost use Rattle.cir_make.specs.Means.{BodyMeans, emitting_in};
ghost use Rattle.cir_make.specs.Shows.{IsKept, Shows};

use cir_arrays::{Datum, Fault};
use cir_assign::constrain;
use cir_ast::program::{Expr, Spot};
use cir_cost::{Cost, stepped};
use cir_evaluate::{Here, number};
use cir_frame::World;
use cir_make::{Body, Cast, Doing, Inside, Whole, plain_step};
use numbers::Numbers;

/// `left === right`
pub fn equal<C, M>(
    body: &Body<C, M>,
    spot: Spot,
    left: &Expr,
    right: &Expr,
    inside: &mut Inside,
    whole: &mut Whole,
) -> Result<(), Fault>
where
    C: Fn(Spot, u32, Vec<Datum>, &mut World) -> Result<Datum, Fault>,
    M: Fn(Spot, u32, Vec<Datum>, &[u8], &mut Whole) -> Result<Cast, Fault>,
    requires calls { C.IsAlwaysCallable body.now.context.now.call.now }
    requires makes { M.IsAlwaysCallable body.now.make.now }
    ensures { (m : BodyMeans (C.post body.now.context.now.call.now) (M.post body.now.make.now)
        body.now) (d : Emitted) → Shows m.first inside.old whole.old d
        → Emits m.first inside.new whole.new result
        (go_on d (E.emit_equal (emitting_in body.now m) (at_spot body.now.context.now spot)
        (bare left.now) (bare right.now))) }
{
    let here = body.context.here(spot);
    compare(&here, left, right, inside, whole)
}

/// The values are constrained, and the step is made.
fn compare<C: Fn(Spot, u32, Vec<Datum>, &mut World) -> Result<Datum, Fault>>(
    here: &Here<C>,
    left: &Expr,
    right: &Expr,
    inside: &mut Inside,
    whole: &mut Whole,
) -> Result<(), Fault>
    requires calls { C.IsAlwaysCallable here.now.context.now.call.now }
    ensures leads { (m : Means (C.post here.now.context.now.call.now) here.now.context.now)
        (qs : List Equation) → here.now.shaded ≡ false
        → Leads qs whole.old.world inside.new.frame whole.new.world result
        (X.equal (context_at here.now m) (where_at here.now) (bare left.now) (bare right.now)
        (state_of inside.old.frame whole.old.world qs)) }
    ensures kept { (m : Means (C.post here.now.context.now.call.now) here.now.context.now)
        (qs : List Equation) (first : List Key) (x : Emission) (steps : List S.Step)
        → here.now.shaded ≡ false
        → known_in x ≡ state_of inside.old.frame whole.old.world qs
        → IsKept first inside.old.frame inside.old.cells whole.old.made x steps
        → OnOk result (IsKept first inside.new.frame inside.new.cells whole.new.made x
        (steps ++ step_of (context_at here.now m) (where_at here.now) (known_in x)
        (M.equal_cost (context_at here.now m) (where_at here.now) (bare left.now)
        (bare right.now) (known_in x)) (S.Comparing (bare left.now) (bare right.now)) [] None
        x ∷ [])) }
{
    let x = number(here, left, &inside.frame, &mut whole.world)?;
    let y = number(here, right, &inside.frame, &mut whole.world)?;
    let targets = Numbers::new(here.alloc());
    plain_step(
        here,
        Doing::Compares(left, right),
        targets,
        &inside.frame,
        &mut inside.cells,
        &mut whole.made,
        &mut whole.world,
    )?;
    constrain(here, x, y, &mut whole.world)?;
    let mut cost = Cost::new(here.alloc());
    cost.node();
    cost.add(here, left, &inside.frame, &mut whole.world)?;
    cost.add(here, right, &inside.frame, &mut whole.world)?;
    stepped(here, cost, 0, &mut whole.world)
}
