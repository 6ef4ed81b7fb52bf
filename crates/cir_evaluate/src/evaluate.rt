//! The value of an expression where it stands. Operands, arguments and indices go from left to
//! right.
ghost use Rattle.std.specs.Prelude.{◌≡◌, true, [], List, map, IfOk, Ok};
ghost use Rattle.cir_ast.specs.declared.refusal.Form.TheVariants.{LiteralPlace};
ghost use Rattle.cir_ast.specs.declared.refusal.Kind.TheVariants.{NotInProfile, ShapeDiffers};
ghost use Rattle.cir_ast.specs.Tree.{bare, bare_exprs, place_accessors};
ghost use Rattle.cir_values.specs.Meant.{meant};
ghost use Rattle.cir_frame.specs.declared.frame.Frame.{Frame as AnyFrame};
ghost use Rattle.cir_arrays.specs.Reached.{want_of};
ghost use Rattle.cir_arrays.specs.Stopped.{Gives, Refuses};
ghost use Rattle.cir_arrays.specs.Shown.{datum_of};
ghost use Rattle.cir_frame.specs.Shown.{state_of};
ghost use Rattle.cir_meaning.specs.Arrays.{Scalar, Whole, fits, single};
ghost use Rattle.cir_meaning.specs.Source.{Equation};
ghost use Rattle.cir_meaning.specs.Reading.{Named, read_origin};
ghost use Rattle.cir_meaning.specs.Tried.{needed};
ghost use Rattle.cir_meaning.specs.Evaluate as E;
ghost use Rattle.cir_evaluate.specs.Within.{Means, context_at, kept_of, where_at};
ghost use Rattle.cir_frame.specs.Read.{origin_from};
ghost use Rattle.cir_evaluate.specs.Parts.{Locates, looked_in};

use crate::context::{Here, reading};
use crate::literal::{gathered, is_each_known};
use crate::operands::{
    Look, applied, chosen, number_told, op_of, right_look, side_looks, side_told,
};
use cir_arrays::{Datum, Fault, Want};
use cir_ast::program::{Accessor, Expr, Meant, Place, Spot};
use cir_ast::{Form, Kind};
use cir_frame::{Frame, Root, Source, World, inner_source, read_datum, read_number, source_of};
use cir_rules::has_literal;
use cir_values::{Value, unary_result};
use gold_field::Gold;

/// The number that an expression is.
#[cycle(evaluating)]
pub fn number<C: Fn(Spot, u32, Vec<Datum>, &mut World) -> Result<Datum, Fault>>(
    here: &Here<C>,
    e: &Expr,
    frame: &Frame,
    world: &mut World,
) -> Result<Value, Fault>
    requires calls { C.IsAlwaysCallable here.now.context.now.call.now }
    ensures value { (m : Means (C.post here.now.context.now.call.now) here.now.context.now)
        (qs : List Equation)
        → Gives (λ v. (single (meant v), state_of frame.now world.new qs)) result
        (E.value_in (context_at here.now m) (where_at here.now) here.now.shaded
        Scalar (bare e.now) (state_of frame.now world.old qs)) }
    ensures keeps { Means (C.post here.now.context.now.call.now) here.now.context.now
        → kept_of world.new ≡ kept_of world.old }
{
    match e {
        Expr::Number(n) => Ok(Value::Known(Gold::from_wide(*n))),
        Expr::Place(place) => {
            let located = locate(here, place, frame, world)?;
            number_at(here, located)
        }
        Expr::Call(_, _, meant, arguments) => {
            let all = data(here, arguments.as_slice(), frame, world)?;
            let d = called(here, Want::Scalar, *meant, arguments.as_slice(), all, world)?;
            Ok(d.into_item())
        }
        Expr::Anonymous(_) => Err(here.refused(Kind::WrongKind)),
        Expr::Parentheses(inner) => number(here, inner, frame, world),
        Expr::Array(_) => Err(literal_place(here)),
        Expr::Unary(op, a) => {
            let x = number(here, a, frame, world)?;
            let v = unary_result(here.alloc(), op_of(*op), x)?;
            Ok(v)
        }
        Expr::Binary(op, a, b) => {
            let x = number(here, a, frame, world)?;
            let y = looked_at(here, right_look(*op, &x), b, frame, world)?;
            applied(here, *op, x, y)
        }
        Expr::Choice(c, a, b) => {
            let x = number(here, c, frame, world)?;
            let side = side_told(x);
            let (first, second) = side_looks(side);
            let y = looked_at(here, first, a, frame, world)?;
            let z = looked_at(here, second, b, frame, world)?;
            Ok(chosen(side, y, z))
        }
    }
}

/// The number or the array that an expression is.
#[cycle(evaluating)]
pub fn datum<C: Fn(Spot, u32, Vec<Datum>, &mut World) -> Result<Datum, Fault>>(
    here: &Here<C>,
    e: &Expr,
    frame: &Frame,
    world: &mut World,
) -> Result<Datum, Fault>
    requires calls { C.IsAlwaysCallable here.now.context.now.call.now }
    ensures value { (m : Means (C.post here.now.context.now.call.now) here.now.context.now)
        (qs : List Equation) → Gives (λ d. (datum_of d, state_of frame.now world.new qs)) result
        (E.value_in (context_at here.now m) (where_at here.now) here.now.shaded
        Whole (bare e.now) (state_of frame.now world.old qs)) }
    ensures keeps { Means (C.post here.now.context.now.call.now) here.now.context.now
        → kept_of world.new ≡ kept_of world.old }
{
    match e {
        Expr::Place(place) => {
            let located = locate(here, place, frame, world)?;
            datum_at(here, located)
        }
        Expr::Call(_, _, meant, arguments) => {
            let all = data(here, arguments.as_slice(), frame, world)?;
            called(here, Want::Whole, *meant, arguments.as_slice(), all, world)
        }
        Expr::Parentheses(inner) => datum(here, inner, frame, world),
        Expr::Array(elements) => {
            let items = data(here, elements.as_slice(), frame, world)?;
            gathered(here, items, world)
        }
        Expr::Number(_)
        | Expr::Anonymous(_)
        | Expr::Unary(_, _)
        | Expr::Binary(_, _, _)
        | Expr::Choice(_, _, _) => {
            let v = number(here, e, frame, world)?;
            Ok(Datum::Number(v))
        }
    }
}

/// Arguments and elements may be arrays.
#[cycle(evaluating)]
pub fn data<C: Fn(Spot, u32, Vec<Datum>, &mut World) -> Result<Datum, Fault>>(
    here: &Here<C>,
    es: &[Expr],
    frame: &Frame,
    world: &mut World,
) -> Result<Vec<Datum>, Fault>
    requires calls { C.IsAlwaysCallable here.now.context.now.call.now }
    ensures value { (m : Means (C.post here.now.context.now.call.now) here.now.context.now)
        (qs : List Equation)
        → Gives (λ ds. (map datum_of ds.items, state_of frame.now world.new qs)) result
        (E.all_in (context_at here.now m) (where_at here.now) here.now.shaded
        (bare_exprs es.now) (state_of frame.now world.old qs)) }
    ensures keeps { Means (C.post here.now.context.now.call.now) here.now.context.now
        → kept_of world.new ≡ kept_of world.old }
{
    let mut all = Vec::with_capacity(here.alloc(), es.len())?;
    for e in es {
        let d = datum(here, e, frame, world)?;
        all.push(d)?;
    }
    Ok(all)
}

/// The number of an operand, by how it is looked at. One that is skipped counts as 0.
#[cycle(evaluating)]
fn looked_at<C: Fn(Spot, u32, Vec<Datum>, &mut World) -> Result<Datum, Fault>>(
    here: &Here<C>,
    look: Look,
    e: &Expr,
    frame: &Frame,
    world: &mut World,
) -> Result<Value, Fault>
    requires calls { C.IsAlwaysCallable here.now.context.now.call.now }
    ensures value { (m : Means (C.post here.now.context.now.call.now) here.now.context.now)
        (qs : List Equation)
        → Gives (λ v. (single (meant v), state_of frame.now world.new qs)) result
        (looked_in (context_at here.now m) (where_at here.now) here.now.shaded look (bare e.now)
        (state_of frame.now world.old qs)) }
    ensures keeps { Means (C.post here.now.context.now.call.now) here.now.context.now
        → kept_of world.new ≡ kept_of world.old }
{
    match look {
        Look::Skipped => Ok(Value::Known(Gold::ZERO)),
        Look::Plain => number(here, e, frame, world),
        Look::Dark => number(&here.dark(), e, frame, world),
    }
}

/// A call of a function whose arguments are known is made at once. Another call is an opaque
/// number, and takes no literal.
fn called<C: Fn(Spot, u32, Vec<Datum>, &mut World) -> Result<Datum, Fault>>(
    here: &Here<C>,
    want: Want,
    meant: Meant,
    arguments: &[Expr],
    all: Vec<Datum>,
    world: &mut World,
) -> Result<Datum, Fault>
    requires calls { C.IsAlwaysCallable here.now.context.now.call.now }
    ensures value { (m : Means (C.post here.now.context.now.call.now) here.now.context.now)
        (f : AnyFrame) (qs : List Equation)
        → Gives (λ d. (datum_of d, state_of f world.new qs)) result
        (E.called (context_at here.now m) (where_at here.now) (want_of want) meant
        (bare_exprs arguments.now) (map datum_of all.items) (state_of f world.old qs)) }
    ensures keeps { Means (C.post here.now.context.now.call.now) here.now.context.now
        → kept_of world.new ≡ kept_of world.old }
    ensures fits { IfOk result (λ d. fits (want_of want) (datum_of d).dims ≡ true) }
{
    if is_each_known(all.as_slice()) {
        call_known(here, want, meant, all, world)
    } else if has_literal(arguments) {
        Err(literal_place(here))
    } else {
        Ok(Datum::Number(Value::Opaque))
    }
}

fn call_known<C: Fn(Spot, u32, Vec<Datum>, &mut World) -> Result<Datum, Fault>>(
    here: &Here<C>,
    want: Want,
    meant: Meant,
    all: Vec<Datum>,
    world: &mut World,
) -> Result<Datum, Fault>
    requires calls { C.IsAlwaysCallable here.now.context.now.call.now }
    ensures value { (m : Means (C.post here.now.context.now.call.now) here.now.context.now)
        (f : AnyFrame) (qs : List Equation)
        → Gives (λ d. (datum_of d, state_of f world.new qs)) result
        (E.call_known (context_at here.now m) (where_at here.now) (want_of want) meant
        (map datum_of all.items) (state_of f world.old qs)) }
    ensures keeps { Means (C.post here.now.context.now.call.now) here.now.context.now
        → kept_of world.new ≡ kept_of world.old }
    ensures fits { IfOk result (λ d. fits (want_of want) (datum_of d).dims ≡ true) }
{
    match meant {
        Meant::Function(f) => {
            let d = (here.context.call)(here.spot, f, all, world)?;
            fitted(here, want, d)
        }
        Meant::Other
        | Meant::Variable(_)
        | Meant::Signal(_, _)
        | Meant::Component(_)
        | Meant::Template(_) => Err(here.refused(Kind::WrongKind)),
    }
}

/// A number is given where one is wanted.
fn fitted<C>(here: &Here<C>, want: Want, d: Datum) -> Result<Datum, Fault>
    ensures value { Gives datum_of result (needed (fits (want_of want) (datum_of d).dims)
        (where_at here.now) ShapeDiffers (Ok (datum_of d))) }
    ensures fits { IfOk result (λ d. fits (want_of want) (datum_of d).dims ≡ true) }
{
    if want.fits(d.dims()) {
        Ok(d)
    } else {
        Err(here.refused(Kind::ShapeDiffers))
    }
}

fn literal_place<C>(here: &Here<C>) -> Fault
    ensures { Refuses (where_at here.now) (NotInProfile LiteralPlace) result }
{
    let form = Form::LiteralPlace;
    here.refused(Kind::NotInProfile { form })
}

/// What a place means, and the indices that are left.
#[derive(Drop)]
pub struct Located<'f> {
    pub source: Source<'f>,
    pub indices: Vec<Option<u64>>,
}

#[cycle(evaluating)]
fn locate<'f, C: Fn(Spot, u32, Vec<Datum>, &mut World) -> Result<Datum, Fault>>(
    here: &Here<C>,
    place: &Place,
    frame: &'f Frame,
    world: &mut World,
) -> Result<Located<'f>, Fault>
    requires calls { C.IsAlwaysCallable here.now.context.now.call.now }
    ensures value { (m : Means (C.post here.now.context.now.call.now) here.now.context.now)
        (qs : List Equation) → Locates (where_at here.now) here.now.shaded
        (state_of frame.now world.new qs) result (λ want.
        E.read_in (context_at here.now m) (where_at here.now) here.now.shaded want
        (Named place.now.meant) [] (place_accessors place.now) (state_of frame.now world.old qs)) }
    ensures keeps { Means (C.post here.now.context.now.call.now) here.now.context.now
        → kept_of world.new ≡ kept_of world.old }
{
    let alloc = here.alloc();
    let site = here.site();
    let mut root = Root::Named(place.meant);
    let mut indices = Vec::new(alloc);
    for accessor in place.accessors.as_slice() {
        match accessor {
            Accessor::Index(e) => {
                let x = number(here, e, frame, world)?;
                indices.push(number_told(x))?;
            }
            Accessor::Member(name) => {
                let r = reading(&site, here.shaded, indices.as_slice());
                let source = inner_source(alloc, &r, root, name.as_slice(), frame)?;
                root = Root::Found(source);
                indices = Vec::new(alloc);
            }
        }
    }
    let source = source_of(alloc, &site, root, frame)?;
    Ok(Located { source, indices })
}

/// The number that stands at a place.
pub fn place_number<C: Fn(Spot, u32, Vec<Datum>, &mut World) -> Result<Datum, Fault>>(
    here: &Here<C>,
    place: &Place,
    frame: &Frame,
    world: &mut World,
) -> Result<Value, Fault>
    requires calls { C.IsAlwaysCallable here.now.context.now.call.now }
    ensures value { (m : Means (C.post here.now.context.now.call.now) here.now.context.now)
        (qs : List Equation)
        → Gives (λ v. (single (meant v), state_of frame.now world.new qs)) result
        (E.read_in (context_at here.now m) (where_at here.now) here.now.shaded
        Scalar (Named place.now.meant) [] (place_accessors place.now)
        (state_of frame.now world.old qs)) }
    ensures keeps { Means (C.post here.now.context.now.call.now) here.now.context.now
        → kept_of world.new ≡ kept_of world.old }
{
    let located = locate(here, place, frame, world)?;
    number_at(here, located)
}

fn number_at<C>(here: &Here<C>, located: Located) -> Result<Value, Fault>
    ensures { Gives (λ v. single (meant v)) result (read_origin (where_at here.now) here.now.shaded
        Scalar located.entry.indices.items (origin_from located.entry.source)) }
{
    let Located { source, indices } = located;
    let site = here.site();
    let r = reading(&site, here.shaded, indices.as_slice());
    read_number(here.alloc(), source, &r)
}

fn datum_at<C>(here: &Here<C>, located: Located) -> Result<Datum, Fault>
    ensures { Gives datum_of result (read_origin (where_at here.now) here.now.shaded
        Whole located.entry.indices.items (origin_from located.entry.source)) }
{
    let Located { source, indices } = located;
    let site = here.site();
    let r = reading(&site, here.shaded, indices.as_slice());
    read_datum(here.alloc(), source, &r)
}
