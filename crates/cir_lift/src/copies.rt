//! Copies of trees.
ghost use Rattle.std.specs.Prelude.{◌≡◌, List, ◌∷◌, IfOk, map};
ghost use Rattle.cir_ast.specs.Tree.{bare, bare_inputs, bare_place, bare_anonymous, bare_assign};
ghost use Rattle.cir_ast.specs.Tree.{bare_component, bare_slot, bare_target, bare_value};
ghost use Rattle.cir_ast.specs.Tree.{bare_variable, bare_simple, as_accessors};
ghost use Rattle.cir_ast.specs.declared.marked.Accessor.{Accessor as CodeAccessor};
ghost use Rattle.cir_ast.specs.declared.program.Meant.{Meant as AnyMeant};
ghost use Rattle.cir_ast.specs.declared.marked.Simple.TheVariants as simple;

use cir_ast::Text;
use cir_ast::program::{
    Accessor, Anonymous, Assign, Components, DeclaredComponent, DeclaredVariable, Expr, Inputs,
    NamedInput, Place, Slot, Target,
};
use items::Items;
use std::alloc::{AllocError, Global};

pub fn text(alloc: Global, text: &Text) -> Result<Text, AllocError>
    ensures { IfOk result (λ r. r ≡ text.now) }
{
    Text::from_slice(alloc, text.as_slice())
}

/// Lets an expression go. Where a function would let several go, on its ways out, it calls this.
pub fn discard(_value: Expr) {}

/// A copy that a tree can hold.
#[cycle(copying)]
pub fn boxed_copy(alloc: Global, e: &Expr) -> Result<Box<Expr>, AllocError>
    ensures { IfOk result (λ r. bare r.value ≡ bare e.now) }
{
    let e = expr(alloc, e)?;
    let e = Box::new(alloc, e)?;
    Ok(e)
}

/// The same expression, in memory of its own.
#[cycle(copying)]
pub fn expr(alloc: Global, e: &Expr) -> Result<Expr, AllocError>
    ensures { IfOk result (λ r. bare r ≡ bare e.now) }
{
    match e {
        Expr::Number(n) => Ok(Expr::Number(*n)),
        Expr::Place(p) => {
            let p = place(alloc, p)?;
            Ok(Expr::Place(p))
        }
        Expr::Call(parallel, name, meant, arguments) => {
            let name = text(alloc, name)?;
            let arguments = exprs(alloc, arguments.as_slice())?;
            Ok(Expr::Call(*parallel, name, *meant, arguments))
        }
        Expr::Anonymous(a) => {
            let a = anonymous(alloc, a)?;
            let copy = Expr::anonymous(alloc, a)?;
            Ok(copy)
        }
        Expr::Parentheses(inner) => {
            let inner = boxed_copy(alloc, inner)?;
            Ok(Expr::Parentheses(inner))
        }
        Expr::Array(elements) => {
            let elements = exprs(alloc, elements.as_slice())?;
            Ok(Expr::Array(elements))
        }
        Expr::Unary(op, a) => {
            let a = boxed_copy(alloc, a)?;
            Ok(Expr::Unary(*op, a))
        }
        Expr::Binary(op, a, b) => {
            let a = boxed_copy(alloc, a)?;
            let b = boxed_copy(alloc, b)?;
            Ok(Expr::Binary(*op, a, b))
        }
        Expr::Choice(c, a, b) => {
            let c = boxed_copy(alloc, c)?;
            let a = boxed_copy(alloc, a)?;
            let b = boxed_copy(alloc, b)?;
            Ok(Expr::Choice(c, a, b))
        }
    }
}

#[cycle(copying)]
pub fn exprs(alloc: Global, es: &[Expr]) -> Result<Items<Expr>, AllocError>
    ensures { IfOk result (λ r. map bare r ≡ map bare es.now) }
{
    let mut copies = Vec::with_capacity(alloc, es.len())?;
    for e in es {
        let e = expr(alloc, e)?;
        copies.push(e)?;
    }
    Ok(Items::of(copies))
}

/// The same place, with copies of its name and of its indices and members.
#[cycle(copying)]
pub fn place(alloc: Global, p: &Place) -> Result<Place, AllocError>
    ensures { IfOk result (λ r. bare_place r ≡ bare_place p.now) }
{
    let name = text(alloc, &p.name)?;
    let accessors = accessors(alloc, p.accessors.as_slice())?;
    Ok(Place {
        name,
        meant: p.meant,
        accessors,
    })
}

/// The same indices and members, in their order.
#[cycle(copying)]
pub fn accessors(alloc: Global, list: &[Accessor]) -> Result<Items<Accessor>, AllocError>
    ensures { IfOk result (λ r. as_accessors r ≡ as_accessors list.now) }
{
    let mut copies = Vec::with_capacity(alloc, list.len())?;
    for a in list {
        let copy = accessor(alloc, a)?;
        copies.push(copy)?;
    }
    Ok(Items::of(copies))
}

#[cycle(copying)]
fn accessor(alloc: Global, a: &Accessor) -> Result<Accessor, AllocError>
    ensures { IfOk result (λ r. (rest : List (CodeAccessor AnyMeant))
        → as_accessors (r ∷ rest) ≡ as_accessors (a.now ∷ rest)) }
{
    match a {
        Accessor::Index(e) => {
            let e = expr(alloc, e)?;
            Ok(Accessor::Index(e))
        }
        Accessor::Member(member) => {
            let member = text(alloc, member)?;
            Ok(Accessor::Member(member))
        }
    }
}

#[cycle(copying)]
fn anonymous(alloc: Global, a: &Anonymous) -> Result<Anonymous, AllocError>
    ensures { IfOk result (λ r. bare_anonymous r ≡ bare_anonymous a.now) }
{
    let name = text(alloc, &a.name)?;
    let arguments = exprs(alloc, a.arguments.as_slice())?;
    let inputs = inputs(alloc, &a.inputs)?;
    Ok(Anonymous {
        parallel: a.parallel,
        name,
        meant: a.meant,
        arguments,
        inputs,
    })
}

#[cycle(copying)]
fn inputs(alloc: Global, given: &Inputs) -> Result<Inputs, AllocError>
    ensures { IfOk result (λ r. bare_inputs r ≡ bare_inputs given.now) }
{
    match given {
        Inputs::Listed(es) => {
            let es = exprs(alloc, es.as_slice())?;
            Ok(Inputs::Listed(es))
        }
        Inputs::Named(is) => {
            let mut copies = Vec::with_capacity(alloc, is.len())?;
            for i in is.as_slice() {
                let name = text(alloc, &i.name)?;
                let value = expr(alloc, &i.value)?;
                copies.push(NamedInput {
                    name,
                    arrow: i.arrow,
                    value,
                })?;
            }
            Ok(Inputs::Named(Items::of(copies)))
        }
    }
}

pub fn assign(alloc: Global, a: &Assign) -> Result<Assign, AllocError>
    ensures { IfOk result (λ r. bare_assign r ≡ bare_assign a.now) }
{
    match a {
        Assign::Set(p, e) => {
            let (p, e) = placed(alloc, p, e)?;
            Ok(Assign::Set(p, e))
        }
        Assign::Compound(p, op, e) => {
            let (p, e) = placed(alloc, p, e)?;
            Ok(Assign::Compound(p, *op, e))
        }
        Assign::Left(p, arrow, e) => {
            let (p, e) = placed(alloc, p, e)?;
            Ok(Assign::Left(p, *arrow, e))
        }
        Assign::Increment(p) => {
            let p = place(alloc, p)?;
            Ok(Assign::Increment(p))
        }
        Assign::Decrement(p) => {
            let p = place(alloc, p)?;
            Ok(Assign::Decrement(p))
        }
    }
}

/// A place, and what is put there.
fn placed(alloc: Global, p: &Place, e: &Expr) -> Result<(Place, Expr), AllocError>
    ensures place { IfOk result (λ r. bare_place r.0 ≡ bare_place p.now) }
    ensures value { IfOk result (λ r. bare r.1 ≡ bare e.now) }
{
    let p = place(alloc, p)?;
    let e = expr(alloc, e)?;
    Ok((p, e))
}

pub fn target(alloc: Global, t: &Target) -> Result<Target, AllocError>
    ensures { IfOk result (λ r. bare_target r ≡ bare_target t.now) }
{
    match t {
        Target::Discard => Ok(Target::Discard),
        Target::Tuple(slots) => {
            let mut copies = Vec::with_capacity(alloc, slots.len())?;
            for s in slots.as_slice() {
                let copy = slot(alloc, s)?;
                copies.push(copy)?;
            }
            Ok(Target::Tuple(Items::of(copies)))
        }
    }
}

fn slot(alloc: Global, s: &Slot) -> Result<Slot, AllocError>
    ensures { IfOk result (λ r. bare_slot r ≡ bare_slot s.now) }
{
    match s {
        Slot::Discard => Ok(Slot::Discard),
        Slot::Place(p) => {
            let p = place(alloc, p)?;
            Ok(Slot::Place(p))
        }
    }
}

pub fn variables(
    alloc: Global,
    vs: &[DeclaredVariable],
) -> Result<Items<DeclaredVariable>, AllocError>
    ensures { IfOk result (λ r. map bare_variable r ≡ map bare_variable vs.now) }
{
    let mut copies = Vec::with_capacity(alloc, vs.len())?;
    for v in vs {
        let copy = variable(alloc, v)?;
        copies.push(copy)?;
    }
    Ok(Items::of(copies))
}

fn variable(alloc: Global, v: &DeclaredVariable) -> Result<DeclaredVariable, AllocError>
    ensures { IfOk result (λ r. bare_variable r ≡ bare_variable v.now) }
{
    let name = text(alloc, &v.name)?;
    let dimensions = exprs(alloc, v.dimensions.as_slice())?;
    let value = value(alloc, &v.value)?;
    Ok(DeclaredVariable {
        name,
        meant: v.meant,
        dimensions,
        value,
    })
}

fn value(alloc: Global, value: &Option<Expr>) -> Result<Option<Expr>, AllocError>
    ensures { IfOk result (λ r. bare_value r ≡ bare_value value.now) }
{
    match value {
        None => Ok(None),
        Some(e) => {
            let e = expr(alloc, e)?;
            Ok(Some(e))
        }
    }
}

pub fn components(alloc: Global, cs: &Components) -> Result<Components, AllocError>
    ensures { IfOk result (λ r. bare_simple (simple.Components r)
        ≡ bare_simple (simple.Components cs.now)) }
{
    match cs {
        Components::Declared(cs) => {
            let mut copies = Vec::with_capacity(alloc, cs.len())?;
            for c in cs.as_slice() {
                let copy = component(alloc, c)?;
                copies.push(copy)?;
            }
            Ok(Components::Declared(Items::of(copies)))
        }
        Components::Created(name, meant, e) => {
            let name = text(alloc, name)?;
            let e = expr(alloc, e)?;
            Ok(Components::Created(name, *meant, e))
        }
    }
}

fn component(alloc: Global, c: &DeclaredComponent) -> Result<DeclaredComponent, AllocError>
    ensures { IfOk result (λ r. bare_component r ≡ bare_component c.now) }
{
    let name = text(alloc, &c.name)?;
    let dimensions = exprs(alloc, c.dimensions.as_slice())?;
    Ok(DeclaredComponent {
        name,
        meant: c.meant,
        dimensions,
    })
}
