//! Expressions without their anonymous components.
ghost use Rattle.std.specs.Prelude.{◌≡◌, IfOk, map};
ghost use Rattle.cir_ast.specs.Tree.{bare, bare_exprs, bare_inputs, as_named, bare_anonymous};
ghost use Rattle.cir_ast.specs.Program.{bare_program};
ghost use Rattle.cir_meaning.specs.Anonymous as A;

use crate::copies;
use crate::made::{Own, create, outputs, write_inputs};
use cir_ast::program::{Anonymous, Expr, Inputs, NamedInput, Program, Simple};
use items::Items;
use std::alloc::{AllocError, Global};

/// The statements so far, and the number of the next component. The first components of the body
/// have names.
#[derive(Drop)]
pub struct Lifter<'p> {
    pub alloc: Global,
    pub program: &'p Program,
    pub first: u32,
    pub next: u32,
    pub before: Vec<Simple>,
}

impl Lifter<'_> {
    ghost use Rattle.cir_lift.specs.Lifts.{Lifts, outputs_of};

    /// An expression with outputs in the places of its anonymous components.
    #[cycle(lifting)]
    pub fn expr(&mut self, e: &Expr) -> Result<Expr, AllocError>
        ensures { IfOk result (Lifts bare self.old self.new
            (A.lift (bare_program self.old.program.now) self.old.first (bare e.now)
            self.old.next)) }
    {
        match e {
            Expr::Number(_) | Expr::Place(_) | Expr::Call(_, _, _, _) => {
                let e = copies::expr(self.alloc, e)?;
                Ok(e)
            }
            Expr::Anonymous(a) => {
                let outputs = self.outputs(a)?;
                Ok(only(outputs))
            }
            Expr::Parentheses(inner) => {
                let inner = self.boxed(inner)?;
                Ok(Expr::Parentheses(inner))
            }
            Expr::Array(elements) => {
                let elements = self.exprs(elements.as_slice())?;
                Ok(Expr::Array(elements))
            }
            Expr::Unary(op, a) => {
                let a = self.boxed(a)?;
                Ok(Expr::Unary(*op, a))
            }
            Expr::Binary(op, a, b) => {
                let a = self.boxed(a)?;
                let b = self.boxed(b)?;
                Ok(Expr::Binary(*op, a, b))
            }
            Expr::Choice(c, a, b) => {
                let c = self.boxed(c)?;
                let a = copies::boxed_copy(self.alloc, a)?;
                let b = copies::boxed_copy(self.alloc, b)?;
                Ok(Expr::Choice(c, a, b))
            }
        }
    }

    #[cycle(lifting)]
    fn boxed(&mut self, e: &Expr) -> Result<Box<Expr>, AllocError>
        ensures { IfOk result (Lifts (λ b. bare b.value) self.old self.new
            (A.lift (bare_program self.old.program.now) self.old.first (bare e.now)
            self.old.next)) }
    {
        let e = self.expr(e)?;
        let e = Box::new(self.alloc, e)?;
        Ok(e)
    }

    #[cycle(lifting)]
    pub fn exprs(&mut self, es: &[Expr]) -> Result<Items<Expr>, AllocError>
        ensures { IfOk result (Lifts bare_exprs self.old self.new
            (A.lift_all (bare_program self.old.program.now) self.old.first (bare_exprs es.now)
            self.old.next)) }
    {
        let mut lifted = Vec::with_capacity(self.alloc, es.len())?;
        for e in es {
            let e = self.expr(e)?;
            lifted.push(e)?;
        }
        Ok(Items::of(lifted))
    }

    /// Creates an anonymous component and writes its inputs, and gives its outputs.
    #[cycle(lifting)]
    pub fn outputs(&mut self, a: &Anonymous) -> Result<Vec<Expr>, AllocError>
        ensures { IfOk result (Lifts (λ v. map bare v.items) self.old self.new
            (outputs_of (bare_program self.old.program.now) self.old.first (bare_anonymous a.now)
            self.old.next)) }
    {
        let inputs = self.inputs(&a.inputs)?;
        let own = Own {
            index: self.next.saturating_sub(self.first),
            number: self.next,
        };
        create(self.alloc, own, a, &mut self.before)?;
        write_inputs(
            self.alloc,
            self.program,
            own,
            a.meant,
            inputs,
            &mut self.before,
        )?;
        let Some(next) = self.next.checked_add(1) else {
            return Err(AllocError);
        };
        let outputs = outputs(self.alloc, self.program, own, a.meant)?;
        self.next = next;
        Ok(outputs)
    }

    #[cycle(lifting)]
    fn inputs(&mut self, inputs: &Inputs) -> Result<Inputs, AllocError>
        ensures { IfOk result (Lifts bare_inputs self.old self.new
            (A.lift_inputs (bare_program self.old.program.now) self.old.first
            (bare_inputs inputs.now) self.old.next)) }
    {
        match inputs {
            Inputs::Listed(es) => {
                let es = self.exprs(es.as_slice())?;
                Ok(Inputs::Listed(es))
            }
            Inputs::Named(is) => {
                let is = self.named(is.as_slice())?;
                Ok(Inputs::Named(is))
            }
        }
    }

    #[cycle(lifting)]
    fn named(&mut self, inputs: &[NamedInput]) -> Result<Items<NamedInput>, AllocError>
        ensures { IfOk result (Lifts as_named self.old self.new
            (A.lift_named (bare_program self.old.program.now) self.old.first (as_named inputs.now)
            self.old.next)) }
    {
        let mut lifted = Vec::with_capacity(self.alloc, inputs.len())?;
        for i in inputs {
            let name = copies::text(self.alloc, &i.name)?;
            let value = self.expr(&i.value)?;
            lifted.push(NamedInput {
                name,
                arrow: i.arrow,
                value,
            })?;
        }
        Ok(Items::of(lifted))
    }

    /// The values of a tuple or of `_`: an anonymous component stands for all its outputs.
    pub fn values(&mut self, e: &Expr) -> Result<Vec<Expr>, AllocError>
        ensures { IfOk result (Lifts (λ v. map bare v.items) self.old self.new
            (A.lift_values (bare_program self.old.program.now) self.old.first (bare e.now)
            self.old.next)) }
    {
        match e {
            Expr::Parentheses(inner) => self.values(inner),
            Expr::Anonymous(a) => self.outputs(a),
            Expr::Number(_)
            | Expr::Place(_)
            | Expr::Call(_, _, _, _)
            | Expr::Array(_)
            | Expr::Unary(_, _)
            | Expr::Binary(_, _, _)
            | Expr::Choice(_, _, _) => {
                let e = self.expr(e)?;
                let values = vec![in self.alloc; e]?;
                Ok(values)
            }
        }
    }
}

/// As a value a component stands for its output.
fn only(outputs: Vec<Expr>) -> Expr
    ensures { bare result ≡ A.only (map bare outputs.items) }
{
    match outputs.into_iter().next() {
        Some(e) => e,
        None => Expr::Number(0),
    }
}
