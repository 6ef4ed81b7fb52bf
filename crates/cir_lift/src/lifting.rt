ghost use Rattle.std.specs.Prelude.{◌≡◌, [], IfOk, map};
ghost use Rattle.cir_ast.specs.Tree.{bare, bare_simple, bare_assign, bare_source, bare_target};
ghost use Rattle.cir_ast.specs.Tree.{bare_signal, bare_signal_value, place_accessors};
ghost use Rattle.cir_ast.specs.Tree.{Assigned, Left};
ghost use Rattle.cir_ast.specs.Tree.{Signals as BareSignals};
ghost use Rattle.cir_ast.specs.Tree.{TargetLeft as BareLeft, Values, One, Discard};
ghost use Rattle.cir_ast.specs.Program.{bare_program};
ghost use Rattle.cir_meaning.specs.Anonymous as A;
ghost use Rattle.cir_lift.specs.Lifts.{IsLifted};
ghost use Rattle.cir_lift.specs.Turned.{kept};

use crate::copies::{self, discard};
use crate::values::Lifter;
use cir_ast::program::{
    Arrow, Assign, DeclaredSignal, Expr, Place, Program, SignalValue, Signals, Simple, Source,
    Target, Vars,
};
use items::Items;
use std::alloc::{AllocError, Global};

/// A statement without anonymous components, and those that come before it.
pub struct Lifted {
    pub before: Vec<Simple>,
    pub value: Simple,
}

// Written out, so that the proof of an owner sees one call and not the drop of each part.
impl Drop for Lifted {
    fn drop(self) {
        let Lifted {
            before: _before,
            value: _value,
        } = self;
    }
}

fn lifter<'p>(alloc: Global, program: &'p Program, first: u32, next: u32) -> Lifter<'p>
    ensures program { result.program.now ≡ program.now }
    ensures first { result.first ≡ first }
    ensures next { result.next ≡ next }
    ensures before { result.before.items ≡ [] }
{
    Lifter {
        alloc,
        program,
        first,
        next,
        before: Vec::new(alloc),
    }
}

/// The statement without its anonymous components, in a body whose first components have names,
/// and where the next component has the number `next`.
pub fn lift_simple(
    alloc: Global,
    program: &Program,
    first: u32,
    next: u32,
    simple: &Simple,
) -> Result<Lifted, AllocError>
    ensures { IfOk result (IsLifted (A.lift_simple (bare_program program.now) first
        (bare_simple simple.now) next)) }
{
    let mut lifter = lifter(alloc, program, first, next);
    let value = lifter.simple(simple)?;
    let Lifter { before, .. } = lifter;
    Ok(Lifted { before, value })
}

/// The same of an assignment.
pub fn lift_assign(
    alloc: Global,
    program: &Program,
    first: u32,
    next: u32,
    assign: &Assign,
) -> Result<Lifted, AllocError>
    ensures { IfOk result (IsLifted (A.lift_simple (bare_program program.now) first
        (Assigned (bare_assign assign.now)) next)) }
{
    let mut lifter = lifter(alloc, program, first, next);
    let value = lifter.assign(assign)?;
    let Lifter { before, .. } = lifter;
    Ok(Lifted { before, value })
}

impl Lifter<'_> {
    ghost use Rattle.cir_lift.specs.Lifts.{Lifts, lift_signal};

    /// `e ==> p` is `p <== e`, and so for `-->` and for tuples. An anonymous component alone leaves
    /// nothing to do.
    fn simple(&mut self, simple: &Simple) -> Result<Simple, AllocError>
        ensures { IfOk result (Lifts bare_simple self.old self.new
            (A.lift_simple (bare_program self.old.program.now) self.old.first
            (bare_simple simple.now) self.old.next)) }
    {
        match simple {
            Simple::Vars(vars) => {
                let variables = copies::variables(self.alloc, vars.variables.as_slice())?;
                Ok(Simple::Vars(Vars { variables }))
            }
            Simple::Components(components) => {
                let components = copies::components(self.alloc, components)?;
                Ok(Simple::Components(components))
            }
            Simple::Signals(signals) => self.signals(signals),
            Simple::Assign(assign) => self.assign(assign),
            Simple::Constrain(a, b) => {
                let a = self.expr(a)?;
                match self.expr(b) {
                    Ok(b) => Ok(Simple::Constrain(a, b)),
                    Err(e) => {
                        discard(a);
                        Err(e)
                    }
                }
            }
            Simple::Right(e, arrow, place) => self.left(place, *arrow, e),
            Simple::TargetLeft(target, arrow, source) => self.tuple(target, *arrow, source),
            Simple::TargetRight(source, arrow, target) => self.tuple(target, *arrow, source),
            Simple::Anonymous(a) => {
                let _outputs = self.outputs(a)?;
                let nothing = Source::Tuple(Items::new(self.alloc));
                Ok(Simple::TargetLeft(Target::Discard, Arrow::Constrain, nothing))
            }
        }
    }

    fn assign(&mut self, assign: &Assign) -> Result<Simple, AllocError>
        ensures { IfOk result (Lifts bare_simple self.old self.new
            (A.lift_simple (bare_program self.old.program.now) self.old.first
            (Assigned (bare_assign assign.now)) self.old.next)) }
    {
        match assign {
            Assign::Left(place, arrow, e) => self.left(place, *arrow, e),
            Assign::Set(_, _)
            | Assign::Compound(_, _, _)
            | Assign::Increment(_)
            | Assign::Decrement(_) => {
                let assign = copies::assign(self.alloc, assign)?;
                Ok(Simple::Assign(assign))
            }
        }
    }

    fn left(&mut self, place: &Place, arrow: Arrow, e: &Expr) -> Result<Simple, AllocError>
        ensures { IfOk result (Lifts bare_simple self.old self.new
            (A.lift_simple (bare_program self.old.program.now) self.old.first
            (Assigned (Left place.now.name place.now.meant (place_accessors place.now) arrow
            (bare e.now))) self.old.next)) }
    {
        let place = copies::place(self.alloc, place)?;
        let e = self.expr(e)?;
        Ok(Simple::Assign(Assign::Left(place, arrow, e)))
    }

    fn signals(&mut self, signals: &Signals) -> Result<Simple, AllocError>
        ensures { IfOk result (Lifts bare_simple self.old self.new
            (A.lift_simple (bare_program self.old.program.now) self.old.first
            (BareSignals signals.now.direction (map bare_signal signals.now.signals))
            self.old.next)) }
    {
        let mut lifted = Vec::with_capacity(self.alloc, signals.signals.len())?;
        for signal in signals.signals.as_slice() {
            let signal = self.signal(signal)?;
            lifted.push(signal)?;
        }
        Ok(Simple::Signals(Signals {
            direction: signals.direction,
            signals: Items::of(lifted),
        }))
    }

    fn signal(&mut self, signal: &DeclaredSignal) -> Result<DeclaredSignal, AllocError>
        ensures { IfOk result (Lifts bare_signal self.old self.new
            (lift_signal (bare_program self.old.program.now) self.old.first
            (bare_signal signal.now) self.old.next)) }
    {
        let name = copies::text(self.alloc, &signal.name)?;
        let dimensions = copies::exprs(self.alloc, signal.dimensions.as_slice())?;
        let value = self.signal_value(&signal.value)?;
        Ok(DeclaredSignal {
            name,
            meant: signal.meant,
            dimensions,
            value,
        })
    }

    fn signal_value(&mut self, value: &SignalValue) -> Result<SignalValue, AllocError>
        ensures { IfOk result (Lifts bare_signal_value self.old self.new
            (A.lift_value (bare_program self.old.program.now) self.old.first
            (bare_signal_value value.now) self.old.next)) }
    {
        match value {
            SignalValue::Nothing => Ok(SignalValue::Nothing),
            SignalValue::Given(arrow, e) => {
                let e = self.expr(e)?;
                Ok(SignalValue::Given(*arrow, e))
            }
        }
    }

    fn tuple(
        &mut self,
        target: &Target,
        arrow: Arrow,
        source: &Source,
    ) -> Result<Simple, AllocError>
        ensures { IfOk result (Lifts bare_simple self.old self.new
            (A.lift_simple (bare_program self.old.program.now) self.old.first
            (BareLeft (bare_target target.now) arrow (bare_source source.now)) self.old.next)) }
    {
        let values = self.source(target, source)?;
        let target = copies::target(self.alloc, target)?;
        Ok(Simple::TargetLeft(target, arrow, Source::Tuple(values)))
    }

    fn source(&mut self, target: &Target, source: &Source) -> Result<Items<Expr>, AllocError>
        ensures { IfOk result (Lifts (λ es. Values (map bare es)) self.old self.new
            (A.lift_source (bare_program self.old.program.now) self.old.first
            (bare_target target.now) (bare_source source.now) self.old.next)) }
    {
        match source {
            Source::Tuple(es) => {
                let elements = self.exprs(es.as_slice())?;
                Ok(elements)
            }
            Source::One(e) => {
                let values = self.single(target, e)?;
                Ok(values)
            }
        }
    }

    /// The source is one value.
    fn single(&mut self, target: &Target, e: &Expr) -> Result<Items<Expr>, AllocError>
        ensures { IfOk result (Lifts (λ es. Values (map bare es)) self.old self.new
            (A.lift_source (bare_program self.old.program.now) self.old.first
            (bare_target target.now) (One (bare e.now)) self.old.next)) }
    {
        match target {
            Target::Tuple(_) => {
                let values = self.values(e)?;
                Ok(Items::of(values))
            }
            Target::Discard => {
                let kept = self.dropped(e)?;
                Ok(kept)
            }
        }
    }

    /// What `_` drops isn't read of an anonymous component.
    fn dropped(&mut self, e: &Expr) -> Result<Items<Expr>, AllocError>
        ensures { IfOk result (Lifts (λ es. Values (map bare es)) self.old self.new
            (A.lift_source (bare_program self.old.program.now) self.old.first Discard
            (One (bare e.now)) self.old.next)) }
    {
        let x = self.expr(e)?;
        let values = kept(self.alloc, e, x)?;
        Ok(values)
    }
}

/// What `_` reads of this value of an expression.
fn kept(alloc: Global, e: &Expr, value: Expr) -> Result<Items<Expr>, AllocError>
    ensures { IfOk result (λ es. map bare es ≡ kept (bare e.now) (bare value)) }
{
    match e {
        Expr::Parentheses(inner) => kept(alloc, inner, value),
        Expr::Anonymous(_) => {
            discard(value);
            Ok(Items::new(alloc))
        }
        Expr::Number(_)
        | Expr::Place(_)
        | Expr::Call(_, _, _, _)
        | Expr::Array(_)
        | Expr::Unary(_, _)
        | Expr::Binary(_, _, _)
        | Expr::Choice(_, _, _) => {
            let values = vec![in alloc; value]?;
            Ok(Items::of(values))
        }
    }
}
