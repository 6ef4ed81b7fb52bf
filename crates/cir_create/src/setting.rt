//! What is written by `=`.
ghost use Rattle.std.specs.Prelude.{ℕ, List};
ghost use Rattle.cir_ast.specs.Tree.{as_accessors};
ghost use Rattle.cir_frame.specs.Shown.{state_of};
ghost use Rattle.cir_meaning.specs.Source.{Equation};
ghost use Rattle.cir_meaning.specs.Simple as S;
ghost use Rattle.cir_evaluate.specs.Within.{at_spot};
ghost use Rattle.cir_assign.specs.Leads.{Leads};
ghost use Rattle.cir_create.specs.Makes.{BodyMeans, context_in};
ghost use Rattle.cir_assign.specs.Given.{IsPlaceOf, given_by, written_by};

use crate::body::Body;
use crate::creating::create;
use cir_arrays::{Datum, Fault};
use cir_assign::{Given, Placed, Written, set_variable};
use cir_ast::Kind;
use cir_ast::program::{Meant, Spot};
use cir_frame::{Frame, SignalEntry, World};

/// `=` writes a variable, and creates a component.
pub fn set<C, M>(
    body: &Body<C, M>,
    spot: Spot,
    p: &Placed,
    frame: &mut Frame,
    world: &mut World,
) -> Result<(), Fault>
where
    C: Fn(Spot, u32, Vec<Datum>, &mut World) -> Result<Datum, Fault>,
    M: Fn(Spot, u32, Vec<Datum>, &[u8], &mut World) -> Result<Vec<Option<SignalEntry>>, Fault>,
    requires calls { C.IsAlwaysCallable body.now.context.now.call.now }
    requires makes { M.IsAlwaysCallable body.now.make.now }
    ensures { (m : BodyMeans (C.post body.now.context.now.call.now) (M.post body.now.make.now)
        body.now) (name : List ℕ) (qs : List Equation) →
        IsPlaceOf name p.now.meant p.now.accessors.now p.now.given
        → Leads qs world.old frame.new world.new result
        (S.set (context_in body.now m) (at_spot body.now.context.now spot)
        (written_by name p.now.meant p.now.accessors.now p.now.given) p.now.meant
        (as_accessors p.now.accessors.now) (given_by p.now.given)
        (state_of frame.old world.old qs)) }
{
    let here = body.context.here(spot);
    match p.meant {
        Meant::Variable(variable) => {
            let w = Written {
                variable,
                accessors: p.accessors,
                given: p.given,
            };
            set_variable(&here, &w, frame, world)
        }
        Meant::Component(n) => match p.given {
            Given::Plain(e) => create(body, spot, n, p.accessors, e, frame, world),
            Given::Compound(_, _, _) | Given::Increment(_) | Given::Decrement(_) => {
                Err(here.refused(Kind::WrongKind))
            }
        },
        Meant::Other | Meant::Signal(_, _) | Meant::Template(_) | Meant::Function(_) => {
            Err(here.refused(Kind::WrongKind))
        }
    }
}
