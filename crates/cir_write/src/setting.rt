//! What is written by `=`.
ghost use Rattle.std.specs.Prelude.{ℕ, List};
ghost use Rattle.cir_ast.specs.Tree.{as_accessors};
ghost use Rattle.cir_assign.specs.Given.{IsPlaceOf, given_by, written_by};
ghost use Rattle.cir_evaluate.specs.Within.{at_spot};
ghost use Rattle.cir_steps.specs.Emission.{Emitted};
ghost use Rattle.cir_steps.specs.Emit as E;
ghost use Rattle.cir_make.specs.Emits.{Emits, go_on};
ghost use Rattle.cir_make.specs.Means.{BodyMeans, emitting_in};
ghost use Rattle.cir_make.specs.Shows.{Shows};

use crate::assigning::set_variable;
use crate::creating::create;
use cir_arrays::{Datum, Fault};
use cir_assign::{Given, Placed, Written};
use cir_ast::Kind;
use cir_ast::program::{Meant, Spot};
use cir_frame::World;
use cir_make::{Body, Cast, Inside, Whole};

/// `=` writes a variable, and creates a component.
pub fn set<C, M>(
    body: &Body<C, M>,
    spot: Spot,
    p: &Placed,
    inside: &mut Inside,
    whole: &mut Whole,
) -> Result<(), Fault>
where
    C: Fn(Spot, u32, Vec<Datum>, &mut World) -> Result<Datum, Fault>,
    M: Fn(Spot, u32, Vec<Datum>, &[u8], &mut Whole) -> Result<Cast, Fault>,
    requires calls { C.IsAlwaysCallable body.now.context.now.call.now }
    requires makes { M.IsAlwaysCallable body.now.make.now }
    ensures { (m : BodyMeans (C.post body.now.context.now.call.now) (M.post body.now.make.now)
        body.now) (name : List ℕ) (d : Emitted)
        → IsPlaceOf name p.now.meant p.now.accessors.now p.now.given
        → Shows m.first inside.old whole.old d
        → Emits m.first inside.new whole.new result
        (go_on d (E.emit_set_place (emitting_in body.now m) (at_spot body.now.context.now spot)
        (written_by name p.now.meant p.now.accessors.now p.now.given) p.now.meant
        (as_accessors p.now.accessors.now) (given_by p.now.given))) }
{
    match p.meant {
        Meant::Variable(variable) => {
            let w = Written {
                variable,
                accessors: p.accessors,
                given: p.given,
            };
            set_variable(body, spot, &w, inside, whole)
        }
        Meant::Component(n) => match p.given {
            Given::Plain(e) => create(body, spot, n, p.accessors, e, inside, whole),
            Given::Compound(_, _, _) | Given::Increment(_) | Given::Decrement(_) => {
                Err(body.context.here(spot).refused(Kind::WrongKind))
            }
        },
        Meant::Other | Meant::Signal(_, _) | Meant::Template(_) | Meant::Function(_) => {
            Err(body.context.here(spot).refused(Kind::WrongKind))
        }
    }
}
