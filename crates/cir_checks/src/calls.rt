//! The faults of names, and of calls at the called name.
ghost use Rattle.std.specs.Prelude.{◌≡◌};
ghost use Rattle.cir_ast.specs.Tree.{as_accessors};
ghost use Rattle.cir_checks.specs.Faults.{unless};
ghost use Rattle.cir_checks.specs.Uses.{members, name_fault, call_fault, anonymous_fault};
ghost use Rattle.cir_checks.specs.Uses.{inputs_in};
ghost use Rattle.cir_checks.specs.Answers.{Tells, callee_in};

use crate::positions::Room;
use crate::stop::{Checked, Stop};
use crate::table::Callee;
use cir_ast::Kind;
use cir_ast::program::{Accessor, Direction, Meant};

/// How a name is used.
#[derive(Clone, Copy)]
pub enum Access {
    Read,
    /// By `=` and its kin.
    Write,
    /// By an arrow.
    Drive,
}

/// A fault where this doesn't hold.
pub(crate) fn unless(holds: bool, kind: Kind) -> Checked
    ensures { Tells result (unless holds kind) }
{
    if holds { Ok(()) } else { Err(Stop::At(kind)) }
}

/// How many members stand behind a name.
pub(crate) fn members(accessors: &[Accessor]) -> usize
    ensures { result ≡ members (as_accessors accessors.now) }
{
    let mut members = 0;
    for accessor in accessors {
        if let Accessor::Member(_) = accessor {
            members += 1;
        }
    }
    members
}

/// The fault of a name that is used so, with so many members behind it.
pub(crate) fn name_fault(meant: Meant, access: Access, dots: usize) -> Checked
    ensures { Tells result (name_fault meant access dots) }
{
    match (meant, access) {
        (Meant::Other, _) => Err(Stop::At(Kind::UnknownName)),
        (Meant::Variable(_), Access::Read | Access::Write)
        | (Meant::Signal(_, _), Access::Read)
        | (Meant::Signal(Direction::Inner | Direction::Output, _), Access::Drive) => {
            unless(dots == 0, Kind::WrongKind)
        }
        (Meant::Component(_), Access::Read | Access::Drive) => unless(dots == 1, Kind::WrongKind),
        _ => Err(Stop::At(Kind::WrongKind)),
    }
}

impl Callee<'_, '_> {
    /// The fault of a call, for a component or for its value.
    pub(crate) fn call(&self, component: bool, arguments: usize) -> Checked
        ensures { Tells result (call_fault (callee_in self.now) component arguments) }
    {
        match self {
            Callee::Unknown => Err(Stop::At(Kind::UnknownName)),
            Callee::OnlyDeclared => Err(Stop::At(Kind::WrongKind)),
            Callee::Function(parameters) => {
                unless(arguments == *parameters, Kind::Arity)?;
                unless(!component, Kind::WrongKind)
            }
            Callee::Template(head) => {
                unless(arguments == head.parameters, Kind::Arity)?;
                unless(component, Kind::WrongKind)
            }
        }
    }

    /// The fault of an anonymous component, once it is called.
    pub(crate) fn anonymous(&self, room: Room, whole: bool, inputs: usize) -> Checked
        ensures { Tells result (anonymous_fault (callee_in self.now) room whole inputs) }
    {
        match self {
            Callee::Template(head) => {
                unless(inputs == head.input_count, Kind::Arity)?;
                unless(whole || head.outputs == 1, Kind::WrongKind)?;
                room.fault()
            }
            _ => Ok(()),
        }
    }

    pub(crate) fn has_input(&self, name: &[u8]) -> bool
        ensures { result ≡ inputs_in (callee_in self.now) name.now }
    {
        match self {
            Callee::Template(head) => head.inputs.contains(name),
            _ => false,
        }
    }
}
