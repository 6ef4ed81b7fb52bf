//! The faults of expressions.
ghost use Rattle.std.specs.Prelude.{◌≡◌};
ghost use Rattle.cir_ast.specs.Tree.{bare, bare_exprs, bare_inputs, as_accessors, as_named};
ghost use Rattle.cir_ast.specs.Tree.{place_accessors};
ghost use Rattle.cir_checks.specs.Faults.{no_names};
ghost use Rattle.cir_checks.specs.Uses.{inputs_count, inputs_in, value_fault, values_fault};
ghost use Rattle.cir_checks.specs.Uses.{accessors_fault, named_fault, place_fault, is_call};
ghost use Rattle.cir_checks.specs.Uses.{called_fault, nameless_fault, whole_fault, component_fault};
ghost use Rattle.cir_checks.specs.Answers.{Finds, table_in, callee_in};

use crate::calls::{Access, members, name_fault, unless};
use crate::name_set::NameSet;
use crate::positions::Room;
use crate::stop::{Checked, Stop};
use crate::table::{Callee, Table};
use cir_ast::Kind;
use cir_ast::program::{Accessor, Anonymous, Expr, Inputs, Meant, NamedInput, Place};

#[tactic(auto, using(crate::proofs::Seen::seen))]
fn inputs_count(inputs: &Inputs) -> usize
    ensures { result ≡ inputs_count (bare_inputs inputs.now) }
{
    match inputs {
        Inputs::Listed(values) => values.len(),
        Inputs::Named(inputs) => inputs.len(),
    }
}

/// Whether an expression is a call, of a template as far as it is known.
pub(crate) fn is_call(expression: &Expr) -> bool
    ensures { result ≡ is_call (bare expression.now) }
{
    match expression {
        Expr::Call(_, _, _, _) => true,
        Expr::Anonymous(_) => true,
        Expr::Parentheses(inner) => is_call(inner),
        _ => false,
    }
}

#[tactic(auto, using(crate::proofs::Seen::seen))]
impl Table<'_> {
    #[cycle(values)]
    pub(crate) fn value(&self, room: Room, expression: &Expr) -> Checked
        ensures { Finds result (value_fault (table_in self.now) room (bare expression.now)) }
    {
        match expression {
            Expr::Number(_) => Ok(()),
            Expr::Place(place) => self.place(room, Access::Read, place),
            Expr::Call(_, _, meant, arguments) => {
                self.called(room, false, *meant, arguments.as_slice())
            }
            Expr::Anonymous(anonymous) => self.anonymous(room, false, anonymous),
            Expr::Parentheses(inner) => self.value(room, inner),
            Expr::Array(elements) => self.values(room, elements.as_slice()),
            Expr::Unary(_, operand) => self.value(room, operand),
            Expr::Binary(operator, left, right) => {
                self.value(room, left)?;
                self.value(room.on_the_right(*operator), right)
            }
            Expr::Choice(condition, chosen, other) => {
                self.value(room, condition)?;
                self.value(room.inward(), chosen)?;
                self.value(room.inward(), other)
            }
        }
    }

    /// A place that is used so.
    #[cycle(values)]
    pub(crate) fn place(&self, room: Room, access: Access, place: &Place) -> Checked
        ensures { Finds result (place_fault (table_in self.now) room access place.now.meant
            (place_accessors place.now)) }
    {
        let accessors = place.accessors.as_slice();
        name_fault(place.meant, access, members(accessors))?;
        self.indices(room, accessors)
    }

    /// An anonymous component, which may have any number of outputs where it is the whole value.
    #[cycle(values)]
    pub(crate) fn anonymous(&self, room: Room, whole: bool, anonymous: &Anonymous) -> Checked
        ensures { Finds result (nameless_fault (table_in self.now) room whole anonymous.now.meant
            (bare_exprs anonymous.now.arguments) (bare_inputs anonymous.now.inputs)) }
    {
        let callee = self.callee(anonymous.meant);
        let arguments = anonymous.arguments.as_slice();
        callee.call(true, arguments.len())?;
        callee.anonymous(room, whole, inputs_count(&anonymous.inputs))?;
        self.values(room.inward(), arguments)?;
        match &anonymous.inputs {
            Inputs::Listed(values) => self.values(room, values.as_slice()),
            Inputs::Named(inputs) => self.named(&callee, room, inputs.as_slice()),
        }
    }

    #[cycle(values)]
    pub(crate) fn values(&self, room: Room, values: &[Expr]) -> Checked
        ensures { Finds result (values_fault (table_in self.now) room (bare_exprs values.now)) }
    {
        for value in values {
            self.value(room, value)?;
        }
        Ok(())
    }

    /// The indices behind a name.
    #[cycle(values)]
    pub(crate) fn indices(&self, room: Room, accessors: &[Accessor]) -> Checked
        ensures { Finds result
            (accessors_fault (table_in self.now) room (as_accessors accessors.now)) }
    {
        for accessor in accessors {
            if let Accessor::Index(index) = accessor {
                self.value(room.inward(), index)?;
            }
        }
        Ok(())
    }

    #[cycle(values)]
    fn named(&self, callee: &Callee<'_, '_>, room: Room, inputs: &[NamedInput]) -> Checked
        ensures { Finds result
            (named_fault (table_in self.now) (inputs_in (callee_in callee.now)) no_names room
            (as_named inputs.now)) }
    {
        let mut earlier = NameSet::new(self.alloc);
        for input in inputs {
            let name = input.name.as_slice();
            unless(callee.has_input(name), Kind::UnknownName)?;
            unless(!earlier.contains(name), Kind::Arity)?;
            self.value(room, &input.value)?;
            earlier.insert(name)?;
        }
        Ok(())
    }

    /// A call with these arguments, for a component or for its value.
    #[cycle(values)]
    pub(crate) fn called(
        &self,
        room: Room,
        component: bool,
        meant: Meant,
        arguments: &[Expr],
    ) -> Checked
        ensures { Finds result
            (called_fault (table_in self.now) room component meant (bare_exprs arguments.now)) }
    {
        self.callee(meant).call(component, arguments.len())?;
        self.values(room.inward(), arguments)
    }

    /// A value of which an anonymous component may be the whole.
    pub(crate) fn whole(&self, room: Room, expression: &Expr) -> Checked
        ensures { Finds result (whole_fault (table_in self.now) room (bare expression.now)) }
    {
        match expression {
            Expr::Anonymous(anonymous) => self.anonymous(room, true, anonymous),
            Expr::Parentheses(inner) => self.whole(room, inner),
            _ => self.value(room, expression),
        }
    }

    /// An expression that creates a component.
    pub(crate) fn created(&self, room: Room, expression: &Expr) -> Checked
        ensures { Finds result (component_fault (table_in self.now) room (bare expression.now)) }
    {
        match expression {
            Expr::Call(_, _, meant, arguments) => {
                self.called(room, true, *meant, arguments.as_slice())
            }
            Expr::Anonymous(anonymous) => self.anonymous(room, false, anonymous),
            Expr::Parentheses(inner) => self.created(room, inner),
            _ => Err(Stop::At(Kind::WrongKind)),
        }
    }
}
