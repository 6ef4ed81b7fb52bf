//! The faults of statements.
ghost use Rattle.std.specs.Prelude.{◌≡◌, map};
ghost use Rattle.cir_ast.specs.Tree as tree;
ghost use Rattle.cir_ast.specs.declared.marked.Simple.TheVariants as form;
ghost use Rattle.cir_checks.specs.Faults.{first_in};
ghost use Rattle.cir_checks.specs.Statements as faults;
ghost use Rattle.cir_checks.specs.Answers.{Finds, Tells, table_in};

use crate::calls::{Access, members, unless};
use crate::expressions::is_call;
use crate::positions::{DECLARATION_PLACE, LOG_PLACE, Position};
use crate::stop::{Checked, Fault, Stop, at};
use crate::table::{Callee, Table};
use cir_ast::Kind;
use cir_ast::program::{
    Assign, Block, Components, DeclaredVariable, Direction, Expr, FirstForm, LogArgument, Meant,
    Place, SignalValue, Signals, Simple, Slot, Source, Statement, StatementForm, Target,
};

/// The slots behind the first one.
fn other_slots(slots: &[Slot]) -> &[Slot]
    ensures { map tree.bare_slot result.now ≡ faults.other_slots (map tree.bare_slot slots.now) }
{
    match slots.split_first() {
        Some((_, others)) => others,
        None => slots,
    }
}

fn slots_of(target: &Target) -> &[Slot]
    ensures { map tree.bare_slot result.now ≡ faults.slots_of (tree.bare_target target.now) }
{
    match target {
        Target::Discard => &[],
        Target::Tuple(slots) => slots.as_slice(),
    }
}

// Declarations.
impl Table<'_> {
    fn variables(&self, position: Position, variables: &[DeclaredVariable]) -> Checked
        ensures { Finds result (first_in (faults.variable_fault (table_in self.now) position)
            (map tree.bare_variable variables.now)) }
    {
        for variable in variables {
            self.values(position.other_room(), variable.dimensions.as_slice())?;
            if let Some(value) = &variable.value {
                self.value(position.other_room(), value)?;
            }
        }
        Ok(())
    }

    fn signal_value(&self, position: Position, direction: Direction, value: &SignalValue) -> Checked
        ensures { Finds result (faults.signal_value_fault (table_in self.now) position direction
            (tree.bare_signal_value value.now)) }
    {
        match (value, direction) {
            (SignalValue::Nothing, _) => Ok(()),
            (SignalValue::Given(_, _), Direction::Input) => Err(Stop::At(DECLARATION_PLACE)),
            (SignalValue::Given(_, value), _) => self.value(position.value_room(), value),
        }
    }

    fn signals(&self, position: Position, signals: &Signals) -> Checked
        ensures { Finds result (faults.simple_fault (table_in self.now) position
            (tree.Signals signals.now.direction (map tree.bare_signal signals.now.signals))) }
    {
        position.signal_place_fault(signals.direction)?;
        for signal in signals.signals.as_slice() {
            self.values(position.other_room(), signal.dimensions.as_slice())?;
            self.signal_value(position, signals.direction, &signal.value)?;
        }
        Ok(())
    }

    fn components(&self, position: Position, components: &Components) -> Checked
        ensures { Finds result (faults.simple_fault (table_in self.now) position
            (tree.bare_simple (form.Components components.now))) }
    {
        position.declaration_fault()?;
        match components {
            Components::Declared(components) => {
                for component in components.as_slice() {
                    self.values(position.other_room(), component.dimensions.as_slice())?;
                }
                Ok(())
            }
            Components::Created(_, _, value) => self.created(position.other_room(), value),
        }
    }
}

// Assignments.
#[tactic(auto, using(crate::proofs::Seen::seen))]
impl Table<'_> {
    /// `=` creates a component by a call, and gives a variable its value.
    fn assign(&self, position: Position, assign: &Assign) -> Checked
        ensures { Finds result
            (faults.assign_fault (table_in self.now) position (tree.bare_assign assign.now)) }
    {
        let room = position.other_room();
        match assign {
            Assign::Set(place, value) => match place.meant {
                Meant::Component(_) => {
                    let accessors = place.accessors.as_slice();
                    unless(is_call(value) && members(accessors) == 0, Kind::WrongKind)?;
                    self.indices(room, accessors)?;
                    self.created(room, value)
                }
                _ => {
                    self.place(room, Access::Write, place)?;
                    self.value(room, value)
                }
            },
            Assign::Compound(place, _, value) => {
                self.place(room, Access::Write, place)?;
                self.value(room, value)
            }
            Assign::Left(place, _, value) => {
                self.place(room, Access::Drive, place)?;
                self.value(position.value_room(), value)
            }
            Assign::Increment(place) => self.place(room, Access::Write, place),
            Assign::Decrement(place) => self.place(room, Access::Write, place),
        }
    }
}

// Tuples, and what `_` receives.
impl Table<'_> {
    /// One value for so many slots.
    fn one(&self, slots: usize, value: &Expr) -> Checked
        ensures { Tells result (faults.one_fault (table_in self.now) slots (tree.bare value.now)) }
    {
        match value {
            Expr::Anonymous(anonymous) => match self.callee(anonymous.meant) {
                Callee::Unknown => Err(Stop::At(Kind::UnknownName)),
                Callee::Template(head) => unless(head.outputs == slots, Kind::Arity),
                _ => Ok(()),
            },
            Expr::Parentheses(inner) => self.one(slots, inner),
            _ => unless(slots == 1, Kind::Arity),
        }
    }

    /// A tuple takes as many values as it has slots.
    fn tuple(&self, target: &Target, source: &Source) -> Checked
        ensures { Tells result (faults.tuple_fault (table_in self.now) (tree.bare_target target.now)
            (tree.bare_source source.now)) }
    {
        match (target, source) {
            (Target::Discard, Source::One(_)) => Ok(()),
            (Target::Discard, Source::Tuple(_)) => Err(Stop::At(Kind::Arity)),
            (Target::Tuple(slots), Source::One(value)) => self.one(slots.len(), value),
            (Target::Tuple(slots), Source::Tuple(values)) => {
                unless(values.len() == slots.len(), Kind::Arity)
            }
        }
    }

    fn slots(&self, position: Position, slots: &[Slot]) -> Checked
        ensures { Finds result (first_in (faults.slot_fault (table_in self.now) position)
            (map tree.bare_slot slots.now)) }
    {
        for slot in slots {
            if let Slot::Place(place) = slot {
                self.place(position.other_room(), Access::Drive, place)?;
            }
        }
        Ok(())
    }

    /// What goes to `_` may have any number of outputs.
    fn slot_values(&self, position: Position, slots: &[Slot], values: &[Expr]) -> Checked
        ensures { Finds result
            (faults.slot_values_fault (table_in self.now) position (map tree.bare_slot slots.now)
            (map tree.bare values.now)) }
    {
        let mut left = slots;
        for value in values {
            match left {
                [Slot::Discard, ..] => self.whole(position.value_room(), value)?,
                _ => self.value(position.value_room(), value)?,
            }
            left = other_slots(left);
        }
        Ok(())
    }

    fn source(&self, position: Position, target: &Target, source: &Source) -> Checked
        ensures { Finds result
            (faults.source_fault (table_in self.now) position (tree.bare_target target.now)
            (tree.bare_source source.now)) }
    {
        match source {
            Source::One(value) => self.whole(position.value_room(), value),
            Source::Tuple(values) => {
                self.slot_values(position, slots_of(target), values.as_slice())
            }
        }
    }
}

impl Table<'_> {
    fn arguments(&self, position: Position, arguments: &[LogArgument]) -> Checked
        ensures { Finds result (first_in (faults.argument_fault (table_in self.now) position)
            (map tree.bare_argument arguments.now)) }
    {
        for argument in arguments {
            if let LogArgument::Value(value) = argument {
                self.value(position.other_room(), value)?;
            }
        }
        Ok(())
    }

    fn simple(&self, position: Position, simple: &Simple) -> Checked
        ensures { Finds result
            (faults.simple_fault (table_in self.now) position (tree.bare_simple simple.now)) }
    {
        match simple {
            Simple::Vars(vars) => self.variables(position, vars.variables.as_slice()),
            Simple::Signals(signals) => self.signals(position, signals),
            Simple::Components(components) => self.components(position, components),
            Simple::Assign(assign) => self.assign(position, assign),
            Simple::Constrain(left, right) => {
                position.only_in_template()?;
                self.value(position.value_room(), left)?;
                self.value(position.value_room(), right)
            }
            Simple::Right(value, _, place) => {
                self.value(position.value_room(), value)?;
                self.place(position.other_room(), Access::Drive, place)
            }
            Simple::TargetLeft(target, _, source) => {
                position.only_in_template()?;
                self.tuple(target, source)?;
                self.slots(position, slots_of(target))?;
                self.source(position, target, source)
            }
            Simple::TargetRight(source, _, target) => {
                position.only_in_template()?;
                self.tuple(target, source)?;
                self.source(position, target, source)?;
                self.slots(position, slots_of(target))
            }
            Simple::Anonymous(anonymous) => {
                position.only_in_template()?;
                self.anonymous(position.value_room(), true, anonymous)
            }
        }
    }

    fn head(&self, position: Position, first: &FirstForm) -> Checked
        ensures { Finds result
            (faults.head_fault (table_in self.now) position (tree.bare_first first.now)) }
    {
        match first {
            FirstForm::Vars(vars) => self.variables(position, vars.variables.as_slice()),
            FirstForm::Assign(assign) => self.assign(position, assign),
        }
    }

    #[cycle(statements)]
    fn statement(&self, position: Position, statement: &Statement) -> Result<(), Stop<Fault>>
        ensures { Finds result (faults.statement_fault (table_in self.now) position
            (tree.bare_statement statement.now)) }
    {
        let spot = statement.spot;
        let room = position.other_room();
        match &statement.form {
            StatementForm::Block(block) => self.block(position.inside(), block),
            StatementForm::If(condition, chosen) => {
                at(spot, self.value(room, condition))?;
                self.statement(position.inside(), chosen)
            }
            StatementForm::IfElse(condition, chosen, other) => {
                at(spot, self.value(room, condition))?;
                self.statement(position.inside(), chosen)?;
                self.statement(position.inside(), other)
            }
            StatementForm::While(condition, body) => {
                at(spot, self.value(room, condition))?;
                self.statement(position.in_loop(), body)
            }
            StatementForm::For(first, condition, step, body) => {
                at(first.spot, self.head(position, &first.form))?;
                at(spot, self.value(room, condition))?;
                at(step.spot, self.assign(position, &step.assign))?;
                self.statement(position.in_loop(), body)
            }
            StatementForm::Return(value) => {
                at(spot, unless(position.in_function(), Kind::WrongKind))?;
                at(spot, self.value(room, value))
            }
            StatementForm::Assert(condition) => at(spot, self.value(room, condition)),
            StatementForm::Log(arguments) => {
                at(spot, unless(!position.in_function(), LOG_PLACE))?;
                at(spot, self.arguments(position, arguments.as_slice()))
            }
            StatementForm::Simple(simple) => at(spot, self.simple(position, simple)),
        }
    }

    /// The first fault of a block's statements.
    #[tactic(auto, using(cir_ast::proofs::Rows::block_is))]
    #[cycle(statements)]
    pub(crate) fn block(&self, position: Position, block: &Block) -> Result<(), Stop<Fault>>
        ensures { Finds result
            (faults.statements_fault (table_in self.now) position (tree.bare_block block.now)) }
    {
        for statement in block.statements.as_slice() {
            self.statement(position, statement)?;
        }
        Ok(())
    }
}
