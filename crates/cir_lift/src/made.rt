//! The statements that create an anonymous component and write its inputs, and its outputs.
ghost use Rattle.std.specs.Prelude.{◌≡◌, [], ◌∷◌, ◌++◌, map, IfOk, OnOk};
ghost use Rattle.cir_ast.specs.declared.program.Meant.TheVariants as meant_as;
ghost use Rattle.cir_ast.specs.declared.operators.Direction.TheVariants as direction_as;
ghost use Rattle.cir_ast.specs.Tree.{bare, bare_place, bare_inputs, bare_simple};
ghost use Rattle.cir_ast.specs.Tree.{Created, Call, bare_exprs, bare_statement, bare_signal};
ghost use Rattle.cir_ast.specs.Tree.{as_statements};
ghost use Rattle.cir_ast.specs.Program.{bare_program};
ghost use Rattle.cir_meaning.specs.Anonymous as A;
ghost use Rattle.cir_lift.specs.Made.{body_at};

use crate::copies::{discard, exprs, text};
use cir_ast::Text;
use cir_ast::program::{
    Accessor, Anonymous, Arrow, Assign, Components, DeclaredSignal, Direction, Expr, Inputs, Meant,
    NamedInput, Place, Program, Simple, Statement, StatementForm,
};
use items::Items;
use itoa::Buffer;
use std::alloc::{AllocError, Global};

/// A component of the body: which it is among those without a name, and its number.
#[derive(Clone, Copy)]
pub struct Own {
    pub index: u32,
    pub number: u32,
}

/// The statements of the template that is meant.
fn body_of(program: &Program, meant: Meant) -> &[Statement]
    ensures { as_statements (map bare_statement result.now)
        ≡ body_at (bare_program program.now) meant }
{
    match meant {
        Meant::Template(t) => match program.templates.get(t as usize) {
            Some(template) => template.body.statements.as_slice(),
            None => &[],
        },
        Meant::Other
        | Meant::Variable(_)
        | Meant::Signal(_, _)
        | Meant::Component(_)
        | Meant::Function(_) => &[],
    }
}

/// The name of a component without one: behind its start `@` and its index.
fn own_name(alloc: Global, start: &[u8], own: Own) -> Result<Text, AllocError>
    ensures { IfOk result (λ t. t ≡ start.now ++ A.own_name own.index) }
{
    let mut digits = Buffer::new();
    let mut name = Vec::from_slice(alloc, start)?;
    name.push(b'@')?;
    name.extend_from_slice(digits.format(own.index).as_bytes())?;
    Text::from_slice(alloc, name.as_slice())
}

fn signal_place(alloc: Global, own: Own, name: &Text) -> Result<Place, AllocError>
    ensures { IfOk result (λ p. bare_place p
        ≡ A.signal_of own.index own.number name.now) }
{
    let member = text(alloc, name)?;
    let name = own_name(alloc, &[], own)?;
    let accessors = vec![in alloc; Accessor::Member(member)]?;
    Ok(Place {
        name,
        meant: Meant::Component(own.number),
        accessors: Items::of(accessors),
    })
}

/// Its outputs, in the order of declaration.
pub fn outputs(
    alloc: Global,
    program: &Program,
    own: Own,
    meant: Meant,
) -> Result<Vec<Expr>, AllocError>
    ensures { IfOk result (λ v. map bare v.items ≡ map (A.signal_of own.index own.number)
        (A.names_of direction_as.Output (bare_program program.now) meant)) }
{
    let names = declared_names(alloc, program, Direction::Output, meant)?;
    let mut outputs = Vec::with_capacity(alloc, names.len())?;
    for name in names.as_slice() {
        let place = signal_place(alloc, own, name)?;
        outputs.push(Expr::Place(place))?;
    }
    Ok(outputs)
}

/// Its creation, at the end of the statements.
pub fn create(
    alloc: Global,
    own: Own,
    a: &Anonymous,
    before: &mut Vec<Simple>,
) -> Result<(), AllocError>
    ensures { OnOk result (map bare_simple before.new.items ≡ map bare_simple before.old.items
        ++ Created (a.now.name ++ A.own_name own.index) (meant_as.Component own.number)
        (Call a.now.parallel a.now.name a.now.meant (bare_exprs a.now.arguments)) ∷ []) }
{
    let name = own_name(alloc, a.name.as_slice(), own)?;
    let template = text(alloc, &a.name)?;
    let arguments = exprs(alloc, a.arguments.as_slice())?;
    let call = Expr::Call(a.parallel, template, a.meant, arguments);
    let created = Components::Created(name, Meant::Component(own.number), call);
    before.push(Simple::Components(created))?;
    Ok(())
}

fn write(
    alloc: Global,
    own: Own,
    name: &Text,
    arrow: Arrow,
    value: Expr,
    before: &mut Vec<Simple>,
) -> Result<(), AllocError>
    ensures { OnOk result (map bare_simple before.new.items ≡ map bare_simple before.old.items
        ++ A.input_write own.index own.number name.now arrow (bare value) ∷ []) }
{
    match signal_place(alloc, own, name) {
        Ok(place) => {
            before.push(Simple::Assign(Assign::Left(place, arrow, value)))?;
            Ok(())
        }
        Err(e) => {
            discard(value);
            Err(e)
        }
    }
}

/// The signals that a statement declares with this direction.
fn declared_signals(direction: Direction, statement: &Statement) -> &[DeclaredSignal]
    ensures { map (λ s. s.name) (map bare_signal result.now)
        ≡ A.declared_here direction (bare_statement statement.now) }
{
    if let StatementForm::Simple(Simple::Signals(signals)) = &statement.form {
        if is_same(direction, signals.direction) {
            return signals.signals.as_slice();
        }
    }
    &[]
}

fn is_same(a: Direction, b: Direction) -> bool
    ensures { result ≡ A.is_same a b }
{
    match a {
        Direction::Inner => matches!(b, Direction::Inner),
        Direction::Input => matches!(b, Direction::Input),
        Direction::Output => matches!(b, Direction::Output),
    }
}

/// The names that the template declares with this direction, in the order of declaration.
fn declared_names(
    alloc: Global,
    program: &Program,
    direction: Direction,
    meant: Meant,
) -> Result<Vec<Text>, AllocError>
    ensures { IfOk result (λ v. v.items
        ≡ A.names_of direction (bare_program program.now) meant) }
{
    let mut names = Vec::new(alloc);
    for statement in body_of(program, meant) {
        push_names(alloc, declared_signals(direction, statement), &mut names)?;
    }
    Ok(names)
}

fn push_names(
    alloc: Global,
    signals: &[DeclaredSignal],
    names: &mut Vec<Text>,
) -> Result<(), AllocError>
    ensures { OnOk result (names.new.items
        ≡ names.old.items ++ map (λ s. s.name) (map bare_signal signals.now)) }
{
    for signal in signals {
        let name = text(alloc, &signal.name)?;
        names.push(name)?;
    }
    Ok(())
}

/// Its inputs are written. Listed ones are by `<==`, in the order of declaration.
pub fn write_inputs(
    alloc: Global,
    program: &Program,
    own: Own,
    meant: Meant,
    inputs: Inputs,
    before: &mut Vec<Simple>,
) -> Result<(), AllocError>
    ensures { OnOk result (map bare_simple before.new.items ≡ map bare_simple before.old.items
        ++ A.input_writes (bare_program program.now) own.index own.number meant
        (bare_inputs inputs)) }
{
    match inputs {
        Inputs::Listed(es) => {
            let names = declared_names(alloc, program, Direction::Input, meant)?;
            let mut names = names.into_iter();
            for e in es.into_vec() {
                let Some(name) = names.next() else {
                    discard(e);
                    return Ok(());
                };
                write(alloc, own, &name, Arrow::Constrain, e, before)?;
            }
            Ok(())
        }
        Inputs::Named(is) => {
            for i in is.into_vec() {
                let NamedInput { name, arrow, value } = i;
                write(alloc, own, &name, arrow, value, before)?;
            }
            Ok(())
        }
    }
}
