//! The first fault of a program's names.
ghost use Rattle.std.specs.Prelude.{◌≡◌, false, map};
ghost use Rattle.cir_ast.specs.Tree.{bare_statement, bare_block};
ghost use Rattle.cir_ast.specs.Program.{bare_function, bare_main};
ghost use Rattle.cir_checks.specs.declared.stop.Stop.TheVariants.{At};
ghost use Rattle.cir_resolve.specs.Definitions.{bare_definition};
ghost use Rattle.cir_checks.specs.Statements.{returns, last_returns, function_fault};
ghost use Rattle.cir_checks.specs.Statements.{publics_fault, main_fault};
ghost use Rattle.cir_checks.specs.Checks.{no_main, mains_among, mains_fault, use_fault};
ghost use Rattle.cir_checks.specs.Checks.{first_fault};
ghost use Rattle.cir_checks.specs.Answers.{Finds, Tells, table_in, callee_in};

use crate::calls::unless;
use crate::positions::{Position, Room};
use crate::stop::{Checked, Fault, Found, Stop, at, in_file};
use crate::table::{Callee, Table};
use cir_ast::program::{Block, Function, Main, Spot, Statement, StatementForm};
use cir_ast::{Form, Kind, Text};
use cir_resolve::Definition;
use std::alloc::Global;

const NO_RETURN: Kind = Kind::NotInProfile {
    form: Form::NoReturn,
};

/// Whether a statement returns on each way through it.
#[cycle(returning)]
fn returns(statement: &Statement) -> bool
    ensures { result ≡ returns (bare_statement statement.now) }
{
    match &statement.form {
        StatementForm::Block(block) => last_returns(block),
        StatementForm::IfElse(_, chosen, other) => returns(chosen) && returns(other),
        StatementForm::Return(_) => true,
        _ => false,
    }
}

/// Whether the last statement of a block returns.
#[tactic(auto, using(cir_ast::proofs::Rows::block_is))]
#[cycle(returning)]
fn last_returns(block: &Block) -> bool
    ensures { result ≡ last_returns false (bare_block block.now) }
{
    let mut returning = false;
    for statement in block.statements.as_slice() {
        returning = returns(statement);
    }
    returning
}

impl Callee<'_, '_> {
    /// The fault of the public names of a main component, where its template is known.
    fn publics(&self, names: &[Text]) -> Checked
        ensures { Tells result (publics_fault (callee_in self.now) names.now) }
    {
        match self {
            Callee::Template(head) => {
                for name in names {
                    unless(head.inputs.contains(name.as_slice()), Kind::UnknownName)?;
                }
                Ok(())
            }
            Callee::Function(_) | Callee::OnlyDeclared | Callee::Unknown => Ok(()),
        }
    }
}

fn no_main(file: u32, spot: Spot) -> Stop<Found>
    ensures { result ≡ At (no_main file spot) }
{
    let kind = Kind::Main;
    Stop::At(Found {
        file,
        fault: Fault { kind, spot },
    })
}

/// The fault where there is no main component, or a second one.
fn mains(definitions: &[Definition]) -> Result<(), Stop<Found>>
    ensures { Tells result (mains_fault (mains_among (map bare_definition definitions.now))) }
{
    let mut one = false;
    for definition in definitions {
        if let Definition::Main(main) = definition {
            if one {
                return Err(no_main(main.file, main.spot));
            }
            one = true;
        }
    }
    if one {
        return Ok(());
    }
    Err(no_main(0, Spot { line: 1, column: 1 }))
}

impl Table<'_> {
    fn function(&self, function: &Function) -> Result<(), Stop<Fault>>
        ensures { Finds result (function_fault (table_in self.now) (bare_function function.now)) }
    {
        at(
            function.spot,
            unless(last_returns(&function.body), NO_RETURN),
        )?;
        self.block(Position::InFunction, &function.body)
    }

    fn main(&self, main: &Main) -> Result<(), Stop<Fault>>
        ensures { Finds result (main_fault (table_in self.now) (bare_main main.now)) }
    {
        let publics = self.callee(main.meant).publics(main.public.as_slice());
        at(main.spot, publics)?;
        let arguments = main.arguments.as_slice();
        at(
            main.spot,
            self.called(Room::Barred, true, main.meant, arguments),
        )
    }

    fn definition(&self, definition: &Definition) -> Result<(), Stop<Found>>
        ensures { Finds result (use_fault (table_in self.now) (bare_definition definition.now)) }
    {
        match definition {
            Definition::Template(template) => {
                in_file(
                    template.file,
                    self.block(Position::Outermost, &template.body),
                )
            }
            Definition::Function(function) => in_file(function.file, self.function(function)),
            Definition::Main(main) => in_file(main.file, self.main(main)),
        }
    }
}

/// The first fault of a program's definitions, which come in the order of loading, and whose names
/// are resolved: no main component, or a second one; then a name that is unknown, called with
/// another number of arguments or used as another kind of thing, or a form out of place.
pub fn checks(alloc: Global, definitions: &[Definition]) -> Result<(), Stop<Found>>
    ensures { Finds result (first_fault (map bare_definition definitions.now)) }
{
    mains(definitions)?;
    let table = Table::of(alloc, definitions)?;
    for definition in definitions {
        table.definition(definition)?;
    }
    Ok(())
}
