//! What a call has to know of the definitions.
ghost use Rattle.std.specs.Prelude.{◌≡◌, ◌+◌, ◌≤◌, ◌∷◌, map, IfOk, IfErr, OnOk};
ghost use Rattle.cir_ast.specs.Tree.{bare_signal, bare_statement};
ghost use Rattle.cir_ast.specs.Program.{bare_template};
ghost use Rattle.cir_resolve.specs.Definitions.{bare_definition};
ghost use Rattle.cir_checks.specs.Heads.{head_of, callee};
ghost use Rattle.cir_checks.specs.Checks.{table_among};
ghost use Rattle.cir_checks.specs.Answers.{head_in, with_signals, with_statement};
ghost use Rattle.cir_checks.specs.Answers.{table_in, table_with, callee_in};

use crate::name_set::NameSet;
use cir_ast::program::{Direction, Meant, Signals, Simple, Statement, StatementForm, Template};
use cir_resolve::Definition;
use items::Items;
use numbers::TooLarge;
use std::alloc::{AllocError, Global};

/// What a call has to know of a template.
#[derive(Drop)]
pub struct Head<'p> {
    pub(crate) parameters: usize,
    pub(crate) inputs: NameSet<'p>,
    pub(crate) input_count: usize,
    pub(crate) outputs: usize,
}

/// The templates, and how many parameters each function has.
#[derive(Drop)]
pub struct Table<'p> {
    pub(crate) alloc: Global,
    templates: Items<Head<'p>>,
    functions: Items<usize>,
}

/// What a called name is.
#[derive(Clone, Copy)]
pub enum Callee<'t, 'p> {
    Template(&'t Head<'p>),
    Function(usize),
    /// A variable, a signal or a component.
    OnlyDeclared,
    Unknown,
}

/// A sum of counts.
fn total(count: usize, more: usize) -> Result<usize, TooLarge>
    ensures ok { IfOk result (λ n. n ≡ count + more) }
    ensures err { IfErr result (λ _. 18446744073709551616 ≤ count + more) }
{
    count.checked_add(more).ok_or(TooLarge)
}

impl<'p> Head<'p> {
    fn add_signals(&mut self, signals: &'p Signals) -> Result<(), AllocError>
        ensures { OnOk result (head_in self.new ≡ with_signals (head_in self.old)
            signals.now.direction (map bare_signal signals.now.signals)) }
    {
        match signals.direction {
            Direction::Input => {
                self.input_count = total(self.input_count, signals.signals.len())?;
                self.inputs.insert_signals(signals.signals.as_slice())
            }
            Direction::Output => {
                self.outputs = total(self.outputs, signals.signals.len())?;
                Ok(())
            }
            Direction::Inner => Ok(()),
        }
    }

    /// Adds what a statement of the outermost block declares.
    fn add(&mut self, statement: &'p Statement) -> Result<(), AllocError>
        ensures { OnOk result
            (head_in self.new ≡ with_statement (head_in self.old) (bare_statement statement.now)) }
    {
        match &statement.form {
            StatementForm::Simple(Simple::Signals(signals)) => self.add_signals(signals),
            _ => Ok(()),
        }
    }

    #[tactic(auto, using(crate::proofs::Tables::rules))]
    fn of(alloc: Global, template: &'p Template) -> Result<Head<'p>, AllocError>
        ensures { IfOk result (λ h. head_in h ≡ head_of (bare_template template.now)) }
    {
        let mut head = Head {
            parameters: template.parameters.len(),
            inputs: NameSet::new(alloc),
            input_count: 0,
            outputs: 0,
        };
        for statement in template.body.statements.as_slice() {
            head.add(statement)?;
        }
        Ok(head)
    }
}

impl<'p> Table<'p> {
    #[tactic(auto, using(crate::proofs::Tables::rules), unfolding(crate::specs::Answers::table_in))]
    pub(crate) fn callee(&self, meant: Meant) -> Callee<'_, 'p>
        ensures { callee_in result ≡ callee (table_in self.now) meant }
    {
        match meant {
            Meant::Other => Callee::Unknown,
            Meant::Template(number) => match self.templates.get(number as usize) {
                Some(head) => Callee::Template(head),
                None => Callee::Unknown,
            },
            Meant::Function(number) => match self.functions.get(number as usize) {
                Some(parameters) => Callee::Function(*parameters),
                None => Callee::Unknown,
            },
            _ => Callee::OnlyDeclared,
        }
    }

    fn add(&mut self, definition: &'p Definition) -> Result<(), AllocError>
        ensures { OnOk result ((more : _) → table_with self.new more
            ≡ table_with self.old (bare_definition definition.now ∷ more)) }
    {
        match definition {
            Definition::Template(template) => {
                let head = Head::of(self.alloc, template)?;
                self.templates.push(head)
            }
            Definition::Function(function) => self.functions.push(function.parameters.len()),
            Definition::Main(_) => Ok(()),
        }
    }

    #[tactic(auto, using(crate::proofs::Tables::rules), unfolding(crate::specs::Answers::table_in))]
    pub(crate) fn of(alloc: Global, definitions: &'p [Definition]) -> Result<Table<'p>, AllocError>
        ensures { IfOk result
            (λ t. table_in t ≡ table_among (map bare_definition definitions.now)) }
    {
        let mut table = Table {
            alloc,
            templates: Items::new(alloc),
            functions: Items::new(alloc),
        };
        for definition in definitions {
            table.add(definition)?;
        }
        Ok(table)
    }
}
