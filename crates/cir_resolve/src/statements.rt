//! Statements, in their scopes.
ghost use Rattle.std.specs.Prelude.{◌≡◌, OnOk};
ghost use Rattle.cir_ast.specs.Tree.{bare, bare_first, bare_assign, bare_statement, bare_block};
ghost use Rattle.cir_ast.specs.Tree.{For};
ghost use Rattle.cir_resolve.specs.Scope.{within};
ghost use Rattle.cir_resolve.specs.Naming.{named_statement, named_statements};
ghost use Rattle.cir_resolve.specs.Answers.{state_of, Gives};

use crate::lists::take_out;
use crate::scope::Scopes;
use crate::stop::Stop;
use cir_ast::program::{Block, Expr, First, Spot, Statement, StatementForm, Step};
use items::Items;

impl Scopes<'_> {
    #[cycle(statements)]
    fn statement(&mut self, statement: &mut Statement) -> Result<(), Stop<Spot>>
        ensures named { Gives (λ _. bare_statement statement.new) result (state_of self.new)
            (named_statement (state_of self.old) (bare_statement statement.old)) }
        ensures outer { OnOk result (self.new.outer.items ≡ self.old.outer.items) }
    {
        let spot = statement.spot;
        match &mut statement.form {
            StatementForm::Block(block) => self.block(block)?,
            StatementForm::If(condition, chosen) => {
                self.name(condition);
                self.branch(chosen)?;
            }
            StatementForm::IfElse(condition, chosen, other) => {
                self.name(condition);
                self.branch(chosen)?;
                self.branch(other)?;
            }
            StatementForm::While(condition, body) => {
                self.name(condition);
                self.branch(body)?;
            }
            StatementForm::For(first, condition, step, body) => {
                self.for_loop(body, spot, first, condition, step)?;
            }
            StatementForm::Return(value) => self.name(value),
            StatementForm::Assert(condition) => self.name(condition),
            StatementForm::Log(arguments) => self.arguments(arguments),
            StatementForm::Simple(simple) => self.simple(spot, simple)?,
        }
        Ok(())
    }

    /// A statement with a scope of its own.
    #[cycle(statements)]
    fn branch(&mut self, statement: &mut Statement) -> Result<(), Stop<Spot>>
        ensures named { Gives (λ _. bare_statement statement.new) result (state_of self.new)
            (within (state_of self.old)
            (λ inner. named_statement inner (bare_statement statement.old))) }
        ensures outer { OnOk result (self.new.outer.items ≡ self.old.outer.items) }
    {
        self.open()?;
        self.statement(statement)?;
        self.close();
        Ok(())
    }

    #[cycle(statements)]
    fn block(&mut self, block: &mut Block) -> Result<(), Stop<Spot>>
        ensures named { Gives (λ _. bare_block block.new) result (state_of self.new)
            (within (state_of self.old) (λ inner. named_statements inner (bare_block block.old))) }
        ensures outer { OnOk result (self.new.outer.items ≡ self.old.outer.items) }
    {
        self.open()?;
        self.body(block)?;
        self.close();
        Ok(())
    }

    /// A block's statements, in the scope that it stands in.
    #[cycle(statements)]
    pub(crate) fn body(&mut self, block: &mut Block) -> Result<(), Stop<Spot>>
        ensures named { Gives (λ _. bare_block block.new) result (state_of self.new)
            (named_statements (state_of self.old) (bare_block block.old)) }
        ensures outer { OnOk result (self.new.outer.items ≡ self.old.outer.items) }
    {
        let mut all = take_out(self.alloc, &mut block.statements);
        for i in 0..all.len() {
            self.statement(&mut all[i])?;
        }
        *block = Block::of(Items::of(all));
        Ok(())
    }

    // The step stands before the body, and sees what a body without braces declares.
    #[cycle(statements)]
    fn for_loop(
        &mut self,
        body: &mut Statement,
        spot: Spot,
        first: &mut First,
        condition: &mut Expr,
        step: &mut Step,
    ) -> Result<(), Stop<Spot>>
        ensures named { Gives (λ _. For spot first.new.spot (bare_first first.new.form)
            (bare condition.new) step.new.spot (bare_assign step.new.assign)
            (bare_statement body.new)) result (state_of self.new)
            (named_statement (state_of self.old)
            (For spot first.old.spot (bare_first first.old.form) (bare condition.old) step.old.spot
            (bare_assign step.old.assign) (bare_statement body.old))) }
        ensures outer { OnOk result (self.new.outer.items ≡ self.old.outer.items) }
    {
        self.open()?;
        self.first(first.spot, &mut first.form)?;
        self.name(condition);
        self.open()?;
        self.statement(body)?;
        self.assign(&mut step.assign);
        self.close();
        self.close();
        Ok(())
    }
}
