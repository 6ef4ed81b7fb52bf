//! Simple statements, and what the head of a `for` begins with.
ghost use Rattle.std.specs.Prelude.{◌≡◌, OnOk};
ghost use Rattle.cir_ast.specs.Tree.{bare_first, bare_simple};
ghost use Rattle.cir_resolve.specs.Naming.{named_first, named_simple};
ghost use Rattle.cir_resolve.specs.Answers.{state_of, Gives};

use crate::scope::Scopes;
use crate::stop::Stop;
use cir_ast::program::{Components, FirstForm, Meant, Simple, Spot};

impl Scopes<'_> {
    pub(crate) fn first(&mut self, spot: Spot, first: &mut FirstForm) -> Result<(), Stop<Spot>>
        ensures named { Gives (λ _. bare_first first.new) result (state_of self.new)
            (named_first spot (state_of self.old) (bare_first first.old)) }
        ensures outer { OnOk result (self.new.outer.items ≡ self.old.outer.items) }
    {
        match first {
            FirstForm::Vars(vars) => self.variables(spot, &mut vars.variables)?,
            FirstForm::Assign(assign) => self.assign(assign),
        }
        Ok(())
    }

    pub(crate) fn simple(&mut self, spot: Spot, simple: &mut Simple) -> Result<(), Stop<Spot>>
        ensures named { Gives (λ _. bare_simple simple.new) result (state_of self.new)
            (named_simple spot (state_of self.old) (bare_simple simple.old)) }
        ensures outer { OnOk result (self.new.outer.items ≡ self.old.outer.items) }
    {
        match simple {
            Simple::Vars(vars) => self.variables(spot, &mut vars.variables)?,
            Simple::Signals(signals) => {
                self.signals(spot, signals.direction, &mut signals.signals)?;
            }
            Simple::Components(components) => match components {
                Components::Declared(components) => self.components(spot, components)?,
                Components::Created(name, meant, value) => {
                    *meant = Meant::Component(self.components);
                    self.declare(spot, name.as_slice(), *meant)?;
                    self.name(value);
                }
            },
            Simple::Assign(assign) => self.assign(assign),
            Simple::Constrain(left, right) => {
                self.name(left);
                self.name(right);
            }
            Simple::Right(value, _, place) => {
                self.name(value);
                self.name_place(place);
            }
            Simple::TargetLeft(target, _, source) => {
                self.target(target);
                self.source(source);
            }
            Simple::TargetRight(source, _, target) => {
                self.source(source);
                self.target(target);
            }
            Simple::Anonymous(anonymous) => self.name_anonymous(anonymous),
        }
        Ok(())
    }
}
