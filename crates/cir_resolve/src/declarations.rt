//! Declarations: each declared name gets its number, and is in scope behind its dimensions.
ghost use Rattle.std.specs.Prelude.{◌≡◌, map, OnOk};
ghost use Rattle.cir_ast.specs.Tree.{bare_variable, bare_signal, bare_component};
ghost use Rattle.cir_resolve.specs.Steps.{in_turn};
ghost use Rattle.cir_resolve.specs.Naming.{named_variable, named_signal, named_component};
ghost use Rattle.cir_resolve.specs.Answers.{state_of, Gives};

use crate::lists::take_out;
use crate::scope::Scopes;
use crate::stop::Stop;
use cir_ast::program::{
    DeclaredComponent, DeclaredSignal, DeclaredVariable, Direction, Meant, Spot,
};
use items::Items;

impl Scopes<'_> {
    fn variable(&mut self, spot: Spot, variable: &mut DeclaredVariable) -> Result<(), Stop<Spot>>
        ensures named { Gives (λ _. bare_variable variable.new) result (state_of self.new)
            (named_variable spot (state_of self.old) (bare_variable variable.old)) }
        ensures outer { OnOk result (self.new.outer.items ≡ self.old.outer.items) }
    {
        self.name_all(&mut variable.dimensions);
        variable.meant = Meant::Variable(self.variables);
        self.declare(spot, variable.name.as_slice(), variable.meant)?;
        self.value(&mut variable.value);
        Ok(())
    }

    pub(crate) fn variables(
        &mut self,
        spot: Spot,
        variables: &mut Items<DeclaredVariable>,
    ) -> Result<(), Stop<Spot>>
        ensures named { Gives (λ _. map bare_variable variables.new) result (state_of self.new)
            (in_turn (named_variable spot) (state_of self.old) (map bare_variable variables.old)) }
        ensures outer { OnOk result (self.new.outer.items ≡ self.old.outer.items) }
    {
        let mut all = take_out(self.alloc, variables);
        for i in 0..all.len() {
            self.variable(spot, &mut all[i])?;
        }
        *variables = Items::of(all);
        Ok(())
    }

    fn signal(
        &mut self,
        spot: Spot,
        direction: Direction,
        signal: &mut DeclaredSignal,
    ) -> Result<(), Stop<Spot>>
        ensures named { Gives (λ _. bare_signal signal.new) result (state_of self.new)
            (named_signal spot direction (state_of self.old) (bare_signal signal.old)) }
        ensures outer { OnOk result (self.new.outer.items ≡ self.old.outer.items) }
    {
        self.name_all(&mut signal.dimensions);
        signal.meant = Meant::Signal(direction, self.signals);
        self.declare(spot, signal.name.as_slice(), signal.meant)?;
        self.signal_value(&mut signal.value);
        Ok(())
    }

    pub(crate) fn signals(
        &mut self,
        spot: Spot,
        direction: Direction,
        signals: &mut Items<DeclaredSignal>,
    ) -> Result<(), Stop<Spot>>
        ensures named { Gives (λ _. map bare_signal signals.new) result (state_of self.new)
            (in_turn (named_signal spot direction) (state_of self.old)
            (map bare_signal signals.old)) }
        ensures outer { OnOk result (self.new.outer.items ≡ self.old.outer.items) }
    {
        let mut all = take_out(self.alloc, signals);
        for i in 0..all.len() {
            self.signal(spot, direction, &mut all[i])?;
        }
        *signals = Items::of(all);
        Ok(())
    }

    fn component(&mut self, spot: Spot, component: &mut DeclaredComponent) -> Result<(), Stop<Spot>>
        ensures named { Gives (λ _. bare_component component.new) result (state_of self.new)
            (named_component spot (state_of self.old) (bare_component component.old)) }
        ensures outer { OnOk result (self.new.outer.items ≡ self.old.outer.items) }
    {
        self.name_all(&mut component.dimensions);
        component.meant = Meant::Component(self.components);
        self.declare(spot, component.name.as_slice(), component.meant)?;
        Ok(())
    }

    pub(crate) fn components(
        &mut self,
        spot: Spot,
        components: &mut Items<DeclaredComponent>,
    ) -> Result<(), Stop<Spot>>
        ensures named { Gives (λ _. map bare_component components.new) result (state_of self.new)
            (in_turn (named_component spot) (state_of self.old)
            (map bare_component components.old)) }
        ensures outer { OnOk result (self.new.outer.items ≡ self.old.outer.items) }
    {
        let mut all = take_out(self.alloc, components);
        for i in 0..all.len() {
            self.component(spot, &mut all[i])?;
        }
        *components = Items::of(all);
        Ok(())
    }
}
