//! Parts of statements that declare nothing, with the meaning of each name.
ghost use Rattle.std.specs.Prelude.{◌≡◌, map};
ghost use Rattle.cir_ast.specs.Tree.{bare_value, bare_signal_value, bare_assign, bare_argument};
ghost use Rattle.cir_ast.specs.Tree.{bare_slot, bare_target, bare_source};
ghost use Rattle.cir_resolve.specs.Naming.{named_value, named_signal_value, named_assign};
ghost use Rattle.cir_resolve.specs.Naming.{named_argument, named_slot, named_target, named_source};
ghost use Rattle.cir_resolve.specs.Answers.{state_of};

use crate::lists::take_out;
use crate::scope::Scopes;
use cir_ast::program::{Assign, Expr, LogArgument, SignalValue, Slot, Source, Target};
use items::Items;

#[tactic(auto, using(crate::proofs::InTurn::changed_all))]
impl Scopes<'_> {
    pub(crate) fn value(&self, value: &mut Option<Expr>)
        ensures { bare_value value.new ≡ named_value (state_of self.now) (bare_value value.old) }
    {
        if let Some(value) = value {
            self.name(value);
        }
    }

    pub(crate) fn signal_value(&self, value: &mut SignalValue)
        ensures { bare_signal_value value.new
            ≡ named_signal_value (state_of self.now) (bare_signal_value value.old) }
    {
        if let SignalValue::Given(_, value) = value {
            self.name(value);
        }
    }

    pub(crate) fn assign(&self, assign: &mut Assign)
        ensures { bare_assign assign.new
            ≡ named_assign (state_of self.now) (bare_assign assign.old) }
    {
        match assign {
            Assign::Set(place, value) => {
                self.name_place(place);
                self.name(value);
            }
            Assign::Compound(place, _, value) => {
                self.name_place(place);
                self.name(value);
            }
            Assign::Left(place, _, value) => {
                self.name_place(place);
                self.name(value);
            }
            Assign::Increment(place) => self.name_place(place),
            Assign::Decrement(place) => self.name_place(place),
        }
    }

    pub(crate) fn arguments(&self, arguments: &mut Items<LogArgument>)
        ensures { map bare_argument arguments.new
            ≡ map (named_argument (state_of self.now)) (map bare_argument arguments.old) }
    {
        let mut all = take_out(self.alloc, arguments);
        for i in 0..all.len() {
            if let LogArgument::Value(value) = &mut all[i] {
                self.name(value);
            }
        }
        *arguments = Items::of(all);
    }

    fn slots(&self, slots: &mut Items<Slot>)
        ensures { map bare_slot slots.new
            ≡ map (named_slot (state_of self.now)) (map bare_slot slots.old) }
    {
        let mut all = take_out(self.alloc, slots);
        for i in 0..all.len() {
            if let Slot::Place(place) = &mut all[i] {
                self.name_place(place);
            }
        }
        *slots = Items::of(all);
    }

    pub(crate) fn target(&self, target: &mut Target)
        ensures { bare_target target.new
            ≡ named_target (state_of self.now) (bare_target target.old) }
    {
        if let Target::Tuple(slots) = target {
            self.slots(slots);
        }
    }

    pub(crate) fn source(&self, source: &mut Source)
        ensures { bare_source source.new
            ≡ named_source (state_of self.now) (bare_source source.old) }
    {
        match source {
            Source::One(value) => self.name(value),
            Source::Tuple(values) => self.name_all(values),
        }
    }
}
