//! Expressions: each name in them gets its meaning, where it stands.
ghost use Rattle.std.specs.Prelude.{◌≡◌, map};
ghost use Rattle.cir_ast.specs.Tree.{bare, bare_exprs, bare_place, bare_anonymous};
ghost use Rattle.cir_ast.specs.Tree.{as_accessors, as_named};
ghost use Rattle.cir_resolve.specs.Naming.{named_expr, named_exprs, named_accessors};
ghost use Rattle.cir_resolve.specs.Naming.{named_each};
ghost use Rattle.cir_resolve.specs.Answers.{state_of};

use crate::lists::take_out;
use crate::scope::Scopes;
use cir_ast::program::{Accessor, Anonymous, Expr, Inputs, NamedInput, Place};
use items::Items;

#[tactic(auto, using(crate::proofs::Named::rows))]
impl Scopes<'_> {
    #[cycle(naming)]
    pub(crate) fn name(&self, expression: &mut Expr)
        ensures { bare expression.new ≡ named_expr (state_of self.now) (bare expression.old) }
    {
        match expression {
            Expr::Number(_) => {}
            Expr::Place(place) => self.name_place(place),
            Expr::Call(parallel, name, meant, arguments) => {
                // The word stays.
                let _parallel = *parallel;
                *meant = self.called(name.as_slice());
                self.name_all(arguments);
            }
            Expr::Anonymous(anonymous) => self.name_anonymous(anonymous),
            Expr::Parentheses(inner) => self.name(inner),
            Expr::Array(elements) => self.name_all(elements),
            Expr::Unary(_, operand) => self.name(operand),
            Expr::Binary(_, left, right) => {
                self.name(left);
                self.name(right);
            }
            Expr::Choice(condition, chosen, other) => {
                self.name(condition);
                self.name(chosen);
                self.name(other);
            }
        }
    }

    #[cycle(naming)]
    pub(crate) fn name_all(&self, expressions: &mut Items<Expr>)
        ensures each { map bare expressions.new
            ≡ map (named_expr (state_of self.now)) (map bare expressions.old) }
        ensures named { bare_exprs expressions.new
            ≡ named_exprs (state_of self.now) (bare_exprs expressions.old) }
    {
        let mut all = take_out(self.alloc, expressions);
        for i in 0..all.len() {
            self.name(&mut all[i]);
        }
        *expressions = Items::of(all);
    }

    #[cycle(naming)]
    pub(crate) fn name_place(&self, place: &mut Place)
        ensures { bare_place place.new ≡ named_expr (state_of self.now) (bare_place place.old) }
    {
        place.meant = self.read(place.name.as_slice());
        self.name_accessors(&mut place.accessors);
    }

    #[cycle(naming)]
    fn name_accessors(&self, accessors: &mut Items<Accessor>)
        ensures { as_accessors accessors.new
            ≡ named_accessors (state_of self.now) (as_accessors accessors.old) }
    {
        if accessors.is_empty() {
            return;
        }
        let mut all = take_out(self.alloc, accessors);
        for i in 0..all.len() {
            if let Accessor::Index(index) = &mut all[i] {
                self.name(index);
            }
        }
        *accessors = Items::of(all);
    }

    #[cycle(naming)]
    pub(crate) fn name_anonymous(&self, anonymous: &mut Anonymous)
        ensures { bare_anonymous anonymous.new
            ≡ named_expr (state_of self.now) (bare_anonymous anonymous.old) }
    {
        anonymous.meant = self.called(anonymous.name.as_slice());
        self.name_all(&mut anonymous.arguments);
        match &mut anonymous.inputs {
            Inputs::Listed(values) => self.name_all(values),
            Inputs::Named(inputs) => self.name_each(inputs),
        }
    }

    #[cycle(naming)]
    fn name_each(&self, inputs: &mut Items<NamedInput>)
        ensures { as_named inputs.new ≡ named_each (state_of self.now) (as_named inputs.old) }
    {
        let mut all = take_out(self.alloc, inputs);
        for i in 0..all.len() {
            self.name(&mut all[i].value);
        }
        *inputs = Items::of(all);
    }
}
