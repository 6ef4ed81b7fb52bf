ghost use Rattle.std.specs.Prelude.{◌≡◌, ◌<◌, ◌≤◌, ◌+◌, ◌^◌, suc, [], ◌∷◌, length, map, IfOk};
ghost use Rattle.std.specs.Prelude.{IfSome, true};
ghost use Rattle.cir_token.specs.declared.token.Symbol.TheVariants.{Question};
ghost use Rattle.cir_expression.specs.Reading.{expression, place, arguments, climb, chain, choice};
ghost use Rattle.cir_expression.specs.Reading.{operand_by, grouped_by, named_by, arguments_by};
ghost use Rattle.cir_expression.specs.Reading.{called_by, named_inputs_by, accessors_by, element};
ghost use Rattle.cir_expression.specs.Reading.{elements_to, whole, group};
ghost use Rattle.cir_expression.specs.Combinators.{listed_to, next};
ghost use Rattle.cir_expression.specs.Front.{begins};
ghost use Rattle.cir_expression.specs.Answers.{kinds, Reads, seen, seen_element, seen_group, named};
ghost use Rattle.cir_expression.specs.Answers.{seen_accessors, seen_input};
ghost use Rattle.cir_expression.specs.Measured.{IsMeasured, IsMeasuredPath, IsMeasuredNaming};
ghost use Rattle.cir_expression.specs.Measured.{seen_reading, Finds, Measures, Gathers};

use crate::measured::{
    Listing, Naming, Path, Reading, applied, array, call, chosen, component, enclosed, joined,
    place,
};
use crate::operators::level_of;
use crate::reader::{Reader, Stop};
use crate::trimmed::tight;
use cir_ast::Blank;
use cir_ast::marked::{Accessor, Expr, Inputs, NamedInput, Place};
use cir_token::{Reserved, Symbol, Text, TokenKind};
use std::alloc::Global;

/// What begins with a parenthesis.
#[derive(Drop)]
pub enum Grouped<N> {
    /// An expression that begins with parentheses.
    Whole(Expr<N>),
    /// The elements of a tuple, two or more; None is `_`.
    Tuple(Vec<Option<Expr<N>>>),
}

impl<'a> Reader<'a> {
    /// An expression that is at most this high.
    #[tactic(auto, unfolding(crate::specs::Reading::expression))]
    pub fn expression<N: Blank + Drop>(&mut self, alloc: Global, room: u32) -> Result<Expr<N>, Stop>
        requires { room < 2 ^ 16 }
        ensures { Reads seen result (kinds self.new.rest.now)
            (expression room (kinds self.old.rest.now)) }
    {
        let found = self.climb(alloc, room, 1)?;
        Ok(found.into_tree())
    }

    /// A name with its indices and members, at most this high.
    #[tactic(auto, unfolding(crate::specs::Reading::place, crate::specs::Reading::expression))]
    pub fn place<N: Blank + Drop>(&mut self, alloc: Global, room: u32) -> Result<Place<N>, Stop>
        requires { room < 2 ^ 16 }
        ensures { Reads named result (kinds self.new.rest.now)
            (place room (kinds self.old.rest.now)) }
    {
        if room == 0 {
            return Err(Stop::NoTree);
        }
        let name = self.name(alloc)?;
        let path = self.accessors(alloc, room - 1)?;
        Ok(Place::of(name, N::blank(), tight(path.accessors)))
    }

    /// No expression or more with commas between them, each at most this high, and `)`.
    #[tactic(auto, unfolding(crate::specs::Reading::arguments, crate::specs::Reading::expression))]
    pub fn arguments<N: Blank + Drop>(
        &mut self,
        alloc: Global,
        room: u32,
    ) -> Result<Vec<Expr<N>>, Stop>
        requires { room < 2 ^ 16 }
        ensures { Reads (λ v. map seen v.items) result (kinds self.new.rest.now)
            (arguments room (kinds self.old.rest.now)) }
    {
        let found = self.enclosed_list(alloc, room)?;
        Ok(found.items)
    }

    /// What stands behind a `(` that begins an expression or a tuple: no more than the `)` of a
    /// tuple, or the whole expression. Each is at most this high.
    #[tactic(auto, unfolding(crate::specs::Reading::group))]
    pub fn group<N: Blank + Drop>(&mut self, alloc: Global, room: u32) -> Result<Grouped<N>, Stop>
        requires { room < 2 ^ 16 }
        ensures { Reads seen_group result (kinds self.new.rest.now)
            (group room (kinds self.old.rest.now)) }
    {
        let first = self.element(alloc, room)?;
        if self.begins(Symbol::Comma) {
            self.skip();
            let elements = self.elements(alloc, room, tree_of(first))?;
            return Ok(Grouped::Tuple(elements));
        }
        self.behind(Symbol::CloseParenthesis)?;
        Ok(Grouped::Whole(self.whole(alloc, room, first)?))
    }

    // An expression, or None for `_`.
    #[tactic(auto, unfolding(crate::specs::Reading::expression))]
    fn element<N: Blank + Drop>(
        &mut self,
        alloc: Global,
        room: u32,
    ) -> Result<Option<Reading<N>>, Stop>
        requires { room < 2 ^ 16 }
        ensures read { Finds seen_reading (λ inner. IfSome inner IsMeasured) result
            (kinds self.new.rest.now) (element room (kinds self.old.rest.now)) }
        ensures low { IfOk result (λ inner. IfSome inner (λ r. r.height ≤ room)) }
    {
        if self.begins_underscore() {
            self.skip();
            return Ok(None);
        }
        Ok(Some(self.climb(alloc, room, 1)?))
    }

    // The elements behind the first one, with commas between them, and `)`.
    fn elements<N: Blank + Drop>(
        &mut self,
        alloc: Global,
        room: u32,
        first: Option<Expr<N>>,
    ) -> Result<Vec<Option<Expr<N>>>, Stop>
        requires { room < 2 ^ 16 }
        ensures { Reads (λ v. map seen_element v.items) result (kinds self.new.rest.now)
            (elements_to (length (kinds self.old.rest.now)) room (seen_element first ∷ [])
            (kinds self.old.rest.now)) }
    {
        let mut elements = Vec::new(alloc);
        elements.push(first)?;
        for _ in 0..self.rest.len() {
            let element = self.element(alloc, room)?;
            elements.push(tree_of(element))?;
            if self.begins(Symbol::Comma) {
                self.skip();
            } else {
                self.behind(Symbol::CloseParenthesis)?;
                return Ok(elements);
            }
        }
        Err(Stop::NoTree)
    }

    // The expression that begins with this one in parentheses.
    #[tactic(auto, unfolding(crate::specs::Reading::continued))]
    fn whole<N: Blank + Drop>(
        &mut self,
        alloc: Global,
        room: u32,
        inner: Option<Reading<N>>,
    ) -> Result<Expr<N>, Stop>
        requires room { room < 2 ^ 16 }
        requires measured { IfSome inner IsMeasured }
        requires low { IfSome inner (λ r. r.height ≤ room) }
        ensures { Reads seen result (kinds self.new.rest.now)
            (whole room (seen_reading inner) (kinds self.old.rest.now)) }
    {
        let Some(inner) = inner else {
            return Err(Stop::NoTree);
        };
        if inner.height >= room {
            return Err(Stop::NoTree);
        }
        let left = enclosed(alloc, inner)?;
        let whole = self.chain(alloc, room - 1, 1, left)?;
        let found = self.choice(alloc, room - 1, 1, whole)?;
        Ok(found.into_tree())
    }

    // An expression of at most this height whose operators, but for those in parentheses, are of
    // this level or a tighter one.
    #[cycle(expressions)]
    fn climb<N: Blank + Drop>(
        &mut self,
        alloc: Global,
        room: u32,
        level: u32,
    ) -> Result<Reading<N>, Stop>
        requires { room < 2 ^ 16 }
        ensures read { Measures result (kinds self.new.rest.now)
            (climb room level (kinds self.old.rest.now)) }
        ensures low { IfOk result (λ r. r.height ≤ room) }
    {
        if room == 0 {
            return Err(Stop::NoTree);
        }
        let left = self.operand(alloc, room - 1)?;
        if self.ends(level) {
            return Ok(left);
        }
        let whole = self.chain(alloc, room - 1, level, left)?;
        self.choice(alloc, room - 1, level, whole)
    }

    // The operators behind a left operand, each with its right operand.
    #[cycle(expressions)]
    fn chain<N: Blank + Drop>(
        &mut self,
        alloc: Global,
        inner: u32,
        level: u32,
        left: Reading<N>,
    ) -> Result<Reading<N>, Stop>
        requires room { inner + 1 < 2 ^ 16 }
        requires left { IsMeasured left }
        requires left_low { left.height ≤ inner + 1 }
        ensures read { Measures result (kinds self.new.rest.now)
            (chain (inner + 1) (climb inner) (inner + 1) level (seen left.tree)
            (kinds self.old.rest.now)) }
        ensures low { IfOk result (λ r. r.height ≤ inner + 1) }
    {
        let mut left = left;
        for _ in 0..inner + 1 {
            let Some(op) = self.continues(level) else {
                return Ok(left);
            };
            self.skip();
            let right = self.climb(alloc, inner, level_of(op) + 1)?;
            left = joined(alloc, op, left, right, inner + 1)?;
        }
        if self.continues(level).is_some() {
            Err(Stop::NoTree)
        } else {
            Ok(left)
        }
    }

    // `?` and what follows it, where one comes and may stand here.
    #[cycle(expressions)]
    fn choice<N: Blank + Drop>(
        &mut self,
        alloc: Global,
        inner: u32,
        level: u32,
        condition: Reading<N>,
    ) -> Result<Reading<N>, Stop>
        requires room { inner + 1 < 2 ^ 16 }
        requires condition { IsMeasured condition }
        requires condition_low { condition.height ≤ inner + 1 }
        ensures read { Measures result (kinds self.new.rest.now)
            (choice (climb inner) (inner + 1) level (seen condition.tree)
            (kinds self.old.rest.now)) }
        ensures low { IfOk result (λ r. r.height ≤ inner + 1) }
    {
        if level > 1 {
            return Ok(condition);
        }
        if !self.begins(Symbol::Question) {
            return Ok(condition);
        }
        self.branches(alloc, inner, condition)
    }

    // `?` and what follows it. Few expressions have it, so the room that this takes on the stack is
    // kept out of the way of all others.
    #[cycle(expressions)]
    #[inline(never)]
    fn branches<N: Blank + Drop>(
        &mut self,
        alloc: Global,
        inner: u32,
        condition: Reading<N>,
    ) -> Result<Reading<N>, Stop>
        requires room { inner + 1 < 2 ^ 16 }
        requires condition { IsMeasured condition }
        requires condition_low { condition.height ≤ inner + 1 }
        requires asked { begins Question (kinds self.old.rest.now) ≡ true }
        ensures read { Measures result (kinds self.new.rest.now)
            (choice (climb inner) (inner + 1) 1 (seen condition.tree)
            (kinds self.old.rest.now)) }
        ensures low { IfOk result (λ r. r.height ≤ inner + 1) }
    {
        self.skip();
        let first = self.climb(alloc, inner, 1)?;
        self.behind(Symbol::Colon)?;
        let other = self.climb(alloc, inner, 1)?;
        chosen(alloc, condition, first, other, inner + 1)
    }

    // A number, a name with what follows it, or what begins with a symbol.
    #[cycle(expressions)]
    fn operand<N: Blank + Drop>(&mut self, alloc: Global, inner: u32) -> Result<Reading<N>, Stop>
        requires room { inner + 1 < 2 ^ 16 }
        ensures read { Measures result (kinds self.new.rest.now)
            (operand_by (climb inner) (kinds self.old.rest.now)) }
        ensures low { IfOk result (λ r. r.height ≤ inner + 1) }
    {
        let Some((token, rest)) = self.rest.split_first() else {
            return Err(Stop::NoTree);
        };
        match &token.kind {
            TokenKind::Number(n) => {
                self.rest = rest;
                Ok(Reading {
                    tree: Expr::Number(*n),
                    height: 1,
                })
            }
            TokenKind::Name(name) => {
                let name = Text::from_slice(alloc, name.as_slice())?;
                self.rest = rest;
                self.named(alloc, inner, name)
            }
            TokenKind::Reserved(word) => {
                if *word != Reserved::Parallel {
                    return Err(Stop::NoTree);
                }
                self.rest = rest;
                let name = self.name(alloc)?;
                self.behind(Symbol::OpenParenthesis)?;
                self.call(alloc, inner, true, name)
            }
            _ => self.grouped(alloc, inner),
        }
    }

    // An expression in parentheses, an array, or an operator and its operand.
    #[cycle(expressions)]
    fn grouped<N: Blank + Drop>(&mut self, alloc: Global, inner: u32) -> Result<Reading<N>, Stop>
        requires room { inner + 1 < 2 ^ 16 }
        ensures read { Measures result (kinds self.new.rest.now)
            (grouped_by (climb inner) (kinds self.old.rest.now)) }
        ensures low { IfOk result (λ r. r.height ≤ inner + 1) }
    {
        if self.begins(Symbol::OpenParenthesis) {
            self.skip();
            let found = self.climb(alloc, inner, 1)?;
            self.behind(Symbol::CloseParenthesis)?;
            return Ok(enclosed(alloc, found)?);
        }
        if self.begins(Symbol::OpenBracket) {
            self.skip();
            let found = self.list(alloc, inner, Symbol::CloseBracket)?;
            return Ok(array(found));
        }
        let Some(op) = self.unary() else {
            return Err(Stop::NoTree);
        };
        self.skip();
        let found = self.climb(alloc, inner, 12)?;
        Ok(applied(alloc, op, found)?)
    }

    // What stands behind `name(`: the arguments of a call, and the inputs that make it an anonymous
    // component.
    #[cycle(expressions)]
    fn call<N: Blank + Drop>(
        &mut self,
        alloc: Global,
        inner: u32,
        parallel: bool,
        name: Text,
    ) -> Result<Reading<N>, Stop>
        requires room { inner + 1 < 2 ^ 16 }
        ensures read { Measures result (kinds self.new.rest.now)
            (next (arguments_by (climb inner 1) (kinds self.old.rest.now))
            (λ found. called_by (climb inner 1) parallel name found.0 found.1)) }
        ensures low { IfOk result (λ r. r.height ≤ inner + 1) }
    {
        let arguments = self.enclosed_list(alloc, inner)?;
        if !self.begins(Symbol::OpenParenthesis) {
            return Ok(call(parallel, name, arguments));
        }
        self.skip();
        if self.begins_input() {
            let given = self.named_inputs(alloc, inner)?;
            let inputs = Inputs::named(tight(given.inputs));
            return Ok(component(alloc, parallel, name, arguments, inputs, given.height)?);
        }
        let given = self.enclosed_list(alloc, inner)?;
        let inputs = Inputs::listed(tight(given.items));
        Ok(component(alloc, parallel, name, arguments, inputs, given.height)?)
    }

    // One named input or more with commas between them, and `)`.
    #[cycle(expressions)]
    fn named_inputs<N: Blank + Drop>(&mut self, alloc: Global, room: u32) -> Result<Naming<N>, Stop>
        requires room { room < 2 ^ 16 }
        ensures read { Finds (λ n. map seen_input n.inputs.items) IsMeasuredNaming result
            (kinds self.new.rest.now) (named_inputs_by (climb room 1) (kinds self.old.rest.now)) }
        ensures low { IfOk result (λ n. n.height ≤ room) }
    {
        let mut inputs = Vec::new(alloc);
        let mut height = 0;
        for _ in 0..self.rest.len() {
            let (name, arrow) = self.input(alloc)?;
            let item = self.climb(alloc, room, 1)?;
            height = item.height.max(height);
            inputs.push(NamedInput {
                name,
                arrow,
                value: item.into_tree(),
            })?;
            if self.begins(Symbol::Comma) {
                self.skip();
            } else {
                self.behind(Symbol::CloseParenthesis)?;
                return Ok(Naming { inputs, height });
            }
        }
        Err(Stop::NoTree)
    }

    // What stands behind a name: the arguments of a call, or the rest of a place.
    #[cycle(expressions)]
    fn named<N: Blank + Drop>(
        &mut self,
        alloc: Global,
        inner: u32,
        name: Text,
    ) -> Result<Reading<N>, Stop>
        requires room { inner + 1 < 2 ^ 16 }
        ensures read { Measures result (kinds self.new.rest.now)
            (named_by (climb inner 1) name (kinds self.old.rest.now)) }
        ensures low { IfOk result (λ r. r.height ≤ inner + 1) }
    {
        if self.begins(Symbol::OpenParenthesis) {
            self.skip();
            return self.call(alloc, inner, false, name);
        }
        let path = self.accessors(alloc, inner)?;
        Ok(place(name, path))
    }

    // No expression or more with commas between them, and `)`.
    #[cycle(expressions)]
    fn enclosed_list<N: Blank + Drop>(
        &mut self,
        alloc: Global,
        room: u32,
    ) -> Result<Listing<N>, Stop>
        requires room { room < 2 ^ 16 }
        ensures read { Gathers result (kinds self.new.rest.now)
            (arguments_by (climb room 1) (kinds self.old.rest.now)) }
        ensures low { IfOk result (λ l. l.height ≤ room) }
    {
        if self.begins(Symbol::CloseParenthesis) {
            self.skip();
            return Ok(Listing {
                items: Vec::new(alloc),
                height: 0,
            });
        }
        self.list(alloc, room, Symbol::CloseParenthesis)
    }

    // One expression or more with commas between them, and the symbol that closes the list.
    #[cycle(expressions)]
    fn list<N: Blank + Drop>(
        &mut self,
        alloc: Global,
        room: u32,
        close: Symbol,
    ) -> Result<Listing<N>, Stop>
        requires room { room < 2 ^ 16 }
        ensures read { Gathers result (kinds self.new.rest.now)
            (listed_to close (length (kinds self.old.rest.now)) (climb room 1) []
            (kinds self.old.rest.now)) }
        ensures low { IfOk result (λ l. l.height ≤ room) }
    {
        let mut items = Vec::new(alloc);
        let mut height = 0;
        for _ in 0..self.rest.len() {
            let item = self.climb(alloc, room, 1)?;
            height = item.height.max(height);
            items.push(item.into_tree())?;
            if self.begins(Symbol::Comma) {
                self.skip();
            } else {
                self.behind(close)?;
                return Ok(Listing { items, height });
            }
        }
        Err(Stop::NoTree)
    }

    // The indices and members behind a name.
    #[cycle(expressions)]
    fn accessors<N: Blank + Drop>(&mut self, alloc: Global, room: u32) -> Result<Path<N>, Stop>
        requires room { room < 2 ^ 16 }
        ensures read { Finds (λ p. seen_accessors p.accessors.items) IsMeasuredPath result
            (kinds self.new.rest.now)
            (accessors_by (suc (length (kinds self.old.rest.now))) (climb room 1) (λ a. a)
            (kinds self.old.rest.now)) }
        ensures low { IfOk result (λ p. p.height ≤ room) }
    {
        let mut accessors = Vec::new(alloc);
        let mut height = 0;
        for _ in 0..self.rest.len() + 1 {
            if self.begins(Symbol::OpenBracket) {
                self.skip();
                let found = self.climb(alloc, room, 1)?;
                self.behind(Symbol::CloseBracket)?;
                height = found.height.max(height);
                accessors.push(Accessor::Index(found.into_tree()))?;
            } else if self.begins(Symbol::Dot) {
                self.skip();
                let name = self.name(alloc)?;
                accessors.push(Accessor::Member(name))?;
            } else {
                return Ok(Path { accessors, height });
            }
        }
        Err(Stop::NoTree)
    }
}

// The expression without its height.
fn tree_of<N: Drop>(reading: Option<Reading<N>>) -> Option<Expr<N>>
    ensures { seen_element result ≡ seen_reading reading }
{
    match reading {
        Some(found) => Some(found.into_tree()),
        None => None,
    }
}
