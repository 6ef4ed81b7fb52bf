//! The numbers that expressions of a step have whatever the step reads.
ghost use Rattle.std.specs.Prelude.{◌≡◌, ◌==◌, [], option_map, IfOk, Some};
ghost use Rattle.std.specs.List.{list_any};
ghost use Rattle.std.specs.Option.{option_copied};
ghost use Rattle.cir_ast.specs.Tree.{as_accessors, bare};
ghost use Rattle.cir_evaluate.specs.Parts.{operator_by};
ghost use Rattle.gold_field.specs.Operators.{unary_of as number_by};
ghost use Rattle.cir_meaning.specs.Values.{truth_number};
ghost use Rattle.wit_lower.specs.Homes.{Variable};
ghost use Rattle.wit_lower.specs.Known as K;
ghost use Rattle.wit_lower.specs.Sources as R;
ghost use Rattle.wit_sourced.specs.Loads.{input_of};
ghost use Rattle.wit_sourced.specs.Loaded.{called_of, called_in, changed_in, has_call};
ghost use Rattle.wit_sourced.specs.Loaded.{loaded_sources};
ghost use Rattle.wit_sourced.specs.Shown.{home_of};

use crate::elements::{is_inside, offset};
use crate::homes::Home;
use crate::loaded::{CallValue, Called, Loaded};
use crate::names::Sought;
use crate::same::is_same;
use crate::sources::Input;
use cir_arrays::all_known;
use cir_ast::program::{Accessor, Expr, Meant};
use cir_evaluate::{Operator, op_of, operator_of};
use gold_field::{Gold, Op1, Op2, binary, unary};
use numbers::TooLarge;
use std::alloc::{AllocError, Global};

/// Whether the call is one of these.
pub fn is_listed(calls: &[CallValue], call: &Expr) -> bool
    ensures { result ≡ has_call calls.now (bare call.now) }
{
    for known in calls {
        if is_same(known.call, call) {
            return true;
        }
    }
    false
}

impl Loaded<'_> {
    /// The value that a call has already.
    pub fn called(&self, call: &Expr) -> Option<&Called>
        ensures { option_map called_of (option_copied result)
            ≡ called_in self.now.calls.now (bare call.now) }
    {
        for known in self.calls {
            if is_same(known.call, call) {
                return known.value.as_ref();
            }
        }
        None
    }

    /// The number of an expression.
    #[cycle(knowing)]
    pub fn known(&self, alloc: Global, e: &Expr) -> Result<Option<Gold>, AllocError>
        ensures { IfOk result (λ n. n ≡ K.number_known (loaded_sources self.now)
            (changed_in self.now) (bare e.now)) }
    {
        match e {
            Expr::Number(n) => Ok(Some(Gold::from_wide(*n))),
            Expr::Place(place) => {
                self.place_known(alloc, place.meant, place.accessors.as_slice())
            }
            Expr::Call(_, _, _, _) => match self.called(e) {
                Some(value) if value.dims.as_slice().is_empty() => {
                    Ok(Some(value.number().ok_or(AllocError)?))
                }
                _ => Ok(None),
            },
            Expr::Parentheses(inner) => self.known(alloc, inner),
            Expr::Unary(op, a) => Ok(unary_known(op_of(*op), self.known(alloc, a)?)),
            Expr::Binary(op, a, b) => {
                let left = self.known(alloc, a)?;
                let right = self.known(alloc, b)?;
                Ok(binary_known(operator_of(*op), left, right))
            }
            Expr::Choice(c, a, b) => {
                let condition = self.known(alloc, c)?;
                let chosen = self.known(alloc, a)?;
                let other = self.known(alloc, b)?;
                Ok(choice_known(condition, chosen, other))
            }
            Expr::Array(_) | Expr::Anonymous(_) => Ok(None),
        }
    }

    /// The number of a place with all its indices.
    #[cycle(knowing)]
    fn place_known(
        &self,
        alloc: Global,
        meant: Meant,
        accessors: &[Accessor],
    ) -> Result<Option<Gold>, AllocError>
        ensures { IfOk result (λ n. n ≡ K.place_known (loaded_sources self.now)
            (changed_in self.now) meant [] (as_accessors accessors.now)) }
    {
        let mut indices = Vec::new(alloc);
        for accessor in accessors {
            match accessor {
                Accessor::Index(e) => {
                    let index = self.known(alloc, e)?;
                    indices.push(number_of(index))?;
                }
                Accessor::Member(_) => return Ok(None),
            }
        }
        match all_known(alloc, indices.as_slice())? {
            Some(indices) => Ok(self.variable_known(meant, indices.as_slice())?),
            None => Ok(None),
        }
    }

    /// The number of an element of a variable, where it is a constant and doesn't change.
    fn variable_known(&self, meant: Meant, indices: &[u64]) -> Result<Option<Gold>, TooLarge>
        ensures { IfOk result (λ n. n ≡ K.variable_known (loaded_sources self.now)
            (changed_in self.now) meant (Some indices.now)) }
    {
        let Meant::Variable(n) = meant else {
            return Ok(None);
        };
        if self.changes(n) {
            return Ok(None);
        }
        let home = self.sources.named.scope.find(Sought::Variable(n));
        self.element_known(n, home, indices)
    }

    fn changes(&self, n: u32) -> bool
        ensures { result ≡ list_any (λ m. m == n) (changed_in self.now) }
    {
        match self.changed {
            Some(touched) => touched.touches(n),
            None => false,
        }
    }

    fn element_known(
        &self,
        n: u32,
        home: Option<&Home>,
        indices: &[u64],
    ) -> Result<Option<Gold>, TooLarge>
        ensures { IfOk result (λ known. known ≡ K.element_known (loaded_sources self.now) n
            (option_map home_of (option_copied home.entry)) indices.now) }
    {
        let Some(home) = home else {
            return Ok(None);
        };
        let dims = home.dims.as_slice();
        if indices.len() != dims.len() || !is_inside(dims, indices) {
            return Ok(None);
        }
        Ok(self.constant(n, offset(dims, indices)?))
    }

    /// The number of an element that is a constant.
    fn constant(&self, n: u32, element: u64) -> Option<Gold>
        ensures { result ≡ K.constant_of (R.input_of (Variable n)
            (loaded_sources self.now).list element) }
    {
        let mut found = None;
        for source in self.sources.list.as_slice() {
            if source.name.is(Sought::Variable(n)) && element == source.element {
                found = constant_of(source.input);
            }
        }
        found
    }
}

fn constant_of(input: Input) -> Option<Gold>
    ensures { result ≡ K.constant_of (Some (input_of input)) }
{
    match input {
        Input::Constant(n) => Some(n),
        Input::Cell(_) => None,
    }
}

/// The number as the code counts.
pub fn number_of(known: Option<Gold>) -> Option<u64>
    ensures { result ≡ known }
{
    match known {
        Some(n) => Some(n.get()),
        None => None,
    }
}

fn unary_known(op: Op1, a: Option<Gold>) -> Option<Gold>
    ensures { result ≡ K.unary_known (number_by op) a }
{
    match a {
        Some(n) => Some(unary(op, n)),
        None => None,
    }
}

fn truth_known(a: Option<Gold>) -> Option<Gold>
    ensures { result ≡ K.unary_known truth_number a }
{
    match a {
        Some(n) if n == Gold::ZERO => Some(Gold::ZERO),
        Some(_) => Some(Gold::ONE),
        None => None,
    }
}

/// A power by 0 is 1, whatever its base.
fn strict_known(op: Op2, left: Option<Gold>, right: Option<Gold>) -> Option<Gold>
    ensures { result ≡ K.strict_known op left right }
{
    if op == Op2::Pow && right == Some(Gold::ZERO) {
        return Some(Gold::ONE);
    }
    match (left, right) {
        (Some(m), Some(n)) => binary(op, m, n),
        _ => None,
    }
}

fn binary_known(op: Operator, left: Option<Gold>, right: Option<Gold>) -> Option<Gold>
    ensures { result ≡ K.binary_known (operator_by op) left right }
{
    match (op, left) {
        (Operator::Strict(op), left) => strict_known(op, left, right),
        (Operator::And, Some(m)) => {
            if m == Gold::ZERO {
                Some(Gold::ZERO)
            } else {
                truth_known(right)
            }
        }
        (Operator::Or, Some(m)) => {
            if m == Gold::ZERO {
                truth_known(right)
            } else {
                Some(Gold::ONE)
            }
        }
        (Operator::And | Operator::Or, None) => None,
    }
}

fn choice_known(condition: Option<Gold>, chosen: Option<Gold>, other: Option<Gold>) -> Option<Gold>
    ensures { result ≡ K.choice_known condition chosen other }
{
    match condition {
        Some(m) if m == Gold::ZERO => other,
        Some(_) => chosen,
        None => None,
    }
}
