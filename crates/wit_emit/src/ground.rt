//! What stays the same in the whole code.
ghost use Rattle.std.specs.Prelude.{◌≡◌, IfOk, option_map};
ghost use Rattle.std.specs.Option.{option_copied};
ghost use Rattle.cir_ast.specs.Tree.{bare};
ghost use Rattle.cir_meaning.specs.Texts.{literal_number};
ghost use Rattle.wit_lower.specs.Homes as L;
ghost use Rattle.wit_sourced.specs.Shown.{home_of, homes_of};
ghost use Rattle.wit_emit.specs.Grounds.{front_of, ground_of};
ghost use Rattle.wit_sourced.specs.Loaded.{called_of};

use cir_arrays::all_known;
use cir_ast::program::{Expr, Meant};
use cir_frame::ComponentEntry;
use cir_rules::CallTable;
use gold_field::Gold;
use std::alloc::{AllocError, Global};
use wit_sourced::{
    Called, Home, Loaded, Scope, Sought, component_dims, is_inside, number_of, offset,
};

/// A number as it is written.
fn literal_number(e: &Expr) -> Option<u64>
    ensures { result ≡ literal_number (bare e.now) }
{
    match e {
        Expr::Parentheses(inner) => literal_number(inner),
        Expr::Number(n) => Some(Gold::from_wide(*n).get()),
        _ => None,
    }
}

/// How numbers of dimensions and of indices of components are known, and values of calls.
#[derive(Clone, Copy)]
pub enum Knowing<'a> {
    /// As they are written; each call is made.
    Written,
    /// As a step loads them.
    Loaded(&'a Loaded<'a>),
}

/// What stays the same while code is made: the procedures that it may call, what is known of
/// numbers, and the components of the body.
#[derive(Drop)]
pub struct Ground<'a> {
    pub alloc: Global,
    /// The procedures, by their function and the shapes of its arguments.
    pub keys: &'a CallTable,
    pub knowing: Knowing<'a>,
    /// By the number of their declaration. In a function there are none.
    pub components: &'a [Option<ComponentEntry>],
}

/// What stands in front of indices: a name; the home of a port that is found already; or nothing,
/// where a known index of a component is outside its dimension.
#[derive(Clone, Copy)]
pub enum Front<'a> {
    Named(Meant),
    Found(Option<&'a Home>),
    Lost,
}

impl Ground<'_> {
    /// The number that an expression has whatever is read.
    pub fn known(&self, e: &Expr) -> Result<Option<u64>, AllocError>
        ensures { IfOk result (λ n. n ≡ (ground_of self.now).known (bare e.now)) }
    {
        match self.knowing {
            Knowing::Written => Ok(literal_number(e)),
            Knowing::Loaded(loaded) => Ok(number_of(loaded.known(self.alloc, e)?)),
        }
    }

    /// The value that a call has already.
    pub fn called(&self, call: &Expr) -> Option<&Called>
        ensures { option_map called_of (option_copied result)
            ≡ (ground_of self.now).called (bare call.now) }
    {
        match self.knowing {
            Knowing::Written => None,
            Knowing::Loaded(loaded) => loaded.called(call),
        }
    }

    /// None for a component that isn't declared.
    fn dims_of(&self, component: u32) -> &[u64]
        ensures { result.now ≡ (ground_of self.now).components component }
    {
        component_dims(self.components, component)
    }

    /// The dimensions of a component.
    pub fn component_dims(&self, front: Front) -> &[u64]
        ensures { result.now ≡ L.component_dims (ground_of self.now) (front_of front.entry) }
    {
        match front {
            Front::Named(Meant::Component(n)) => self.dims_of(n),
            _ => &[],
        }
    }

    /// The signal of this name of the component that the indices mean, where all are known.
    pub fn port_of<'s>(
        &self,
        scope: &'s Scope,
        front: Front<'s>,
        indices: &[Option<u64>],
        name: &[u8],
    ) -> Result<Front<'s>, AllocError>
        ensures { IfOk result (λ f. front_of f ≡ L.port_of (ground_of self.now)
            (homes_of scope.now.homes.items) (front_of front.entry) indices.now name.now) }
    {
        let Front::Named(Meant::Component(n)) = front else {
            return Ok(Front::Found(None));
        };
        let Some(indices) = all_known(self.alloc, indices)? else {
            return Ok(Front::Found(None));
        };
        let dims = self.dims_of(n);
        if !is_inside(dims, indices.as_slice()) {
            return Ok(Front::Lost);
        }
        let element = offset(dims, indices.as_slice())?;
        Ok(Front::Found(scope.find(Sought::Port(n, element, name))))
    }
}

impl<'s> Front<'s> {
    /// The home of a place without its indices.
    pub fn home(self, scope: &'s Scope) -> Option<&'s Home>
        ensures { option_map home_of (option_copied result)
            ≡ L.home_of (homes_of scope.now.homes.items) (front_of self.entry) }
    {
        match self {
            Front::Named(Meant::Variable(n)) => scope.find(Sought::Variable(n)),
            Front::Named(Meant::Signal(_, n)) => scope.find(Sought::Signal(n)),
            Front::Named(_) | Front::Lost => None,
            Front::Found(home) => home,
        }
    }
}
