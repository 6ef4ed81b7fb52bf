//! The names in scope.
ghost use Rattle.std.specs.Prelude.{◌≡◌, IsTrue, OnOk};
ghost use Rattle.cir_resolve.specs.Scope.{opening, in_scope, read_at, called_at, entered, left};
ghost use Rattle.cir_resolve.specs.Scope.{counted, declared};
ghost use Rattle.cir_resolve.specs.Answers.{names_in, nested, state_of, IsInside, Gives};

use crate::names::Names;
use crate::stop::Stop;
use crate::table::next;
use cir_ast::program::{Direction, Meant, Spot};
use std::alloc::{AllocError, Global};
use std::mem;

/// The names in scope, by the blocks that declare them, and how many are declared so far.
#[derive(Drop)]
pub(crate) struct Scopes<'d> {
    pub(crate) alloc: Global,
    defined: &'d Names,
    /// The blocks around the innermost one, the outermost first.
    outer: Vec<Names>,
    inner: Names,
    pub(crate) variables: u32,
    pub(crate) signals: u32,
    pub(crate) components: u32,
}

/// What a name means in nested blocks, the outermost first.
fn nested(blocks: &[Names], name: &[u8]) -> Option<Meant>
    ensures { result ≡ nested blocks.now name.now }
{
    let mut left = blocks;
    while let Some((names, around)) = left.split_last() {
        if let Some(meant) = names.get(name) {
            return Some(meant);
        }
        left = around;
    }
    None
}

#[tactic(auto, unfolding(crate::specs::Answers::state_of))]
impl<'d> Scopes<'d> {
    /// At the beginning of a definition.
    pub(crate) fn new(alloc: Global, defined: &'d Names) -> Scopes<'d>
        ensures { state_of result ≡ opening (names_in defined.now) }
    {
        Scopes {
            alloc,
            defined,
            outer: Vec::new(alloc),
            inner: Names::new(alloc),
            variables: 0,
            signals: 0,
            components: 0,
        }
    }

    /// Opens a block inside the scope.
    pub(crate) fn open(&mut self) -> Result<(), AllocError>
        ensures state { OnOk result (state_of self.new ≡ entered (state_of self.old)) }
        ensures inside { OnOk result (IsInside self.old self.new) }
    {
        let names = mem::replace(&mut self.inner, Names::new(self.alloc));
        self.outer.push(names)?;
        Ok(())
    }

    /// Closes the innermost block, with its names.
    pub(crate) fn close(&mut self)
        ensures state { (around : Scopes) → IsInside around self.old
            → state_of self.new ≡ left (state_of around) (state_of self.old) }
        ensures outer { (around : Scopes) → IsInside around self.old
            → self.new.outer.items ≡ around.outer.items }
    {
        match self.outer.pop() {
            Some(names) => self.inner = names,
            None => self.inner = Names::new(self.alloc),
        }
    }

    /// Counts one more declaration, where its number still has a next one.
    fn count(&mut self, meant: Meant) -> bool
        ensures counted { IsTrue result → state_of self.new ≡ counted (state_of self.old) meant }
        ensures kept { (self.new.outer ≡ self.old.outer) × (self.new.inner ≡ self.old.inner) }
    {
        match meant {
            Meant::Variable(_) => next(&mut self.variables),
            Meant::Signal(_, _) => next(&mut self.signals),
            Meant::Component(_) => next(&mut self.components),
            Meant::Other => true,
            Meant::Template(_) => true,
            Meant::Function(_) => true,
        }
    }

    /// Declares a name in the innermost block. Its number is below 2^32 - 1: more have no room in
    /// memory.
    pub(crate) fn declare(
        &mut self,
        spot: Spot,
        name: &[u8],
        meant: Meant,
    ) -> Result<(), Stop<Spot>>
        ensures named { Gives (λ _. meant) result (state_of self.new)
            (declared spot (state_of self.old) name.now meant) }
        ensures outer { OnOk result (self.new.outer.items ≡ self.old.outer.items) }
    {
        if self.inner.get(name).is_some() {
            return Err(Stop::Twice(spot));
        }
        if !self.count(meant) {
            return Err(Stop::OutOfMemory);
        }
        let name = Vec::from_slice(self.alloc, name)?;
        self.inner.push(name, meant)?;
        Ok(())
    }

    /// What a name means among what is declared.
    fn declared(&self, name: &[u8]) -> Option<Meant>
        ensures { result ≡ in_scope (state_of self.now) name.now }
    {
        match self.inner.get(name) {
            Some(meant) => Some(meant),
            None => nested(self.outer.as_slice(), name),
        }
    }

    /// What a place's name means.
    pub(crate) fn read(&self, name: &[u8]) -> Meant
        ensures { result ≡ read_at (state_of self.now) name.now }
    {
        match self.declared(name) {
            Some(meant) => meant,
            None => self.defined.get(name).unwrap_or(Meant::Other),
        }
    }

    /// What a called name means.
    pub(crate) fn called(&self, name: &[u8]) -> Meant
        ensures { result ≡ called_at (state_of self.now) name.now }
    {
        match self.defined.get(name) {
            Some(meant) => meant,
            None => self.declared(name).unwrap_or(Meant::Other),
        }
    }
}
