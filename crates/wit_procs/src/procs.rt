//! The procedures of functions that are called when a program runs.
ghost use Rattle.std.specs.Prelude.{◌≡◌, ◌≤◌, [], ◌∷◌, ◌++◌, map, drop, length, IfOk, OnOk};
ghost use Rattle.std.specs.Prelude.{IfErr};
ghost use Rattle.cir_ast.specs.Program.{bare_program};
ghost use Rattle.cir_rules.specs.Shown.{made_of};
ghost use Rattle.wit_lower.specs.Fits.{HasKey};
ghost use Rattle.wit_lower.specs.Procedures as L;
ghost use Rattle.wit_lower.specs.Procedures.{IsTable};
ghost use Rattle.wit_lower.specs.Values.{number_of};
ghost use Rattle.wit_procs.specs.Promised.{CanFill, Refuses, IsWhole, keys_in};
ghost use Rattle.cir_scope.specs.Runnable.{AreRunnable};
ghost use Rattle.wit_sourced.specs.Shown.{scope_of};
ghost use Rattle.wit_procs.specs.Table.{Grows, IsMade, AreAdded};

use crate::keeping::may_be_made;
use crate::keys::add_reached;
use cir_ast::program::Program;
use cir_ast::{Form, Kind};
use cir_rules::{CallTable, Made, Verdict, judge};
use items::Items;
use numbers::{TooLarge, narrow};
use std::alloc::{AllocError, AllocFailed, Global};
use wit_code::{Op, Proc};
use wit_emit::{Ground, Knowing, place_of};
use wit_sourced::Scope;
use wit_statements::{emit_block, most_named, params_of};

/// Why a function that is called when a program runs has no code.
#[derive(Clone, Copy)]
pub enum LowerFault {
    /// It has a form that is left out of such functions.
    Form(Form),
    /// Shapes differ.
    Shape,
    /// The first function that has too many elements has this many.
    Elements(u64),
    OutOfMemory,
}

impl From<AllocError> for LowerFault {
    ghost use Rattle.std.specs.Prelude.{◌≡◌};
    ghost use Rattle.wit_procs.specs.declared.procs.LowerFault.TheVariants.{OutOfMemory};

    ghost from_gives = { λ _ r. r ≡ OutOfMemory };

    fn from(_error: AllocError) -> LowerFault {
        LowerFault::OutOfMemory
    }
}

impl From<TooLarge> for LowerFault {
    ghost use Rattle.std.specs.Prelude.{◌≡◌};
    ghost use Rattle.wit_procs.specs.declared.procs.LowerFault.TheVariants.{OutOfMemory};

    ghost from_gives = { λ _ r. r ≡ OutOfMemory };

    fn from(_error: TooLarge) -> LowerFault {
        LowerFault::OutOfMemory
    }
}

impl<T: Drop> From<AllocFailed<T>> for LowerFault {
    ghost use Rattle.std.specs.Prelude.{◌≡◌};
    ghost use Rattle.wit_procs.specs.declared.procs.LowerFault.TheVariants.{OutOfMemory};

    ghost from_gives = { λ _ r. r ≡ OutOfMemory };

    fn from(_error: AllocFailed<T>) -> LowerFault {
        LowerFault::OutOfMemory
    }
}

/// The procedures of a program's functions, each by its function with the shapes of its arguments.
#[derive(Drop)]
pub struct Procs<'p> {
    pub alloc: Global,
    pub program: &'p Program,
    pub keys: CallTable,
    pub procs: Vec<Proc>,
}

/// Arguments stand in a row.
fn arguments(alloc: Global, shapes: &[Vec<u64>]) -> Result<Scope, AllocError>
    ensures { IfOk result (λ scope. scope_of scope
        ≡ L.arguments_scope 0 (map (λ d. d.items) shapes.now) L.no_scope) }
{
    let mut scope = Scope::new(alloc);
    for at in 0..shapes.len() {
        let dims = Items::from_slice(alloc, shapes[at].as_slice())?;
        scope.declare(narrow(at as u64)?, dims)?;
    }
    Ok(scope)
}

fn body(
    alloc: Global,
    program: &Program,
    keys: &CallTable,
    key: &Made,
) -> Result<Items<Op>, AllocError>
    ensures { IfOk result (λ code. code ≡ L.function_code (bare_program program.now)
        (map made_of keys.now.calls.items) (made_of key.now)) }
{
    let ground = Ground {
        alloc,
        keys,
        knowing: Knowing::Written,
        components: &[],
    };
    let mut scope = arguments(alloc, key.shapes.as_slice())?;
    let mut code = Items::new(alloc);
    match program.functions.get(key.function as usize) {
        Some(function) => {
            emit_block(&ground, &mut scope, &mut code, &function.body)?;
            Ok(code)
        }
        None => Ok(code),
    }
}

fn procedure(
    alloc: Global,
    program: &Program,
    keys: &CallTable,
    key: &Made,
) -> Result<Proc, AllocError>
    ensures { IfOk result (IsMade (bare_program program.now)
        (map made_of keys.now.calls.items) (made_of key.now)) }
{
    let body = body(alloc, program, keys, key)?;
    let params = params_of(key)?;
    let slots = params.max(most_named(keys.calls.as_slice(), body.as_slice())?);
    Ok(Proc {
        params,
        slots,
        body,
    })
}

/// Adds the procedures of the keys that have none yet.
fn add_procedures(
    alloc: Global,
    program: &Program,
    keys: &CallTable,
    procs: &mut Vec<Proc>,
) -> Result<(), AllocError>
    requires { length procs.old.items ≤ length keys.now.calls.items }
    ensures { OnOk result (AreAdded (bare_program program.now) (map made_of keys.now.calls.items)
        procs.old.items procs.new.items) }
{
    let from = procs.len();
    for at in from..keys.calls.len() {
        let code = procedure(alloc, program, keys, &keys.calls[at])?;
        procs.push(code)?;
    }
    Ok(())
}

/// Tests the rules for what calls reach.
fn test(alloc: Global, program: &Program, calls: &[Made]) -> Result<(), LowerFault>
    ensures { IfErr result (Refuses (bare_program program.now) (map made_of calls.now)) }
{
    match judge(alloc, program, calls)? {
        Verdict::Fine(elements) => {
            if elements == 0 {
                return Ok(());
            }
            Err(LowerFault::Elements(elements))
        }
        Verdict::Faulty(Kind::NotInProfile { form }) => Err(LowerFault::Form(form)),
        Verdict::Faulty(Kind::ShapeDiffers) => Err(LowerFault::Shape),
        Verdict::Faulty(_) => Err(LowerFault::OutOfMemory),
    }
}

impl<'p> Procs<'p> {
    /// No function is lowered yet.
    pub fn new(alloc: Global, program: &'p Program) -> Procs<'p>
        ensures whole { IsWhole result }
        ensures program { result.program.now ≡ program.now }
        ensures keys { keys_in result ≡ [] }
    {
        Procs {
            alloc,
            program,
            keys: CallTable::new(alloc),
            procs: Vec::new(alloc),
        }
    }

    /// The number of the procedure of a function for arguments of these shapes, which is the same
    /// at each call; with all that it calls it gets one where it has none. After an error the table
    /// isn't used again.
    pub fn lower_function(
        &mut self,
        function: u32,
        shapes: Vec<Vec<u64>>,
    ) -> Result<u32, LowerFault>
        requires whole { IsWhole self.old }
        requires runnable { AreRunnable (bare_program self.old.program.now) }
        ensures number { IfOk result (λ n. n ≡ number_of (keys_in self.new)
            (made_of record { function = function; shapes = shapes })) }
        ensures there { OnOk result (HasKey (keys_in self.new)
            (made_of record { function = function; shapes = shapes })) }
        ensures whole { OnOk result (IsWhole self.new) }
        ensures grows { OnOk result (Grows (keys_in self.old) (keys_in self.new)) }
        ensures program { OnOk result (self.new.program ≡ self.old.program) }
        ensures refused { IfErr result (Refuses (bare_program self.old.program.now)
            (made_of record { function = function; shapes = shapes } ∷ [])) }
    {
        let key = Made { function, shapes };
        let place = place_of(&self.keys, &key);
        if place >= self.keys.calls.len() {
            self.add(key)?;
        }
        Ok(narrow(place as u64)?)
    }

    /// The procedures of these keys and of all that they reach, which is added behind them.
    pub fn of(alloc: Global, program: &'p Program, keys: CallTable) -> Result<Procs<'p>, LowerFault>
        ensures whole { AreRunnable (bare_program program.now) → IfOk result (λ t. IsWhole t) }
        ensures table { AreRunnable (bare_program program.now) → IfOk result (λ t.
            IsTable (bare_program program.now) (keys_in t) t.procs.items) }
        ensures grows { IfOk result (λ t. Grows (map made_of keys.calls.items) (keys_in t)) }
        ensures program { IfOk result (λ t. t.program.now ≡ program.now) }
        ensures refused { IfErr result (Refuses (bare_program program.now)
            (map made_of keys.calls.items)) }
    {
        let none = Vec::new(alloc);
        let mut table = Procs {
            alloc,
            program,
            keys,
            procs: none,
        };
        table.fill()?;
        Ok(table)
    }

    /// Adds a key that isn't there, with all that it calls.
    fn add(&mut self, key: Made) -> Result<(), LowerFault>
        requires whole { IsWhole self.old }
        requires runnable { AreRunnable (bare_program self.old.program.now) }
        requires new { number_of (keys_in self.old) (made_of key) ≡ length (keys_in self.old) }
        ensures whole { OnOk result (IsWhole self.new) }
        ensures grows { OnOk result (Grows (keys_in self.old ++ made_of key ∷ [])
            (keys_in self.new)) }
        ensures program { OnOk result (self.new.program ≡ self.old.program) }
        ensures refused { IfErr result (Refuses (bare_program self.old.program.now)
            (made_of key ∷ [])) }
    {
        self.keys.add(self.alloc, key)?;
        self.fill()?;
        Ok(())
    }

    /// Procedures of the keys that have none yet, with all that these reach.
    fn fill(&mut self) -> Result<(), LowerFault>
        requires { length self.old.procs.items ≤ length self.old.keys.calls.items }
        ensures whole { OnOk result (CanFill self.old → IsWhole self.new) }
        ensures grows { OnOk result (Grows (keys_in self.old) (keys_in self.new)) }
        ensures program { OnOk result (self.new.program ≡ self.old.program) }
        ensures refused { IfErr result (Refuses (bare_program self.old.program.now)
            (drop (length self.old.procs.items) (keys_in self.old))) }
    {
        let from = self.procs.len();
        test(self.alloc, self.program, &self.keys.calls[from..])?;
        add_reached(self.alloc, self.program, &mut self.keys, from)?;
        if !may_be_made(self.alloc, self.program, &self.keys.calls[from..])? {
            return Err(LowerFault::OutOfMemory);
        }
        add_procedures(self.alloc, self.program, &self.keys, &mut self.procs)?;
        Ok(())
    }

    /// The procedures by their numbers.
    pub fn finish(self) -> Vec<Proc>
        ensures { result.items ≡ self.entry.procs.items }
    {
        self.procs
    }
}
