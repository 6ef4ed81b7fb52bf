//! The rules, each over all functions that calls reach.
ghost use Rattle.std.specs.Prelude.{◌≡◌, ◌==◌, ◌||◌, if◌then◌else◌, [], ◌∷◌, map, slice_get, IfOk};
ghost use Rattle.std.specs.Prelude.{OnOk};
ghost use Rattle.cir_ast.specs.Program.{bare_program};
ghost use Rattle.cir_meaning.specs.Functions as F;
ghost use Rattle.cir_meaning.specs.Limits.{standing};
ghost use Rattle.cir_meaning.specs.Reached as R;
ghost use Rattle.cir_rules.specs.Queue.{with_new, visited, told};
ghost use Rattle.cir_rules.specs.Shown.{made_of};
ghost use Rattle.cir_rules.specs.Judged.{Judges, function_calls, dimension_runs, misplaces};
ghost use Rattle.cir_rules.specs.Judged.{misfits, too_many, too_large};

use crate::made::Made;
use crate::ranks::has_run_array;
use crate::shapes::Shapes;
use crate::table::CallTable;
use cir_ast::program::Program;
use cir_ast::{Form, Kind};
use cir_texts::{has_misplaced, has_run_dimension, text_of};
use std::alloc::{AllocError, Global};

/// At most this many elements of one function.
const MOST_ELEMENTS: u64 = 65536;

/// What the rules say of the functions that calls reach.
#[derive(Clone, Copy)]
pub enum Verdict {
    /// A rule is broken.
    Faulty(Kind),
    /// No rule is. The first function with too many elements has this many, or 0 where none has.
    Fine(u64),
}

/// What is told of functions by themselves.
#[derive(Clone, Copy)]
struct Named {
    has_run_dimension: bool,
    has_misplaced: bool,
}

/// What is told of functions with the shapes of their arguments.
#[derive(Clone, Copy)]
struct Shaped {
    has_misfit: bool,
    /// The first number that is too large, or 0.
    elements: u64,
}

/// Tests the rules in their order, each over all functions that the calls reach.
pub fn judge(alloc: Global, program: &Program, made: &[Made]) -> Result<Verdict, AllocError>
    ensures { IfOk result (Judges (bare_program program.now) (map made_of made.now)) }
{
    if has_run_array(alloc, program, made)? {
        let form = Form::RunArray;
        return Ok(Verdict::Faulty(Kind::NotInProfile { form }));
    }
    let named = functions_reached(alloc, program, made)?;
    if named.has_run_dimension {
        let form = Form::RunDimension;
        return Ok(Verdict::Faulty(Kind::NotInProfile { form }));
    }
    if named.has_misplaced {
        let form = Form::LiteralPlace;
        return Ok(Verdict::Faulty(Kind::NotInProfile { form }));
    }
    let shaped = made_reached(alloc, program, made)?;
    if shaped.has_misfit {
        return Ok(Verdict::Faulty(Kind::ShapeDiffers));
    }
    Ok(Verdict::Fine(shaped.elements))
}

/// All functions that any call in the text reaches.
fn functions_reached(alloc: Global, program: &Program, made: &[Made]) -> Result<Named, AllocError>
    ensures dimension { IfOk result (λ n. n.has_run_dimension
        ≡ R.has_run_dimension (bare_program program.now) (map made_of made.now)) }
    ensures misplaced { IfOk result (λ n. n.has_misplaced
        ≡ R.has_misplaced (bare_program program.now) (map made_of made.now)) }
{
    let mut known = functions_in(alloc, made)?;
    let mut named = Named {
        has_run_dimension: false,
        has_misplaced: false,
    };
    let mut at = 0;
    'visits: while at < known.len() {
        let one = visit_function(alloc, program, at, &mut known)?;
        named = named.and(one);
        at += 1;
    }
    Ok(named)
}

fn functions_in(alloc: Global, made: &[Made]) -> Result<Vec<u32>, AllocError>
    ensures { IfOk result (λ known. known.items
        ≡ R.new_ones ◌==◌ [] (map (λ m. m.function) (map made_of made.now))) }
{
    let mut known = Vec::new(alloc);
    for call in made {
        add_function(&mut known, call.function)?;
    }
    Ok(known)
}

fn add_function(known: &mut Vec<u32>, function: u32) -> Result<(), AllocError>
    ensures { OnOk result (known.new.items
        ≡ with_new ◌==◌ known.old.items (function ∷ [])) }
{
    for other in known.as_slice() {
        if function == *other {
            return Ok(());
        }
    }
    known.push(function)?;
    Ok(())
}

/// Adds the functions that are called in a known one, and tells of it.
fn visit_function(
    alloc: Global,
    program: &Program,
    at: usize,
    known: &mut Vec<u32>,
) -> Result<Named, AllocError>
    ensures dimension { IfOk result (λ n. n.has_run_dimension
        ≡ told (dimension_runs (bare_program program.now)) (slice_get known.old.items at)) }
    ensures misplaced { IfOk result (λ n. n.has_misplaced
        ≡ told (misplaces (bare_program program.now)) (slice_get known.old.items at)) }
    ensures more { OnOk result (known.new.items
        ≡ visited ◌==◌ (function_calls (bare_program program.now)) at known.old.items) }
{
    let Some(function) = known.get(at).copied() else {
        return Ok(Named {
            has_run_dimension: false,
            has_misplaced: false,
        });
    };
    let texts = text_of(alloc, program, function)?;
    let calls = texts.calls(alloc)?;
    for call in calls.as_slice() {
        add_function(known, call.function)?;
    }
    Ok(Named {
        has_run_dimension: has_run_dimension(texts.variables.as_slice()),
        has_misplaced: has_misplaced(texts.wanted.as_slice()),
    })
}

/// All functions with the shapes that they are called with.
fn made_reached(alloc: Global, program: &Program, made: &[Made]) -> Result<Shaped, AllocError>
    ensures misfit { IfOk result (λ s. s.has_misfit
        ≡ F.has_misfit (bare_program program.now) (map made_of made.now)) }
    ensures elements { IfOk result (λ s. s.elements
        ≡ standing (F.function_elements (bare_program program.now) (map made_of made.now))) }
{
    let mut known = CallTable::of(alloc, made)?;
    let mut shaped = Shaped {
        has_misfit: false,
        elements: 0,
    };
    let mut at = 0;
    'visits: while at < known.calls.len() {
        let one = visit_made(alloc, program, at, &mut known)?;
        shaped = shaped.and(one);
        at += 1;
    }
    Ok(shaped)
}

impl Named {
    /// With what is told of the next function.
    fn and(self, next: Named) -> Named
        ensures dimension { result.has_run_dimension
            ≡ (self.has_run_dimension || next.has_run_dimension) }
        ensures misplaced { result.has_misplaced ≡ (self.has_misplaced || next.has_misplaced) }
    {
        Named {
            has_run_dimension: self.has_run_dimension || next.has_run_dimension,
            has_misplaced: self.has_misplaced || next.has_misplaced,
        }
    }
}

impl Shaped {
    /// With what is told of the next function.
    fn and(self, next: Shaped) -> Shaped
        ensures misfit { result.has_misfit ≡ (self.has_misfit || next.has_misfit) }
        ensures elements { result.elements
            ≡ (if self.elements == 0 then next.elements else self.elements) }
    {
        Shaped {
            has_misfit: self.has_misfit || next.has_misfit,
            elements: if self.elements == 0 {
                next.elements
            } else {
                self.elements
            },
        }
    }
}

/// Adds the calls that a known function makes, with the shapes of their arguments.
pub fn add_called(
    alloc: Global,
    program: &Program,
    at: usize,
    known: &mut CallTable,
) -> Result<(), AllocError>
    ensures { OnOk result (map made_of known.new.calls.items
        ≡ visited F.same_made (F.shaped_calls (bare_program program.now)) at
        (map made_of known.old.calls.items)) }
{
    let Some(call) = known.calls.get(at) else {
        return Ok(());
    };
    let call = call.copy(alloc)?;
    let texts = text_of(alloc, program, call.function)?;
    let shapes = Shapes {
        alloc,
        texts: &texts,
        arguments: call.shapes.as_slice(),
    };
    let calls = texts.calls(alloc)?;
    shapes.add_calls(calls.as_slice(), known)?;
    Ok(())
}

/// Adds the calls of a known function, and tells of it.
fn visit_made(
    alloc: Global,
    program: &Program,
    at: usize,
    known: &mut CallTable,
) -> Result<Shaped, AllocError>
    ensures misfit { IfOk result (λ s. s.has_misfit
        ≡ told (misfits (bare_program program.now))
        (slice_get (map made_of known.old.calls.items) at)) }
    ensures elements { IfOk result (λ s. s.elements
        ≡ standing (too_large (bare_program program.now)
        (slice_get (map made_of known.old.calls.items) at))) }
    ensures more { OnOk result (map made_of known.new.calls.items
        ≡ visited F.same_made (F.shaped_calls (bare_program program.now)) at
        (map made_of known.old.calls.items)) }
{
    let Some(call) = known.calls.get(at) else {
        return Ok(Shaped {
            has_misfit: false,
            elements: 0,
        });
    };
    let call = call.copy(alloc)?;
    let texts = text_of(alloc, program, call.function)?;
    let shapes = Shapes {
        alloc,
        texts: &texts,
        arguments: call.shapes.as_slice(),
    };
    let calls = texts.calls(alloc)?;
    shapes.add_calls(calls.as_slice(), known)?;
    let fits = shapes.do_fit()?;
    let count = shapes.elements()?;
    Ok(Shaped {
        has_misfit: !fits,
        elements: if_too_many(count),
    })
}

/// The number, where it is too large, or 0.
fn if_too_many(count: u64) -> u64
    ensures { result ≡ too_many count }
{
    if count > MOST_ELEMENTS { count } else { 0 }
}
