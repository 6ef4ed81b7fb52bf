//! The definitions of a program, with the meaning of each name.
ghost use Rattle.std.specs.Prelude.{◌≡◌, map, if◌then◌else◌, Err};
ghost use Rattle.cir_ast.specs.Tree.{bare_block};
ghost use Rattle.cir_ast.specs.Program.{bare_template, bare_function, bare_main};
ghost use Rattle.cir_resolve.specs.Steps.{behind, in_turn};
ghost use Rattle.cir_resolve.specs.Naming.{named_statements};
ghost use Rattle.cir_resolve.specs.Definitions.{bare_definition, named_parameter, named_template};
ghost use Rattle.cir_resolve.specs.Definitions.{named_function, named_main};
ghost use Rattle.cir_resolve.specs.Definitions.{is_template, is_function, named_next, resolved};
ghost use Rattle.cir_resolve.specs.Answers.{names_in, state_of, numbers_of, Gives, Answers};

use crate::definition::Definition;
use crate::names::Names;
use crate::scope::Scopes;
use crate::stop::{Found, Stop};
use crate::table::Numbers;
use cir_ast::Text;
use cir_ast::program::{Block, Function, Main, Meant, Spot, Template};
use std::alloc::Global;

impl Scopes<'_> {
    /// The body of a definition, whose parameters stand in its block.
    fn whole_body(
        &mut self,
        spot: Spot,
        parameters: &[Text],
        body: &mut Block,
    ) -> Result<(), Stop<Spot>>
        ensures { Gives (λ _. bare_block body.new) result (state_of self.new)
            (behind (in_turn (named_parameter spot) (state_of self.old) parameters.now)
            (λ names st. named_statements st (bare_block body.old))) }
    {
        for parameter in parameters {
            let meant = Meant::Variable(self.variables);
            self.declare(spot, parameter.as_slice(), meant)?;
        }
        self.body(body)?;
        Ok(())
    }
}

/// Whether a name means the template of this number.
fn is_template(defined: &Names, name: &[u8], number: u32) -> bool
    ensures { result ≡ is_template number (names_in defined.now name.now) }
{
    match defined.get(name) {
        Some(Meant::Template(found)) => found == number,
        _ => false,
    }
}

/// Whether a name means the function of this number.
fn is_function(defined: &Names, name: &[u8], number: u32) -> bool
    ensures { result ≡ is_function number (names_in defined.now name.now) }
{
    match defined.get(name) {
        Some(Meant::Function(found)) => found == number,
        _ => false,
    }
}

/// A template, whose name must mean the template of this number.
fn template(
    alloc: Global,
    defined: &Names,
    number: u32,
    template: &mut Template,
) -> Result<(), Stop<Spot>>
    ensures { Answers (λ _. bare_template template.new) result
        (if is_template number (names_in defined.now template.old.name)
        then named_template (names_in defined.now) (bare_template template.old)
        else Err template.old.spot) }
{
    if !is_template(defined, template.name.as_slice(), number) {
        return Err(Stop::Twice(template.spot));
    }
    let mut scopes = Scopes::new(alloc, defined);
    scopes.whole_body(
        template.spot,
        template.parameters.as_slice(),
        &mut template.body,
    )?;
    template.variables = scopes.variables;
    template.signals = scopes.signals;
    template.components = scopes.components;
    Ok(())
}

/// A function, whose name must mean the function of this number.
fn function(
    alloc: Global,
    defined: &Names,
    number: u32,
    function: &mut Function,
) -> Result<(), Stop<Spot>>
    ensures { Answers (λ _. bare_function function.new) result
        (if is_function number (names_in defined.now function.old.name)
        then named_function (names_in defined.now) (bare_function function.old)
        else Err function.old.spot) }
{
    if !is_function(defined, function.name.as_slice(), number) {
        return Err(Stop::Twice(function.spot));
    }
    let mut scopes = Scopes::new(alloc, defined);
    scopes.whole_body(
        function.spot,
        function.parameters.as_slice(),
        &mut function.body,
    )?;
    function.variables = scopes.variables;
    Ok(())
}

fn main(alloc: Global, defined: &Names, main: &mut Main)
    ensures { bare_main main.new ≡ named_main (names_in defined.now) (bare_main main.old) }
{
    let scopes = Scopes::new(alloc, defined);
    main.meant = scopes.called(main.template.as_slice());
    scopes.name_all(&mut main.arguments);
}

/// The next definition, which is counted.
fn definition(
    alloc: Global,
    defined: &Names,
    numbers: &mut Numbers,
    definition: &mut Definition,
) -> Result<(), Stop<Found>>
    ensures { Gives (λ _. bare_definition definition.new) result (numbers_of numbers.new)
        (named_next (names_in defined.now) (numbers_of numbers.old)
        (bare_definition definition.old)) }
{
    let before = *numbers;
    if !numbers.pass(definition) {
        return Err(Stop::OutOfMemory);
    }
    match definition {
        Definition::Template(found) => {
            let file = found.file;
            match template(alloc, defined, before.templates, found) {
                Ok(()) => Ok(()),
                Err(Stop::Twice(spot)) => Err(Stop::Twice(Found { file, spot })),
                Err(Stop::OutOfMemory) => Err(Stop::OutOfMemory),
            }
        }
        Definition::Function(found) => {
            let file = found.file;
            match function(alloc, defined, before.functions, found) {
                Ok(()) => Ok(()),
                Err(Stop::Twice(spot)) => Err(Stop::Twice(Found { file, spot })),
                Err(Stop::OutOfMemory) => Err(Stop::OutOfMemory),
            }
        }
        Definition::Main(found) => {
            main(alloc, defined, found);
            Ok(())
        }
    }
}

/// The definitions, in the order of loading, with the meaning of each name; or the first place
/// where a name is defined or declared a second time.
pub fn resolve(alloc: Global, definitions: Vec<Definition>) -> Result<Vec<Definition>, Stop<Found>>
    ensures { Answers (λ v. map bare_definition v.items) result
        (resolved (map bare_definition definitions.items)) }
{
    let mut definitions = definitions;
    let Some(defined) = Names::of(alloc, definitions.as_slice())? else {
        return Err(Stop::OutOfMemory);
    };
    let mut numbers = Numbers {
        templates: 0,
        functions: 0,
    };
    for i in 0..definitions.len() {
        definition(alloc, &defined, &mut numbers, &mut definitions[i])?;
    }
    Ok(definitions)
}
