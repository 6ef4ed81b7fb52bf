ghost use Rattle.std.specs.Prelude.{◌≡◌, ◌++◌, map, Option, Some, None, OnOk};
ghost use Rattle.cir_ast.specs.Tree.{bare_item};
ghost use Rattle.cir_resolve.specs.Definitions.{bare_definition, definitions_in, definitions_of};
ghost use Rattle.cir_resolve.specs.Answers.{listed};

use cir_ast::marked::{Definition as MarkedDefinition, Item, ItemForm};
use cir_ast::program::{Function, Main, Meant, Spot, Template};
use items::Items;
use std::alloc::AllocError;

/// A definition of a program, or its main component.
#[derive(Drop)]
pub enum Definition {
    Template(Template),
    Function(Function),
    Main(Main),
}

impl Definition {
    /// The definition that an item is, in the file of this place in the program's list; nothing is
    /// counted in it yet.
    fn of(file: u32, item: Item<Spot, Meant>) -> Option<Definition>
        ensures { listed bare_definition result ≡ definitions_in file (bare_item item) }
    {
        let spot = item.spot;
        match item.form {
            ItemForm::Pragma(_) => None,
            ItemForm::Include(_) => None,
            ItemForm::Definition(MarkedDefinition::Template(template)) => {
                Some(Definition::Template(Template {
                    file,
                    spot,
                    parallel: template.parallel,
                    name: template.name,
                    parameters: template.parameters,
                    variables: 0,
                    signals: 0,
                    components: 0,
                    body: template.body,
                }))
            }
            ItemForm::Definition(MarkedDefinition::Function(function)) => {
                Some(Definition::Function(Function {
                    file,
                    spot,
                    name: function.name,
                    parameters: function.parameters,
                    variables: 0,
                    body: function.body,
                }))
            }
            ItemForm::Main(main) => Some(Definition::Main(Main {
                file,
                spot,
                public: main.public,
                template: main.template,
                meant: main.meant,
                arguments: main.arguments,
            })),
        }
    }

    /// Adds the definitions of a file, which has this place in the program's list.
    pub fn add(
        definitions: &mut Vec<Definition>,
        file: u32,
        items: Items<Item<Spot, Meant>>,
    ) -> Result<(), AllocError>
        ensures { OnOk result
            (map bare_definition definitions.new.items ≡ map bare_definition definitions.old.items
            ++ definitions_of file (map bare_item items)) }
    {
        for item in items.into_vec() {
            if let Some(definition) = Definition::of(file, item) {
                definitions.push(definition)?;
            }
        }
        Ok(())
    }
}
