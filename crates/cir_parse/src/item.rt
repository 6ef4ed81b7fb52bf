//! Items, as functions that read on.
ghost use Rattle.std.specs.Prelude.{◌<◌, ◌^◌, ◌+◌};
ghost use Rattle.cir_expression.specs.Answers.{kinds, Reads, Takes, Passes};
ghost use Rattle.cir_expression.specs.Combinators.{closed};
ghost use Rattle.cir_expression.specs.Front.{number_at};
ghost use Rattle.cir_parse.specs.Answers.{seen_definition, seen_item};
ghost use Rattle.cir_parse.specs.Reading.{parameters, language_at, pragma, definition, template};
ghost use Rattle.cir_parse.specs.Reading.{public_names, main, item};

use crate::marks::Marks;
use crate::statements::{block, closed, words};
use cir_ast::marked::{
    Block, Definition, Function, Include, Item, ItemForm, Main, Pragma, Template,
};
use cir_ast::{Blank, Text};
use cir_expression::{Reader, Stop, tight};
use cir_simple_statement::names;
use cir_token::{Reserved, Symbol, TokenKind};
use items::Items;
use std::alloc::Global;

// A number and this symbol.
fn number_and(reader: &mut Reader, symbol: Symbol) -> Result<u128, Stop>
    ensures { Takes (λ n. n) result (kinds reader.new.rest.now)
        (closed symbol (number_at (kinds reader.old.rest.now))) }
{
    let Some((token, rest)) = reader.rest.split_first() else {
        return Err(Stop::NoTree);
    };
    let TokenKind::Number(n) = &token.kind else {
        return Err(Stop::NoTree);
    };
    reader.rest = rest;
    reader.behind(symbol)?;
    Ok(*n)
}

// The word `circom`, which isn't reserved.
fn language(reader: &mut Reader) -> Result<(), Stop>
    ensures { Passes result (kinds reader.new.rest.now) (language_at (kinds reader.old.rest.now)) }
{
    let Some((token, rest)) = reader.rest.split_first() else {
        return Err(Stop::NoTree);
    };
    let TokenKind::Name(name) = &token.kind else {
        return Err(Stop::NoTree);
    };
    if name.as_slice() != b"circom".as_slice() {
        return Err(Stop::NoTree);
    }
    reader.rest = rest;
    Ok(())
}

// What stands behind `pragma`.
#[tactic(auto, unfolding(crate::specs::Reading::pragma))]
fn pragma<S: Drop, N: Drop>(spot: S, reader: &mut Reader) -> Result<Item<S, N>, Stop>
    ensures { Takes seen_item result (kinds reader.new.rest.now)
        (pragma spot (kinds reader.old.rest.now)) }
{
    language(reader)?;
    let major = number_and(reader, Symbol::Dot)?;
    let minor = number_and(reader, Symbol::Dot)?;
    let patch = number_and(reader, Symbol::Semicolon)?;
    let form = ItemForm::Pragma(Pragma {
        major,
        minor,
        patch,
    });
    Ok(Item { spot, form })
}

// The parentheses behind the name of a definition.
#[tactic(auto, unfolding(crate::specs::Reading::parameters))]
fn parameters(alloc: Global, reader: &mut Reader) -> Result<Vec<Text>, Stop>
    ensures { Reads (λ v. v.items) result (kinds reader.new.rest.now)
        (parameters (kinds reader.old.rest.now)) }
{
    reader.behind(Symbol::OpenParenthesis)?;
    if reader.begins(Symbol::CloseParenthesis) {
        reader.skip();
        return Ok(Vec::new(alloc));
    }
    let parameters = names(alloc, reader)?;
    reader.behind(Symbol::CloseParenthesis)?;
    Ok(parameters)
}

// What stands behind `function`, and behind the words of a template.
#[tactic(auto, unfolding(crate::specs::Reading::definition))]
fn definition<S: Drop, N: Blank + Drop, M: Marks<S>>(
    alloc: Global,
    marks: &M,
    reader: &mut Reader,
    room: u32,
) -> Result<Function<S, N>, Stop>
    requires { room + 1 < 2 ^ 16 }
    ensures { Reads seen_definition result (kinds reader.new.rest.now)
        (definition (M.mark marks.now) room (kinds reader.old.rest.now)) }
{
    let name = reader.name(alloc)?;
    let parameters = parameters(alloc, reader)?;
    let body = block(alloc, marks, reader, room)?;
    Ok(Function {
        name,
        parameters: tight(parameters),
        body: Block::of(tight(body)),
    })
}

// What stands behind the words of a template.
fn template<S: Drop, N: Blank + Drop, M: Marks<S>>(
    alloc: Global,
    marks: &M,
    spot: S,
    reader: &mut Reader,
    room: u32,
    parallel: bool,
) -> Result<Item<S, N>, Stop>
    requires { room + 1 < 2 ^ 16 }
    ensures { Reads seen_item result (kinds reader.new.rest.now)
        (template (M.mark marks.now) spot room parallel (kinds reader.old.rest.now)) }
{
    let Function {
        name,
        parameters,
        body,
    } = definition(alloc, marks, reader, room)?;
    let form = ItemForm::Definition(Definition::Template(Template {
        parallel,
        name,
        parameters,
        body,
    }));
    Ok(Item { spot, form })
}

// The public inputs, or none where they aren't written.
#[tactic(auto, unfolding(crate::specs::Reading::public_names))]
fn public_names(alloc: Global, reader: &mut Reader) -> Result<Vec<Text>, Stop>
    ensures { Reads (λ v. v.items) result (kinds reader.new.rest.now)
        (public_names (kinds reader.old.rest.now)) }
{
    if !reader.begins(Symbol::OpenBrace) {
        return Ok(Vec::new(alloc));
    }
    reader.skip();
    reader.behind_word(Reserved::Public)?;
    reader.behind(Symbol::OpenBracket)?;
    let names = names(alloc, reader)?;
    reader.behind(Symbol::CloseBracket)?;
    reader.behind(Symbol::CloseBrace)?;
    Ok(names)
}

// What stands behind `component` in an item.
#[tactic(auto, unfolding(crate::specs::Reading::main))]
fn main<S: Drop, N: Blank + Drop>(
    alloc: Global,
    spot: S,
    reader: &mut Reader,
    room: u32,
) -> Result<Item<S, N>, Stop>
    requires { room < 2 ^ 16 }
    ensures { Reads seen_item result (kinds reader.new.rest.now)
        (main spot room (kinds reader.old.rest.now)) }
{
    reader.behind_word(Reserved::Main)?;
    let public = public_names(alloc, reader)?;
    reader.behind(Symbol::Equal)?;
    let template = reader.name(alloc)?;
    reader.behind(Symbol::OpenParenthesis)?;
    let arguments = reader.arguments(alloc, room)?;
    reader.behind(Symbol::Semicolon)?;
    let form = ItemForm::Main(Main {
        public: tight(public),
        template,
        meant: N::blank(),
        arguments: tight(arguments),
    });
    Ok(Item { spot, form })
}

/// An item, where the statements of its block are at most this high.
#[tactic(auto, unfolding(crate::specs::Reading::item))]
pub fn item<S: Drop, N: Blank + Drop, M: Marks<S>>(
    alloc: Global,
    marks: &M,
    reader: &mut Reader,
    room: u32,
) -> Result<Item<S, N>, Stop>
    requires { room + 1 < 2 ^ 16 }
    ensures { Reads seen_item result (kinds reader.new.rest.now)
        (item (M.mark marks.now) room (kinds reader.old.rest.now)) }
{
    let spot = marks.mark(reader.rest);
    if reader.begins_word(Reserved::Pragma) {
        reader.skip();
        pragma(spot, reader)
    } else if reader.begins_word(Reserved::Include) {
        reader.skip();
        let name = closed(words(alloc, reader), reader, Symbol::Semicolon)?;
        let form = ItemForm::Include(Include { name });
        Ok(Item { spot, form })
    } else if reader.begins_word(Reserved::Template) {
        reader.skip();
        let parallel = reader.begins_word(Reserved::Parallel);
        if parallel {
            reader.skip();
        }
        template(alloc, marks, spot, reader, room, parallel)
    } else if reader.begins_word(Reserved::Function) {
        reader.skip();
        let function = definition(alloc, marks, reader, room)?;
        let form = ItemForm::Definition(Definition::Function(function));
        Ok(Item { spot, form })
    } else {
        reader.behind_word(Reserved::Component)?;
        main(alloc, spot, reader, room + 1)
    }
}
