//! Statements and blocks, as functions that read on.
ghost use Rattle.std.specs.Prelude.{◌≡◌, ◌<◌, ◌^◌, ◌+◌, map, MatchResult, Some, Ok, Err};
ghost use Rattle.cir_ast.specs.Tree.{Block, as_statements};
ghost use Rattle.cir_expression.specs.Answers.{kinds, Reads, seen};
ghost use Rattle.cir_token.specs.declared.token.Symbol.TheVariants.{Semicolon, OpenParenthesis};
ghost use Rattle.cir_token.specs.declared.token.Symbol.TheVariants.{CloseParenthesis};
ghost use Rattle.cir_expression.specs.declared.reader.Stop.TheVariants.{OutOfMemory};
ghost use Rattle.cir_expression.specs.Reading.{expression};
ghost use Rattle.cir_expression.specs.Combinators.{after, closed, made, separated, any_number};
ghost use Rattle.cir_expression.specs.Combinators.{enclosed};
ghost use Rattle.cir_expression.specs.Front.{words_at};
ghost use Rattle.cir_simple_statement.specs.Reading.{assign};
ghost use Rattle.cir_parse.specs.Reading.{first, condition, marked_by, head, argument, returned};
ghost use Rattle.cir_parse.specs.Reading.{asserted, logged, simply, plain, statement, if_by};
ghost use Rattle.cir_parse.specs.Reading.{while_by, for_by, rest_by, block};
ghost use Rattle.cir_simple_statement.specs.Answers.{seen_assign};
ghost use Rattle.cir_parse.specs.Answers.{seen_first, seen_argument, seen_head, seen_statement};

use crate::making::{Head, add, block_of, boxed, for_of, if_else_of, if_of, stated, while_of};
use crate::marks::Marks;
use cir_ast::marked::{Expr, First, FirstForm, LogArgument, Statement, StatementForm, Step, Vars};
use cir_ast::{Blank, Text};
use cir_expression::{Reader, Stop, tight};
use cir_simple_statement::{assign, simple, variables};
use cir_token::{Reserved, Symbol, TokenKind};
use std::alloc::{AllocError, Global};

/// What stands between quotes.
pub fn words(alloc: Global, reader: &mut Reader) -> Result<Text, Stop>
    ensures { Reads (λ x. x) result (kinds reader.new.rest.now)
        (words_at (kinds reader.old.rest.now)) }
{
    let Some((token, rest)) = reader.rest.split_first() else {
        return Err(Stop::NoTree);
    };
    let TokenKind::Str(words) = &token.kind else {
        return Err(Stop::NoTree);
    };
    let words = Text::from_slice(alloc, words.as_slice())?;
    reader.rest = rest;
    Ok(words)
}

/// What was read, with this symbol behind it.
pub fn closed<T: Drop>(
    found: Result<T, Stop>,
    reader: &mut Reader,
    symbol: Symbol,
) -> Result<T, Stop>
    ensures { MatchResult found
        (λ x. Reads (λ y. y) result (kinds reader.new.rest.now)
        (closed symbol (Some (x, kinds reader.old.rest.now))))
        (λ stop. result ≡ Err stop) }
{
    let found = found?;
    reader.behind(symbol)?;
    Ok(found)
}

// What was read before, and what was read then.
fn paired<A: Drop, B>(before: A, found: Result<B, Stop>) -> Result<(A, B), Stop>
    ensures { MatchResult found (λ x. result ≡ Ok (before, x)) (λ stop. result ≡ Err stop) }
{
    let found = found?;
    Ok((before, found))
}

// Want of memory stops the reading.
fn or_stop<T>(made: Result<T, AllocError>) -> Result<T, Stop>
    ensures { MatchResult made (λ x. result ≡ Ok x) (λ _. result ≡ Err OutOfMemory) }
{
    Ok(made?)
}

// What the head of a `for` begins with.
#[tactic(auto, unfolding(crate::specs::Reading::first))]
fn first_form<N: Blank + Drop>(
    alloc: Global,
    reader: &mut Reader,
    room: u32,
) -> Result<FirstForm<N>, Stop>
    requires { room < 2 ^ 16 }
    ensures { Reads seen_first result (kinds reader.new.rest.now)
        (first room (kinds reader.old.rest.now)) }
{
    if reader.begins_word(Reserved::Var) {
        reader.skip();
        let variables = variables(alloc, reader, room)?;
        Ok(FirstForm::Vars(Vars {
            variables: tight(variables),
        }))
    } else {
        let assign = assign(alloc, reader, room)?;
        Ok(FirstForm::Assign(assign))
    }
}

// An expression in parentheses.
#[tactic(auto, unfolding(crate::specs::Reading::condition))]
fn condition<N: Blank + Drop>(
    alloc: Global,
    reader: &mut Reader,
    room: u32,
) -> Result<Expr<N>, Stop>
    requires { room < 2 ^ 16 }
    ensures { Reads seen result (kinds reader.new.rest.now)
        (condition room (kinds reader.old.rest.now)) }
{
    reader.behind(Symbol::OpenParenthesis)?;
    let condition = reader.expression(alloc, room);
    closed(condition, reader, Symbol::CloseParenthesis)
}

fn condition_boxed<N: Blank + Drop>(
    alloc: Global,
    reader: &mut Reader,
    room: u32,
) -> Result<Box<Expr<N>>, Stop>
    requires { room < 2 ^ 16 }
    ensures { Reads (λ e. seen e.value) result (kinds reader.new.rest.now)
        (condition room (kinds reader.old.rest.now)) }
{
    let condition = condition(alloc, reader, room)?;
    or_stop(boxed(alloc, condition))
}

// An expression and `;`.
fn ended<N: Blank + Drop>(alloc: Global, reader: &mut Reader, room: u32) -> Result<Expr<N>, Stop>
    requires { room < 2 ^ 16 }
    ensures { Reads seen result (kinds reader.new.rest.now)
        (closed Semicolon (expression room (kinds reader.old.rest.now))) }
{
    closed(reader.expression(alloc, room), reader, Symbol::Semicolon)
}

// `(`, what the head of a `for` begins with, and `;`.
fn opened<S: Drop, N: Blank + Drop, M: Marks<S>>(
    alloc: Global,
    marks: &M,
    reader: &mut Reader,
    room: u32,
) -> Result<First<S, N>, Stop>
    requires { room < 2 ^ 16 }
    ensures { Reads (λ f. (f.spot, seen_first f.form)) result (kinds reader.new.rest.now)
        (closed Semicolon
        (after OpenParenthesis (marked_by (M.mark marks.now) (first room))
        (kinds reader.old.rest.now))) }
{
    reader.behind(Symbol::OpenParenthesis)?;
    let spot = marks.mark(reader.rest);
    let form = closed(first_form(alloc, reader, room), reader, Symbol::Semicolon)?;
    Ok(First { spot, form })
}

// An assignment and `)`.
fn last<S: Drop, N: Blank + Drop, M: Marks<S>>(
    alloc: Global,
    marks: &M,
    reader: &mut Reader,
    room: u32,
) -> Result<Step<S, N>, Stop>
    requires { room < 2 ^ 16 }
    ensures { Reads (λ s. (s.spot, seen_assign s.assign)) result (kinds reader.new.rest.now)
        (closed CloseParenthesis
        (marked_by (M.mark marks.now) (assign room) (kinds reader.old.rest.now))) }
{
    let spot = marks.mark(reader.rest);
    let assign = assign(alloc, reader, room);
    let assign = closed(assign, reader, Symbol::CloseParenthesis)?;
    Ok(Step { spot, assign })
}

// The parentheses of a `for`.
#[tactic(auto, unfolding(crate::specs::Reading::head))]
fn head<S: Drop, N: Blank + Drop, M: Marks<S>>(
    alloc: Global,
    marks: &M,
    reader: &mut Reader,
    room: u32,
) -> Result<Box<Head<S, N>>, Stop>
    requires { room < 2 ^ 16 }
    ensures { Reads (λ h. seen_head h.value) result (kinds reader.new.rest.now)
        (head (M.mark marks.now) room (kinds reader.old.rest.now)) }
{
    let first = opened(alloc, marks, reader, room)?;
    let condition = ended(alloc, reader, room);
    let (first, condition) = paired(first, condition)?;
    let step = last(alloc, marks, reader, room);
    let ((first, condition), step) = paired((first, condition), step)?;
    let head = Head {
        first,
        condition,
        step,
    };
    or_stop(boxed(alloc, head))
}

#[tactic(auto, unfolding(crate::specs::Reading::argument))]
fn argument<N: Blank + Drop>(
    alloc: Global,
    reader: &mut Reader,
    room: u32,
) -> Result<LogArgument<N>, Stop>
    requires { room < 2 ^ 16 }
    ensures { Reads seen_argument result (kinds reader.new.rest.now)
        (argument room (kinds reader.old.rest.now)) }
{
    if room == 0 {
        return Err(Stop::NoTree);
    }
    let mut ahead = *reader;
    match words(alloc, &mut ahead) {
        Ok(words) => {
            *reader = ahead;
            Ok(LogArgument::Words(words))
        }
        Err(Stop::OutOfMemory) => Err(Stop::OutOfMemory),
        Err(Stop::NoTree) => {
            let value = reader.expression(alloc, room)?;
            Ok(LogArgument::Value(value))
        }
    }
}

// One argument or more, with commas between them.
fn argument_list<N: Blank + Drop>(
    alloc: Global,
    reader: &mut Reader,
    room: u32,
) -> Result<Vec<LogArgument<N>>, Stop>
    requires { room < 2 ^ 16 }
    ensures { Reads (λ v. map seen_argument v.items) result (kinds reader.new.rest.now)
        (separated (argument room) (kinds reader.old.rest.now)) }
{
    let mut arguments = Vec::new(alloc);
    for _ in 0..reader.rest.len() {
        let argument = argument(alloc, reader, room)?;
        arguments.push(argument)?;
        if !reader.begins(Symbol::Comma) {
            return Ok(arguments);
        }
        reader.skip();
    }
    Err(Stop::NoTree)
}

// The parentheses of a `log`.
fn arguments<N: Blank + Drop>(
    alloc: Global,
    reader: &mut Reader,
    room: u32,
) -> Result<Vec<LogArgument<N>>, Stop>
    requires { room < 2 ^ 16 }
    ensures { Reads (λ v. map seen_argument v.items) result (kinds reader.new.rest.now)
        (enclosed (any_number (argument room)) (kinds reader.old.rest.now)) }
{
    reader.behind(Symbol::OpenParenthesis)?;
    if reader.begins(Symbol::CloseParenthesis) {
        reader.skip();
        return Ok(Vec::new(alloc));
    }
    let arguments = argument_list(alloc, reader, room);
    closed(arguments, reader, Symbol::CloseParenthesis)
}

// What stands behind `return`.
fn returned<S: Drop, N: Blank + Drop>(
    alloc: Global,
    spot: S,
    reader: &mut Reader,
    room: u32,
) -> Result<Box<Statement<S, N>>, Stop>
    requires { room < 2 ^ 16 }
    ensures { Reads (λ s. seen_statement s.value) result (kinds reader.new.rest.now)
        (returned spot room (kinds reader.old.rest.now)) }
{
    let value = ended(alloc, reader, room)?;
    let form = StatementForm::Return(value);
    or_stop(stated(alloc, spot, form))
}

// What stands behind `assert`.
fn asserted<S: Drop, N: Blank + Drop>(
    alloc: Global,
    spot: S,
    reader: &mut Reader,
    room: u32,
) -> Result<Box<Statement<S, N>>, Stop>
    requires { room < 2 ^ 16 }
    ensures { Reads (λ s. seen_statement s.value) result (kinds reader.new.rest.now)
        (asserted spot room (kinds reader.old.rest.now)) }
{
    let condition = closed(condition(alloc, reader, room), reader, Symbol::Semicolon)?;
    let form = StatementForm::Assert(condition);
    or_stop(stated(alloc, spot, form))
}

// What stands behind `log`.
fn logged<S: Drop, N: Blank + Drop>(
    alloc: Global,
    spot: S,
    reader: &mut Reader,
    room: u32,
) -> Result<Box<Statement<S, N>>, Stop>
    requires { room < 2 ^ 16 }
    ensures { Reads (λ s. seen_statement s.value) result (kinds reader.new.rest.now)
        (logged spot room (kinds reader.old.rest.now)) }
{
    let arguments = arguments(alloc, reader, room)?;
    reader.behind(Symbol::Semicolon)?;
    let form = StatementForm::Log(tight(arguments));
    Ok(stated(alloc, spot, form)?)
}

// A simple statement and its `;`.
fn simply<S: Drop, N: Blank + Drop>(
    alloc: Global,
    spot: S,
    reader: &mut Reader,
    room: u32,
) -> Result<Box<Statement<S, N>>, Stop>
    requires { room < 2 ^ 16 }
    ensures { Reads (λ s. seen_statement s.value) result (kinds reader.new.rest.now)
        (simply spot room (kinds reader.old.rest.now)) }
{
    let simple = closed(simple(alloc, reader, room), reader, Symbol::Semicolon)?;
    let form = StatementForm::Simple(simple);
    or_stop(stated(alloc, spot, form))
}

// A statement without one inside.
#[tactic(auto, unfolding(crate::specs::Reading::plain))]
fn plain<S: Drop, N: Blank + Drop>(
    alloc: Global,
    spot: S,
    reader: &mut Reader,
    room: u32,
) -> Result<Box<Statement<S, N>>, Stop>
    requires { room < 2 ^ 16 }
    ensures { Reads (λ s. seen_statement s.value) result (kinds reader.new.rest.now)
        (plain spot room (kinds reader.old.rest.now)) }
{
    if reader.begins_word(Reserved::Return) {
        reader.skip();
        returned(alloc, spot, reader, room)
    } else if reader.begins_word(Reserved::Assert) {
        reader.skip();
        asserted(alloc, spot, reader, room)
    } else if reader.begins_word(Reserved::Log) {
        reader.skip();
        logged(alloc, spot, reader, room)
    } else {
        simply(alloc, spot, reader, room)
    }
}

/// A statement that is at most this high.
#[cycle(statements)]
#[tactic(auto, unfolding(crate::specs::Reading::statement))]
fn statement<S: Drop, N: Blank + Drop, M: Marks<S>>(
    alloc: Global,
    marks: &M,
    reader: &mut Reader,
    room: u32,
) -> Result<Box<Statement<S, N>>, Stop>
    requires { room < 2 ^ 16 }
    ensures { Reads (λ s. seen_statement s.value) result (kinds reader.new.rest.now)
        (statement (M.mark marks.now) room (kinds reader.old.rest.now)) }
{
    if room == 0 {
        return Err(Stop::NoTree);
    }
    let spot = marks.mark(reader.rest);
    if reader.begins(Symbol::OpenBrace) {
        reader.skip();
        inner_block(alloc, marks, spot, reader, room - 1)
    } else if reader.begins_word(Reserved::If) {
        reader.skip();
        if_statement(alloc, marks, spot, reader, room - 1)
    } else if reader.begins_word(Reserved::While) {
        reader.skip();
        while_statement(alloc, marks, spot, reader, room - 1)
    } else if reader.begins_word(Reserved::For) {
        reader.skip();
        for_statement(alloc, marks, spot, reader, room - 1)
    } else {
        plain(alloc, spot, reader, room - 1)
    }
}

// What stands behind `{` in a statement.
#[cycle(statements)]
fn inner_block<S: Drop, N: Blank + Drop, M: Marks<S>>(
    alloc: Global,
    marks: &M,
    spot: S,
    reader: &mut Reader,
    room: u32,
) -> Result<Box<Statement<S, N>>, Stop>
    requires { room + 1 < 2 ^ 16 }
    ensures { Reads (λ s. seen_statement s.value) result (kinds reader.new.rest.now)
        (made (λ ss. Block spot (as_statements ss))
        (rest_by (statement (M.mark marks.now) room) (kinds reader.old.rest.now))) }
{
    let statements = rest_of_block(alloc, marks, reader, room)?;
    Ok(block_of(alloc, spot, statements)?)
}

// Statements, each at most this high, and `}`.
#[cycle(statements)]
fn rest_of_block<S: Drop, N: Blank + Drop, M: Marks<S>>(
    alloc: Global,
    marks: &M,
    reader: &mut Reader,
    room: u32,
) -> Result<Vec<Statement<S, N>>, Stop>
    requires { room + 1 < 2 ^ 16 }
    ensures { Reads (λ v. map seen_statement v.items) result (kinds reader.new.rest.now)
        (rest_by (statement (M.mark marks.now) room) (kinds reader.old.rest.now)) }
{
    let mut statements = Vec::new(alloc);
    for _ in 0..reader.rest.len() {
        if reader.begins(Symbol::CloseBrace) {
            reader.skip();
            return Ok(statements);
        }
        let statement = statement(alloc, marks, reader, room)?;
        add(&mut statements, statement)?;
    }
    Err(Stop::NoTree)
}

// What stands behind `if`; an `else` belongs to the innermost `if`.
#[cycle(statements)]
#[tactic(auto, unfolding(crate::specs::Reading::if_by))]
fn if_statement<S: Drop, N: Blank + Drop, M: Marks<S>>(
    alloc: Global,
    marks: &M,
    spot: S,
    reader: &mut Reader,
    room: u32,
) -> Result<Box<Statement<S, N>>, Stop>
    requires { room + 1 < 2 ^ 16 }
    ensures { Reads (λ s. seen_statement s.value) result (kinds reader.new.rest.now)
        (if_by spot room (statement (M.mark marks.now) room) (kinds reader.old.rest.now)) }
{
    let condition = condition_boxed(alloc, reader, room)?;
    let chosen = statement(alloc, marks, reader, room)?;
    if !reader.begins_word(Reserved::Else) {
        return or_stop(if_of(alloc, spot, condition, chosen));
    }
    reader.skip();
    let other = statement(alloc, marks, reader, room)?;
    or_stop(if_else_of(alloc, spot, condition, chosen, other))
}

// What stands behind `while`.
#[cycle(statements)]
fn while_statement<S: Drop, N: Blank + Drop, M: Marks<S>>(
    alloc: Global,
    marks: &M,
    spot: S,
    reader: &mut Reader,
    room: u32,
) -> Result<Box<Statement<S, N>>, Stop>
    requires { room + 1 < 2 ^ 16 }
    ensures { Reads (λ s. seen_statement s.value) result (kinds reader.new.rest.now)
        (while_by spot room (statement (M.mark marks.now) room) (kinds reader.old.rest.now)) }
{
    let condition = condition_boxed(alloc, reader, room)?;
    let body = statement(alloc, marks, reader, room)?;
    or_stop(while_of(alloc, spot, condition, body))
}

// What stands behind `for`.
#[cycle(statements)]
fn for_statement<S: Drop, N: Blank + Drop, M: Marks<S>>(
    alloc: Global,
    marks: &M,
    spot: S,
    reader: &mut Reader,
    room: u32,
) -> Result<Box<Statement<S, N>>, Stop>
    requires { room + 1 < 2 ^ 16 }
    ensures { Reads (λ s. seen_statement s.value) result (kinds reader.new.rest.now)
        (for_by (M.mark marks.now) spot room (statement (M.mark marks.now) room)
        (kinds reader.old.rest.now)) }
{
    let head = head(alloc, marks, reader, room)?;
    let body = statement(alloc, marks, reader, room)?;
    or_stop(for_of(alloc, spot, head, body))
}

/// A block whose statements are at most this high.
pub fn block<S: Drop, N: Blank + Drop, M: Marks<S>>(
    alloc: Global,
    marks: &M,
    reader: &mut Reader,
    room: u32,
) -> Result<Vec<Statement<S, N>>, Stop>
    requires { room + 1 < 2 ^ 16 }
    ensures { Reads (λ v. map seen_statement v.items) result (kinds reader.new.rest.now)
        (block (M.mark marks.now) room (kinds reader.old.rest.now)) }
{
    reader.behind(Symbol::OpenBrace)?;
    let statements = rest_of_block(alloc, marks, reader, room)?;
    Ok(statements)
}
