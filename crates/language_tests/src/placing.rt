use crate::checks::same;
use crate::loading::program_of;
use cir_ast::program::{
    Direction, Expr, Function, Meant, Simple, Spot, Statement, StatementForm, Template,
};
use std::process::Abort;

// Whether both mean the same variable or signal.
fn is(found: Meant, wanted: Meant) -> bool {
    match (found, wanted) {
        (Meant::Variable(n), Meant::Variable(m)) => n == m,
        (Meant::Signal(a, n), Meant::Signal(b, m)) => a == b && n == m,
        _ => false,
    }
}

// Whether the expression is a name of this meaning.
fn reads(expression: &Expr, meant: Meant) -> bool {
    match expression {
        Expr::Place(place) => is(place.meant, meant),
        _ => false,
    }
}

// Whether the statement declares a variable of the first meaning, with the value of the second.
fn declares(statement: &Statement, declared: Meant, read: Meant) -> bool {
    match &statement.form {
        StatementForm::Simple(Simple::Vars(vars)) => match vars.variables.get(0) {
            Some(variable) => match &variable.value {
                Some(value) => is(variable.meant, declared) && reads(value, read),
                None => false,
            },
            None => false,
        },
        _ => false,
    }
}

// Whether the statement returns a value of this meaning.
fn returns(statement: &Statement, meant: Meant) -> bool {
    match &statement.form {
        StatementForm::Return(value) => reads(value, meant),
        _ => false,
    }
}

// Whether the statement makes these two equal.
fn equates(statement: &Statement, left: Meant, right: Meant) -> bool {
    match &statement.form {
        StatementForm::Simple(Simple::Constrain(a, b)) => reads(a, left) && reads(b, right),
        _ => false,
    }
}

fn spot_is(rt: &impl Abort, spot: Spot, line: u32, column: u32) {
    same(rt, (spot.line, spot.column), (line, column));
}

// The function of the source below.
fn function_is_placed(rt: &impl Abort, function: &Function) {
    same(rt, (function.file, function.variables), (0, 2));
    spot_is(rt, function.spot, 1, 1);
    let statements = function.body.statements.as_slice();
    assert!(rt; statements.len() == 2);
    spot_is(rt, statements[0].spot, 2, 3);
    spot_is(rt, statements[1].spot, 3, 3);
    assert!(rt; declares(&statements[0], Meant::Variable(1), Meant::Variable(0)));
    assert!(rt; returns(&statements[1], Meant::Variable(1)));
}

// Its template.
fn template_is_placed(rt: &impl Abort, template: &Template) {
    let counts = (template.variables, template.signals, template.components);
    same(rt, counts, (0, 2, 0));
    let statements = template.body.statements.as_slice();
    same(rt, statements.len(), 3);
    let last = statements.last().expect(rt, "a statement");
    let left = Meant::Signal(Direction::Inner, 1);
    assert!(rt; equates(last, left, Meant::Signal(Direction::Input, 0)));
}

static SOURCE: &str = "function f(n) {\n  var x = n;\n  return x;\n}
        template T() { signal input a; signal b; b === a; } component main = T();";

#[test]
fn places_and_meanings_are_found(rt: HostRuntime) {
    let program = program_of(&rt, SOURCE);
    function_is_placed(&rt, program.functions.get(0).expect(&rt, "a function"));
    template_is_placed(&rt, program.templates.get(0).expect(&rt, "a template"));
}
