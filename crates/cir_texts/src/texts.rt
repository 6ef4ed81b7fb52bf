//! What stands in the text of statements: the expressions with what is wanted of each, the calls,
//! the assignments and the variables that are declared.
ghost use Rattle.std.specs.Prelude.{◌≡◌, ◌++◌, [], ◌∷◌, map, flat_map, IfOk, OnOk, IfSome};
ghost use Rattle.cir_ast.specs.Tree.{bare, bare_exprs, bare_variable, bare_assign};
ghost use Rattle.cir_ast.specs.Tree.{bare_first, bare_simple, bare_statement, bare_block};
ghost use Rattle.cir_ast.specs.Tree.{bare_value, as_accessors};
ghost use Rattle.cir_meaning.specs.Arrays.{Whole};
ghost use Rattle.cir_meaning.specs.Writing.{plain};
ghost use Rattle.cir_meaning.specs.Operators.{compound_of};
ghost use Rattle.cir_meaning.specs.Texts as T;
ghost use Rattle.cir_texts.specs.Shown.{wanted_of, called_of, set_of, set_in, found_set, Shows};

use cir_ast::program::{
    Accessor, Assign, Binary, Block, Compound, DeclaredVariable, Expr, FirstForm, Meant, Place,
    Simple, Statement, StatementForm,
};
use std::alloc::{AllocError, Global};

/// An expression that is evaluated, with what is wanted of it. `x += e` is `x = x + (e)`.
#[derive(Clone, Copy)]
pub enum Wanted<'p> {
    Number(&'p Expr),
    Whole(&'p Expr),
    /// A place and a number, under an operator.
    Compound(Binary, &'p Place, &'p Expr),
    /// A place and 1, under an operator.
    Step(Binary, &'p Place),
}

/// An assignment of what is wanted to a place.
#[derive(Clone, Copy)]
pub struct Assigned<'p> {
    pub place: &'p Place,
    pub value: Wanted<'p>,
}

/// A call of a function.
#[derive(Clone, Copy)]
pub struct Called<'p> {
    pub function: u32,
    pub arguments: &'p [Expr],
}

/// What stands in a body.
pub struct Texts<'p> {
    /// In the order of execution.
    pub wanted: Vec<Wanted<'p>>,
    pub returned: Vec<&'p Expr>,
    pub variables: Vec<&'p DeclaredVariable>,
    pub assigns: Vec<&'p Assign>,
}

// Written out, so that the proof of an owner sees one call and not the drop of each part.
impl<'p> Drop for Texts<'p> {
    fn drop(self) {
        let Texts {
            wanted: _wanted,
            returned: _returned,
            variables: _variables,
            assigns: _assigns,
        } = self;
    }
}

/// The operator of a symbol such as `+=`.
pub fn compound_of(op: Compound) -> Binary
    ensures { result ≡ compound_of op }
{
    match op {
        Compound::Pow => Binary::Pow,
        Compound::ShiftLeft => Binary::ShiftLeft,
        Compound::ShiftRight => Binary::ShiftRight,
        Compound::Add => Binary::Add,
        Compound::Sub => Binary::Sub,
        Compound::Mul => Binary::Mul,
        Compound::Div => Binary::Div,
        Compound::Quotient => Binary::Quotient,
        Compound::Remainder => Binary::Remainder,
        Compound::And => Binary::BitAnd,
        Compound::Or => Binary::BitOr,
        Compound::Xor => Binary::BitXor,
    }
}

/// What is wanted for a place that is assigned, and nothing for a signal.
pub fn value_of(assign: &Assign) -> Option<Assigned<'_>>
    ensures set { found_set result ≡ set_in (plain (bare_assign assign.now)) }
    ensures whole { IfSome result (λ a. (wanted_of a.value).want ≡ Whole) }
{
    match assign {
        Assign::Set(place, value) => Some(Assigned {
            place,
            value: Wanted::Whole(value),
        }),
        Assign::Compound(place, op, value) => Some(Assigned {
            place,
            value: Wanted::Compound(compound_of(*op), place, value),
        }),
        Assign::Increment(place) => Some(Assigned {
            place,
            value: Wanted::Step(Binary::Add, place),
        }),
        Assign::Decrement(place) => Some(Assigned {
            place,
            value: Wanted::Step(Binary::Sub, place),
        }),
        Assign::Left(_, _, _) => None,
    }
}

impl<'p> Texts<'p> {
    /// Nothing yet.
    pub fn new(alloc: Global) -> Texts<'p>
        ensures wanted { result.wanted.items ≡ [] }
        ensures returned { result.returned.items ≡ [] }
        ensures variables { result.variables.items ≡ [] }
        ensures assigns { result.assigns.items ≡ [] }
    {
        Texts {
            wanted: Vec::new(alloc),
            returned: Vec::new(alloc),
            variables: Vec::new(alloc),
            assigns: Vec::new(alloc),
        }
    }

    /// What stands in a block.
    pub fn of(alloc: Global, block: &'p Block) -> Result<Texts<'p>, AllocError>
        ensures { IfOk result (λ t. Shows t (bare_block block.now)) }
    {
        let mut texts = Texts::new(alloc);
        texts.add_block(block)?;
        Ok(texts)
    }

    /// The calls in all that is wanted.
    pub fn calls(&self, alloc: Global) -> Result<Vec<Called<'p>>, AllocError>
        ensures { IfOk result (λ calls. map called_of calls.items
            ≡ flat_map (λ x. T.calls_of x.expr) (map wanted_of self.now.wanted.items)) }
    {
        let mut calls = Vec::new(alloc);
        for wanted in self.wanted.as_slice() {
            add_wanted_calls(*wanted, &mut calls)?;
        }
        Ok(calls)
    }

    #[cycle(adding)]
    fn add_block(&mut self, block: &'p Block) -> Result<(), AllocError>
        ensures wanted { OnOk result (map wanted_of self.new.wanted.items
            ≡ map wanted_of self.old.wanted.items ++ T.all_wanted (bare_block block.now)) }
        ensures returned { OnOk result (map (λ e. bare e.now) self.new.returned.items
            ≡ map (λ e. bare e.now) self.old.returned.items
            ++ T.all_returned (bare_block block.now)) }
        ensures variables { OnOk result (map (λ v. bare_variable v.now) self.new.variables.items
            ≡ map (λ v. bare_variable v.now) self.old.variables.items
            ++ T.all_variables (bare_block block.now)) }
        ensures assigns { OnOk result (map (λ a. plain (bare_assign a.now)) self.new.assigns.items
            ≡ map (λ a. plain (bare_assign a.now)) self.old.assigns.items
            ++ T.all_assigns (bare_block block.now)) }
    {
        for statement in block.statements.as_slice() {
            self.add(statement)?;
        }
        Ok(())
    }

    /// Adds what stands in a statement, in the order of execution; a `log` adds nothing.
    #[cycle(adding)]
    pub fn add(&mut self, statement: &'p Statement) -> Result<(), AllocError>
        ensures wanted { OnOk result (map wanted_of self.new.wanted.items
            ≡ map wanted_of self.old.wanted.items ++ T.wanted_in (bare_statement statement.now)) }
        ensures returned { OnOk result (map (λ e. bare e.now) self.new.returned.items
            ≡ map (λ e. bare e.now) self.old.returned.items
            ++ T.returned_in (bare_statement statement.now)) }
        ensures variables { OnOk result (map (λ v. bare_variable v.now) self.new.variables.items
            ≡ map (λ v. bare_variable v.now) self.old.variables.items
            ++ T.variables_in (bare_statement statement.now)) }
        ensures assigns { OnOk result (map (λ a. plain (bare_assign a.now)) self.new.assigns.items
            ≡ map (λ a. plain (bare_assign a.now)) self.old.assigns.items
            ++ T.assigns_in (bare_statement statement.now)) }
    {
        match &statement.form {
            StatementForm::Block(block) => self.add_block(block),
            StatementForm::If(condition, chosen) => {
                self.want(Wanted::Number(condition))?;
                self.add(chosen)
            }
            StatementForm::IfElse(condition, chosen, other) => {
                self.want(Wanted::Number(condition))?;
                self.add(chosen)?;
                self.add(other)
            }
            StatementForm::While(condition, body) => {
                self.want(Wanted::Number(condition))?;
                self.add(body)
            }
            StatementForm::For(first, condition, step, body) => {
                self.add_first(&first.form)?;
                self.want(Wanted::Number(condition))?;
                self.add(body)?;
                self.add_assign(&step.assign)
            }
            StatementForm::Return(value) => self.add_returned(value),
            StatementForm::Assert(condition) => self.want(Wanted::Number(condition)),
            StatementForm::Log(_) => Ok(()),
            StatementForm::Simple(simple) => self.add_simple(simple),
        }
    }

    fn want(&mut self, wanted: Wanted<'p>) -> Result<(), AllocError>
        ensures wanted { OnOk result (map wanted_of self.new.wanted.items
            ≡ map wanted_of self.old.wanted.items ++ wanted_of wanted.entry ∷ []) }
        ensures returned { self.new.returned ≡ self.old.returned }
        ensures variables { self.new.variables ≡ self.old.variables }
        ensures assigns { self.new.assigns ≡ self.old.assigns }
    {
        self.wanted.push(wanted)?;
        Ok(())
    }

    fn add_returned(&mut self, value: &'p Expr) -> Result<(), AllocError>
        ensures wanted { OnOk result (map wanted_of self.new.wanted.items
            ≡ map wanted_of self.old.wanted.items ++ T.wanted Whole (bare value.now)) }
        ensures returned { OnOk result (map (λ e. bare e.now) self.new.returned.items
            ≡ map (λ e. bare e.now) self.old.returned.items ++ bare value.now ∷ []) }
        ensures variables { self.new.variables ≡ self.old.variables }
        ensures assigns { self.new.assigns ≡ self.old.assigns }
    {
        self.want(Wanted::Whole(value))?;
        self.returned.push(value)?;
        Ok(())
    }

    fn add_simple(&mut self, simple: &'p Simple) -> Result<(), AllocError>
        ensures wanted { OnOk result (map wanted_of self.new.wanted.items
            ≡ map wanted_of self.old.wanted.items ++ T.simple_wanted (bare_simple simple.now)) }
        ensures returned { self.new.returned ≡ self.old.returned }
        ensures variables { OnOk result (map (λ v. bare_variable v.now) self.new.variables.items
            ≡ map (λ v. bare_variable v.now) self.old.variables.items
            ++ T.simple_variables (bare_simple simple.now)) }
        ensures assigns { OnOk result (map (λ a. plain (bare_assign a.now)) self.new.assigns.items
            ≡ map (λ a. plain (bare_assign a.now)) self.old.assigns.items
            ++ T.simple_assigns (bare_simple simple.now)) }
    {
        match simple {
            Simple::Vars(vars) => self.add_vars(vars.variables.as_slice()),
            Simple::Assign(assign) => self.add_assign(assign),
            Simple::Signals(_)
            | Simple::Components(_)
            | Simple::Constrain(_, _)
            | Simple::Right(_, _, _)
            | Simple::TargetLeft(_, _, _)
            | Simple::TargetRight(_, _, _)
            | Simple::Anonymous(_) => Ok(()),
        }
    }

    fn add_first(&mut self, first: &'p FirstForm) -> Result<(), AllocError>
        ensures wanted { OnOk result (map wanted_of self.new.wanted.items
            ≡ map wanted_of self.old.wanted.items ++ T.first_wanted (bare_first first.now)) }
        ensures returned { self.new.returned ≡ self.old.returned }
        ensures variables { OnOk result (map (λ v. bare_variable v.now) self.new.variables.items
            ≡ map (λ v. bare_variable v.now) self.old.variables.items
            ++ T.first_variables (bare_first first.now)) }
        ensures assigns { OnOk result (map (λ a. plain (bare_assign a.now)) self.new.assigns.items
            ≡ map (λ a. plain (bare_assign a.now)) self.old.assigns.items
            ++ T.first_assigns (bare_first first.now)) }
    {
        match first {
            FirstForm::Vars(vars) => self.add_vars(vars.variables.as_slice()),
            FirstForm::Assign(assign) => self.add_assign(assign),
        }
    }

    fn add_vars(&mut self, variables: &'p [DeclaredVariable]) -> Result<(), AllocError>
        ensures wanted { OnOk result (map wanted_of self.new.wanted.items
            ≡ map wanted_of self.old.wanted.items
            ++ flat_map T.variable_wanted (map bare_variable variables.now)) }
        ensures returned { self.new.returned ≡ self.old.returned }
        ensures variables { OnOk result (map (λ v. bare_variable v.now) self.new.variables.items
            ≡ map (λ v. bare_variable v.now) self.old.variables.items
            ++ map bare_variable variables.now) }
        ensures assigns { self.new.assigns ≡ self.old.assigns }
    {
        for variable in variables {
            self.want_numbers(variable.dimensions.as_slice())?;
            self.want_value(&variable.value)?;
            self.variables.push(variable)?;
        }
        Ok(())
    }

    fn want_numbers(&mut self, es: &'p [Expr]) -> Result<(), AllocError>
        ensures wanted { OnOk result (map wanted_of self.new.wanted.items
            ≡ map wanted_of self.old.wanted.items
            ++ T.numbers_wanted (T.list_of (bare_exprs es.now))) }
        ensures returned { self.new.returned ≡ self.old.returned }
        ensures variables { self.new.variables ≡ self.old.variables }
        ensures assigns { self.new.assigns ≡ self.old.assigns }
    {
        for e in es {
            self.want(Wanted::Number(e))?;
        }
        Ok(())
    }

    fn want_value(&mut self, value: &'p Option<Expr>) -> Result<(), AllocError>
        ensures wanted { OnOk result (map wanted_of self.new.wanted.items
            ≡ map wanted_of self.old.wanted.items ++ T.value_wanted (bare_value value.now)) }
        ensures returned { self.new.returned ≡ self.old.returned }
        ensures variables { self.new.variables ≡ self.old.variables }
        ensures assigns { self.new.assigns ≡ self.old.assigns }
    {
        match value {
            Some(e) => self.want(Wanted::Whole(e)),
            None => Ok(()),
        }
    }

    fn want_indices(&mut self, accessors: &'p [Accessor]) -> Result<(), AllocError>
        ensures wanted { OnOk result (map wanted_of self.new.wanted.items
            ≡ map wanted_of self.old.wanted.items
            ++ T.numbers_wanted (T.indices_of (as_accessors accessors.now))) }
        ensures returned { self.new.returned ≡ self.old.returned }
        ensures variables { self.new.variables ≡ self.old.variables }
        ensures assigns { self.new.assigns ≡ self.old.assigns }
    {
        for accessor in accessors {
            if let Accessor::Index(index) = accessor {
                self.want(Wanted::Number(index))?;
            }
        }
        Ok(())
    }

    /// Adds an assignment. Its value is wanted, then its indices; of one by an arrow, neither.
    pub fn add_assign(&mut self, assign: &'p Assign) -> Result<(), AllocError>
        ensures wanted { OnOk result (map wanted_of self.new.wanted.items
            ≡ map wanted_of self.old.wanted.items ++ T.assign_wanted (bare_assign assign.now)) }
        ensures returned { self.new.returned ≡ self.old.returned }
        ensures variables { self.new.variables ≡ self.old.variables }
        ensures assigns { OnOk result (map (λ a. plain (bare_assign a.now)) self.new.assigns.items
            ≡ map (λ a. plain (bare_assign a.now)) self.old.assigns.items
            ++ plain (bare_assign assign.now) ∷ []) }
    {
        self.assigns.push(assign)?;
        match value_of(assign) {
            Some(assigned) => self.want_assigned(assigned),
            None => Ok(()),
        }
    }

    fn want_assigned(&mut self, assigned: Assigned<'p>) -> Result<(), AllocError>
        requires { (wanted_of assigned.value).want ≡ Whole }
        ensures wanted { OnOk result (map wanted_of self.new.wanted.items
            ≡ map wanted_of self.old.wanted.items ++ T.plain_wanted (set_of assigned.entry)) }
        ensures returned { self.new.returned ≡ self.old.returned }
        ensures variables { self.new.variables ≡ self.old.variables }
        ensures assigns { self.new.assigns ≡ self.old.assigns }
    {
        self.want(assigned.value)?;
        self.want_indices(assigned.place.accessors.as_slice())
    }
}

fn add_wanted_calls<'p>(wanted: Wanted<'p>, calls: &mut Vec<Called<'p>>) -> Result<(), AllocError>
    ensures { OnOk result (map called_of calls.new.items
        ≡ map called_of calls.old.items ++ T.calls_of (wanted_of wanted.entry).expr) }
{
    match wanted {
        Wanted::Number(e) | Wanted::Whole(e) => add_calls(e, calls),
        Wanted::Compound(_, place, e) => {
            add_place_calls(place.accessors.as_slice(), calls)?;
            add_calls(e, calls)
        }
        Wanted::Step(_, place) => add_place_calls(place.accessors.as_slice(), calls),
    }
}

/// The calls of functions in an expression, an inner one before the one that holds it.
#[cycle(calling)]
fn add_calls<'p>(e: &'p Expr, calls: &mut Vec<Called<'p>>) -> Result<(), AllocError>
    ensures { OnOk result (map called_of calls.new.items
        ≡ map called_of calls.old.items ++ T.calls_of (bare e.now)) }
{
    match e {
        Expr::Number(_) | Expr::Anonymous(_) => Ok(()),
        Expr::Place(place) => add_place_calls(place.accessors.as_slice(), calls),
        Expr::Call(_, _, meant, arguments) => {
            add_all_calls(arguments.as_slice(), calls)?;
            add_call(*meant, arguments.as_slice(), calls)
        }
        Expr::Parentheses(inner) => add_calls(inner, calls),
        Expr::Array(elements) => add_all_calls(elements.as_slice(), calls),
        Expr::Unary(_, a) => add_calls(a, calls),
        Expr::Binary(_, a, b) => {
            add_calls(a, calls)?;
            add_calls(b, calls)
        }
        Expr::Choice(c, a, b) => {
            add_calls(c, calls)?;
            add_calls(a, calls)?;
            add_calls(b, calls)
        }
    }
}

#[cycle(calling)]
fn add_all_calls<'p>(es: &'p [Expr], calls: &mut Vec<Called<'p>>) -> Result<(), AllocError>
    ensures { OnOk result (map called_of calls.new.items
        ≡ map called_of calls.old.items ++ T.all_calls (bare_exprs es.now)) }
{
    for e in es {
        add_calls(e, calls)?;
    }
    Ok(())
}

#[cycle(calling)]
fn add_place_calls<'p>(
    accessors: &'p [Accessor],
    calls: &mut Vec<Called<'p>>,
) -> Result<(), AllocError>
    ensures { OnOk result (map called_of calls.new.items
        ≡ map called_of calls.old.items ++ T.place_calls (as_accessors accessors.now)) }
{
    for accessor in accessors {
        if let Accessor::Index(index) = accessor {
            add_calls(index, calls)?;
        }
    }
    Ok(())
}

fn add_call<'p>(
    meant: Meant,
    arguments: &'p [Expr],
    calls: &mut Vec<Called<'p>>,
) -> Result<(), AllocError>
    ensures { OnOk result (map called_of calls.new.items
        ≡ map called_of calls.old.items ++ T.call_of meant (bare_exprs arguments.now)) }
{
    match meant {
        Meant::Function(function) => {
            calls.push(Called {
                function,
                arguments,
            })?;
            Ok(())
        }
        Meant::Other
        | Meant::Variable(_)
        | Meant::Signal(_, _)
        | Meant::Component(_)
        | Meant::Template(_) => Ok(()),
    }
}
