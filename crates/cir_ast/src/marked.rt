//! The trees of a source: one type for each rule of the grammar.
//!
//! `S` is what an item or a statement carries as its place, and `N` what a name carries as its
//! meaning.
pub use crate::operators::{Arrow, Binary, Compound, Direction, Unary};
use cir_token::Text;
use items::Items;

/// What a name can carry before its meaning is known.
pub trait Blank {
    fn blank() -> Self;
}

/// A source file.
#[derive(Drop)]
pub struct File<S, N> {
    pub items: Items<Item<S, N>>,
}

/// What a file is a list of, with its place.
#[derive(Drop)]
pub struct Item<S, N> {
    pub spot: S,
    pub form: ItemForm<S, N>,
}

/// `pragma ..;`, `include ..;`, a template or a function, or `component main ..;`
#[derive(Drop)]
pub enum ItemForm<S, N> {
    Pragma(Pragma),
    Include(Include),
    Definition(Definition<S, N>),
    Main(Main<N>),
}

/// `pragma circom 2.0.0;`, with the numbers as they are written.
#[derive(Drop)]
pub struct Pragma {
    pub major: u128,
    pub minor: u128,
    pub patch: u128,
}

/// `include "name";`
#[derive(Drop)]
pub struct Include {
    /// What stands between the quotes.
    pub name: Text,
}

/// `template ..` or `function ..`
#[derive(Drop)]
pub enum Definition<S, N> {
    Template(Template<S, N>),
    Function(Function<S, N>),
}

/// `template name(parameters) { .. }`
#[derive(Drop)]
pub struct Template<S, N> {
    /// Whether the word `parallel` stands before the name.
    pub parallel: bool,
    pub name: Text,
    pub parameters: Items<Text>,
    pub body: Block<S, N>,
}

/// `function name(parameters) { .. }`
#[derive(Drop)]
pub struct Function<S, N> {
    pub name: Text,
    pub parameters: Items<Text>,
    pub body: Block<S, N>,
}

/// `component main {public [names]} = template(arguments);`
#[derive(Drop)]
pub struct Main<N> {
    /// The public inputs; empty where the list isn't written.
    pub public: Items<Text>,
    pub template: Text,
    /// What the template's name means.
    pub meant: N,
    pub arguments: Items<Expr<N>>,
}

/// `{ statements }`; there may be none.
#[cycle(statements)]
#[derive(Drop)]
pub struct Block<S, N> {
    pub statements: Items<Statement<S, N>>,
}

/// A statement with its place.
#[cycle(statements)]
#[derive(Drop)]
pub struct Statement<S, N> {
    pub spot: S,
    pub form: StatementForm<S, N>,
}

/// A block, a statement that begins with a word such as `if`, or a simple one and its `;`.
#[cycle(statements)]
#[derive(Drop)]
pub enum StatementForm<S, N> {
    Block(Block<S, N>),
    /// `if (condition) chosen`
    If(Expr<N>, Box<Statement<S, N>>),
    /// `if (condition) chosen else other`
    IfElse(Expr<N>, Box<Statement<S, N>>, Box<Statement<S, N>>),
    /// `while (condition) body`
    While(Expr<N>, Box<Statement<S, N>>),
    /// `for (first; condition; step) body`
    For(Box<First<S, N>>, Expr<N>, Box<Step<S, N>>, Box<Statement<S, N>>),
    /// `return value;`
    Return(Expr<N>),
    /// `assert(condition);`
    Assert(Expr<N>),
    /// `log(arguments);`
    Log(Items<LogArgument<N>>),
    /// A simple statement and its `;`.
    Simple(Simple<N>),
}

/// What the head of a `for` begins with.
pub struct First<S, N> {
    pub spot: S,
    pub form: FirstForm<N>,
}

// Written out, so that the proof of an owner sees one call and not the drop of each part.
impl<S: Drop, N: Drop> Drop for First<S, N> {
    fn drop(self) {
        let First {
            spot: _spot,
            form: _form,
        } = self;
    }
}

/// `var name = value`, with one or more variables, or an assignment.
pub enum FirstForm<N> {
    Vars(Vars<N>),
    Assign(Assign<N>),
}

// Written out for the same reason.
impl<N: Drop> Drop for FirstForm<N> {
    fn drop(self) {
        match self {
            FirstForm::Vars(_value) => (),
            FirstForm::Assign(_value) => (),
        }
    }
}

/// What the head of a `for` ends with.
pub struct Step<S, N> {
    pub spot: S,
    pub assign: Assign<N>,
}

// Written out for the same reason.
impl<S: Drop, N: Drop> Drop for Step<S, N> {
    fn drop(self) {
        let Step {
            spot: _spot,
            assign: _assign,
        } = self;
    }
}

/// `"words"` or a value, between the parentheses of `log(..);`
#[derive(Drop)]
pub enum LogArgument<N> {
    /// What stands between the quotes.
    Words(Text),
    Value(Expr<N>),
}

/// What stands before a `;`: a declaration, an assignment, a constraint, or an anonymous
/// component.
pub enum Simple<N> {
    Vars(Vars<N>),
    Signals(Signals<N>),
    Components(Components<N>),
    Assign(Assign<N>),
    /// `left === right`
    Constrain(Expr<N>, Expr<N>),
    /// `value --> place` or `value ==> place`
    Right(Expr<N>, Arrow, Place<N>),
    /// `target <-- source` or `target <== source`
    TargetLeft(Target<N>, Arrow, Source<N>),
    /// `source --> target` or `source ==> target`
    TargetRight(Source<N>, Arrow, Target<N>),
    /// An anonymous component alone.
    Anonymous(Box<Anonymous<N>>),
}

// Written out for the same reason.
impl<N: Drop> Drop for Simple<N> {
    fn drop(self) {
        match self {
            Simple::Vars(_value) => (),
            Simple::Signals(_value) => (),
            Simple::Components(_value) => (),
            Simple::Assign(_value) => (),
            Simple::Constrain(_first, _second) => (),
            Simple::Right(_first, _second, _third) => (),
            Simple::TargetLeft(_first, _second, _third) => (),
            Simple::TargetRight(_first, _second, _third) => (),
            Simple::Anonymous(_value) => (),
        }
    }
}

/// `var` and one or more variables.
pub struct Vars<N> {
    pub variables: Items<DeclaredVariable<N>>,
}

// Written out for the same reason.
impl<N: Drop> Drop for Vars<N> {
    fn drop(self) {
        let Vars {
            variables: _variables,
        } = self;
    }
}

/// `name[dimension]..`, or `name[dimension].. = value`
#[derive(Drop)]
pub struct DeclaredVariable<N> {
    pub name: Text,
    pub meant: N,
    pub dimensions: Items<Expr<N>>,
    pub value: Option<Expr<N>>,
}

/// `signal`, optionally `input` or `output`, and one or more signals.
#[derive(Drop)]
pub struct Signals<N> {
    /// `Inner` where neither word is written.
    pub direction: Direction,
    pub signals: Items<DeclaredSignal<N>>,
}

/// `name[dimension]..`, and optionally `<== value` or `<-- value`.
#[derive(Drop)]
pub struct DeclaredSignal<N> {
    pub name: Text,
    pub meant: N,
    pub dimensions: Items<Expr<N>>,
    pub value: SignalValue<N>,
}

/// What a declared signal is given at once.
#[derive(Drop)]
pub enum SignalValue<N> {
    Nothing,
    /// `<-- value` or `<== value`
    Given(Arrow, Expr<N>),
}

/// Components that are declared, or one that is created at once.
#[derive(Drop)]
pub enum Components<N> {
    /// `component` and one or more components without a template.
    Declared(Items<DeclaredComponent<N>>),
    /// `component name = value`
    Created(Text, N, Expr<N>),
}

/// `name[dimension]..`
#[derive(Drop)]
pub struct DeclaredComponent<N> {
    pub name: Text,
    pub meant: N,
    pub dimensions: Items<Expr<N>>,
}

/// An assignment: its place stands at the left.
pub enum Assign<N> {
    /// `place = value`
    Set(Place<N>, Expr<N>),
    /// `place += value`, and so for the other operators.
    Compound(Place<N>, Compound, Expr<N>),
    /// `place <-- value` or `place <== value`
    Left(Place<N>, Arrow, Expr<N>),
    /// `place++`
    Increment(Place<N>),
    /// `place--`
    Decrement(Place<N>),
}

// Written out for the same reason.
impl<N: Drop> Drop for Assign<N> {
    fn drop(self) {
        match self {
            Assign::Set(_first, _second) => (),
            Assign::Compound(_first, _second, _third) => (),
            Assign::Left(_first, _second, _third) => (),
            Assign::Increment(_value) => (),
            Assign::Decrement(_value) => (),
        }
    }
}

/// What a tuple or `_` receives.
#[derive(Drop)]
pub enum Target<N> {
    /// `_`
    Discard,
    /// `(slots)`, two or more.
    Tuple(Items<Slot<N>>),
}

/// One of a tuple's places: `place`, or `_`, which drops its value.
#[derive(Drop)]
pub enum Slot<N> {
    Place(Place<N>),
    /// `_`
    Discard,
}

/// What a target is given.
#[derive(Drop)]
pub enum Source<N> {
    One(Expr<N>),
    /// `(values)`, two or more.
    Tuple(Items<Expr<N>>),
}

/// What an expression reads or an assignment writes: `name[index].member`, with any number of
/// indices and members.
#[cycle(expressions)]
#[derive(Drop)]
pub struct Place<N> {
    pub name: Text,
    pub meant: N,
    pub accessors: Items<Accessor<N>>,
}

/// `[index]` or `.member`, behind the name of a place.
#[cycle(expressions)]
#[derive(Drop)]
pub enum Accessor<N> {
    /// `[index]`
    Index(Expr<N>),
    /// `.member`
    Member(Text),
}

/// `template(arguments)(inputs)`: a component without a name.
#[cycle(expressions)]
#[derive(Drop)]
pub struct Anonymous<N> {
    /// Whether the word `parallel` stands before the name.
    pub parallel: bool,
    pub name: Text,
    pub meant: N,
    pub arguments: Items<Expr<N>>,
    pub inputs: Inputs<N>,
}

/// What the second parentheses of an anonymous component hold.
#[cycle(expressions)]
#[derive(Drop)]
pub enum Inputs<N> {
    /// Values in the order of declaration; there may be none.
    Listed(Items<Expr<N>>),
    /// One or more.
    Named(Items<NamedInput<N>>),
}

/// `name <-- value` or `name <== value`
#[cycle(expressions)]
#[derive(Drop)]
pub struct NamedInput<N> {
    pub name: Text,
    pub arrow: Arrow,
    pub value: Expr<N>,
}

/// An expression, with its parentheses.
#[cycle(expressions)]
#[derive(Drop)]
pub enum Expr<N> {
    /// A number as it is written, before any reduction.
    Number(u128),
    Place(Place<N>),
    /// `name(arguments)`, and whether the word `parallel` stands before it.
    Call(bool, Text, N, Items<Expr<N>>),
    Anonymous(Box<Anonymous<N>>),
    /// `(inner)`
    Parentheses(Box<Expr<N>>),
    /// `[elements]`, one or more.
    Array(Items<Expr<N>>),
    Unary(Unary, Box<Expr<N>>),
    Binary(Binary, Box<Expr<N>>, Box<Expr<N>>),
    /// `condition ? chosen : other`
    Choice(Box<Expr<N>>, Box<Expr<N>>, Box<Expr<N>>),
}
