//! What the parser makes of a file's tokens: trees without places, whose names have no meaning yet.
use crate::marked;
use crate::marked::Blank;
pub use crate::marked::{Arrow, Binary, Compound, Direction, Include, Pragma, Unary};

impl Blank for () {
    fn blank() {}
}

/// A source file.
pub type File = marked::File<(), ()>;

/// What a file is a list of.
pub type Item = marked::Item<(), ()>;

/// `pragma ..;`, `include ..;`, a template or a function, or `component main ..;`
pub type ItemForm = marked::ItemForm<(), ()>;

/// `template ..` or `function ..`
pub type Definition = marked::Definition<(), ()>;

/// `template name(parameters) { .. }`
pub type Template = marked::Template<(), ()>;

/// `function name(parameters) { .. }`
pub type Function = marked::Function<(), ()>;

/// `component main {public [names]} = template(arguments);`
pub type Main = marked::Main<()>;

/// `{ statements }`
pub type Block = marked::Block<(), ()>;

/// A statement, of one of the forms of `StatementForm`.
pub type Statement = marked::Statement<(), ()>;

/// A block, a statement that begins with a word such as `if`, or a simple one and its `;`.
pub type StatementForm = marked::StatementForm<(), ()>;

/// What the head of a `for` begins with: `var name = value`, or an assignment.
pub type First = marked::First<(), ()>;

/// `var name = value`, with one or more variables, or an assignment.
pub type FirstForm = marked::FirstForm<()>;

/// What the head of a `for` ends with: an assignment, such as `name++`.
pub type Step = marked::Step<(), ()>;

/// `"words"` or a value, between the parentheses of `log(..);`
pub type LogArgument = marked::LogArgument<()>;

/// What stands before a `;`: a declaration, an assignment, a constraint, or an anonymous
/// component.
pub type Simple = marked::Simple<()>;

/// `var` and one or more variables.
pub type Vars = marked::Vars<()>;

/// `name[dimension]..`, or `name[dimension].. = value`
pub type DeclaredVariable = marked::DeclaredVariable<()>;

/// `signal`, optionally `input` or `output`, and one or more signals.
pub type Signals = marked::Signals<()>;

/// `name[dimension]..`, and optionally `<== value` or `<-- value`.
pub type DeclaredSignal = marked::DeclaredSignal<()>;

/// Nothing, `<== value` or `<-- value`, behind a declared signal.
pub type SignalValue = marked::SignalValue<()>;

/// `component` and one or more components, or `component name = value`.
pub type Components = marked::Components<()>;

/// `name[dimension]..`
pub type DeclaredComponent = marked::DeclaredComponent<()>;

/// `place = value`, `place += value`, `place <== value`, `place++`, and their kin.
pub type Assign = marked::Assign<()>;

/// `_`, or `(slots)`, two or more.
pub type Target = marked::Target<()>;

/// One of a tuple's places: `place` or `_`.
pub type Slot = marked::Slot<()>;

/// What a target is given: `value`, or `(values)`, two or more.
pub type Source = marked::Source<()>;

/// `name[index].member`, with any number of indices and members.
pub type Place = marked::Place<()>;

/// `[index]` or `.member`
pub type Accessor = marked::Accessor<()>;

/// `template(arguments)(inputs)`: a component without a name.
pub type Anonymous = marked::Anonymous<()>;

/// The inputs of an anonymous component: `values`, or `name <== value` for each.
pub type Inputs = marked::Inputs<()>;

/// `name <-- value` or `name <== value`
pub type NamedInput = marked::NamedInput<()>;

/// An expression, with its parentheses.
pub type Expr = marked::Expr<()>;
