//! The definitions of all files of a program. Each item and statement has its place, and each name
//! its meaning.
use crate::marked;
use crate::marked::Blank;
pub use crate::marked::{Arrow, Binary, Compound, Direction, Unary};
use cir_token::Text;
use items::Items;

/// A line and a column of a source. Both count from 1, and a column counts bytes. An item or a
/// statement stands at its first token; so do the two statements in the head of a `for`.
#[derive(Clone, Copy)]
pub struct Spot {
    pub line: u32,
    pub column: u32,
}

/// What a name means where it stands.
///
/// In a definition, its variables are numbered from 0: the parameters, then the declarations in the
/// order of the text. So are its signals, and so its components. Templates and functions are
/// numbered as the program lists them.
#[derive(Clone, Copy)]
pub enum Meant {
    /// Nothing that is declared there or defined, or nothing yet.
    Other,
    Variable(u32),
    Signal(Direction, u32),
    Component(u32),
    Template(u32),
    Function(u32),
}

impl Blank for Meant {
    fn blank() -> Meant {
        Meant::Other
    }
}

/// The files in the order of loading, and their definitions in that order.
pub struct Program {
    pub files: Items<Text>,
    pub templates: Items<Template>,
    pub functions: Items<Function>,
    pub mains: Items<Main>,
}

// Written out, so that the proof of an owner sees one call and not the drop of each part.
impl Drop for Program {
    fn drop(self) {
        let Program {
            files: _files,
            templates: _templates,
            functions: _functions,
            mains: _mains,
        } = self;
    }
}

/// `template name(parameters) { .. }`
pub struct Template {
    /// The place of its file in the program's list.
    pub file: u32,
    pub spot: Spot,
    pub parallel: bool,
    pub name: Text,
    /// Its first variables.
    pub parameters: Items<Text>,
    /// How many variables it has, with the parameters.
    pub variables: u32,
    /// How many signals it declares.
    pub signals: u32,
    /// How many components it declares.
    pub components: u32,
    pub body: Block,
}

// Written out for the same reason.
impl Drop for Template {
    fn drop(self) {
        let Template {
            file: _file,
            spot: _spot,
            parallel: _parallel,
            name: _name,
            parameters: _parameters,
            variables: _variables,
            signals: _signals,
            components: _components,
            body: _body,
        } = self;
    }
}

/// `function name(parameters) { .. }`
pub struct Function {
    /// The place of its file in the program's list.
    pub file: u32,
    pub spot: Spot,
    pub name: Text,
    /// Its first variables.
    pub parameters: Items<Text>,
    /// How many variables it has, with the parameters.
    pub variables: u32,
    pub body: Block,
}

// Written out for the same reason.
impl Drop for Function {
    fn drop(self) {
        let Function {
            file: _file,
            spot: _spot,
            name: _name,
            parameters: _parameters,
            variables: _variables,
            body: _body,
        } = self;
    }
}

/// `component main {public [names]} = template(arguments);`
pub struct Main {
    /// The place of its file in the program's list.
    pub file: u32,
    pub spot: Spot,
    /// The public inputs; empty where the list isn't written.
    pub public: Items<Text>,
    pub template: Text,
    /// What the template's name means.
    pub meant: Meant,
    pub arguments: Items<Expr>,
}

// Written out for the same reason.
impl Drop for Main {
    fn drop(self) {
        let Main {
            file: _file,
            spot: _spot,
            public: _public,
            template: _template,
            meant: _meant,
            arguments: _arguments,
        } = self;
    }
}

/// `{ statements }`
pub type Block = marked::Block<Spot, Meant>;

/// A statement, of one of the forms of `StatementForm`.
pub type Statement = marked::Statement<Spot, Meant>;

/// A block, a statement that begins with a word such as `if`, or a simple one and its `;`.
pub type StatementForm = marked::StatementForm<Spot, Meant>;

/// What the head of a `for` begins with: `var name = value`, or an assignment.
pub type First = marked::First<Spot, Meant>;

/// `var name = value`, with one or more variables, or an assignment.
pub type FirstForm = marked::FirstForm<Meant>;

/// What the head of a `for` ends with: an assignment, such as `name++`.
pub type Step = marked::Step<Spot, Meant>;

/// `"words"` or a value, between the parentheses of `log(..);`
pub type LogArgument = marked::LogArgument<Meant>;

/// What stands before a `;`: a declaration, an assignment, a constraint, or an anonymous
/// component.
pub type Simple = marked::Simple<Meant>;

/// `var` and one or more variables.
pub type Vars = marked::Vars<Meant>;

/// `name[dimension]..`, or `name[dimension].. = value`
pub type DeclaredVariable = marked::DeclaredVariable<Meant>;

/// `signal`, optionally `input` or `output`, and one or more signals.
pub type Signals = marked::Signals<Meant>;

/// `name[dimension]..`, and optionally `<== value` or `<-- value`.
pub type DeclaredSignal = marked::DeclaredSignal<Meant>;

/// Nothing, `<== value` or `<-- value`, behind a declared signal.
pub type SignalValue = marked::SignalValue<Meant>;

/// `component` and one or more components, or `component name = value`.
pub type Components = marked::Components<Meant>;

/// `name[dimension]..`
pub type DeclaredComponent = marked::DeclaredComponent<Meant>;

/// `place = value`, `place += value`, `place <== value`, `place++`, and their kin.
pub type Assign = marked::Assign<Meant>;

/// `_`, or `(slots)`, two or more.
pub type Target = marked::Target<Meant>;

/// One of a tuple's places: `place` or `_`.
pub type Slot = marked::Slot<Meant>;

/// What a target is given: `value`, or `(values)`, two or more.
pub type Source = marked::Source<Meant>;

/// `name[index].member`, with any number of indices and members.
pub type Place = marked::Place<Meant>;

/// `[index]` or `.member`
pub type Accessor = marked::Accessor<Meant>;

/// `template(arguments)(inputs)`: a component without a name.
pub type Anonymous = marked::Anonymous<Meant>;

/// The inputs of an anonymous component: `values`, or `name <== value` for each.
pub type Inputs = marked::Inputs<Meant>;

/// `name <-- value` or `name <== value`
pub type NamedInput = marked::NamedInput<Meant>;

/// An expression, with its parentheses.
pub type Expr = marked::Expr<Meant>;
