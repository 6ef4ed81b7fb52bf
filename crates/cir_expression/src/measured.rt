//! Trees with their heights, so that no height is counted twice.
ghost use Rattle.std.specs.Prelude.{◌≡◌, ◌<◌, ◌≤◌, ◌^◌, max, IfOk};
ghost use Rattle.cir_ast.specs.Tree as tree;
ghost use Rattle.cir_ast.specs.Height.{inputs_height};
ghost use Rattle.cir_expression.specs.Reading.{within};
ghost use Rattle.cir_expression.specs.Answers.{seen, seen_exprs, seen_accessors, seen_inputs};
ghost use Rattle.cir_expression.specs.Measured.{IsMeasured, IsMeasuredListing, IsMeasuredPath};
ghost use Rattle.cir_expression.specs.Measured.{IsAbove, Makes};

use crate::reader::Stop;
use crate::trimmed::tight;
use cir_ast::Blank;
use cir_ast::marked::{Accessor, Anonymous, Binary, Expr, Inputs, NamedInput, Place, Unary};
use cir_token::Text;
use std::alloc::{AllocError, Global};

/// An expression that was read, and its height.
pub struct Reading<N> {
    pub tree: Expr<N>,
    pub height: u32,
}

// Written out, so that the proof of an owner sees one call and not the drop of each part.
impl<N: Drop> Drop for Reading<N> {
    fn drop(self) {
        let Reading {
            tree: _tree,
            height: _height,
        } = self;
    }
}

impl<N> Reading<N> {
    /// The expression without its height.
    pub fn into_tree(self) -> Expr<N>
        ensures { result ≡ self.tree }
    {
        let Reading { tree, height: _ } = self;
        tree
    }
}

/// Expressions that were read, and the height of the highest.
#[derive(Drop)]
pub struct Listing<N> {
    pub items: Vec<Expr<N>>,
    pub height: u32,
}

/// Indices and members that were read, and the height of the highest index.
#[derive(Drop)]
pub struct Path<N> {
    pub accessors: Vec<Accessor<N>>,
    pub height: u32,
}

/// Named inputs that were read, and the height of the highest value.
#[derive(Drop)]
pub struct Naming<N> {
    pub inputs: Vec<NamedInput<N>>,
    pub height: u32,
}

// Both on the heap.
fn both_boxed<T: Drop>(alloc: Global, a: T, b: T) -> Result<(Box<T>, Box<T>), AllocError>
    ensures { IfOk result (λ r. (r.0.value ≡ a) × (r.1.value ≡ b)) }
{
    Ok((Box::new(alloc, a)?, Box::new(alloc, b)?))
}

// All three on the heap.
fn three_boxed<T: Drop>(
    alloc: Global,
    a: T,
    b: T,
    c: T,
) -> Result<(Box<T>, Box<T>, Box<T>), AllocError>
    ensures { IfOk result (λ r. (r.0.value ≡ a) × (r.1.value ≡ b) × (r.2.value ≡ c)) }
{
    Ok((
        Box::new(alloc, a)?,
        Box::new(alloc, b)?,
        Box::new(alloc, c)?,
    ))
}

/// The operation on both sides, unless it is too high.
pub fn joined<N: Drop>(
    alloc: Global,
    op: Binary,
    left: Reading<N>,
    right: Reading<N>,
    room: u32,
) -> Result<Reading<N>, Stop>
    requires left { IsMeasured left × (left.height < 2 ^ 17) }
    requires right { IsMeasured right × (right.height < 2 ^ 17) }
    ensures made { Makes result (within room (tree.Binary op (seen left.tree) (seen right.tree))) }
    ensures low { IfOk result (λ r. r.height ≤ room) }
{
    let height = left.height.max(right.height) + 1;
    if height > room {
        return Err(Stop::NoTree);
    }
    let (left, right) = both_boxed(alloc, left.into_tree(), right.into_tree())?;
    Ok(Reading {
        tree: Expr::Binary(op, left, right),
        height,
    })
}

/// The choice between two expressions, unless it is too high.
pub fn chosen<N: Drop>(
    alloc: Global,
    condition: Reading<N>,
    chosen: Reading<N>,
    other: Reading<N>,
    room: u32,
) -> Result<Reading<N>, Stop>
    requires condition { IsMeasured condition × (condition.height < 2 ^ 17) }
    requires chosen { IsMeasured chosen × (chosen.height < 2 ^ 17) }
    requires other { IsMeasured other × (other.height < 2 ^ 17) }
    ensures made { Makes result
        (within room (tree.Choice (seen condition.tree) (seen chosen.tree) (seen other.tree))) }
    ensures low { IfOk result (λ r. r.height ≤ room) }
{
    let height = condition.height.max(chosen.height.max(other.height)) + 1;
    if height > room {
        return Err(Stop::NoTree);
    }
    let (condition, chosen, other) = three_boxed(
        alloc,
        condition.into_tree(),
        chosen.into_tree(),
        other.into_tree(),
    )?;
    Ok(Reading {
        tree: Expr::Choice(condition, chosen, other),
        height,
    })
}

/// The expression in parentheses.
pub fn enclosed<N: Drop>(alloc: Global, inner: Reading<N>) -> Result<Reading<N>, AllocError>
    requires { IsMeasured inner × (inner.height < 2 ^ 17) }
    ensures { IfOk result (λ r. IsAbove r (tree.Parentheses (seen inner.tree)) inner.height) }
{
    let height = inner.height + 1;
    Ok(Reading {
        tree: Expr::Parentheses(Box::new(alloc, inner.into_tree())?),
        height,
    })
}

/// The operator before its operand.
pub fn applied<N: Drop>(
    alloc: Global,
    op: Unary,
    inner: Reading<N>,
) -> Result<Reading<N>, AllocError>
    requires { IsMeasured inner × (inner.height < 2 ^ 17) }
    ensures { IfOk result (λ r. IsAbove r (tree.Unary op (seen inner.tree)) inner.height) }
{
    let height = inner.height + 1;
    Ok(Reading {
        tree: Expr::Unary(op, Box::new(alloc, inner.into_tree())?),
        height,
    })
}

/// The array of these elements.
pub fn array<N: Drop>(elements: Listing<N>) -> Reading<N>
    requires { IsMeasuredListing elements × (elements.height < 2 ^ 17) }
    ensures { IsAbove result (tree.Array (seen_exprs elements.items.items)) elements.height }
{
    Reading {
        tree: Expr::array(tight(elements.items)),
        height: elements.height + 1,
    }
}

/// The call with these arguments.
pub fn call<N: Blank + Drop>(parallel: bool, name: Text, arguments: Listing<N>) -> Reading<N>
    requires { IsMeasuredListing arguments × (arguments.height < 2 ^ 17) }
    ensures { IsAbove result (tree.Call parallel name tt (seen_exprs arguments.items.items))
        arguments.height }
{
    Reading {
        tree: Expr::call(parallel, name, N::blank(), tight(arguments.items)),
        height: arguments.height + 1,
    }
}

/// The anonymous component that is given these inputs, with their height.
pub fn component<N: Blank + Drop>(
    alloc: Global,
    parallel: bool,
    name: Text,
    arguments: Listing<N>,
    inputs: Inputs<N>,
    height: u32,
) -> Result<Reading<N>, AllocError>
    requires arguments { IsMeasuredListing arguments × (arguments.height < 2 ^ 17) }
    requires inputs { height ≡ inputs_height (seen_inputs inputs) }
    requires low { height < 2 ^ 17 }
    ensures { IfOk result (λ r. IsAbove r
        (tree.Anonymous parallel name tt (seen_exprs arguments.items.items) (seen_inputs inputs))
        (max arguments.height height)) }
{
    let arguments_height = arguments.height;
    let whole = Anonymous {
        parallel,
        name,
        meant: N::blank(),
        arguments: tight(arguments.items),
        inputs,
    };
    Ok(Reading {
        tree: Expr::anonymous(alloc, whole)?,
        height: arguments_height.max(height) + 1,
    })
}

/// The name with these indices and members.
pub fn place<N: Blank + Drop>(name: Text, path: Path<N>) -> Reading<N>
    requires { IsMeasuredPath path × (path.height < 2 ^ 17) }
    ensures { IsAbove result (tree.Place name tt (seen_accessors path.accessors.items))
        path.height }
{
    Reading {
        tree: Expr::Place(Place::of(name, N::blank(), tight(path.accessors))),
        height: path.height + 1,
    }
}
