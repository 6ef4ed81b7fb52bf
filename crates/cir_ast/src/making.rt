//! Trees of lists, which take no memory, and components without a name.
ghost use Rattle.std.specs.Prelude.{◌≡◌, map, IfOk};
ghost use Rattle.cir_ast.specs.Tree.{bare, bare_exprs, bare_inputs, bare_place, as_accessors};
ghost use Rattle.cir_ast.specs.Tree.{as_named, Call, Array, Listed, Named};
ghost use Rattle.cir_ast.specs.Tree.{Place as PlaceTree};
ghost use Rattle.cir_ast.specs.Tree.{bare_anonymous, bare_statement, Block as BlockTree};
ghost use Rattle.cir_ast.specs.Tree.{as_statements, bare_block};

use crate::marked::{
    Accessor, Anonymous, Block, Expr, Inputs, NamedInput, Place, Statement, StatementForm,
};
use cir_token::Text;
use items::Items;
use std::alloc::{AllocError, Global};

impl<N> Place<N> {
    /// `name[index].member`, with these indices and members in their order.
    #[tactic(auto, using(crate::proofs::Rows::accessors_are))]
    pub fn of(name: Text, meant: N, accessors: Items<Accessor<N>>) -> Place<N>
        ensures { bare_place result ≡ PlaceTree name meant (as_accessors accessors) }
    {
        Place {
            name,
            meant,
            accessors,
        }
    }
}

impl<N> Inputs<N> {
    /// `(values)`, in the order in which the template declares its inputs.
    #[tactic(auto, using(crate::proofs::Rows::exprs_are))]
    pub fn listed(values: Items<Expr<N>>) -> Inputs<N>
        ensures { bare_inputs result ≡ Listed (bare_exprs values) }
    {
        Inputs::Listed(values)
    }

    /// `(name <== value, ..)`, one or more.
    #[tactic(auto, using(crate::proofs::Rows::named_are))]
    pub fn named(inputs: Items<NamedInput<N>>) -> Inputs<N>
        ensures { bare_inputs result ≡ Named (as_named inputs) }
    {
        Inputs::Named(inputs)
    }
}

impl<N> Expr<N> {
    /// `name(arguments)`, and whether the word `parallel` stands before it.
    #[tactic(auto, using(crate::proofs::Rows::exprs_are))]
    pub fn call(parallel: bool, name: Text, meant: N, arguments: Items<Expr<N>>) -> Expr<N>
        ensures { bare result ≡ Call parallel name meant (bare_exprs arguments) }
    {
        Expr::Call(parallel, name, meant, arguments)
    }

    /// `[elements]`, one or more.
    #[tactic(auto, using(crate::proofs::Rows::exprs_are))]
    pub fn array(elements: Items<Expr<N>>) -> Expr<N>
        ensures { bare result ≡ Array (bare_exprs elements) }
    {
        Expr::Array(elements)
    }
}

impl<N: Drop> Expr<N> {
    /// It stands in a box, since it is much larger than most expressions.
    #[tactic(auto, using(crate::proofs::Rows::anonymous_is))]
    pub fn anonymous(alloc: Global, component: Anonymous<N>) -> Result<Expr<N>, AllocError>
        ensures { IfOk result (λ e. bare e ≡ bare_anonymous component) }
    {
        let component = Box::new(alloc, component)?;
        Ok(Expr::Anonymous(component))
    }
}

impl<S, N> Block<S, N> {
    /// `{ statements }`, as the body of a template or of a function.
    pub fn of(statements: Items<Statement<S, N>>) -> Block<S, N>
        ensures { bare_block result ≡ as_statements (map bare_statement statements) }
    {
        Block { statements }
    }
}

impl<S, N> Statement<S, N> {
    /// `{ statements }` as a statement of its own, with its place.
    pub fn block(spot: S, statements: Items<Statement<S, N>>) -> Statement<S, N>
        ensures { bare_statement result
            ≡ BlockTree spot (as_statements (map bare_statement statements)) }
    {
        Statement {
            spot,
            form: StatementForm::Block(Block { statements }),
        }
    }
}
