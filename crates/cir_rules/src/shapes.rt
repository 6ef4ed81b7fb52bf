//! The shapes of expressions in a function that is called with arguments of given shapes.
ghost use Rattle.std.specs.Prelude.{◌≡◌, ◌+◌, [], if◌then◌else◌, is_some, map, sum_by, unwrap_or};
ghost use Rattle.std.specs.Prelude.{IfOk, OnOk};
ghost use Rattle.std.specs.List.{list_all};
ghost use Rattle.cir_ast.specs.Tree.{bare, bare_place, bare_exprs, bare_variable, bare_assign};
ghost use Rattle.cir_ast.specs.Tree.{as_accessors};
ghost use Rattle.cir_arrays.specs.Reached.{want_of};
ghost use Rattle.cir_meaning.specs.Arrays.{Whole, same_dims};
ghost use Rattle.cir_meaning.specs.Functions as F;
ghost use Rattle.cir_meaning.specs.Limits.{standing, size_of as array_size};
ghost use Rattle.cir_meaning.specs.Reached as R;
ghost use Rattle.cir_meaning.specs.Writing.{plain};
ghost use Rattle.cir_texts.specs.Shown.{wanted_of, called_of, set_of};
ghost use Rattle.cir_rules.specs.Shown.{made_of};
ghost use Rattle.cir_rules.specs.Ranked.{list_in};
ghost use Rattle.cir_rules.specs.Queue.{with_new};
ghost use Rattle.cir_rules.specs.Shaped.{dims_in, lists_in, all_shapes, shaped, literal_of};
ghost use Rattle.cir_rules.specs.Shaped.{dropped, fits_all, written_size};

use crate::made::Made;
use crate::ranks::indices_count;
use crate::table::CallTable;
use cir_arrays::{Want, size_of};
use cir_ast::program::{Accessor, Assign, DeclaredVariable, Expr, Meant, Place};
use cir_texts::{Assigned, Called, Texts, Wanted, declaration_of, value_of, written_dims};
use std::alloc::{AllocError, Global};

/// A function's text, and the dimensions of its arguments.
#[derive(Clone, Copy)]
pub struct Shapes<'t, 'p, 'a> {
    pub alloc: Global,
    pub texts: &'t Texts<'p>,
    pub arguments: &'a [Vec<u64>],
}

/// The dimensions, or none where shapes don't fit.
type Shape = Option<Vec<u64>>;

impl Shapes<'_, '_, '_> {
    /// The dimensions of a variable: those of its argument, or those of its declaration.
    fn variable_dims(&self, n: u32) -> Result<Vec<u64>, AllocError>
        ensures { IfOk result (λ v. v.items ≡ dims_in self.now n) }
    {
        match self.arguments.get(n as usize) {
            Some(dims) => Vec::from_slice(self.alloc, dims.as_slice()),
            None => written_dims(
                self.alloc,
                declaration_of(n, self.texts.variables.as_slice()),
            ),
        }
    }

    /// What is left of a variable behind as many indices.
    fn place_shape(&self, meant: Meant, count: u64) -> Result<Shape, AllocError>
        ensures { IfOk result (λ o. list_in o ≡ F.place_shape (dims_in self.now) meant count) }
    {
        match meant {
            Meant::Variable(n) => left_of(self.alloc, self.variable_dims(n)?.as_slice(), count),
            Meant::Other
            | Meant::Signal(_, _)
            | Meant::Component(_)
            | Meant::Template(_)
            | Meant::Function(_) => Ok(None),
        }
    }

    /// The shape of an expression.
    #[cycle(shaping)]
    fn shape_in(&self, want: Want, e: &Expr) -> Result<Shape, AllocError>
        ensures { IfOk result (λ o. list_in o
            ≡ F.shape_in (dims_in self.now) (want_of want) (bare e.now)) }
    {
        match e {
            Expr::Number(_) => Ok(Some(Vec::new(self.alloc))),
            Expr::Place(place) => self.read_in(want, place),
            Expr::Call(_, _, _, arguments) => {
                let shapes = self.all_shapes(arguments.as_slice())?;
                Ok(number_if(self.alloc, shapes.is_some()))
            }
            Expr::Anonymous(_) => Ok(None),
            Expr::Parentheses(inner) => self.shape_in(want, inner),
            Expr::Array(elements) => {
                let shapes = self.all_shapes(elements.as_slice())?;
                literal_shape(self.alloc, want, shapes)
            }
            Expr::Unary(_, a) => self.shape_in(Want::Scalar, a),
            Expr::Binary(_, a, b) => match self.shape_in(Want::Scalar, a)? {
                None => Ok(None),
                Some(_) => self.shape_in(Want::Scalar, b),
            },
            Expr::Choice(c, a, b) => {
                if self.shape_in(Want::Scalar, c)?.is_none() {
                    return Ok(None);
                }
                if self.shape_in(Want::Scalar, a)?.is_none() {
                    return Ok(None);
                }
                self.shape_in(Want::Scalar, b)
            }
        }
    }

    #[cycle(shaping)]
    fn read_in(&self, want: Want, place: &Place) -> Result<Shape, AllocError>
        ensures { IfOk result (λ o. list_in o
            ≡ F.shape_in (dims_in self.now) (want_of want) (bare_place place.now)) }
    {
        if !self.do_indices_fit(place.accessors.as_slice())? {
            return Ok(None);
        }
        self.read_shape(want, place)
    }

    fn read_shape(&self, want: Want, place: &Place) -> Result<Shape, AllocError>
        ensures { IfOk result (λ o. list_in o ≡ F.with_shape
            (F.place_shape (dims_in self.now) place.now.meant
            (R.indices_count (as_accessors place.now.accessors)))
            (F.if_fits (want_of want))) }
    {
        let shape = self.place_shape(place.meant, indices_count(place.accessors.as_slice()))?;
        Ok(if_fits(want, shape))
    }

    #[cycle(shaping)]
    fn do_indices_fit(&self, accessors: &[Accessor]) -> Result<bool, AllocError>
        ensures { IfOk result (λ fits. fits
            ≡ is_some (F.index_shapes (dims_in self.now) (as_accessors accessors.now))) }
    {
        for accessor in accessors {
            if let Accessor::Index(index) = accessor {
                if self.shape_in(Want::Scalar, index)?.is_none() {
                    return Ok(false);
                }
            }
        }
        Ok(true)
    }

    /// The shapes of arguments or elements, or none where one doesn't fit.
    #[cycle(shaping)]
    fn all_shapes(&self, es: &[Expr]) -> Result<Option<Vec<Vec<u64>>>, AllocError>
        ensures { IfOk result (λ o. lists_in o
            ≡ all_shapes (dims_in self.now) (bare_exprs es.now)) }
    {
        let mut shapes = Vec::new(self.alloc);
        for e in es {
            match self.shape_in(Want::Whole, e)? {
                None => return Ok(None),
                Some(shape) => shapes.push(shape)?,
            }
        }
        Ok(Some(shapes))
    }

    fn wanted_shape(&self, wanted: Wanted) -> Result<Shape, AllocError>
        ensures { IfOk result (λ o. list_in o ≡ F.shape_in (dims_in self.now)
            (wanted_of wanted.entry).want (wanted_of wanted.entry).expr) }
    {
        match wanted {
            Wanted::Number(e) => self.shape_in(Want::Scalar, e),
            Wanted::Whole(e) => self.shape_in(Want::Whole, e),
            Wanted::Compound(_, place, e) => {
                if self.read_in(Want::Scalar, place)?.is_none() {
                    return Ok(None);
                }
                self.shape_in(Want::Scalar, e)
            }
            Wanted::Step(_, place) => {
                let shape = self.read_in(Want::Scalar, place)?;
                Ok(number_if(self.alloc, shape.is_some()))
            }
        }
    }

    /// Whether all shapes in the body fit.
    pub fn do_fit(&self) -> Result<bool, AllocError>
        ensures { IfOk result (λ b. b ≡ fits_all (dims_in self.now)
            (map wanted_of self.now.texts.now.wanted.items)
            (map (λ a. plain (bare_assign a.now)) self.now.texts.now.assigns.items)
            (map (λ v. bare_variable v.now) self.now.texts.now.variables.items)) }
    {
        if !self.do_wanted_fit(self.texts.wanted.as_slice())? {
            return Ok(false);
        }
        if !self.do_assigns_fit(self.texts.assigns.as_slice())? {
            return Ok(false);
        }
        self.do_values_fit(self.texts.variables.as_slice())
    }

    fn do_wanted_fit(&self, wanted: &[Wanted]) -> Result<bool, AllocError>
        ensures { IfOk result (λ b. b ≡ list_all
            (λ x. is_some (F.shape_in (dims_in self.now) x.want x.expr))
            (map wanted_of wanted.now)) }
    {
        for each in wanted {
            if self.wanted_shape(*each)?.is_none() {
                return Ok(false);
            }
        }
        Ok(true)
    }

    fn do_assigns_fit(&self, assigns: &[&Assign]) -> Result<bool, AllocError>
        ensures { IfOk result (λ b. b ≡ list_all (F.assign_fits (dims_in self.now))
            (map (λ a. plain (bare_assign a.now)) assigns.now)) }
    {
        for assign in assigns {
            if !self.does_assign_fit(assign)? {
                return Ok(false);
            }
        }
        Ok(true)
    }

    fn does_assign_fit(&self, assign: &Assign) -> Result<bool, AllocError>
        ensures { IfOk result (λ b. b
            ≡ F.assign_fits (dims_in self.now) (plain (bare_assign assign.now))) }
    {
        match value_of(assign) {
            Some(assigned) => self.is_assigned_same(assigned),
            None => Ok(false),
        }
    }

    fn is_assigned_same(&self, assigned: Assigned) -> Result<bool, AllocError>
        requires { (wanted_of assigned.value).want ≡ Whole }
        ensures { IfOk result (λ b. b
            ≡ F.assign_fits (dims_in self.now) (set_of assigned.entry)) }
    {
        let place = assigned.place;
        let written = self.place_shape(place.meant, indices_count(place.accessors.as_slice()))?;
        let value = self.wanted_shape(assigned.value)?;
        Ok(is_same(&written, &value))
    }

    fn do_values_fit(&self, variables: &[&DeclaredVariable]) -> Result<bool, AllocError>
        ensures { IfOk result (λ b. b ≡ list_all
            (λ v. F.value_fits (dims_in self.now) v v.value)
            (map (λ v. bare_variable v.now) variables.now)) }
    {
        for variable in variables {
            if !self.does_value_fit(variable)? {
                return Ok(false);
            }
        }
        Ok(true)
    }

    fn does_value_fit(&self, variable: &DeclaredVariable) -> Result<bool, AllocError>
        ensures { IfOk result (λ b. b ≡ F.value_fits (dims_in self.now)
            (bare_variable variable.now) (bare_variable variable.now).value) }
    {
        match &variable.value {
            None => Ok(true),
            Some(e) => {
                let written = self.place_shape(variable.meant, 0)?;
                let value = self.shape_in(Want::Whole, e)?;
                Ok(is_same(&written, &value))
            }
        }
    }

    /// Adds the calls in the body, with the shapes of their arguments.
    pub fn add_calls(&self, calls: &[Called], known: &mut CallTable) -> Result<(), AllocError>
        ensures { OnOk result (map made_of known.new.calls.items
            ≡ with_new F.same_made (map made_of known.old.calls.items)
            (shaped (dims_in self.now) (map called_of calls.now))) }
    {
        for inner in calls {
            let shapes = self.argument_shapes(inner.arguments)?;
            let function = inner.function;
            known.add(self.alloc, Made { function, shapes })?;
        }
        Ok(())
    }

    /// One that doesn't fit counts as a number.
    fn argument_shapes(&self, arguments: &[Expr]) -> Result<Vec<Vec<u64>>, AllocError>
        ensures { IfOk result (λ v. map (λ d. d.items) v.items
            ≡ map (λ e. unwrap_or (F.shape_in (dims_in self.now) Whole (bare e)) [])
            arguments.now) }
    {
        let mut shapes = Vec::new(self.alloc);
        for e in arguments {
            match self.shape_in(Want::Whole, e)? {
                Some(dims) => shapes.push(dims)?,
                None => shapes.push(Vec::new(self.alloc))?,
            }
        }
        Ok(shapes)
    }

    /// How many elements the function has, each variable and parameter counted.
    pub fn elements(&self) -> Result<u64, AllocError>
        ensures { IfOk result (λ n. n ≡ standing
            (sum_by array_size (map (λ d. d.items) self.now.arguments.now)
            + sum_by written_size
            (map (λ v. bare_variable v.now) self.now.texts.now.variables.items))) }
    {
        let mut count = 0u64;
        for dims in self.arguments {
            count = count.saturating_add(size_of(dims.as_slice()));
        }
        for variable in self.texts.variables.as_slice() {
            let dims = written_dims(self.alloc, variable.dimensions.as_slice())?;
            count = count.saturating_add(size_of(dims.as_slice()));
        }
        Ok(count)
    }
}

/// A number's shape, if all fits.
fn number_if(alloc: Global, fits: bool) -> Shape
    ensures { list_in result ≡ (if fits then Some [] else None) }
{
    if fits { Some(Vec::new(alloc)) } else { None }
}

/// What is left behind as many indices.
fn left_of(alloc: Global, dims: &[u64], count: u64) -> Result<Shape, AllocError>
    ensures { IfOk result (λ o. list_in o ≡ dropped count dims.now) }
{
    if count > dims.len() as u64 {
        return Ok(None);
    }
    let left = Vec::from_slice(alloc, &dims[count as usize..])?;
    Ok(Some(left))
}

/// The elements of a literal have one shape.
fn literal_shape(
    alloc: Global,
    want: Want,
    shapes: Option<Vec<Vec<u64>>>,
) -> Result<Shape, AllocError>
    ensures { IfOk result (λ o. list_in o ≡ literal_of (want_of want) (lists_in shapes)) }
{
    let Some(shapes) = shapes else {
        return Ok(None);
    };
    let shapes = shapes.as_slice();
    let Some(first) = shapes.first() else {
        return Ok(None);
    };
    if !are_same(first.as_slice(), shapes) {
        return Ok(None);
    }
    let mut dims = vec![in alloc; shapes.len() as u64; 1]?;
    dims.extend_from_slice(first.as_slice())?;
    Ok(if_fits(want, Some(dims)))
}

fn are_same(first: &[u64], shapes: &[Vec<u64>]) -> bool
    ensures { result ≡ list_all (same_dims first.now) (map (λ d. d.items) shapes.now) }
{
    for dims in shapes {
        if first != dims.as_slice() {
            return false;
        }
    }
    true
}

fn if_fits(want: Want, shape: Shape) -> Shape
    ensures { list_in result ≡ F.with_shape (list_in shape) (F.if_fits (want_of want)) }
{
    match shape {
        Some(dims) if want.fits(dims.as_slice()) => Some(dims),
        _ => None,
    }
}

fn is_same(written: &Shape, value: &Shape) -> bool
    ensures { result ≡ F.same_shape (list_in written.now) (list_in value.now) }
{
    match (written, value) {
        (Some(dims), Some(others)) => dims.as_slice() == others.as_slice(),
        _ => false,
    }
}
