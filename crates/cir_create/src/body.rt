use cir_evaluate::Context;

/// What stays the same while a body is executed, with what makes its components.
#[derive(Drop)]
pub struct Body<'p, C, M> {
    pub context: &'p Context<'p, C>,
    /// The signals that a template declares as it is executed for a component: by the place of the
    /// statement, the number of the template, its arguments and the component's path.
    pub make: &'p M,
    /// Whether a further template may be opened.
    pub may_make: bool,
}
