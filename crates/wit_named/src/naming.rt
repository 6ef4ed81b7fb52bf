//! What a task names: the variables and signals, and the signals of components by their indices.
//! More may be named than the task reads.
use crate::once::Once;
use cir_ast::program::{Accessor, Expr, LogArgument, Meant, Place};
use cir_known::{touched_by, touched_by_loop};
use cir_texts::{Texts, Wanted};
use std::alloc::{AllocError, Global};
use wit_statements::Task;

/// A signal of a component: the component, where the indices stand among all, how many they are,
/// and the name.
#[derive(Clone, Copy)]
pub struct Member<'e> {
    pub component: u32,
    pub first: usize,
    pub count: usize,
    pub name: &'e [u8],
}

/// What is named so far.
#[derive(Drop)]
pub struct Naming<'e> {
    pub variables: Once,
    pub signals: Once,
    pub members: Vec<Member<'e>>,
    pub indices: Vec<&'e Expr>,
}

impl<'e> Naming<'e> {
    fn new(alloc: Global) -> Naming<'e> {
        Naming {
            variables: Once::new(alloc),
            signals: Once::new(alloc),
            members: Vec::new(alloc),
            indices: Vec::new(alloc),
        }
    }

    fn add_name(&mut self, meant: Meant) -> Result<(), AllocError> {
        match meant {
            Meant::Variable(n) => self.variables.add(n),
            Meant::Signal(_, n) => self.signals.add(n),
            _ => Ok(()),
        }
    }

    /// A place with its indices.
    #[cycle(naming)]
    fn add_place(&mut self, meant: Meant, accessors: &'e [Accessor]) -> Result<(), AllocError> {
        let first = self.indices.len();
        if let Meant::Component(component) = meant {
            self.add_member(component, first, accessors)?;
        }
        for accessor in accessors {
            if let Accessor::Index(e) = accessor {
                self.add(e)?;
            }
        }
        self.add_name(meant)
    }

    /// The signal of a component that the first member names.
    fn add_member(
        &mut self,
        component: u32,
        first: usize,
        accessors: &'e [Accessor],
    ) -> Result<(), AllocError> {
        let mut count = 0_usize;
        for accessor in accessors {
            match accessor {
                Accessor::Index(e) => {
                    self.indices.push(e)?;
                    count = count.saturating_add(1);
                }
                Accessor::Member(name) => {
                    self.members.push(Member {
                        component,
                        first,
                        count,
                        name: name.as_slice(),
                    })?;
                    return Ok(());
                }
            }
        }
        Ok(())
    }

    /// An expression.
    #[cycle(naming)]
    fn add(&mut self, e: &'e Expr) -> Result<(), AllocError> {
        match e {
            Expr::Number(_) | Expr::Anonymous(_) => Ok(()),
            Expr::Place(place) => self.add_place(place.meant, place.accessors.as_slice()),
            Expr::Call(_, _, _, arguments) => self.add_all(arguments.as_slice()),
            Expr::Parentheses(inner) => self.add(inner),
            Expr::Array(elements) => self.add_all(elements.as_slice()),
            Expr::Unary(_, a) => self.add(a),
            Expr::Binary(_, a, b) => {
                self.add(a)?;
                self.add(b)
            }
            Expr::Choice(c, a, b) => {
                self.add(c)?;
                self.add(a)?;
                self.add(b)
            }
        }
    }

    #[cycle(naming)]
    fn add_all(&mut self, es: &'e [Expr]) -> Result<(), AllocError> {
        for e in es {
            self.add(e)?;
        }
        Ok(())
    }

    fn add_written(&mut self, place: &'e Place) -> Result<(), AllocError> {
        self.add_place(place.meant, place.accessors.as_slice())
    }

    fn add_texts(&mut self, texts: &Texts<'e>) -> Result<(), AllocError> {
        for wanted in texts.wanted.as_slice() {
            match *wanted {
                Wanted::Number(e) | Wanted::Whole(e) => self.add(e)?,
                Wanted::Compound(_, place, e) => {
                    self.add_written(place)?;
                    self.add(e)?;
                }
                Wanted::Step(_, place) => self.add_written(place)?,
            }
        }
        Ok(())
    }

    /// Variables that are assigned are named, and those that are declared aren't.
    fn add_touched(
        &mut self,
        alloc: Global,
        assigned: &[u32],
        declared: &[u32],
    ) -> Result<(), AllocError> {
        self.variables.add_all(assigned)?;
        let mut inner = Once::new(alloc);
        inner.add_all(declared)?;
        let mut outer = Once::new(alloc);
        for n in self.variables.as_slice() {
            if !inner.contains(*n) {
                outer.add(*n)?;
            }
        }
        self.variables = outer;
        Ok(())
    }

    fn add_logged(&mut self, arguments: &'e [LogArgument]) -> Result<(), AllocError> {
        for argument in arguments {
            if let LogArgument::Value(e) = argument {
                self.add(e)?;
            }
        }
        Ok(())
    }
}

/// What a task names.
pub fn names_of<'e>(alloc: Global, task: Task<'e>) -> Result<Naming<'e>, AllocError> {
    let mut naming = Naming::new(alloc);
    match task {
        Task::Gives(e) | Task::Asserts(_, e) => naming.add(e)?,
        Task::Equal(a, b) => {
            naming.add(a)?;
            naming.add(b)?;
        }
        Task::Logs(arguments) => naming.add_logged(arguments)?,
        Task::Assigns(_, a, targets) => {
            let mut texts = Texts::new(alloc);
            texts.add_assign(a)?;
            naming.add_texts(&texts)?;
            for target in targets {
                naming.variables.add(target.variable)?;
            }
        }
        Task::Executes(a, _) => {
            let mut texts = Texts::new(alloc);
            texts.add(a)?;
            naming.add_texts(&texts)?;
            let touched = touched_by(alloc, a)?;
            naming.add_touched(
                alloc,
                touched.assigned.as_slice(),
                touched.declared.as_slice(),
            )?;
        }
        Task::Repeats(_, condition, step, body, _) => {
            naming.add(condition)?;
            let mut texts = Texts::new(alloc);
            texts.add(body)?;
            texts.add_assign(&step.assign)?;
            naming.add_texts(&texts)?;
            let touched = touched_by_loop(alloc, body, &step.assign)?;
            naming.add_touched(
                alloc,
                touched.assigned.as_slice(),
                touched.declared.as_slice(),
            )?;
        }
    }
    Ok(naming)
}
