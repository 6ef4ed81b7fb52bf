/// Who is told what a program is at.
pub trait Watcher {
    fn tell(&mut self, step: Step<'_>);
}

/// What a program is at, as far as its store and its sink see it.
#[derive(Clone, Copy)]
pub enum Step<'a> {
    /// It reads the file of this name.
    Reading(&'a str),
    /// It asks for nothing.
    Working,
    /// It writes the file of this name.
    Writing(&'a str),
    /// It prints.
    Printing,
}
