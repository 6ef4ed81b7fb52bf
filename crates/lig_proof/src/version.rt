/// How the opened columns of a proof are written.
#[derive(Clone, Copy, PartialEq, Eq)]
pub enum Version {
    /// Each column as often as it was drawn, with a path of its own.
    One,
    /// Each column once, and each node that leads to the root once.
    Two,
}
