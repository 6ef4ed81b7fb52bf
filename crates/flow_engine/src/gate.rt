/// Is told of each strand that a worker has taken, before the strand runs. The strand k of the task
/// i is told as `i * strands + k`, where each task has so many strands.
pub trait Gate: Sync {
    fn enter(&self, item: u32);
}

/// Lets every strand pass.
pub struct OpenGate;

impl Gate for OpenGate {
    fn enter(&self, _item: u32) {}
}
