ghost use Rattle.flow_core.specs.Flow.{Flow};

/// A value of such a type stands for what the strands of one graph answer, from some start values.
/// It has no calls: what it stands for is seen by contracts alone.
pub trait Answers: Sync {
    ghost flow: { Self → Flow };
}
