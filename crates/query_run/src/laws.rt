//! A law above the definitions, as the contract of a call that does nothing.

ghost use Rattle.query_run.specs.Ready.{FalseRefuses};

/// Where a condition that a tuple's columns tell isn't true on it, no tuple that begins with it is kept.
pub fn false_refuses()
    ensures { FalseRefuses }
{}
