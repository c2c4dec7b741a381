//! A law of the definitions.

ghost use Rattle.unchecked_ops.specs.Laws.{HaveCasts};

/// In each world there is a function that says which casts are unchecked: no answer is to be equal to one that cannot be. By the excluded middle of it.
pub fn casts_exist()
    ensures { HaveCasts }
{}
