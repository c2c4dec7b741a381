//! Laws of the definitions, by the excluded middle of what is asked of a world.

ghost use Rattle.checker.specs.Laws.{HasOrder, HaveFacts, IsOneCheck, IsOneFlow};

/// There are facts of each program, and an order of the types of each world: no core is to be equal to what cannot be.
pub fn facts_exist()
    ensures facts { HaveFacts }
    ensures order { HasOrder }
{}

/// The check of a program with a world has one answer.
pub fn one_check()
    ensures types { IsOneCheck }
    ensures flow { IsOneFlow }
{}
