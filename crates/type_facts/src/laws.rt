//! A law of the definitions.

ghost use Rattle.type_facts.specs.Laws.{HaveFacts};

/// In each file of a program there are facts, where the questions are ready: no answer is to be equal to facts that cannot be. By the excluded middle of what is asked.
pub fn facts_exist()
    ensures { HaveFacts }
{}
