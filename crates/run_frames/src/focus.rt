//! What is done next, and what pieces of a program give.

use core_meaning::{Ending, Value, Variable};
use java_core::{CoreCatch, CoreExpr, CoreGroup, CoreStmt};
use java_tree::Items;

/// What a piece gives to what waits for it.
#[derive(Drop)]
pub enum Answer {
    Value(Value),
    /// The variable of an assignment or a step.
    Variable(Variable),
    /// What a test says.
    Truth(bool),
    /// The UTF-16 units of a string conversion.
    Units(Items<u16>),
    /// The values of arguments.
    Values(Items<Value>),
    /// How a statement ends.
    Ending(Ending),
    Nothing,
}

/// What is done next: a tree is run or a type initialised; or a piece gives its answer, throws an object by its number, or stands where no step is left.
#[derive(Drop)]
pub enum Focus<'a> {
    Value(&'a CoreExpr),
    Variable(&'a CoreExpr),
    /// What a variable holds, with the casts that are implied where it is read.
    Current(&'a CoreExpr, Variable),
    Statement(&'a CoreStmt),
    /// The groups of a switch from a place on, of which the first counts that has the label of the number, or else, where `by_label` is false, `default`.
    Groups {
        groups: &'a Items<CoreGroup>,
        at: usize,
        label: i32,
        by_label: bool,
    },
    /// The catches of a `try` from a place on, for a thrown object.
    Catches {
        thrown: u64,
        catches: &'a Items<CoreCatch>,
        at: usize,
    },
    Initialise(u32),
    Gives(Answer),
    Threw(u64),
    AtBound,
}
