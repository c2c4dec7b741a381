//! What is left to do of a run: what waits for what, and what is done next. Nothing here recurses over a program, so a run goes as deep as memory lets it.
#![tactic(auto)]

pub mod focus;
pub mod run;
pub mod stack;
pub mod waits;

pub use focus::{Answer, Focus};
pub use run::Run;
pub use stack::Stack;
pub use waits::{
    ForEnding, ForNothing, ForTruth, ForUnits, ForValue, ForValues, ForVariable, Loop, Saved, Waits,
};
