//! What a checked program prints and how it ends within a number of steps (JLS 3rd edition, chapters 8, 12, 14 and 15): definitions alone.
#![tactic(auto)]

pub mod built_ins;
pub mod values;

pub use built_ins::BuiltIn;
pub use values::{End, Ending, Frame, Held, Made, Progress, State, Thing, Value, Variable};
