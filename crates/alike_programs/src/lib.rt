//! Whether a checked program behaves as another one does, through a map of types, methods and fields; else the first difference.
#![tactic(auto)]

mod compare;
pub mod difference;
mod known;
mod members;
mod others;

pub use compare::first_difference;
pub use difference::Difference;
