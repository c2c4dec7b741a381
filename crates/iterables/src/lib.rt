//! Where the library's Iterable is usable, so that the enhanced for goes over what is below it (JLS 3rd edition, 14.14.2).
#![tactic(auto)]

mod calls;
mod members;
mod results;
mod texts;
mod walks;

pub use walks::{walk, with_walk};
