//! The answer of a check: a core, or the first broken rule.
#![tactic(auto)]

mod stop;

pub use stop::{Stop, boxed};
