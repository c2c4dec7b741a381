//! What is reached of the bodies of a checked program (JLS 3rd edition, 14.21): rules F1 and F2.
#![tactic(auto)]

mod constants;
mod flaw;
mod groups;
mod program;
mod stmts;
mod ways;

pub use constants::is_same_truth;
pub use flaw::{Flaw, earlier, flaw_unless, noted};
pub use groups::has_default;
pub use program::{completes, unreached};
