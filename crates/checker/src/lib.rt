//! The check of a program whose declarations break no rule: its core and its unchecked operations, or the first broken rule on types, T1 to T60, or else on flow, F1 to F12.
#![tactic(auto)]

mod check;
mod fault;
pub mod laws;
mod words;

pub use check::{CheckedProgram, check_files};
pub use fault::CheckFault;
pub use words::{java_names, length_name};
