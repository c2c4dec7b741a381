//! The types that a program has without declaring them, with their members.
#![tactic(auto)]

mod rows;
mod types;
mod words;

pub use types::{BuiltIns, built_ins};
pub use words::{Word, Words};
