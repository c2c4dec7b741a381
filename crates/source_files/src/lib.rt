//! The files of a program: their texts, and their trees (JLS 3rd edition, 7.3).
#![tactic(auto)]

mod read;
mod trees;

pub use read::{ReadStop, read_files};
pub use trees::{Parsed, TreeStop, parse_files};
