//! The declared types, methods and fields of a program (JLS 3rd edition, chapters 8 and 9).
#![tactic(auto)]

mod members;
mod types;
mod written;

pub use types::declared_world;
