//! The unchecked operations of a checked program, read off its core (JLS 3rd edition, 4.8, 5.1.9 and 5.5).
#![tactic(auto)]

pub mod casting;
mod exprs;
pub mod laws;
mod operations;
mod program;
mod raw;
mod stmts;

pub use casting::is_unchecked_cast;
pub use operations::unchecked_of_class;
pub use program::{Operation, program_operations};
