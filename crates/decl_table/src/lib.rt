//! The world of a program, or the first broken rule on its declarations (JLS 3rd edition, chapters 6 to 9).
#![tactic(auto)]

mod declarations;
mod generics;
mod laws;
mod limits;
mod program;
mod scope;

pub use laws::{one_program, one_refusal, refused_or_declared};
pub use program::build;
