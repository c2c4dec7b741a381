//! The check of expressions: the core of each, or the first rule that it breaks (JLS 3rd edition, chapter 15).
#![tactic(auto)]

pub mod exprs;
pub mod forms;

pub use exprs::{check, check_all, check_initial};
