//! The check of statements: the core of each, or the first rule that it breaks (JLS 3rd edition, chapter 14).
#![tactic(auto)]

mod calls;
mod each;
pub mod jumps;
mod labels;
mod locals;
mod pieces;
pub mod scopes;
pub mod stmts;
mod vars;

pub use jumps::Jumps;
pub use stmts::{check_stmt, check_stmts};
