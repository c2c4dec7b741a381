//! Definite assignment in the bodies of a checked program (JLS 3rd edition, 8.3.1.2, 8.3.2.3 and chapter 16): rules F3, F4, F5, F11 and F12.
#![tactic(auto)]

mod blanks;
mod exprs;
mod fields;
mod forks;
mod jumps;
mod locals;
mod members;
mod state;
mod stmts;
mod variables;

pub use members::unassigned;
