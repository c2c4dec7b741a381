//! The checked exceptions that the bodies of a checked program can throw (JLS 3rd edition, 11.2): rules F6 to F10.
#![tactic(auto)]

mod catches;
mod classes;
mod exprs;
mod members;
mod state;
mod stmts;

pub use members::unhandled;
