//! Where in the files the node with a number stands.
#![tactic(auto)]

mod exprs;
mod members;
mod place;
mod stmts;
mod types;
mod vars;

pub use place::{NodePlace, first_byte};
