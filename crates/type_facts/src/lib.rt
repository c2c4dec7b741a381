//! What the checker asks of a program: answers that equal the facts of it, what is in scope, and members as a type has them.
#![tactic(auto)]

pub mod asks;
pub mod laws;
pub mod questions;
pub mod scope;
pub mod seen;

pub use questions::Questions;
