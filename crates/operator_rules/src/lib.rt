//! The rules on literals, written types, operators, casts, conditionals and assignments (JLS 3rd edition, 3.10, 4.3 and chapter 15).
#![tactic(auto)]

pub mod arrays;
pub mod casts;
pub mod conditionals;
pub mod constants;
mod finals;
mod kinds;
pub mod operators;
pub mod uses;
pub mod writtens;

pub use uses::Use;
