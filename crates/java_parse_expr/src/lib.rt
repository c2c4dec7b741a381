//! Initialisers and statements of Java, from the tokens of a text to trees that are not numbered yet (JLS 3rd edition, chapters 8, 14 and 18).
#![tactic(auto)]

pub mod got;
mod parts;
pub mod steps;
pub mod stmt;
