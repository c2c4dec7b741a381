//! The check of classes, their members and whole programs (JLS 3rd edition, chapters 8 and 9).
#![tactic(auto)]

pub mod circles;
pub mod classes;
pub mod fields;
pub mod methods;
pub mod parts;
pub mod program;

pub use program::check_program;
