//! Types with marks for the places of a class: of what users declare, and of expressions.
#![tactic(auto)]

pub mod marking;
mod marks;
mod reading;

pub use marks::{Marks, marks_of};
pub use reading::{Reader, read};
