//! DR1 at the types of declarations, and DR2 at supertypes (JLS 3rd edition, 8.1.4, 8.1.5 and 9.1.3).
#![tactic(auto)]

mod files;
mod members;
mod spelling;
mod supers;

pub use files::first_declared_breach;
