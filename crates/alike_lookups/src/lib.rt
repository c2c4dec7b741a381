//! Whether calls find the same methods in two programs (JLS 3rd edition, 15.12.4.4).
#![tactic(auto)]

mod calls;
mod classes;
mod families;
mod looks;
mod places;
mod plain;

pub use calls::calls_found;
