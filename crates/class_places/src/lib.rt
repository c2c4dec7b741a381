//! The places of a class or interface: where the written types of a file name it as a declared type or as a type argument.
#![tactic(auto)]

mod exprs;
mod members;
mod places;
mod stmts;
mod types;

pub use members::places_in;
pub use places::ClassPlace;
