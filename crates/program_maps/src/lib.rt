//! Where the types, methods and fields of a program stand in another one, by number, and types with the numbers that they have there.
#![tactic(auto)]

pub mod numbers;
mod types;

pub use numbers::{Map, Numbers, goes, gone, identity, is_one_to_one};
pub use types::{is_moved, is_moved_by_erasure};
