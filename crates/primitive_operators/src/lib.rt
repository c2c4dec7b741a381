//! Operators and conversions of primitives, and the identity of references (JLS 3rd edition, 4.2, 5.1, 15.14 to 15.24).
#![tactic(auto)]

mod conversions;
mod ints;
mod longs;
mod operators;

pub use conversions::{as_kind, as_primitive};
pub use operators::{operated, prefixed, same_reference, stepped};
