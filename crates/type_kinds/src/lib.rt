//! Kinds of types, conversions between them, and casts (JLS 3rd edition, 4.2, 4.3, 5.1, 5.5 and 5.6).
#![tactic(auto)]

pub mod casts;
pub mod conversions;
pub mod kinds;
pub mod members;
pub mod of_world;
