//! DR18 to DR20: what the members of a type may not be (JLS 3rd edition, 8.1.1.1, 8.4.2, 8.4.8.3, 8.4.8.4 and 9.4.1).
#![tactic(auto)]

mod bodies;
mod chain;
mod clashes;
mod fit;
mod methods;
mod numbers;
mod results;
mod search;
mod unresolved;

pub use search::first_inherited_breach;
