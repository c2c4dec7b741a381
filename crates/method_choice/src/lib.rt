//! The choice among the candidates of a call (JLS 3rd edition, 15.12.2).
#![tactic(auto)]

mod choice;

pub use choice::{Candidate, Params, chosen};
