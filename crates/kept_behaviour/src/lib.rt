//! Whether new files keep the behaviour of a checked program: they are read and checked as the old ones were, and both programs are compared.
#![tactic(auto)]

mod kept;
mod maps;

pub use kept::{keeps_behaviour, keeps_with_type};
pub use maps::Inserted;
