//! What this Java leaves out and the tokens of a text show.
#![tactic(auto)]

mod before;
mod first;
mod rule;

pub use first::{LeftOut, first_left_out};
