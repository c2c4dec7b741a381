//! Which places can't change to a new type, and why.
#![tactic(auto)]

mod check;
mod kept;
mod links;
mod search;

pub use kept::kept_places;
pub use links::{Kept, Kind, Link};
