//! What written types say (JLS 3rd edition, 4.3 to 4.5, 4.8 and 6.5.5), and where one names no type (DR1).
#![tactic(auto)]

mod breaks;
pub mod laws;
mod read;
mod scope;

pub use breaks::first_ill_named;
pub use read::read_type;
pub use scope::{Named, Scope};
