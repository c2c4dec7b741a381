//! Edits of texts, and the lines and columns of their bytes.
#![tactic(auto)]

pub mod edits;
pub mod places;

pub use edits::{Edit, apply};
pub use places::{Place, offset_at, place_at};
