//! The lines and columns of many offsets of one text.
#![tactic(auto)]

mod table;

pub use table::{APART, line_table, place_by};
