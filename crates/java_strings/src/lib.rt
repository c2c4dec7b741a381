//! Strings as lists of UTF-16 units: what numbers and truth values say, how strings compare, and what is printed of them.
#![tactic(auto)]

mod compared;
mod encoded;
mod printed;
mod written;

pub use compared::{difference, hash_of, length_of, same_units};
pub use encoded::units_of_bytes;
pub use printed::add_printed;
pub use written::{
    add_ascii, add_hex, add_null, add_number, add_truth, add_units, null_units, number_units,
    truth_units,
};
