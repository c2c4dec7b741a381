//! What a run does with values: casts, variables, operators, new strings and arrays (JLS 3rd edition, 5 and 15).
#![tactic(auto)]

pub mod casts;
mod items;
pub mod made;
pub mod throws;
pub mod variables;

pub use casts::{cast, fit, imply, take, take_item, test_instance};
pub use made::{apply, end_array, fill_array, make_arrays, make_literal, make_text, operate};
pub use throws::{misfit, throw_plain, throw_saying, throw_value};
pub use variables::{
    array_length, give_static, read, read_static, step_variable, store, store_static,
};
