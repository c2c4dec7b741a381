//! What a run does at calls: strings of values, built-in members, methods, constructors and the initialisation of types (JLS 3rd edition, 12 and 15.12).
#![tactic(auto)]

mod asks;
mod bodies;
pub mod calls;
pub mod members;
mod objects;
pub mod starts;
mod strings;
mod table;
pub mod texts;

pub use calls::{
    answer, call, call_static, construct, create, create_ready, enter, invoke, run_body,
};
pub use members::perform;
pub use starts::{begin, fail, fill, fill_field, fill_from, give_from, initialise, settle};
pub use texts::{
    binary, compound, join, join_right, join_units, print_units, say_hash, say_message, text_of,
    told,
};
