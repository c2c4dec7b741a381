//! What a run does with expressions, a step a form (JLS 3rd edition, chapter 15).
#![tactic(auto)]

pub mod values;
pub mod variables;
pub mod waits;

pub use values::value;
pub use variables::{current, variable};
pub use waits::{
    assign, call_of, compound, compound_value, cond, index_of, left, logic, next_argument,
    static_args, step, variable_index,
};
