//! Whether the tables of two checked programs are alike: what their types, methods and fields are, compared number by number through a map.
#![tactic(auto)]

mod built_ins;
mod members;
mod numbers;
mod statics;
mod tables;
mod types;

pub use tables::tables_alike;
