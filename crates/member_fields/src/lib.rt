//! The field that a name means in each type (JLS 3rd edition, 8.3 and 9.3).
#![tactic(auto)]

mod build;
mod inherited;
mod own;
mod tables;
mod values;

pub use tables::FieldTable;
