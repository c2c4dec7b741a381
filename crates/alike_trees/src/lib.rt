//! Whether trees of two programs are alike, so that they run alike: else the first difference.
#![tactic(auto)]

mod blocks;
mod bodies;
mod calls;
mod exprs;
mod labels;
mod leaves;
mod ones;
mod pairs;
mod sides;
mod simple;
mod stmts;
mod types;

pub use bodies::{body_alike, field_alike, fields_alike};
pub use exprs::expr_alike;
pub use sides::{Sides, Unlike};
pub use stmts::stmt_alike;
