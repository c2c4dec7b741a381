//! The constraints that stand against a change of declared types from one type to another (Tip et al. 2011).
#![tactic(auto)]

mod arguments;
mod changed;
mod declarations;
mod exprs;
mod flows;
mod groups;
mod place;
mod program;
mod receivers;
mod results;
mod stmts;
mod unmet;

pub use program::first_unmet;
pub use unmet::{Constraint, Unmet};
