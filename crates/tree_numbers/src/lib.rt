//! Node numbers in preorder: a node has the next number, and what is in it the numbers behind it, in the order of the text.
#![tactic(auto)]

mod exprs;
mod laws;
mod stmts;
mod types;
mod vars;

pub use exprs::number_expr;
pub use laws::as_many_as_nodes;
pub use stmts::number_stmt;
pub use types::number_type;
pub use vars::{number_param, number_vars};
