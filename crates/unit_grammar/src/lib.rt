//! The grammar of files and declarations (JLS 3rd edition, 7, 8, 9 and 18), and the numbers of their nodes.
#![tactic(auto)]

mod decls;
mod laws;
mod members;
mod parts;

pub use decls::number_unit;
pub use laws::{as_many_unit_nodes, as_many_unit_tokens};
