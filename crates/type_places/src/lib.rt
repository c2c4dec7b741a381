//! Declared types that a command may change: where their heads stand, what is declared by them, and what changes with them.
#![tactic(auto)]

mod changes;
mod changing;
mod heads;
mod members;
mod places;
mod spans;
mod stmts;

pub use changes::Changes;
pub use changing::changes_of;
pub use members::place_in;
pub use places::{Declared, TypePlace};
pub use spans::heads_in;
