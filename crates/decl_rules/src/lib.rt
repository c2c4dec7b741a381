//! The rules on declarations that need no types of names, but for which names mean generic types (S12).
#![tactic(auto)]

mod counting;
mod declared;
mod exprs;
mod generics;
mod members;
mod modifiers;
mod plain;
mod repeats;
mod stmts;
mod types;
mod vars;

pub use counting::{Counts, count};
pub use declared::first_declared;
pub use generics::GenericNames;
pub use plain::first_plain;
