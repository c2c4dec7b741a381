//! Which nodes of a directed graph lead to which.
#![tactic(auto)]

mod cycles;
mod marked;
mod search;
mod sources;

pub use cycles::{first_on_cycle, on_cycles};
use java_tree::Items;
pub use marked::reaching;

/// A directed graph: the targets of each node, whose number is its place. A target that is no node's number counts as nothing.
pub type Graph = Items<Items<u32>>;
