//! The nodes of a file, in the order of the text.
#![tactic(auto)]

ghost use Rattle.std.specs.Prelude.{◌≡◌, [], IfOk};
ghost use Rattle.java_tree.specs.View.{unit_plain};
ghost use Rattle.node_lists.specs.Nodes as spec;

mod exprs;
mod members;
mod stmts;
mod table;
mod types;
mod vars;

use crate::members::in_unit;
use java_tree::tree::{Node, SourceUnit};
use java_tree::{Items, NoMemory};
use std::alloc::Global;
pub use table::{place_in, places_of};

fn here(node: Node, nodes: Items<Node>) -> Result<Items<Node>, NoMemory>
    ensures { IfOk result (λ ns. ns ≡ spec.node node nodes) }
{
    let mut nodes = nodes;
    nodes.push(node)?;
    Ok(nodes)
}

/// The nodes of a file, in the order of the text.
pub fn nodes_of(alloc: Global, unit: &SourceUnit) -> Result<Items<Node>, NoMemory>
    ensures { IfOk result (λ ns. ns ≡ spec.unit (unit_plain unit.now) []) }
{
    in_unit(unit, Items::new(alloc))
}
