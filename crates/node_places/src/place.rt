//! The place of a node.

ghost use Rattle.std.specs.Prelude.{◌≡◌, None, map};
ghost use Rattle.java_tree.specs.View.{unit_plain};
ghost use Rattle.node_places.specs.Places.{place_of};
ghost use Rattle.node_places.specs.Seek as seek;
ghost use Rattle.node_places.specs.Tells.{Tells};

use crate::members::in_unit;
use java_tree::tree::{Node, SourceUnit};
use std::ops::ControlFlow;

/// The file of a node, counted from 0, and the offset of its first byte there.
#[derive(Clone, Copy, Debug, PartialEq, Eq)]
pub struct NodePlace {
    pub file: usize,
    pub at: u32,
}

/// A search ends with the first byte of the node, or goes on.
pub(crate) type Found = ControlFlow<u32, ()>;

pub(crate) fn here(node: Node, number: u32) -> Found
    ensures { Tells (seek.own number node None) result }
{
    if node.id == number {
        ControlFlow::Break(node.span.from)
    } else {
        ControlFlow::Continue(())
    }
}

/// The place of the node with a number among files whose nodes are numbered one behind the other, or none where no node has it. It takes no memory,
/// and time in proportion to the nodes of the files up to it.
pub fn first_byte(units: &[SourceUnit], number: u32) -> Option<NodePlace>
    ensures { result ≡ place_of (map unit_plain units.now) number }
{
    for (file, unit) in units.iter().enumerate() {
        if let ControlFlow::Break(at) = in_unit(unit, number) {
            return Some(NodePlace { file, at });
        }
    }
    None
}
