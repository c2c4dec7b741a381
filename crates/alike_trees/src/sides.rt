//! What is compared, and what is told.

ghost use Rattle.std.specs.Prelude.{◌≡◌, ◌↔◌, IsTrue};

use class_world::World;
use java_tree::Items;
use java_tree::tree::Node;
use program_maps::Map;
use std::alloc::Global;

/// What two programs are compared by: where the types, methods and fields of the old one stand in the new one, for its methods others that may be called in their stead,
/// the new one's world, and whether all runs are to be alike, or those alone in which nothing goes wrong. Nothing here takes memory.
#[derive(Clone, Copy)]
pub struct Sides<'a> {
    pub alloc: Global,
    pub map: &'a Map,
    pub others: &'a Items<Option<u32>>,
    pub world: &'a World,
    pub strict: bool,
}

/// A difference, at a node of the old program. `Call` is one of calls that differ in nothing but their methods.
#[derive(Clone, Copy, Debug, PartialEq, Eq)]
pub enum Unlike {
    Node(Node),
    Call { node: Node, old: u32, new: u32 },
}

pub(crate) fn check(node: Node, holds: bool) -> Result<(), Unlike>
    ensures { (result ≡ Ok tt) ↔ IsTrue holds }
{
    if holds {
        Ok(())
    } else {
        Err(Unlike::Node(node))
    }
}
