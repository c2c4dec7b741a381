//! Types as a file writes them.

use class_world::JavaType;
use java_tree::Items;
use java_tree::tree::{Node, Span};

/// A written type and what it says, its array levels included. `head` is the place of its head, and its arguments are written types of their own.
#[derive(Drop)]
pub struct CoreType {
    pub node: Node,
    pub head: Span,
    pub ty: JavaType,
    pub args: Items<CoreType>,
}
