//! What is found of a class or interface.

use java_tree::tree::Span;

/// A place: the node of the written type, by number, and the bytes of its head, as offsets in its file.
#[derive(Clone, Copy)]
pub struct ClassPlace {
    pub node: u32,
    pub head: Span,
}
