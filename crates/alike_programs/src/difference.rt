//! What is told of two programs that are not alike.

use alike_trees::Unlike;

/// Where two programs differ first.
#[derive(Clone, Copy, Debug, PartialEq, Eq)]
pub enum Difference {
    /// What types, methods and fields are: names, owners, superclasses, fields of objects, constants, main methods.
    Tables,
    /// The order of the types (JLS 4.10).
    Order,
    /// The method that a call runs on an object of some class (JLS 15.12.4.4).
    Calls,
    /// A body or an initialiser, at a node of the old program.
    Tree(Unlike),
}
