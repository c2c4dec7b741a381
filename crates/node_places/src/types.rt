//! Nodes of written types.

ghost use Rattle.std.specs.Prelude.{map};
ghost use Rattle.java_tree.specs.View as view;
ghost use Rattle.java_tree.specs.View.{type_plain};
ghost use Rattle.node_places.specs.Seek as seek;
ghost use Rattle.node_places.specs.Tells.{Tells};

use crate::place::{Found, here};
use java_tree::Items;
use java_tree::tree::TypeExpr;
use std::ops::ControlFlow;

/// A type and its arguments.
#[cycle(types)]
pub(crate) fn in_type(x: &TypeExpr, number: u32) -> Found
    ensures { Tells (seek.type number (type_plain x.now)) result }
{
    here(x.node, number)?;
    in_types(&x.args, number)
}

/// Each of a list.
#[cycle(types)]
pub(crate) fn in_types(xs: &Items<TypeExpr>, number: u32) -> Found
    ensures { Tells (seek.types number (view.types (map type_plain xs.now))) result }
{
    for x in xs.as_slice() {
        in_type(x, number)?;
    }
    ControlFlow::Continue(())
}
