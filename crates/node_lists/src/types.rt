//! Nodes of written types.

ghost use Rattle.std.specs.Prelude.{◌≡◌, map, IfOk};
ghost use Rattle.java_tree.specs.View as view;
ghost use Rattle.java_tree.specs.View.{type_plain};
ghost use Rattle.node_lists.specs.Nodes as spec;

use crate::here;
use java_tree::tree::{Node, TypeExpr};
use java_tree::{Items, NoMemory};

/// A type and its arguments.
#[cycle(types)]
pub(crate) fn in_type(x: &TypeExpr, nodes: Items<Node>) -> Result<Items<Node>, NoMemory>
    ensures { IfOk result (λ ns. ns ≡ spec.type (type_plain x.now) nodes) }
{
    let nodes = here(x.node, nodes)?;
    in_types(&x.args, nodes)
}

/// Each of a list.
#[cycle(types)]
pub(crate) fn in_types(
    xs: &Items<TypeExpr>,
    mut nodes: Items<Node>,
) -> Result<Items<Node>, NoMemory>
    ensures { IfOk result (λ ns. ns ≡ spec.types (view.types (map type_plain xs.now)) nodes) }
{
    for x in xs.as_slice() {
        nodes = in_type(x, nodes)?;
    }
    Ok(nodes)
}
