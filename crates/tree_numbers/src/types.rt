//! Written types.

ghost use Rattle.std.specs.Prelude.{◌≡◌, ◌+◌, ◌<◌, ◌^◌, map};
ghost use Rattle.java_tree.specs.View as view;
ghost use Rattle.java_tree.specs.View.{type_plain};
ghost use Rattle.tree_numbers.specs.Numbers as numbers;
ghost use Rattle.tree_numbers.specs.Sizes as size;

use java_tree::Items;
use java_tree::tree::TypeExpr;

/// Numbers a type and its arguments from `first` on, and gives the next number.
#[cycle(types)]
pub fn number_type(x: &mut TypeExpr, first: u32) -> u32
    requires { first + size.type (type_plain x.old) < 2 ^ 32 }
    ensures count { result ≡ first + size.type (type_plain x.old) }
    ensures tree { (type_plain x.new, result) ≡ numbers.type (type_plain x.old) first }
{
    let TypeExpr { node, args, .. } = x;
    node.id = first;
    number_types(args, first + 1)
}

#[cycle(types)]
fn number_types(xs: &mut Items<TypeExpr>, first: u32) -> u32
    requires { first + size.types (view.types (map type_plain xs.old)) < 2 ^ 32 }
    ensures count { result ≡ first + size.types (view.types (map type_plain xs.old)) }
    ensures tree { (view.types (map type_plain xs.new), result) ≡ numbers.types (view.types (map type_plain xs.old)) first }
{
    let mut next = first;
    for i in 0..xs.len() {
        next = number_type(xs.at_mut(i), next);
    }
    next
}
