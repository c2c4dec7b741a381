//! Fields, methods and constructors.

ghost use Rattle.std.specs.Prelude.{◌≡◌, ◌+◌, ◌<◌, ◌^◌, map};
ghost use Rattle.java_tree.specs.View.{member_plain};
ghost use Rattle.unit_grammar.specs.Numbers as numbers;
ghost use Rattle.unit_grammar.specs.Sizes as size;

use crate::parts::{number_body, number_params, number_result, number_types};
use java_tree::Items;
use java_tree::tree::Member;
use tree_numbers::{number_type, number_vars};

/// Numbers a member and all trees in it from `first` on, and gives the next number.
fn number_member(x: &mut Member, first: u32) -> u32
    requires { first + size.member (member_plain x.old) < 2 ^ 32 }
    ensures count { result ≡ first + size.member (member_plain x.old) }
    ensures tree { (member_plain x.new, result) ≡ numbers.member (member_plain x.old) first }
{
    match x {
        Member::Field { node, ty, vars, .. } => {
            node.id = first;
            let next = number_type(ty, first + 1);
            number_vars(vars, next)
        }
        Member::Method {
            node,
            result,
            params,
            throws,
            body,
            ..
        } => {
            node.id = first;
            let next = number_result(result, first + 1);
            let next = number_params(params, next);
            let next = number_types(throws, next);
            number_body(body, next)
        }
    }
}

/// The same for each member of a type.
pub fn number_members(xs: &mut Items<Member>, first: u32) -> u32
    requires { first + size.members (map member_plain xs.old) < 2 ^ 32 }
    ensures count { result ≡ first + size.members (map member_plain xs.old) }
    ensures tree { (map member_plain xs.new, result) ≡ numbers.members (map member_plain xs.old) first }
{
    let mut next = first;
    for i in 0..xs.len() {
        next = number_member(xs.at_mut(i), next);
    }
    next
}
