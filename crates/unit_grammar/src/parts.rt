//! What members and types are made of.

ghost use Rattle.std.specs.Prelude.{◌≡◌, ◌+◌, ◌<◌, ◌^◌, map};
ghost use Rattle.std.specs.Option.{option_map};
ghost use Rattle.java_tree.specs.View.{type_plain, param_plain, stmt_plain};
ghost use Rattle.unit_grammar.specs.Numbers as numbers;
ghost use Rattle.unit_grammar.specs.Sizes as size;

use java_tree::Items;
use java_tree::tree::{Param, Stmt, TypeExpr};
use tree_numbers::{number_param, number_stmt, number_type};

/// Numbers types with commas between them from `first` on, and gives the next number.
pub fn number_types(xs: &mut Items<TypeExpr>, first: u32) -> u32
    requires { first + size.type_list (map type_plain xs.old) < 2 ^ 32 }
    ensures count { result ≡ first + size.type_list (map type_plain xs.old) }
    ensures tree { (map type_plain xs.new, result) ≡ numbers.type_list (map type_plain xs.old) first }
{
    let mut next = first;
    for i in 0..xs.len() {
        next = number_type(xs.at_mut(i), next);
    }
    next
}

/// The same for a method's result, if a type is written.
pub fn number_result(x: &mut Option<TypeExpr>, first: u32) -> u32
    requires { first + size.result (option_map type_plain x.old) < 2 ^ 32 }
    ensures count { result ≡ first + size.result (option_map type_plain x.old) }
    ensures tree { (option_map type_plain x.new, result) ≡ numbers.result (option_map type_plain x.old) first }
{
    match x {
        None => first,
        Some(x) => number_type(x, first),
    }
}

/// The same for each parameter of a method.
pub fn number_params(xs: &mut Items<Param>, first: u32) -> u32
    requires { first + size.params (map param_plain xs.old) < 2 ^ 32 }
    ensures count { result ≡ first + size.params (map param_plain xs.old) }
    ensures tree { (map param_plain xs.new, result) ≡ numbers.params (map param_plain xs.old) first }
{
    let mut next = first;
    for i in 0..xs.len() {
        next = number_param(xs.at_mut(i), next);
    }
    next
}

/// The same for a method's body, if it has one.
pub fn number_body(x: &mut Option<Stmt>, first: u32) -> u32
    requires { first + size.body (option_map stmt_plain x.old) < 2 ^ 32 }
    ensures count { result ≡ first + size.body (option_map stmt_plain x.old) }
    ensures tree { (option_map stmt_plain x.new, result) ≡ numbers.body (option_map stmt_plain x.old) first }
{
    match x {
        None => first,
        Some(x) => number_stmt(x, first),
    }
}
