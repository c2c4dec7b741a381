//! Variables, parameters and labels.

ghost use Rattle.std.specs.Prelude.{◌≡◌, ◌+◌, ◌<◌, ◌^◌, map};
ghost use Rattle.std.specs.Option.{option_map};
ghost use Rattle.java_tree.specs.View.{plain, var_plain, param_plain};
ghost use Rattle.tree_numbers.specs.Numbers as numbers;
ghost use Rattle.tree_numbers.specs.Sizes as size;

use crate::exprs::number_expr;
use crate::types::number_type;
use java_tree::Items;
use java_tree::tree::{Expr, Param, Var};

/// Numbers an expression, if there is one, from `first` on, and gives the next number.
pub fn number_init(e: &mut Option<Expr>, first: u32) -> u32
    requires { first + size.init (option_map plain e.old) < 2 ^ 32 }
    ensures count { result ≡ first + size.init (option_map plain e.old) }
    ensures tree { (option_map plain e.new, result) ≡ numbers.init (option_map plain e.old) first }
{
    match e {
        None => first,
        Some(e) => number_expr(e, first),
    }
}

/// The same for each label of a group.
pub fn number_labels(es: &mut Items<Option<Expr>>, first: u32) -> u32
    requires { first + size.labels (map (option_map plain) es.old) < 2 ^ 32 }
    ensures count { result ≡ first + size.labels (map (option_map plain) es.old) }
    ensures tree { (map (option_map plain) es.new, result) ≡ numbers.labels (map (option_map plain) es.old) first }
{
    let mut next = first;
    for i in 0..es.len() {
        next = number_init(es.at_mut(i), next);
    }
    next
}

fn number_var(x: &mut Var, first: u32) -> u32
    requires { first + size.var (var_plain x.old) < 2 ^ 32 }
    ensures count { result ≡ first + size.var (var_plain x.old) }
    ensures tree { (var_plain x.new, result) ≡ numbers.var (var_plain x.old) first }
{
    x.node.id = first;
    number_init(&mut x.init, first + 1)
}

/// Numbers variables and their initialisers.
pub fn number_vars(xs: &mut Items<Var>, first: u32) -> u32
    requires { first + size.vars (map var_plain xs.old) < 2 ^ 32 }
    ensures count { result ≡ first + size.vars (map var_plain xs.old) }
    ensures tree { (map var_plain xs.new, result) ≡ numbers.vars (map var_plain xs.old) first }
{
    let mut next = first;
    for i in 0..xs.len() {
        next = number_var(xs.at_mut(i), next);
    }
    next
}

/// Numbers a parameter and its type.
pub fn number_param(x: &mut Param, first: u32) -> u32
    requires { first + size.param (param_plain x.old) < 2 ^ 32 }
    ensures count { result ≡ first + size.param (param_plain x.old) }
    ensures tree { (param_plain x.new, result) ≡ numbers.param (param_plain x.old) first }
{
    x.node.id = first;
    number_type(&mut x.ty, first + 1)
}
