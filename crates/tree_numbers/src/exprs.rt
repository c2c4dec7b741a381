//! Expressions.

ghost use Rattle.std.specs.Prelude.{◌≡◌, ◌+◌, ◌<◌, ◌^◌};
ghost use Rattle.std.specs.Option.{option_map};
ghost use Rattle.java_tree.specs.View.{plain, plains, maybe};
ghost use Rattle.tree_numbers.specs.Numbers as numbers;
ghost use Rattle.tree_numbers.specs.Sizes as size;

use crate::types::number_type;
use java_tree::tree::{Expr, ExprForm};
use java_tree::{Boxed, Items};

/// Numbers an expression and all trees in it from `first` on, and gives the next number.
#[cycle(exprs)]
#[tactic(auto, using(crate::proofs::Forms::plain_call, crate::proofs::Forms::made_call))]
pub fn number_expr(e: &mut Expr, first: u32) -> u32
    requires { first + size.expr (plain e.old) < 2 ^ 32 }
    ensures count { result ≡ first + size.expr (plain e.old) }
    ensures tree { (plain e.new, result) ≡ numbers.expr (plain e.old) first }
{
    let Expr { node, form } = e;
    node.id = first;
    let next = first + 1;
    match form {
        ExprForm::Number { .. }
        | ExprForm::Char(_)
        | ExprForm::Text(_)
        | ExprForm::Bool(_)
        | ExprForm::Null
        | ExprForm::This
        | ExprForm::Name(_)
        | ExprForm::SuperField(_) => next,
        ExprForm::Field { of, .. } => number_expr(of.get_mut(), next),
        ExprForm::Paren(of) => number_expr(of.get_mut(), next),
        ExprForm::Unary { of, .. } => number_expr(of.get_mut(), next),
        ExprForm::Step { of, .. } => number_expr(of.get_mut(), next),
        ExprForm::Index { of, at } => {
            let next = number_expr(of.get_mut(), next);
            number_expr(at.get_mut(), next)
        }
        ExprForm::Binary { left, right, .. } => {
            let next = number_expr(left.get_mut(), next);
            number_expr(right.get_mut(), next)
        }
        ExprForm::Assign { to, from, .. } => {
            let next = number_expr(to.get_mut(), next);
            number_expr(from.get_mut(), next)
        }
        ExprForm::Call { of, args, .. } => {
            let next = number_maybe(of, next);
            number_exprs(args, next)
        }
        ExprForm::SuperMethod { args, .. } => number_exprs(args, next),
        ExprForm::Items(items) => number_exprs(items, next),
        ExprForm::New { ty, args } => {
            let next = number_type(ty, next);
            number_exprs(args, next)
        }
        ExprForm::NewArray { ty, sizes, .. } => {
            let next = number_type(ty, next);
            number_exprs(sizes, next)
        }
        ExprForm::NewFilled { ty, items } => {
            let next = number_type(ty, next);
            number_expr(items.get_mut(), next)
        }
        ExprForm::Cast { ty, of, .. } => {
            let next = number_type(ty, next);
            number_expr(of.get_mut(), next)
        }
        ExprForm::InstanceOf { of, ty } => {
            let next = number_expr(of.get_mut(), next);
            number_type(ty, next)
        }
        ExprForm::Cond { test, yes, no } => {
            let next = number_expr(test.get_mut(), next);
            let next = number_expr(yes.get_mut(), next);
            number_expr(no.get_mut(), next)
        }
    }
}

/// The same for the target of a call, if it has one.
#[cycle(exprs)]
fn number_maybe(e: &mut Option<Boxed<Expr>>, first: u32) -> u32
    requires { first + size.maybe (maybe (option_map plain e.old)) < 2 ^ 32 }
    ensures count { result ≡ first + size.maybe (maybe (option_map plain e.old)) }
    ensures tree { (maybe (option_map plain e.new), result) ≡ numbers.maybe (maybe (option_map plain e.old)) first }
{
    match e {
        None => first,
        Some(e) => number_expr(e.get_mut(), first),
    }
}

/// The same for each of a list.
#[cycle(exprs)]
pub fn number_exprs(es: &mut Items<Expr>, first: u32) -> u32
    requires { first + size.exprs (plains es.old) < 2 ^ 32 }
    ensures count { result ≡ first + size.exprs (plains es.old) }
    ensures tree { (plains es.new, result) ≡ numbers.exprs (plains es.old) first }
{
    let mut next = first;
    for i in 0..es.len() {
        next = number_expr(es.at_mut(i), next);
    }
    next
}
