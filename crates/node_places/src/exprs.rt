//! Nodes of expressions.

ghost use Rattle.std.specs.Option.{option_map};
ghost use Rattle.java_tree.specs.View.{plain, plains, maybe};
ghost use Rattle.node_places.specs.Seek as seek;
ghost use Rattle.node_places.specs.Tells.{Tells};

use crate::place::{Found, here};
use crate::types::in_type;
use java_tree::tree::{Expr, ExprForm};
use java_tree::{Boxed, Items};
use std::ops::ControlFlow;

/// An expression and all that is in it.
#[cycle(exprs)]
#[tactic(auto, using(tree_numbers::proofs::Forms::plain_call))]
pub(crate) fn in_expr(e: &Expr, number: u32) -> Found
    ensures { Tells (seek.expr number (plain e.now)) result }
{
    here(e.node, number)?;
    match &e.form {
        ExprForm::Number { .. }
        | ExprForm::Char(_)
        | ExprForm::Text(_)
        | ExprForm::Bool(_)
        | ExprForm::Null
        | ExprForm::This
        | ExprForm::Name(_)
        | ExprForm::SuperField(_) => ControlFlow::Continue(()),
        ExprForm::Field { of, .. } => in_expr(of.get(), number),
        ExprForm::Index { of, at } => {
            in_expr(of.get(), number)?;
            in_expr(at.get(), number)
        }
        ExprForm::Call { of, args, .. } => {
            in_maybe(of, number)?;
            in_exprs(args, number)
        }
        ExprForm::SuperMethod { args, .. } => in_exprs(args, number),
        ExprForm::New { ty, args } => {
            in_type(ty, number)?;
            in_exprs(args, number)
        }
        ExprForm::NewArray { ty, sizes, .. } => {
            in_type(ty, number)?;
            in_exprs(sizes, number)
        }
        ExprForm::NewFilled { ty, items } => {
            in_type(ty, number)?;
            in_expr(items.get(), number)
        }
        ExprForm::Items(items) => in_exprs(items, number),
        ExprForm::Paren(of) => in_expr(of.get(), number),
        ExprForm::Unary { of, .. } => in_expr(of.get(), number),
        ExprForm::Step { of, .. } => in_expr(of.get(), number),
        ExprForm::Cast { ty, of, .. } => {
            in_type(ty, number)?;
            in_expr(of.get(), number)
        }
        ExprForm::Binary { left, right, .. } => {
            in_expr(left.get(), number)?;
            in_expr(right.get(), number)
        }
        ExprForm::InstanceOf { of, ty } => {
            in_expr(of.get(), number)?;
            in_type(ty, number)
        }
        ExprForm::Cond { test, yes, no } => {
            in_expr(test.get(), number)?;
            in_expr(yes.get(), number)?;
            in_expr(no.get(), number)
        }
        ExprForm::Assign { to, from, .. } => {
            in_expr(to.get(), number)?;
            in_expr(from.get(), number)
        }
    }
}

/// The target of a call, if it has one.
#[cycle(exprs)]
fn in_maybe(e: &Option<Boxed<Expr>>, number: u32) -> Found
    ensures { Tells (seek.maybe number (maybe (option_map plain e.now))) result }
{
    match e {
        None => ControlFlow::Continue(()),
        Some(e) => in_expr(e.get(), number),
    }
}

/// Each of a list.
#[cycle(exprs)]
pub(crate) fn in_exprs(es: &Items<Expr>, number: u32) -> Found
    ensures { Tells (seek.exprs number (plains es.now)) result }
{
    for e in es.as_slice() {
        in_expr(e, number)?;
    }
    ControlFlow::Continue(())
}
