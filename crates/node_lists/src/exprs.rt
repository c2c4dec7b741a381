//! Nodes of expressions.

ghost use Rattle.std.specs.Prelude.{◌≡◌, IfOk};
ghost use Rattle.std.specs.Option.{option_map};
ghost use Rattle.java_tree.specs.View.{plain, plains, maybe};
ghost use Rattle.node_lists.specs.Nodes as spec;

use crate::here;
use crate::types::in_type;
use java_tree::tree::{Expr, ExprForm, Node};
use java_tree::{Boxed, Items, NoMemory};

/// An expression and all that is in it.
#[cycle(exprs)]
#[tactic(auto, using(tree_numbers::proofs::Forms::plain_call))]
pub(crate) fn in_expr(e: &Expr, nodes: Items<Node>) -> Result<Items<Node>, NoMemory>
    ensures { IfOk result (λ ns. ns ≡ spec.expr (plain e.now) nodes) }
{
    let nodes = here(e.node, nodes)?;
    match &e.form {
        ExprForm::Number { .. }
        | ExprForm::Char(_)
        | ExprForm::Text(_)
        | ExprForm::Bool(_)
        | ExprForm::Null
        | ExprForm::This
        | ExprForm::Name(_)
        | ExprForm::SuperField(_) => Ok(nodes),
        ExprForm::Field { of, .. } => in_expr(of.get(), nodes),
        ExprForm::Index { of, at } => {
            let nodes = in_expr(of.get(), nodes)?;
            in_expr(at.get(), nodes)
        }
        ExprForm::Call { of, args, .. } => {
            let nodes = in_maybe(of, nodes)?;
            in_exprs(args, nodes)
        }
        ExprForm::SuperMethod { args, .. } => in_exprs(args, nodes),
        ExprForm::New { ty, args } => {
            let nodes = in_type(ty, nodes)?;
            in_exprs(args, nodes)
        }
        ExprForm::NewArray { ty, sizes, .. } => {
            let nodes = in_type(ty, nodes)?;
            in_exprs(sizes, nodes)
        }
        ExprForm::NewFilled { ty, items } => {
            let nodes = in_type(ty, nodes)?;
            in_expr(items.get(), nodes)
        }
        ExprForm::Items(items) => in_exprs(items, nodes),
        ExprForm::Paren(of) => in_expr(of.get(), nodes),
        ExprForm::Unary { of, .. } => in_expr(of.get(), nodes),
        ExprForm::Step { of, .. } => in_expr(of.get(), nodes),
        ExprForm::Cast { ty, of, .. } => {
            let nodes = in_type(ty, nodes)?;
            in_expr(of.get(), nodes)
        }
        ExprForm::Binary { left, right, .. } => {
            let nodes = in_expr(left.get(), nodes)?;
            in_expr(right.get(), nodes)
        }
        ExprForm::InstanceOf { of, ty } => {
            let nodes = in_expr(of.get(), nodes)?;
            in_type(ty, nodes)
        }
        ExprForm::Cond { test, yes, no } => {
            let nodes = in_expr(test.get(), nodes)?;
            let nodes = in_expr(yes.get(), nodes)?;
            in_expr(no.get(), nodes)
        }
        ExprForm::Assign { to, from, .. } => {
            let nodes = in_expr(to.get(), nodes)?;
            in_expr(from.get(), nodes)
        }
    }
}

/// The target of a call, if it has one.
#[cycle(exprs)]
fn in_maybe(e: &Option<Boxed<Expr>>, nodes: Items<Node>) -> Result<Items<Node>, NoMemory>
    ensures { IfOk result (λ ns. ns ≡ spec.maybe (maybe (option_map plain e.now)) nodes) }
{
    match e {
        None => Ok(nodes),
        Some(e) => in_expr(e.get(), nodes),
    }
}

/// Each of a list.
#[cycle(exprs)]
pub(crate) fn in_exprs(es: &Items<Expr>, mut nodes: Items<Node>) -> Result<Items<Node>, NoMemory>
    ensures { IfOk result (λ ns. ns ≡ spec.exprs (plains es.now) nodes) }
{
    for e in es.as_slice() {
        nodes = in_expr(e, nodes)?;
    }
    Ok(nodes)
}
