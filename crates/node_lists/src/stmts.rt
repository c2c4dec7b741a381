//! Nodes of statements.

ghost use Rattle.std.specs.Prelude.{◌≡◌, map, IfOk};
ghost use Rattle.std.specs.Option.{option_map};
ghost use Rattle.java_tree.specs.View.{stmt_plain, stmt_maybe, stmts_plain, group_plain, group_row, catch_plain, catch_row};
ghost use Rattle.node_lists.specs.Nodes as spec;

use crate::exprs::{in_expr, in_exprs};
use crate::here;
use crate::types::in_type;
use crate::vars::{in_init, in_labels, in_param, in_vars};
use java_tree::tree::{Catch, Group, Node, Stmt, StmtForm};
use java_tree::{Boxed, Items, NoMemory};

/// A statement and all that is in it.
#[cycle(stmts)]
#[tactic(auto, using(tree_numbers::proofs::Forms::plain_if, tree_numbers::proofs::Forms::plain_try))]
pub(crate) fn in_stmt(x: &Stmt, nodes: Items<Node>) -> Result<Items<Node>, NoMemory>
    ensures { IfOk result (λ ns. ns ≡ spec.stmt (stmt_plain x.now) nodes) }
{
    let nodes = here(x.node, nodes)?;
    match &x.form {
        StmtForm::Empty | StmtForm::Break | StmtForm::Continue => Ok(nodes),
        StmtForm::Block(body) => in_stmts(body, nodes),
        StmtForm::Local { ty, vars, .. } => {
            let nodes = in_type(ty, nodes)?;
            in_vars(vars, nodes)
        }
        StmtForm::Value(value) => in_expr(value, nodes),
        StmtForm::If { test, yes, no } => {
            let nodes = in_expr(test, nodes)?;
            let nodes = in_stmt(yes.get(), nodes)?;
            in_maybe_stmt(no, nodes)
        }
        StmtForm::While { test, body } => {
            let nodes = in_expr(test, nodes)?;
            in_stmt(body.get(), nodes)
        }
        StmtForm::Do { body, test } => {
            let nodes = in_stmt(body.get(), nodes)?;
            in_expr(test, nodes)
        }
        StmtForm::For {
            init,
            test,
            step,
            body,
        } => {
            let nodes = in_stmts(init, nodes)?;
            let nodes = in_init(test, nodes)?;
            let nodes = in_exprs(step, nodes)?;
            in_stmt(body.get(), nodes)
        }
        StmtForm::ForEach { ty, over, body, .. } => {
            let nodes = in_type(ty, nodes)?;
            let nodes = in_expr(over, nodes)?;
            in_stmt(body.get(), nodes)
        }
        StmtForm::Switch { on, groups } => {
            let nodes = in_expr(on, nodes)?;
            in_groups(groups, nodes)
        }
        StmtForm::Return(value) => in_init(value, nodes),
        StmtForm::Throw(value) => in_expr(value, nodes),
        StmtForm::Try {
            body,
            catches,
            last,
        } => {
            let nodes = in_stmt(body.get(), nodes)?;
            let nodes = in_catches(catches, nodes)?;
            in_maybe_stmt(last, nodes)
        }
        StmtForm::ThisCall(args) => in_exprs(args, nodes),
        StmtForm::SuperCall(args) => in_exprs(args, nodes),
    }
}

#[cycle(stmts)]
fn in_maybe_stmt(x: &Option<Boxed<Stmt>>, nodes: Items<Node>) -> Result<Items<Node>, NoMemory>
    ensures { IfOk result (λ ns. ns ≡ spec.maybe_stmt (stmt_maybe (option_map stmt_plain x.now)) nodes) }
{
    match x {
        None => Ok(nodes),
        Some(x) => in_stmt(x.get(), nodes),
    }
}

#[cycle(stmts)]
fn in_stmts(xs: &Items<Stmt>, mut nodes: Items<Node>) -> Result<Items<Node>, NoMemory>
    ensures { IfOk result (λ ns. ns ≡ spec.stmts (stmts_plain xs.now) nodes) }
{
    for x in xs.as_slice() {
        nodes = in_stmt(x, nodes)?;
    }
    Ok(nodes)
}

#[cycle(stmts)]
fn in_group(x: &Group, nodes: Items<Node>) -> Result<Items<Node>, NoMemory>
    ensures { IfOk result (λ ns. ns ≡ spec.group (group_plain x.now) nodes) }
{
    let nodes = here(x.node, nodes)?;
    let nodes = in_labels(&x.labels, nodes)?;
    in_stmts(&x.body, nodes)
}

#[cycle(stmts)]
fn in_groups(xs: &Items<Group>, mut nodes: Items<Node>) -> Result<Items<Node>, NoMemory>
    ensures { IfOk result (λ ns. ns ≡ spec.groups (group_row (map group_plain xs.now)) nodes) }
{
    for x in xs.as_slice() {
        nodes = in_group(x, nodes)?;
    }
    Ok(nodes)
}

#[cycle(stmts)]
fn in_catch(x: &Catch, nodes: Items<Node>) -> Result<Items<Node>, NoMemory>
    ensures { IfOk result (λ ns. ns ≡ spec.catch (catch_plain x.now) nodes) }
{
    let nodes = here(x.node, nodes)?;
    let nodes = in_param(&x.param, nodes)?;
    in_stmt(x.body.get(), nodes)
}

#[cycle(stmts)]
fn in_catches(xs: &Items<Catch>, mut nodes: Items<Node>) -> Result<Items<Node>, NoMemory>
    ensures { IfOk result (λ ns. ns ≡ spec.catches (catch_row (map catch_plain xs.now)) nodes) }
{
    for x in xs.as_slice() {
        nodes = in_catch(x, nodes)?;
    }
    Ok(nodes)
}
