//! Nodes of statements.

ghost use Rattle.std.specs.Prelude.{map};
ghost use Rattle.std.specs.Option.{option_map};
ghost use Rattle.java_tree.specs.View.{stmt_plain, stmt_maybe, stmts_plain, group_plain, group_row, catch_plain, catch_row};
ghost use Rattle.node_places.specs.Seek as seek;
ghost use Rattle.node_places.specs.Tells.{Tells};

use crate::exprs::{in_expr, in_exprs};
use crate::place::{Found, here};
use crate::types::in_type;
use crate::vars::{in_init, in_labels, in_param, in_vars};
use java_tree::tree::{Catch, Group, Stmt, StmtForm};
use java_tree::{Boxed, Items};
use std::ops::ControlFlow;

/// A statement and all that is in it.
#[cycle(stmts)]
#[tactic(auto, using(tree_numbers::proofs::Forms::plain_if, tree_numbers::proofs::Forms::plain_try))]
pub(crate) fn in_stmt(x: &Stmt, number: u32) -> Found
    ensures { Tells (seek.stmt number (stmt_plain x.now)) result }
{
    here(x.node, number)?;
    match &x.form {
        StmtForm::Empty | StmtForm::Break | StmtForm::Continue => ControlFlow::Continue(()),
        StmtForm::Block(body) => in_stmts(body, number),
        StmtForm::Local { ty, vars, .. } => {
            in_type(ty, number)?;
            in_vars(vars, number)
        }
        StmtForm::Value(value) => in_expr(value, number),
        StmtForm::If { test, yes, no } => {
            in_expr(test, number)?;
            in_stmt(yes.get(), number)?;
            in_maybe_stmt(no, number)
        }
        StmtForm::While { test, body } => {
            in_expr(test, number)?;
            in_stmt(body.get(), number)
        }
        StmtForm::Do { body, test } => {
            in_stmt(body.get(), number)?;
            in_expr(test, number)
        }
        StmtForm::For {
            init,
            test,
            step,
            body,
        } => {
            in_stmts(init, number)?;
            in_init(test, number)?;
            in_exprs(step, number)?;
            in_stmt(body.get(), number)
        }
        StmtForm::ForEach { ty, over, body, .. } => {
            in_type(ty, number)?;
            in_expr(over, number)?;
            in_stmt(body.get(), number)
        }
        StmtForm::Switch { on, groups } => {
            in_expr(on, number)?;
            in_groups(groups, number)
        }
        StmtForm::Return(value) => in_init(value, number),
        StmtForm::Throw(value) => in_expr(value, number),
        StmtForm::Try {
            body,
            catches,
            last,
        } => {
            in_stmt(body.get(), number)?;
            in_catches(catches, number)?;
            in_maybe_stmt(last, number)
        }
        StmtForm::ThisCall(args) => in_exprs(args, number),
        StmtForm::SuperCall(args) => in_exprs(args, number),
    }
}

#[cycle(stmts)]
fn in_maybe_stmt(x: &Option<Boxed<Stmt>>, number: u32) -> Found
    ensures { Tells (seek.maybe_stmt number (stmt_maybe (option_map stmt_plain x.now))) result }
{
    match x {
        None => ControlFlow::Continue(()),
        Some(x) => in_stmt(x.get(), number),
    }
}

#[cycle(stmts)]
fn in_stmts(xs: &Items<Stmt>, number: u32) -> Found
    ensures { Tells (seek.stmts number (stmts_plain xs.now)) result }
{
    for x in xs.as_slice() {
        in_stmt(x, number)?;
    }
    ControlFlow::Continue(())
}

#[cycle(stmts)]
fn in_group(x: &Group, number: u32) -> Found
    ensures { Tells (seek.group number (group_plain x.now)) result }
{
    here(x.node, number)?;
    in_labels(&x.labels, number)?;
    in_stmts(&x.body, number)
}

#[cycle(stmts)]
fn in_groups(xs: &Items<Group>, number: u32) -> Found
    ensures { Tells (seek.groups number (group_row (map group_plain xs.now))) result }
{
    for x in xs.as_slice() {
        in_group(x, number)?;
    }
    ControlFlow::Continue(())
}

#[cycle(stmts)]
fn in_catch(x: &Catch, number: u32) -> Found
    ensures { Tells (seek.catch number (catch_plain x.now)) result }
{
    here(x.node, number)?;
    in_param(&x.param, number)?;
    in_stmt(x.body.get(), number)
}

#[cycle(stmts)]
fn in_catches(xs: &Items<Catch>, number: u32) -> Found
    ensures { Tells (seek.catches number (catch_row (map catch_plain xs.now))) result }
{
    for x in xs.as_slice() {
        in_catch(x, number)?;
    }
    ControlFlow::Continue(())
}
