//! Statements.

ghost use Rattle.std.specs.Prelude.{◌≡◌, ◌+◌, ◌<◌, ◌^◌, map};
ghost use Rattle.std.specs.Option.{option_map};
ghost use Rattle.java_tree.specs.View.{stmt_plain, stmt_maybe, stmts_plain, group_plain, group_row, catch_plain, catch_row};
ghost use Rattle.tree_numbers.specs.Numbers as numbers;
ghost use Rattle.tree_numbers.specs.Sizes as size;

use crate::exprs::{number_expr, number_exprs};
use crate::types::number_type;
use crate::vars::{number_init, number_labels, number_param, number_vars};
use java_tree::tree::{Catch, Group, Stmt, StmtForm};
use java_tree::{Boxed, Items};

/// Numbers a statement and all trees in it from `first` on, and gives the next number.
#[cycle(stmts)]
#[tactic(auto, using(crate::proofs::Forms::plain_if, crate::proofs::Forms::made_if, crate::proofs::Forms::plain_try, crate::proofs::Forms::made_try))]
pub fn number_stmt(x: &mut Stmt, first: u32) -> u32
    requires { first + size.stmt (stmt_plain x.old) < 2 ^ 32 }
    ensures count { result ≡ first + size.stmt (stmt_plain x.old) }
    ensures tree { (stmt_plain x.new, result) ≡ numbers.stmt (stmt_plain x.old) first }
{
    let Stmt { node, form } = x;
    node.id = first;
    let next = first + 1;
    match form {
        StmtForm::Empty | StmtForm::Break | StmtForm::Continue => next,
        StmtForm::Block(body) => number_stmts(body, next),
        StmtForm::Local { ty, vars, .. } => {
            let next = number_type(ty, next);
            number_vars(vars, next)
        }
        StmtForm::Value(value) => number_expr(value, next),
        StmtForm::If { test, yes, no } => {
            let next = number_expr(test, next);
            let next = number_stmt(yes.get_mut(), next);
            number_maybe_stmt(no, next)
        }
        StmtForm::While { test, body } => {
            let next = number_expr(test, next);
            number_stmt(body.get_mut(), next)
        }
        StmtForm::Do { body, test } => {
            let next = number_stmt(body.get_mut(), next);
            number_expr(test, next)
        }
        StmtForm::For {
            init,
            test,
            step,
            body,
        } => {
            let next = number_stmts(init, next);
            let next = number_init(test, next);
            let next = number_exprs(step, next);
            number_stmt(body.get_mut(), next)
        }
        StmtForm::ForEach { ty, over, body, .. } => {
            let next = number_type(ty, next);
            let next = number_expr(over, next);
            number_stmt(body.get_mut(), next)
        }
        StmtForm::Switch { on, groups } => {
            let next = number_expr(on, next);
            number_groups(groups, next)
        }
        StmtForm::Return(value) => number_init(value, next),
        StmtForm::Throw(value) => number_expr(value, next),
        StmtForm::Try {
            body,
            catches,
            last,
        } => {
            let next = number_stmt(body.get_mut(), next);
            let next = number_catches(catches, next);
            number_maybe_stmt(last, next)
        }
        StmtForm::ThisCall(args) => number_exprs(args, next),
        StmtForm::SuperCall(args) => number_exprs(args, next),
    }
}

#[cycle(stmts)]
fn number_maybe_stmt(x: &mut Option<Boxed<Stmt>>, first: u32) -> u32
    requires { first + size.maybe_stmt (stmt_maybe (option_map stmt_plain x.old)) < 2 ^ 32 }
    ensures count { result ≡ first + size.maybe_stmt (stmt_maybe (option_map stmt_plain x.old)) }
    ensures tree { (stmt_maybe (option_map stmt_plain x.new), result) ≡ numbers.maybe_stmt (stmt_maybe (option_map stmt_plain x.old)) first }
{
    match x {
        None => first,
        Some(x) => number_stmt(x.get_mut(), first),
    }
}

#[cycle(stmts)]
fn number_stmts(xs: &mut Items<Stmt>, first: u32) -> u32
    requires { first + size.stmts (stmts_plain xs.old) < 2 ^ 32 }
    ensures count { result ≡ first + size.stmts (stmts_plain xs.old) }
    ensures tree { (stmts_plain xs.new, result) ≡ numbers.stmts (stmts_plain xs.old) first }
{
    let mut next = first;
    for i in 0..xs.len() {
        next = number_stmt(xs.at_mut(i), next);
    }
    next
}

#[cycle(stmts)]
fn number_group(x: &mut Group, first: u32) -> u32
    requires { first + size.group (group_plain x.old) < 2 ^ 32 }
    ensures count { result ≡ first + size.group (group_plain x.old) }
    ensures tree { (group_plain x.new, result) ≡ numbers.group (group_plain x.old) first }
{
    let Group { node, labels, body } = x;
    node.id = first;
    let next = number_labels(labels, first + 1);
    number_stmts(body, next)
}

#[cycle(stmts)]
fn number_groups(xs: &mut Items<Group>, first: u32) -> u32
    requires { first + size.groups (group_row (map group_plain xs.old)) < 2 ^ 32 }
    ensures count { result ≡ first + size.groups (group_row (map group_plain xs.old)) }
    ensures tree { (group_row (map group_plain xs.new), result) ≡ numbers.groups (group_row (map group_plain xs.old)) first }
{
    let mut next = first;
    for i in 0..xs.len() {
        next = number_group(xs.at_mut(i), next);
    }
    next
}

#[cycle(stmts)]
fn number_catch(x: &mut Catch, first: u32) -> u32
    requires { first + size.catch (catch_plain x.old) < 2 ^ 32 }
    ensures count { result ≡ first + size.catch (catch_plain x.old) }
    ensures tree { (catch_plain x.new, result) ≡ numbers.catch (catch_plain x.old) first }
{
    let Catch { node, param, body } = x;
    node.id = first;
    let next = number_param(param, first + 1);
    number_stmt(body.get_mut(), next)
}

#[cycle(stmts)]
fn number_catches(xs: &mut Items<Catch>, first: u32) -> u32
    requires { first + size.catches (catch_row (map catch_plain xs.old)) < 2 ^ 32 }
    ensures count { result ≡ first + size.catches (catch_row (map catch_plain xs.old)) }
    ensures tree { (catch_row (map catch_plain xs.new), result) ≡ numbers.catches (catch_row (map catch_plain xs.old)) first }
{
    let mut next = first;
    for i in 0..xs.len() {
        next = number_catch(xs.at_mut(i), next);
    }
    next
}
