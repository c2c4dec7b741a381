//! Statements compared, in the order of the text but for what stands before a body, which comes first.

ghost use Rattle.std.specs.Prelude.{◌≡◌, ◌↔◌, IsTrue, map};
ghost use Rattle.std.specs.Option.{option_map};
ghost use Rattle.java_core.specs.View.{catch_plain, catch_row, group_plain, group_row, param_plain, stmt_maybe, stmt_plain, stmts_plain};
ghost use Rattle.program_maps.specs.Trees.{CatchAlike, CatchParamAlike, CatchesAlike, GroupAlike, GroupsAlike, MaybeStmtAlike, StmtAlike, StmtsAlike};
ghost use Rattle.alike_trees.specs.Compared.{IsReady, pair};

use crate::blocks::{
    Branches, Each, For, Try, in_block, in_do, in_for, in_for_each, in_if, in_switch, in_try,
    in_while,
};
use crate::labels::are_same_labels;
use crate::sides::{Sides, Unlike, check};
use crate::simple::{
    break_alike, continue_alike, empty_alike, locals_alike, return_alike, super_call_alike,
    this_call_alike, throw_alike, value_alike,
};
use java_core::{CoreCatch, CoreGroup, CoreParam, CoreStmt, CoreStmtForm};
use java_tree::tree::Node;
use java_tree::{Boxed, Items};
use program_maps::is_moved_by_erasure;

/// Whether a statement of the old program and one of the new are alike: else the first difference.
#[cycle(stmt_alike)]
pub fn stmt_alike(sides: &Sides<'_>, old: &CoreStmt, new: &CoreStmt) -> Result<(), Unlike>
    requires { IsReady sides.now }
    ensures { (result ≡ Ok tt) ↔ StmtAlike (pair sides.now) (stmt_plain old.now) (stmt_plain new.now) }
{
    let node = old.node;
    match &old.form {
        CoreStmtForm::Block(stmts) => stmts_alike(sides, node, stmts, in_block(node, new)?),
        CoreStmtForm::Local { vars, .. } => locals_alike(sides, node, vars, new),
        CoreStmtForm::Empty => empty_alike(node, new),
        CoreStmtForm::Value(x) => value_alike(sides, node, x, new),
        CoreStmtForm::If { test, yes, no } => {
            branches_alike(sides, node, yes, no, in_if(sides, node, test, new)?)
        }
        CoreStmtForm::While { test, body } => {
            stmt_alike(sides, body.get(), in_while(sides, node, test, new)?)
        }
        CoreStmtForm::Do { body, test } => {
            stmt_alike(sides, body.get(), in_do(sides, node, test, new)?)
        }
        CoreStmtForm::For {
            init,
            test,
            step,
            body,
        } => {
            let inside = in_for(sides, node, test, step, new)?;
            for_alike(sides, node, init, body, inside)
        }
        CoreStmtForm::ForEach {
            var,
            over,
            item,
            implied,
            body,
            ..
        } => {
            let each = Each {
                var,
                over,
                item,
                implied: *implied,
            };
            stmt_alike(sides, body.get(), in_for_each(sides, node, each, new)?)
        }
        CoreStmtForm::Switch { on, groups } => {
            groups_alike(sides, node, groups, in_switch(sides, node, on, new)?)
        }
        CoreStmtForm::Break => break_alike(node, new),
        CoreStmtForm::Continue => continue_alike(node, new),
        CoreStmtForm::Return(x) => return_alike(sides, node, x, new),
        CoreStmtForm::Throw(x) => throw_alike(sides, node, x, new),
        CoreStmtForm::Try {
            body,
            catches,
            last,
        } => try_alike(sides, node, body, catches, last, in_try(node, new)?),
        CoreStmtForm::ThisCall { constructor, args } => {
            this_call_alike(sides, node, *constructor, args, new)
        }
        CoreStmtForm::SuperCall { constructor, args } => {
            super_call_alike(sides, node, *constructor, args, new)
        }
    }
}

#[cycle(stmt_alike)]
fn branches_alike(
    sides: &Sides<'_>,
    node: Node,
    yes: &Boxed<CoreStmt>,
    no: &Option<Boxed<CoreStmt>>,
    new: Branches<'_>,
) -> Result<(), Unlike>
    requires { IsReady sides.now }
    ensures { (result ≡ Ok tt) ↔ (StmtAlike (pair sides.now) (stmt_plain yes.now) (stmt_plain new.entry.yes.now) × MaybeStmtAlike (pair sides.now) (stmt_maybe (option_map stmt_plain no.now)) (stmt_maybe (option_map stmt_plain new.entry.no.now))) }
{
    stmt_alike(sides, yes.get(), new.yes)?;
    maybe_stmt_alike(sides, node, no, new.no)
}

#[cycle(stmt_alike)]
fn for_alike(
    sides: &Sides<'_>,
    node: Node,
    init: &Items<CoreStmt>,
    body: &Boxed<CoreStmt>,
    new: For<'_>,
) -> Result<(), Unlike>
    requires { IsReady sides.now }
    ensures { (result ≡ Ok tt) ↔ (StmtsAlike (pair sides.now) (stmts_plain init.now) (stmts_plain new.entry.init.now) × StmtAlike (pair sides.now) (stmt_plain body.now) (stmt_plain new.entry.body.now)) }
{
    stmts_alike(sides, node, init, new.init)?;
    stmt_alike(sides, body.get(), new.body)
}

#[cycle(stmt_alike)]
fn try_alike(
    sides: &Sides<'_>,
    node: Node,
    body: &Boxed<CoreStmt>,
    catches: &Items<CoreCatch>,
    last: &Option<Boxed<CoreStmt>>,
    new: Try<'_>,
) -> Result<(), Unlike>
    requires { IsReady sides.now }
    ensures { (result ≡ Ok tt) ↔ (StmtAlike (pair sides.now) (stmt_plain body.now) (stmt_plain new.entry.body.now) × CatchesAlike (pair sides.now) (catch_row (map catch_plain catches.now)) (catch_row (map catch_plain new.entry.catches.now)) × MaybeStmtAlike (pair sides.now) (stmt_maybe (option_map stmt_plain last.now)) (stmt_maybe (option_map stmt_plain new.entry.last.now))) }
{
    stmt_alike(sides, body.get(), new.body)?;
    catches_alike(sides, node, catches, new.catches)?;
    maybe_stmt_alike(sides, node, last, new.last)
}

/// The same of a statement that may be missing.
#[cycle(stmt_alike)]
fn maybe_stmt_alike(
    sides: &Sides<'_>,
    node: Node,
    old: &Option<Boxed<CoreStmt>>,
    new: &Option<Boxed<CoreStmt>>,
) -> Result<(), Unlike>
    requires { IsReady sides.now }
    ensures { (result ≡ Ok tt) ↔ MaybeStmtAlike (pair sides.now) (stmt_maybe (option_map stmt_plain old.now)) (stmt_maybe (option_map stmt_plain new.now)) }
{
    match old {
        None => match new {
            None => Ok(()),
            Some(_x) => Err(Unlike::Node(node)),
        },
        Some(x) => match new {
            None => Err(Unlike::Node(node)),
            Some(y) => stmt_alike(sides, x.get(), y.get()),
        },
    }
}

#[cycle(stmt_alike)]
fn stmts_alike(
    sides: &Sides<'_>,
    node: Node,
    old: &Items<CoreStmt>,
    new: &Items<CoreStmt>,
) -> Result<(), Unlike>
    requires { IsReady sides.now }
    ensures { (result ≡ Ok tt) ↔ StmtsAlike (pair sides.now) (stmts_plain old.now) (stmts_plain new.now) }
{
    for (at, x) in old.as_slice().iter().enumerate() {
        let Some(y) = new.get(at) else {
            return Err(Unlike::Node(node));
        };
        stmt_alike(sides, x, y)?;
    }
    check(node, new.len() == old.len())
}

#[cycle(stmt_alike)]
fn groups_alike(
    sides: &Sides<'_>,
    node: Node,
    old: &Items<CoreGroup>,
    new: &Items<CoreGroup>,
) -> Result<(), Unlike>
    requires { IsReady sides.now }
    ensures { (result ≡ Ok tt) ↔ GroupsAlike (pair sides.now) (group_row (map group_plain old.now)) (group_row (map group_plain new.now)) }
{
    for (at, x) in old.as_slice().iter().enumerate() {
        let Some(y) = new.get(at) else {
            return Err(Unlike::Node(node));
        };
        group_alike(sides, x, y)?;
    }
    check(node, new.len() == old.len())
}

#[cycle(stmt_alike)]
fn group_alike(sides: &Sides<'_>, old: &CoreGroup, new: &CoreGroup) -> Result<(), Unlike>
    requires { IsReady sides.now }
    ensures { (result ≡ Ok tt) ↔ GroupAlike (pair sides.now) (group_plain old.now) (group_plain new.now) }
{
    check(
        old.node,
        are_same_labels(old.labels.as_slice(), new.labels.as_slice()),
    )?;
    stmts_alike(sides, old.node, &old.body, &new.body)
}

#[cycle(stmt_alike)]
fn catches_alike(
    sides: &Sides<'_>,
    node: Node,
    old: &Items<CoreCatch>,
    new: &Items<CoreCatch>,
) -> Result<(), Unlike>
    requires { IsReady sides.now }
    ensures { (result ≡ Ok tt) ↔ CatchesAlike (pair sides.now) (catch_row (map catch_plain old.now)) (catch_row (map catch_plain new.now)) }
{
    for (at, x) in old.as_slice().iter().enumerate() {
        let Some(y) = new.get(at) else {
            return Err(Unlike::Node(node));
        };
        catch_alike(sides, x, y)?;
    }
    check(node, new.len() == old.len())
}

#[cycle(stmt_alike)]
fn catch_alike(sides: &Sides<'_>, old: &CoreCatch, new: &CoreCatch) -> Result<(), Unlike>
    requires { IsReady sides.now }
    ensures { (result ≡ Ok tt) ↔ CatchAlike (pair sides.now) (catch_plain old.now) (catch_plain new.now) }
{
    check(old.node, is_param_alike(sides, &old.param, &new.param))?;
    stmt_alike(sides, old.body.get(), new.body.get())
}

/// Whether parameters of catches are alike: they take the same place, and catch the same exceptions.
fn is_param_alike(sides: &Sides<'_>, old: &CoreParam, new: &CoreParam) -> bool
    ensures { IsTrue result ↔ CatchParamAlike (pair sides.now) (param_plain old.now) (param_plain new.now) }
{
    new.slot == old.slot && is_moved_by_erasure(&sides.map.types, &old.ty, &new.ty)
}
