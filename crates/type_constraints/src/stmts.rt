//! The constraints on statements.

ghost use Rattle.std.specs.Prelude.{map};
ghost use Rattle.std.specs.Option.{option_map};
ghost use Rattle.java_core.specs.View.{catch_plain, catch_row, group_plain, group_row, plain, stmt_maybe, stmt_plain, stmts_plain, var_plain};
ghost use Rattle.type_facts.specs.Facts.{IsReady};
ghost use Rattle.type_constraints.specs.Asked.{Gives};
ghost use Rattle.type_constraints.specs.Changed as flows;
ghost use Rattle.type_constraints.specs.Constraints as spec;

use crate::arguments::{own_arguments, super_arguments};
use crate::exprs::{locals, optional, returned, value, values};
use crate::flows::{for_each, thrown};
use crate::place::Place;
use crate::unmet::Unmet;
use java_core::{CoreCatch, CoreExpr, CoreGroup, CoreStmt, CoreStmtForm, CoreVar};
use java_tree::tree::Node;
use java_tree::{Boxed, NoMemory};
use std::alloc::Global;

fn over(
    alloc: Global,
    at: &Place<'_>,
    var: &CoreVar,
    x: &CoreExpr,
    first: Option<Unmet>,
) -> Result<Option<Unmet>, NoMemory>
    requires { IsReady at.now.q }
    ensures { Gives at.now result (λ a. flows.for_each a (var_plain var.now) (plain x.now) (spec.value a (plain x.now) first)) }
{
    let first = value(alloc, at, x, first)?;
    for_each(alloc, at, var, x, first)
}

fn throws(
    alloc: Global,
    at: &Place<'_>,
    node: Node,
    x: &CoreExpr,
    first: Option<Unmet>,
) -> Result<Option<Unmet>, NoMemory>
    requires { IsReady at.now.q }
    ensures { Gives at.now result (λ a. flows.thrown a node (plain x.now) (spec.value a (plain x.now) first)) }
{
    let first = value(alloc, at, x, first)?;
    thrown(alloc, at, node, x, first)
}

/// The constraints on a statement, its parts in the order of the file.
#[cycle(walk)]
pub(crate) fn walk(
    alloc: Global,
    at: &Place<'_>,
    s: &CoreStmt,
    first: Option<Unmet>,
) -> Result<Option<Unmet>, NoMemory>
    requires { IsReady at.now.q }
    ensures { Gives at.now result (λ a. spec.walk a (stmt_plain s.now) first) }
{
    match &s.form {
        CoreStmtForm::Block(stmts) => walks(alloc, at, stmts.as_slice(), first),
        CoreStmtForm::Local { vars, .. } => locals(alloc, at, vars.as_slice(), first),
        CoreStmtForm::Empty | CoreStmtForm::Break | CoreStmtForm::Continue => Ok(first),
        CoreStmtForm::Value(x) => value(alloc, at, x, first),
        CoreStmtForm::If { test, yes, no } => {
            let first = value(alloc, at, test, first)?;
            let first = walk(alloc, at, yes.get(), first)?;
            maybe_walk(alloc, at, no, first)
        }
        CoreStmtForm::While { test, body } => {
            let first = value(alloc, at, test, first)?;
            walk(alloc, at, body.get(), first)
        }
        CoreStmtForm::Do { body, test } => {
            let first = walk(alloc, at, body.get(), first)?;
            value(alloc, at, test, first)
        }
        CoreStmtForm::For {
            init,
            test,
            step,
            body,
        } => {
            let first = walks(alloc, at, init.as_slice(), first)?;
            let first = optional(alloc, at, test, first)?;
            let first = values(alloc, at, step.as_slice(), first)?;
            walk(alloc, at, body.get(), first)
        }
        CoreStmtForm::ForEach {
            var,
            over: x,
            body,
            ..
        } => {
            let first = over(alloc, at, var, x, first)?;
            walk(alloc, at, body.get(), first)
        }
        CoreStmtForm::Switch { on, groups } => {
            let first = value(alloc, at, on, first)?;
            walk_groups(alloc, at, groups.as_slice(), first)
        }
        CoreStmtForm::Return(x) => returned(alloc, at, x, first),
        CoreStmtForm::Throw(x) => throws(alloc, at, s.node, x, first),
        CoreStmtForm::Try {
            body,
            catches,
            last,
        } => {
            let first = walk(alloc, at, body.get(), first)?;
            let first = walk_catches(alloc, at, catches.as_slice(), first)?;
            maybe_walk(alloc, at, last, first)
        }
        CoreStmtForm::ThisCall { constructor, args } => {
            let first = values(alloc, at, args.as_slice(), first)?;
            own_arguments(alloc, at, *constructor, args.as_slice(), first)
        }
        CoreStmtForm::SuperCall { constructor, args } => {
            let first = values(alloc, at, args.as_slice(), first)?;
            super_arguments(alloc, at, *constructor, args.as_slice(), first)
        }
    }
}

#[cycle(walk)]
fn maybe_walk(
    alloc: Global,
    at: &Place<'_>,
    s: &Option<Boxed<CoreStmt>>,
    first: Option<Unmet>,
) -> Result<Option<Unmet>, NoMemory>
    requires { IsReady at.now.q }
    ensures { Gives at.now result (λ a. spec.maybe_walk a (stmt_maybe (option_map stmt_plain s.now)) first) }
{
    match s {
        None => Ok(first),
        Some(s) => walk(alloc, at, s.get(), first),
    }
}

#[cycle(walk)]
fn walks(
    alloc: Global,
    at: &Place<'_>,
    stmts: &[CoreStmt],
    mut first: Option<Unmet>,
) -> Result<Option<Unmet>, NoMemory>
    requires { IsReady at.now.q }
    ensures { Gives at.now result (λ a. spec.walks a (stmts_plain stmts.now) first) }
{
    for s in stmts {
        first = walk(alloc, at, s, first)?;
    }
    Ok(first)
}

#[cycle(walk)]
fn walk_groups(
    alloc: Global,
    at: &Place<'_>,
    groups: &[CoreGroup],
    mut first: Option<Unmet>,
) -> Result<Option<Unmet>, NoMemory>
    requires { IsReady at.now.q }
    ensures { Gives at.now result (λ a. spec.groups a (group_row (map group_plain groups.now)) first) }
{
    for group in groups {
        first = walks(alloc, at, group.body.as_slice(), first)?;
    }
    Ok(first)
}

#[cycle(walk)]
fn walk_catches(
    alloc: Global,
    at: &Place<'_>,
    catches: &[CoreCatch],
    mut first: Option<Unmet>,
) -> Result<Option<Unmet>, NoMemory>
    requires { IsReady at.now.q }
    ensures { Gives at.now result (λ a. spec.catches a (catch_row (map catch_plain catches.now)) first) }
{
    for catch in catches {
        first = walk(alloc, at, catch.body.get(), first)?;
    }
    Ok(first)
}
