//! What statements with others in them have in their places.

ghost use Rattle.std.specs.Prelude.{◌↔◌, Bool, IsTrue, map};
ghost use Rattle.std.specs.Option.{option_map};
ghost use Rattle.java_core.specs.Plain as e;
ghost use Rattle.java_core.specs.View.{group_plain, group_row, plain, plains, stmt_plain, stmts_plain, var_plain};
ghost use Rattle.program_maps.specs.Pairs.{Pair};
ghost use Rattle.program_maps.specs.Trees.{ItemAlike};
ghost use Rattle.alike_trees.specs.Compared.{IsReady, pair};
ghost use Rattle.alike_trees.specs.Inside.{GivesBlock, GivesBody, GivesBranches, GivesFor, GivesGroups, GivesTry};

use crate::exprs::{expr_alike, exprs_alike, optional_alike};
use crate::sides::{Sides, Unlike, check};
use crate::types::{is_array_as, is_fit, is_implied_alike};
use class_world::JavaType;
use java_core::{CoreCatch, CoreExpr, CoreGroup, CoreStmt, CoreStmtForm, CoreVar};
use java_tree::tree::Node;
use java_tree::{Boxed, Items};

/// The branches of an `if`.
#[derive(Clone, Copy)]
pub(crate) struct Branches<'a> {
    pub yes: &'a CoreStmt,
    pub no: &'a Option<Boxed<CoreStmt>>,
}

#[derive(Clone, Copy)]
pub(crate) struct For<'a> {
    pub init: &'a Items<CoreStmt>,
    pub body: &'a CoreStmt,
}

#[derive(Clone, Copy)]
pub(crate) struct Try<'a> {
    pub body: &'a CoreStmt,
    pub catches: &'a Items<CoreCatch>,
    pub last: &'a Option<Boxed<CoreStmt>>,
}

/// What stands before the body of an enhanced `for`.
#[derive(Clone, Copy)]
pub(crate) struct Each<'a> {
    pub var: &'a CoreVar,
    pub over: &'a CoreExpr,
    pub item: &'a JavaType,
    pub implied: bool,
}

pub(crate) fn in_block(node: Node, new: &CoreStmt) -> Result<&Items<CoreStmt>, Unlike>
    ensures { (p : Pair) → GivesBlock p new.now result (λ ys. stmts_plain ys.now) }
{
    match &new.form {
        CoreStmtForm::Block(stmts) => Ok(stmts),
        _ => Err(Unlike::Node(node)),
    }
}

pub(crate) fn in_if<'a>(
    sides: &Sides<'_>,
    node: Node,
    old_test: &CoreExpr,
    new: &'a CoreStmt,
) -> Result<Branches<'a>, Unlike>
    requires { IsReady sides.now }
    ensures { GivesBranches (pair sides.now) (plain old_test.now) new.now result }
{
    match &new.form {
        CoreStmtForm::If { test, yes, no } => {
            expr_alike(sides, old_test, test)?;
            Ok(Branches { yes: yes.get(), no })
        }
        _ => Err(Unlike::Node(node)),
    }
}

pub(crate) fn in_while<'a>(
    sides: &Sides<'_>,
    node: Node,
    old_test: &CoreExpr,
    new: &'a CoreStmt,
) -> Result<&'a CoreStmt, Unlike>
    requires { IsReady sides.now }
    ensures { GivesBody (pair sides.now) (λ n z. e.While n (plain old_test.now) z) new.now result (λ y. stmt_plain y.now) }
{
    match &new.form {
        CoreStmtForm::While { test, body } => {
            expr_alike(sides, old_test, test)?;
            Ok(body.get())
        }
        _ => Err(Unlike::Node(node)),
    }
}

pub(crate) fn in_do<'a>(
    sides: &Sides<'_>,
    node: Node,
    old_test: &CoreExpr,
    new: &'a CoreStmt,
) -> Result<&'a CoreStmt, Unlike>
    requires { IsReady sides.now }
    ensures { GivesBody (pair sides.now) (λ n z. e.Do n z (plain old_test.now)) new.now result (λ y. stmt_plain y.now) }
{
    match &new.form {
        CoreStmtForm::Do { body, test } => {
            expr_alike(sides, old_test, test)?;
            Ok(body.get())
        }
        _ => Err(Unlike::Node(node)),
    }
}

pub(crate) fn in_for<'a>(
    sides: &Sides<'_>,
    node: Node,
    old_test: &Option<CoreExpr>,
    old_step: &Items<CoreExpr>,
    new: &'a CoreStmt,
) -> Result<For<'a>, Unlike>
    requires { IsReady sides.now }
    ensures { GivesFor (pair sides.now) (option_map plain old_test.now) (plains old_step.now) new.now result }
{
    match &new.form {
        CoreStmtForm::For {
            init,
            test,
            step,
            body,
        } => {
            optional_alike(sides, node, old_test, test)?;
            exprs_alike(sides, node, old_step, step)?;
            Ok(For {
                init,
                body: body.get(),
            })
        }
        _ => Err(Unlike::Node(node)),
    }
}

/// Whether variables of enhanced `for` statements are alike: they take the same place, and fit the same values.
fn is_item_alike(old: &CoreVar, new: &CoreVar) -> bool
    ensures { IsTrue result ↔ ItemAlike (var_plain old.now) (var_plain new.now) }
{
    new.slot == old.slot && is_fit(&old.ty, &new.ty)
}

pub(crate) fn in_for_each<'a>(
    sides: &Sides<'_>,
    node: Node,
    old: Each<'_>,
    new: &'a CoreStmt,
) -> Result<&'a CoreStmt, Unlike>
    requires { IsReady sides.now }
    ensures { (final : Bool) (w : e.Written) → GivesBody (pair sides.now) (λ n z. e.ForEach n final w (var_plain old.entry.var.now) (plain old.entry.over.now) old.entry.item.now old.entry.implied z) new.now result (λ y. stmt_plain y.now) }
{
    match &new.form {
        CoreStmtForm::ForEach {
            var,
            over,
            item,
            implied,
            body,
            ..
        } => {
            check(node, is_item_alike(old.var, var))?;
            check(node, is_array_as(&old.over.ty, &over.ty))?;
            check(
                node,
                is_implied_alike(sides, old.implied, *implied, old.item, item),
            )?;
            expr_alike(sides, old.over, over)?;
            Ok(body.get())
        }
        _ => Err(Unlike::Node(node)),
    }
}

pub(crate) fn in_switch<'a>(
    sides: &Sides<'_>,
    node: Node,
    old_on: &CoreExpr,
    new: &'a CoreStmt,
) -> Result<&'a Items<CoreGroup>, Unlike>
    requires { IsReady sides.now }
    ensures { GivesGroups (pair sides.now) (plain old_on.now) new.now result (λ ys. group_row (map group_plain ys.now)) }
{
    match &new.form {
        CoreStmtForm::Switch { on, groups } => {
            expr_alike(sides, old_on, on)?;
            Ok(groups)
        }
        _ => Err(Unlike::Node(node)),
    }
}

pub(crate) fn in_try(node: Node, new: &CoreStmt) -> Result<Try<'_>, Unlike>
    ensures { (p : Pair) → GivesTry p new.now result }
{
    match &new.form {
        CoreStmtForm::Try {
            body,
            catches,
            last,
        } => Ok(Try {
            body: body.get(),
            catches,
            last,
        }),
        _ => Err(Unlike::Node(node)),
    }
}
