//! Statements without others in them.

ghost use Rattle.std.specs.Prelude.{◌≡◌, ◌↔◌, Bool, map};
ghost use Rattle.std.specs.Option.{option_map};
ghost use Rattle.java_core.specs.Plain as e;
ghost use Rattle.java_core.specs.View.{plain, plains, var_plain};
ghost use Rattle.program_maps.specs.Pairs.{Pair};
ghost use Rattle.program_maps.specs.Trees.{VarAlike, VarsAlike};
ghost use Rattle.alike_trees.specs.Compared.{IsReady, pair};
ghost use Rattle.alike_trees.specs.Inside.{TellsStmt};

use crate::exprs::{expr_alike, exprs_alike, optional_alike};
use crate::sides::{Sides, Unlike, check};
use java_core::{CoreExpr, CoreStmt, CoreStmtForm, CoreVar};
use java_tree::Items;
use java_tree::tree::Node;
use program_maps::goes;

pub(crate) fn locals_alike(
    sides: &Sides<'_>,
    node: Node,
    old: &Items<CoreVar>,
    new: &CoreStmt,
) -> Result<(), Unlike>
    requires { IsReady sides.now }
    ensures { (final : Bool) (w : e.Written) → TellsStmt (pair sides.now) (λ n. e.Locals n final w (map var_plain old.now)) new.now result }
{
    match &new.form {
        CoreStmtForm::Local { vars, .. } => vars_alike(sides, node, old, vars),
        _ => Err(Unlike::Node(node)),
    }
}

fn vars_alike(
    sides: &Sides<'_>,
    node: Node,
    old: &Items<CoreVar>,
    new: &Items<CoreVar>,
) -> Result<(), Unlike>
    requires { IsReady sides.now }
    ensures { (result ≡ Ok tt) ↔ VarsAlike (pair sides.now) (map var_plain old.now) (map var_plain new.now) }
{
    for (at, x) in old.as_slice().iter().enumerate() {
        let Some(y) = new.get(at) else {
            return Err(Unlike::Node(node));
        };
        var_alike(sides, x, y)?;
    }
    check(node, new.len() == old.len())
}

fn var_alike(sides: &Sides<'_>, old: &CoreVar, new: &CoreVar) -> Result<(), Unlike>
    requires { IsReady sides.now }
    ensures { (result ≡ Ok tt) ↔ VarAlike (pair sides.now) (var_plain old.now) (var_plain new.now) }
{
    check(old.node, new.slot == old.slot)?;
    optional_alike(sides, old.node, &old.init, &new.init)
}

pub(crate) fn empty_alike(node: Node, new: &CoreStmt) -> Result<(), Unlike>
    ensures { (p : Pair) → TellsStmt p e.Empty new.now result }
{
    match &new.form {
        CoreStmtForm::Empty => Ok(()),
        _ => Err(Unlike::Node(node)),
    }
}

pub(crate) fn value_alike(
    sides: &Sides<'_>,
    node: Node,
    old: &CoreExpr,
    new: &CoreStmt,
) -> Result<(), Unlike>
    requires { IsReady sides.now }
    ensures { TellsStmt (pair sides.now) (λ n. e.Value n (plain old.now)) new.now result }
{
    match &new.form {
        CoreStmtForm::Value(x) => expr_alike(sides, old, x),
        _ => Err(Unlike::Node(node)),
    }
}

pub(crate) fn break_alike(node: Node, new: &CoreStmt) -> Result<(), Unlike>
    ensures { (p : Pair) → TellsStmt p e.Break new.now result }
{
    match &new.form {
        CoreStmtForm::Break => Ok(()),
        _ => Err(Unlike::Node(node)),
    }
}

pub(crate) fn continue_alike(node: Node, new: &CoreStmt) -> Result<(), Unlike>
    ensures { (p : Pair) → TellsStmt p e.Continue new.now result }
{
    match &new.form {
        CoreStmtForm::Continue => Ok(()),
        _ => Err(Unlike::Node(node)),
    }
}

pub(crate) fn return_alike(
    sides: &Sides<'_>,
    node: Node,
    old: &Option<CoreExpr>,
    new: &CoreStmt,
) -> Result<(), Unlike>
    requires { IsReady sides.now }
    ensures { TellsStmt (pair sides.now) (λ n. e.Return n (option_map plain old.now)) new.now result }
{
    match &new.form {
        CoreStmtForm::Return(x) => optional_alike(sides, node, old, x),
        _ => Err(Unlike::Node(node)),
    }
}

pub(crate) fn throw_alike(
    sides: &Sides<'_>,
    node: Node,
    old: &CoreExpr,
    new: &CoreStmt,
) -> Result<(), Unlike>
    requires { IsReady sides.now }
    ensures { TellsStmt (pair sides.now) (λ n. e.Throw n (plain old.now)) new.now result }
{
    match &new.form {
        CoreStmtForm::Throw(x) => expr_alike(sides, old, x),
        _ => Err(Unlike::Node(node)),
    }
}

pub(crate) fn this_call_alike(
    sides: &Sides<'_>,
    node: Node,
    old: u32,
    old_args: &Items<CoreExpr>,
    new: &CoreStmt,
) -> Result<(), Unlike>
    requires { IsReady sides.now }
    ensures { TellsStmt (pair sides.now) (λ n. e.ThisCall n old (plains old_args.now)) new.now result }
{
    match &new.form {
        CoreStmtForm::ThisCall { constructor, args } => {
            check(node, goes(&sides.map.methods, old, *constructor))?;
            exprs_alike(sides, node, old_args, args)
        }
        _ => Err(Unlike::Node(node)),
    }
}

pub(crate) fn super_call_alike(
    sides: &Sides<'_>,
    node: Node,
    old: u32,
    old_args: &Items<CoreExpr>,
    new: &CoreStmt,
) -> Result<(), Unlike>
    requires { IsReady sides.now }
    ensures { TellsStmt (pair sides.now) (λ n. e.SuperFirst n old (plains old_args.now)) new.now result }
{
    match &new.form {
        CoreStmtForm::SuperCall { constructor, args } => {
            check(node, goes(&sides.map.methods, old, *constructor))?;
            exprs_alike(sides, node, old_args, args)
        }
        _ => Err(Unlike::Node(node)),
    }
}
