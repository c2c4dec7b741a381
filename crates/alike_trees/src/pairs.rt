//! What forms of two or three parts have in their places.

ghost use Rattle.program_maps.specs.Pairs.{Pair};
ghost use Rattle.class_world.specs.declared.world.JavaType.{JavaType};
ghost use Rattle.java_core.specs.Plain as e;
ghost use Rattle.alike_trees.specs.Inside.{GivesCond, GivesTwo};

use crate::sides::{Unlike, check};
use crate::types::is_fit;
use class_world::JavaType;
use java_core::{CoreExpr, CoreForm, Kind};
use java_tree::tree::{BinOp, Node};

#[derive(Clone, Copy)]
pub(crate) struct Two<'a> {
    pub first: &'a CoreExpr,
    pub second: &'a CoreExpr,
}

#[derive(Clone, Copy)]
pub(crate) struct Cond<'a> {
    pub test: &'a CoreExpr,
    pub yes: &'a CoreExpr,
    pub no: &'a CoreExpr,
}

pub(crate) fn in_index(node: Node, new: &CoreExpr) -> Result<Two<'_>, Unlike>
    ensures { (p : Pair) (t : JavaType) → GivesTwo p t e.Index new.now result }
{
    match &new.form {
        CoreForm::Index { of, at } => Ok(Two {
            first: of.get(),
            second: at.get(),
        }),
        _ => Err(Unlike::Node(node)),
    }
}

pub(crate) fn in_binary(
    node: Node,
    old_op: BinOp,
    old_kind: Kind,
    new: &CoreExpr,
) -> Result<Two<'_>, Unlike>
    ensures { (p : Pair) (t : JavaType) → GivesTwo p t (e.Binary old_op old_kind) new.now result }
{
    match &new.form {
        CoreForm::Binary {
            op,
            kind,
            left,
            right,
        } => {
            check(node, *op == old_op && *kind == old_kind)?;
            Ok(Two {
                first: left.get(),
                second: right.get(),
            })
        }
        _ => Err(Unlike::Node(node)),
    }
}

pub(crate) fn in_logic(node: Node, old_both: bool, new: &CoreExpr) -> Result<Two<'_>, Unlike>
    ensures { (p : Pair) (t : JavaType) → GivesTwo p t (e.Logic old_both) new.now result }
{
    match &new.form {
        CoreForm::Logic { both, left, right } => {
            check(node, *both == old_both)?;
            Ok(Two {
                first: left.get(),
                second: right.get(),
            })
        }
        _ => Err(Unlike::Node(node)),
    }
}

pub(crate) fn in_assign(node: Node, new: &CoreExpr) -> Result<Two<'_>, Unlike>
    ensures { (p : Pair) (t : JavaType) → GivesTwo p t e.Assign new.now result }
{
    match &new.form {
        CoreForm::Assign { to, from } => Ok(Two {
            first: to.get(),
            second: from.get(),
        }),
        _ => Err(Unlike::Node(node)),
    }
}

/// A compound assignment, which narrows to its type.
pub(crate) fn in_compound<'a>(
    node: Node,
    ty: &JavaType,
    old_op: BinOp,
    old_kind: Kind,
    new: &'a CoreExpr,
) -> Result<Two<'a>, Unlike>
    ensures { (p : Pair) → GivesTwo p ty.now (e.Compound old_op old_kind) new.now result }
{
    match &new.form {
        CoreForm::Compound { op, kind, to, from } => {
            check(node, *op == old_op && *kind == old_kind)?;
            check(node, is_fit(ty, &new.ty))?;
            Ok(Two {
                first: to.get(),
                second: from.get(),
            })
        }
        _ => Err(Unlike::Node(node)),
    }
}

pub(crate) fn in_cond(node: Node, new: &CoreExpr) -> Result<Cond<'_>, Unlike>
    ensures { (p : Pair) (t : JavaType) → GivesCond p t new.now result }
{
    match &new.form {
        CoreForm::Cond { test, yes, no } => Ok(Cond {
            test: test.get(),
            yes: yes.get(),
            no: no.get(),
        }),
        _ => Err(Unlike::Node(node)),
    }
}
