//! Expressions without parts.

ghost use Rattle.program_maps.specs.Pairs.{Pair};
ghost use Rattle.java_core.specs.Plain as e;
ghost use Rattle.alike_trees.specs.Compared.{pair};
ghost use Rattle.alike_trees.specs.Inside.{TellsLeaf};

use crate::sides::{Sides, Unlike, check};
use java_core::{CoreExpr, CoreForm};
use java_tree::Items;
use java_tree::tree::Node;
use program_maps::goes;

pub(crate) fn int_alike(node: Node, old: &i32, new: &CoreExpr) -> Result<(), Unlike>
    ensures { (p : Pair) → TellsLeaf p (e.Int old.now) new.now result }
{
    match &new.form {
        CoreForm::Int(x) => check(node, *x == *old),
        _ => Err(Unlike::Node(node)),
    }
}

pub(crate) fn long_alike(node: Node, old: &i64, new: &CoreExpr) -> Result<(), Unlike>
    ensures { (p : Pair) → TellsLeaf p (e.Long old.now) new.now result }
{
    match &new.form {
        CoreForm::Long(x) => check(node, *x == *old),
        _ => Err(Unlike::Node(node)),
    }
}

pub(crate) fn char_alike(node: Node, old: u16, new: &CoreExpr) -> Result<(), Unlike>
    ensures { (p : Pair) → TellsLeaf p (e.Char old) new.now result }
{
    match &new.form {
        CoreForm::Char(x) => check(node, *x == old),
        _ => Err(Unlike::Node(node)),
    }
}

pub(crate) fn text_alike(node: Node, old: &Items<u16>, new: &CoreExpr) -> Result<(), Unlike>
    ensures { (p : Pair) → TellsLeaf p (e.Text old.now) new.now result }
{
    match &new.form {
        CoreForm::Text(units) => check(node, units.as_slice() == old.as_slice()),
        _ => Err(Unlike::Node(node)),
    }
}

pub(crate) fn truth_alike(node: Node, old: bool, new: &CoreExpr) -> Result<(), Unlike>
    ensures { (p : Pair) → TellsLeaf p (e.Truth old) new.now result }
{
    match &new.form {
        CoreForm::Truth(x) => check(node, *x == old),
        _ => Err(Unlike::Node(node)),
    }
}

pub(crate) fn null_alike(node: Node, new: &CoreExpr) -> Result<(), Unlike>
    ensures { (p : Pair) → TellsLeaf p e.Null new.now result }
{
    match &new.form {
        CoreForm::Null => Ok(()),
        _ => Err(Unlike::Node(node)),
    }
}

pub(crate) fn this_alike(node: Node, new: &CoreExpr) -> Result<(), Unlike>
    ensures { (p : Pair) → TellsLeaf p e.This new.now result }
{
    match &new.form {
        CoreForm::This => Ok(()),
        _ => Err(Unlike::Node(node)),
    }
}

pub(crate) fn local_alike(node: Node, old: u32, new: &CoreExpr) -> Result<(), Unlike>
    ensures { (p : Pair) → TellsLeaf p (e.Local old) new.now result }
{
    match &new.form {
        CoreForm::Local(slot) => check(node, *slot == old),
        _ => Err(Unlike::Node(node)),
    }
}

pub(crate) fn super_field_alike(
    sides: &Sides<'_>,
    node: Node,
    old: u32,
    new: &CoreExpr,
) -> Result<(), Unlike>
    ensures { TellsLeaf (pair sides.now) (e.SuperField old) new.now result }
{
    match &new.form {
        CoreForm::SuperField(field) => check(node, goes(&sides.map.fields, old, *field)),
        _ => Err(Unlike::Node(node)),
    }
}
