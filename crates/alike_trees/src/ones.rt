//! What forms of one part have in its place.

ghost use Rattle.std.specs.Prelude.{Bool, ℕ};
ghost use Rattle.program_maps.specs.Pairs.{Pair};
ghost use Rattle.class_world.specs.declared.world.JavaType.{JavaType};
ghost use Rattle.java_core.specs.Plain as e;
ghost use Rattle.java_core.specs.View.{plain, written};
ghost use Rattle.alike_trees.specs.Compared.{IsReady, pair};
ghost use Rattle.alike_trees.specs.Inside.{GivesOne};

use crate::sides::{Sides, Unlike, check};
use crate::types::{is_cast_alike, is_fit};
use class_world::JavaType;
use java_core::{CoreExpr, CoreForm, CoreType};
use java_tree::tree::{Node, UnOp};
use program_maps::{goes, is_moved_by_erasure};

pub(crate) fn in_paren(node: Node, new: &CoreExpr) -> Result<&CoreExpr, Unlike>
    ensures { (p : Pair) (t : JavaType) → GivesOne p t e.Paren new.now result (λ y. plain y.now) }
{
    match &new.form {
        CoreForm::Paren(x) => Ok(x.get()),
        _ => Err(Unlike::Node(node)),
    }
}

pub(crate) fn in_widening<'a>(
    node: Node,
    ty: &JavaType,
    new: &'a CoreExpr,
) -> Result<&'a CoreExpr, Unlike>
    ensures { (p : Pair) → GivesOne p ty.now e.Widen new.now result (λ y. plain y.now) }
{
    match &new.form {
        CoreForm::Widen(x) => {
            check(node, is_fit(ty, &new.ty))?;
            Ok(x.get())
        }
        _ => Err(Unlike::Node(node)),
    }
}

pub(crate) fn in_implied_cast<'a>(
    sides: &Sides<'_>,
    node: Node,
    ty: &JavaType,
    new: &'a CoreExpr,
) -> Result<&'a CoreExpr, Unlike>
    requires { IsReady sides.now }
    ensures { GivesOne (pair sides.now) ty.now e.Implied new.now result (λ y. plain y.now) }
{
    match &new.form {
        CoreForm::Implied(x) => {
            check(node, is_cast_alike(sides, ty, &new.ty))?;
            Ok(x.get())
        }
        _ => Err(Unlike::Node(node)),
    }
}

pub(crate) fn in_field<'a>(
    sides: &Sides<'_>,
    node: Node,
    old: u32,
    new: &'a CoreExpr,
) -> Result<&'a CoreExpr, Unlike>
    ensures { (t : JavaType) (simple : Bool) → GivesOne (pair sides.now) t (λ x. e.Field x simple old) new.now result (λ y. plain y.now) }
{
    match &new.form {
        CoreForm::Field { of, field, .. } => {
            check(node, goes(&sides.map.fields, old, *field))?;
            Ok(of.get())
        }
        _ => Err(Unlike::Node(node)),
    }
}

pub(crate) fn in_length(node: Node, new: &CoreExpr) -> Result<&CoreExpr, Unlike>
    ensures { (p : Pair) (t : JavaType) → GivesOne p t e.Length new.now result (λ y. plain y.now) }
{
    match &new.form {
        CoreForm::Length(x) => Ok(x.get()),
        _ => Err(Unlike::Node(node)),
    }
}

pub(crate) fn in_new_filled(node: Node, new: &CoreExpr) -> Result<&CoreExpr, Unlike>
    ensures { (p : Pair) (t : JavaType) (w : e.Written) → GivesOne p t (e.NewFilled w) new.now result (λ y. plain y.now) }
{
    match &new.form {
        CoreForm::NewFilled { items, .. } => Ok(items.get()),
        _ => Err(Unlike::Node(node)),
    }
}

pub(crate) fn in_unary(node: Node, old: UnOp, new: &CoreExpr) -> Result<&CoreExpr, Unlike>
    ensures { (p : Pair) (t : JavaType) → GivesOne p t (e.Unary old) new.now result (λ y. plain y.now) }
{
    match &new.form {
        CoreForm::Unary { op, of } => {
            check(node, *op == old)?;
            Ok(of.get())
        }
        _ => Err(Unlike::Node(node)),
    }
}

pub(crate) fn in_step(
    node: Node,
    old_up: bool,
    old_before: bool,
    new: &CoreExpr,
) -> Result<&CoreExpr, Unlike>
    ensures { (p : Pair) (t : JavaType) → GivesOne p t (e.Step old_up old_before) new.now result (λ y. plain y.now) }
{
    match &new.form {
        CoreForm::Step { up, before, of } => {
            check(node, *up == old_up && *before == old_before)?;
            Ok(of.get())
        }
        _ => Err(Unlike::Node(node)),
    }
}

/// A written cast: only the erasure of its type counts.
pub(crate) fn in_cast<'a>(
    sides: &Sides<'_>,
    node: Node,
    old: &CoreType,
    new: &'a CoreExpr,
) -> Result<&'a CoreExpr, Unlike>
    ensures { (t : JavaType) (close : ℕ) → GivesOne (pair sides.now) t (e.Cast (written old.now) close) new.now result (λ y. plain y.now) }
{
    match &new.form {
        CoreForm::Cast { written, of, .. } => {
            check(
                node,
                is_moved_by_erasure(&sides.map.types, &old.ty, &written.ty),
            )?;
            Ok(of.get())
        }
        _ => Err(Unlike::Node(node)),
    }
}

pub(crate) fn in_instance_of<'a>(
    sides: &Sides<'_>,
    node: Node,
    old: &CoreType,
    new: &'a CoreExpr,
) -> Result<&'a CoreExpr, Unlike>
    ensures { (t : JavaType) → GivesOne (pair sides.now) t (λ x. e.InstanceOf x (written old.now)) new.now result (λ y. plain y.now) }
{
    match &new.form {
        CoreForm::InstanceOf { of, written } => {
            check(
                node,
                is_moved_by_erasure(&sides.map.types, &old.ty, &written.ty),
            )?;
            Ok(of.get())
        }
        _ => Err(Unlike::Node(node)),
    }
}
