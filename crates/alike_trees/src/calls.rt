//! What calls, static uses and new objects and arrays have in the places of their parts.

ghost use Rattle.std.specs.Prelude.{Bool};
ghost use Rattle.std.specs.Option.{option_map};
ghost use Rattle.class_world.specs.declared.world.JavaType.{JavaType};
ghost use Rattle.program_maps.specs.Pairs.{Pair};
ghost use Rattle.java_core.specs.declared.expr.Before.{Before};
ghost use Rattle.java_core.specs.Plain as e;
ghost use Rattle.java_core.specs.View.{maybe, plain, plains, written};
ghost use Rattle.alike_trees.specs.Compared.{pair};
ghost use Rattle.alike_trees.specs.Inside.{GivesCall, GivesList, GivesMaybe, GivesStaticCall};

use crate::sides::{Sides, Unlike, check};
use crate::types::is_class_moved;
use class_world::JavaType;
use java_core::{CoreExpr, CoreForm, CoreType};
use java_tree::tree::Node;
use java_tree::{Boxed, Items};
use program_maps::{goes, is_moved};

/// A call of an instance method.
#[derive(Clone, Copy)]
pub(crate) struct Call<'a> {
    pub of: &'a CoreExpr,
    pub method: u32,
    pub args: &'a Items<CoreExpr>,
}

#[derive(Clone, Copy)]
pub(crate) struct StaticCall<'a> {
    pub of: &'a Option<Boxed<CoreExpr>>,
    pub args: &'a Items<CoreExpr>,
}

/// Leaves the method to be compared behind the rest.
pub(crate) fn in_call(node: Node, old: u32, new: &CoreExpr) -> Result<Call<'_>, Unlike>
    ensures { (p : Pair) (t : JavaType) (simple : Bool) → GivesCall p t simple old new.now result }
{
    match &new.form {
        CoreForm::Call {
            of,
            method,
            args,
            ..
        } => Ok(Call {
            of: of.get(),
            method: *method,
            args,
        }),
        _ => Err(Unlike::Node(node)),
    }
}

pub(crate) fn in_super_call<'a>(
    sides: &Sides<'_>,
    node: Node,
    old: u32,
    new: &'a CoreExpr,
) -> Result<&'a Items<CoreExpr>, Unlike>
    ensures { (t : JavaType) → GivesList (pair sides.now) t (e.SuperCall old) new.now result (λ ys. plains ys.now) }
{
    match &new.form {
        CoreForm::SuperCall { method, args } => {
            check(node, goes(&sides.map.methods, old, *method))?;
            Ok(args)
        }
        _ => Err(Unlike::Node(node)),
    }
}

/// What stands before the dot of a static use is evaluated and dropped (JLS 15.11.1, 15.12.4.1).
pub(crate) fn in_static_field<'a>(
    sides: &Sides<'_>,
    node: Node,
    old: u32,
    new: &'a CoreExpr,
) -> Result<&'a Option<Boxed<CoreExpr>>, Unlike>
    ensures { (t : JavaType) (before : Before) → GivesMaybe (pair sides.now) t (λ x. e.StaticField before x old) new.now result (λ y. maybe (option_map plain y.now)) }
{
    match &new.form {
        CoreForm::StaticField { of, field, .. } => {
            check(node, goes(&sides.map.fields, old, *field))?;
            Ok(of)
        }
        _ => Err(Unlike::Node(node)),
    }
}

pub(crate) fn in_static_call<'a>(
    sides: &Sides<'_>,
    node: Node,
    old: u32,
    new: &'a CoreExpr,
) -> Result<StaticCall<'a>, Unlike>
    ensures { (t : JavaType) (before : Before) → GivesStaticCall (pair sides.now) t before old new.now result }
{
    match &new.form {
        CoreForm::StaticCall {
            of,
            method,
            args,
            ..
        } => {
            check(node, goes(&sides.map.methods, old, *method))?;
            Ok(StaticCall { of, args })
        }
        _ => Err(Unlike::Node(node)),
    }
}

pub(crate) fn in_new<'a>(
    sides: &Sides<'_>,
    node: Node,
    old_type: &CoreType,
    old: u32,
    new: &'a CoreExpr,
) -> Result<&'a Items<CoreExpr>, Unlike>
    ensures { (t : JavaType) → GivesList (pair sides.now) t (e.New (written old_type.now) old) new.now result (λ ys. plains ys.now) }
{
    match &new.form {
        CoreForm::New {
            written,
            constructor,
            args,
        } => {
            check(
                node,
                is_class_moved(&sides.map.types, &old_type.ty, &written.ty),
            )?;
            check(node, goes(&sides.map.methods, old, *constructor))?;
            Ok(args)
        }
        _ => Err(Unlike::Node(node)),
    }
}

pub(crate) fn in_new_array<'a>(
    sides: &Sides<'_>,
    node: Node,
    ty: &JavaType,
    new: &'a CoreExpr,
) -> Result<&'a Items<CoreExpr>, Unlike>
    ensures { (w : e.Written) → GivesList (pair sides.now) ty.now (e.NewArray w) new.now result (λ ys. plains ys.now) }
{
    match &new.form {
        CoreForm::NewArray { sizes, .. } => {
            check(node, is_moved(&sides.map.types, ty, &new.ty))?;
            Ok(sizes)
        }
        _ => Err(Unlike::Node(node)),
    }
}

pub(crate) fn in_filled<'a>(
    sides: &Sides<'_>,
    node: Node,
    ty: &JavaType,
    new: &'a CoreExpr,
) -> Result<&'a Items<CoreExpr>, Unlike>
    ensures { GivesList (pair sides.now) ty.now e.Filled new.now result (λ ys. plains ys.now) }
{
    match &new.form {
        CoreForm::Filled(items) => {
            check(node, is_moved(&sides.map.types, ty, &new.ty))?;
            Ok(items)
        }
        _ => Err(Unlike::Node(node)),
    }
}
