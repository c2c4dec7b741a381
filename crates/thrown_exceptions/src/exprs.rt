//! What expressions can throw (JLS 11.2.1).

ghost use Rattle.std.specs.Prelude.{◌≡◌, Bool, OnOk, map};
ghost use Rattle.std.specs.Option.{option_map};
ghost use Rattle.class_world.specs.Sound.{IsSound};
ghost use Rattle.class_world.specs.declared.world.JavaType.{JavaType};
ghost use Rattle.java_core.specs.View.{maybe, plain, plains, var_plain};
ghost use Rattle.thrown_exceptions.specs.Thrown as spec;
ghost use Rattle.thrown_exceptions.specs.Thrown.{IsOrder};

use crate::classes::called;
use crate::state::State;
use class_world::World;
use java_core::{CoreExpr, CoreForm, CoreVar};
use java_tree::{Boxed, NoMemory};
use std::alloc::Global;

/// An expression is evaluated: its parts in order, then its call.
#[cycle(value)]
pub(crate) fn value(
    alloc: Global,
    w: &World,
    e: &CoreExpr,
    state: &mut State,
) -> Result<(), NoMemory>
    requires { IsSound w.now }
    ensures { spec.Makes w.now result state.new (λ below. spec.value w.now below (plain e.now) state.old) }
{
    match &e.form {
        CoreForm::Paren(of) => value(alloc, w, of.get(), state),
        CoreForm::Widen(of) => value(alloc, w, of.get(), state),
        CoreForm::Implied(of) => value(alloc, w, of.get(), state),
        CoreForm::Field { of, .. } => value(alloc, w, of.get(), state),
        CoreForm::Length(of) => value(alloc, w, of.get(), state),
        CoreForm::NewFilled { items: of, .. } => value(alloc, w, of.get(), state),
        CoreForm::Unary { of, .. } => value(alloc, w, of.get(), state),
        CoreForm::Step { of, .. } => value(alloc, w, of.get(), state),
        CoreForm::Cast { of, .. } => value(alloc, w, of.get(), state),
        CoreForm::InstanceOf { of, .. } => value(alloc, w, of.get(), state),
        CoreForm::StaticField { of, .. } => maybe_value(alloc, w, of, state),
        CoreForm::Index { of, at } => {
            value(alloc, w, of.get(), state)?;
            value(alloc, w, at.get(), state)
        }
        CoreForm::Binary { left, right, .. } => {
            value(alloc, w, left.get(), state)?;
            value(alloc, w, right.get(), state)
        }
        CoreForm::Logic { left, right, .. } => {
            value(alloc, w, left.get(), state)?;
            value(alloc, w, right.get(), state)
        }
        CoreForm::Assign { to, from } => {
            value(alloc, w, to.get(), state)?;
            value(alloc, w, from.get(), state)
        }
        CoreForm::Compound { to, from, .. } => {
            value(alloc, w, to.get(), state)?;
            value(alloc, w, from.get(), state)
        }
        CoreForm::Cond { test, yes, no } => {
            value(alloc, w, test.get(), state)?;
            value(alloc, w, yes.get(), state)?;
            value(alloc, w, no.get(), state)
        }
        CoreForm::Call {
            of,
            method,
            args,
            ..
        } => {
            value(alloc, w, of.get(), state)?;
            values(alloc, w, args.as_slice(), state)?;
            called(alloc, w, e.node, *method, state)
        }
        CoreForm::SuperCall { method, args } => {
            values(alloc, w, args.as_slice(), state)?;
            called(alloc, w, e.node, *method, state)
        }
        CoreForm::StaticCall {
            of,
            method,
            args,
            ..
        } => {
            maybe_value(alloc, w, of, state)?;
            values(alloc, w, args.as_slice(), state)?;
            called(alloc, w, e.node, *method, state)
        }
        CoreForm::New {
            constructor,
            args,
            ..
        } => {
            values(alloc, w, args.as_slice(), state)?;
            called(alloc, w, e.node, *constructor, state)
        }
        CoreForm::NewArray { sizes, .. } => values(alloc, w, sizes.as_slice(), state),
        CoreForm::Filled(items) => values(alloc, w, items.as_slice(), state),
        CoreForm::Int(_)
        | CoreForm::Long(_)
        | CoreForm::Char(_)
        | CoreForm::Text(_)
        | CoreForm::Truth(_)
        | CoreForm::Null
        | CoreForm::This
        | CoreForm::Local(_)
        | CoreForm::SuperField(_) => Ok(()),
    }
}

#[cycle(value)]
fn maybe_value(
    alloc: Global,
    w: &World,
    of: &Option<Boxed<CoreExpr>>,
    state: &mut State,
) -> Result<(), NoMemory>
    requires { IsSound w.now }
    ensures { spec.Makes w.now result state.new (λ below. spec.maybe_value w.now below (maybe (option_map plain of.now)) state.old) }
{
    match of {
        None => Ok(()),
        Some(of) => value(alloc, w, of.get(), state),
    }
}

#[cycle(value)]
pub(crate) fn values(
    alloc: Global,
    w: &World,
    xs: &[CoreExpr],
    state: &mut State,
) -> Result<(), NoMemory>
    requires { IsSound w.now }
    ensures { spec.Makes w.now result state.new (λ below. spec.values w.now below (plains xs.now) state.old) }
{
    for x in xs {
        value(alloc, w, x, state)?;
    }
    Ok(())
}

/// The same of an expression that may be missing.
pub(crate) fn optional(
    alloc: Global,
    w: &World,
    x: &Option<CoreExpr>,
    state: &mut State,
) -> Result<(), NoMemory>
    requires { IsSound w.now }
    ensures { spec.Makes w.now result state.new (λ below. spec.optional w.now below (option_map plain x.now) state.old) }
{
    match x {
        None => Ok(()),
        Some(x) => value(alloc, w, x, state),
    }
}

/// The values of declared locals.
pub(crate) fn locals(
    alloc: Global,
    w: &World,
    vars: &[CoreVar],
    state: &mut State,
) -> Result<(), NoMemory>
    requires { IsSound w.now }
    ensures { spec.Makes w.now result state.new (λ below. spec.vars w.now below (map var_plain vars.now) state.old) }
{
    for var in vars {
        optional(alloc, w, &var.init, state)?;
    }
    Ok(())
}
