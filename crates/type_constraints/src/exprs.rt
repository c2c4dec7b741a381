//! The constraints on expressions.

ghost use Rattle.std.specs.Option.{option_map};
ghost use Rattle.java_core.specs.View.{maybe, plain, plains, var_plain};
ghost use Rattle.std.specs.Prelude.{map};
ghost use Rattle.type_kinds.specs.Kinds.{ty_of};
ghost use Rattle.type_facts.specs.Facts.{IsReady};
ghost use Rattle.type_constraints.specs.Asked.{Gives};
ghost use Rattle.type_constraints.specs.Changed as flows;
ghost use Rattle.type_constraints.specs.Constraints as spec;

use crate::arguments::{arguments, static_arguments, super_arguments};
use crate::changed::{changed, is_local};
use crate::flows::{appended, arms, flow, given, init, items, joined};
use crate::place::Place;
use crate::receivers::{field_use, maybe_field_use, maybe_method_use, method_use};
use crate::unmet::Unmet;
use class_world::JavaType;
use java_core::{Before, CoreExpr, CoreForm, CoreVar};
use java_tree::tree::Node;
use java_tree::{Boxed, NoMemory};
use std::alloc::Global;

/// A value goes to what another expression names.
#[tactic(auto, using(java_core::proofs::Views::plain_at))]
fn assigned(
    alloc: Global,
    at: &Place<'_>,
    to: &CoreExpr,
    from: &CoreExpr,
    first: Option<Unmet>,
) -> Result<Option<Unmet>, NoMemory>
    requires { IsReady at.now.q }
    ensures { Gives at.now result (λ a. flows.flow a (flows.changed a (plain to.now)) (ty_of (plain to.now)) (plain from.now) first) }
{
    let to_changes = changed(alloc, at, to)?;
    flow(alloc, at, to_changes, &to.ty, from, first)
}

/// A method of a value is called with arguments.
#[tactic(auto, using(java_core::proofs::Views::plain_at))]
fn called(
    alloc: Global,
    at: &Place<'_>,
    node: Node,
    of: &CoreExpr,
    simple: bool,
    method: u32,
    args: &[CoreExpr],
    first: Option<Unmet>,
) -> Result<Option<Unmet>, NoMemory>
    requires { IsReady at.now.q }
    ensures { Gives at.now result (λ a. spec.called a node (plain of.now) simple method (plains args.now) first) }
{
    let first = method_use(alloc, at, node, of, method, first)?;
    arguments(alloc, at, simple, &of.ty, method, args, first)
}

fn called_static(
    alloc: Global,
    at: &Place<'_>,
    node: Node,
    before: Before,
    of: &Option<Boxed<CoreExpr>>,
    method: u32,
    args: &[CoreExpr],
    first: Option<Unmet>,
) -> Result<Option<Unmet>, NoMemory>
    requires { IsReady at.now.q }
    ensures { Gives at.now result (λ a. spec.called_static a node before (maybe (option_map plain of.now)) method (plains args.now) first) }
{
    let first = maybe_method_use(alloc, at, node, of, method, first)?;
    static_arguments(alloc, at, before, of, method, args, first)
}

/// The constraints on an expression: its parts in the order of the file, and then itself.
#[cycle(value)]
pub(crate) fn value(
    alloc: Global,
    at: &Place<'_>,
    e: &CoreExpr,
    first: Option<Unmet>,
) -> Result<Option<Unmet>, NoMemory>
    requires { IsReady at.now.q }
    ensures { Gives at.now result (λ a. spec.value a (plain e.now) first) }
{
    match &e.form {
        CoreForm::Paren(of) => value(alloc, at, of.get(), first),
        CoreForm::Widen(of) => value(alloc, at, of.get(), first),
        CoreForm::Implied(of) => value(alloc, at, of.get(), first),
        CoreForm::Length(of) => value(alloc, at, of.get(), first),
        CoreForm::NewFilled { items: of, .. } => value(alloc, at, of.get(), first),
        CoreForm::Unary { of, .. } => value(alloc, at, of.get(), first),
        CoreForm::Step { of, .. } => value(alloc, at, of.get(), first),
        CoreForm::Cast { of, .. } => value(alloc, at, of.get(), first),
        CoreForm::InstanceOf { of, .. } => value(alloc, at, of.get(), first),
        CoreForm::Field { of, field, .. } => {
            let first = value(alloc, at, of.get(), first)?;
            field_use(alloc, at, e.node, of.get(), *field, first)
        }
        CoreForm::StaticField { of, field, .. } => {
            let first = maybe_value(alloc, at, of, first)?;
            maybe_field_use(alloc, at, e.node, of, *field, first)
        }
        CoreForm::Index { of, at: index } => {
            let first = value(alloc, at, of.get(), first)?;
            value(alloc, at, index.get(), first)
        }
        CoreForm::Logic { left, right, .. } => {
            let first = value(alloc, at, left.get(), first)?;
            value(alloc, at, right.get(), first)
        }
        CoreForm::Binary {
            kind,
            left,
            right,
            ..
        } => {
            let first = value(alloc, at, left.get(), first)?;
            let first = value(alloc, at, right.get(), first)?;
            joined(alloc, at, *kind, left.get(), right.get(), first)
        }
        CoreForm::Compound { kind, to, from, .. } => {
            let first = value(alloc, at, to.get(), first)?;
            let first = value(alloc, at, from.get(), first)?;
            appended(alloc, at, *kind, to.get(), first)
        }
        CoreForm::Assign { to, from } => {
            let first = value(alloc, at, to.get(), first)?;
            let first = value(alloc, at, from.get(), first)?;
            assigned(alloc, at, to.get(), from.get(), first)
        }
        CoreForm::Cond { test, yes, no } => {
            let first = value(alloc, at, test.get(), first)?;
            let first = value(alloc, at, yes.get(), first)?;
            let first = value(alloc, at, no.get(), first)?;
            arms(alloc, at, e.node, yes.get(), no.get(), first)
        }
        CoreForm::Call {
            of,
            simple,
            method,
            args,
        } => {
            let args = args.as_slice();
            let first = value(alloc, at, of.get(), first)?;
            let first = values(alloc, at, args, first)?;
            called(alloc, at, e.node, of.get(), *simple, *method, args, first)
        }
        CoreForm::SuperCall { method, args } => {
            let args = args.as_slice();
            let first = values(alloc, at, args, first)?;
            super_arguments(alloc, at, *method, args, first)
        }
        CoreForm::StaticCall {
            before,
            of,
            method,
            args,
        } => {
            let args = args.as_slice();
            let first = maybe_value(alloc, at, of, first)?;
            let first = values(alloc, at, args, first)?;
            called_static(alloc, at, e.node, *before, of, *method, args, first)
        }
        CoreForm::New {
            constructor,
            args,
            ..
        } => {
            let args = args.as_slice();
            let first = values(alloc, at, args, first)?;
            arguments(alloc, at, false, &e.ty, *constructor, args, first)
        }
        CoreForm::NewArray { sizes, .. } => values(alloc, at, sizes.as_slice(), first),
        CoreForm::Filled(xs) => {
            let xs = xs.as_slice();
            let first = values(alloc, at, xs, first)?;
            items(alloc, at, &e.ty, xs, first)
        }
        CoreForm::Int(_)
        | CoreForm::Long(_)
        | CoreForm::Char(_)
        | CoreForm::Text(_)
        | CoreForm::Truth(_)
        | CoreForm::Null
        | CoreForm::This
        | CoreForm::Local(_)
        | CoreForm::SuperField(_) => Ok(first),
    }
}

#[cycle(value)]
pub(crate) fn values(
    alloc: Global,
    at: &Place<'_>,
    xs: &[CoreExpr],
    mut first: Option<Unmet>,
) -> Result<Option<Unmet>, NoMemory>
    requires { IsReady at.now.q }
    ensures { Gives at.now result (λ a. spec.values a (plains xs.now) first) }
{
    for x in xs {
        first = value(alloc, at, x, first)?;
    }
    Ok(first)
}

#[cycle(value)]
fn maybe_value(
    alloc: Global,
    at: &Place<'_>,
    x: &Option<Boxed<CoreExpr>>,
    first: Option<Unmet>,
) -> Result<Option<Unmet>, NoMemory>
    requires { IsReady at.now.q }
    ensures { Gives at.now result (λ a. spec.maybe_value a (maybe (option_map plain x.now)) first) }
{
    match x {
        None => Ok(first),
        Some(x) => value(alloc, at, x.get(), first),
    }
}

/// An expression that may be missing.
pub(crate) fn optional(
    alloc: Global,
    at: &Place<'_>,
    x: &Option<CoreExpr>,
    first: Option<Unmet>,
) -> Result<Option<Unmet>, NoMemory>
    requires { IsReady at.now.q }
    ensures { Gives at.now result (λ a. spec.optional a (option_map plain x.now) first) }
{
    match x {
        None => Ok(first),
        Some(x) => value(alloc, at, x, first),
    }
}

/// The value of a local.
fn var_init(
    alloc: Global,
    at: &Place<'_>,
    changes: bool,
    t: &JavaType,
    x: &Option<CoreExpr>,
    first: Option<Unmet>,
) -> Result<Option<Unmet>, NoMemory>
    requires { IsReady at.now.q }
    ensures { Gives at.now result (λ a. spec.var_init a changes t.now (option_map plain x.now) first) }
{
    match x {
        None => Ok(first),
        Some(x) => {
            let first = value(alloc, at, x, first)?;
            init(alloc, at, changes, t, x, first)
        }
    }
}

/// The values of declared locals.
pub(crate) fn locals(
    alloc: Global,
    at: &Place<'_>,
    vars: &[CoreVar],
    mut first: Option<Unmet>,
) -> Result<Option<Unmet>, NoMemory>
    requires { IsReady at.now.q }
    ensures { Gives at.now result (λ a. spec.vars a (map var_plain vars.now) first) }
{
    for var in vars {
        let changes = is_local(at, var.slot, var.node);
        first = var_init(alloc, at, changes, &var.ty, &var.init, first)?;
    }
    Ok(first)
}

/// A value that a method gives, where it gives one.
pub(crate) fn returned(
    alloc: Global,
    at: &Place<'_>,
    x: &Option<CoreExpr>,
    first: Option<Unmet>,
) -> Result<Option<Unmet>, NoMemory>
    requires { IsReady at.now.q }
    ensures { Gives at.now result (λ a. spec.returned a (option_map plain x.now) first) }
{
    match x {
        None => Ok(first),
        Some(x) => {
            let first = value(alloc, at, x, first)?;
            given(alloc, at, x, first)
        }
    }
}
