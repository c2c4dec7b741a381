//! The constraints on expressions.

ghost use Rattle.std.specs.Prelude.{false};
ghost use Rattle.std.specs.Option.{option_map};
ghost use Rattle.java_core.specs.View.{maybe, plain, plains, written as written_plain};
ghost use Rattle.marked_types.specs.Marked as marks;
ghost use Rattle.type_facts.specs.Facts.{IsReady};
ghost use Rattle.extract_constraints.specs.Arguments as calls;
ghost use Rattle.extract_constraints.specs.Flows.{class_of};
ghost use Rattle.extract_constraints.specs.Links as spec;
ghost use Rattle.extract_constraints.specs.Told.{Gives};

use crate::arguments::{call, static_call, super_call, value_call};
use crate::flows::{arms, cast, initialise, value_to};
use crate::place::{Place, value_type};
use crate::receivers::{field_use, maybe_field_use};
use class_world::JavaType;
use java_core::{CoreExpr, CoreForm, CoreType};
use java_tree::{Boxed, Items, NoMemory};
use kept_places::Link;
use marked_types::marking::{marked_inside, mentions};
use std::alloc::Global;

/// A value goes to what another expression names.
fn assigned(
    alloc: Global,
    at: &Place<'_>,
    locals: &[JavaType],
    to: &CoreExpr,
    from: &CoreExpr,
    links: Items<Link>,
) -> Result<Items<Link>, NoMemory>
    requires { IsReady at.now.reader.q }
    ensures { Gives at.now result (λ k a. spec.assigned k a locals.now (plain to.now) (plain from.now) links) }
{
    if mentions(at.reader.class, &from.ty) {
        let t = value_type(alloc, at, locals, to)?;
        return value_to(alloc, at, locals, from, &t, links);
    }
    Ok(links)
}

/// A value is cast to a written type.
fn converted(
    alloc: Global,
    at: &Place<'_>,
    locals: &[JavaType],
    node: u32,
    written: &CoreType,
    x: &CoreExpr,
    links: Items<Link>,
) -> Result<Items<Link>, NoMemory>
    requires { IsReady at.now.reader.q }
    ensures { Gives at.now result (λ k a. spec.converted k a locals.now node (written_plain written.now) (plain x.now) links) }
{
    if mentions(at.reader.class, &x.ty) {
        let s = value_type(alloc, at, locals, x)?;
        let t = marked_inside(alloc, at.reader.class, written)?;
        return cast(alloc, at, &s, &t, node, x.node.id, links);
    }
    Ok(links)
}

fn created(
    alloc: Global,
    at: &Place<'_>,
    locals: &[JavaType],
    e: &CoreExpr,
    written: &CoreType,
    constructor: u32,
    args: &[CoreExpr],
    links: Items<Link>,
) -> Result<Items<Link>, NoMemory>
    requires { IsReady at.now.reader.q }
    ensures { Gives at.now result (λ k a. calls.call k a locals.now e.now.node.id (marks.marked_inside (class_of a) (written_plain written.now)) e.now.ty false constructor (plains args.now) links) }
{
    let marked = marked_inside(alloc, at.reader.class, written)?;
    call(
        alloc,
        at,
        locals,
        e.node.id,
        &marked,
        &e.ty,
        false,
        constructor,
        args,
        links,
    )
}

/// The constraints on an expression: its parts in the order of the file, and then itself.
#[cycle(value)]
pub(crate) fn value(
    alloc: Global,
    at: &Place<'_>,
    locals: &[JavaType],
    e: &CoreExpr,
    links: Items<Link>,
) -> Result<Items<Link>, NoMemory>
    requires { IsReady at.now.reader.q }
    ensures { Gives at.now result (λ k a. spec.value k a locals.now (plain e.now) links) }
{
    match &e.form {
        CoreForm::Paren(of) => value(alloc, at, locals, of.get(), links),
        CoreForm::Widen(of) => value(alloc, at, locals, of.get(), links),
        CoreForm::Implied(of) => value(alloc, at, locals, of.get(), links),
        CoreForm::Length(of) => value(alloc, at, locals, of.get(), links),
        CoreForm::Unary { of, .. } => value(alloc, at, locals, of.get(), links),
        CoreForm::Step { of, .. } => value(alloc, at, locals, of.get(), links),
        CoreForm::InstanceOf { of, .. } => value(alloc, at, locals, of.get(), links),
        CoreForm::NewFilled { items, .. } => {
            let links = value(alloc, at, locals, items.get(), links)?;
            initialise(alloc, at, locals, items.get(), Some(&e.ty), links)
        }
        CoreForm::Filled(xs) => values(alloc, at, locals, xs.as_slice(), links),
        CoreForm::Cast { written, of, .. } => {
            let links = value(alloc, at, locals, of.get(), links)?;
            converted(alloc, at, locals, e.node.id, written, of.get(), links)
        }
        CoreForm::Field { of, .. } => {
            let links = value(alloc, at, locals, of.get(), links)?;
            field_use(alloc, at, locals, of.get(), e.node.id, links)
        }
        CoreForm::StaticField { of, .. } => {
            let links = maybe_value(alloc, at, locals, of, links)?;
            maybe_field_use(alloc, at, locals, of, e.node.id, links)
        }
        CoreForm::Index { of, at: index } => {
            let links = value(alloc, at, locals, of.get(), links)?;
            value(alloc, at, locals, index.get(), links)
        }
        CoreForm::Logic { left, right, .. } => {
            let links = value(alloc, at, locals, left.get(), links)?;
            value(alloc, at, locals, right.get(), links)
        }
        CoreForm::Binary { left, right, .. } => {
            let links = value(alloc, at, locals, left.get(), links)?;
            value(alloc, at, locals, right.get(), links)
        }
        CoreForm::Compound { to, from, .. } => {
            let links = value(alloc, at, locals, to.get(), links)?;
            value(alloc, at, locals, from.get(), links)
        }
        CoreForm::Assign { to, from } => {
            let links = value(alloc, at, locals, to.get(), links)?;
            let links = value(alloc, at, locals, from.get(), links)?;
            assigned(alloc, at, locals, to.get(), from.get(), links)
        }
        CoreForm::Cond { test, yes, no } => {
            let links = value(alloc, at, locals, test.get(), links)?;
            let links = value(alloc, at, locals, yes.get(), links)?;
            let links = value(alloc, at, locals, no.get(), links)?;
            arms(alloc, at, locals, e, yes.get(), no.get(), links)
        }
        CoreForm::Call {
            of,
            simple,
            method,
            args,
        } => {
            let args = args.as_slice();
            let links = value(alloc, at, locals, of.get(), links)?;
            let links = values(alloc, at, locals, args, links)?;
            value_call(
                alloc,
                at,
                locals,
                e.node.id,
                of.get(),
                *simple,
                *method,
                args,
                links,
            )
        }
        CoreForm::SuperCall { method, args } => {
            let args = args.as_slice();
            let links = values(alloc, at, locals, args, links)?;
            super_call(alloc, at, locals, e.node.id, *method, args, links)
        }
        CoreForm::StaticCall {
            before,
            of,
            method,
            args,
        } => {
            let args = args.as_slice();
            let links = maybe_value(alloc, at, locals, of, links)?;
            let links = values(alloc, at, locals, args, links)?;
            static_call(
                alloc, at, locals, e.node.id, *before, of, *method, args, links,
            )
        }
        CoreForm::New {
            written,
            constructor,
            args,
        } => {
            let args = args.as_slice();
            let links = values(alloc, at, locals, args, links)?;
            created(alloc, at, locals, e, written, *constructor, args, links)
        }
        CoreForm::NewArray { sizes, .. } => values(alloc, at, locals, sizes.as_slice(), links),
        CoreForm::Int(_)
        | CoreForm::Long(_)
        | CoreForm::Char(_)
        | CoreForm::Text(_)
        | CoreForm::Truth(_)
        | CoreForm::Null
        | CoreForm::This
        | CoreForm::Local(_)
        | CoreForm::SuperField(_) => Ok(links),
    }
}

#[cycle(value)]
pub(crate) fn values(
    alloc: Global,
    at: &Place<'_>,
    locals: &[JavaType],
    xs: &[CoreExpr],
    mut links: Items<Link>,
) -> Result<Items<Link>, NoMemory>
    requires { IsReady at.now.reader.q }
    ensures { Gives at.now result (λ k a. spec.values k a locals.now (plains xs.now) links) }
{
    for x in xs {
        links = value(alloc, at, locals, x, links)?;
    }
    Ok(links)
}

#[cycle(value)]
fn maybe_value(
    alloc: Global,
    at: &Place<'_>,
    locals: &[JavaType],
    x: &Option<Boxed<CoreExpr>>,
    links: Items<Link>,
) -> Result<Items<Link>, NoMemory>
    requires { IsReady at.now.reader.q }
    ensures { Gives at.now result (λ k a. spec.maybe_value k a locals.now (maybe (option_map plain x.now)) links) }
{
    match x {
        None => Ok(links),
        Some(x) => value(alloc, at, locals, x.get(), links),
    }
}

/// An expression that may be missing.
pub(crate) fn optional(
    alloc: Global,
    at: &Place<'_>,
    locals: &[JavaType],
    x: &Option<CoreExpr>,
    links: Items<Link>,
) -> Result<Items<Link>, NoMemory>
    requires { IsReady at.now.reader.q }
    ensures { Gives at.now result (λ k a. spec.optional k a locals.now (option_map plain x.now) links) }
{
    match x {
        None => Ok(links),
        Some(x) => value(alloc, at, locals, x, links),
    }
}
