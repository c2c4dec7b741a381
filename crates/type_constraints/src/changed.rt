//! Expressions whose types change.

ghost use Rattle.std.specs.Prelude.{◌≡◌, IfOk};
ghost use Rattle.java_core.specs.View.{plain};
ghost use Rattle.type_kinds.specs.Kinds.{ty_of};
ghost use Rattle.type_places.specs.Changes as change;
ghost use Rattle.type_facts.specs.Facts.{IsReady};
ghost use Rattle.type_constraints.specs.Asked.{Gives};
ghost use Rattle.type_constraints.specs.Changed as spec;

use crate::place::{Place, fits};
use class_world::JavaType;
use java_core::{CoreExpr, CoreForm};
use java_tree::tree::Node;
use java_tree::{Boxed, Items, NoMemory};
use std::alloc::Global;
use type_places::Changes;

/// A type with the new head below its array levels.
pub(crate) fn raised(alloc: Global, c: &Changes, t: &JavaType) -> Result<JavaType, NoMemory>
    ensures { IfOk result (λ r. r ≡ change.raised c.now t.now) }
{
    match t {
        JavaType::Prim(p) => Ok(JavaType::Prim(*p)),
        JavaType::Null => Ok(JavaType::Null),
        JavaType::Class(_, _) => Ok(JavaType::Class(c.new, Items::new(alloc))),
        JavaType::Var(k) => Ok(JavaType::Var(*k)),
        JavaType::Array(element) => {
            let element = raised(alloc, c, element.get())?;
            Ok(JavaType::Array(Boxed::new(alloc, element)?))
        }
    }
}

/// Whether the new type of what had one type fits another (JLS 5.2).
pub(crate) fn new_fits(
    alloc: Global,
    at: &Place<'_>,
    s: &JavaType,
    t: &JavaType,
) -> Result<bool, NoMemory>
    requires { IsReady at.now.q }
    ensures { Gives at.now result (λ a. a.facts.fits (change.raised a.change s.now) t.now) }
{
    let new = raised(alloc, at.change, s)?;
    Ok(fits(at, &new, t))
}

/// Whether the declared type of what has a slot at a node changes.
pub(crate) fn is_local(at: &Place<'_>, slot: u32, node: Node) -> bool
    ensures { result ≡ spec.is_local at.now.change.now at.now.method slot node }
{
    match at.method {
        None => false,
        Some(method) => at.change.is_slot(method, slot, node.span.from),
    }
}

/// Whether the arms of a conditional, of these types, lead a change on to it: not where one is fixed and the new type of the other one fits it.
fn leads_on(
    alloc: Global,
    at: &Place<'_>,
    first: bool,
    second: bool,
    s: &JavaType,
    t: &JavaType,
) -> Result<bool, NoMemory>
    requires { IsReady at.now.q }
    ensures { Gives at.now result (λ a. spec.leads_on a first second s.now t.now) }
{
    if first {
        if second {
            return Ok(true);
        }
        return Ok(!new_fits(alloc, at, s, t)?);
    }
    if second {
        return Ok(!new_fits(alloc, at, t, s)?);
    }
    Ok(false)
}

/// Whether the type of an expression is read from a declared type that changes.
#[cycle(changed)]
#[tactic(auto, using(java_core::proofs::Views::plain_at))]
pub(crate) fn changed(alloc: Global, at: &Place<'_>, e: &CoreExpr) -> Result<bool, NoMemory>
    requires { IsReady at.now.q }
    ensures { Gives at.now result (λ a. spec.changed a (plain e.now)) }
{
    match &e.form {
        CoreForm::Paren(of) => changed(alloc, at, of.get()),
        CoreForm::Index { of, .. } => changed(alloc, at, of.get()),
        CoreForm::Assign { to, .. } => changed(alloc, at, to.get()),
        CoreForm::Compound { to, .. } => changed(alloc, at, to.get()),
        CoreForm::Cond { yes, no, .. } => arms(alloc, at, yes.get(), no.get()),
        CoreForm::Local(slot) => Ok(is_local(at, *slot, e.node)),
        CoreForm::Field { field, .. } => Ok(at.change.is_field(*field)),
        CoreForm::SuperField(field) => Ok(at.change.is_field(*field)),
        CoreForm::StaticField { field, .. } => Ok(at.change.is_field(*field)),
        CoreForm::Call { method, .. } => Ok(at.change.is_result(*method)),
        CoreForm::SuperCall { method, .. } => Ok(at.change.is_result(*method)),
        CoreForm::StaticCall { method, .. } => Ok(at.change.is_result(*method)),
        CoreForm::Int(_)
        | CoreForm::Long(_)
        | CoreForm::Char(_)
        | CoreForm::Text(_)
        | CoreForm::Truth(_)
        | CoreForm::Null
        | CoreForm::This
        | CoreForm::Widen(_)
        | CoreForm::Implied(_)
        | CoreForm::Length(_)
        | CoreForm::New { .. }
        | CoreForm::NewArray { .. }
        | CoreForm::NewFilled { .. }
        | CoreForm::Filled(_)
        | CoreForm::Unary { .. }
        | CoreForm::Step { .. }
        | CoreForm::Cast { .. }
        | CoreForm::Binary { .. }
        | CoreForm::Logic { .. }
        | CoreForm::InstanceOf { .. } => Ok(false),
    }
}

#[cycle(changed)]
#[tactic(auto, using(java_core::proofs::Views::plain_at))]
fn arms(alloc: Global, at: &Place<'_>, yes: &CoreExpr, no: &CoreExpr) -> Result<bool, NoMemory>
    requires { IsReady at.now.q }
    ensures { Gives at.now result (λ a. spec.leads_on a (spec.changed a (plain yes.now)) (spec.changed a (plain no.now)) (ty_of (plain yes.now)) (ty_of (plain no.now))) }
{
    let first = changed(alloc, at, yes)?;
    let second = changed(alloc, at, no)?;
    leads_on(alloc, at, first, second, &yes.ty, &no.ty)
}
