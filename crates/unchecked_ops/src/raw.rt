//! Calls, creations and assignments through raw types (JLS 4.8), and the types of parameters.

ghost use Rattle.std.specs.Prelude.{◌≡◌, ◌&&◌, IfOk, Some, map};
ghost use Rattle.java_core.specs.View.{plain};
ghost use Rattle.type_facts.specs.Facts.{AreFacts, Facts, IsReady};
ghost use Rattle.type_facts.specs.Members.{as_seen};
ghost use Rattle.type_kinds.specs.Members.{field_at, method_at};
ghost use Rattle.unchecked_ops.specs.Raw as spec;

use class_world::{FieldInfo, JavaType, MethodInfo, World, erase};
use java_core::{CoreExpr, CoreForm};
use java_tree::tree::Mod;
use java_tree::{Items, NoMemory};
use std::alloc::Global;
use type_facts::Questions;
use type_facts::asks::is_below;
use type_facts::seen::{self, Seen, seen_by};
use type_kinds::kinds::has;
use type_kinds::members::is_static_field;

fn seen_method(
    alloc: Global,
    q: &Questions<'_>,
    t: &JavaType,
    method: &MethodInfo,
) -> Result<Seen, NoMemory>
    requires { IsReady q.now }
    ensures { (f : Facts) → AreFacts q.now f → IfOk result (λ r. r ≡ spec.seen_method f t.now method.now) }
{
    let is_static = has(Mod::Static, method.mods.as_slice());
    seen_by(alloc, q, t, method.owner, is_static)
}

fn seen_field(
    alloc: Global,
    q: &Questions<'_>,
    t: &JavaType,
    field: &FieldInfo,
) -> Result<Seen, NoMemory>
    requires { IsReady q.now }
    ensures { (f : Facts) → AreFacts q.now f → IfOk result (λ r. r ≡ spec.seen_field f t.now field.now) }
{
    let is_static = is_static_field(q.world, field);
    seen_by(alloc, q, t, field.owner, is_static)
}

fn all_seen(alloc: Global, seen: &Seen, ts: &[JavaType]) -> Result<Items<JavaType>, NoMemory>
    ensures { IfOk result (λ r. r ≡ map (as_seen seen.now) ts.now) }
{
    let mut all = Items::new(alloc);
    for t in ts {
        all.push(seen::as_seen(alloc, seen, t)?)?;
    }
    Ok(all)
}

fn method_params(
    alloc: Global,
    q: &Questions<'_>,
    t: &JavaType,
    method: &MethodInfo,
) -> Result<Items<JavaType>, NoMemory>
    requires { IsReady q.now }
    ensures { (f : Facts) → AreFacts q.now f → IfOk result (λ r. r ≡ spec.params_on f t.now (Some method.now)) }
{
    let seen = seen_method(alloc, q, t, method)?;
    all_seen(alloc, &seen, method.params.as_slice())
}

/// The types that a method's or constructor's parameters have for a use on a type (JLS 4.5.2, 4.8).
pub(crate) fn params_on(
    alloc: Global,
    q: &Questions<'_>,
    t: &JavaType,
    method: u32,
) -> Result<Items<JavaType>, NoMemory>
    requires { IsReady q.now }
    ensures { (f : Facts) → AreFacts q.now f → IfOk result (λ r. r ≡ spec.params_on f t.now (method_at f.world method)) }
{
    match q.world.methods.get(method as usize) {
        None => Ok(Items::new(alloc)),
        Some(method) => method_params(alloc, q, t, method),
    }
}

fn erases(seen: &Seen) -> bool
    ensures { result ≡ spec.erases seen.now }
{
    match seen {
        Seen::Erased => true,
        Seen::Put(_) => false,
    }
}

fn is_alike(q: &Questions<'_>, s: &JavaType, t: &JavaType) -> bool
    requires { IsReady q.now }
    ensures { (f : Facts) → AreFacts q.now f → result ≡ (f.sub s.now t.now && f.sub t.now s.now) }
{
    is_below(q, s, t) && is_below(q, t, s)
}

/// Whether erasure changes a type (JLS 4.6).
fn is_changed(alloc: Global, q: &Questions<'_>, t: &JavaType) -> Result<bool, NoMemory>
    requires { IsReady q.now }
    ensures { (f : Facts) → AreFacts q.now f → IfOk result (λ r. r ≡ spec.is_changed f t.now) }
{
    let erased = erase(alloc, t)?;
    Ok(!is_alike(q, &erased, t))
}

fn some_changed(alloc: Global, q: &Questions<'_>, ts: &[JavaType]) -> Result<bool, NoMemory>
    requires { IsReady q.now }
    ensures { (f : Facts) → AreFacts q.now f → IfOk result (λ r. r ≡ spec.some_changed f ts.now) }
{
    for t in ts {
        if is_changed(alloc, q, t)? {
            return Ok(true);
        }
    }
    Ok(false)
}

fn is_raw_method(
    alloc: Global,
    q: &Questions<'_>,
    t: &JavaType,
    method: &MethodInfo,
) -> Result<bool, NoMemory>
    requires { IsReady q.now }
    ensures { (f : Facts) → AreFacts q.now f → IfOk result (λ r. r ≡ spec.is_raw_call f t.now (Some method.now)) }
{
    let seen = seen_method(alloc, q, t, method)?;
    if erases(&seen) {
        some_changed(alloc, q, method.params.as_slice())
    } else {
        Ok(false)
    }
}

/// Whether a method or constructor is used on a raw type, and erasure changes a type of its parameters (JLS 4.8).
pub(crate) fn is_raw_call(
    alloc: Global,
    q: &Questions<'_>,
    t: &JavaType,
    method: u32,
) -> Result<bool, NoMemory>
    requires { IsReady q.now }
    ensures { (f : Facts) → AreFacts q.now f → IfOk result (λ r. r ≡ spec.is_raw_call f t.now (method_at f.world method)) }
{
    match q.world.methods.get(method as usize) {
        None => Ok(false),
        Some(method) => is_raw_method(alloc, q, t, method),
    }
}

fn is_raw_known(
    alloc: Global,
    q: &Questions<'_>,
    t: &JavaType,
    field: &FieldInfo,
) -> Result<bool, NoMemory>
    requires { IsReady q.now }
    ensures { (f : Facts) → AreFacts q.now f → IfOk result (λ r. r ≡ spec.is_raw_field f t.now (Some field.now)) }
{
    let seen = seen_field(alloc, q, t, field)?;
    if erases(&seen) {
        is_changed(alloc, q, &field.ty)
    } else {
        Ok(false)
    }
}

fn is_raw_field(
    alloc: Global,
    q: &Questions<'_>,
    t: &JavaType,
    field: u32,
) -> Result<bool, NoMemory>
    requires { IsReady q.now }
    ensures { (f : Facts) → AreFacts q.now f → IfOk result (λ r. r ≡ spec.is_raw_field f t.now (field_at f.world field)) }
{
    match q.world.fields.get(field as usize) {
        None => Ok(false),
        Some(field) => is_raw_known(alloc, q, t, field),
    }
}

/// Whether an expression is a field of a raw type whose type erasure changes, in brackets too (JLS 4.8).
#[tactic(auto, using(java_core::proofs::Views::plain_at))]
pub(crate) fn sets_raw(alloc: Global, q: &Questions<'_>, e: &CoreExpr) -> Result<bool, NoMemory>
    requires { IsReady q.now }
    ensures { (f : Facts) → AreFacts q.now f → IfOk result (λ r. r ≡ spec.sets_raw f (plain e.now)) }
{
    match &e.form {
        CoreForm::Field { of, field, .. } => is_raw_field(alloc, q, &of.get().ty, *field),
        CoreForm::Paren(of) => sets_raw(alloc, q, of.get()),
        CoreForm::Implied(of) => sets_raw(alloc, q, of.get()),
        CoreForm::Int(_)
        | CoreForm::Long(_)
        | CoreForm::Char(_)
        | CoreForm::Text(_)
        | CoreForm::Truth(_)
        | CoreForm::Null
        | CoreForm::This
        | CoreForm::Local(_)
        | CoreForm::Widen(_)
        | CoreForm::SuperField(_)
        | CoreForm::StaticField { .. }
        | CoreForm::Length(_)
        | CoreForm::Index { .. }
        | CoreForm::Call { .. }
        | CoreForm::SuperCall { .. }
        | CoreForm::StaticCall { .. }
        | CoreForm::New { .. }
        | CoreForm::NewArray { .. }
        | CoreForm::NewFilled { .. }
        | CoreForm::Filled(_)
        | CoreForm::Unary { .. }
        | CoreForm::Step { .. }
        | CoreForm::Cast { .. }
        | CoreForm::Binary { .. }
        | CoreForm::Logic { .. }
        | CoreForm::InstanceOf { .. }
        | CoreForm::Cond { .. }
        | CoreForm::Assign { .. }
        | CoreForm::Compound { .. } => Ok(false),
    }
}
