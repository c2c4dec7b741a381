//! The unchecked operations of expressions.

ghost use Rattle.std.specs.Prelude.{◌≡◌, ◌++◌, Bool, IfOk, OnOk, slice_get};
ghost use Rattle.std.specs.Option.{option_map};
ghost use Rattle.class_world.specs.declared.world.JavaType.{JavaType};
ghost use Rattle.java_core.specs.View.{form_plain, maybe, plain, plains};
ghost use Rattle.type_facts.specs.Facts.{AreFacts, Facts, IsReady};
ghost use Rattle.type_kinds.specs.Kinds.{element};
ghost use Rattle.unchecked_ops.specs.Casting.{AreCasts};
ghost use Rattle.unchecked_ops.specs.Operations as spec;
ghost use Rattle.type_kinds.specs.Members.{method_at};
ghost use Rattle.unchecked_ops.specs.Raw.{declared_params, params_on};

use crate::casting::is_unchecked_cast;
use crate::raw;
use class_world::JavaType;
use java_core::{CoreExpr, CoreForm};
use java_tree::tree::Node;
use java_tree::{Boxed, Items, NoMemory};
use std::alloc::Global;
use type_facts::Questions;
use type_facts::asks::is_unchecked_alone;
use type_kinds::kinds;

/// Whether a cast is unchecked (JLS 5.5).
fn is_cast(alloc: Global, q: &Questions<'_>, s: &JavaType, t: &JavaType) -> Result<bool, NoMemory>
    requires { IsReady q.now }
    ensures { (u : JavaType → JavaType → Bool) → AreCasts q.now.world.now u → IfOk result (λ r. r ≡ u s.now t.now) }
{
    is_unchecked_cast(alloc, q.world, s, t)
}

fn is_conversion(form: &CoreForm) -> bool
    ensures { result ≡ spec.is_conversion (form_plain form.now) }
{
    match form {
        CoreForm::Implied(_) => true,
        CoreForm::Widen(_) => true,
        _ => false,
    }
}

/// Whether a form is an unchecked operation itself, for the type of its expression.
#[tactic(auto, using(java_core::proofs::Views::plain_at))]
fn is_unchecked(
    alloc: Global,
    q: &Questions<'_>,
    ty: &JavaType,
    form: &CoreForm,
) -> Result<bool, NoMemory>
    requires { IsReady q.now }
    ensures { (f : Facts) → AreFacts q.now f → (u : JavaType → JavaType → Bool) → AreCasts q.now.world.now u → IfOk result (λ r. r ≡ spec.is_unchecked f u ty.now (form_plain form.now)) }
{
    match form {
        CoreForm::Call { of, method, .. } => raw::is_raw_call(alloc, q, &of.get().ty, *method),
        CoreForm::New { constructor, .. } => raw::is_raw_call(alloc, q, ty, *constructor),
        CoreForm::Assign { to, .. } => raw::sets_raw(alloc, q, to.get()),
        CoreForm::Compound { to, .. } => raw::sets_raw(alloc, q, to.get()),
        CoreForm::Cast { of, .. } => is_cast(alloc, q, &of.get().ty, ty),
        _ => Ok(false),
    }
}

/// Whether a node is noted: a conversion is not.
fn is_noted(
    alloc: Global,
    q: &Questions<'_>,
    here: bool,
    ty: &JavaType,
    form: &CoreForm,
) -> Result<bool, NoMemory>
    requires { IsReady q.now }
    ensures { (f : Facts) → AreFacts q.now f → (u : JavaType → JavaType → Bool) → AreCasts q.now.world.now u → IfOk result (λ r. r ≡ spec.is_noted f u here ty.now (form_plain form.now)) }
{
    if is_conversion(form) {
        return Ok(false);
    }
    if here {
        return Ok(true);
    }
    is_unchecked(alloc, q, ty, form)
}

#[tactic(auto, using(java_core::proofs::Views::plain_at))]
fn note(
    alloc: Global,
    q: &Questions<'_>,
    here: bool,
    e: &CoreExpr,
    out: &mut Items<Node>,
) -> Result<(), NoMemory>
    requires { IsReady q.now }
    ensures { spec.Puts q.now result out.old out.new (λ f u. spec.own_mark f u here (plain e.now)) }
{
    if is_noted(alloc, q, here, &e.ty, &e.form)? {
        out.push(e.node)?;
    }
    Ok(())
}

/// Whether a value goes to a variable of a type by an unchecked conversion alone (JLS 5.1.9).
#[tactic(auto, using(java_core::proofs::Views::plain_at))]
pub(crate) fn is_for(q: &Questions<'_>, t: &JavaType, x: &CoreExpr) -> bool
    requires { IsReady q.now }
    ensures { (f : Facts) → AreFacts q.now f → result ≡ spec.converts f (Some t.now) (plain x.now) }
{
    is_unchecked_alone(q, &x.ty, t)
}

/// The same of an item of an array of a type.
fn is_for_item(q: &Questions<'_>, ty: &JavaType, x: &CoreExpr) -> bool
    requires { IsReady q.now }
    ensures { (f : Facts) → AreFacts q.now f → result ≡ spec.converts f (element ty.now) (plain x.now) }
{
    match kinds::element(ty) {
        None => false,
        Some(t) => is_for(q, t, x),
    }
}

/// The same of an argument, for parameters of these types.
fn is_for_param(q: &Questions<'_>, ts: &[JavaType], at: usize, x: &CoreExpr) -> bool
    requires { IsReady q.now }
    ensures { (f : Facts) → AreFacts q.now f → result ≡ spec.converts f (slice_get ts.now at) (plain x.now) }
{
    match ts.get(at) {
        None => false,
        Some(t) => is_for(q, t, x),
    }
}

/// The operations of an expression; `here` says that its value goes to a variable by an unchecked conversion.
#[cycle(ops)]
#[tactic(auto, using(java_core::proofs::Views::plain_at))]
pub(crate) fn ops(
    alloc: Global,
    q: &Questions<'_>,
    above: &JavaType,
    here: bool,
    e: &CoreExpr,
    out: &mut Items<Node>,
) -> Result<(), NoMemory>
    requires { IsReady q.now }
    ensures { spec.Puts q.now result out.old out.new (λ f u. spec.ops f u above.now here (plain e.now)) }
{
    note(alloc, q, here, e, out)?;
    match &e.form {
        CoreForm::Implied(of) => ops(alloc, q, above, here, of.get(), out),
        CoreForm::Widen(of) => ops(alloc, q, above, here, of.get(), out),
        CoreForm::Paren(of) => ops(alloc, q, above, false, of.get(), out),
        CoreForm::Field { of, .. } => ops(alloc, q, above, false, of.get(), out),
        CoreForm::Length(of) => ops(alloc, q, above, false, of.get(), out),
        CoreForm::NewFilled { items: of, .. } => ops(alloc, q, above, false, of.get(), out),
        CoreForm::Unary { of, .. } => ops(alloc, q, above, false, of.get(), out),
        CoreForm::Step { of, .. } => ops(alloc, q, above, false, of.get(), out),
        CoreForm::Cast { of, .. } => ops(alloc, q, above, false, of.get(), out),
        CoreForm::InstanceOf { of, .. } => ops(alloc, q, above, false, of.get(), out),
        CoreForm::StaticField { of, .. } => maybe_ops(alloc, q, above, of, out),
        CoreForm::Index { of, at } => {
            ops(alloc, q, above, false, of.get(), out)?;
            ops(alloc, q, above, false, at.get(), out)
        }
        CoreForm::Binary { left, right, .. } => {
            ops(alloc, q, above, false, left.get(), out)?;
            ops(alloc, q, above, false, right.get(), out)
        }
        CoreForm::Logic { left, right, .. } => {
            ops(alloc, q, above, false, left.get(), out)?;
            ops(alloc, q, above, false, right.get(), out)
        }
        CoreForm::Compound { to, from, .. } => {
            ops(alloc, q, above, false, to.get(), out)?;
            ops(alloc, q, above, false, from.get(), out)
        }
        CoreForm::Assign { to, from } => {
            ops(alloc, q, above, false, to.get(), out)?;
            let unchecked = is_for(q, &e.ty, from.get());
            ops(alloc, q, above, unchecked, from.get(), out)
        }
        CoreForm::Cond { test, yes, no } => {
            ops(alloc, q, above, false, test.get(), out)?;
            ops(alloc, q, above, false, yes.get(), out)?;
            ops(alloc, q, above, false, no.get(), out)
        }
        CoreForm::Call {
            of,
            method,
            args,
            ..
        } => {
            ops(alloc, q, above, false, of.get(), out)?;
            method_args(alloc, q, above, &of.get().ty, *method, args.as_slice(), out)
        }
        CoreForm::SuperCall { method, args } => {
            method_args(alloc, q, above, above, *method, args.as_slice(), out)
        }
        CoreForm::StaticCall {
            of,
            method,
            args,
            ..
        } => {
            maybe_ops(alloc, q, above, of, out)?;
            static_args(alloc, q, above, *method, args.as_slice(), out)
        }
        CoreForm::New {
            constructor,
            args,
            ..
        } => method_args(alloc, q, above, &e.ty, *constructor, args.as_slice(), out),
        CoreForm::NewArray { sizes, .. } => each_ops(alloc, q, above, sizes.as_slice(), out),
        CoreForm::Filled(items) => item_ops(alloc, q, above, &e.ty, items.as_slice(), out),
        CoreForm::Int(_)
        | CoreForm::Long(_)
        | CoreForm::Char(_)
        | CoreForm::Text(_)
        | CoreForm::Truth(_)
        | CoreForm::Null
        | CoreForm::This
        | CoreForm::Local(_)
        | CoreForm::SuperField(_) => Ok(()),
    }
}

#[cycle(ops)]
fn maybe_ops(
    alloc: Global,
    q: &Questions<'_>,
    above: &JavaType,
    of: &Option<Boxed<CoreExpr>>,
    out: &mut Items<Node>,
) -> Result<(), NoMemory>
    requires { IsReady q.now }
    ensures { spec.Puts q.now result out.old out.new (λ f u. spec.maybe_ops f u above.now (maybe (option_map plain of.now))) }
{
    match of {
        None => Ok(()),
        Some(of) => ops(alloc, q, above, false, of.get(), out),
    }
}

#[cycle(ops)]
pub(crate) fn each_ops(
    alloc: Global,
    q: &Questions<'_>,
    above: &JavaType,
    xs: &[CoreExpr],
    out: &mut Items<Node>,
) -> Result<(), NoMemory>
    requires { IsReady q.now }
    ensures { spec.Puts q.now result out.old out.new (λ f u. spec.each_ops f u above.now (plains xs.now)) }
{
    for x in xs {
        ops(alloc, q, above, false, x, out)?;
    }
    Ok(())
}

/// The operations of the items of an array of a type.
#[cycle(ops)]
fn item_ops(
    alloc: Global,
    q: &Questions<'_>,
    above: &JavaType,
    ty: &JavaType,
    xs: &[CoreExpr],
    out: &mut Items<Node>,
) -> Result<(), NoMemory>
    requires { IsReady q.now }
    ensures { spec.Puts q.now result out.old out.new (λ f u. spec.item_ops f u above.now ty.now (plains xs.now)) }
{
    for x in xs {
        let unchecked = is_for_item(q, ty, x);
        ops(alloc, q, above, unchecked, x, out)?;
    }
    Ok(())
}

/// The operations of arguments, for parameters of these types.
#[cycle(ops)]
fn args(
    alloc: Global,
    q: &Questions<'_>,
    above: &JavaType,
    ts: &[JavaType],
    xs: &[CoreExpr],
    out: &mut Items<Node>,
) -> Result<(), NoMemory>
    requires { IsReady q.now }
    ensures { spec.Puts q.now result out.old out.new (λ f u. spec.args f u above.now ts.now 0 (plains xs.now)) }
{
    for (i, x) in xs.iter().enumerate() {
        let unchecked = is_for_param(q, ts, i, x);
        ops(alloc, q, above, unchecked, x, out)?;
    }
    Ok(())
}

/// The operations of the arguments of a method or constructor that is used on a type.
#[cycle(ops)]
pub(crate) fn method_args(
    alloc: Global,
    q: &Questions<'_>,
    above: &JavaType,
    t: &JavaType,
    method: u32,
    xs: &[CoreExpr],
    out: &mut Items<Node>,
) -> Result<(), NoMemory>
    requires { IsReady q.now }
    ensures { spec.Puts q.now result out.old out.new (λ f u. spec.args f u above.now (params_on f t.now (method_at f.world method)) 0 (plains xs.now)) }
{
    let params = raw::params_on(alloc, q, t, method)?;
    args(alloc, q, above, params.as_slice(), xs, out)
}

#[cycle(ops)]
fn static_args(
    alloc: Global,
    q: &Questions<'_>,
    above: &JavaType,
    method: u32,
    xs: &[CoreExpr],
    out: &mut Items<Node>,
) -> Result<(), NoMemory>
    requires { IsReady q.now }
    ensures { spec.Puts q.now result out.old out.new (λ f u. spec.args f u above.now (declared_params (method_at f.world method)) 0 (plains xs.now)) }
{
    match q.world.methods.get(method as usize) {
        None => args(alloc, q, above, &[], xs, out),
        Some(method) => args(alloc, q, above, method.params.as_slice(), xs, out),
    }
}
