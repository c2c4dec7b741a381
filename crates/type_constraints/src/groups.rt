//! The signatures of a method's group, and the types that own a method.

ghost use Rattle.std.specs.Prelude.{◌≡◌, ◌&&◌, not, IfOk};
ghost use Rattle.class_world.specs.Types.{erased, variables};
ghost use Rattle.type_kinds.specs.Members.{method_at};
ghost use Rattle.type_facts.specs.Facts.{IsReady};
ghost use Rattle.type_facts.specs.Members.{params_at};
ghost use Rattle.method_choice.specs.Choice.{pairwise};
ghost use Rattle.type_constraints.specs.Arguments as spec;
ghost use Rattle.type_constraints.specs.Asked.{Gives, Tells};
ghost use Rattle.type_constraints.specs.Changed.{is_alike as alike};

use crate::flows::is_alike;
use crate::place::{Place, group, is_equal, overrides};
use class_world::{JavaType, MethodInfo, World, erase};
use java_tree::{Items, NoMemory};
use member_uses::superclass;
use std::alloc::Global;

fn params_of(w: &World, class: u32) -> u32
    ensures { result ≡ params_at w.now class }
{
    match w.types.get(class as usize) {
        None => 0,
        Some(info) => info.params,
    }
}

fn own_variables(alloc: Global, count: u32) -> Result<Items<JavaType>, NoMemory>
    ensures { IfOk result (λ vs. vs ≡ variables 0 count) }
{
    let mut vs = Items::new(alloc);
    for k in 0..count {
        vs.push(JavaType::Var(k))?;
    }
    Ok(vs)
}

/// The type of `this` (JLS 8.1.2).
pub(crate) fn own_type(alloc: Global, at: &Place<'_>) -> Result<JavaType, NoMemory>
    ensures { Gives at.now result spec.own_type }
{
    let vars = own_variables(alloc, params_of(at.q.world, at.class))?;
    Ok(JavaType::Class(at.class, vars))
}

fn type_or_null(t: Option<JavaType>) -> JavaType
    ensures { result ≡ spec.type_or_null t }
{
    match t {
        None => JavaType::Null,
        Some(t) => t,
    }
}

/// The type that `super` stands for (JLS 8.1.4).
pub(crate) fn super_type(alloc: Global, at: &Place<'_>) -> Result<JavaType, NoMemory>
    ensures { Gives at.now result spec.super_type }
{
    let above = superclass(alloc, at.q.world, at.class)?;
    Ok(type_or_null(above))
}

// ---- erasures

fn erase_alike(alloc: Global, at: &Place<'_>, s: &JavaType, t: &JavaType) -> Result<bool, NoMemory>
    requires { IsReady at.now.q }
    ensures { Gives at.now result (λ a. alike a.facts (erased s.now) (erased t.now)) }
{
    let s = erase(alloc, s)?;
    let t = erase(alloc, t)?;
    Ok(is_alike(at, &s, &t))
}

#[cycle(all)]
fn all_erase_alike(
    alloc: Global,
    at: &Place<'_>,
    ss: &[JavaType],
    ts: &[JavaType],
) -> Result<bool, NoMemory>
    requires { IsReady at.now.q }
    ensures { Gives at.now result (λ a. pairwise (λ s t. alike a.facts (erased s) (erased t)) ss.now ts.now) }
{
    match ss.split_first() {
        None => Ok(ts.is_empty()),
        Some((s, ss)) => match ts.split_first() {
            None => Ok(false),
            Some((t, ts)) => {
                if erase_alike(alloc, at, s, t)? {
                    return all_erase_alike(alloc, at, ss, ts);
                }
                Ok(false)
            }
        },
    }
}

/// Whether the parameter types of two methods have the same erasures (JLS 4.6, 8.4.2).
pub(crate) fn have_one_erasure(
    alloc: Global,
    at: &Place<'_>,
    info: &MethodInfo,
    other: &MethodInfo,
) -> Result<bool, NoMemory>
    requires { IsReady at.now.q }
    ensures { Gives at.now result (λ a. spec.have_one_erasure a.facts info.now other.now) }
{
    all_erase_alike(alloc, at, info.params.as_slice(), other.params.as_slice())
}

// ---- groups

/// Whether a method is another one, overrides it or is overridden by it.
pub(crate) fn are_tied(at: &Place<'_>, m: u32, k: u32) -> bool
    requires { IsReady at.now.q }
    ensures { Tells at.now result (λ a. spec.are_tied a m k) }
{
    if is_equal(k, m) {
        return true;
    }
    if overrides(at, m, k) {
        return true;
    }
    overrides(at, k, m)
}

fn differ(alloc: Global, at: &Place<'_>, info: &MethodInfo, k: u32) -> Result<bool, NoMemory>
    requires { IsReady at.now.q }
    ensures { Gives at.now result (λ a. spec.differ a.facts info.now (method_at a.world k)) }
{
    match at.q.world.methods.get(k as usize) {
        None => Ok(false),
        Some(other) => Ok(!have_one_erasure(alloc, at, info, other)?),
    }
}

fn is_another(
    alloc: Global,
    at: &Place<'_>,
    m: u32,
    info: &MethodInfo,
    k: u32,
) -> Result<bool, NoMemory>
    requires { IsReady at.now.q }
    ensures { Gives at.now result (λ a. not (spec.are_tied a m k) && spec.differ a.facts info.now (method_at a.world k)) }
{
    if are_tied(at, m, k) {
        return Ok(false);
    }
    differ(alloc, at, info, k)
}

/// Whether the group of a method has two signatures, as overriding or equal erasures tell.
pub(crate) fn is_several(
    alloc: Global,
    at: &Place<'_>,
    m: u32,
    info: &MethodInfo,
) -> Result<bool, NoMemory>
    requires { IsReady at.now.q }
    ensures { Gives at.now result (λ a. spec.is_several a m info.now) }
{
    let others = group(at, m);
    for k in others {
        if is_another(alloc, at, m, info, *k)? {
            return Ok(true);
        }
    }
    Ok(false)
}
