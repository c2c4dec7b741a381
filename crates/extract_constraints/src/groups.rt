//! The signatures of a method's group, and the types that own a method.

ghost use Rattle.std.specs.Prelude.{◌≡◌, ◌&&◌, not};
ghost use Rattle.class_world.specs.Types.{erased};
ghost use Rattle.method_choice.specs.Choice.{pairwise};
ghost use Rattle.type_facts.specs.Facts.{IsReady};
ghost use Rattle.type_kinds.specs.Members.{method_at};
ghost use Rattle.extract_constraints.specs.Flows.{world};
ghost use Rattle.extract_constraints.specs.Groups as spec;
ghost use Rattle.extract_constraints.specs.Told.{Gives, Tells, where_of};

use crate::place::{Place, family, group, is_below, is_equal, method_info, overrides};
use class_world::{JavaType, MethodInfo, erase};
use java_tree::{Items, NoMemory};
use member_uses::superclass;
use std::alloc::Global;

/// The type of `this` in code of a user, whose classes have no type parameters (JLS 8.1.2).
pub(crate) fn own_type(alloc: Global, at: &Place<'_>) -> JavaType
    ensures { result ≡ spec.own_type (where_of at.now) }
{
    JavaType::Class(at.owner, Items::new(alloc))
}

fn type_or_null(t: Option<JavaType>) -> JavaType
    ensures { result ≡ spec.type_or_null t }
{
    match t {
        None => JavaType::Null,
        Some(t) => t,
    }
}

/// The type that `super` stands for (JLS 8.1.4).
pub(crate) fn super_type(alloc: Global, at: &Place<'_>) -> Result<JavaType, NoMemory>
    ensures { Gives at.now result (λ k a. spec.super_type a) }
{
    let above = superclass(alloc, at.reader.q.world, at.owner)?;
    Ok(type_or_null(above))
}

fn is_alike(at: &Place<'_>, s: &JavaType, t: &JavaType) -> bool
    requires { IsReady at.now.reader.q }
    ensures { Tells at.now result (λ k a. spec.is_alike k s.now t.now) }
{
    if is_below(at, s, t) {
        return is_below(at, t, s);
    }
    false
}

fn erase_alike(alloc: Global, at: &Place<'_>, s: &JavaType, t: &JavaType) -> Result<bool, NoMemory>
    requires { IsReady at.now.reader.q }
    ensures { Gives at.now result (λ k a. spec.erase_alike k s.now t.now) }
{
    let s = erase(alloc, s)?;
    let t = erase(alloc, t)?;
    Ok(is_alike(at, &s, &t))
}

#[cycle(all)]
fn all_erase_alike(
    alloc: Global,
    at: &Place<'_>,
    ss: &[JavaType],
    ts: &[JavaType],
) -> Result<bool, NoMemory>
    requires { IsReady at.now.reader.q }
    ensures { Gives at.now result (λ k a. pairwise (spec.erase_alike k) ss.now ts.now) }
{
    match ss.split_first() {
        None => Ok(ts.is_empty()),
        Some((s, ss)) => match ts.split_first() {
            None => Ok(false),
            Some((t, ts)) => {
                if erase_alike(alloc, at, s, t)? {
                    return all_erase_alike(alloc, at, ss, ts);
                }
                Ok(false)
            }
        },
    }
}

/// Whether the parameter types of two methods have the same erasures (JLS 4.6, 8.4.2).
pub(crate) fn have_one_erasure(
    alloc: Global,
    at: &Place<'_>,
    info: &MethodInfo,
    other: &MethodInfo,
) -> Result<bool, NoMemory>
    requires { IsReady at.now.reader.q }
    ensures { Gives at.now result (λ k a. spec.have_one_erasure k info.now other.now) }
{
    all_erase_alike(alloc, at, info.params.as_slice(), other.params.as_slice())
}

/// Whether a method is another one, overrides it or is overridden by it.
fn are_tied(at: &Place<'_>, m: u32, j: u32) -> bool
    requires { IsReady at.now.reader.q }
    ensures { Tells at.now result (λ k a. spec.are_tied k m j) }
{
    if is_equal(j, m) {
        return true;
    }
    if overrides(at, m, j) {
        return true;
    }
    overrides(at, j, m)
}

fn differ(alloc: Global, at: &Place<'_>, info: &MethodInfo, j: u32) -> Result<bool, NoMemory>
    requires { IsReady at.now.reader.q }
    ensures { Gives at.now result (λ k a. spec.differ k info.now (method_at (world a) j)) }
{
    match method_info(at, j) {
        None => Ok(false),
        Some(other) => Ok(!have_one_erasure(alloc, at, info, other)?),
    }
}

fn is_another(
    alloc: Global,
    at: &Place<'_>,
    m: u32,
    info: &MethodInfo,
    j: u32,
) -> Result<bool, NoMemory>
    requires { IsReady at.now.reader.q }
    ensures { Gives at.now result (λ k a. not (spec.are_tied k m j) && spec.differ k info.now (method_at (world a) j)) }
{
    if are_tied(at, m, j) {
        return Ok(false);
    }
    differ(alloc, at, info, j)
}

/// Whether the group of a method has two signatures, as overriding or equal erasures tell.
pub(crate) fn is_several(
    alloc: Global,
    at: &Place<'_>,
    m: u32,
    info: &MethodInfo,
) -> Result<bool, NoMemory>
    requires { IsReady at.now.reader.q }
    ensures { Gives at.now result (λ k a. spec.is_several k a m info.now) }
{
    let others = group(at, m);
    for j in others {
        if is_another(alloc, at, m, info, *j)? {
            return Ok(true);
        }
    }
    Ok(false)
}

pub(crate) fn is_among(numbers: &[u32], m: u32) -> bool
    ensures { result ≡ spec.is_among numbers.now m }
{
    for j in numbers {
        if *j == m {
            return true;
        }
    }
    false
}

fn have_one_erasure_with(
    alloc: Global,
    at: &Place<'_>,
    info: &MethodInfo,
    j: u32,
) -> Result<bool, NoMemory>
    requires { IsReady at.now.reader.q }
    ensures { Gives at.now result (λ k a. spec.have_one_erasure_with k info.now (method_at (world a) j)) }
{
    match method_info(at, j) {
        None => Ok(false),
        Some(other) => have_one_erasure(alloc, at, info, other),
    }
}

fn is_of_family(at: &Place<'_>, m: u32, j: u32) -> bool
    requires { IsReady at.now.reader.q }
    ensures { Tells at.now result (λ k a. spec.is_among (k.ties.family m) j) }
{
    is_among(family(at, m), j)
}

fn is_double(
    alloc: Global,
    at: &Place<'_>,
    m: u32,
    info: &MethodInfo,
    j: u32,
) -> Result<bool, NoMemory>
    requires { IsReady at.now.reader.q }
    ensures { Gives at.now result (λ k a. not (spec.are_tied k m j) && (not (spec.is_among (k.ties.family m) j) && spec.have_one_erasure_with k info.now (method_at (world a) j))) }
{
    if are_tied(at, m, j) {
        return Ok(false);
    }
    if is_of_family(at, m, j) {
        return Ok(false);
    }
    have_one_erasure_with(alloc, at, info, j)
}

/// Whether another method of the group has a method's signature, and is not of its family.
pub(crate) fn has_double(
    alloc: Global,
    at: &Place<'_>,
    m: u32,
    info: &MethodInfo,
) -> Result<bool, NoMemory>
    requires { IsReady at.now.reader.q }
    ensures { Gives at.now result (λ k a. spec.has_double k a m info.now) }
{
    let others = group(at, m);
    for j in others {
        if is_double(alloc, at, m, info, *j)? {
            return Ok(true);
        }
    }
    Ok(false)
}
