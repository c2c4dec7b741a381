//! What methods give and throw, beside one another.

ghost use Rattle.std.specs.Prelude.{◌≡◌, ◌==◌, IfOk, Some};
ghost use Rattle.std.specs.List.{list_any};
ghost use Rattle.std.specs.Option.{option_map};
ghost use Rattle.class_world.specs.Types.{erased};
ghost use Rattle.type_places.specs.Changes as change;
ghost use Rattle.type_facts.specs.Facts.{IsReady};
ghost use Rattle.type_facts.specs.Members as members;
ghost use Rattle.member_uses.specs.Targets.{is_static_method as is_static};
ghost use Rattle.thrown_exceptions.specs.Thrown as thrown;
ghost use Rattle.type_constraints.specs.Asked.{Gives, Puts, Tells};
ghost use Rattle.type_constraints.specs.Changed as flows;
ghost use Rattle.type_constraints.specs.Uses as spec;

use crate::changed::raised;
use crate::flows::are_alike;
use crate::place::{Place, is_below};
use class_world::{JavaType, MethodInfo, copied, erase};
use java_tree::tree::Mod;
use java_tree::{Items, NoMemory};
use std::alloc::Global;
use type_facts::seen::{Seen, as_seen, seen_by};
use type_kinds::kinds::{class_number, has};

const ERROR: u32 = 6;

const RUNTIME_EXCEPTION: u32 = 7;

/// Whether a method is static (JLS 8.4.3.2).
pub(crate) fn is_static_method(info: &MethodInfo) -> bool
    ensures { result ≡ is_static info.now }
{
    has(Mod::Static, info.mods.as_slice())
}

/// How a type sees what a method or constructor declares (JLS 4.5.2, 4.8).
pub(crate) fn seen_method(
    alloc: Global,
    at: &Place<'_>,
    t: &JavaType,
    info: &MethodInfo,
) -> Result<Seen, NoMemory>
    requires { IsReady at.now.q }
    ensures { Gives at.now result (λ a. spec.seen_method a.facts t.now info.now) }
{
    seen_by(alloc, &at.q, t, info.owner, is_static_method(info))
}

fn raised_if(
    alloc: Global,
    at: &Place<'_>,
    changes: bool,
    t: &JavaType,
) -> Result<Option<JavaType>, NoMemory>
    ensures { IfOk result (λ r. r ≡ spec.raised_if at.now.change.now changes (Some t.now)) }
{
    if changes {
        return Ok(Some(raised(alloc, at.change, t)?));
    }
    Ok(Some(copied(alloc, t)?))
}

/// What a method declares that it gives, after the change.
pub(crate) fn result_after(
    alloc: Global,
    at: &Place<'_>,
    method: u32,
    info: &MethodInfo,
) -> Result<Option<JavaType>, NoMemory>
    ensures { Gives at.now result (λ a. spec.result_after a method info.now) }
{
    match &info.result {
        None => Ok(None),
        Some(t) => raised_if(alloc, at, at.change.is_result(method), t),
    }
}

fn seen_result(
    alloc: Global,
    seen: &Seen,
    t: &Option<JavaType>,
) -> Result<Option<JavaType>, NoMemory>
    ensures { IfOk result (λ r. r ≡ option_map (members.as_seen seen.now) t.now) }
{
    match t {
        None => Ok(None),
        Some(t) => Ok(Some(as_seen(alloc, seen, t)?)),
    }
}

/// The same, as a type sees it.
pub(crate) fn result_on(
    alloc: Global,
    at: &Place<'_>,
    t: &JavaType,
    method: u32,
    info: &MethodInfo,
) -> Result<Option<JavaType>, NoMemory>
    requires { IsReady at.now.q }
    ensures { Gives at.now result (λ a. spec.result_on a t.now method info.now) }
{
    let seen = seen_method(alloc, at, t, info)?;
    let after = result_after(alloc, at, method, info)?;
    seen_result(alloc, &seen, &after)
}

fn erased_option(alloc: Global, t: &Option<JavaType>) -> Result<Option<JavaType>, NoMemory>
    ensures { IfOk result (λ r. r ≡ option_map erased t.now) }
{
    match t {
        None => Ok(None),
        Some(t) => Ok(Some(erase(alloc, t)?)),
    }
}

fn erased_result(
    alloc: Global,
    at: &Place<'_>,
    method: u32,
    info: &MethodInfo,
) -> Result<Option<JavaType>, NoMemory>
    ensures { Gives at.now result (λ a. option_map erased (spec.result_after a method info.now)) }
{
    let after = result_after(alloc, at, method, info)?;
    erased_option(alloc, &after)
}

fn give_erased_alike(
    alloc: Global,
    at: &Place<'_>,
    k: u32,
    found: &MethodInfo,
    method: u32,
    info: &MethodInfo,
) -> Result<bool, NoMemory>
    requires { IsReady at.now.q }
    ensures { Gives at.now result (λ a. flows.are_alike a.facts (spec.erased_after a k found.now) (spec.erased_after a method info.now)) }
{
    let new = erased_result(alloc, at, k, found)?;
    let old = erased_result(alloc, at, method, info)?;
    Ok(are_alike(at, &new, &old))
}

fn give_seen_alike(
    alloc: Global,
    at: &Place<'_>,
    new: &JavaType,
    old: &JavaType,
    k: u32,
    found: &MethodInfo,
    method: u32,
    info: &MethodInfo,
) -> Result<bool, NoMemory>
    requires { IsReady at.now.q }
    ensures { Gives at.now result (λ a. flows.are_alike a.facts (spec.result_on a new.now k found.now) (spec.result_on a old.now method info.now)) }
{
    let above = result_on(alloc, at, new, k, found)?;
    let below = result_on(alloc, at, old, method, info)?;
    Ok(are_alike(at, &above, &below))
}

/// Whether a method gives on a new type what another one gives on the old type.
pub(crate) fn give_alike(
    alloc: Global,
    at: &Place<'_>,
    new: &JavaType,
    old: &JavaType,
    k: u32,
    found: &MethodInfo,
    method: u32,
    info: &MethodInfo,
) -> Result<bool, NoMemory>
    requires { IsReady at.now.q }
    ensures { Gives at.now result (λ a. spec.give_alike a new.now old.now k found.now method info.now) }
{
    if give_seen_alike(alloc, at, new, old, k, found, method, info)? {
        return give_erased_alike(alloc, at, k, found, method, info);
    }
    Ok(false)
}

// ---- checked exceptions (JLS 11.2)

fn is_class_below(alloc: Global, at: &Place<'_>, c: u32, d: u32) -> bool
    requires { IsReady at.now.q }
    ensures { Tells at.now result (λ a. thrown.is_below a.facts.sub c d) }
{
    let below = JavaType::Class(c, Items::new(alloc));
    let above = JavaType::Class(d, Items::new(alloc));
    is_below(at, &below, &above)
}

fn is_checked(alloc: Global, at: &Place<'_>, c: u32) -> bool
    requires { IsReady at.now.q }
    ensures { Tells at.now result (λ a. thrown.is_checked a.facts.sub c) }
{
    if is_class_below(alloc, at, c, RUNTIME_EXCEPTION) {
        return false;
    }
    !is_class_below(alloc, at, c, ERROR)
}

fn push_checked(
    alloc: Global,
    at: &Place<'_>,
    class: Option<u32>,
    out: &mut Items<u32>,
) -> Result<(), NoMemory>
    requires { IsReady at.now.q }
    ensures { Puts at.now result out.old out.new (λ a. thrown.checked_of a.facts.sub class) }
{
    match class {
        None => Ok(()),
        Some(class) => {
            if is_checked(alloc, at, class) {
                out.push(class)?;
            }
            Ok(())
        }
    }
}

fn checked_in(alloc: Global, at: &Place<'_>, types: &[JavaType]) -> Result<Items<u32>, NoMemory>
    requires { IsReady at.now.q }
    ensures { Gives at.now result (λ a. thrown.checked_in a.facts.sub types.now) }
{
    let mut out = Items::new(alloc);
    for t in types {
        push_checked(alloc, at, class_number(t), &mut out)?;
    }
    Ok(out)
}

fn is_among(xs: &[u32], number: u32) -> bool
    ensures { result ≡ list_any (λ x. number == x) xs.now }
{
    for x in xs {
        if number == *x {
            return true;
        }
    }
    false
}

fn are_among(xs: &[u32], ys: &[u32]) -> bool
    ensures { result ≡ spec.are_among xs.now ys.now }
{
    for x in xs {
        if !is_among(ys, *x) {
            return false;
        }
    }
    true
}

fn are_same(xs: &[u32], ys: &[u32]) -> bool
    ensures { result ≡ spec.are_same xs.now ys.now }
{
    if are_among(xs, ys) {
        return are_among(ys, xs);
    }
    false
}

/// Whether two methods name the same checked exceptions.
pub(crate) fn throw_alike(
    alloc: Global,
    at: &Place<'_>,
    found: &MethodInfo,
    info: &MethodInfo,
) -> Result<bool, NoMemory>
    requires { IsReady at.now.q }
    ensures { Gives at.now result (λ a. spec.throw_alike a.facts found.now info.now) }
{
    let new = checked_in(alloc, at, found.throws.as_slice())?;
    let old = checked_in(alloc, at, info.throws.as_slice())?;
    Ok(are_same(new.as_slice(), old.as_slice()))
}
