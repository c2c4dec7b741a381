//! DR19: of the methods of one signature that a type inherits, two have unlike results, and no method of a class overrides both.

ghost use Rattle.std.specs.Prelude.{◌↔◌, ◌⊎◌, ℕ, Option, IsTrue, IfOk};
ghost use Rattle.std.specs.List.{Contains};
ghost use Rattle.class_world.specs.declared.world.JavaType as types;
ghost use Rattle.class_world.specs.declared.world.World as worlds;
ghost use Rattle.class_world.specs.Sound.{IsSound};
ghost use Rattle.class_world.specs.Typed.{HaveTypes};
ghost use Rattle.class_world.specs.Overriding.{Overriding};
ghost use Rattle.overrides.specs.Overrides.{HoldsOverrides};
ghost use Rattle.seen_methods.specs.Seen.{HasResult};
ghost use Rattle.inherited_rules.specs.Parts.{AreOverriddenBy, AreUnlike, AreUnresolved, HasUnresolved, IsResult, IsTop, IsUnlike, IsUnresolvedWith};
ghost use Rattle.inherited_rules.specs.Chains.{AreKept, IsAmong};

use crate::chain::Results;
use crate::fit::is_unlike;
use class_world::{JavaType, World};
use java_tree::NoMemory;
use overrides::Overrides;
use seen_methods::{is_of_class, seen_result};
use std::alloc::Global;

/// Whether two of the methods have unlike results, as the type sees them, and none of the methods that a class declares overrides both. Where two are unlike and a class declares some, it takes time for all pairs with those that the first of these does not override.
pub(crate) fn has_unresolved(
    alloc: Global,
    w: &World,
    overrides: &Overrides,
    c: u32,
    methods: &[u32],
) -> Result<bool, NoMemory>
    requires sound { IsSound w.now }
    requires typed { HaveTypes w.now }
    requires overrides { HoldsOverrides w.now overrides.now }
    ensures { IfOk result (λ r. IsTrue r ↔ HasUnresolved w.now c (IsTop w.now methods.now) methods.now) }
{
    if !has_unlike(alloc, w, c, methods)? {
        return Ok(false);
    }
    let tops = of_classes(alloc, w, methods)?;
    let tops = tops.as_slice();
    if tops.is_empty() {
        return Ok(true);
    }
    let first = tops[0];
    let found = is_any_unresolved(alloc, w, overrides, tops, first, c, methods)?;
    Ok(found)
}

/// Those of the methods that a class declares.
fn of_classes(alloc: Global, w: &World, methods: &[u32]) -> Result<Vec<u32>, NoMemory>
    ensures { IfOk result (λ v. (t : ℕ) → Contains v.items t ↔ IsTop w.now methods.now t) }
{
    let mut found = Vec::new(alloc);
    for t in methods {
        if is_of_class(w, *t) {
            found.push(*t)?;
        }
    }
    Ok(found)
}

/// Whether two of the methods have unlike results, and none of the tops overrides both. A pair of which the first of the tops overrides both is no such pair.
fn is_any_unresolved(
    alloc: Global,
    w: &World,
    overrides: &Overrides,
    tops: &[u32],
    first: u32,
    c: u32,
    methods: &[u32],
) -> Result<bool, NoMemory>
    requires sound { IsSound w.now }
    requires typed { HaveTypes w.now }
    requires overrides { HoldsOverrides w.now overrides.now }
    requires first { Contains tops.now first }
    ensures { IfOk result (λ r. IsTrue r ↔ HasUnresolved w.now c (Contains tops.now) methods.now) }
{
    for m in methods {
        if is_beside(alloc, w, overrides, tops, first, c, *m, methods)? {
            return Ok(true);
        }
    }
    Ok(false)
}

/// Whether the first of the tops does not override the method, and it and another are such a pair.
fn is_beside(
    alloc: Global,
    w: &World,
    overrides: &Overrides,
    tops: &[u32],
    first: u32,
    c: u32,
    m: u32,
    methods: &[u32],
) -> Result<bool, NoMemory>
    requires sound { IsSound w.now }
    requires typed { HaveTypes w.now }
    requires overrides { HoldsOverrides w.now overrides.now }
    ensures { IfOk result (λ r. IsTrue r ↔ ((Overriding w.now first m → ⊥) × IsUnresolvedWith w.now c (Contains tops.now) methods.now m)) }
{
    if overrides.overrides(first, m) {
        return Ok(false);
    }
    let found = is_unresolved(alloc, w, overrides, tops, c, m, methods)?;
    Ok(found)
}

fn is_unresolved(
    alloc: Global,
    w: &World,
    overrides: &Overrides,
    tops: &[u32],
    c: u32,
    m: u32,
    methods: &[u32],
) -> Result<bool, NoMemory>
    requires sound { IsSound w.now }
    requires typed { HaveTypes w.now }
    requires overrides { HoldsOverrides w.now overrides.now }
    ensures { IfOk result (λ r. IsTrue r ↔ IsUnresolvedWith w.now c (Contains tops.now) methods.now m) }
{
    for k in methods {
        if are_unresolved(alloc, w, overrides, tops, c, m, *k)? {
            return Ok(true);
        }
    }
    Ok(false)
}

fn are_unresolved(
    alloc: Global,
    w: &World,
    overrides: &Overrides,
    tops: &[u32],
    c: u32,
    m: u32,
    k: u32,
) -> Result<bool, NoMemory>
    requires sound { IsSound w.now }
    requires typed { HaveTypes w.now }
    requires overrides { HoldsOverrides w.now overrides.now }
    ensures { IfOk result (λ r. IsTrue r ↔ AreUnresolved w.now c (Contains tops.now) m k) }
{
    if are_overridden(overrides, tops, m, k) {
        return Ok(false);
    }
    let found = are_unlike(alloc, w, c, m, k)?;
    Ok(found)
}

/// Whether one of the tops overrides both.
fn are_overridden(overrides: &Overrides, tops: &[u32], m: u32, k: u32) -> bool
    ensures { (w : worlds.World) → HoldsOverrides w overrides.now → IsTrue result ↔ AreOverriddenBy w (Contains tops.now) m k }
{
    for t in tops {
        if overrides_both(overrides, *t, m, k) {
            return true;
        }
    }
    false
}

fn overrides_both(overrides: &Overrides, t: u32, m: u32, k: u32) -> bool
    ensures { (w : worlds.World) → HoldsOverrides w overrides.now → IsTrue result ↔ (Overriding w t m × Overriding w t k) }
{
    overrides.overrides(t, m) && overrides.overrides(t, k)
}

/// Whether the type sees the results of both methods, and they are unlike.
fn are_unlike(alloc: Global, w: &World, c: u32, m: u32, k: u32) -> Result<bool, NoMemory>
    requires sound { IsSound w.now }
    requires typed { HaveTypes w.now }
    ensures { IfOk result (λ r. IsTrue r ↔ AreUnlike w.now c m k) }
{
    match seen_result(alloc, w, c, m)? {
        Some(r) => {
            let unlike = has_unlike_result(alloc, w, c, k, &r)?;
            Ok(unlike)
        }
        None => Ok(false),
    }
}

/// Whether the type sees the result of the method, and this one is unlike it.
fn has_unlike_result(
    alloc: Global,
    w: &World,
    c: u32,
    k: u32,
    r: &Option<JavaType>,
) -> Result<bool, NoMemory>
    requires sound { IsSound w.now }
    requires typed { HaveTypes w.now }
    requires result { IsResult w.now r.now }
    ensures { IfOk result (λ u. IsTrue u ↔ ((q : Option types.JavaType) × HasResult w.now c k q × IsUnlike w.now r.now q)) }
{
    match seen_result(alloc, w, c, k)? {
        Some(q) => {
            let unlike = is_unlike(w, r, &q);
            Ok(unlike)
        }
        None => Ok(false),
    }
}

/// Whether two of the methods have unlike results, as the type sees them. Takes a few comparisons for each of them and each time that the list of their different results can be halved.
fn has_unlike(alloc: Global, w: &World, c: u32, methods: &[u32]) -> Result<bool, NoMemory>
    requires sound { IsSound w.now }
    requires typed { HaveTypes w.now }
    ensures { IfOk result (λ r. IsTrue r ↔ ((m : ℕ) × (k : ℕ) × Contains methods.now m × Contains methods.now k × AreUnlike w.now c m k)) }
{
    let mut results = Results::new(alloc);
    for m in methods {
        if add_result(alloc, w, c, *m, &mut results)? {
            return Ok(true);
        }
    }
    let found = results.has_unlike(w);
    Ok(found)
}

/// Tells whether one of the results, of the same sort, is unlike that of the method, if the type sees it, and else adds it.
fn add_result(
    alloc: Global,
    w: &World,
    c: u32,
    m: u32,
    results: &mut Results,
) -> Result<bool, NoMemory>
    requires sound { IsSound w.now }
    requires typed { HaveTypes w.now }
    requires kept { AreKept w.now results.old }
    ensures yes { IfOk result (λ u. IsTrue u → (r : Option types.JavaType) × (q : Option types.JavaType) × HasResult w.now c m r × IsAmong results.old q × IsUnlike w.now r q) }
    ensures no { IfOk result (λ u. (IsTrue u → ⊥) → AreKept w.now results.new × ((q : Option types.JavaType) → IsAmong results.new q ↔ (IsAmong results.old q ⊎ HasResult w.now c m q))) }
{
    match seen_result(alloc, w, c, m)? {
        Some(r) => results.add(w, r),
        None => Ok(false),
    }
}
