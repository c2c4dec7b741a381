//! One method over another, as a type sees both (JLS 3rd edition, 8.4.3.3, 8.4.5 and 8.4.8.1 to 8.4.8.3).

ghost use Rattle.std.specs.Prelude.{◌≡◌, ℕ, ◌↔◌, ◌⊎◌, IsTrue, IfOk, IfSome, IfNone};
ghost use Rattle.class_world.specs.Types.{IsReference};
ghost use Rattle.class_world.specs.Subtypes.{Subtype};
ghost use Rattle.class_world.specs.Sound.{IsOfWorld, IsSound};
ghost use Rattle.override_rules.specs.Judged.{HasAccess, HasKnownOwner, IsLowest, ResultIsOfWorld};
ghost use Rattle.override_rules.specs.Rules.{Breaks, BreaksResult, HasMod, IsWeaker, Suits};
ghost use Rattle.override_rules.specs.Rules as spec;
ghost use Rattle.class_world.specs.Typed.{HaveTypes};

use crate::throwing::throws_more;
use class_world::{JavaType, World, is_same, is_sub};
use java_tree::NoMemory;
use java_tree::tree::Mod;
use seen_methods::{is_reference, method_of, seen_result};
use std::alloc::Global;

pub(crate) fn has_mod(w: &World, m: u32, modifier: Mod) -> bool
    ensures { IsTrue result ↔ HasMod w.now m modifier }
{
    match method_of(w, m) {
        Some(info) => info.mods.as_slice().contains(&modifier),
        None => false,
    }
}

// ---- results

/// Whether the types are the same, or the first is a reference type below the other.
fn is_type_or_below(w: &World, s: &JavaType, t: &JavaType) -> bool
    requires sound { IsSound w.now }
    requires types { IsOfWorld w.now s.now × IsOfWorld w.now t.now }
    ensures { IsTrue result ↔ ((s.now ≡ t.now) ⊎ (IsReference s.now × Subtype w.now s.now t.now)) }
{
    is_same(s, t) || (is_reference(s) && is_sub(w, s, t))
}

/// Whether a result may stand in the place of another (JLS 8.4.5); `None` is void.
fn suits(w: &World, s: &Option<JavaType>, t: &Option<JavaType>) -> bool
    requires sound { IsSound w.now }
    requires types { ResultIsOfWorld w.now s.now × ResultIsOfWorld w.now t.now }
    ensures { IsTrue result ↔ Suits w.now s.now t.now }
{
    match s {
        None => t.is_none(),
        Some(s) => match t {
            None => false,
            Some(t) => is_type_or_below(w, s, t),
        },
    }
}

fn breaks_result(alloc: Global, w: &World, c: u32, m: u32, k: u32) -> Result<bool, NoMemory>
    requires sound { IsSound w.now }
    requires typed { HaveTypes w.now }
    ensures { IfOk result (λ r. IsTrue r ↔ BreaksResult w.now c m k) }
{
    let Some(low) = seen_result(alloc, w, c, m)? else {
        return Ok(false);
    };
    let Some(high) = seen_result(alloc, w, c, k)? else {
        return Ok(false);
    };
    Ok(!suits(w, &low, &high))
}

// ---- access

/// How far a member is accessible: private 0, in its package 1, protected 2, public 3.
fn access(interface: bool, mods: &[Mod]) -> u8
    ensures { result ≡ spec.access interface mods.now }
{
    if interface || mods.contains(&Mod::Public) {
        3
    } else if mods.contains(&Mod::Protected) {
        2
    } else if mods.contains(&Mod::Private) {
        0
    } else {
        1
    }
}

/// How far a method is accessible; `None` where no type declares it.
fn access_of(w: &World, m: u32) -> Option<u8>
    ensures some { IfSome result (λ level. HasAccess w.now m level) }
    ensures none { IfNone result ((level : ℕ) → HasAccess w.now m level → ⊥) }
{
    match method_of(w, m) {
        Some(info) => match w.types.get(info.owner as usize) {
            Some(owner) => Some(access(owner.interface, info.mods.as_slice())),
            None => None,
        },
        None => None,
    }
}

fn is_weaker(w: &World, m: u32, k: u32) -> bool
    ensures { IsTrue result ↔ IsWeaker w.now m k }
{
    match access_of(w, m) {
        Some(low) => match access_of(w, k) {
            Some(high) => low < high,
            None => false,
        },
        None => false,
    }
}

// ---- all rules

/// The lowest number of a rule that `m` breaks over `k`, as the type `c` sees both.
pub(crate) fn lowest_broken(
    alloc: Global,
    w: &World,
    c: u32,
    m: u32,
    k: u32,
) -> Result<Option<u8>, NoMemory>
    requires sound { IsSound w.now }
    requires typed { HaveTypes w.now }
    requires owners { HasKnownOwner w.now m × HasKnownOwner w.now k }
    ensures { IfOk result (λ o. IsLowest (Breaks w.now c m k) o) }
{
    if has_mod(w, m, Mod::Static) != has_mod(w, k, Mod::Static) {
        return Ok(Some(17));
    }
    if breaks_result(alloc, w, c, m, k)? {
        return Ok(Some(13));
    }
    if is_weaker(w, m, k) {
        return Ok(Some(14));
    }
    if throws_more(alloc, w, m, k)? {
        return Ok(Some(15));
    }
    if has_mod(w, k, Mod::Final) {
        return Ok(Some(16));
    }
    Ok(None)
}
