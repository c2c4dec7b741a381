//! DR18: a class that is not abstract lacks the body of a method.

ghost use Rattle.std.specs.Prelude.{ℕ, ◌↔◌, IsTrue, IfOk, IfSome};
ghost use Rattle.std.specs.List.{Contains};
ghost use Rattle.std.specs.List.Sorted.{IsStrictlyIncreasing};
ghost use Rattle.class_world.specs.Inheritance.{IsMemberMethod};
ghost use Rattle.class_world.specs.Overriding.{Overriding};
ghost use Rattle.class_world.specs.Sound.{IsKnown, IsSound};
ghost use Rattle.class_world.specs.Typed.{HaveTypes};
ghost use Rattle.member_methods.specs.Methods.{AreMembers, HoldsMethods};
ghost use Rattle.overrides.specs.Overrides.{HoldsOverrides};
ghost use Rattle.inherited_rules.specs.Rules.{IsAbstractMethod, IsConcrete, LacksBody};
ghost use Rattle.inherited_rules.specs.Parts.{HasBodies, IsBodyOf, IsUnmet};

use crate::methods::{ascending, is_abstract};
use class_world::World;
use java_tree::NoMemory;
use java_tree::tree::Mod;
use member_methods::MethodLists;
use numbered_methods::NumberedMethods;
use overrides::Overrides;
use seen_methods::method_of;
use std::alloc::Global;

/// So many methods of one name and number of parameters are asked one by one.
const FEW: usize = 4;

/// Whether the type is a concrete class with an abstract member that no member with a body overrides. Takes time for the members. Where an abstract one has more than four members of its name and number of parameters beside it, those with bodies are numbered by their signatures, once, and an abstract one asks those of its own signature; else it asks those few, which takes no memory.
pub(crate) fn lacks_body(
    alloc: Global,
    w: &World,
    lists: &MethodLists,
    overrides: &Overrides,
    c: u32,
    members: &[u32],
) -> Result<bool, NoMemory>
    requires sound { IsSound w.now }
    requires typed { HaveTypes w.now }
    requires known { IsKnown w.now c }
    requires lists { HoldsMethods w.now lists.now }
    requires overrides { HoldsOverrides w.now overrides.now }
    requires members { AreMembers w.now c members.now }
    ensures { IfOk result (λ r. IsTrue r ↔ LacksBody w.now c) }
{
    if !is_concrete(w, c) {
        return Ok(false);
    }
    let bodies = numbered_bodies(alloc, w, lists, c, members)?;
    let found = is_any_unmet(alloc, w, lists, overrides, &bodies, c, members)?;
    Ok(found)
}

fn is_concrete(w: &World, c: u32) -> bool
    ensures { IsTrue result ↔ IsConcrete w.now c }
{
    match w.types.get(c as usize) {
        Some(info) => !info.interface && !info.mods.as_slice().contains(&Mod::Abstract),
        None => false,
    }
}

/// The members with bodies, where an abstract one has many beside it.
fn numbered_bodies(
    alloc: Global,
    w: &World,
    lists: &MethodLists,
    c: u32,
    members: &[u32],
) -> Result<Option<NumberedMethods>, NoMemory>
    requires sound { IsSound w.now }
    requires members { AreMembers w.now c members.now }
    ensures { IfOk result (λ o. IfSome o (HasBodies w.now c)) }
{
    if !has_many_beside(w, lists, c, members) {
        return Ok(None);
    }
    let bodies = with_bodies(alloc, w, members)?;
    let numbered = NumberedMethods::of(alloc, w, c, bodies.as_slice())?;
    Ok(Some(numbered))
}

/// Whether an abstract one of the members has many of its name and number of parameters beside it. It settles only which way is taken.
fn has_many_beside(w: &World, lists: &MethodLists, c: u32, members: &[u32]) -> bool {
    for m in members {
        if is_abstract(w, *m) && are_many(w, lists, c, *m) {
            return true;
        }
    }
    false
}

fn are_many(w: &World, lists: &MethodLists, c: u32, m: u32) -> bool {
    match method_of(w, m) {
        Some(info) => lists.named(c, info.name, info.params.len()).len() > FEW,
        None => false,
    }
}

/// Those of the methods that are not abstract, ascending.
fn with_bodies(alloc: Global, w: &World, methods: &[u32]) -> Result<Vec<u32>, NoMemory>
    ensures has { IfOk result (λ v. (k : ℕ) → Contains v.items k ↔ (Contains methods.now k × (IsAbstractMethod w.now k → ⊥))) }
    ensures ascending { IfOk result (λ v. IsStrictlyIncreasing v.items) }
{
    let mut found = Vec::new(alloc);
    for k in methods {
        if !is_abstract(w, *k) {
            found.push(*k)?;
        }
    }
    Ok(ascending(found))
}

/// Whether one of the type's members is abstract, and no member with a body overrides it.
fn is_any_unmet(
    alloc: Global,
    w: &World,
    lists: &MethodLists,
    overrides: &Overrides,
    bodies: &Option<NumberedMethods>,
    c: u32,
    members: &[u32],
) -> Result<bool, NoMemory>
    requires sound { IsSound w.now }
    requires typed { HaveTypes w.now }
    requires known { IsKnown w.now c }
    requires lists { HoldsMethods w.now lists.now }
    requires overrides { HoldsOverrides w.now overrides.now }
    requires bodies { IfSome bodies.now (HasBodies w.now c) }
    requires members { AreMembers w.now c members.now }
    ensures { IfOk result (λ r. IsTrue r ↔ ((m : ℕ) × IsMemberMethod w.now c m × IsUnmet w.now c m)) }
{
    for m in members {
        if is_unmet(alloc, w, lists, overrides, bodies, c, *m)? {
            return Ok(true);
        }
    }
    Ok(false)
}

fn is_unmet(
    alloc: Global,
    w: &World,
    lists: &MethodLists,
    overrides: &Overrides,
    bodies: &Option<NumberedMethods>,
    c: u32,
    m: u32,
) -> Result<bool, NoMemory>
    requires sound { IsSound w.now }
    requires typed { HaveTypes w.now }
    requires known { IsKnown w.now c }
    requires lists { HoldsMethods w.now lists.now }
    requires overrides { HoldsOverrides w.now overrides.now }
    requires bodies { IfSome bodies.now (HasBodies w.now c) }
    requires member { IsMemberMethod w.now c m }
    ensures { IfOk result (λ r. IsTrue r ↔ IsUnmet w.now c m) }
{
    if !is_abstract(w, m) {
        return Ok(false);
    }
    let has_body = has_body(alloc, w, lists, overrides, bodies, c, m)?;
    Ok(!has_body)
}

/// Whether a member of the type has a body and overrides the method, which is a member too. The two have one signature in the type.
fn has_body(
    alloc: Global,
    w: &World,
    lists: &MethodLists,
    overrides: &Overrides,
    bodies: &Option<NumberedMethods>,
    c: u32,
    m: u32,
) -> Result<bool, NoMemory>
    requires sound { IsSound w.now }
    requires typed { HaveTypes w.now }
    requires known { IsKnown w.now c }
    requires lists { HoldsMethods w.now lists.now }
    requires overrides { HoldsOverrides w.now overrides.now }
    requires bodies { IfSome bodies.now (HasBodies w.now c) }
    requires member { IsMemberMethod w.now c m }
    ensures { IfOk result (λ r. IsTrue r ↔ ((k : ℕ) × IsBodyOf w.now c m k)) }
{
    match bodies {
        Some(table) => {
            let alike = table.alike(alloc, w, m)?;
            Ok(is_one_body(w, overrides, m, alike))
        }
        None => Ok(has_named_body(w, lists, overrides, c, m)),
    }
}

/// The same, asked of all members of the method's name and number of parameters.
fn has_named_body(w: &World, lists: &MethodLists, overrides: &Overrides, c: u32, m: u32) -> bool
    requires lists { HoldsMethods w.now lists.now }
    requires overrides { HoldsOverrides w.now overrides.now }
    ensures { IsTrue result ↔ ((k : ℕ) × IsBodyOf w.now c m k) }
{
    let Some(info) = method_of(w, m) else {
        return false;
    };
    let named = lists.named(c, info.name, info.params.len());
    is_one_body(w, overrides, m, named)
}

/// Whether one of the methods has a body and overrides the method.
fn is_one_body(w: &World, overrides: &Overrides, m: u32, methods: &[u32]) -> bool
    requires { HoldsOverrides w.now overrides.now }
    ensures { IsTrue result ↔ ((k : ℕ) × Contains methods.now k × (IsAbstractMethod w.now k → ⊥) × Overriding w.now k m) }
{
    for k in methods {
        if !is_abstract(w, *k) && overrides.overrides(*k, m) {
            return true;
        }
    }
    false
}
