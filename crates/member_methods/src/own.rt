//! The methods that the types declare.

ghost use Rattle.std.specs.Prelude.{◌≡◌, ◌<◌, ◌≤◌, ◌^◌, ◌↔◌, ◌⊎◌, ℕ, Some, IfOk, OnOk, IsTrue, false, length, slice_get};
ghost use Rattle.std.specs.List.{Contains};
ghost use Rattle.class_world.specs.Inheritance.{IsPrivateMethod};
ghost use Rattle.member_methods.specs.Own.{AreGroups, AreOwn, ArePlaces, HasKey, IsInGroup, IsOwnerLimit};
ghost use Rattle.member_methods.specs.declared.own.Group as declared;

use class_world::{MethodInfo, World};
use java_tree::tree::Mod;
use java_tree::{Items, NoMemory};
use std::alloc::Global;
use std::collections::HashMap;

/// Methods of one key.
#[derive(Drop)]
pub(crate) struct Group {
    pub(crate) key: u32,
    pub(crate) methods: Items<u32>,
}

/// A number above those of all types and of all methods' owners.
pub(crate) fn owner_limit(w: &World) -> usize
    ensures limit { IsOwnerLimit w.now result }
    ensures few { length w.now.types < result → result ≤ 2 ^ 32 }
{
    let mut limit = w.types.len().max(1);
    for info in w.methods.as_slice() {
        limit = limit.max(info.owner as usize + 1);
    }
    limit
}

/// For each number below the limit the methods, without constructors, of the type with this number.
pub(crate) fn own_methods(
    alloc: Global,
    w: &World,
    limit: usize,
) -> Result<Vec<Items<u32>>, NoMemory>
    ensures { IfOk result (λ v. AreOwn w.now limit v.items) }
{
    if w.methods.len() > u32::MAX as usize {
        return Err(NoMemory);
    }
    let mut own = Vec::new(alloc);
    for _ in 0..limit {
        own.push(Items::new(alloc))?;
    }
    for m in 0..w.methods.len() {
        let info = &w.methods.as_slice()[m];
        let owner = info.owner as usize;
        if is_method(info) && owner < own.len() {
            own[owner].push(m as u32)?;
        }
    }
    Ok(own)
}

/// Whether it is no constructor.
fn is_method(info: &MethodInfo) -> bool
    ensures { IsTrue result ↔ (info.now.constructor ≡ false) }
{
    !info.constructor
}

/// Methods by their keys, each key once.
pub(crate) fn groups(alloc: Global, keyed: &[u32], own: &[u32]) -> Result<Vec<Group>, NoMemory>
    requires { (m : ℕ) → Contains own.now m → m < length keyed.now }
    ensures { IfOk result (λ v. AreGroups keyed.now own.now v.items) }
{
    let mut places = HashMap::new(alloc);
    let mut groups = Vec::new(alloc);
    for m in own {
        add_to_group(alloc, &mut places, &mut groups, keyed[*m as usize], *m)?;
    }
    Ok(groups)
}

/// Adds a method to the group of its key.
fn add_to_group(
    alloc: Global,
    places: &mut HashMap<u32, usize>,
    groups: &mut Vec<Group>,
    key: u32,
    m: u32,
) -> Result<(), NoMemory>
    requires { ArePlaces places.old groups.old.items }
    ensures places { OnOk result (ArePlaces places.new groups.new.items) }
    ensures keys { OnOk result ((i : ℕ) (g : declared.Group) → slice_get groups.new.items i ≡ Some g → (g.key ≡ key) ⊎ HasKey groups.old.items g.key) }
    ensures has { OnOk result ((q n : ℕ) → IsInGroup groups.new.items q n ↔ (IsInGroup groups.old.items q n ⊎ ((q ≡ key) × (n ≡ m)))) }
{
    match places.get(&key).copied() {
        Some(place) => groups[place].methods.push(m)?,
        None => {
            places.insert(key, groups.len())?;
            groups.push(Group {
                key,
                methods: Items::one(alloc, m)?,
            })?;
        }
    }
    Ok(())
}

fn is_private(w: &World, m: u32) -> bool
    ensures { IsTrue result ↔ IsPrivateMethod w.now m }
{
    match w.methods.get(m as usize) {
        Some(info) => info.mods.as_slice().contains(&Mod::Private),
        None => false,
    }
}

/// Whether one of the methods is private.
pub(crate) fn is_one_private(w: &World, methods: &[u32]) -> bool
    ensures { IsTrue result ↔ ((m : ℕ) × Contains methods.now m × IsPrivateMethod w.now m) }
{
    for m in methods {
        if is_private(w, *m) {
            return true;
        }
    }
    false
}

/// The methods that are not private.
pub(crate) fn without_private(
    alloc: Global,
    w: &World,
    methods: &[u32],
) -> Result<Vec<u32>, NoMemory>
    ensures { IfOk result (λ v. (m : ℕ) → Contains v.items m ↔ (Contains methods.now m × (IsPrivateMethod w.now m → ⊥))) }
{
    let mut open = Vec::new(alloc);
    for m in methods {
        if !is_private(w, *m) {
            open.push(*m)?;
        }
    }
    Ok(open)
}
