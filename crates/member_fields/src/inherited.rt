//! What the types directly above a class hand down to it (JLS 3rd edition, 8.3 and 9.2).

ghost use Rattle.std.specs.Prelude.{◌≡◌, ℕ, ◌<◌, ◌↔◌, ◌⊎◌, true, List, [], IsTrue, IfOk, OnOk, Contains};
ghost use Rattle.class_world.specs.declared.world.JavaType.{JavaType};
ghost use Rattle.class_world.specs.declared.world.JavaType.TheVariants as ty;
ghost use Rattle.class_world.specs.Sound.{IsSound};
ghost use Rattle.shared_maps.specs.Maps.{KeepsMaps};
ghost use Rattle.member_fields.specs.Sums.{HandsDown, HasMap, IsAbove, IsHanded, IsHandedBy, Sums};

use crate::values::merged;
use class_world::{JavaType, TypeInfo, World};
use java_tree::NoMemory;
use shared_maps::{Map, SharedMaps};
use std::alloc::Global;

/// The map of the fields that the classes directly above a class hand down. `handed` has what each of them hands down, by its number.
///
/// Takes time for what each of them does not share with all others, times how often their number can be halved.
pub(crate) fn inherited(
    alloc: Global,
    maps: &mut SharedMaps,
    w: &World,
    handed: &[Map],
    c: u32,
) -> Result<Map, NoMemory>
    requires sound { IsSound w.now }
    requires above { (s : ℕ) → IsAbove w.now c s → HasMap maps.old handed.now (HandsDown w.now s) s }
    ensures inherits { IfOk result (λ r. Sums maps.new (IsHanded w.now c) r) }
    ensures kept { IfOk result (λ _. KeepsMaps maps.old maps.new) }
{
    let above = classes_above(alloc, w, c)?;
    merged_all(alloc, maps, w, handed, &above)
}

/// The map of what these classes hand down.
///
/// They are halved, so that what one of them alone has is looked at only as often as their number can be halved.
fn merged_all(
    alloc: Global,
    maps: &mut SharedMaps,
    w: &World,
    handed: &[Map],
    classes: &[u32],
) -> Result<Map, NoMemory>
    requires { (s : ℕ) → Contains classes.now s → HasMap maps.old handed.now (HandsDown w.now s) s }
    ensures sums { IfOk result (λ r. Sums maps.new (IsHandedBy w.now classes.now) r) }
    ensures kept { IfOk result (λ _. KeepsMaps maps.old maps.new) }
{
    let Some((first, others)) = classes.split_first() else {
        return Ok(maps.empty());
    };
    if others.is_empty() {
        return Ok(handed[*first as usize]);
    }
    let (left, right) = classes.split_at(classes.len() - classes.len() / 2);
    let map = merged_all(alloc, maps, w, handed, left)?;
    let more = merged_all(alloc, maps, w, handed, right)?;
    merged(alloc, maps, map, more)
}

/// The classes directly above a class.
fn classes_above(alloc: Global, w: &World, c: u32) -> Result<Vec<u32>, NoMemory>
    requires { IsSound w.now }
    ensures { IfOk result (λ v. (s : ℕ) → Contains v.items s ↔ IsAbove w.now c s) }
{
    let mut above = Vec::new(alloc);
    let Some(info) = w.types.get(c as usize) else {
        return Ok(above);
    };
    if is_under_object(info, c) {
        above.push(0)?;
    }
    for t in info.supers.as_slice() {
        add_class_of(t, &mut above)?;
    }
    Ok(above)
}

/// Whether Object is directly above a type that declares no supertype.
fn is_under_object(info: &TypeInfo, c: u32) -> bool
    ensures { IsTrue result ↔ ((info.now.interface ≡ true) × (info.now.supers ≡ []) × (c ≡ 0 → ⊥)) }
{
    info.interface && info.supers.is_empty() && c != 0
}

fn add_class_of(t: &JavaType, classes: &mut Vec<u32>) -> Result<(), NoMemory>
    ensures { OnOk result ((s : ℕ) → Contains classes.new.items s ↔ (Contains classes.old.items s ⊎ ((args : List JavaType) × (t.now ≡ ty.Class s args)))) }
{
    if let JavaType::Class(s, _) = t {
        classes.push(*s)?;
    }
    Ok(())
}
