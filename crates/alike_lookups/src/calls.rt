//! All calls of two programs.

ghost use Rattle.std.specs.Prelude.{◌≡◌, ℕ, ◌<◌, IsTrue, length};
ghost use Rattle.running_code.specs.Running.{IsReady};
ghost use Rattle.std.specs.List.{Contains};
ghost use Rattle.program_maps.specs.Ways.{goes_to};
ghost use Rattle.alike_lookups.specs.Families.{AreUpsKept, FamilyFindsAlike};
ghost use Rattle.alike_lookups.specs.Lookups.{AllFindAlike, CallsFoundTold, FindsAlike, IsWhole, OthersFindAlike, sides};

use crate::classes::are_ups_kept;
use crate::families::{is_family_alike, is_of_same_family};
use crate::looks::finds_alike;
use crate::places::image;
use crate::plain::is_later;
use java_tree::Items;
use program_maps::{Map, goes, is_one_to_one};
use running_code::Running;

/// Whether the map has a place for each type and method of both programs, and leads each type back.
fn is_whole(old: &Running<'_>, new: &Running<'_>, map: &Map) -> bool
    ensures { IsTrue result → IsWhole old.now.world.now new.now.world.now map.now }
{
    map.types.to.len() == old.world.types.len()
        && map.types.back.len() == new.world.types.len()
        && map.methods.to.len() == old.world.methods.len()
        && map.methods.back.len() == new.world.methods.len()
        && is_one_to_one(&map.types)
}

/// Whether each method of a list finds as the one that it goes to does: two look-ups for each of them and each class.
fn each_finds_alike(
    old: &Running<'_>,
    new: &Running<'_>,
    map: &Map,
    strict: bool,
    methods: &[u32],
) -> bool
    requires old { IsReady old.now }
    requires new { IsReady new.now }
    requires whole { IsWhole old.now.world.now new.now.world.now map.now }
    ensures { IsTrue result → (j : ℕ) → Contains methods.now j → FindsAlike (sides old.now new.now map.now strict) j (goes_to map.now.methods j) }
{
    for method in methods {
        let Some(to) = image(&map.methods, *method) else {
            return false;
        };
        if !finds_alike(old, new, map, strict, *method, to) {
            return false;
        }
    }
    true
}

/// Whether each method of a family finds as the one that it goes to does. Families that are not found as a whole are looked at class by class.
fn family_finds_alike(
    old: &Running<'_>,
    new: &Running<'_>,
    map: &Map,
    strict: bool,
    method: u32,
) -> bool
    requires old { IsReady old.now }
    requires new { IsReady new.now }
    requires whole { IsWhole old.now.world.now new.now.world.now map.now }
    requires ups { AreUpsKept (sides old.now new.now map.now strict) }
    requires method { method < length old.now.world.now.methods }
    ensures { IsTrue result → FamilyFindsAlike (sides old.now new.now map.now strict) method }
{
    if is_family_alike(old, new, map, method) {
        return true;
    }
    each_finds_alike(old, new, map, strict, old.members.family(method))
}

/// So, where it is so for all methods with lower numbers. A family is looked at once, at its first method.
fn is_next_alike(old: &Running<'_>, new: &Running<'_>, map: &Map, strict: bool, method: u32) -> bool
    requires old { IsReady old.now }
    requires new { IsReady new.now }
    requires whole { IsWhole old.now.world.now new.now.world.now map.now }
    requires ups { AreUpsKept (sides old.now new.now map.now strict) }
    requires method { method < length old.now.world.now.methods }
    ensures { IsTrue result → ((k : ℕ) → k < method → FamilyFindsAlike (sides old.now new.now map.now strict) k) → FamilyFindsAlike (sides old.now new.now map.now strict) method }
{
    if is_later(old, method) {
        return true;
    }
    family_finds_alike(old, new, map, strict, method)
}

fn all_find_alike(old: &Running<'_>, new: &Running<'_>, map: &Map, strict: bool) -> bool
    requires old { IsReady old.now }
    requires new { IsReady new.now }
    requires whole { IsWhole old.now.world.now new.now.world.now map.now }
    requires ups { AreUpsKept (sides old.now new.now map.now strict) }
    ensures { IsTrue result → AllFindAlike (sides old.now new.now map.now strict) }
{
    let Ok(count) = u32::try_from(old.world.methods.len()) else {
        return false;
    };
    for method in 0..count {
        if !is_next_alike(old, new, map, strict, method) {
            return false;
        }
    }
    true
}

/// Whether another method of the new program finds what a method finds in the old one, where the one that it goes to does.
fn other_finds_alike(
    old: &Running<'_>,
    new: &Running<'_>,
    map: &Map,
    strict: bool,
    method: u32,
    other: u32,
) -> bool
    requires old { IsReady old.now }
    requires new { IsReady new.now }
    requires whole { IsWhole old.now.world.now new.now.world.now map.now }
    ensures { IsTrue result → AllFindAlike (sides old.now new.now map.now strict) → FindsAlike (sides old.now new.now map.now strict) method other }
{
    if goes(&map.methods, method, other) {
        return true;
    }
    if is_of_same_family(new, map, method, other) {
        return true;
    }
    finds_alike(old, new, map, strict, method, other)
}

fn others_find_alike(
    old: &Running<'_>,
    new: &Running<'_>,
    map: &Map,
    others: &[Option<u32>],
    strict: bool,
) -> bool
    requires old { IsReady old.now }
    requires new { IsReady new.now }
    requires whole { IsWhole old.now.world.now new.now.world.now map.now }
    ensures { IsTrue result → AllFindAlike (sides old.now new.now map.now strict) → OthersFindAlike (sides old.now new.now map.now strict) others.now }
{
    let Ok(count) = u32::try_from(others.len()) else {
        return false;
    };
    for method in 0..count {
        if let Some(other) = others[method as usize] {
            if !other_finds_alike(old, new, map, strict, method, other) {
                return false;
            }
        }
    }
    true
}

/// Whether each call finds in the new program the method that it finds in the old one, through the map, on objects of every class; and so a call of a method in whose stead another one of the new program may be called (`others`, by the old method's number). Unless `strict`, nothing is asked where the old program finds none.
pub fn calls_found(
    old: &Running<'_>,
    new: &Running<'_>,
    map: &Map,
    others: &Items<Option<u32>>,
    strict: bool,
) -> bool
    requires old { IsReady old.now }
    requires new { IsReady new.now }
    ensures { IsTrue result → CallsFoundTold old.now new.now map.now others.now strict }
{
    if !is_whole(old, new, map) {
        return false;
    }
    if !are_ups_kept(old.world, new.world, &map.types) {
        return false;
    }
    if !all_find_alike(old, new, map, strict) {
        return false;
    }
    others_find_alike(old, new, map, others.as_slice(), strict)
}
