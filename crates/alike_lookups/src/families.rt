//! Families of methods that are found as a whole: where all their methods have one list of parameter types without type variables, it is enough to look at the classes that declare one of them.

ghost use Rattle.std.specs.Prelude.{◌≡◌, ℕ, ◌<◌, true, length, IsTrue};
ghost use Rattle.std.specs.List.{Contains};
ghost use Rattle.program_maps.specs.Ways.{goes_to};
ghost use Rattle.running_code.specs.Running.{IsReady};
ghost use Rattle.alike_lookups.specs.Lookups.{IsWhole, sides};
ghost use Rattle.alike_lookups.specs.Families.{AreUpsKept, DeclaresOf, FamilyFindsAlike, IsCovered, IsFoundAt, IsFoundWhereDeclared, IsMemberAlike, IsStandIn};

use crate::looks::is_fixed;
use crate::places::{image, source};
use crate::plain::{are_like, are_of_one_family};
use program_maps::{Map, goes};
use running_code::Running;
use seen_methods::{is_class, method_of};

/// Whether both programs find a method on objects of one class, the new one that to which the old one's goes.
fn is_found_at(
    old: &Running<'_>,
    new: &Running<'_>,
    map: &Map,
    method: u32,
    other: u32,
    class: u32,
) -> bool
    requires old { IsReady old.now }
    requires new { IsReady new.now }
    ensures { IsTrue result → IsFoundAt (sides old.now new.now map.now true) method other class }
{
    let Some(to) = image(&map.types, class) else {
        return false;
    };
    let Some(before) = old.members.lookup(class, method) else {
        return false;
    };
    let Some(after) = new.members.lookup(to, other) else {
        return false;
    };
    goes(&map.methods, before, after)
}

fn is_found_where_declared(
    old: &Running<'_>,
    new: &Running<'_>,
    map: &Map,
    method: u32,
    other: u32,
    member: u32,
) -> bool
    requires old { IsReady old.now }
    requires new { IsReady new.now }
    ensures { IsTrue result → IsFoundWhereDeclared (sides old.now new.now map.now true) method other member }
{
    let Some(info) = method_of(old.world, member) else {
        return true;
    };
    !is_class(old.world, info.owner) || is_found_at(old, new, map, method, other, info.owner)
}

/// Whether a method of the old family goes to one of the new family, and both programs find the same where it is declared.
fn is_member_alike(
    old: &Running<'_>,
    new: &Running<'_>,
    map: &Map,
    method: u32,
    other: u32,
    member: u32,
) -> bool
    requires old { IsReady old.now }
    requires new { IsReady new.now }
    ensures { IsTrue result → IsMemberAlike (sides old.now new.now map.now true) method other member }
{
    let Some(to) = image(&map.methods, member) else {
        return false;
    };
    if is_fixed(old.world, member) || is_fixed(new.world, to) {
        return false;
    }
    are_of_one_family(new, other, to)
        && is_found_where_declared(old, new, map, method, other, member)
}

fn are_members_alike(
    old: &Running<'_>,
    new: &Running<'_>,
    map: &Map,
    method: u32,
    other: u32,
    family: &[u32],
) -> bool
    requires old { IsReady old.now }
    requires new { IsReady new.now }
    ensures { IsTrue result → (j : ℕ) → Contains family.now j → IsMemberAlike (sides old.now new.now map.now true) method other j }
{
    for member in family {
        if !is_member_alike(old, new, map, method, other, *member) {
            return false;
        }
    }
    true
}

/// Whether a class of the old program declares a method of a family, which is no fixed one.
fn declares_of(old: &Running<'_>, method: u32, class: u32) -> bool
    requires { IsReady old.now }
    ensures { IsTrue result → DeclaresOf old.now.world.now method class }
{
    if is_fixed(old.world, method) {
        return false;
    }
    let Some(found) = old.members.lookup(class, method) else {
        return false;
    };
    match method_of(old.world, found) {
        Some(info) => info.owner == class,
        None => false,
    }
}

/// Whether a class that declares a method of the new family is a new one, or declares a method of the old family in the old program.
fn is_covered(old: &Running<'_>, new: &Running<'_>, map: &Map, method: u32, member: u32) -> bool
    requires old { IsReady old.now }
    requires whole { IsWhole old.now.world.now new.now.world.now map.now }
    ensures { IsTrue result → IsCovered (sides old.now new.now map.now true) method member }
{
    let Some(info) = method_of(new.world, member) else {
        return true;
    };
    if !is_class(new.world, info.owner) {
        return true;
    }
    match source(&map.types, info.owner) {
        Some(class) => declares_of(old, method, class),
        None => true,
    }
}

fn are_covered(old: &Running<'_>, new: &Running<'_>, map: &Map, method: u32, family: &[u32]) -> bool
    requires old { IsReady old.now }
    requires whole { IsWhole old.now.world.now new.now.world.now map.now }
    ensures { IsTrue result → (k : ℕ) → Contains family.now k → IsCovered (sides old.now new.now map.now true) method k }
{
    for member in family {
        if !is_covered(old, new, map, method, *member) {
            return false;
        }
    }
    true
}

/// Whether the family of a method is found as a whole: a look at each of its methods in both programs.
pub(crate) fn is_family_alike(old: &Running<'_>, new: &Running<'_>, map: &Map, method: u32) -> bool
    requires old { IsReady old.now }
    requires new { IsReady new.now }
    requires whole { IsWhole old.now.world.now new.now.world.now map.now }
    requires ups { AreUpsKept (sides old.now new.now map.now true) }
    requires method { method < length old.now.world.now.methods }
    ensures { IsTrue result → FamilyFindsAlike (sides old.now new.now map.now true) method }
{
    let Some(to) = image(&map.methods, method) else {
        return false;
    };
    if to as usize >= new.world.methods.len() {
        return false;
    }
    let family = old.members.family(method);
    let family_new = new.members.family(to);
    if !are_like(old.world, family, method) {
        return false;
    }
    if !are_like(new.world, family_new, to) {
        return false;
    }
    if !are_members_alike(old, new, map, method, to, family) {
        return false;
    }
    are_covered(old, new, map, method, family_new)
}

/// Whether another method of the new program is of the family of that to which a method goes, which answers as a whole. Then it finds the same.
pub(crate) fn is_of_same_family(new: &Running<'_>, map: &Map, method: u32, other: u32) -> bool
    requires new { IsReady new.now }
    ensures { IsTrue result → IsStandIn new.now.world.now (goes_to map.now.methods method) other }
{
    let Some(to) = image(&map.methods, method) else {
        return false;
    };
    if is_fixed(new.world, to)
        || is_fixed(new.world, other)
        || other as usize >= new.world.methods.len()
    {
        return false;
    }
    are_of_one_family(new, other, to) && are_like(new.world, new.members.family(other), other)
}
