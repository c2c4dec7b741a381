//! The supertypes that classes declare (JLS 8.1.4, 8.1.5), compared with those in another world.

ghost use Rattle.std.specs.Prelude.{◌≡◌, ◌↔◌, ◌<◌, IsTrue, length};
ghost use Rattle.program_maps.specs.Ways.{goes_to};
ghost use Rattle.alike_order.specs.Supers.{AreKept, AreObject, IsAdded, IsKeptAs, IsOfAdded, IsOfClass, KeepAllSupers, KeepsSupers};

use class_world::{JavaType, World};
use program_maps::{Numbers, goes, is_one_to_one};

fn is_of_class(t: &JavaType, class: u32) -> bool
    ensures { IsTrue result ↔ IsOfClass t.now class }
{
    match t {
        JavaType::Class(c, _) => *c == class,
        _ => false,
    }
}

fn are_object(types: &[JavaType]) -> bool
    ensures { IsTrue result ↔ AreObject types.now }
{
    for t in types {
        if !is_of_class(t, 0) {
            return false;
        }
    }
    true
}

/// Whether a class of the new world is one to which none of the old one goes, with no supertype but Object.
fn is_added(new: &World, types: &Numbers, class: u32) -> bool
    ensures { IsTrue result ↔ IsAdded new.now types.now class }
{
    match types.back.get(class as usize) {
        None => false,
        Some(Some(_)) => false,
        Some(None) => match new.types.get(class as usize) {
            None => false,
            Some(info) => are_object(info.supers.as_slice()),
        },
    }
}

fn is_of_added(new: &World, types: &Numbers, t: &JavaType) -> bool
    ensures { IsTrue result ↔ IsOfAdded new.now types.now t.now }
{
    match t {
        JavaType::Class(c, _) => is_added(new, types, *c),
        _ => false,
    }
}

/// Whether the class of one type goes to that of another.
fn is_kept_as(types: &Numbers, s: &JavaType, t: &JavaType) -> bool
    ensures { IsTrue result ↔ IsKeptAs types.now s.now t.now }
{
    match s {
        JavaType::Class(c, _) => match t {
            JavaType::Class(d, _) => goes(types, *c, *d),
            _ => false,
        },
        _ => false,
    }
}

/// Where a number of the list goes.
pub(crate) fn image(types: &Numbers, class: u32) -> u32
    requires { class < length types.now.to }
    ensures { result ≡ goes_to types.now class }
{
    types.to.as_slice()[class as usize]
}

/// Whether types of the new world are those of the old one in their order, those of added classes left out.
fn are_kept(new: &World, types: &Numbers, before: &[JavaType], after: &[JavaType]) -> bool
    ensures { IsTrue result ↔ AreKept new.now types.now before.now after.now }
{
    let mut rest = before;
    for t in after {
        if is_of_added(new, types, t) {
            continue;
        }
        let Some((s, others)) = rest.split_first() else {
            return false;
        };
        if !is_kept_as(types, s, t) {
            return false;
        }
        rest = others;
    }
    rest.is_empty()
}

/// Whether a class declares the supertypes that it had, and maybe added ones.
fn keeps_supers(old: &World, new: &World, types: &Numbers, class: u32) -> bool
    requires { class < length types.now.to }
    ensures { IsTrue result ↔ KeepsSupers old.now new.now types.now class }
{
    let Some(before) = old.types.get(class as usize) else {
        return false;
    };
    match new.types.get(image(types, class) as usize) {
        None => false,
        Some(after) => are_kept(
            new,
            types,
            before.supers.as_slice(),
            after.supers.as_slice(),
        ),
    }
}

/// Whether the map is one-to-one, and each class declares the supertypes that it had, and maybe added ones. Takes no memory.
pub(crate) fn keep_all_supers(old: &World, new: &World, types: &Numbers, count: u32) -> bool
    requires { count ≡ length types.now.to }
    ensures { IsTrue result ↔ KeepAllSupers old.now new.now types.now count }
{
    if !is_one_to_one(types) {
        return false;
    }
    for class in 0..count {
        if !keeps_supers(old, new, types, class) {
            return false;
        }
    }
    true
}
