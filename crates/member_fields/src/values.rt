//! What a map has at a name: nothing for no field, 0 for several fields, and for just one its number and 1.

ghost use Rattle.std.specs.Prelude.{◌≡◌, ℕ, ◌<◌, ◌^◌, ◌∷◌, [], Option, length, slice_get, IfOk};
ghost use Rattle.std.specs.List.{fold};
ghost use Rattle.shared_maps.specs.Maps.{IsMap, value_in};
ghost use Rattle.member_fields.specs.Values.{Changes, several_at, without_at, with_at};
ghost use Rattle.member_fields.specs.Values as spec;

use class_world::World;
use java_tree::NoMemory;
use java_tree::tree::Mod;
use shared_maps::{Map, SharedMaps};
use std::alloc::Global;

/// The value for the fields of two values together.
pub(crate) fn joined(a: Option<u32>, b: Option<u32>) -> Option<u32>
    ensures { result ≡ spec.joined a b }
{
    let Some(x) = a else {
        return b;
    };
    match b {
        None => a,
        Some(y) => { if x == y { a } else { Some(0) } }
    }
}

/// The map that has the fields of two maps. Takes time for what the two do not share: for the nodes of both trees where both have keys and do not share the node, and for the names at which the two maps have different values.
pub(crate) fn merged(alloc: Global, maps: &mut SharedMaps, a: Map, b: Map) -> Result<Map, NoMemory>
    requires first { IsMap maps.old a }
    requires second { IsMap maps.old b }
    ensures { IfOk result (λ r. Changes maps.old maps.new a (λ k v. spec.joined v (value_in maps.old b k)) r) }
{
    let different = maps.differing(alloc, a, b)?;
    let both = maps.union(a, b)?;
    with_several(maps, different.as_slice(), both)
}

/// The map with several fields of each of some names.
fn with_several(maps: &mut SharedMaps, names: &[u32], start: Map) -> Result<Map, NoMemory>
    requires { IsMap maps.old start }
    ensures { IfOk result (λ r. Changes maps.old maps.new start (λ k v. fold (several_at k) v names.now) r) }
{
    let mut map = start;
    for name in names {
        map = with_several_of(maps, *name, map)?;
    }
    Ok(map)
}

/// Leaves a map that has several fields of the name as it is, so that it shares what it has with others.
fn with_several_of(maps: &mut SharedMaps, name: u32, map: Map) -> Result<Map, NoMemory>
    requires { IsMap maps.old map }
    ensures { IfOk result (λ r. Changes maps.old maps.new map (λ k v. several_at k v name) r) }
{
    match maps.get(map, name) {
        Some(0) => Ok(map),
        _ => maps.put(map, name, Some(0)),
    }
}

/// The map without the names of some fields.
pub(crate) fn without_names(
    maps: &mut SharedMaps,
    w: &World,
    fields: &[u32],
    start: Map,
) -> Result<Map, NoMemory>
    requires { IsMap maps.old start }
    ensures { IfOk result (λ r. Changes maps.old maps.new start (λ k v. fold (without_at w.now k) v fields.now) r) }
{
    let mut map = start;
    for f in fields {
        map = without_name(maps, w, *f, map)?;
    }
    Ok(map)
}

fn without_name(maps: &mut SharedMaps, w: &World, f: u32, map: Map) -> Result<Map, NoMemory>
    requires { IsMap maps.old map }
    ensures { IfOk result (λ r. Changes maps.old maps.new map (λ k v. without_at w.now k v f) r) }
{
    match w.fields.get(f as usize) {
        None => Ok(map),
        Some(info) => maps.put(map, info.name.0, None),
    }
}

/// The map with some fields more, private ones among them where `private_too`.
pub(crate) fn with_fields(
    maps: &mut SharedMaps,
    w: &World,
    fields: &[u32],
    private_too: bool,
    start: Map,
) -> Result<Map, NoMemory>
    requires few { length w.now.fields < 2 ^ 32 }
    requires map { IsMap maps.old start }
    ensures { IfOk result (λ r. Changes maps.old maps.new start (λ k v. fold (with_at w.now private_too k) v fields.now) r) }
{
    let mut map = start;
    for f in fields {
        map = with_field(maps, w, *f, private_too, map)?;
    }
    Ok(map)
}

fn with_field(
    maps: &mut SharedMaps,
    w: &World,
    f: u32,
    private_too: bool,
    map: Map,
) -> Result<Map, NoMemory>
    requires few { length w.now.fields < 2 ^ 32 }
    requires map { IsMap maps.old map }
    ensures { IfOk result (λ r. Changes maps.old maps.new map (λ k v. with_at w.now private_too k v f) r) }
{
    let Some(info) = w.fields.get(f as usize) else {
        return Ok(map);
    };
    if !private_too && info.mods.as_slice().contains(&Mod::Private) {
        return Ok(map);
    }
    let name = info.name.0;
    let both = joined(maps.get(map, name), Some(f + 1));
    maps.put(map, name, both)
}
