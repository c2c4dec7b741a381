//! The tables of two programs as wholes.

ghost use Rattle.std.specs.Prelude.{◌≡◌, ◌↔◌, IsTrue, IfOk, IfSome};
ghost use Rattle.running_code.specs.Running.{IsReady};
ghost use Rattle.program_maps.specs.Ways.{ways};
ghost use Rattle.program_maps.specs.Correspond.{moved_walk};
ghost use Rattle.alike_tables.specs.Tables.{AreAlikeTold, AreCounts, Both, TellsWhether, IsCountKept, IsMapFit, IsRestKept, IsWalkKept, IsWhole};

use crate::built_ins::is_built_in_kept;
use crate::members::{are_fields_kept, are_methods_kept};
use crate::numbers::has_places;
use crate::types::are_types_kept;
use class_world::Walk;
use java_tree::NoMemory;
use program_maps::{Map, goes, is_one_to_one};
use program_runs::most_initialised;
use running_code::Running;
use std::alloc::Global;

fn is_whole(old: &Running<'_>, new: &Running<'_>, map: &Map) -> bool
    ensures { TellsWhether old.now new.now result (IsWhole map.now) }
{
    has_places(&map.types, old.world.types.len(), new.world.types.len())
        && has_places(
            &map.methods,
            old.world.methods.len(),
            new.world.methods.len(),
        )
        && has_places(&map.fields, old.world.fields.len(), new.world.fields.len())
}

fn is_walk(map: &Map, before: Walk, after: Walk) -> bool
    ensures { IsTrue result ↔ (after ≡ moved_walk (ways map.now) before) }
{
    goes(&map.types, before.iterable, after.iterable)
        && goes(&map.methods, before.iterator, after.iterator)
        && goes(&map.methods, before.has_next, after.has_next)
        && goes(&map.methods, before.next, after.next)
}

/// Whether Iterable and its methods (JLS 14.14.2) are led to themselves.
fn is_walk_kept(old: &Running<'_>, new: &Running<'_>, map: &Map) -> bool
    ensures { TellsWhether old.now new.now result (IsWalkKept (ways map.now)) }
{
    match old.world.walk {
        None => new.world.walk.is_none(),
        Some(before) => match new.world.walk {
            None => false,
            Some(after) => is_walk(map, before, after),
        },
    }
}

/// Whether both programs have as many types that can be initialised: a run's depth is the number of its steps and of these.
fn is_count_kept(old: &Running<'_>, new: &Running<'_>) -> bool
    ensures { IsTrue result → Both old.now new.now IsCountKept }
{
    let Some(before) = most_initialised(old.world) else {
        return false;
    };
    match most_initialised(new.world) {
        Some(after) => after == before,
        None => false,
    }
}

/// How many types, methods and fields a map has a place for.
#[derive(Clone, Copy)]
struct Counts {
    types: u32,
    methods: u32,
    fields: u32,
}

// None where 32 bits do not hold them, as they do those of a program.
fn counts_of(map: &Map) -> Option<Counts>
    ensures { IfSome result (λ n. AreCounts map.now n) }
{
    let types = u32::try_from(map.types.to.len()).ok()?;
    let methods = u32::try_from(map.methods.to.len()).ok()?;
    let fields = u32::try_from(map.fields.to.len()).ok()?;
    Some(Counts {
        types,
        methods,
        fields,
    })
}

/// Whether the map fits both programs: it has all numbers, no two types and no two fields go to one, and what is built in stays.
fn is_map_fit(old: &Running<'_>, new: &Running<'_>, map: &Map) -> bool
    ensures { IsTrue result → Both old.now new.now (IsMapFit map.now (ways map.now)) }
{
    if !is_whole(old, new, map) {
        return false;
    }
    if !is_built_in_kept(map) {
        return false;
    }
    if !is_one_to_one(&map.types) {
        return false;
    }
    is_one_to_one(&map.fields)
}

/// Whether all is kept but for the types. Takes no memory.
fn is_rest_kept(old: &Running<'_>, new: &Running<'_>, map: &Map, counts: Counts) -> bool
    requires old { IsReady old.now }
    requires new { IsReady new.now }
    requires counts { AreCounts map.now counts }
    ensures { IsTrue result → Both old.now new.now (IsRestKept map.now (ways map.now)) }
{
    if !is_map_fit(old, new, map) {
        return false;
    }
    if !is_walk_kept(old, new, map) {
        return false;
    }
    if !is_count_kept(old, new) {
        return false;
    }
    if !are_methods_kept(old, new, map, counts.methods) {
        return false;
    }
    are_fields_kept(old, new, map, counts.fields)
}

/// Whether the types, methods and fields of a program are what those of the other program are that the map leads them to, no two types and no two fields go to one, and
/// what is built in keeps its numbers. In time for the tables; takes memory for the fields and the name of one class at a time.
pub fn tables_alike(
    alloc: Global,
    old: &Running<'_>,
    new: &Running<'_>,
    map: &Map,
) -> Result<bool, NoMemory>
    requires old { IsReady old.now }
    requires new { IsReady new.now }
    ensures { IfOk result (λ r. IsTrue r → AreAlikeTold old.now new.now map.now) }
{
    let Some(counts) = counts_of(map) else {
        return Ok(false);
    };
    if !is_rest_kept(old, new, map, counts) {
        return Ok(false);
    }
    are_types_kept(alloc, old, new, map, counts.types)
}
