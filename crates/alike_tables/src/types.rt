//! Types compared with those that they go to: superclasses, new objects, names, initialisation and main methods.

ghost use Rattle.std.specs.Prelude.{◌≡◌, ◌↔◌, ◌<◌, length, map as map_list, IsTrue, IfOk};
ghost use Rattle.std.specs.Option.{option_map};
ghost use Rattle.core_meaning.specs.Code as code;
ghost use Rattle.core_meaning.specs.Classes as classes;
ghost use Rattle.core_meaning.specs.Runs as runs;
ghost use Rattle.running_code.specs.Running.{IsReady, Makes};
ghost use Rattle.program_maps.specs.Ways.{goes_to, ways};
ghost use Rattle.alike_tables.specs.Tables as spec;
ghost use Rattle.alike_tables.specs.Tables.{AreTypesKept, TellsWhether, IsObjectKept, IsTypeKept};

use crate::numbers::{is_led, target};
use class_world::World;
use core_meaning::{Held, Progress, Thing, Value};
use java_tree::{Items, NoMemory};
use program_maps::{Map, Numbers, goes};
use running_code::{Running, main_of, name_of, new_object, superclass};
use std::alloc::Global;

fn is_superclass_kept(
    old: &Running<'_>,
    new: &Running<'_>,
    types: &Numbers,
    class: u32,
    to: u32,
) -> bool
    requires old { IsReady old.now }
    requires new { IsReady new.now }
    ensures { TellsWhether old.now new.now result (λ c c'. code.superclass c'.world to ≡ option_map (goes_to types.now) (code.superclass c.world class)) }
{
    is_led(types, superclass(old, class), superclass(new, to))
}

fn is_main_kept(
    old: &Running<'_>,
    new: &Running<'_>,
    methods: &Numbers,
    class: u32,
    to: u32,
) -> bool
    requires old { IsReady old.now }
    requires new { IsReady new.now }
    ensures { TellsWhether old.now new.now result (λ c c'. runs.main_of c' to ≡ option_map (goes_to methods.now) (runs.main_of c class)) }
{
    is_led(methods, main_of(old, class), main_of(new, to))
}

fn held_of(thing: &Thing) -> &[Held]
    ensures { result.now ≡ spec.held_of thing.now }
{
    match thing {
        Thing::Object { fields, .. } => fields.as_slice(),
        Thing::Array { .. } => &[],
    }
}

fn is_held_kept(fields: &Numbers, before: &Held, after: &Held) -> bool
    ensures { IsTrue result ↔ (after.now ≡ spec.moved_held (goes_to fields.now) before.now) }
{
    goes(fields, before.field, after.field) && before.value == after.value
}

/// Whether these are the same fields through the map, in the same order and with the same values.
fn are_held_kept(fields: &Numbers, before: &[Held], after: &[Held]) -> bool
    ensures { IsTrue result ↔ (after.now ≡ map_list (spec.moved_held (goes_to fields.now)) before.now) }
{
    if before.len() != after.len() {
        return false;
    }
    for (at, held) in before.iter().enumerate() {
        if !is_held_kept(fields, held, &after[at]) {
            return false;
        }
    }
    true
}

/// Whether new objects have the same fields through the map, with the same first values.
fn is_object_kept(
    alloc: Global,
    old: &Running<'_>,
    new: &Running<'_>,
    fields: &Numbers,
    class: u32,
    to: u32,
) -> Result<bool, NoMemory>
    requires old { IsReady old.now }
    requires new { IsReady new.now }
    ensures { IfOk result (λ r. TellsWhether old.now new.now r (λ c c'. IsObjectKept (goes_to fields.now) c c' class to)) }
{
    let before = new_object(alloc, old, class)?;
    let after = new_object(alloc, new, to)?;
    Ok(are_held_kept(fields, held_of(&before), held_of(&after)))
}

/// The full name of a class (JLS 6.7), empty for a number of none: that of the class of an object.
fn full_name(alloc: Global, g: &Running<'_>, class: u32) -> Result<Items<u16>, NoMemory>
    requires { IsReady g.now }
    ensures { Makes g.now result (λ c. classes.full_name c class) }
{
    let thing = Thing::Object {
        class,
        fields: Items::new(alloc),
        message: Value::Null,
    };
    name_of(alloc, g, &thing)
}

/// Whether full names are the same.
fn is_name_kept(
    alloc: Global,
    old: &Running<'_>,
    new: &Running<'_>,
    class: u32,
    to: u32,
) -> Result<bool, NoMemory>
    requires old { IsReady old.now }
    requires new { IsReady new.now }
    ensures { IfOk result (λ r. TellsWhether old.now new.now r (λ c c'. classes.full_name c' to ≡ classes.full_name c class)) }
{
    let before = full_name(alloc, old, class)?;
    let after = full_name(alloc, new, to)?;
    Ok(before.as_slice() == after.as_slice())
}

/// How far a type is initialised before the run: one that no file declares has no initialisation (JLS 12.4.1).
fn first_progress(w: &World, class: u32) -> Option<Progress>
    ensures { result ≡ spec.progress_of w.now class }
{
    match w.types.get(class as usize) {
        None => None,
        Some(info) => {
            if info.node.is_some() {
                Some(Progress::Untouched)
            } else {
                Some(Progress::Done)
            }
        }
    }
}

fn is_progress_kept(old: &Running<'_>, new: &Running<'_>, class: u32, to: u32) -> bool
    ensures { TellsWhether old.now new.now result (λ c c'. spec.progress_of c'.world to ≡ spec.progress_of c.world class) }
{
    first_progress(old.world, class) == first_progress(new.world, to)
}

/// Whether a type is what the one is that it goes to.
fn is_type_kept(
    alloc: Global,
    old: &Running<'_>,
    new: &Running<'_>,
    map: &Map,
    class: u32,
    to: u32,
) -> Result<bool, NoMemory>
    requires old { IsReady old.now }
    requires new { IsReady new.now }
    ensures { IfOk result (λ r. TellsWhether old.now new.now r (λ c c'. IsTypeKept (ways map.now) c c' class to)) }
{
    let object = is_object_kept(alloc, old, new, &map.fields, class, to)?;
    let name = is_name_kept(alloc, old, new, class, to)?;
    let superclass = is_superclass_kept(old, new, &map.types, class, to);
    let progress = is_progress_kept(old, new, class, to);
    let main = is_main_kept(old, new, &map.methods, class, to);
    Ok(object && name && superclass && progress && main)
}

/// Whether all types are.
pub(crate) fn are_types_kept(
    alloc: Global,
    old: &Running<'_>,
    new: &Running<'_>,
    map: &Map,
    count: u32,
) -> Result<bool, NoMemory>
    requires old { IsReady old.now }
    requires new { IsReady new.now }
    requires count { count ≡ length map.now.types.to }
    ensures { IfOk result (λ r. TellsWhether old.now new.now r (AreTypesKept map.now (ways map.now))) }
{
    for class in 0..count {
        let to = target(&map.types, class);
        if !is_type_kept(alloc, old, new, map, class, to)? {
            return Ok(false);
        }
    }
    Ok(true)
}
