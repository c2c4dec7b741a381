//! One look-up in two programs.

ghost use Rattle.std.specs.Prelude.{◌≡◌, ◌↔◌, ℕ, ◌<◌, IsTrue, length};
ghost use Rattle.class_world.specs.Overriding.{IsFixed};
ghost use Rattle.program_maps.specs.Ways.{goes_to};
ghost use Rattle.running_code.specs.Running.{IsReady};
ghost use Rattle.alike_lookups.specs.Lookups.{FindsAlike, FindsOn, IsFixedBy, IsWhole, LedBy, sides};

use crate::places::image;
use class_world::{MethodInfo, World};
use java_tree::tree::Mod;
use program_maps::{Map, goes};
use running_code::Running;

fn is_fixed_by(info: &MethodInfo) -> bool
    ensures { IsTrue result ↔ IsFixedBy info.now }
{
    let mods = info.mods.as_slice();
    info.constructor || mods.contains(&Mod::Static) || mods.contains(&Mod::Private)
}

/// Whether a method is itself on objects of every class: a constructor, a static or a private one.
pub(crate) fn is_fixed(w: &World, method: u32) -> bool
    ensures { IsTrue result ↔ IsFixed w.now method }
{
    match w.methods.get(method as usize) {
        Some(info) => is_fixed_by(info),
        None => false,
    }
}

fn is_led(map: &Map, strict: bool, before: Option<u32>, after: Option<u32>) -> bool
    ensures { IsTrue result ↔ LedBy strict (goes_to map.now.methods) before after }
{
    match before {
        Some(from) => match after {
            Some(to) => goes(&map.methods, from, to),
            None => false,
        },
        None => !strict || after.is_none(),
    }
}

/// Whether a method finds in the old program, on an object of one class, what another one finds in the new program.
fn finds_on(
    old: &Running<'_>,
    new: &Running<'_>,
    map: &Map,
    strict: bool,
    method: u32,
    other: u32,
    class: u32,
) -> bool
    requires old { IsReady old.now }
    requires new { IsReady new.now }
    ensures { IsTrue result → FindsOn (sides old.now new.now map.now strict) method other class }
{
    let Some(to) = image(&map.types, class) else {
        return false;
    };
    let before = old.members.lookup(class, method);
    let after = new.members.lookup(to, other);
    is_led(map, strict, before, after)
}

/// So on objects of all classes of the list.
fn finds_on_all(
    old: &Running<'_>,
    new: &Running<'_>,
    map: &Map,
    strict: bool,
    method: u32,
    other: u32,
) -> bool
    requires old { IsReady old.now }
    requires new { IsReady new.now }
    ensures { IsTrue result → (k : ℕ) → k < length map.now.types.to → FindsOn (sides old.now new.now map.now strict) method other k }
{
    let Ok(count) = u32::try_from(map.types.to.len()) else {
        return false;
    };
    for class in 0..count {
        if !finds_on(old, new, map, strict, method, other, class) {
            return false;
        }
    }
    true
}

/// Whether a method finds in the old program what another one does in the new program, on objects of every class: two look-ups for each class.
pub(crate) fn finds_alike(
    old: &Running<'_>,
    new: &Running<'_>,
    map: &Map,
    strict: bool,
    method: u32,
    other: u32,
) -> bool
    requires old { IsReady old.now }
    requires new { IsReady new.now }
    requires whole { IsWhole old.now.world.now new.now.world.now map.now }
    ensures { IsTrue result → FindsAlike (sides old.now new.now map.now strict) method other }
{
    if is_fixed(old.world, method) {
        goes(&map.methods, method, other) && is_fixed(new.world, other)
    } else {
        !is_fixed(new.world, other) && finds_on_all(old, new, map, strict, method, other)
    }
}
