//! The order of erased types, by the supertypes that classes declare or class by class.

ghost use Rattle.std.specs.Prelude.{◌≡◌, ◌↔◌, ℕ, ◌<◌, [], length, IsTrue};
ghost use Rattle.class_world.specs.Sound.{IsSound};
ghost use Rattle.class_world.specs.declared.world.JavaType.TheVariants as ty;
ghost use Rattle.program_maps.specs.Ways.{goes_to};
ghost use Rattle.alike_order.specs.Order.{IsBelow, IsPairKept, KeepsOrder, KeepsOrderTold};

use crate::supers::{image, keep_all_supers};
use class_world::{JavaType, World};
use java_tree::Items;
use program_maps::{Numbers, goes};
use std::alloc::Global;
use type_kinds::of_world::is_below;

/// Whether one class is below another, both without arguments. Takes no memory.
fn is_class_below(alloc: Global, w: &World, class: u32, above: u32) -> bool
    requires { IsSound w.now }
    ensures { IsTrue result ↔ IsBelow w.now (ty.Class class []) (ty.Class above []) }
{
    let low = JavaType::Class(class, Items::new(alloc));
    let high = JavaType::Class(above, Items::new(alloc));
    is_below(w, &low, &high)
}

/// Whether one class is below another in both worlds or in none.
fn is_pair_kept(
    alloc: Global,
    old: &World,
    new: &World,
    types: &Numbers,
    class: u32,
    above: u32,
) -> bool
    requires old { IsSound old.now }
    requires new { IsSound new.now }
    requires class { class < length types.now.to }
    requires above { above < length types.now.to }
    ensures { IsTrue result ↔ IsPairKept old.now new.now (goes_to types.now) class above }
{
    let before = is_class_below(alloc, old, class, above);
    let after = is_class_below(alloc, new, image(types, class), image(types, above));
    before == after
}

/// Whether a class is below the same ones of the first `count` classes.
fn is_class_kept(
    alloc: Global,
    old: &World,
    new: &World,
    types: &Numbers,
    class: u32,
    count: u32,
) -> bool
    requires old { IsSound old.now }
    requires new { IsSound new.now }
    requires class { class < length types.now.to }
    requires count { count ≡ length types.now.to }
    ensures { IsTrue result ↔ ((g : ℕ) → g < count → IsPairKept old.now new.now (goes_to types.now) class g) }
{
    for above in 0..count {
        if !is_pair_kept(alloc, old, new, types, class, above) {
            return false;
        }
    }
    true
}

fn are_classes_kept(alloc: Global, old: &World, new: &World, types: &Numbers, count: u32) -> bool
    requires old { IsSound old.now }
    requires new { IsSound new.now }
    requires count { count ≡ length types.now.to }
    ensures { IsTrue result ↔ ((k g : ℕ) → k < count → g < count → IsPairKept old.now new.now (goes_to types.now) k g) }
{
    for class in 0..count {
        if !is_class_kept(alloc, old, new, types, class, count) {
            return false;
        }
    }
    true
}

/// Whether all classes stand to each other as before. They do where each declares the supertypes that it had; otherwise the pairs tell.
fn are_pairs_kept(alloc: Global, old: &World, new: &World, types: &Numbers, count: u32) -> bool
    requires old { IsSound old.now }
    requires new { IsSound new.now }
    requires count { count ≡ length types.now.to }
    requires to { length types.now.to ≡ length old.now.types }
    requires back { length types.now.back ≡ length new.now.types }
    requires top { 0 ≡ goes_to types.now 0 }
    ensures { IsTrue result ↔ ((k g : ℕ) → k < count → g < count → IsPairKept old.now new.now (goes_to types.now) k g) }
{
    keep_all_supers(old, new, types, count) || are_classes_kept(alloc, old, new, types, count)
}

/// Whether erased types (JLS 4.6) are subtypes of each other in the new world as in the old one, where the numbers of their classes are led by a map that has a place for each type of both worlds. A look at each declared supertype, and only where these differ two look-ups for each pair of classes; takes no memory.
pub fn order_kept(alloc: Global, old: &World, new: &World, types: &Numbers) -> bool
    requires old { IsSound old.now }
    requires new { IsSound new.now }
    ensures is { IsTrue result ↔ KeepsOrder types.now old.now new.now }
    ensures told { IsTrue result → KeepsOrderTold types.now old.now new.now }
{
    let Ok(count) = u32::try_from(old.types.len()) else {
        return false;
    };
    if types.to.len() != old.types.len() || types.back.len() != new.types.len() {
        return false;
    }
    goes(types, 0, 0) && are_pairs_kept(alloc, old, new, types, count)
}
