//! Methods by number.

ghost use Rattle.std.specs.Prelude.{ℕ, ◌↔◌, IsTrue};
ghost use Rattle.std.specs.List.{Contains};
ghost use Rattle.std.specs.List.Sorted.{IsStrictlyIncreasing};
ghost use Rattle.class_world.specs.Inheritance.{DeclaresMethod};
ghost use Rattle.inherited_rules.specs.Rules.{IsAbstractMethod};

use class_world::World;
use java_tree::tree::Mod;
use seen_methods::{is_interface, method_of};

/// Whether the type itself declares the method.
pub(crate) fn declares(w: &World, c: u32, m: u32) -> bool
    ensures { IsTrue result ↔ DeclaresMethod w.now c m }
{
    match method_of(w, m) {
        Some(info) => info.owner == c,
        None => false,
    }
}

/// Whether the method has no body: by its modifier, or as one of an interface.
pub(crate) fn is_abstract(w: &World, m: u32) -> bool
    ensures { IsTrue result ↔ IsAbstractMethod w.now m }
{
    match method_of(w, m) {
        Some(info) => {
            info.mods.as_slice().contains(&Mod::Abstract) || is_interface(w, info.owner)
        }
        None => false,
    }
}

/// The numbers, ascending and each once.
pub(crate) fn ascending(mut xs: Vec<u32>) -> Vec<u32>
    ensures has { (x : ℕ) → Contains result.items x ↔ Contains xs.items x }
    ensures ascending { IsStrictlyIncreasing result.items }
{
    xs.sort_unstable();
    xs.dedup();
    xs
}
