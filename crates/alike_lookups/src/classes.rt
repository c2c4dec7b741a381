//! Superclasses (JLS 8.1.4), compared.

ghost use Rattle.std.specs.Prelude.{◌≡◌, ℕ, ◌<◌, length, IsTrue, IfSome, IfNone};
ghost use Rattle.class_world.specs.Overriding.{IsSuperclass};
ghost use Rattle.program_maps.specs.Ways.{goes_to};
ghost use Rattle.alike_lookups.specs.Classes.{IsClassAmong, IsClassIn, IsUpKept};

use crate::places::image;
use class_world::{JavaType, World};
use program_maps::{Numbers, goes};
use seen_methods::is_class;

/// The class of a type, where that is no interface.
fn class_in(w: &World, d: &JavaType) -> Option<u32>
    ensures some { IfSome result (λ s. IsClassIn w.now d.now s) }
    ensures none { IfNone result ((s : ℕ) → IsClassIn w.now d.now s → ⊥) }
{
    match d {
        JavaType::Class(s, _) => { if is_class(w, *s) { Some(*s) } else { None } }
        _ => None,
    }
}

fn first_class(w: &World, supers: &[JavaType]) -> Option<u32>
    ensures some { IfSome result (λ s. IsClassAmong w.now supers.now s) }
    ensures none { IfNone result ((s : ℕ) → IsClassAmong w.now supers.now s → ⊥) }
{
    for d in supers {
        if let Some(class) = class_in(w, d) {
            return Some(class);
        }
    }
    None
}

fn superclass(w: &World, class: u32) -> Option<u32>
    ensures some { IfSome result (λ s. IsSuperclass w.now class s) }
    ensures none { IfNone result ((s : ℕ) → IsSuperclass w.now class s → ⊥) }
{
    match w.types.get(class as usize) {
        Some(info) => {
            if info.interface {
                None
            } else {
                first_class(w, info.supers.as_slice())
            }
        }
        None => None,
    }
}

/// Whether the superclass of a class goes to that of the class to which it goes.
fn is_up_kept(old: &World, new: &World, types: &Numbers, class: u32) -> bool
    ensures { IsTrue result → IsUpKept old.now new.now (goes_to types.now) class }
{
    let Some(to) = image(types, class) else {
        return false;
    };
    match superclass(old, class) {
        Some(above) => match superclass(new, to) {
            Some(above_to) => goes(types, above, above_to),
            None => false,
        },
        None => superclass(new, to).is_none(),
    }
}

/// So for all classes of the list.
pub(crate) fn are_ups_kept(old: &World, new: &World, types: &Numbers) -> bool
    ensures { IsTrue result → (k : ℕ) → k < length types.now.to → IsUpKept old.now new.now (goes_to types.now) k }
{
    let Ok(count) = u32::try_from(types.to.len()) else {
        return false;
    };
    for class in 0..count {
        if !is_up_kept(old, new, types, class) {
            return false;
        }
    }
    true
}
