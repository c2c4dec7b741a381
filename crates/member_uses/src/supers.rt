//! The type above a class.

ghost use Rattle.std.specs.Prelude.{◌≡◌, IfOk};
ghost use Rattle.std.specs.Option.{option_copied};
ghost use Rattle.member_uses.specs.Targets as spec;

use class_world::{JavaType, World, copied};
use java_tree::NoMemory;
use std::alloc::Global;
use type_kinds::kinds::class_number;
use type_kinds::members::is_interface;

fn is_class_type(w: &World, c: Option<u32>) -> bool
    ensures { result ≡ spec.is_class_type w.now c }
{
    match c {
        None => false,
        Some(c) => !is_interface(w, c),
    }
}

fn first_class<'a>(w: &World, supers: &'a [JavaType]) -> Option<&'a JavaType>
    ensures { option_copied result ≡ spec.first_class w.now supers.now }
{
    for above in supers {
        if is_class_type(w, class_number(above)) {
            return Some(above);
        }
    }
    None
}

/// The type that a class extends (JLS 8.1.4): the first class among its direct supertypes. `None` for an interface and where there is none.
pub fn superclass(alloc: Global, w: &World, c: u32) -> Result<Option<JavaType>, NoMemory>
    ensures { IfOk result (λ r. r ≡ spec.superclass w.now c) }
{
    let Some(info) = w.types.get(c as usize) else {
        return Ok(None);
    };
    if info.interface {
        return Ok(None);
    }
    match first_class(w, info.supers.as_slice()) {
        None => Ok(None),
        Some(above) => Ok(Some(copied(alloc, above)?)),
    }
}
