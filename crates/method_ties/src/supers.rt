//! The supertypes that a type declares (JLS 3rd edition, 8.1.4 and 8.1.5).

ghost use Rattle.std.specs.Prelude.{ℕ, IfOk, ◌↔◌};
ghost use Rattle.std.specs.List.{Contains};
ghost use Rattle.class_world.specs.Overriding.{IsClass};
ghost use Rattle.method_ties.specs.Sides.{IsSupertype};

use class_world::{JavaType, World};
use java_tree::NoMemory;
use seen_methods::is_class;
use std::alloc::Global;

/// The classes of a type's declared supertypes, in order.
pub(crate) fn supertypes(alloc: Global, w: &World, c: u32) -> Result<Vec<u32>, NoMemory>
    ensures { IfOk result (λ v. (s : ℕ) → Contains v.items s ↔ IsSupertype w.now c s) }
{
    let mut supers = Vec::new(alloc);
    let Some(info) = w.types.get(c as usize) else {
        return Ok(supers);
    };
    for d in info.supers.as_slice() {
        if let JavaType::Class(g, _) = d {
            supers.push(*g)?;
        }
    }
    Ok(supers)
}

/// Those of the types that are classes.
pub(crate) fn classes(alloc: Global, w: &World, types: &[u32]) -> Result<Vec<u32>, NoMemory>
    ensures { IfOk result (λ v. (s : ℕ) → Contains v.items s ↔ (Contains types.now s × IsClass w.now s)) }
{
    let mut classes = Vec::new(alloc);
    for s in types {
        if is_class(w, *s) {
            classes.push(*s)?;
        }
    }
    Ok(classes)
}
