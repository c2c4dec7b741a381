//! The types directly above a type (JLS 3rd edition, 8.1.4, 8.1.5 and 9.2).

ghost use Rattle.std.specs.Prelude.{ℕ, IfOk, ◌↔◌};
ghost use Rattle.std.specs.List.{Contains};
ghost use Rattle.class_world.specs.Inheritance.{IsDirectlyAbove};
ghost use Rattle.class_world.specs.Overriding.{IsSuperinterface};
ghost use Rattle.member_methods.specs.TypesAbove.{all_above};

use class_world::{JavaType, World};
use java_tree::NoMemory;
use seen_methods::is_interface;
use std::alloc::Global;

/// The types directly above a type: its direct superinterfaces, and the others.
#[derive(Drop)]
pub(crate) struct TypesAbove {
    pub(crate) interfaces: Vec<u32>,
    pub(crate) others: Vec<u32>,
}

/// The classes of a type's declared supertypes, in order; Object for an interface that declares none.
pub(crate) fn directly_above(alloc: Global, w: &World, c: u32) -> Result<TypesAbove, NoMemory>
    ensures interfaces { IfOk result (λ r. (s : ℕ) → Contains r.interfaces.items s ↔ IsSuperinterface w.now c s) }
    ensures all { IfOk result (λ r. (s : ℕ) → Contains (all_above r) s ↔ IsDirectlyAbove w.now c s) }
{
    let mut interfaces = Vec::new(alloc);
    let mut others = Vec::new(alloc);
    let Some(info) = w.types.get(c as usize) else {
        return Ok(TypesAbove { interfaces, others });
    };
    for d in info.supers.as_slice() {
        if let JavaType::Class(g, _) = d {
            if is_interface(w, *g) {
                interfaces.push(*g)?;
            } else {
                others.push(*g)?;
            }
        }
    }
    if info.interface && info.supers.is_empty() {
        others.push(0)?;
    }
    Ok(TypesAbove { interfaces, others })
}
