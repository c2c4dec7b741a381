//! The superclasses of classes (JLS 3rd edition, 8.1.4).

ghost use Rattle.std.specs.Prelude.{◌↔◌, ℕ, IfOk, IfSome, IfNone};
ghost use Rattle.std.specs.List.{Contains};
ghost use Rattle.found_methods.specs.Supers.{AreSuperclasses, IsClassIn, IsDeclaredSuperclass};

use class_world::{JavaType, TypeInfo, World};
use java_tree::{Items, NoMemory};
use seen_methods::is_class;
use std::alloc::Global;

/// The superclasses of each type, by number: at most one in the world of a program, none of an interface.
pub(crate) fn superclasses(alloc: Global, w: &World) -> Result<Vec<Items<u32>>, NoMemory>
    ensures { IfOk result (λ v. AreSuperclasses w.now v.items) }
{
    let mut all = Vec::new(alloc);
    for info in w.types.as_slice() {
        let above = superclasses_of(alloc, w, info)?;
        all.push(above)?;
    }
    Ok(all)
}

fn superclasses_of(alloc: Global, w: &World, info: &TypeInfo) -> Result<Items<u32>, NoMemory>
    ensures { IfOk result (λ v. (s : ℕ) → Contains v s ↔ IsDeclaredSuperclass w.now info.now s) }
{
    let mut above = Items::new(alloc);
    if info.interface {
        return Ok(above);
    }
    for d in info.supers.as_slice() {
        let class = class_in(w, d);
        if let Some(g) = class {
            above.push(g)?;
        }
    }
    Ok(above)
}

/// The class of a supertype, where that is no interface.
fn class_in(w: &World, d: &JavaType) -> Option<u32>
    ensures some { IfSome result (λ g. IsClassIn w.now d.now g) }
    ensures none { IfNone result ((g : ℕ) → IsClassIn w.now d.now g → ⊥) }
{
    match d {
        JavaType::Class(g, _) => { if is_class(w, *g) { Some(*g) } else { None } }
        _ => None,
    }
}
