//! The superclass of a class (JLS 3rd edition, 8.1.4).

ghost use Rattle.std.specs.Prelude.{◌≡◌, ℕ, List, IfOk, IfSome, IfNone};
ghost use Rattle.counted_methods.specs.Made.{IsClassType, TellsSuperclass};

use class_world::{JavaType, World};
use java_tree::NoMemory;
use seen_methods::is_class;

/// The superclass of a type, if it is a class and has one. `NoMemory` where it has two.
pub(crate) fn superclass(w: &World, c: u32) -> Result<Option<u32>, NoMemory>
    ensures { IfOk result (TellsSuperclass w.now c) }
{
    let Some(info) = w.types.get(c as usize) else {
        return Ok(None);
    };
    if info.interface {
        return Ok(None);
    }
    let mut found = None;
    for d in info.supers.as_slice() {
        if let Some(s) = class_of(w, d) {
            if found.is_some() {
                return Err(NoMemory);
            }
            found = Some(s);
        }
    }
    Ok(found)
}

/// The class of a type, if it is that of a class and not of an interface.
fn class_of(w: &World, d: &JavaType) -> Option<u32>
    ensures some { IfSome result (λ s. IsClassType w.now d.now s) }
    ensures none { IfNone result ((s : ℕ) → IsClassType w.now d.now s → ⊥) }
{
    match d {
        JavaType::Class(s, _) => { if is_class(w, *s) { Some(*s) } else { None } }
        _ => None,
    }
}
