//! Which types see which methods.

ghost use Rattle.std.specs.Prelude.{◌≡◌, List, ◌↔◌, IsTrue, IfSome, IfNone};
ghost use Rattle.class_world.specs.Sound.{IsSet, IsSound};
ghost use Rattle.class_world.specs.Signatures.{IsMethod, IsSeenWith};
ghost use Rattle.class_world.specs.declared.world.JavaType.{JavaType};
ghost use Rattle.class_world.specs.declared.world.MethodInfo as infos;
ghost use Rattle.seen_methods.specs.Closed.{IsSeen};

use class_world::{MethodInfo, World};

/// The method with a number; `None` for a constructor.
pub fn method_of(w: &World, m: u32) -> Option<&MethodInfo>
    ensures some { IfSome result (λ i. IsMethod w.now m i.now) }
    ensures none { IfNone result ((i : infos.MethodInfo) → IsMethod w.now m i → ⊥) }
{
    match w.methods.get(m as usize) {
        Some(info) if !info.constructor => Some(info),
        _ => None,
    }
}

/// Whether the bit `g` is set, of 64 to a word.
fn is_set(words: &[u64], g: u32) -> bool
    ensures { IsTrue result ↔ IsSet words.now g }
{
    match words.get(g as usize / 64) {
        Some(word) => (*word >> (g % 64)) & 1 == 1,
        None => false,
    }
}

/// Whether the type `g` is above the type `c` with its own variables, or is it.
pub(crate) fn is_above(w: &World, c: u32, g: u32) -> bool
    requires { IsSound w.now }
    ensures { IsTrue result ↔ ((args : List JavaType) × IsSeenWith w.now c g args) }
{
    // The table's bit is that of the type without arguments, and where that is above, a full one is.
    match w.types.get(c as usize) {
        Some(_) => match w.above.get(c as usize) {
            Some(row) => is_set(row.types.as_slice(), g),
            None => false,
        },
        None => false,
    }
}

/// Whether the type `c` is below the type that declares the method, or is it.
pub(crate) fn is_seen(w: &World, c: u32, m: u32) -> bool
    requires { IsSound w.now }
    ensures { IsTrue result ↔ IsSeen w.now c m }
{
    match method_of(w, m) {
        Some(info) => is_above(w, c, info.owner),
        None => false,
    }
}
