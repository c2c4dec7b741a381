//! The declared supertypes of a class, and what they are for a type of it (JLS 3rd edition, 4.8, 8.1.4 and 8.1.5).

ghost use Rattle.std.specs.Prelude.{◌≡◌, ◌↔◌, IsTrue, IfOk};
ghost use Rattle.class_world.specs.Climbs.{IsClassType, IsGeneric, IsRaw, IsSuperBy};
ghost use Rattle.class_world.specs.Merged.{declared_supers};

use crate::table::{args_of, class_of};
use crate::types::{erase, substituted};
use crate::world::{JavaType, World};
use java_tree::NoMemory;
use std::alloc::Global;

pub(crate) fn supers_of(w: &World, c: u32) -> &[JavaType]
    ensures { result.now ≡ declared_supers w.now c }
{
    match w.types.get(c as usize) {
        Some(info) => info.supers.as_slice(),
        None => &[],
    }
}

/// Whether the class has parameters.
pub(crate) fn is_generic(w: &World, c: u32) -> bool
    ensures { IsTrue result ↔ IsGeneric w.now c }
{
    match w.types.get(c as usize) {
        Some(info) => 0 < info.params,
        None => false,
    }
}

/// Whether the type of the class `c` with these arguments is raw.
pub(crate) fn is_raw(w: &World, c: u32, args: &[JavaType]) -> bool
    ensures { IsTrue result ↔ IsRaw w.now c args.now }
{
    args.is_empty() && is_generic(w, c)
}

/// What a supertype that the class of `t` declares is for `t`.
pub(crate) fn declared_super(
    alloc: Global,
    w: &World,
    t: &JavaType,
    d: &JavaType,
) -> Result<JavaType, NoMemory>
    requires { IsClassType w.now t.now }
    ensures { IfOk result (λ u. IsSuperBy w.now t.now d.now u) }
{
    if is_raw(w, class_of(t), args_of(t)) {
        erase(alloc, d)
    } else {
        substituted(alloc, args_of(t), d)
    }
}
