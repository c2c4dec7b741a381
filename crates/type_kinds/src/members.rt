//! Declared types and fields, by number.

ghost use Rattle.std.specs.Prelude.{◌≡◌};
ghost use Rattle.type_kinds.specs.Members as spec;

use crate::kinds::has;
use class_world::{FieldInfo, World};
use java_tree::tree::Mod;

/// Whether a number is that of an interface (JLS 9.1).
pub fn is_interface(w: &World, c: u32) -> bool
    ensures { result ≡ spec.is_interface w.now c }
{
    match w.types.get(c as usize) {
        Some(info) => info.interface,
        None => false,
    }
}

/// Whether a field is static; those of interfaces are (JLS 8.3.1.1, 9.3).
pub fn is_static_field(w: &World, info: &FieldInfo) -> bool
    ensures { result ≡ spec.is_static_field w.now info.now }
{
    has(Mod::Static, info.mods.as_slice()) || is_interface(w, info.owner)
}

/// Whether a field is final; those of interfaces are (JLS 8.3.1.2, 9.3).
pub fn is_final_field(w: &World, field: u32) -> bool
    ensures { result ≡ spec.is_final_field w.now (spec.field_at w.now field) }
{
    match w.fields.get(field as usize) {
        None => false,
        Some(info) => has(Mod::Final, info.mods.as_slice()) || is_interface(w, info.owner),
    }
}
