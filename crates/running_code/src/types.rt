//! What the world says of its types and fields, by number.

ghost use Rattle.std.specs.Prelude.{◌≡◌, IfOk, Some, map, slice_get};
ghost use Rattle.class_world.specs.declared.world.World as worlds;
ghost use Rattle.type_kinds.specs.Members.{field_at, is_final_field as final_in, is_static_field as static_in};
ghost use Rattle.core_meaning.specs.Code as code;
ghost use Rattle.running_code.specs.Types as spec;
ghost use Rattle.running_code.specs.Types.{AreTypes};

use class_world::{FieldInfo, JavaType, TypeInfo, World};
use core_meaning::{Held, Value};
use java_tree::tree::Mod;
use java_tree::{Items, NoMemory};
use run_state::arrays::default_value;
use std::alloc::Global;
use type_kinds::kinds::{class_number, has, is_primitive, is_string};
use type_kinds::members::{is_interface, is_static_field};

/// The superclass of each type; its own instance fields, with the values that they have at first; whether a field is static; and whether it is a constant field as far
/// as its declaration says so without its value.
#[derive(Drop)]
pub(crate) struct Types {
    pub supers: Items<Option<u32>>,
    pub own: Items<Items<Held>>,
    pub statics: Items<bool>,
    pub fixed: Items<bool>,
}

fn is_class_number(w: &World, class: Option<u32>) -> bool
    ensures { result ≡ code.is_class_number w.now class }
{
    match class {
        None => false,
        Some(class) => !is_interface(w, class),
    }
}

fn first_class(w: &World, supers: &[JavaType]) -> Option<u32>
    ensures { result ≡ code.first_class w.now supers.now }
{
    for above in supers {
        let class = class_number(above);
        if is_class_number(w, class) {
            return class;
        }
    }
    None
}

fn superclass_of(w: &World, info: &TypeInfo) -> Option<u32>
    ensures { result ≡ code.superclass_of w.now (Some info.now) }
{
    if info.interface {
        return None;
    }
    first_class(w, info.supers.as_slice())
}

fn superclasses(alloc: Global, w: &World) -> Result<Items<Option<u32>>, NoMemory>
    ensures { IfOk result (λ r. r ≡ map (λ i. code.superclass_of w.now (Some i)) w.now.types) }
{
    let mut supers = Items::new(alloc);
    for info in w.types.as_slice() {
        supers.push(superclass_of(w, info))?;
    }
    Ok(supers)
}

fn statics_of(alloc: Global, w: &World) -> Result<Items<bool>, NoMemory>
    ensures { IfOk result (λ r. r ≡ map (static_in w.now) w.now.fields) }
{
    let mut statics = Items::new(alloc);
    for info in w.fields.as_slice() {
        statics.push(is_static_field(w, info))?;
    }
    Ok(statics)
}

fn first_held(w: &World, field: u32) -> Held
    ensures { result ≡ spec.held_in w.now field }
{
    match w.fields.get(field as usize) {
        None => Held {
            field,
            value: Value::Null,
        },
        Some(info) => Held {
            field,
            value: default_value(&info.ty),
        },
    }
}

fn is_instance_field(w: &World, field: u32) -> bool
    ensures { result ≡ code.is_instance_field w.now field }
{
    match w.fields.get(field as usize) {
        None => true,
        Some(info) => !is_static_field(w, info),
    }
}

fn own_held(alloc: Global, w: &World, fields: &[u32]) -> Result<Items<Held>, NoMemory>
    ensures { IfOk result (λ r. r ≡ spec.own_held w.now fields.now) }
{
    let mut held = Items::new(alloc);
    for field in fields {
        if is_instance_field(w, *field) {
            held.push(first_held(w, *field))?;
        }
    }
    Ok(held)
}

fn all_held(alloc: Global, w: &World) -> Result<Items<Items<Held>>, NoMemory>
    ensures { IfOk result (λ r. r ≡ map (λ i. spec.own_held w.now i.fields) w.now.types) }
{
    let mut own = Items::new(alloc);
    for info in w.types.as_slice() {
        let held = own_held(alloc, w, info.fields.as_slice())?;
        own.push(held)?;
    }
    Ok(own)
}

fn is_constant_type(t: &JavaType) -> bool
    ensures { result ≡ code.is_constant_type t.now }
{
    is_primitive(t) || is_string(t)
}

fn is_final(w: &World, info: &FieldInfo) -> bool
    ensures { result ≡ final_in w.now (Some info.now) }
{
    has(Mod::Final, info.mods.as_slice()) || is_interface(w, info.owner)
}

fn is_fixed(w: &World, info: &FieldInfo) -> bool
    ensures { result ≡ spec.is_fixed w.now info.now }
{
    is_static_field(w, info) && is_final(w, info) && is_constant_type(&info.ty)
}

fn fixed_of(alloc: Global, w: &World) -> Result<Items<bool>, NoMemory>
    ensures { IfOk result (λ r. r ≡ map (spec.is_fixed w.now) w.now.fields) }
{
    let mut fixed = Items::new(alloc);
    for info in w.fields.as_slice() {
        fixed.push(is_fixed(w, info))?;
    }
    Ok(fixed)
}

/// What a world says.
pub(crate) fn types_of(alloc: Global, w: &World) -> Result<Types, NoMemory>
    ensures { IfOk result (λ r. AreTypes w.now r) }
{
    let supers = superclasses(alloc, w)?;
    let own = all_held(alloc, w)?;
    let statics = statics_of(alloc, w)?;
    let fixed = fixed_of(alloc, w)?;
    Ok(Types {
        supers,
        own,
        statics,
        fixed,
    })
}

/// The superclass of a type.
pub(crate) fn superclass_in(t: &Types, class: u32) -> Option<u32>
    ensures { (w : worlds.World) → AreTypes w t.now → result ≡ code.superclass w class }
{
    match t.supers.get(class as usize) {
        Some(above) => *above,
        None => None,
    }
}

/// Whether a field is static.
pub(crate) fn is_static(t: &Types, field: u32) -> bool
    ensures { (w : worlds.World) → AreTypes w t.now → result ≡ code.is_static_at w (field_at w field) }
{
    match t.statics.get(field as usize) {
        Some(is) => *is,
        None => false,
    }
}

/// Whether a field is a constant field as far as its declaration says so.
pub(crate) fn is_fixed_in(t: &Types, field: u32) -> bool
    ensures { (w : worlds.World) → AreTypes w t.now → result ≡ spec.is_fixed_at w (field_at w field) }
{
    match t.fixed.get(field as usize) {
        Some(is) => *is,
        None => false,
    }
}

/// What the instance fields of a type itself hold at first.
pub(crate) fn own_in(t: &Types, class: u32) -> &[Held]
    ensures { (w : worlds.World) → AreTypes w t.now → result.now ≡ spec.own_held w (code.declared_fields (slice_get w.types class)) }
{
    match t.own.get(class as usize) {
        Some(held) => held.as_slice(),
        None => &[],
    }
}
