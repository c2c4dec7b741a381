//! What a run looks up by number, each in constant time.

ghost use Rattle.std.specs.Prelude.{◌≡◌, map, slice_get};
ghost use Rattle.std.specs.Option.{option_map};
ghost use Rattle.class_world.specs.declared.world.FieldInfo as fields;
ghost use Rattle.class_world.specs.declared.world.MethodInfo as methods;
ghost use Rattle.type_kinds.specs.Members.{field_at};
ghost use Rattle.java_core.specs.View.{field_plain};
ghost use Rattle.core_meaning.specs.Code as code;
ghost use Rattle.core_meaning.specs.Calls as calls;
ghost use Rattle.core_meaning.specs.Runs as runs;
ghost use Rattle.running_code.specs.Running.{IsReady, Tells};

use crate::entries::{entry_at, has_constant};
use crate::running::Running;
use crate::types::{is_fixed_in, is_static, superclass_in};
use java_core::CoreField;

/// The fields that a class declares, in text order (JLS 8.3). None where no file declares the class.
pub fn fields_of<'a>(g: &'a Running<'_>, class: u32) -> &'a [&'a CoreField]
    requires { IsReady g.now }
    ensures { Tells g.now (map (λ x. field_plain x.now) result.now) (λ c. code.class_fields (code.class_at c class)) }
{
    let Some(entry) = entry_at(&g.classes, class) else {
        return &[];
    };
    entry.fields.as_slice()
}

/// All fields that the files declare, in order.
pub fn all_fields<'a>(g: &'a Running<'_>) -> &'a [&'a CoreField]
    requires { IsReady g.now }
    ensures { Tells g.now (map (λ x. field_plain x.now) result.now) (λ c. runs.all_fields c) }
{
    g.classes.fields.as_slice()
}

/// The superclass (JLS 8.1.4). An interface has none.
pub fn superclass(g: &Running<'_>, class: u32) -> Option<u32>
    requires { IsReady g.now }
    ensures { Tells g.now result (λ c. code.superclass c.world class) }
{
    superclass_in(&g.types, class)
}

/// Whether a field is not static (JLS 8.3.1.1, 9.3). A number of no field counts as one of an instance field.
pub fn is_instance_field(g: &Running<'_>, field: u32) -> bool
    requires { IsReady g.now }
    ensures { Tells g.now result (λ c. code.is_instance_field c.world field) }
{
    !is_static(&g.types, field)
}

/// Whether a field is a constant field, which has its value from the start (JLS 4.12.4, 13.4.9).
pub fn is_constant(g: &Running<'_>, field: u32) -> bool
    requires { IsReady g.now }
    ensures { Tells g.now result (λ c. code.is_constant c field) }
{
    match g.world.fields.get(field as usize) {
        Some(info) => is_fixed_in(&g.types, field) && has_constant(&g.classes, info.owner, field),
        None => false,
    }
}

/// Whether the initialisation of its type gives a field its value (JLS 12.4.2).
pub fn has_initialiser(g: &Running<'_>, field: u32) -> bool
    requires { IsReady g.now }
    ensures { Tells g.now result (λ c. calls.has_initialiser c field) }
{
    !(is_instance_field(g, field) || is_constant(g, field))
}

/// The type that declares a field.
pub fn field_owner(g: &Running<'_>, field: u32) -> Option<u32>
    requires { IsReady g.now }
    ensures { Tells g.now result (λ c. option_map (λ (i : fields.FieldInfo). i.owner) (field_at c.world field)) }
{
    match g.world.fields.get(field as usize) {
        Some(info) => Some(info.owner),
        None => None,
    }
}

/// The type that declares a method or constructor.
pub fn method_owner(g: &Running<'_>, method: u32) -> Option<u32>
    requires { IsReady g.now }
    ensures { Tells g.now result (λ c. option_map (λ (i : methods.MethodInfo). i.owner) (slice_get c.world.methods method)) }
{
    match g.world.methods.get(method as usize) {
        Some(info) => Some(info.owner),
        None => None,
    }
}

/// The method that runs where `method` is called on an object of the class `class` (JLS 15.12.4.4).
pub fn found(g: &Running<'_>, method: u32, class: u32) -> Option<u32>
    requires { IsReady g.now }
    ensures { Tells g.now result (λ c. c.found method class) }
{
    g.members.lookup(class, method)
}
