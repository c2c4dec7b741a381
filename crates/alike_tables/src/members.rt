//! Methods and fields compared with those that they go to.

ghost use Rattle.std.specs.Prelude.{◌≡◌, ◌↔◌, ◌<◌, length};
ghost use Rattle.std.specs.Option.{option_map};
ghost use Rattle.core_meaning.specs.Code as code;
ghost use Rattle.running_code.specs.Running.{IsReady};
ghost use Rattle.program_maps.specs.Correspond as look;
ghost use Rattle.program_maps.specs.Ways.{goes_to, ways};
ghost use Rattle.alike_tables.specs.Tables.{AreFieldsKept, AreMethodsKept, TellsWhether, IsFieldKept, IsMethodKept};

use crate::numbers::{is_led, target};
use crate::statics::is_static_kept;
use program_maps::{Map, Numbers};
use running_code::{Running, field_owner, is_constant, is_instance_field, method_owner};

/// Whether the type that declares a method is led to the one that declares the other.
fn is_method_kept(old: &Running<'_>, new: &Running<'_>, map: &Map, method: u32, to: u32) -> bool
    requires old { IsReady old.now }
    requires new { IsReady new.now }
    ensures { TellsWhether old.now new.now result (λ c c'. IsMethodKept (ways map.now) c c' method to) }
{
    is_led(&map.types, method_owner(old, method), method_owner(new, to))
}

/// Whether all methods are.
pub(crate) fn are_methods_kept(old: &Running<'_>, new: &Running<'_>, map: &Map, count: u32) -> bool
    requires old { IsReady old.now }
    requires new { IsReady new.now }
    requires count { count ≡ length map.now.methods.to }
    ensures { TellsWhether old.now new.now result (AreMethodsKept map.now (ways map.now)) }
{
    for method in 0..count {
        if !is_method_kept(old, new, map, method, target(&map.methods, method)) {
            return false;
        }
    }
    true
}

fn is_owner_kept(old: &Running<'_>, new: &Running<'_>, types: &Numbers, field: u32, to: u32) -> bool
    requires old { IsReady old.now }
    requires new { IsReady new.now }
    ensures { TellsWhether old.now new.now result (λ c c'. look.field_owner c' to ≡ option_map (goes_to types.now) (look.field_owner c field)) }
{
    is_led(types, field_owner(old, field), field_owner(new, to))
}

fn is_instance_kept(old: &Running<'_>, new: &Running<'_>, field: u32, to: u32) -> bool
    requires old { IsReady old.now }
    requires new { IsReady new.now }
    ensures { TellsWhether old.now new.now result (λ c c'. code.is_instance_field c'.world to ≡ code.is_instance_field c.world field) }
{
    is_instance_field(old, field) == is_instance_field(new, to)
}

fn is_constant_kept(old: &Running<'_>, new: &Running<'_>, field: u32, to: u32) -> bool
    requires old { IsReady old.now }
    requires new { IsReady new.now }
    ensures { TellsWhether old.now new.now result (λ c c'. code.is_constant c' to ≡ code.is_constant c field) }
{
    is_constant(old, field) == is_constant(new, to)
}

/// Whether a field is what the one is that it goes to.
fn is_field_kept(old: &Running<'_>, new: &Running<'_>, map: &Map, field: u32, to: u32) -> bool
    requires old { IsReady old.now }
    requires new { IsReady new.now }
    ensures { TellsWhether old.now new.now result (λ c c'. IsFieldKept (ways map.now) c c' field to) }
{
    is_owner_kept(old, new, &map.types, field, to)
        && is_instance_kept(old, new, field, to)
        && is_constant_kept(old, new, field, to)
        && is_static_kept(old, new, field, to)
}

/// Whether all fields are.
pub(crate) fn are_fields_kept(old: &Running<'_>, new: &Running<'_>, map: &Map, count: u32) -> bool
    requires old { IsReady old.now }
    requires new { IsReady new.now }
    requires count { count ≡ length map.now.fields.to }
    ensures { TellsWhether old.now new.now result (AreFieldsKept map.now (ways map.now)) }
{
    for field in 0..count {
        if !is_field_kept(old, new, map, field, target(&map.fields, field)) {
            return false;
        }
    }
    true
}
