//! What static fields have before the run.

ghost use Rattle.std.specs.Prelude.{◌≡◌, ◌↔◌};
ghost use Rattle.core_meaning.specs.Runs as runs;
ghost use Rattle.running_code.specs.Running.{IsReady, Tells};
ghost use Rattle.alike_tables.specs.Tables as spec;
ghost use Rattle.alike_tables.specs.Tables.{TellsWhether};

use class_world::JavaType;
use core_meaning::Value;
use run_state::arrays::default_value;
use running_code::{Running, is_instance_field};

// System.out, which has the object of number 0.
const OUT: u32 = 0;

fn first_value(field: u32, t: &JavaType) -> Value
    ensures { result ≡ runs.first_static field t.now }
{
    if field == OUT {
        Value::Ref(0)
    } else {
        default_value(t)
    }
}

/// What a field has before the run (JLS 12.4.2, 4.12.5): `Some(None)` where it is not static, and `None` where there is no such field.
fn first_static(g: &Running<'_>, field: u32) -> Option<Option<Value>>
    requires { IsReady g.now }
    ensures { Tells g.now result (λ c. spec.static_at c.world field) }
{
    match g.world.fields.get(field as usize) {
        None => None,
        Some(info) => {
            if is_instance_field(g, field) {
                Some(None)
            } else {
                Some(Some(first_value(field, &info.ty)))
            }
        }
    }
}

/// Whether a field is static in both programs, with the same value before the run, or in none.
pub(crate) fn is_static_kept(old: &Running<'_>, new: &Running<'_>, field: u32, to: u32) -> bool
    requires old { IsReady old.now }
    requires new { IsReady new.now }
    ensures { TellsWhether old.now new.now result (λ c c'. spec.static_at c'.world to ≡ spec.static_at c.world field) }
{
    first_static(old, field) == first_static(new, to)
}
