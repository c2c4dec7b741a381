//! Types compared with those of another program.

ghost use Rattle.std.specs.Prelude.{◌≡◌, ◌↔◌, [], IsTrue};
ghost use Rattle.class_world.specs.Types.{erased};
ghost use Rattle.class_world.specs.declared.world.JavaType.TheVariants as ty;
ghost use Rattle.program_maps.specs.Ways.{goes_to, moved};

use crate::numbers::{Numbers, goes};
use class_world::JavaType;

/// Whether a type is its own erasure (JLS 4.6), and another one is the same in the other program.
pub fn is_moved(types: &Numbers, s: &JavaType, t: &JavaType) -> bool
    ensures { IsTrue result ↔ ((erased s.now ≡ s.now) × (t.now ≡ moved (goes_to types.now) s.now)) }
{
    match s {
        JavaType::Prim(p) => match t {
            JavaType::Prim(q) => p == q,
            _ => false,
        },
        JavaType::Null => match t {
            JavaType::Null => true,
            _ => false,
        },
        JavaType::Class(c, xs) => match t {
            JavaType::Class(d, ys) => xs.is_empty() && ys.is_empty() && goes(types, *c, *d),
            _ => false,
        },
        JavaType::Var(_) => false,
        JavaType::Array(x) => match t {
            JavaType::Array(y) => is_moved(types, x.get(), y.get()),
            _ => false,
        },
    }
}

/// Whether the erasure of a type is, in the other program, that of another type.
pub fn is_moved_by_erasure(types: &Numbers, s: &JavaType, t: &JavaType) -> bool
    ensures { IsTrue result ↔ (erased t.now ≡ moved (goes_to types.now) (erased s.now)) }
{
    match s {
        JavaType::Prim(p) => match t {
            JavaType::Prim(q) => p == q,
            _ => false,
        },
        JavaType::Null => match t {
            JavaType::Null => true,
            _ => false,
        },
        JavaType::Class(c, _) => is_class(types, *c, t),
        JavaType::Var(_) => is_class(types, 0, t),
        JavaType::Array(x) => match t {
            JavaType::Array(y) => is_moved_by_erasure(types, x.get(), y.get()),
            _ => false,
        },
    }
}

// Whether the erasure of a type is that class of the other program.
fn is_class(types: &Numbers, class: u32, t: &JavaType) -> bool
    ensures { IsTrue result ↔ (erased t.now ≡ ty.Class (goes_to types.now class) []) }
{
    match t {
        JavaType::Class(d, _) => goes(types, class, *d),
        JavaType::Var(_) => goes(types, class, 0),
        _ => false,
    }
}
