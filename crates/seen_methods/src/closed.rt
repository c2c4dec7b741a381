//! Lists of types compared, and those without type variables.

ghost use Rattle.std.specs.Prelude.{◌≡◌, ◌↔◌, IsTrue};
ghost use Rattle.seen_methods.specs.Closed.{AreClosed, IsClosed};

use class_world::{JavaType, is_same};

/// Whether two lists have the same types.
pub(crate) fn are_same(xs: &[JavaType], ys: &[JavaType]) -> bool
    ensures { IsTrue result ↔ (xs.now ≡ ys.now) }
{
    match xs.split_first() {
        None => ys.is_empty(),
        Some((x, xs)) => match ys.split_first() {
            None => false,
            Some((y, ys)) => is_same(x, y) && are_same(xs, ys),
        },
    }
}

/// Whether the type holds no type variable.
#[cycle(closed)]
fn is_closed(t: &JavaType) -> bool
    ensures { IsTrue result ↔ IsClosed t.now }
{
    match t {
        JavaType::Prim(_) => true,
        JavaType::Null => true,
        JavaType::Class(_, xs) => are_closed(xs.as_slice()),
        JavaType::Var(_) => false,
        JavaType::Array(x) => is_closed(x.get()),
    }
}

/// Whether none of the types holds a type variable. Takes time for the types.
#[cycle(closed)]
pub fn are_closed(xs: &[JavaType]) -> bool
    ensures { IsTrue result ↔ AreClosed xs.now }
{
    match xs.split_first() {
        None => true,
        Some((x, xs)) => is_closed(x) && are_closed(xs),
    }
}
