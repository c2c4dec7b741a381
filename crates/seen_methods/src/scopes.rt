//! Which type variables the parameter types of methods have.

ghost use Rattle.std.specs.Prelude.{◌↔◌, IsTrue};
ghost use Rattle.seen_methods.specs.Closed.{HasClosedParams};
ghost use Rattle.seen_methods.specs.Scopes.{AreOver, IsOver, IsScoped};

use crate::below::method_of;
use crate::closed::are_closed;
use class_world::{JavaType, World};

/// Whether the type has the first `n` variables alone.
#[cycle(over)]
fn is_over(t: &JavaType, n: u32) -> bool
    ensures { IsTrue result → IsOver n t.now }
{
    match t {
        JavaType::Prim(_) => true,
        JavaType::Null => true,
        JavaType::Class(_, xs) => are_over(xs.as_slice(), n),
        JavaType::Var(k) => *k < n,
        JavaType::Array(x) => is_over(x.get(), n),
    }
}

#[cycle(over)]
fn are_over(ts: &[JavaType], n: u32) -> bool
    ensures { IsTrue result → AreOver n ts.now }
{
    match ts.split_first() {
        None => true,
        Some((t, ts)) => is_over(t, n) && are_over(ts, n),
    }
}

/// Whether the parameter types of a method have no variables but those of the type that declares it. It is so in each world that is made of a program; a sound world need not tell. Takes time for the types.
pub fn is_scoped(w: &World, m: u32) -> bool
    ensures { IsTrue result → IsScoped w.now m }
{
    match w.methods.get(m as usize) {
        Some(info) => match w.types.get(info.owner as usize) {
            Some(owner) => are_over(info.params.as_slice(), owner.params),
            None => true,
        },
        None => true,
    }
}

/// Whether the parameter types of a method hold no type variable. Takes time for the types.
pub fn has_closed_params(w: &World, m: u32) -> bool
    ensures { IsTrue result ↔ HasClosedParams w.now m }
{
    match method_of(w, m) {
        Some(info) => are_closed(info.params.as_slice()),
        None => true,
    }
}
