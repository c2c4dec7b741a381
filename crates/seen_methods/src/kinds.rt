//! Kinds of types: references, classes and interfaces; and the methods of classes.

ghost use Rattle.std.specs.Prelude.{◌↔◌, IsTrue};
ghost use Rattle.class_world.specs.Access.{IsInterface};
ghost use Rattle.class_world.specs.Counted.{IsOfClass};
ghost use Rattle.class_world.specs.Overriding.{IsClass};
ghost use Rattle.class_world.specs.Types.{IsReference};

use crate::below::method_of;
use class_world::{JavaType, World};

/// Whether it is a reference type (JLS 4.3). The null type is none.
pub fn is_reference(t: &JavaType) -> bool
    ensures { IsTrue result ↔ IsReference t.now }
{
    match t {
        JavaType::Prim(_) => false,
        JavaType::Null => false,
        JavaType::Class(_, _) => true,
        JavaType::Var(_) => true,
        JavaType::Array(_) => true,
    }
}

/// Whether the number is that of a class and no interface (JLS 8.1, 9.1).
pub fn is_class(w: &World, c: u32) -> bool
    ensures { IsTrue result ↔ IsClass w.now c }
{
    match w.types.get(c as usize) {
        Some(info) => !info.interface,
        None => false,
    }
}

/// Whether the number is that of an interface.
pub fn is_interface(w: &World, c: u32) -> bool
    ensures { IsTrue result ↔ IsInterface w.now c }
{
    match w.types.get(c as usize) {
        Some(info) => info.interface,
        None => false,
    }
}

/// Whether a class declares the method; no constructor is one.
pub fn is_of_class(w: &World, m: u32) -> bool
    ensures { IsTrue result ↔ IsOfClass w.now m }
{
    match method_of(w, m) {
        Some(info) => is_class(w, info.owner),
        None => false,
    }
}
