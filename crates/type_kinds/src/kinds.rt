//! Kinds of types, and the types that operators work on (JLS 4.2, 4.3, 5.6).

ghost use Rattle.std.specs.Prelude.{◌≡◌};
ghost use Rattle.std.specs.Option.{option_copied};
ghost use Rattle.type_kinds.specs.Kinds as spec;

use class_world::JavaType;
use java_core::Kind;
use java_tree::Items;
use java_tree::tree::{Mod, Primitive};
use std::alloc::Global;

/// The primitive type that a type is (JLS 4.2).
pub fn primitive(t: &JavaType) -> Option<Primitive>
    ensures { result ≡ spec.primitive t.now }
{
    match t {
        JavaType::Prim(p) => Some(*p),
        _ => None,
    }
}

/// The type of an array's items (JLS 10.1).
pub fn element(t: &JavaType) -> Option<&JavaType>
    ensures { option_copied result ≡ spec.element t.now }
{
    match t {
        JavaType::Array(x) => Some(x.get()),
        _ => None,
    }
}

/// The number of the class or interface that a type is of (JLS 4.3).
pub fn class_number(t: &JavaType) -> Option<u32>
    ensures { result ≡ spec.class_number t.now }
{
    match t {
        JavaType::Class(c, _) => Some(*c),
        _ => None,
    }
}

/// The type arguments, none where the type is of no class (JLS 4.5).
pub fn args_of(t: &JavaType) -> &[JavaType]
    ensures { result.now ≡ spec.args_of t.now }
{
    match t {
        JavaType::Class(_, args) => args.as_slice(),
        _ => &[],
    }
}

/// Whether a type is a reference type (JLS 4.3), the type of null aside.
pub fn is_reference(t: &JavaType) -> bool
    ensures { result ≡ spec.is_reference t.now }
{
    match t {
        JavaType::Class(_, _) => true,
        JavaType::Var(_) => true,
        JavaType::Array(_) => true,
        _ => false,
    }
}

/// Whether a type is primitive (JLS 4.2).
pub fn is_primitive(t: &JavaType) -> bool
    ensures { result ≡ spec.is_primitive t.now }
{
    primitive(t).is_some()
}

/// Whether a type is the class String (JLS 4.3.3).
pub fn is_string(t: &JavaType) -> bool
    ensures { result ≡ spec.is_string t.now }
{
    match t {
        JavaType::Class(c, _) => *c == 1,
        _ => false,
    }
}

/// Whether a type is numeric (JLS 4.2).
pub fn is_numeric(t: &JavaType) -> bool
    ensures { result ≡ spec.is_numeric t.now }
{
    match primitive(t) {
        None => false,
        Some(Primitive::Boolean) => false,
        Some(_) => true,
    }
}

/// Whether a type is boolean (JLS 4.2.5).
pub fn is_boolean(t: &JavaType) -> bool
    ensures { result ≡ spec.is_boolean t.now }
{
    match primitive(t) {
        Some(Primitive::Boolean) => true,
        _ => false,
    }
}

/// Whether a type is long (JLS 4.2.1).
pub fn is_long(t: &JavaType) -> bool
    ensures { result ≡ spec.is_long t.now }
{
    match primitive(t) {
        Some(Primitive::Long) => true,
        _ => false,
    }
}

/// Whether a value of a type can be an index, a size and what a switch selects on: int or char (JLS 10.4, 14.11, 15.10).
pub fn is_short(t: &JavaType) -> bool
    ensures { result ≡ spec.is_short t.now }
{
    match primitive(t) {
        Some(Primitive::Int) => true,
        Some(Primitive::Char) => true,
        _ => false,
    }
}

/// What two numbers are made before an operator works on them (JLS 5.6.2).
pub fn joint_kind(s: &JavaType, t: &JavaType) -> Kind
    ensures { result ≡ spec.joint_kind s.now t.now }
{
    if is_long(s) || is_long(t) {
        Kind::Long
    } else {
        Kind::Int
    }
}

/// What one number is made before an operator works on it (JLS 5.6.1).
pub fn lone_kind(t: &JavaType) -> Kind
    ensures { result ≡ spec.lone_kind t.now }
{
    if is_long(t) { Kind::Long } else { Kind::Int }
}

/// The type of the operands of a kind (JLS 5.6); of references it is Object.
pub fn kind_type(alloc: Global, kind: Kind) -> JavaType
    ensures { result ≡ spec.kind_type kind }
{
    match kind {
        Kind::Int => JavaType::Prim(Primitive::Int),
        Kind::Long => JavaType::Prim(Primitive::Long),
        Kind::Boolean => JavaType::Prim(Primitive::Boolean),
        Kind::Reference => JavaType::Class(0, Items::new(alloc)),
        Kind::Text => string_type(alloc),
    }
}

/// The class String (JLS 4.3.3).
pub fn string_type(alloc: Global) -> JavaType
    ensures { result ≡ spec.string }
{
    JavaType::Class(1, Items::new(alloc))
}

/// Whether two modifiers are the same.
pub fn is_same_mod(a: Mod, b: Mod) -> bool
    ensures { result ≡ spec.same_mod a b }
{
    match a {
        Mod::Public => b == Mod::Public,
        Mod::Protected => b == Mod::Protected,
        Mod::Private => b == Mod::Private,
        Mod::Static => b == Mod::Static,
        Mod::Abstract => b == Mod::Abstract,
        Mod::Final => b == Mod::Final,
    }
}

/// Whether a modifier is among those written (JLS 8.1.1, 8.3.1, 8.4.3).
pub fn has(modifier: Mod, mods: &[Mod]) -> bool
    ensures { result ≡ spec.has modifier mods.now }
{
    for other in mods {
        if is_same_mod(*other, modifier) {
            return true;
        }
    }
    false
}
