//! Conversions of primitives (JLS 5.1.2, 5.1.3 and 5.5). A smaller type takes the low bits.

ghost use Rattle.std.specs.Prelude.{◌≡◌};
ghost use Rattle.std.specs.Int.{w32, int_wrap};
ghost use Rattle.java_tree.specs.declared.tree.Primitive.TheVariants as prim;
ghost use Rattle.core_meaning.specs.Numbers as spec;

use core_meaning::Value;
use java_core::Kind;
use java_tree::tree::Primitive;

#[tactic(auto, using(crate::proofs::Wraps::low_bits))]
fn low_int(n: i64) -> i32
    ensures { result ≡ int_wrap w32 n }
{
    ((n.cast_unsigned() % 0x1_0000_0000) as u32).cast_signed()
}

fn low_char(n: i64) -> u16
    ensures { result ≡ spec.low_char n }
{
    (n.cast_unsigned() % 0x1_0000) as u16
}

fn as_int(a: Value) -> Option<Value>
    ensures { result ≡ spec.as_primitive prim.Int a }
{
    match a {
        Value::Int(_) => Some(a),
        Value::Long(n) => Some(Value::Int(low_int(n))),
        Value::Char(c) => Some(Value::Int(i32::from(c))),
        _ => None,
    }
}

fn as_long(a: Value) -> Option<Value>
    ensures { result ≡ spec.as_primitive prim.Long a }
{
    match a {
        Value::Int(n) => Some(Value::Long(i64::from(n))),
        Value::Long(_) => Some(a),
        Value::Char(c) => Some(Value::Long(i64::from(c))),
        _ => None,
    }
}

fn as_char(a: Value) -> Option<Value>
    ensures { result ≡ spec.as_primitive prim.Char a }
{
    match a {
        Value::Int(n) => Some(Value::Char(low_char(i64::from(n)))),
        Value::Long(n) => Some(Value::Char(low_char(n))),
        Value::Char(_) => Some(a),
        _ => None,
    }
}

fn as_boolean(a: Value) -> Option<Value>
    ensures { result ≡ spec.as_primitive prim.Boolean a }
{
    match a {
        Value::Truth(_) => Some(a),
        _ => None,
    }
}

/// A number as one of a primitive type, and a truth value as itself.
pub fn as_primitive(to: Primitive, a: Value) -> Option<Value>
    ensures { result ≡ spec.as_primitive to a }
{
    match to {
        Primitive::Int => as_int(a),
        Primitive::Long => as_long(a),
        Primitive::Char => as_char(a),
        Primitive::Boolean => as_boolean(a),
    }
}

/// What a variable holds, as the operator of a compound assignment works on it (JLS 15.26.2).
pub fn as_kind(kind: Kind, a: Value) -> Option<Value>
    ensures { result ≡ spec.as_kind kind a }
{
    match kind {
        Kind::Int => as_int(a),
        Kind::Long => as_long(a),
        Kind::Boolean => as_boolean(a),
        Kind::Reference => Some(a),
        Kind::Text => Some(a),
    }
}
