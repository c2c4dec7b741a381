//! Operators on values (JLS 15.14, 15.15 and 15.17 to 15.24).

ghost use Rattle.std.specs.Prelude.{◌≡◌, true, false};
ghost use Rattle.java_tree.specs.declared.tree.UnOp.TheVariants as un;
ghost use Rattle.core_meaning.specs.declared.values.Value.TheVariants as v;
ghost use Rattle.core_meaning.specs.Numbers as spec;

use crate::{ints, longs};
use core_meaning::Made::{self, Makes};
use core_meaning::Value;
use java_tree::tree::{BinOp, UnOp};

/// Two truth values (JLS 15.21.2, 15.22.2).
fn of_truths(op: BinOp, x: bool, y: bool) -> Made
    ensures { result ≡ spec.of_truths op x y }
{
    match op {
        BinOp::BitAnd => Makes(Value::Truth(x && y)),
        BinOp::BitOr => Makes(Value::Truth(x || y)),
        BinOp::BitXor => Makes(Value::Truth(x != y)),
        BinOp::Equal => Makes(Value::Truth(x == y)),
        BinOp::NotEqual => Makes(Value::Truth(x != y)),
        _ => Made::NoRule,
    }
}

fn is_same_as_null(b: Value) -> Option<bool>
    ensures { result ≡ spec.same_reference v.Null b }
{
    match b {
        Value::Null => Some(true),
        Value::Ref(_) => Some(false),
        Value::Text(_) => Some(false),
        _ => None,
    }
}

fn is_same_as_object(a: u64, b: Value) -> Option<bool>
    ensures { result ≡ spec.same_reference (v.Ref a) b }
{
    match b {
        Value::Null => Some(false),
        Value::Ref(b) => Some(a == b),
        Value::Text(_) => Some(false),
        _ => None,
    }
}

fn is_same_as_text(a: u64, b: Value) -> Option<bool>
    ensures { result ≡ spec.same_reference (v.Text a) b }
{
    match b {
        Value::Null => Some(false),
        Value::Ref(_) => Some(false),
        Value::Text(b) => Some(a == b),
        _ => None,
    }
}

/// Whether both are null, or one object, array or string; none where one is no reference (JLS 15.21.3).
pub fn same_reference(a: Value, b: Value) -> Option<bool>
    ensures { result ≡ spec.same_reference a b }
{
    match a {
        Value::Null => is_same_as_null(b),
        Value::Ref(a) => is_same_as_object(a, b),
        Value::Text(a) => is_same_as_text(a, b),
        _ => None,
    }
}

fn of_references(op: BinOp, same: Option<bool>) -> Made
    ensures { result ≡ spec.of_references op same }
{
    match same {
        None => Made::NoRule,
        Some(same) => match op {
            BinOp::Equal => Makes(Value::Truth(same)),
            BinOp::NotEqual => Makes(Value::Truth(!same)),
            _ => Made::NoRule,
        },
    }
}

fn of_int(op: BinOp, x: i32, b: Value) -> Made
    ensures { result ≡ spec.operated op (v.Int x) b }
{
    match b {
        Value::Int(y) => ints::of_numbers(op, x, y),
        Value::Long(y) => ints::shifted(op, x, y.cast_unsigned()),
        _ => Made::NoRule,
    }
}

fn of_long(op: BinOp, x: i64, b: Value) -> Made
    ensures { result ≡ spec.operated op (v.Long x) b }
{
    match b {
        Value::Int(y) => longs::shifted(op, x, u64::from(y.cast_unsigned())),
        Value::Long(y) => longs::of_numbers(op, x, y),
        _ => Made::NoRule,
    }
}

fn of_truth(op: BinOp, x: bool, b: Value) -> Made
    ensures { result ≡ spec.operated op (v.Truth x) b }
{
    match b {
        Value::Truth(y) => of_truths(op, x, y),
        _ => Made::NoRule,
    }
}

/// A binary operator on two values that are no strings to be joined. The distance of a shift may be of the other type.
pub fn operated(op: BinOp, a: Value, b: Value) -> Made
    ensures { result ≡ spec.operated op a b }
{
    match a {
        Value::Int(x) => of_int(op, x, b),
        Value::Long(x) => of_long(op, x, b),
        Value::Truth(x) => of_truth(op, x, b),
        _ => of_references(op, same_reference(a, b)),
    }
}

#[tactic(auto, using(std::proofs::lemmas::Int::wrapping_neg_is))]
fn negated(a: Value) -> Option<Value>
    ensures { result ≡ spec.prefixed un.Minus a }
{
    match a {
        Value::Int(n) => Some(Value::Int(n.wrapping_neg())),
        Value::Long(n) => Some(Value::Long(n.wrapping_neg())),
        _ => None,
    }
}

fn inverted(a: Value) -> Option<Value>
    ensures { result ≡ spec.prefixed un.Invert a }
{
    match a {
        Value::Int(n) => Some(Value::Int(!n)),
        Value::Long(n) => Some(Value::Long(!n)),
        _ => None,
    }
}

/// A prefix operator (JLS 15.15.3 to 15.15.6).
pub fn prefixed(op: UnOp, a: Value) -> Option<Value>
    ensures { result ≡ spec.prefixed op a }
{
    match op {
        UnOp::Plus => match a {
            Value::Int(_) => Some(a),
            Value::Long(_) => Some(a),
            _ => None,
        },
        UnOp::Minus => negated(a),
        UnOp::Invert => inverted(a),
        UnOp::Not => match a {
            Value::Truth(b) => Some(Value::Truth(!b)),
            _ => None,
        },
    }
}

#[tactic(auto, using(crate::proofs::Wraps::more_int, crate::proofs::Wraps::more_long))]
fn one_more(a: Value) -> Option<Value>
    ensures { result ≡ spec.stepped true a }
{
    match a {
        Value::Int(n) => Some(Value::Int(n.wrapping_add(1))),
        Value::Long(n) => Some(Value::Long(n.wrapping_add(1))),
        Value::Char(c) => Some(Value::Char(c.wrapping_add(1))),
        _ => None,
    }
}

#[tactic(auto, using(crate::proofs::Wraps::less_int, crate::proofs::Wraps::less_long))]
fn one_less(a: Value) -> Option<Value>
    ensures { result ≡ spec.stepped false a }
{
    match a {
        Value::Int(n) => Some(Value::Int(n.wrapping_sub(1))),
        Value::Long(n) => Some(Value::Long(n.wrapping_sub(1))),
        Value::Char(c) => Some(Value::Char(c.wrapping_sub(1))),
        _ => None,
    }
}

/// One more or one less, in the variable's own type (JLS 15.14.2, 15.14.3, 15.15.1, 15.15.2).
pub fn stepped(up: bool, a: Value) -> Option<Value>
    ensures { result ≡ spec.stepped up a }
{
    if up { one_more(a) } else { one_less(a) }
}
