//! What operators on two values work on (JLS 5.6, 15.17 to 15.22).

ghost use Rattle.std.specs.Prelude.{◌≡◌, IfOk};
ghost use Rattle.java_core.specs.View.{plain};
ghost use Rattle.type_facts.specs.Facts.{AreFacts, Facts, IsReady};
ghost use Rattle.operator_rules.specs.Operators as spec;

use class_world::JavaType;
use java_core::{CoreExpr, Kind};
use java_tree::tree::{BinOp, Primitive};
use java_tree::{Boxed, NoMemory};
use std::alloc::Global;
use type_facts::Questions;
use type_facts::asks::may_cast;
use type_kinds::conversions::operand;
use type_kinds::kinds::{
    is_boolean, is_numeric, is_primitive, is_string, joint_kind, kind_type, lone_kind,
};

fn are_numeric(s: &JavaType, t: &JavaType) -> bool
    ensures { result ≡ spec.are_numeric s.now t.now }
{
    is_numeric(s) && is_numeric(t)
}

fn are_boolean(s: &JavaType, t: &JavaType) -> bool
    ensures { result ≡ spec.are_boolean s.now t.now }
{
    is_boolean(s) && is_boolean(t)
}

fn is_shift(op: BinOp) -> bool
    ensures { result ≡ spec.is_shift op }
{
    match op {
        BinOp::ShiftLeft | BinOp::ShiftRight | BinOp::ShiftRightZero => true,
        _ => false,
    }
}

fn number_kind(s: &JavaType, t: &JavaType) -> Option<Kind>
    ensures { result ≡ spec.number_kind s.now t.now }
{
    if are_numeric(s, t) {
        Some(joint_kind(s, t))
    } else {
        None
    }
}

fn sum_kind(s: &JavaType, t: &JavaType) -> Option<Kind>
    ensures { result ≡ spec.sum_kind s.now t.now }
{
    if is_string(s) {
        return Some(Kind::Text);
    }
    if is_string(t) {
        return Some(Kind::Text);
    }
    number_kind(s, t)
}

fn shift_kind(s: &JavaType, t: &JavaType) -> Option<Kind>
    ensures { result ≡ spec.shift_kind s.now t.now }
{
    if are_numeric(s, t) {
        Some(lone_kind(s))
    } else {
        None
    }
}

fn bit_kind(s: &JavaType, t: &JavaType) -> Option<Kind>
    ensures { result ≡ spec.bit_kind s.now t.now }
{
    if are_numeric(s, t) {
        return Some(joint_kind(s, t));
    }
    if are_boolean(s, t) {
        return Some(Kind::Boolean);
    }
    None
}

fn reference_kind(alloc: Global, q: &Questions, s: &JavaType, t: &JavaType) -> Option<Kind>
    requires { IsReady q.now }
    ensures { (f : Facts) → AreFacts q.now f → result ≡ spec.reference_kind f s.now t.now }
{
    if is_primitive(s) {
        return None;
    }
    if is_primitive(t) {
        return None;
    }
    if may_cast(alloc, q, s, t) {
        Some(Kind::Reference)
    } else {
        None
    }
}

fn equal_kind(alloc: Global, q: &Questions, s: &JavaType, t: &JavaType) -> Option<Kind>
    requires { IsReady q.now }
    ensures { (f : Facts) → AreFacts q.now f → result ≡ spec.equal_kind f s.now t.now }
{
    if are_numeric(s, t) {
        return Some(joint_kind(s, t));
    }
    if are_boolean(s, t) {
        return Some(Kind::Boolean);
    }
    reference_kind(alloc, q, s, t)
}

/// What an operator works on, where it takes these types: both numbers as the larger one's type, the distance of a shift for itself, `+` with a String as texts (JLS 5.6.2, 15.17 to 15.22).
pub fn kind_by(alloc: Global, q: &Questions, op: BinOp, s: &JavaType, t: &JavaType) -> Option<Kind>
    requires { IsReady q.now }
    ensures { (f : Facts) → AreFacts q.now f → result ≡ spec.kind_by f op s.now t.now }
{
    match op {
        BinOp::Add => sum_kind(s, t),
        BinOp::ShiftLeft | BinOp::ShiftRight | BinOp::ShiftRightZero => shift_kind(s, t),
        BinOp::BitAnd | BinOp::BitOr | BinOp::BitXor => bit_kind(s, t),
        BinOp::Equal | BinOp::NotEqual => equal_kind(alloc, q, s, t),
        _ => number_kind(s, t),
    }
}

/// What a compound assignment works on, where its value can be taken back: a String takes back what `+=` makes; else numbers and truth values, as the operator takes them (JLS 15.26.2).
pub fn compound_kind(
    alloc: Global,
    q: &Questions,
    op: BinOp,
    s: &JavaType,
    t: &JavaType,
) -> Option<Kind>
    requires { IsReady q.now }
    ensures { (f : Facts) → AreFacts q.now f → result ≡ spec.compound_kind f op s.now t.now }
{
    if is_text_sum(op, s) {
        return Some(Kind::Text);
    }
    if are_primitive(s, t) {
        return kind_by(alloc, q, op, s, t);
    }
    None
}

fn is_text_sum(op: BinOp, s: &JavaType) -> bool
    ensures { result ≡ spec.is_text_sum op s.now }
{
    match op {
        BinOp::Add => is_string(s),
        _ => false,
    }
}

fn are_primitive(s: &JavaType, t: &JavaType) -> bool
    ensures { result ≡ spec.are_primitive s.now t.now }
{
    is_primitive(s) && is_primitive(t)
}

fn equal_rule(s: &JavaType, t: &JavaType) -> u8
    ensures { result ≡ spec.equal_rule s.now t.now }
{
    if is_primitive(s) {
        return 49;
    }
    if is_primitive(t) {
        return 49;
    }
    50
}

/// The number of the rule that an operator breaks on types that it does not take.
pub fn binary_rule(op: BinOp, s: &JavaType, t: &JavaType) -> u8
    ensures { result ≡ spec.binary_rule op s.now t.now }
{
    match op {
        BinOp::Equal | BinOp::NotEqual => equal_rule(s, t),
        BinOp::ShiftLeft | BinOp::ShiftRight | BinOp::ShiftRightZero => 47,
        BinOp::BitAnd | BinOp::BitOr | BinOp::BitXor => 51,
        BinOp::Less | BinOp::Greater | BinOp::LessEqual | BinOp::GreaterEqual => 48,
        _ => 45,
    }
}

/// The type of what an operator makes (JLS 15.17 to 15.22).
pub fn binary_type(alloc: Global, op: BinOp, kind: Kind) -> JavaType
    ensures { result ≡ spec.binary_type op kind }
{
    match op {
        BinOp::Equal | BinOp::NotEqual => JavaType::Prim(Primitive::Boolean),
        BinOp::Less | BinOp::Greater => JavaType::Prim(Primitive::Boolean),
        BinOp::LessEqual | BinOp::GreaterEqual => JavaType::Prim(Primitive::Boolean),
        _ => kind_type(alloc, kind),
    }
}

fn takes_numbers(kind: Kind) -> bool
    ensures { result ≡ spec.takes_numbers kind }
{
    match kind {
        Kind::Int | Kind::Long => true,
        Kind::Boolean | Kind::Reference | Kind::Text => false,
    }
}

/// The left operand, for what the operator works on (JLS 5.6).
pub fn left_operand(
    alloc: Global,
    kind: Kind,
    x: Boxed<CoreExpr>,
) -> Result<Boxed<CoreExpr>, NoMemory>
    ensures { IfOk result (λ r. plain r ≡ spec.left_operand kind (plain x)) }
{
    if takes_numbers(kind) {
        operand(alloc, kind, x)
    } else {
        Ok(x)
    }
}

fn right_kind(op: BinOp, kind: Kind, t: &JavaType) -> Kind
    ensures { result ≡ spec.right_kind op kind t.now }
{
    if is_shift(op) { lone_kind(t) } else { kind }
}

/// The right operand: the distance of a shift is promoted for itself (JLS 5.6, 15.19).
#[tactic(auto, using(java_core::proofs::Views::plain_at))]
pub fn right_operand(
    alloc: Global,
    op: BinOp,
    kind: Kind,
    y: Boxed<CoreExpr>,
) -> Result<Boxed<CoreExpr>, NoMemory>
    ensures { IfOk result (λ r. plain r ≡ spec.right_operand op kind (plain y)) }
{
    if takes_numbers(kind) {
        let kind = right_kind(op, kind, &y.get().ty);
        operand(alloc, kind, y)
    } else {
        Ok(y)
    }
}
