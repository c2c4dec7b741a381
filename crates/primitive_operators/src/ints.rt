//! Operators on numbers of type int (JLS 4.2.2, 5.6.2). What does not fit wraps around.

ghost use Rattle.std.specs.Prelude.{◌≡◌};
ghost use Rattle.std.specs.Int.{w32, cast_unsigned};
ghost use Rattle.java_tree.specs.declared.tree.BinOp.TheVariants as bin;
ghost use Rattle.core_meaning.specs.declared.values.Value.TheVariants as v;
ghost use Rattle.core_meaning.specs.Numbers as spec;

use core_meaning::Made::{self, Makes};
use core_meaning::Value::{Int, Truth};
use java_tree::tree::BinOp;

/// A shift, by the low five bits of the distance (JLS 15.19).
pub(crate) fn shifted(op: BinOp, x: i32, distance: u64) -> Made
    ensures { result ≡ spec.shifted w32 32 v.Int op x distance }
{
    let by = (distance % 32) as u32;
    match op {
        BinOp::ShiftLeft => Makes(Int(x << by)),
        BinOp::ShiftRight => Makes(Int(x >> by)),
        BinOp::ShiftRightZero => Makes(Int((x.cast_unsigned() >> by).cast_signed())),
        _ => Made::NoRule,
    }
}

/// A quotient, which goes towards zero (JLS 15.17.2).
fn divided(x: i32, y: i32) -> Made
    ensures { result ≡ spec.of_numbers w32 32 v.Int bin.Div x y }
{
    if y == 0 {
        return Made::ByZero;
    }
    Makes(Int(x.wrapping_div(y)))
}

/// A remainder, which has the sign of the dividend (JLS 15.17.3).
fn remainder(x: i32, y: i32) -> Made
    ensures { result ≡ spec.of_numbers w32 32 v.Int bin.Rem x y }
{
    if y == 0 {
        return Made::ByZero;
    }
    Makes(Int(x.wrapping_rem(y)))
}

/// Two numbers (JLS 15.17 to 15.22).
#[tactic(auto, using(std::proofs::lemmas::Int::wrapping_add_is, std::proofs::lemmas::Int::wrapping_sub_is))]
pub(crate) fn of_numbers(op: BinOp, x: i32, y: i32) -> Made
    ensures { result ≡ spec.of_numbers w32 32 v.Int op x y }
{
    match op {
        BinOp::Add => Makes(Int(x.wrapping_add(y))),
        BinOp::Sub => Makes(Int(x.wrapping_sub(y))),
        BinOp::Mul => Makes(Int(x.wrapping_mul(y))),
        BinOp::Div => divided(x, y),
        BinOp::Rem => remainder(x, y),
        BinOp::BitAnd => Makes(Int(x & y)),
        BinOp::BitOr => Makes(Int(x | y)),
        BinOp::BitXor => Makes(Int(x ^ y)),
        BinOp::Less => Makes(Truth(x < y)),
        BinOp::Greater => Makes(Truth(x > y)),
        BinOp::LessEqual => Makes(Truth(x <= y)),
        BinOp::GreaterEqual => Makes(Truth(x >= y)),
        BinOp::Equal => Makes(Truth(x == y)),
        BinOp::NotEqual => Makes(Truth(x != y)),
        _ => shifted(op, x, u64::from(y.cast_unsigned())),
    }
}
