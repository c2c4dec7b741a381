//! Operators, of one token or more.

ghost use Rattle.std.specs.Prelude.{◌≡◌, ◌+◌, ◌<◌, length, IsTrue};
ghost use Rattle.java_grammar.specs.Expressions.{level_of};
ghost use Rattle.java_parse_term.specs.Signs as spec;

use crate::marks::{is_infix, is_keyword};
use java_grammar::{Keyword, Mark, Sort, Tok, from_at, sort_at, to_at};
use java_tree::tree::{BinOp, UnOp};

/// What stands at a place, and the place behind it.
#[derive(Clone, Copy)]
pub struct Standing<T> {
    pub is: T,
    pub next: usize,
}

/// How loose an operator binds: 3 the tightest of the infix operators, 12 the loosest (JLS 15.17 to 15.24).
pub fn looseness(op: BinOp) -> u8
    ensures { result ≡ level_of op }
{
    match op {
        BinOp::LogicOr => 12,
        BinOp::LogicAnd => 11,
        BinOp::BitOr => 10,
        BinOp::BitXor => 9,
        BinOp::BitAnd => 8,
        BinOp::Equal | BinOp::NotEqual => 7,
        BinOp::Less | BinOp::Greater | BinOp::LessEqual | BinOp::GreaterEqual => 6,
        BinOp::ShiftLeft | BinOp::ShiftRight | BinOp::ShiftRightZero => 5,
        BinOp::Add | BinOp::Sub => 4,
        BinOp::Mul | BinOp::Div | BinOp::Rem => 3,
    }
}

/// The operator before an operand (JLS 15.15).
pub fn prefix_of(sort: Sort) -> Option<UnOp>
    ensures { result ≡ spec.prefix_of sort }
{
    match sort {
        Sort::Infix(BinOp::Add) => Some(UnOp::Plus),
        Sort::Infix(BinOp::Sub) => Some(UnOp::Minus),
        Sort::Mark(Mark::Invert) => Some(UnOp::Invert),
        Sort::Mark(Mark::Not) => Some(UnOp::Not),
        _ => None,
    }
}

/// `++` as true, or `--`.
pub fn step_of(sort: Sort) -> Option<bool>
    ensures { result ≡ spec.step_of sort }
{
    match sort {
        Sort::Step(up) => Some(up),
        _ => None,
    }
}

/// Whether it is `+`, `-`, `++` or `--`.
pub fn is_sign(sort: Sort) -> bool
    ensures { result ≡ spec.is_sign sort }
{
    matches!(sort, Sort::Infix(BinOp::Add | BinOp::Sub) | Sort::Step(_))
}

/// Whether an operand begins so that goes on with no expression.
pub fn is_begin(sort: Sort) -> bool
    ensures { result ≡ spec.is_begin sort }
{
    match sort {
        Sort::Word | Sort::Number(_) | Sort::Char | Sort::Text => true,
        Sort::Keyword(
            Keyword::True
            | Keyword::False
            | Keyword::Null
            | Keyword::This
            | Keyword::Super
            | Keyword::New,
        ) => true,
        Sort::Mark(Mark::Open | Mark::Invert | Mark::Not) => true,
        _ => false,
    }
}

// Whether the operator stands right behind the token.
#[tactic(auto, unfolding(crate::specs::Signs::joins))]
fn joins(toks: &[Tok], op: BinOp, at: usize) -> bool
    requires { at < length toks.now }
    ensures value { result ≡ spec.joins toks.now op at }
    ensures within { IsTrue result → at + 1 < length toks.now }
{
    to_at(toks, at) == from_at(toks, at + 1) && is_infix(toks, op, at + 1)
}

// The operator that begins with a `>`.
#[tactic(auto, unfolding(crate::specs::Signs::right_at))]
fn right_at(toks: &[Tok], at: usize) -> Option<Standing<BinOp>>
    requires { at < length toks.now }
    ensures { result ≡ spec.right_at toks.now at }
{
    if !joins(toks, BinOp::Greater, at) {
        if joins(toks, BinOp::GreaterEqual, at) {
            return None;
        }
        return Some(Standing {
            is: BinOp::Greater,
            next: at + 1,
        });
    }
    if joins(toks, BinOp::Greater, at + 1) {
        return Some(Standing {
            is: BinOp::ShiftRightZero,
            next: at + 3,
        });
    }
    if joins(toks, BinOp::GreaterEqual, at + 1) {
        return None;
    }
    Some(Standing {
        is: BinOp::ShiftRight,
        next: at + 2,
    })
}

/// The infix operator at a place. Shifts to the right are adjacent tokens.
#[tactic(auto, using(crate::proofs::TokLemmas::nothing_past), unfolding(crate::specs::Signs::infix_at))]
pub fn infix_at(toks: &[Tok], at: usize) -> Option<Standing<BinOp>>
    ensures { result ≡ spec.infix_at toks.now at }
{
    if at >= toks.len() {
        return None;
    }
    match sort_at(toks, at) {
        Sort::Infix(BinOp::Greater) => right_at(toks, at),
        Sort::Infix(BinOp::ShiftRight | BinOp::ShiftRightZero) => None,
        Sort::Infix(op) => Some(Standing {
            is: op,
            next: at + 1,
        }),
        _ => None,
    }
}

// The assignment that begins with a `>`.
#[tactic(auto, unfolding(crate::specs::Signs::right_assign))]
fn right_assign(toks: &[Tok], at: usize) -> Option<Standing<Option<BinOp>>>
    requires { at < length toks.now }
    ensures { result ≡ spec.right_assign toks.now at }
{
    if !joins(toks, BinOp::Greater, at) {
        if joins(toks, BinOp::GreaterEqual, at) {
            return Some(Standing {
                is: Some(BinOp::ShiftRight),
                next: at + 2,
            });
        }
        return None;
    }
    if joins(toks, BinOp::Greater, at + 1) {
        return None;
    }
    if joins(toks, BinOp::GreaterEqual, at + 1) {
        return Some(Standing {
            is: Some(BinOp::ShiftRightZero),
            next: at + 3,
        });
    }
    None
}

/// The assignment at a place, with its operator.
#[tactic(auto, using(crate::proofs::TokLemmas::nothing_past), unfolding(crate::specs::Signs::assign_at))]
pub fn assign_at(toks: &[Tok], at: usize) -> Option<Standing<Option<BinOp>>>
    ensures { result ≡ spec.assign_at toks.now at }
{
    if at >= toks.len() {
        return None;
    }
    match sort_at(toks, at) {
        Sort::Infix(BinOp::Greater) => right_assign(toks, at),
        Sort::Assign(Some(BinOp::ShiftRight | BinOp::ShiftRightZero)) => None,
        Sort::Assign(op) => Some(Standing {
            is: op,
            next: at + 1,
        }),
        _ => None,
    }
}

/// How loose the infix operator or `instanceof` at a place is, and 16 where there is none.
#[tactic(auto, unfolding(crate::specs::Signs::level_at))]
pub fn level_at(toks: &[Tok], at: usize) -> u8
    ensures { result ≡ spec.level_at toks.now at }
{
    match infix_at(toks, at) {
        Some(found) => looseness(found.is),
        None => {
            if is_keyword(toks, Keyword::InstanceOf, at) {
                6
            } else {
                16
            }
        }
    }
}
