//! Tests of tokens, and the places behind them.

ghost use Rattle.std.specs.Prelude.{◌≡◌, ◌+◌, ◌<◌, ◌≤◌, length, IsTrue, IfSome};
ghost use Rattle.java_parse_term.specs.Marks as spec;

use java_grammar::{Keyword, Mark, Sort, Tok, sort_at};
use java_tree::tree::BinOp;

#[tactic(auto, unfolding(crate::specs::Marks::same_mark))]
fn same_mark(a: Mark, b: Mark) -> bool
    ensures { result ≡ spec.same_mark a b }
{
    a == b
}

#[tactic(auto, unfolding(crate::specs::Marks::same_keyword))]
fn same_keyword(a: Keyword, b: Keyword) -> bool
    ensures { result ≡ spec.same_keyword a b }
{
    a == b
}

#[tactic(auto, unfolding(crate::specs::Marks::same_op))]
fn same_op(a: BinOp, b: BinOp) -> bool
    ensures { result ≡ spec.same_op a b }
{
    a == b
}

#[tactic(auto, using(crate::proofs::TokLemmas::nothing_past), unfolding(crate::specs::Marks::is_mark))]
pub fn is_mark(toks: &[Tok], mark: Mark, at: usize) -> bool
    ensures value { result ≡ spec.is_mark toks.now mark at }
    ensures within { IsTrue result → at < length toks.now }
{
    if at >= toks.len() {
        return false;
    }
    match sort_at(toks, at) {
        Sort::Mark(found) => same_mark(found, mark),
        _ => false,
    }
}

#[tactic(auto, using(crate::proofs::TokLemmas::nothing_past), unfolding(crate::specs::Marks::is_keyword))]
pub fn is_keyword(toks: &[Tok], keyword: Keyword, at: usize) -> bool
    ensures value { result ≡ spec.is_keyword toks.now keyword at }
    ensures within { IsTrue result → at < length toks.now }
{
    if at >= toks.len() {
        return false;
    }
    match sort_at(toks, at) {
        Sort::Keyword(found) => same_keyword(found, keyword),
        _ => false,
    }
}

#[tactic(auto, using(crate::proofs::TokLemmas::nothing_past), unfolding(crate::specs::Marks::is_infix))]
pub fn is_infix(toks: &[Tok], op: BinOp, at: usize) -> bool
    ensures value { result ≡ spec.is_infix toks.now op at }
    ensures within { IsTrue result → at < length toks.now }
{
    if at >= toks.len() {
        return false;
    }
    match sort_at(toks, at) {
        Sort::Infix(found) => same_op(found, op),
        _ => false,
    }
}

#[tactic(auto, using(crate::proofs::TokLemmas::nothing_past), unfolding(crate::specs::Marks::is_word))]
pub fn is_word(toks: &[Tok], at: usize) -> bool
    ensures value { result ≡ spec.is_word toks.now at }
    ensures within { IsTrue result → at < length toks.now }
{
    if at >= toks.len() {
        return false;
    }
    matches!(sort_at(toks, at), Sort::Word)
}

/// The place behind a separator.
#[tactic(auto, unfolding(crate::specs::Marks::after_mark))]
pub fn after_mark(toks: &[Tok], mark: Mark, at: usize) -> Option<usize>
    ensures value { result ≡ spec.after_mark toks.now mark at }
    ensures within { IfSome result (λ next. next ≤ length toks.now) }
{
    if is_mark(toks, mark, at) {
        Some(at + 1)
    } else {
        None
    }
}

#[tactic(auto, unfolding(crate::specs::Marks::after_keyword))]
pub fn after_keyword(toks: &[Tok], keyword: Keyword, at: usize) -> Option<usize>
    ensures value { result ≡ spec.after_keyword toks.now keyword at }
    ensures within { IfSome result (λ next. next ≤ length toks.now) }
{
    if is_keyword(toks, keyword, at) {
        Some(at + 1)
    } else {
        None
    }
}

#[tactic(auto, unfolding(crate::specs::Marks::after_infix))]
pub fn after_infix(toks: &[Tok], op: BinOp, at: usize) -> Option<usize>
    ensures value { result ≡ spec.after_infix toks.now op at }
    ensures within { IfSome result (λ next. next ≤ length toks.now) }
{
    if is_infix(toks, op, at) {
        Some(at + 1)
    } else {
        None
    }
}

/// The place behind an identifier.
#[tactic(auto, unfolding(crate::specs::Marks::after_word))]
pub fn after_word(toks: &[Tok], at: usize) -> Option<usize>
    ensures value { result ≡ spec.after_word toks.now at }
    ensures within { IfSome result (λ next. next ≤ length toks.now) }
{
    if is_word(toks, at) {
        Some(at + 1)
    } else {
        None
    }
}

/// The place of the identifier behind a dot.
#[tactic(auto, unfolding(crate::specs::Marks::dotted))]
pub fn dotted(toks: &[Tok], at: usize) -> Option<usize>
    ensures { result ≡ spec.dotted toks.now at }
{
    if is_mark(toks, Mark::Dot, at) && is_word(toks, at + 1) {
        Some(at + 1)
    } else {
        None
    }
}
