//! Tokens by their places in the list, for parsers.

ghost use Rattle.std.specs.Prelude.{◌≡◌};
ghost use Rattle.java_grammar.specs.Reads as spec;

use crate::token::{Sort, Tok};
use java_tree::tree::Span;

/// The sort of the token at a place, and `End` past the end.
#[tactic(auto, unfolding(crate::specs::Reads::sort_at))]
pub fn sort_at(toks: &[Tok], at: usize) -> Sort
    ensures { result ≡ spec.sort_at toks.now at }
{
    match toks.get(at) {
        Some(tok) => tok.sort,
        None => Sort::End,
    }
}

/// The number of the name of the token at a place, and 0 past the end.
#[tactic(auto, unfolding(crate::specs::Reads::name_at))]
pub fn name_at(toks: &[Tok], at: usize) -> u32
    ensures { result ≡ spec.name_at toks.now at }
{
    match toks.get(at) {
        Some(tok) => tok.name,
        None => 0,
    }
}

/// The byte at which the token at a place begins, and 0 past the end.
#[tactic(auto, unfolding(crate::specs::Reads::from_at))]
pub fn from_at(toks: &[Tok], at: usize) -> u32
    ensures { result ≡ spec.from_at toks.now at }
{
    match toks.get(at) {
        Some(tok) => tok.span.from,
        None => 0,
    }
}

/// The byte after the token at a place, and 0 past the end.
#[tactic(auto, unfolding(crate::specs::Reads::to_at))]
pub fn to_at(toks: &[Tok], at: usize) -> u32
    ensures { result ≡ spec.to_at toks.now at }
{
    match toks.get(at) {
        Some(tok) => tok.span.to,
        None => 0,
    }
}

/// The bytes from the token at a place to the end of the one before `next`.
#[tactic(auto, unfolding(crate::specs::Reads::span_of))]
pub fn span_of(toks: &[Tok], at: usize, next: usize) -> Span
    ensures { result ≡ spec.span_of toks.now at next }
{
    Span {
        from: from_at(toks, at),
        to: to_at(toks, next.saturating_sub(1)),
    }
}
