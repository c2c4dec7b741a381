//! Texts that are UTF-8 without Unicode escapes (JLS 3.3).

ghost use Rattle.std.specs.Prelude.{◌≡◌, ◌≤◌, length, IfSome, MatchOption, min, false};
ghost use Rattle.std.specs.Option.{unwrap_or};
ghost use Rattle.java_lexer.specs.Encoding.{IsPlain, IsFirstOdd};
ghost use Rattle.java_lexer.specs.Scan as spec;

use crate::bytes::Set;

fn begins_escape(odd: bool, b: u8, rest: &[u8]) -> bool
    ensures { result ≡ spec.begins_escape odd b rest.now }
{
    !odd && Set::Backslash.has(b) && matches!(rest, [b'u', ..])
}

/// The first Unicode escape.
#[tactic(auto, using(crate::proofs::Lengths::more_more))]
fn first_escape(text: &[u8]) -> Option<usize>
    ensures value { result ≡ spec.first_escape false text.now }
    ensures within { IfSome result (λ n. n ≤ length text.now) }
{
    let mut rest = text;
    let mut at = 0;
    let mut odd = false;
    while let [b, later @ ..] = rest {
        if begins_escape(odd, *b, later) {
            return Some(at);
        }
        odd = Set::Backslash.has(*b) && !odd;
        rest = later;
        at += 1;
    }
    None
}

fn earlier(at: usize, other: Option<usize>) -> usize
    ensures { result ≡ min at (unwrap_or other at) }
{
    match other {
        Some(other) => at.min(other),
        None => at,
    }
}

/// The first place at which a text stops being UTF-8 or a Unicode escape begins, in bytes.
pub fn first_odd(text: &[u8]) -> Option<usize>
    ensures place { MatchOption result (IsPlain text.now) (λ n. IsFirstOdd text.now n) }
    ensures within { IfSome result (λ n. n ≤ length text.now) }
{
    let escape = first_escape(text);
    match str::from_utf8(text) {
        Ok(_) => escape,
        Err(e) => Some(earlier(e.valid_up_to(), escape)),
    }
}
