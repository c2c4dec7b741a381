//! Character and string literals (JLS 3.10.4 to 3.10.6), by what stands behind the opening quote.

ghost use Rattle.std.specs.Prelude.{◌≡◌, ◌≤◌, ◌+◌, length, IfSome};
ghost use Rattle.java_lexer.specs.Scan as spec;
ghost use Rattle.java_lexer.specs.Values as values;

use crate::bytes::Set;

/// How many octal digits an escape has.
pub fn octal_len(text: &[u8]) -> usize
    ensures value { result ≡ values.octal_len text.now }
    ensures within { result ≤ length text.now }
{
    let most = if Set::UpToThree.first(text) { 3 } else { 2 };
    Set::Octal.run(text).min(most)
}

/// The length of the first character of a string, and 0 where there is none.
fn text_char(text: &[u8]) -> usize
    ensures value { result ≡ spec.text_char text.now }
    ensures within { result ≤ length text.now }
{
    match text {
        [b, ..] if Set::InText.has(*b) => 1,
        [b, c, ..] if Set::Backslash.has(*b) && (Set::Simple.has(*c) || Set::Octal.has(*c)) => 2,
        _ => 0,
    }
}

/// The length of a string up to its closing quote, this included.
pub fn quoted(text: &[u8]) -> Option<usize>
    ensures value { result ≡ spec.quoted text.now }
    ensures within { IfSome result (λ n. n ≤ length text.now) }
{
    let mut rest = text;
    let mut at = 0;
    while !Set::DoubleQuote.first(rest) {
        let len = text_char(rest);
        if len == 0 {
            return None;
        }
        let (_, later) = rest.split_at(len);
        rest = later;
        at += len;
    }
    Some(at + 1)
}

fn escape_in_char(text: &[u8]) -> usize
    ensures value { result ≡ spec.escape_in_char text.now }
    ensures within { result ≤ length text.now + 1 }
{
    if Set::Simple.first(text) {
        2
    } else if Set::Octal.first(text) {
        octal_len(text) + 1
    } else {
        0
    }
}

/// The length of one UTF-16 unit or escape, and 0 where there is none.
fn unit_len(text: &[u8]) -> usize
    ensures value { result ≡ spec.unit_len text.now }
    ensures within { result ≤ length text.now }
{
    let [b, rest @ ..] = text else {
        return 0;
    };
    if Set::InChar.has(*b) {
        1
    } else if Set::Backslash.has(*b) {
        escape_in_char(rest)
    } else {
        wide_len(*b, rest)
    }
}

fn wide_len(b: u8, rest: &[u8]) -> usize
    ensures value { result ≡ spec.wide_len b rest.now }
    ensures within { result ≤ length rest.now + 1 }
{
    match rest {
        [c, ..] if Set::FirstOfTwo.has(b) && Set::Continuation.has(*c) => 2,
        [c, d, ..]
            if Set::FirstOfThree.has(b) && Set::Continuation.has(*c) && Set::Continuation.has(*d) =>
            3,
        _ => 0,
    }
}

/// The length of a character literal behind its opening quote.
pub fn character(text: &[u8]) -> Option<usize>
    ensures value { result ≡ spec.character text.now }
    ensures within { IfSome result (λ n. n ≤ length text.now) }
{
    let len = unit_len(text);
    let (_, rest) = text.split_at(len);
    if len > 0 && Set::Quote.first(rest) {
        Some(len + 1)
    } else {
        None
    }
}
