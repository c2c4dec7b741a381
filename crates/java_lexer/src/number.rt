//! Numbers (JLS 3.10.1, 3.10.2).

ghost use Rattle.std.specs.Prelude.{◌≡◌, ◌≤◌, ◌<◌, ◌+◌, ◌^◌, length, IfSome, IfOk};
ghost use Rattle.java_lexer.specs.Scan as spec;

use crate::bytes::Set;
use crate::piece::{Class, Piece, Rule};

fn longer(by: usize, len: Option<usize>) -> Option<usize>
    requires { IfSome len (λ n. n + by < 2 ^ 64) }
    ensures { result ≡ spec.more by len }
{
    match len {
        Some(len) => Some(len + by),
        None => None,
    }
}

/// Digits and a suffix.
fn digits(digit: Set, suffix: Set, text: &[u8]) -> usize
    ensures value { result ≡ spec.digits (spec.has digit) (spec.has suffix) text.now }
    ensures within { result ≤ length text.now }
{
    let len = digit.run(text);
    let (_, rest) = text.split_at(len);
    len + suffix.one(rest)
}

/// A hexadecimal number, by what stands behind `0x`.
fn hexadecimal(text: &[u8]) -> Option<usize>
    ensures value { result ≡ spec.hexadecimal text.now }
    ensures within { IfSome result (λ n. (0 < n) × (n ≤ length text.now + 2)) }
{
    if Set::Hex.first(text) {
        Some(digits(Set::Hex, Set::Long, text) + 2)
    } else {
        None
    }
}

/// An octal number, by what stands behind the 0.
fn octal(text: &[u8]) -> Option<usize>
    ensures value { result ≡ spec.octal text.now }
    ensures within { IfSome result (λ n. (0 < n) × (n ≤ length text.now + 1)) }
{
    let (_, rest) = text.split_at(Set::Octal.run(text));
    if Set::PastOctal.first(rest) {
        None
    } else {
        Some(digits(Set::Octal, Set::Long, text) + 1)
    }
}

fn after_zero(text: &[u8]) -> Option<usize>
    ensures value { result ≡ spec.after_zero text.now }
    ensures within { IfSome result (λ n. (0 < n) × (n ≤ length text.now + 1)) }
{
    match text {
        [x, rest @ ..] if Set::X.has(*x) => hexadecimal(rest),
        _ => octal(text),
    }
}

/// An integer literal, by its first digit and what stands behind.
fn integer(b: u8, rest: &[u8]) -> Option<usize>
    ensures value { result ≡ spec.integer b rest.now }
    ensures within { IfSome result (λ n. (0 < n) × (n ≤ length rest.now + 1)) }
{
    if Set::Zero.has(b) {
        after_zero(rest)
    } else {
        Some(digits(Set::Digit, Set::Long, rest) + 1)
    }
}

fn exponent_digits(text: &[u8]) -> Option<usize>
    ensures value { result ≡ spec.exponent_digits text.now }
    ensures within { IfSome result (λ n. n ≤ length text.now) }
{
    if Set::Digit.first(text) {
        Some(digits(Set::Digit, Set::Float, text))
    } else {
        None
    }
}

fn signed(text: &[u8]) -> Option<usize>
    ensures value { result ≡ spec.signed text.now }
    ensures within { IfSome result (λ n. n ≤ length text.now) }
{
    match text {
        [sign, rest @ ..] if Set::Sign.has(*sign) => longer(1, exponent_digits(rest)),
        _ => exponent_digits(text),
    }
}

/// An exponent, and then perhaps a suffix.
fn exponent(text: &[u8]) -> Option<usize>
    ensures value { result ≡ spec.exponent text.now }
    ensures within { IfSome result (λ n. n ≤ length text.now) }
{
    match text {
        [e, rest @ ..] if Set::Exponent.has(*e) => longer(1, signed(rest)),
        _ => None,
    }
}

fn float_end(text: &[u8]) -> usize
    ensures value { result ≡ spec.float_end text.now }
    ensures within { result ≤ length text.now }
{
    match exponent(text) {
        Some(len) => len,
        None => Set::Float.one(text),
    }
}

/// What stands behind the point.
pub fn fraction(text: &[u8]) -> usize
    ensures value { result ≡ spec.fraction text.now }
    ensures within { result ≤ length text.now }
{
    let len = Set::Digit.run(text);
    let (_, rest) = text.split_at(len);
    len + float_end(rest)
}

/// What makes digits a floating literal.
fn after_digits(text: &[u8]) -> Option<usize>
    ensures value { result ≡ spec.after_digits text.now }
    ensures within { IfSome result (λ n. n ≤ length text.now) }
{
    match text {
        [] => None,
        [b, rest @ ..] => {
            if Set::Dot.has(*b) {
                Some(fraction(rest) + 1)
            } else if Set::Float.has(*b) {
                Some(1)
            } else {
                exponent(text)
            }
        }
    }
}

/// A floating literal, by what stands behind its first digit.
fn floating(text: &[u8]) -> Option<usize>
    ensures value { result ≡ spec.floating text.now }
    ensures within { IfSome result (λ n. (0 < n) × (n ≤ length text.now + 1)) }
{
    let len = Set::Digit.run(text);
    let (_, rest) = text.split_at(len);
    longer(len + 1, after_digits(rest))
}

/// The number that begins with a digit.
pub fn number(b: u8, rest: &[u8]) -> Result<Piece, Rule>
    ensures value { result ≡ spec.number_piece b rest.now }
    ensures within { IfOk result (λ p. (0 < p.len) × (p.len ≤ length rest.now + 1)) }
{
    if let Some(len) = floating(rest) {
        return Ok(Piece {
            class: Class::Floating,
            len,
        });
    }
    match integer(b, rest) {
        Some(len) => Ok(Piece {
            class: Class::Integer,
            len,
        }),
        None => Err(Rule::Number),
    }
}
