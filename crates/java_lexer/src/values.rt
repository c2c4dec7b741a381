//! The values of literals (JLS 3.10), by the bytes of their tokens.

ghost use Rattle.std.specs.Prelude.{◌≡◌, ◌≤◌, ◌<◌, ◌+◌, ◌-◌, ◌*◌, ◌/◌, ◌%◌, ◌^◌, ◌++◌, ◌∷◌, false, length, drop, IfOk, OnOk};
ghost use Rattle.std.specs.Char.{digit_value};
ghost use Rattle.std.specs.Char.Escape.{encode_utf16};
ghost use Rattle.std.specs.Str.{continuation_len, lead_bits};
ghost use Rattle.java_lexer.specs.Bytes as bytes;
ghost use Rattle.java_lexer.specs.Values as spec;

use crate::bytes::{Set, head};
use crate::literal::octal_len;
use java_tree::{Items, NoMemory};
use std::alloc::{AllocError, Global};

/// The value of a digit or letter.
fn digit(b: u8) -> u64
    ensures { result ≡ digit_value b }
{
    match b {
        b'0'..=b'9' => (b - b'0') as u64,
        b'A'..=b'Z' => (b - 55) as u64,
        b'a'..=b'z' => (b - 87) as u64,
        _ => 36,
    }
}

/// One digit more, below 2^64.
fn longer(n: u64, base: u64, b: u8) -> Option<u64>
    ensures { result ≡ spec.in_u64 (n * base + digit_value b) }
{
    n.checked_mul(base)?.checked_add(digit(b))
}

/// The number that digits write, up to the suffix.
fn written(base: u64, digits: &[u8]) -> Option<u64>
    requires { 0 < base }
    ensures { result ≡ spec.in_u64 (spec.written base 0 digits.now) }
{
    let mut n = 0;
    let mut rest = digits;
    while let [b, later @ ..] = rest {
        if Set::Long.has(*b) {
            return Some(n);
        }
        n = longer(n, base, *b)?;
        rest = later;
    }
    Some(n)
}

/// The value of an integer literal (JLS 3.10.1), and None exactly where it is 2^64 or more.
pub fn integer(bytes: &[u8]) -> Option<u64>
    ensures { result ≡ spec.in_u64 (spec.integer_value bytes.now) }
{
    match bytes {
        [_, x, digits @ ..] if Set::X.has(*x) => written(16, digits),
        [b'0', ..] => written(8, bytes),
        _ => written(10, bytes),
    }
}

/// Whether an integer literal is decimal: neither hexadecimal nor octal (JLS 3.10.1).
pub fn is_decimal(bytes: &[u8]) -> bool
    ensures { result ≡ spec.is_decimal bytes.now }
{
    match bytes {
        [b'0', b, ..] => !Set::X.has(*b) && !Set::Octal.has(*b),
        _ => true,
    }
}

fn simple_escape(b: u8) -> u16
    ensures { result ≡ spec.simple_escape b }
{
    match b {
        b'b' => 8,
        b't' => 9,
        b'n' => 10,
        b'f' => 12,
        b'r' => 13,
        _ => b as u16,
    }
}

fn escape_len(text: &[u8]) -> usize
    ensures { result ≡ spec.escape_len text.now }
{
    if Set::Octal.first(text) {
        octal_len(text)
    } else {
        1
    }
}

/// What an escape stands for, by what is behind its `\`.
fn escape_unit(text: &[u8]) -> u16
    ensures { result ≡ spec.escape_unit text.now }
{
    if !Set::Octal.first(text) {
        return simple_escape(head(text));
    }
    let (digits, _) = text.split_at(octal_len(text));
    match written(8, digits) {
        Some(n) => n as u16,
        None => unreachable!(),
    }
}

/// One byte more of a character.
fn one_more(c: u32, b: u8) -> u32
    requires { c < 2 ^ 24 }
    ensures value { result ≡ c * 64 + (b - 128) }
    ensures below { result < c * 64 + 128 }
{
    c * 64 + b.saturating_sub(128) as u32
}

fn last(c: u32, rest: &[u8]) -> u32
    requires { c < 2 ^ 24 }
    ensures value { result ≡ spec.decoded 1 c rest.now }
    ensures below { result < c * 64 + 128 }
{
    match rest {
        [b, ..] => one_more(c, *b),
        [] => c,
    }
}

fn last_two(c: u32, rest: &[u8]) -> u32
    requires { c < 2 ^ 16 }
    ensures value { result ≡ spec.decoded 2 c rest.now }
    ensures below { result < c * 4096 + 8320 }
{
    match rest {
        [b, later @ ..] => last(one_more(c, *b), later),
        [] => c,
    }
}

fn last_three(c: u32, rest: &[u8]) -> u32
    requires { c < 2 ^ 8 }
    ensures value { result ≡ spec.decoded 3 c rest.now }
    ensures below { result < c * 262144 + 532608 }
{
    match rest {
        [b, later @ ..] => last_two(one_more(c, *b), later),
        [] => c,
    }
}

/// The character that begins with a byte.
fn decoded(b: u8, rest: &[u8]) -> u32
    ensures value { result ≡ spec.decoded (continuation_len b) (lead_bits b) rest.now }
    ensures below { result < 2 ^ 23 }
{
    if b < 128 {
        b as u32
    } else if b < 224 {
        last(b.saturating_sub(192) as u32, rest)
    } else if b < 240 {
        last_two((b - 224) as u32, rest)
    } else {
        last_three((b - 240) as u32, rest)
    }
}

/// How many bytes follow the first one of a character.
fn later_len(b: u8) -> usize
    ensures { result ≡ continuation_len b }
{
    if b < 128 {
        0
    } else if b < 224 {
        1
    } else if b < 240 {
        2
    } else {
        3
    }
}

fn high_unit(c: u32) -> u16
    requires low { 65536 ≤ c }
    requires high { c < 2 ^ 23 }
    ensures { result ≡ 0xD800 + (c - 65536) / 0x400 }
{
    (0xD800 + (c - 65536) / 0x400) as u16
}

fn low_unit(c: u32) -> u16
    requires { 65536 ≤ c }
    ensures { result ≡ 0xDC00 + (c - 65536) % 0x400 }
{
    (0xDC00 + (c - 65536) % 0x400) as u16
}

fn push_char(units: &mut Items<u16>, c: u32) -> Result<(), AllocError>
    requires { c < 2 ^ 23 }
    ensures { OnOk result (units.new ≡ units.old ++ encode_utf16 c) }
{
    if c < 65536 {
        units.push(c as u16)?;
        return Ok(());
    }
    units.push(high_unit(c))?;
    units.push(low_unit(c))?;
    Ok(())
}

/// The rest behind some bytes.
fn after(len: usize, text: &[u8]) -> &[u8]
    ensures { result.now ≡ drop len text.now }
{
    if len < text.len() {
        let (_, rest) = text.split_at(len);
        return rest;
    }
    &[]
}

/// The units of the first character or escape, and the bytes that it has behind its first one.
fn push_first(units: &mut Items<u16>, b: u8, rest: &[u8]) -> Result<usize, AllocError>
    requires { bytes.is_double_quote b ≡ false }
    ensures { IfOk result (λ n. units.old ++ spec.units 0 (b ∷ rest.now) ≡ units.new ++ spec.units n rest.now) }
{
    if Set::Backslash.has(b) {
        units.push(escape_unit(rest))?;
        return Ok(escape_len(rest));
    }
    push_char(units, decoded(b, rest))?;
    Ok(later_len(b))
}

/// The UTF-16 units of a string literal (JLS 3.10.5, 3.10.6).
pub fn text_units(alloc: Global, bytes: &[u8]) -> Result<Items<u16>, NoMemory>
    ensures { IfOk result (λ units. units ≡ spec.text_units bytes.now) }
{
    let mut units = Items::new(alloc);
    let mut rest = after(1, bytes);
    while let [b, later @ ..] = rest {
        if Set::DoubleQuote.has(*b) {
            return Ok(units);
        }
        let len = push_first(&mut units, *b, later)?;
        rest = after(len, later);
    }
    Ok(units)
}

/// The UTF-16 unit of a character literal (JLS 3.10.4, 3.10.6).
pub fn character(bytes: &[u8]) -> u16
    ensures { result ≡ spec.char_unit bytes.now }
{
    let [_, b, rest @ ..] = bytes else {
        return 0;
    };
    if Set::Backslash.has(*b) {
        return escape_unit(rest);
    }
    let c = decoded(*b, rest);
    if c < 65536 { c as u16 } else { high_unit(c) }
}
