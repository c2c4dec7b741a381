//! Values of literals, as chapter 3 of the JLS has them.

use java_lexer::{character, integer, is_decimal, text_units};
use std::test::Fail;

/// Integer literals, their values, and whether they are decimal.
const INTEGERS: [(&[u8], Option<u64>, bool); 14] = [
    (b"0", Some(0), true),
    (b"0L", Some(0), true),
    (b"00", Some(0), false),
    (b"2147483648", Some(2147483648), true),
    (b"0777", Some(511), false),
    (b"0xDadaCafe", Some(3671771902), false),
    (b"0x00FFl", Some(255), false),
    (b"9223372036854775808L", Some(9223372036854775808), true),
    (b"18446744073709551615", Some(18446744073709551615), true),
    (b"18446744073709551616", None, true),
    (b"0xFFFFFFFFFFFFFFFF", Some(18446744073709551615), false),
    (b"0x1FFFFFFFFFFFFFFFFL", None, false),
    (
        b"01777777777777777777777",
        Some(18446744073709551615),
        false,
    ),
    (b"0000000000000000000000000012", Some(10), false),
];

#[test]
fn integers_have_these_values(rt: HostRuntime) {
    for (text, value, decimal) in INTEGERS {
        assert_eq!(rt; integer(text), value);
        assert_eq!(rt; is_decimal(text), decimal);
    }
}

/// Character literals and their values.
const CHARACTERS: [(&str, u16); 8] = [
    ("'a'", 97),
    ("'\"'", 34),
    ("'\\''", 39),
    ("'\\n'", 10),
    ("'\\0'", 0),
    ("'\\377'", 255),
    ("'é'", 233),
    ("'€'", 8364),
];

#[test]
fn characters_have_these_values(rt: HostRuntime) {
    for (text, unit) in CHARACTERS {
        assert_eq!(rt; character(text.as_bytes()), unit, "{text}");
    }
}

/// String literals and their values.
const STRINGS: [(&str, &[u16]); 7] = [
    ("\"\"", &[]),
    ("\"Ab\"", &[65, 98]),
    (
        "\"\\b\\t\\n\\f\\r\\\"\\'\\\\\"",
        &[8, 9, 10, 12, 13, 34, 39, 92],
    ),
    ("\"\\0\\18\\377\\400\"", &[0, 1, 56, 255, 32, 48]),
    ("\"\\1234\"", &[83, 52]),
    ("\"Σé€\"", &[931, 233, 8364]),
    ("\"𝄞\"", &[0xd834, 0xdd1e]),
];

#[test]
fn strings_have_these_values(rt: HostRuntime) -> Result<(), Fail> {
    for (text, wanted) in STRINGS {
        let units = text_units(rt.alloc(), text.as_bytes())?;
        assert!(rt; units.as_slice() == wanted, "{text}");
    }
    Ok(())
}
