//! Words by themselves: numbers, identifiers and names of files.

ghost use Rattle.std.specs.Prelude.{◌≡◌, ◌<◌, ℕ, IsTrue, ◌↔◌, IfSome, IfNone};
ghost use Rattle.java_lexer.specs.Bytes as bytes;
ghost use Rattle.command_words.specs.Names as spec;
ghost use Rattle.command_words.specs.Names.{IsNumber, IsIdentifier, IsPart, IsPath, ArePartBytes};
ghost use Rattle.command_words.specs.Scan.{AreLater, IsSpelled, BeginsNumber};

/// The keywords of JLS 3.9 and the three literals that are words.
const KEYWORDS: [&str; 53] = [
    "abstract",
    "assert",
    "boolean",
    "break",
    "byte",
    "case",
    "catch",
    "char",
    "class",
    "const",
    "continue",
    "default",
    "do",
    "double",
    "else",
    "enum",
    "extends",
    "final",
    "finally",
    "float",
    "for",
    "goto",
    "if",
    "implements",
    "import",
    "instanceof",
    "int",
    "interface",
    "long",
    "native",
    "new",
    "package",
    "private",
    "protected",
    "public",
    "return",
    "short",
    "static",
    "strictfp",
    "super",
    "switch",
    "synchronized",
    "this",
    "throw",
    "throws",
    "transient",
    "try",
    "void",
    "volatile",
    "while",
    "true",
    "false",
    "null",
];

fn is_keyword(word: &str) -> bool
    ensures { result ≡ bytes.is_keyword word.now }
{
    KEYWORDS.contains(&word)
}

fn is_start(b: u8) -> bool
    ensures { result ≡ bytes.is_start b }
{
    b.is_ascii_alphabetic() || matches!(b, b'_' | b'$')
}

fn is_later(b: u8) -> bool
    ensures { result ≡ bytes.is_part b }
{
    is_start(b) || b.is_ascii_digit()
}

fn are_later(bytes: &[u8]) -> bool
    ensures { IsTrue result ↔ AreLater bytes.now }
{
    for b in bytes {
        if !is_later(*b) {
            return false;
        }
    }
    true
}

fn is_word(bytes: &[u8]) -> bool
    ensures { IsTrue result ↔ IsSpelled bytes.now }
{
    match bytes.split_first() {
        Some((first, rest)) => is_start(*first) && are_later(rest),
        None => false,
    }
}

fn is_part_byte(b: u8) -> bool
    ensures { result ≡ spec.is_part_byte b }
{
    is_later(b) || b == b'-' || b == b'.'
}

fn are_part_bytes(bytes: &[u8]) -> bool
    ensures { IsTrue result ↔ ArePartBytes bytes.now }
{
    for b in bytes {
        if !is_part_byte(*b) {
            return false;
        }
    }
    true
}

fn is_part(word: &str) -> bool
    ensures { IsTrue result ↔ IsPart word.now }
{
    match word {
        "" | "." | ".." => false,
        _ => are_part_bytes(word.as_bytes()),
    }
}

// Whether the first byte is a digit other than 0.
fn begins_number(word: &[u8]) -> bool
    ensures { IsTrue result ↔ BeginsNumber word.now }
{
    match word.first() {
        Some(first) => b'0' < *first && *first <= b'9',
        None => false,
    }
}

/// The number that a word writes: at most ten digits, without a leading zero.
pub fn number(word: &str) -> Option<u64>
    ensures some { IfSome result (λ n. IsNumber word.now n) }
    ensures none { IfNone result ((n : ℕ) → IsNumber word.now n → ⊥) }
{
    if word == "0" {
        return Some(0);
    }
    if !begins_number(word.as_bytes()) {
        return None;
    }
    match word.parse::<u64>() {
        Ok(n) => { if n < 10_000_000_000 { Some(n) } else { None } }
        Err(_) => None,
    }
}

/// The number above 0 that a word writes.
pub fn place_number(word: &str) -> Option<u64>
    ensures some { IfSome result (λ n. IsNumber word.now n × (0 < n)) }
    ensures none { IfNone result ((n : ℕ) → IsNumber word.now n → 0 < n → ⊥) }
{
    let n = number(word)?;
    if n == 0 { None } else { Some(n) }
}

/// Whether a word is an identifier (JLS 3.8).
pub fn is_identifier(word: &str) -> bool
    ensures { IsTrue result ↔ IsIdentifier word.now }
{
    is_word(word.as_bytes()) && !is_keyword(word)
}

/// Whether a name is a path: parts joined by single `/`.
pub fn is_path(name: &str) -> bool
    ensures { IsTrue result ↔ IsPath name.now }
{
    let mut tail = name;
    while let Some((part, rest)) = tail.split_once('/') {
        if !is_part(part) {
            return false;
        }
        tail = rest;
    }
    is_part(tail)
}

/// The folder of a file, with its last `/`.
pub fn folder(name: &[u8]) -> &[u8]
    ensures { result.now ≡ spec.folder_of name.now }
{
    let mut end = 0;
    for (at, b) in name.iter().enumerate() {
        if *b == b'/' {
            end = at + 1;
        }
    }
    &name[..end]
}
