//! Words, and what is read of them.

ghost use Rattle.std.specs.Prelude.{◌≡◌, ℕ, ◌^◌, ◌<◌, ◌≤◌, ◌-◌, [], Some, IfOk};
ghost use Rattle.std.specs.Fmt.{decimal};
ghost use Rattle.std.specs.List.{list_all, slice_split};
ghost use Rattle.std.specs.Str.{bytes_eq};
ghost use Rattle.std.specs.String.{string_bytes};
ghost use Rattle.report_reading.specs.Words as words;
ghost use Rattle.report_reading.specs.Reading as spec;
ghost use Rattle.report_reading.specs.Reading.{Gives};

use crate::stop::Stop;
use std::alloc::Global;

fn is_name_byte(b: u8) -> bool
    ensures { result ≡ words.is_name_byte b }
{
    b.is_ascii_alphanumeric() || b == b'_' || b == b'$' || b == b'-' || b == b'.'
}

fn is_path_byte(b: u8) -> bool
    ensures { result ≡ words.is_path_byte b }
{
    is_name_byte(b) || b == b'/'
}

fn is_word_byte(b: u8) -> bool
    ensures { result ≡ words.is_word_byte b }
{
    is_path_byte(b) || b == b':'
}

fn is_part(part: &[u8]) -> bool
    ensures { result ≡ words.is_part part.now }
{
    !(part.is_empty() || part == b".".as_slice() || part == b"..".as_slice())
}

fn are_parts(word: &[u8]) -> bool
    ensures { result ≡ list_all words.is_part (slice_split words.is_slash word.now) }
{
    word.split(|b| *b == b'/').all(|part| is_part(part))
}

fn are_path_bytes(word: &[u8]) -> bool
    ensures { result ≡ list_all words.is_path_byte word.now }
{
    word.iter().all(|b| is_path_byte(*b))
}

fn is_path(word: &[u8]) -> bool
    ensures { result ≡ words.is_path word.now }
{
    are_path_bytes(word) && are_parts(word)
}

fn are_name_bytes(word: &[u8]) -> bool
    ensures { result ≡ list_all words.is_name_byte word.now }
{
    word.iter().all(|b| is_name_byte(*b))
}

fn is_kind(word: &[u8]) -> bool
    ensures { result ≡ words.is_kind word.now }
{
    !word.is_empty() && are_name_bytes(word)
}

fn are_word_bytes(word: &[u8]) -> bool
    ensures { result ≡ list_all words.is_word_byte word.now }
{
    word.iter().all(|b| is_word_byte(*b))
}

/// The bytes before the first `end`, and those behind it.
pub(crate) fn seek(text: &[u8], end: u8) -> Result<(&[u8], &[u8]), Stop>
    ensures { Gives (λ x. (x.0.now, x.1.now)) result (spec.seek end [] text.now) }
{
    for (at, b) in text.iter().enumerate() {
        if *b == end {
            return Ok((&text[..at], &text[at + 1..]));
        }
    }
    Err(Stop::Form)
}

// The word as text, where each byte is one of words.
#[tactic(auto, unfolding(crate::specs::Reading::text_of))]
fn text_of(alloc: Global, word: &[u8]) -> Result<String, Stop>
    ensures { Gives string_bytes result (spec.text_of word.now) }
{
    if !are_word_bytes(word) {
        return Err(Stop::Form);
    }
    match std::str::from_utf8(word) {
        Ok(text) => Ok(String::from_str(alloc, text)?),
        Err(_) => Err(Stop::Form),
    }
}

/// The name of a file.
#[tactic(auto, unfolding(crate::specs::Reading::path_of))]
pub(crate) fn path_of(alloc: Global, word: &[u8]) -> Result<String, Stop>
    ensures { Gives string_bytes result (spec.path_of word.now) }
{
    if !is_path(word) {
        return Err(Stop::Form);
    }
    text_of(alloc, word)
}

/// A kind, such as `ASSIGN`.
#[tactic(auto, unfolding(crate::specs::Reading::kind_of))]
pub(crate) fn kind_of(alloc: Global, word: &[u8]) -> Result<String, Stop>
    ensures { Gives string_bytes result (spec.kind_of word.now) }
{
    if !is_kind(word) {
        return Err(Stop::Form);
    }
    text_of(alloc, word)
}

// The number that a word writes, maybe with a plus or leading zeros.
fn parsed(word: &[u8]) -> Option<u64>
    ensures { (n : ℕ) → n < 2 ^ 64 → word.now ≡ decimal n → result ≡ Some n }
{
    let Ok(text) = std::str::from_utf8(word) else {
        return None;
    };
    match text.parse::<u64>() {
        Ok(number) => Some(number),
        Err(_) => None,
    }
}

fn is_decimal(alloc: Global, word: &[u8], number: u64) -> Result<bool, Stop>
    ensures { Gives (λ same. same) result (Some (bytes_eq word.now (decimal number))) }
{
    let written = format!(in alloc; "{number}")?;
    Ok(word == written.as_bytes())
}

/// The decimal number, up to `most`, that the word writes without a leading zero.
pub(crate) fn number_of(alloc: Global, word: &[u8], most: u64) -> Result<u64, Stop>
    ensures gives { Gives (λ n. n) result (spec.number_of most word.now) }
    ensures within { IfOk result (λ n. n ≤ most) }
{
    let Some(number) = parsed(word) else {
        return Err(Stop::Form);
    };
    if most < number {
        return Err(Stop::Form);
    }
    if !is_decimal(alloc, word, number)? {
        return Err(Stop::Form);
    }
    Ok(number)
}

/// A text `FILE:LINE:COL`.
#[tactic(auto, unfolding(crate::specs::Reading::place_of))]
pub(crate) fn place_of(alloc: Global, word: &[u8]) -> Result<String, Stop>
    ensures { Gives string_bytes result (spec.place_of word.now) }
{
    let (file, at) = seek(word, b':')?;
    let (line, col) = seek(at, b':')?;
    number_of(alloc, line, u32::MAX as u64)?;
    number_of(alloc, col, u32::MAX as u64)?;
    if !is_path(file) {
        return Err(Stop::Form);
    }
    text_of(alloc, word)
}
