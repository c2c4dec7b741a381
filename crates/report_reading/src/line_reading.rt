//! Lines, read from left to right.

ghost use Rattle.std.specs.Prelude.{◌≡◌, ◌^◌, ◌-◌, MatchOption, Some, None};
ghost use Rattle.std.specs.String.{string_bytes};
ghost use Rattle.report_reading.specs.Lines.{parts};
ghost use Rattle.report_reading.specs.Reading as spec;
ghost use Rattle.report_reading.specs.Reading.{Gives};

use crate::line::Line;
use crate::stop::Stop;
use crate::words::{kind_of, number_of, path_of, place_of, seek};
use java_tree::Items;
use std::alloc::Global;

#[tactic(auto, unfolding(crate::specs::Reading::field))]
fn path_to(alloc: Global, text: &[u8], end: u8) -> Result<(String, &[u8]), Stop>
    ensures { Gives (λ x. (string_bytes x.0, x.1.now)) result (spec.field spec.path_of end text.now) }
{
    let (word, rest) = seek(text, end)?;
    Ok((path_of(alloc, word)?, rest))
}

#[tactic(auto, unfolding(crate::specs::Reading::field))]
fn kind_to(alloc: Global, text: &[u8], end: u8) -> Result<(String, &[u8]), Stop>
    ensures { Gives (λ x. (string_bytes x.0, x.1.now)) result (spec.field spec.kind_of end text.now) }
{
    let (word, rest) = seek(text, end)?;
    Ok((kind_of(alloc, word)?, rest))
}

#[tactic(auto, unfolding(crate::specs::Reading::field))]
fn place_to(alloc: Global, text: &[u8], end: u8) -> Result<(String, &[u8]), Stop>
    ensures { Gives (λ x. (string_bytes x.0, x.1.now)) result (spec.field spec.place_of end text.now) }
{
    let (word, rest) = seek(text, end)?;
    Ok((place_of(alloc, word)?, rest))
}

#[tactic(auto, unfolding(crate::specs::Reading::field))]
fn number_to(alloc: Global, text: &[u8], end: u8) -> Result<(u64, &[u8]), Stop>
    ensures { Gives (λ x. (x.0, x.1.now)) result (spec.field (spec.number_of (2 ^ 64 - 1)) end text.now) }
{
    let (word, rest) = seek(text, end)?;
    Ok((number_of(alloc, word, u64::MAX)?, rest))
}

#[tactic(auto, unfolding(crate::specs::Reading::field))]
fn small_to(alloc: Global, text: &[u8], end: u8) -> Result<(u32, &[u8]), Stop>
    ensures { Gives (λ x. (x.0, x.1.now)) result (spec.field (spec.number_of (2 ^ 32 - 1)) end text.now) }
{
    let (word, rest) = seek(text, end)?;
    let number = number_of(alloc, word, u32::MAX as u64)?;
    Ok((number as u32, rest))
}

// What stands behind some bytes, where the text begins with them.
#[tactic(auto, unfolding(crate::specs::Reading::after))]
fn after<'a>(text: &'a [u8], front: &[u8]) -> Option<&'a [u8]>
    ensures { MatchOption result (spec.after front.now text.now ≡ None) (λ rest. spec.after front.now text.now ≡ Some rest.now) }
{
    text.strip_prefix(front)
}

#[tactic(auto, unfolding(crate::specs::Reading::bytes_at))]
fn bytes_at(alloc: Global, text: &[u8], size: u64) -> Result<(Items<u8>, &[u8]), Stop>
    ensures { Gives (λ x. (x.0, x.1.now)) result (spec.bytes_at size text.now) }
{
    let size = size as usize;
    if text.len() < size {
        return Err(Stop::Form);
    }
    let (made, rest) = text.split_at(size);
    Ok((Items::from_slice(alloc, made)?, rest))
}

// `FILE FROM TO BYTES TEXT`
#[tactic(auto, unfolding(crate::specs::Reading::edit_at))]
fn edit_at(alloc: Global, text: &[u8]) -> Result<(Line, &[u8]), Stop>
    ensures { Gives (λ x. (parts x.0, x.1.now)) result (spec.edit_at text.now) }
{
    let (file, rest) = path_to(alloc, text, b' ')?;
    let (from, rest) = small_to(alloc, rest, b' ')?;
    let (to, rest) = small_to(alloc, rest, b' ')?;
    let (size, rest) = number_to(alloc, rest, b' ')?;
    let (made, rest) = bytes_at(alloc, rest, size)?;
    let Some(rest) = after(rest, b"\n") else {
        return Err(Stop::Form);
    };
    Ok((
        Line::Edit {
            file,
            from,
            to,
            text: made,
        },
        rest,
    ))
}

// `FILE BYTES`
#[tactic(auto, unfolding(crate::specs::Reading::create_at))]
fn create_at(alloc: Global, text: &[u8]) -> Result<(Line, &[u8]), Stop>
    ensures { Gives (λ x. (parts x.0, x.1.now)) result (spec.create_at text.now) }
{
    let (file, rest) = path_to(alloc, text, b' ')?;
    let (bytes, rest) = number_to(alloc, rest, b'\n')?;
    Ok((Line::Create { file, bytes }, rest))
}

// `K edits`
#[tactic(auto, unfolding(crate::specs::Reading::done_at))]
fn done_at(alloc: Global, text: &[u8]) -> Result<(Line, &[u8]), Stop>
    ensures { Gives (λ x. (parts x.0, x.1.now)) result (spec.done_at text.now) }
{
    let (edits, rest) = small_to(alloc, text, b' ')?;
    let Some(rest) = after(rest, b"edits\n") else {
        return Err(Stop::Form);
    };
    Ok((Line::Done { edits }, rest))
}

// `KIND NODE then NEXT`
#[tactic(auto, unfolding(crate::specs::Reading::because_at))]
fn because_at(alloc: Global, place: String, text: &[u8]) -> Result<(Line, &[u8]), Stop>
    ensures { Gives (λ x. (parts x.0, x.1.now)) result (spec.because_at (string_bytes place) text.now) }
{
    let (kind, rest) = kind_to(alloc, text, b' ')?;
    let (node, rest) = place_to(alloc, rest, b' ')?;
    let Some(rest) = after(rest, b"then ") else {
        return Err(Stop::Form);
    };
    let (next, rest) = place_to(alloc, rest, b'\n')?;
    Ok((
        Line::Kept {
            place,
            kind,
            node,
            next: Some(next),
        },
        rest,
    ))
}

// `KIND NODE`
#[tactic(auto, unfolding(crate::specs::Reading::needs_at))]
fn needs_at(alloc: Global, place: String, text: &[u8]) -> Result<(Line, &[u8]), Stop>
    ensures { Gives (λ x. (parts x.0, x.1.now)) result (spec.needs_at (string_bytes place) text.now) }
{
    let (kind, rest) = kind_to(alloc, text, b' ')?;
    let (node, rest) = place_to(alloc, rest, b'\n')?;
    Ok((
        Line::Kept {
            place,
            kind,
            node,
            next: None,
        },
        rest,
    ))
}

// `PLACE because ..` or `PLACE needs ..`
#[tactic(auto, unfolding(crate::specs::Reading::kept_at))]
fn kept_at(alloc: Global, text: &[u8]) -> Result<(Line, &[u8]), Stop>
    ensures { Gives (λ x. (parts x.0, x.1.now)) result (spec.kept_at text.now) }
{
    let (place, rest) = place_to(alloc, text, b' ')?;
    if let Some(rest) = after(rest, b"because ") {
        return because_at(alloc, place, rest);
    }
    let Some(rest) = after(rest, b"needs ") else {
        return Err(Stop::Form);
    };
    needs_at(alloc, place, rest)
}

/// The first line, and what stands behind it.
#[tactic(auto, unfolding(crate::specs::Reading::line_at))]
pub(crate) fn line_at(alloc: Global, text: &[u8]) -> Result<(Line, &[u8]), Stop>
    ensures { Gives (λ x. (parts x.0, x.1.now)) result (spec.line_at text.now) }
{
    if let Some(rest) = after(text, b"edit ") {
        return edit_at(alloc, rest);
    }
    if let Some(rest) = after(text, b"create ") {
        return create_at(alloc, rest);
    }
    if let Some(rest) = after(text, b"kept ") {
        return kept_at(alloc, rest);
    }
    let Some(rest) = after(text, b"done ") else {
        return Err(Stop::Form);
    };
    done_at(alloc, rest)
}
