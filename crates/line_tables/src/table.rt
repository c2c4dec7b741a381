//! Marks of a text, the places of every 64th byte, and other places by them.

ghost use Rattle.std.specs.Prelude.{◌≡◌, ◌<◌, ◌+◌, ◌*◌, ◌≤◌, ◌^◌, length, IfOk};
ghost use Rattle.edit_writer.specs.Places as spec;
ghost use Rattle.line_tables.specs.Marks.{AreMarks};

use edit_writer::{Place, place_at};
use java_tree::{Items, NoMemory};
use std::alloc::Global;

/// How many bytes the marks of a text are apart.
pub const APART: usize = 64;

// The place of the byte that is `more` bytes behind the byte at `base`, whose place is `at`. Takes time for `more` bytes.
fn place_behind(text: &[u8], base: usize, at: Place, more: usize) -> Place
    requires size { length text.now < 2 ^ 31 }
    requires within { base + more ≤ length text.now }
    requires base { at ≡ spec.place_at text.now base }
    ensures { result ≡ spec.place_at text.now (base + more) }
{
    // counted from line 1 and column 1 at `base`
    let inner = place_at(&text[base..], more);
    let line = at.line + (inner.line - 1);
    let col = if inner.line == 1 {
        at.col + (inner.col - 1)
    } else {
        inner.col
    };
    Place { line, col }
}

/// Marks of a text: the places of every 64th byte, from the first on. Takes time for the text, and memory for its marks.
pub fn line_table(alloc: Global, text: &[u8]) -> Result<Items<Place>, NoMemory>
    requires size { length text.now < 2 ^ 31 }
    ensures marks { IfOk result (AreMarks text.now) }
    ensures whole { IfOk result (λ ms. length text.now < APART * length ms) }
{
    let mut marks = Items::new(alloc);
    let mut at = Place { line: 1, col: 1 };
    for number in 0..text.len() / APART {
        marks.push(at)?;
        at = place_behind(text, APART * number, at, APART);
    }
    marks.push(at)?;
    Ok(marks)
}

/// The place of the byte at an offset, or of the end, by marks of its text. Takes time for fewer than 64 bytes where `line_table` made the marks,
/// and for the offset where they end before it.
pub fn place_by(marks: &[Place], text: &[u8], offset: usize) -> Place
    requires size { length text.now < 2 ^ 31 }
    requires within { offset ≤ length text.now }
    requires marks { AreMarks text.now marks.now }
    ensures { result ≡ spec.place_at text.now offset }
{
    let number = offset / APART;
    match marks.get(number) {
        Some(at) => place_behind(text, APART * number, *at, offset % APART),
        None => place_at(text, offset),
    }
}
