//! Lines and columns, both from 1. A column counts bytes.

ghost use Rattle.std.specs.Prelude.{◌≡◌, ℕ, ◌<◌, ◌+◌, ◌-◌, ◌≤◌, ◌^◌, ◌∷◌, length, drop, IfSome, IfNone};
ghost use Rattle.edit_writer.specs.Places as spec;

/// The place of a byte.
#[derive(Clone, Copy, Debug, PartialEq, Eq)]
pub struct Place {
    pub line: u32,
    pub col: u32,
}

/// Whether a byte is the last of its line, by the byte behind it.
fn ends_line(byte: u8, behind: &[u8]) -> bool
    ensures { result ≡ spec.ends_line byte behind.now }
{
    byte == b'\n' || byte == b'\r' && !begins_with_feed(behind)
}

fn begins_with_feed(behind: &[u8]) -> bool
    ensures { result ≡ spec.begins_with_feed behind.now }
{
    match behind {
        [] => false,
        [byte, ..] => *byte == b'\n',
    }
}

/// The place behind one byte more.
fn step(at: Place, byte: u8, behind: &[u8]) -> Place
    requires line { at.line < 2 ^ 32 - 1 }
    requires col { at.col < 2 ^ 32 - 1 }
    ensures { result ≡ spec.place_from at.line at.col (byte ∷ behind.now) 1 }
{
    if ends_line(byte, behind) {
        Place {
            line: at.line + 1,
            col: 1,
        }
    } else {
        Place {
            line: at.line,
            col: at.col + 1,
        }
    }
}

/// The place of the byte at an offset, or of the end.
pub fn place_at(text: &[u8], offset: usize) -> Place
    requires size { length text.now < 2 ^ 31 }
    requires within { offset ≤ length text.now }
    ensures { result ≡ spec.place_at text.now offset }
{
    let mut at = Place { line: 1, col: 1 };
    let mut rest = text;
    let mut left = offset;
    'bytes: while let Some((byte, behind)) = rest.split_first() {
        if left == 0 {
            return at;
        }
        at = step(at, *byte, behind);
        rest = behind;
        left -= 1;
    }
    at
}

/// The offset of the byte at a place, where there is one.
pub fn offset_at(text: &[u8], place: Place) -> Option<usize>
    requires size { length text.now < 2 ^ 31 }
    ensures within { IfSome result (λ p. p < length text.now) }
    ensures there { IfSome result (λ p. spec.place_at text.now p ≡ place) }
    ensures alone { IfSome result (λ p. (q : ℕ) → q < length text.now → spec.place_at text.now q ≡ place → q ≡ p) }
    ensures none { IfNone result ((q : ℕ) → q < length text.now → spec.place_at text.now q ≡ place → ⊥) }
{
    let mut at = Place { line: 1, col: 1 };
    let mut rest = text;
    let mut offset = 0;
    'bytes: while let Some((byte, behind)) = rest.split_first() {
        if at == place {
            return Some(offset);
        }
        at = step(at, *byte, behind);
        rest = behind;
        offset += 1;
    }
    None
}
