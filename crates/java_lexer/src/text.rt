//! The bytes of tokens.

ghost use Rattle.std.specs.Prelude.{◌≡◌, ◌≤◌, ◌-◌, length, take, drop};
ghost use Rattle.std.specs.Str.{IsUtf8};

use java_tree::tree::Span;

/// The bytes of a span of a text.
pub fn bytes_of(text: &[u8], span: Span) -> &[u8]
    requires order { span.from ≤ span.to }
    requires within { span.to ≤ length text.now }
    ensures { result.now ≡ take (span.to - span.from) (drop span.from text.now) }
{
    let (_, rest) = text.split_at(span.from as usize);
    let (bytes, _) = rest.split_at((span.to - span.from) as usize);
    bytes
}

/// The text of a span whose bytes are UTF-8, as those of a token are.
pub fn text_of(text: &[u8], span: Span) -> &str
    requires order { span.from ≤ span.to }
    requires within { span.to ≤ length text.now }
    requires utf8 { IsUtf8 (take (span.to - span.from) (drop span.from text.now)) }
    ensures { result.now ≡ take (span.to - span.from) (drop span.from text.now) }
{
    match str::from_utf8(bytes_of(text, span)) {
        Ok(text) => text,
        Err(_) => unreachable!(),
    }
}
