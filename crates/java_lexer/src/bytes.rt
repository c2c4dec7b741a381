//! Sets of bytes.

ghost use Rattle.std.specs.Prelude.{◌≡◌, ◌≤◌, length};
ghost use Rattle.std.specs.List.{prefix_len};
ghost use Rattle.java_lexer.specs.Bytes as bytes;
ghost use Rattle.java_lexer.specs.Scan as spec;

/// What a byte may be.
#[derive(Clone, Copy, Debug, PartialEq, Eq)]
pub enum Set {
    /// White space (JLS 3.6).
    Blank,
    /// No line end.
    InLine,
    /// The first byte of a word, or a later one.
    Start,
    Part,
    Digit,
    Nonzero,
    Zero,
    Octal,
    /// `8` and `9`
    PastOctal,
    Hex,
    /// `0` to `3`
    UpToThree,
    /// `x` of hexadecimal numbers
    X,
    /// The suffix of a long number.
    Long,
    /// `e` of floating literals
    Exponent,
    Sign,
    /// The suffix of a floating literal.
    Float,
    Dot,
    Slash,
    Star,
    Backslash,
    Quote,
    DoubleQuote,
    /// What stands behind a `\` in an escape that is not octal.
    Simple,
    /// What stands for itself in a string.
    InText,
    /// ASCII that stands for itself between single quotes.
    InChar,
    /// The first byte of a character of two bytes in UTF-8, or of three.
    FirstOfTwo,
    FirstOfThree,
    /// A later byte of such a character.
    Continuation,
    /// An operator or separator by itself.
    Operator,
    /// Makes another operator with `=` behind it.
    TakesEquals,
    /// Makes another operator if it stands twice.
    Doubled,
}

impl Set {
    pub fn has(self, b: u8) -> bool
        ensures { result ≡ spec.has self b }
    {
        match self {
            Set::Blank => matches!(b, b' ' | b'\t' | 0x0c | b'\n' | b'\r'),
            Set::InLine => !matches!(b, b'\n' | b'\r'),
            Set::Start => b.is_ascii_alphabetic() || matches!(b, b'_' | b'$'),
            Set::Part => b.is_ascii_alphabetic() || matches!(b, b'_' | b'$') || b.is_ascii_digit(),
            Set::Digit => b.is_ascii_digit(),
            Set::Nonzero => matches!(b, b'1'..=b'9'),
            Set::Zero => b == b'0',
            Set::Octal => matches!(b, b'0'..=b'7'),
            Set::PastOctal => matches!(b, b'8' | b'9'),
            Set::Hex => b.is_ascii_hexdigit(),
            Set::UpToThree => matches!(b, b'0'..=b'3'),
            Set::X => matches!(b, b'x' | b'X'),
            Set::Long => matches!(b, b'l' | b'L'),
            Set::Exponent => matches!(b, b'e' | b'E'),
            Set::Sign => matches!(b, b'+' | b'-'),
            Set::Float => matches!(b, b'f' | b'F' | b'd' | b'D'),
            Set::Dot => b == b'.',
            Set::Slash => b == b'/',
            Set::Star => b == b'*',
            Set::Backslash => b == b'\\',
            Set::Quote => b == b'\'',
            Set::DoubleQuote => b == b'"',
            Set::Simple => matches!(b, b'b' | b't' | b'n' | b'f' | b'r' | b'"' | b'\'' | b'\\'),
            Set::InText => !matches!(b, b'"' | b'\\' | b'\n' | b'\r'),
            Set::InChar => b < 128 && !matches!(b, b'\'' | b'\\' | b'\n' | b'\r'),
            Set::FirstOfTwo => matches!(b, 192..=223),
            Set::FirstOfThree => matches!(b, 224..=239),
            Set::Continuation => matches!(b, 128..=191),
            Set::Operator => matches!(
                b,
                b'(' | b')'
                    | b'{'
                    | b'}'
                    | b'['
                    | b']'
                    | b';'
                    | b','
                    | b'.'
                    | b'='
                    | b'>'
                    | b'<'
                    | b'!'
                    | b'~'
                    | b'?'
                    | b':'
                    | b'+'
                    | b'-'
                    | b'*'
                    | b'/'
                    | b'&'
                    | b'|'
                    | b'^'
                    | b'%'
                    | b'@'
            ),
            Set::TakesEquals => matches!(
                b,
                b'=' | b'>' | b'<' | b'!' | b'+' | b'-' | b'*' | b'/' | b'&' | b'|' | b'^' | b'%'
            ),
            Set::Doubled => matches!(b, b'+' | b'-' | b'&' | b'|' | b'<'),
        }
    }

    /// How many bytes in front of a text there are in the set.
    pub fn run(self, text: &[u8]) -> usize
        ensures value { result ≡ prefix_len (spec.has self) text.now }
        ensures within { result ≤ length text.now }
    {
        text.iter().take_while(|b| self.has(**b)).count()
    }

    /// 1 where the first byte is in the set, else 0.
    pub fn one(self, text: &[u8]) -> usize
        ensures value { result ≡ spec.one_len (spec.has self) text.now }
        ensures within { result ≤ length text.now }
    {
        match text {
            [b, ..] if self.has(*b) => 1,
            _ => 0,
        }
    }

    /// Whether the first byte is in the set. The byte 0 stands for the end of the text.
    pub fn first(self, text: &[u8]) -> bool
        ensures { result ≡ spec.has self (bytes.head text.now) }
    {
        match text {
            [b, ..] => self.has(*b),
            [] => self.has(0),
        }
    }
}

/// The first byte, and 0 where there is none.
pub fn head(text: &[u8]) -> u8
    ensures { result ≡ bytes.head text.now }
{
    match text {
        [b, ..] => *b,
        [] => 0,
    }
}

/// Whether two bytes are an operator.
pub fn is_pair(b: u8, c: u8) -> bool
    ensures { result ≡ bytes.is_pair b c }
{
    (Set::TakesEquals.has(b) && c == b'=') || (Set::Doubled.has(b) && c == b)
}

/// Whether three bytes are an operator.
pub fn is_triple(b: u8, c: u8, d: u8) -> bool
    ensures { result ≡ bytes.is_triple b c d }
{
    (b == b'<' && c == b'<' && d == b'=') || (b == b'.' && c == b'.' && d == b'.')
}
