//! The pieces of a text: white space, comments and tokens.

ghost use Rattle.std.specs.Prelude.{◌≡◌};
ghost use Rattle.java_lexer.specs.Faults as fault;

/// The classes of pieces (JLS 3.5). Keywords are words here.
#[derive(Clone, Copy, Debug, PartialEq, Eq)]
pub enum Class {
    /// One byte of white space.
    Blank,
    LineComment,
    BlockComment,
    Word,
    Integer,
    Floating,
    Character,
    Text,
    Operator,
}

/// A piece and its length in bytes.
#[derive(Clone, Copy, Debug, PartialEq, Eq)]
pub struct Piece {
    pub class: Class,
    pub len: usize,
}

/// What no piece is.
#[derive(Clone, Copy, Debug, PartialEq, Eq)]
pub enum Rule {
    /// A byte that begins nothing.
    Stray,
    /// A number without digits, or with a digit outside its base.
    Number,
    /// No single UTF-16 unit or escape between single quotes.
    Character,
    /// A string with a wrong escape, or not closed on its line.
    Text,
    /// A comment that is not closed.
    Comment,
}

impl Rule {
    /// The number of the rule among X1 to X5.
    pub fn number(self) -> u8
        ensures { result ≡ fault.number self }
    {
        match self {
            Rule::Stray => 1,
            Rule::Number => 2,
            Rule::Character => 3,
            Rule::Text => 4,
            Rule::Comment => 5,
        }
    }
}
