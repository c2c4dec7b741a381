//! The methods and constructors of built-in types, as a table.

use crate::words::Word;

/// A type in the signature of a member: `Chars` is `char[]`, and `Text` is String.
#[derive(Clone, Copy)]
pub(crate) enum Shape {
    Boolean,
    Char,
    Int,
    Long,
    Chars,
    Text,
    Object,
}

/// A method, or a constructor where it has no word: its type's number, its parameters and its result.
#[derive(Clone, Copy)]
pub(crate) struct Row {
    pub(crate) owner: u32,
    pub(crate) word: Option<Word>,
    pub(crate) first: Option<Shape>,
    pub(crate) second: Option<Shape>,
    pub(crate) result: Option<Shape>,
}

macro_rules! row {
    ($owner:literal, new()) => {
        row!(@ $owner, None, None, None, None)
    };
    ($owner:literal, new($first:ident)) => {
        row!(@ $owner, None, Some(Shape::$first), None, None)
    };
    ($owner:literal, $word:ident()) => {
        row!(@ $owner, Some(Word::$word), None, None, None)
    };
    ($owner:literal, $word:ident($first:ident)) => {
        row!(@ $owner, Some(Word::$word), Some(Shape::$first), None, None)
    };
    ($owner:literal, $word:ident() -> $result:ident) => {
        row!(@ $owner, Some(Word::$word), None, None, Some(Shape::$result))
    };
    ($owner:literal, $word:ident($first:ident) -> $result:ident) => {
        row!(@ $owner, Some(Word::$word), Some(Shape::$first), None, Some(Shape::$result))
    };
    ($owner:literal, $word:ident($first:ident, $second:ident) -> $result:ident) => {
        row!(@ $owner, Some(Word::$word), Some(Shape::$first), Some(Shape::$second), Some(Shape::$result))
    };
    (@ $owner:literal, $word:expr, $first:expr, $second:expr, $result:expr) => {
        Row {
            owner: $owner,
            word: $word,
            first: $first,
            second: $second,
            result: $result,
        }
    };
}

/// The methods and constructors, by number.
pub(crate) const METHODS: [Row; 59] = [
    row!(0, new()),
    row!(0, ToString() -> Text),
    row!(0, Equals(Object) -> Boolean),
    row!(0, HashCode() -> Int),
    row!(1, Length() -> Int),
    row!(1, CharAt(Int) -> Char),
    row!(1, Substring(Int) -> Text),
    row!(1, Substring(Int, Int) -> Text),
    row!(1, CompareTo(Text) -> Int),
    row!(1, Equals(Object) -> Boolean),
    row!(1, HashCode() -> Int),
    row!(1, ToString() -> Text),
    row!(3, Print(Boolean)),
    row!(3, Print(Char)),
    row!(3, Print(Int)),
    row!(3, Print(Long)),
    row!(3, Print(Chars)),
    row!(3, Print(Text)),
    row!(3, Print(Object)),
    row!(3, Println(Boolean)),
    row!(3, Println(Char)),
    row!(3, Println(Int)),
    row!(3, Println(Long)),
    row!(3, Println(Chars)),
    row!(3, Println(Text)),
    row!(3, Println(Object)),
    row!(3, Println()),
    row!(4, new()),
    row!(4, new(Text)),
    row!(4, GetMessage() -> Text),
    row!(4, ToString() -> Text),
    row!(5, new()),
    row!(5, new(Text)),
    row!(6, new()),
    row!(6, new(Text)),
    row!(7, new()),
    row!(7, new(Text)),
    row!(8, new()),
    row!(8, new(Text)),
    row!(9, new()),
    row!(9, new(Text)),
    row!(10, new()),
    row!(10, new(Text)),
    row!(11, new()),
    row!(11, new(Text)),
    row!(12, new()),
    row!(12, new(Text)),
    row!(13, new()),
    row!(13, new(Text)),
    row!(14, new()),
    row!(14, new(Text)),
    row!(15, new()),
    row!(15, new(Text)),
    row!(16, new()),
    row!(16, new(Text)),
    row!(17, new()),
    row!(17, new(Text)),
    row!(18, new()),
    row!(18, new(Text)),
];
