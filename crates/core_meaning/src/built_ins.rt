//! Methods and constructors that are built in.

/// A built-in method or constructor. `line` says that a line feed follows.
#[derive(Clone, Copy, Debug)]
pub enum BuiltIn {
    /// Object's constructor.
    NewObject,
    /// A constructor of a throwable, with a message or without.
    NewThrowable { message: bool },
    ObjectToString,
    ObjectEquals,
    ObjectHashCode,
    Length,
    CharAt,
    SubstringFrom,
    SubstringBetween,
    CompareTo,
    StringEquals,
    StringHashCode,
    StringToString,
    /// PrintStream's, of a value.
    Print { line: bool },
    /// PrintStream's, of a `char[]`.
    PrintChars { line: bool },
    /// PrintStream's `println()`.
    PrintLine,
    GetMessage,
    ThrowableToString,
}
