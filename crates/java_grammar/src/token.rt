//! Tokens, as the grammar sees them.

use java_tree::tree::{BinOp, Span};

/// The keywords that the grammar speaks of (JLS 3.9), with the literals that are words (JLS 3.10.3, 3.10.7).
#[derive(Clone, Copy, Debug, PartialEq, Eq)]
pub enum Keyword {
    Abstract,
    Boolean,
    Break,
    Case,
    Catch,
    Char,
    Class,
    Continue,
    Default,
    Do,
    Else,
    Extends,
    False,
    Final,
    Finally,
    For,
    If,
    Implements,
    Import,
    InstanceOf,
    Int,
    Interface,
    Long,
    New,
    Null,
    Package,
    Private,
    Protected,
    Public,
    Return,
    Static,
    Super,
    Switch,
    This,
    Throw,
    Throws,
    True,
    Try,
    Void,
    While,
}

/// Separators, and the operators that are neither infix nor assignments (JLS 3.11, 3.12).
#[derive(Clone, Copy, Debug, PartialEq, Eq)]
pub enum Mark {
    /// `(`
    Open,
    /// `)`
    Close,
    /// `{`
    LeftBrace,
    /// `}`
    RightBrace,
    /// `[`
    LeftBracket,
    /// `]`
    RightBracket,
    /// `;`
    Semicolon,
    /// `,`
    Comma,
    /// `.`
    Dot,
    /// `?`
    Question,
    /// `:`
    Colon,
    /// `!`
    Not,
    /// `~`
    Invert,
}

/// What a token is.
#[derive(Clone, Copy, Debug, PartialEq, Eq)]
pub enum Sort {
    /// What is past the end of the tokens.
    End,
    /// An identifier.
    Word,
    /// An integer literal, and whether it is a long one.
    Number(bool),
    Char,
    Text,
    Keyword(Keyword),
    Mark(Mark),
    /// `++` where it holds, or `--`.
    Step(bool),
    /// An infix operator of one token; `>` is `Greater`, also as a part of a shift or behind type arguments.
    Infix(BinOp),
    /// `=`, or an assignment of one token with its operator.
    Assign(Option<BinOp>),
    /// A token that the grammar has no place for.
    Other,
}

/// A token and its place in bytes.
#[derive(Clone, Copy, Debug, PartialEq, Eq)]
pub struct Tok {
    pub sort: Sort,
    /// The number of an identifier in the table of names; else 0.
    pub name: u32,
    pub span: Span,
}
