//! The nodes of a file. Byte offsets count from 0 in the file, and node numbers are preorder numbers in the program.

use crate::{Boxed, Items};

/// Bytes from the first byte of the first token to the byte after the last token.
#[derive(Clone, Copy, Debug, PartialEq, Eq)]
pub struct Span {
    pub from: u32,
    pub to: u32,
}

/// A node's number and place.
#[derive(Clone, Copy, Debug, PartialEq, Eq)]
pub struct Node {
    pub id: u32,
    pub span: Span,
}

/// The number of a text in a table of names.
#[derive(Clone, Copy, Debug, PartialEq, Eq)]
pub struct Name(pub u32);

/// The classes of tokens (JLS 3.5).
#[derive(Clone, Copy, Debug, PartialEq, Eq)]
pub enum Kind {
    Word,
    Keyword,
    Int,
    Long,
    Float,
    Char,
    Text,
    Op,
}

#[derive(Clone, Copy, Debug, PartialEq, Eq)]
pub struct Token {
    pub kind: Kind,
    pub span: Span,
}

#[derive(Clone, Copy, Debug, PartialEq, Eq)]
pub enum Mod {
    Public,
    Protected,
    Private,
    Static,
    Abstract,
    Final,
}

#[derive(Clone, Copy, Debug, PartialEq, Eq)]
pub enum Primitive {
    Int,
    Long,
    Char,
    Boolean,
}

/// A file.
#[derive(Drop)]
pub struct SourceUnit {
    pub node: Node,
    pub package: Items<Name>,
    pub imports: Items<Import>,
    pub types: Items<TypeDecl>,
}

#[derive(Drop)]
pub struct Import {
    pub node: Node,
    pub path: Items<Name>,
    pub all: bool,
}

/// A class or an interface. `name_end` is the offset after its name.
#[derive(Drop)]
pub struct TypeDecl {
    pub node: Node,
    pub mods: Items<Mod>,
    pub interface: bool,
    pub name: Name,
    pub name_end: u32,
    pub params: Items<Name>,
    pub extends: Items<TypeExpr>,
    pub implements: Items<TypeExpr>,
    pub members: Items<Member>,
}

#[derive(Drop)]
pub enum Member {
    Field {
        node: Node,
        mods: Items<Mod>,
        ty: TypeExpr,
        vars: Items<Var>,
    },
    /// A result `None` is `void`, or none is written where `constructor` holds.
    Method {
        node: Node,
        mods: Items<Mod>,
        result: Option<TypeExpr>,
        constructor: bool,
        name: Name,
        params: Items<Param>,
        throws: Items<TypeExpr>,
        body: Option<Stmt>,
    },
}

/// A declared variable. Its type has `dims` more array levels than the written one.
#[derive(Drop)]
pub struct Var {
    pub node: Node,
    pub name: Name,
    pub dims: u32,
    pub init: Option<Expr>,
}

#[derive(Drop)]
pub struct Param {
    pub node: Node,
    pub is_final: bool,
    pub ty: TypeExpr,
    pub name: Name,
    pub dims: u32,
}

#[derive(Drop)]
pub enum Head {
    Prim(Primitive),
    Path(Items<Name>),
}

/// A written type: its head, type arguments and array levels.
#[derive(Drop)]
pub struct TypeExpr {
    pub node: Node,
    pub head: Head,
    pub head_span: Span,
    pub args: Items<TypeExpr>,
    pub dims: u32,
}

#[cycle(stmt)]
#[derive(Drop)]
pub struct Stmt {
    pub node: Node,
    pub form: StmtForm,
}

#[cycle(stmt)]
#[derive(Drop)]
pub enum StmtForm {
    Block(Items<Stmt>),
    Local {
        is_final: bool,
        ty: TypeExpr,
        vars: Items<Var>,
    },
    Empty,
    Value(Expr),
    If {
        test: Expr,
        yes: Boxed<Stmt>,
        no: Option<Boxed<Stmt>>,
    },
    While {
        test: Expr,
        body: Boxed<Stmt>,
    },
    Do {
        body: Boxed<Stmt>,
        test: Expr,
    },
    For {
        init: Items<Stmt>,
        test: Option<Expr>,
        step: Items<Expr>,
        body: Boxed<Stmt>,
    },
    ForEach {
        is_final: bool,
        ty: TypeExpr,
        name: Name,
        over: Expr,
        body: Boxed<Stmt>,
    },
    Switch {
        on: Expr,
        groups: Items<Group>,
    },
    Break,
    Continue,
    Return(Option<Expr>),
    Throw(Expr),
    Try {
        body: Boxed<Stmt>,
        catches: Items<Catch>,
        last: Option<Boxed<Stmt>>,
    },
    ThisCall(Items<Expr>),
    SuperCall(Items<Expr>),
}

/// Labels with their statements. A label `None` is `default`.
#[cycle(stmt)]
#[derive(Drop)]
pub struct Group {
    pub node: Node,
    pub labels: Items<Option<Expr>>,
    pub body: Items<Stmt>,
}

#[cycle(stmt)]
#[derive(Drop)]
pub struct Catch {
    pub node: Node,
    pub param: Param,
    pub body: Boxed<Stmt>,
}

#[cycle(expr)]
#[derive(Drop)]
pub struct Expr {
    pub node: Node,
    pub form: ExprForm,
}

#[cycle(expr)]
#[derive(Drop)]
pub enum ExprForm {
    Number {
        value: u64,
        decimal: bool,
        long: bool,
    },
    Char(u16),
    Text(Items<u16>),
    Bool(bool),
    Null,
    This,
    Name(Name),
    Field {
        of: Boxed<Expr>,
        name: Name,
    },
    SuperField(Name),
    Index {
        of: Boxed<Expr>,
        at: Boxed<Expr>,
    },
    Call {
        of: Option<Boxed<Expr>>,
        name: Name,
        args: Items<Expr>,
    },
    SuperMethod {
        name: Name,
        args: Items<Expr>,
    },
    New {
        ty: TypeExpr,
        args: Items<Expr>,
    },
    NewArray {
        ty: TypeExpr,
        sizes: Items<Expr>,
        extra: u32,
    },
    NewFilled {
        ty: TypeExpr,
        items: Boxed<Expr>,
    },
    Items(Items<Expr>),
    Paren(Boxed<Expr>),
    Unary {
        op: UnOp,
        of: Boxed<Expr>,
    },
    Step {
        up: bool,
        before: bool,
        of: Boxed<Expr>,
    },
    /// `close` is the offset of the cast's `)`.
    Cast {
        ty: TypeExpr,
        close: u32,
        of: Boxed<Expr>,
    },
    Binary {
        op: BinOp,
        left: Boxed<Expr>,
        right: Boxed<Expr>,
    },
    InstanceOf {
        of: Boxed<Expr>,
        ty: TypeExpr,
    },
    Cond {
        test: Boxed<Expr>,
        yes: Boxed<Expr>,
        no: Boxed<Expr>,
    },
    Assign {
        op: Option<BinOp>,
        to: Boxed<Expr>,
        from: Boxed<Expr>,
    },
}

/// `+`, `-`, `~` and `!`.
#[derive(Clone, Copy, Debug, PartialEq, Eq)]
pub enum UnOp {
    Plus,
    Minus,
    Invert,
    Not,
}

/// `||`, `&&`, `|`, `^`, `&`, `==`, `!=`, `<`, `>`, `<=`, `>=`, `<<`, `>>`, `>>>`, `+`, `-`, `*`, `/` and `%`.
#[derive(Clone, Copy, Debug, PartialEq, Eq)]
pub enum BinOp {
    LogicOr,
    LogicAnd,
    BitOr,
    BitXor,
    BitAnd,
    Equal,
    NotEqual,
    Less,
    Greater,
    LessEqual,
    GreaterEqual,
    ShiftLeft,
    ShiftRight,
    ShiftRightZero,
    Add,
    Sub,
    Mul,
    Div,
    Rem,
}
