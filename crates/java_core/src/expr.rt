//! Expressions. Locals have the number of their slot, other uses those of the world.

use crate::written::CoreType;
use class_world::JavaType;
use java_tree::tree::{BinOp, Node, UnOp};
use java_tree::{Boxed, Items};

/// What an operator works on. Operands of other primitive types stand under `Widen`.
#[derive(Clone, Copy, Debug, PartialEq, Eq)]
pub enum Kind {
    Int,
    Long,
    Boolean,
    Reference,
    Text,
}

/// What stands before the dot of a static use, where that is no expression: a type's name, with its node and the type's number.
#[derive(Clone, Copy, Debug, PartialEq, Eq)]
pub enum Before {
    Nothing,
    Super,
    Type(Node, u32),
}

/// An expression: its node, its type and what it is. A conversion has the node of its value. A call of a void method has the null type, and stands only where no
/// value is read.
#[cycle(core_expr)]
#[derive(Drop)]
pub struct CoreExpr {
    pub node: Node,
    pub ty: JavaType,
    pub form: CoreForm,
}

#[cycle(core_expr)]
#[derive(Drop)]
pub enum CoreForm {
    Int(i32),
    Long(i64),
    Char(u16),
    Text(Items<u16>),
    Truth(bool),
    Null,
    This,
    Local(u32),
    Paren(Boxed<CoreExpr>),
    /// A primitive as one of a larger type (JLS 5.1.2).
    Widen(Boxed<CoreExpr>),
    /// The cast of a value whose declared type is not below the type that it is used at; it is to the erasure of its own type.
    Implied(Boxed<CoreExpr>),
    /// An instance field. `simple` says that nothing is written before it: `of` is then `this`, with the node of the field.
    Field {
        of: Boxed<CoreExpr>,
        simple: bool,
        field: u32,
    },
    SuperField(u32),
    StaticField {
        before: Before,
        of: Option<Boxed<CoreExpr>>,
        field: u32,
    },
    Length(Boxed<CoreExpr>),
    Index {
        of: Boxed<CoreExpr>,
        at: Boxed<CoreExpr>,
    },
    /// A call of an instance method. `simple` is as for a field.
    Call {
        of: Boxed<CoreExpr>,
        simple: bool,
        method: u32,
        args: Items<CoreExpr>,
    },
    SuperCall {
        method: u32,
        args: Items<CoreExpr>,
    },
    StaticCall {
        before: Before,
        of: Option<Boxed<CoreExpr>>,
        method: u32,
        args: Items<CoreExpr>,
    },
    New {
        written: CoreType,
        constructor: u32,
        args: Items<CoreExpr>,
    },
    /// `written` is the type before the brackets.
    NewArray {
        written: CoreType,
        sizes: Items<CoreExpr>,
    },
    NewFilled {
        written: CoreType,
        items: Boxed<CoreExpr>,
    },
    /// An array of the expression's type, of these items.
    Filled(Items<CoreExpr>),
    Unary {
        op: UnOp,
        of: Boxed<CoreExpr>,
    },
    Step {
        up: bool,
        before: bool,
        of: Boxed<CoreExpr>,
    },
    /// A written cast. `close` is the offset of its `)`, in bytes.
    Cast {
        written: CoreType,
        close: u32,
        of: Boxed<CoreExpr>,
    },
    Binary {
        op: BinOp,
        kind: Kind,
        left: Boxed<CoreExpr>,
        right: Boxed<CoreExpr>,
    },
    /// `&&` where `both` holds, else `||`.
    Logic {
        both: bool,
        left: Boxed<CoreExpr>,
        right: Boxed<CoreExpr>,
    },
    InstanceOf {
        of: Boxed<CoreExpr>,
        written: CoreType,
    },
    Cond {
        test: Boxed<CoreExpr>,
        yes: Boxed<CoreExpr>,
        no: Boxed<CoreExpr>,
    },
    Assign {
        to: Boxed<CoreExpr>,
        from: Boxed<CoreExpr>,
    },
    /// `op` works on what `to` holds, widened to the kind, and what it makes is narrowed to the type of `to`.
    Compound {
        op: BinOp,
        kind: Kind,
        to: Boxed<CoreExpr>,
        from: Boxed<CoreExpr>,
    },
}
