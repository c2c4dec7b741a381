//! Statements.

use crate::expr::CoreExpr;
use crate::written::CoreType;
use class_world::JavaType;
use java_tree::tree::{Name, Node};
use java_tree::{Boxed, Items};

/// A declared local. `ty` has the array levels behind its name too.
#[derive(Drop)]
pub struct CoreVar {
    pub node: Node,
    pub name: Name,
    pub slot: u32,
    pub ty: JavaType,
    pub init: Option<CoreExpr>,
}

/// A parameter of a method, a constructor or a catch.
#[derive(Drop)]
pub struct CoreParam {
    pub node: Node,
    pub is_final: bool,
    pub name: Name,
    pub slot: u32,
    pub ty: JavaType,
    pub written: CoreType,
}

#[cycle(core_stmt)]
#[derive(Drop)]
pub struct CoreStmt {
    pub node: Node,
    pub form: CoreStmtForm,
}

#[cycle(core_stmt)]
#[derive(Drop)]
pub enum CoreStmtForm {
    Block(Items<CoreStmt>),
    Local {
        is_final: bool,
        written: CoreType,
        vars: Items<CoreVar>,
    },
    Empty,
    Value(CoreExpr),
    If {
        test: CoreExpr,
        yes: Boxed<CoreStmt>,
        no: Option<Boxed<CoreStmt>>,
    },
    While {
        test: CoreExpr,
        body: Boxed<CoreStmt>,
    },
    Do {
        body: Boxed<CoreStmt>,
        test: CoreExpr,
    },
    For {
        init: Items<CoreStmt>,
        test: Option<CoreExpr>,
        step: Items<CoreExpr>,
        body: Boxed<CoreStmt>,
    },
    /// `var` has no value of its own: it takes the items of an array, or what next() answers. `item` is the type of what it takes; `implied` says that the value is
    /// cast to that type's erasure before.
    ForEach {
        is_final: bool,
        written: CoreType,
        var: CoreVar,
        over: CoreExpr,
        item: JavaType,
        implied: bool,
        body: Boxed<CoreStmt>,
    },
    Switch {
        on: CoreExpr,
        groups: Items<CoreGroup>,
    },
    Break,
    Continue,
    Return(Option<CoreExpr>),
    Throw(CoreExpr),
    Try {
        body: Boxed<CoreStmt>,
        catches: Items<CoreCatch>,
        last: Option<Boxed<CoreStmt>>,
    },
    ThisCall {
        constructor: u32,
        args: Items<CoreExpr>,
    },
    SuperCall {
        constructor: u32,
        args: Items<CoreExpr>,
    },
}

/// The values of the labels, a char's its number, with their statements. A label `None` is `default`.
#[cycle(core_stmt)]
#[derive(Drop)]
pub struct CoreGroup {
    pub node: Node,
    pub labels: Items<Option<i32>>,
    pub body: Items<CoreStmt>,
}

#[cycle(core_stmt)]
#[derive(Drop)]
pub struct CoreCatch {
    pub node: Node,
    pub param: CoreParam,
    pub body: Boxed<CoreStmt>,
}
