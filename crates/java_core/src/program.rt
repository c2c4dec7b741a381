//! Classes and their members.

use crate::expr::CoreExpr;
use crate::stmt::{CoreParam, CoreStmt};
use crate::written::CoreType;
use java_tree::Items;
use java_tree::tree::Node;

/// A variable of a field declaration: its number in the world, and its value where it has one.
#[derive(Drop)]
pub struct CoreField {
    pub node: Node,
    pub field: u32,
    pub init: Option<CoreExpr>,
}

/// The constructor of the superclass that runs first where none is called: that of the class above, by number, at the node of the constructor or, for a default one,
/// of the class.
#[derive(Clone, Copy, Debug, PartialEq, Eq)]
pub struct Implied {
    pub node: Node,
    pub constructor: u32,
}

/// A method or constructor, by its number in the world. `implied` is there where a constructor begins with no call of another.
#[derive(Drop)]
pub struct CoreMethod {
    pub node: Node,
    pub method: u32,
    pub result: Option<CoreType>,
    pub params: Items<CoreParam>,
    pub throws: Items<CoreType>,
    pub implied: Option<Implied>,
    pub body: Option<CoreStmt>,
}

#[derive(Drop)]
pub enum CoreMember {
    Fields {
        node: Node,
        written: CoreType,
        vars: Items<CoreField>,
    },
    Method(CoreMethod),
}

/// A declared type, by its number in the world. `default` is there where it is a class without a constructor: what its default constructor calls.
#[derive(Drop)]
pub struct CoreClass {
    pub node: Node,
    pub number: u32,
    pub name_end: u32,
    pub extends: Items<CoreType>,
    pub implements: Items<CoreType>,
    pub members: Items<CoreMember>,
    pub default: Option<Implied>,
}

/// The types that a file declares, in order.
#[derive(Drop)]
pub struct CoreFile {
    pub classes: Items<CoreClass>,
}

/// The files of a program, user files before library files.
#[derive(Drop)]
pub struct CoreProgram {
    pub files: Items<CoreFile>,
}
