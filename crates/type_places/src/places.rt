//! The heads of declared types, and what is declared by each.

use java_tree::Items;
use java_tree::tree::Span;

/// What a written type declares, by number. Locals have the slots of their body, that of the method `body`; they are in scope in the bytes of `scope`, and outside of
/// them their slots may be those of others. A parameter has its place from 0. `Result` is that of a method.
#[derive(Drop)]
pub enum Declared {
    Locals {
        body: u32,
        slots: Items<u32>,
        scope: Span,
    },
    Param {
        method: u32,
        index: u32,
    },
    Fields(Items<u32>),
    Result(u32),
}

/// The head of a declared type that a command may change: the node of the written type, the bytes of its head, and the type that the head names, by number: a class or
/// interface without type parameters.
#[derive(Drop)]
pub struct TypePlace {
    pub node: u32,
    pub head: Span,
    pub old: u32,
    pub declared: Declared,
}

/// A head that is looked for, by its first byte, in the body of a method; locals that are declared here are in scope up to the byte `end`.
#[derive(Clone, Copy)]
pub struct Wanted {
    pub at: u32,
    pub body: u32,
    pub end: u32,
}
