//! Types, methods and fields, by number.

use java_tree::tree::{Mod, Name, Primitive};
use java_tree::{Boxed, Items};

/// A type. The number of `Class` is that of a declared class or interface; without arguments a generic one is raw.
#[derive(Drop)]
pub enum JavaType {
    Prim(Primitive),
    Null,
    Class(u32, Items<JavaType>),
    Var(u32),
    Array(Boxed<JavaType>),
}

/// A declared class or interface. Its methods and fields are those that it declares, and `node` is its declaration's number where a file has it.
#[derive(Drop)]
pub struct TypeInfo {
    pub name: Name,
    pub package: Items<Name>,
    pub interface: bool,
    pub mods: Items<Mod>,
    pub user: bool,
    pub params: u32,
    pub supers: Items<JavaType>,
    pub methods: Items<u32>,
    pub fields: Items<u32>,
    pub node: Option<u32>,
}

/// A declared method or constructor. A result `None` is `void`, or it is a constructor.
#[derive(Drop)]
pub struct MethodInfo {
    pub owner: u32,
    pub name: Name,
    pub constructor: bool,
    pub mods: Items<Mod>,
    pub params: Items<JavaType>,
    pub result: Option<JavaType>,
    pub throws: Items<JavaType>,
    pub node: Option<u32>,
}

#[derive(Drop)]
pub struct FieldInfo {
    pub owner: u32,
    pub name: Name,
    pub mods: Items<Mod>,
    pub ty: JavaType,
    pub node: Option<u32>,
}

/// The library's Iterable and its methods, by number.
#[derive(Clone, Copy, Debug, PartialEq, Eq)]
pub struct Walk {
    pub iterable: u32,
    pub iterator: u32,
    pub has_next: u32,
    pub next: u32,
}

/// What is above a declared class, a bit for a class, by number and 64 to a word. `types` has the classes whose type without arguments is above the class with its own variables, its own included; `raw_bases` those of which a parameterization is above its raw type, where it has parameters. `shortcut` is a type far above, over the class's own variables: with it a way up past many classes takes few steps.
#[derive(Drop)]
pub struct Above {
    pub types: Items<u64>,
    pub raw_bases: Items<u64>,
    pub shortcut: Option<JavaType>,
}

/// All declared types, the built-in ones first, from Object with the number 0; then those of the files in order. `above` is the table of their order, by number; it is empty where nothing asks for it.
#[derive(Drop)]
pub struct World {
    pub types: Items<TypeInfo>,
    pub methods: Items<MethodInfo>,
    pub fields: Items<FieldInfo>,
    pub walk: Option<Walk>,
    pub above: Items<Above>,
}
