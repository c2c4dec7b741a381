//! The built-in types and their members.

ghost use Rattle.std.specs.Prelude.{◌≡◌, ◌++◌, [], map, option_to_list, IfOk, OnOk};
ghost use Rattle.std.specs.Option.{option_map};
ghost use Rattle.class_world.specs.declared.world.JavaType.TheVariants as ty;
ghost use Rattle.built_in_types.specs.BuiltIns as spec;

use crate::rows::{METHODS, Row, Shape};
use crate::words::{Word, Words};
use class_world::{FieldInfo, JavaType, MethodInfo, TypeInfo};
use java_tree::tree::{Mod, Name, Primitive};
use java_tree::{BUILT_IN_TYPES, Boxed, Items, NoMemory};
use std::alloc::Global;

/// The built-in types with their members, each by number.
#[derive(Drop)]
pub struct BuiltIns {
    pub types: Items<TypeInfo>,
    pub methods: Items<MethodInfo>,
    pub fields: Items<FieldInfo>,
}

/// The superclass of each built-in type, by number. Object has none.
const SUPERCLASSES: [Option<u32>; BUILT_IN_TYPES as usize] = [
    None,
    Some(0),
    Some(0),
    Some(0),
    Some(0),
    Some(4),
    Some(4),
    Some(5),
    Some(7),
    Some(7),
    Some(7),
    Some(7),
    Some(7),
    Some(7),
    Some(13),
    Some(13),
    Some(6),
    Some(16),
    Some(16),
];

fn class(alloc: Global, number: u32) -> JavaType
    ensures { result ≡ ty.Class number [] }
{
    JavaType::Class(number, Items::new(alloc))
}

fn shape_type(alloc: Global, shape: Shape) -> Result<JavaType, NoMemory>
    ensures { IfOk result (λ t. t ≡ spec.shape_type shape) }
{
    Ok(match shape {
        Shape::Boolean => JavaType::Prim(Primitive::Boolean),
        Shape::Char => JavaType::Prim(Primitive::Char),
        Shape::Int => JavaType::Prim(Primitive::Int),
        Shape::Long => JavaType::Prim(Primitive::Long),
        Shape::Chars => JavaType::Array(Boxed::new(alloc, JavaType::Prim(Primitive::Char))?),
        Shape::Text => class(alloc, 1),
        Shape::Object => class(alloc, 0),
    })
}

fn maybe_type(alloc: Global, shape: Option<Shape>) -> Result<Option<JavaType>, NoMemory>
    ensures { IfOk result (λ t. t ≡ option_map spec.shape_type shape) }
{
    match shape {
        Some(shape) => Ok(Some(shape_type(alloc, shape)?)),
        None => Ok(None),
    }
}

fn push_type(
    alloc: Global,
    types: &mut Items<JavaType>,
    shape: Option<Shape>,
) -> Result<(), NoMemory>
    ensures { OnOk result (types.new ≡ types.old ++ map spec.shape_type (option_to_list shape)) }
{
    if let Some(shape) = shape {
        types.push(shape_type(alloc, shape)?)?;
    }
    Ok(())
}

fn params(alloc: Global, row: &Row) -> Result<Items<JavaType>, NoMemory>
    ensures { IfOk result (λ ts. ts ≡ spec.params_of row.now) }
{
    let mut types = Items::new(alloc);
    push_type(alloc, &mut types, row.first)?;
    push_type(alloc, &mut types, row.second)?;
    Ok(types)
}

fn method(alloc: Global, words: &Words, row: &Row) -> Result<MethodInfo, NoMemory>
    ensures { IfOk result (λ info. info ≡ spec.method_info words.now row.now) }
{
    Ok(MethodInfo {
        owner: row.owner,
        name: match row.word {
            Some(word) => words.get(word),
            None => Name(row.owner),
        },
        constructor: row.word.is_none(),
        mods: Items::one(alloc, Mod::Public)?,
        params: params(alloc, row)?,
        result: maybe_type(alloc, row.result)?,
        throws: Items::new(alloc),
        node: None,
    })
}

fn methods(alloc: Global, words: &Words) -> Result<Items<MethodInfo>, NoMemory>
    ensures { IfOk result (λ ms. ms ≡ spec.built_in_methods words.now) }
{
    let mut methods = Items::new(alloc);
    for row in METHODS.iter() {
        methods.push(method(alloc, words, row)?)?;
    }
    Ok(methods)
}

// The numbers of the methods and constructors of a type.
fn owned(alloc: Global, owner: u32) -> Result<Items<u32>, NoMemory>
    ensures { IfOk result (λ ns. ns ≡ spec.owned_from owner 0 spec.rows) }
{
    let mut numbers = Items::new(alloc);
    for (number, row) in METHODS.iter().enumerate() {
        if row.owner == owner {
            numbers.push(number as u32)?;
        }
    }
    Ok(numbers)
}

// The package of a type: PrintStream's is java.io.
fn package(alloc: Global, words: &Words, number: u32) -> Result<Items<Name>, NoMemory>
    ensures { IfOk result (λ names. names ≡ spec.package_of words.now number) }
{
    let last = if number == 3 { Word::Io } else { Word::Lang };
    let mut names = Items::one(alloc, words.get(Word::Java))?;
    names.push(words.get(last))?;
    Ok(names)
}

// The modifiers of a type. String and System are final.
fn mods(alloc: Global, number: u32) -> Result<Items<Mod>, NoMemory>
    ensures { IfOk result (λ ms. ms ≡ spec.mods_of number) }
{
    let mut mods = Items::one(alloc, Mod::Public)?;
    if number == 1 || number == 2 {
        mods.push(Mod::Final)?;
    }
    Ok(mods)
}

fn supers(alloc: Global, superclass: Option<u32>) -> Result<Items<JavaType>, NoMemory>
    ensures { IfOk result (λ ts. ts ≡ map (λ p. ty.Class p []) (option_to_list superclass)) }
{
    match superclass {
        Some(above) => Ok(Items::one(alloc, class(alloc, above))?),
        None => Ok(Items::new(alloc)),
    }
}

// The numbers of a type's fields: System has `out`.
fn fields_of(alloc: Global, number: u32) -> Result<Items<u32>, NoMemory>
    ensures { IfOk result (λ ns. ns ≡ spec.fields_of number) }
{
    if number == 2 {
        return Ok(Items::one(alloc, 0)?);
    }
    Ok(Items::new(alloc))
}

fn built_in(
    alloc: Global,
    words: &Words,
    number: u32,
    superclass: Option<u32>,
) -> Result<TypeInfo, NoMemory>
    ensures { IfOk result (λ info. info ≡ spec.type_info words.now number superclass) }
{
    Ok(TypeInfo {
        name: Name(number),
        package: package(alloc, words, number)?,
        interface: false,
        mods: mods(alloc, number)?,
        user: false,
        params: 0,
        supers: supers(alloc, superclass)?,
        methods: owned(alloc, number)?,
        fields: fields_of(alloc, number)?,
        node: None,
    })
}

fn types(alloc: Global, words: &Words) -> Result<Items<TypeInfo>, NoMemory>
    ensures { IfOk result (λ ts. ts ≡ spec.built_in_types words.now) }
{
    let mut types = Items::new(alloc);
    for (number, superclass) in SUPERCLASSES.iter().enumerate() {
        types.push(built_in(alloc, words, number as u32, *superclass)?)?;
    }
    Ok(types)
}

// System.out.
fn fields(alloc: Global, words: &Words) -> Result<Items<FieldInfo>, NoMemory>
    ensures { IfOk result (λ fs. fs ≡ spec.built_in_fields words.now) }
{
    let mut mods = Items::one(alloc, Mod::Public)?;
    mods.push(Mod::Static)?;
    mods.push(Mod::Final)?;
    let field = FieldInfo {
        owner: 2,
        name: words.get(Word::Out),
        mods,
        ty: class(alloc, 3),
        node: None,
    };
    Ok(Items::one(alloc, field)?)
}

/// The built-in types in the order of their numbers, with their methods, constructors and fields.
pub fn built_ins(alloc: Global, words: &Words) -> Result<BuiltIns, NoMemory>
    ensures types { IfOk result (λ b. b.types ≡ spec.built_in_types words.now) }
    ensures methods { IfOk result (λ b. b.methods ≡ spec.built_in_methods words.now) }
    ensures fields { IfOk result (λ b. b.fields ≡ spec.built_in_fields words.now) }
{
    Ok(BuiltIns {
        types: types(alloc, words)?,
        methods: methods(alloc, words)?,
        fields: fields(alloc, words)?,
    })
}
