//! Types with marks: a type variable stands for the place whose written type has the variable's number as its node. Code of users has no type variables of its own.

ghost use Rattle.std.specs.Prelude.{◌≡◌, [], map, IfOk};
ghost use Rattle.std.specs.List.{list_any};
ghost use Rattle.java_core.specs.View.{type_row, written};
ghost use Rattle.marked_types.specs.Marked as spec;

use class_world::{JavaType, copied};
use java_core::CoreType;
use java_tree::{Boxed, Items, NoMemory};
use std::alloc::Global;
use type_kinds::kinds::args_of;

// A type with a mark at its head where that is of the class, and else with these arguments.
fn marked_head(
    alloc: Global,
    class: u32,
    node: u32,
    args: Items<JavaType>,
    t: &JavaType,
) -> Result<JavaType, NoMemory>
    ensures { IfOk result (λ r. r ≡ spec.marked_head class node args t.now) }
{
    match t {
        JavaType::Prim(p) => Ok(JavaType::Prim(*p)),
        JavaType::Null => Ok(JavaType::Null),
        JavaType::Class(c, _) => {
            if *c == class {
                return Ok(JavaType::Var(node));
            }
            Ok(JavaType::Class(*c, args))
        }
        JavaType::Var(k) => Ok(JavaType::Var(*k)),
        JavaType::Array(x) => {
            let x = marked_head(alloc, class, node, args, x.get())?;
            Ok(JavaType::Array(Boxed::new(alloc, x)?))
        }
    }
}

// A type whose head stays, with other arguments.
fn with_args(alloc: Global, args: Items<JavaType>, t: &JavaType) -> Result<JavaType, NoMemory>
    ensures { IfOk result (λ r. r ≡ spec.with_args args t.now) }
{
    match t {
        JavaType::Prim(p) => Ok(JavaType::Prim(*p)),
        JavaType::Null => Ok(JavaType::Null),
        JavaType::Class(c, _) => Ok(JavaType::Class(*c, args)),
        JavaType::Var(k) => Ok(JavaType::Var(*k)),
        JavaType::Array(x) => {
            let x = with_args(alloc, args, x.get())?;
            Ok(JavaType::Array(Boxed::new(alloc, x)?))
        }
    }
}

fn is_class(class: u32, t: &JavaType) -> bool
    ensures { result ≡ spec.is_class class t.now }
{
    match t {
        JavaType::Class(c, _) => *c == class,
        _ => false,
    }
}

#[tactic(auto, using(java_core::proofs::Views::type_out))]
fn arg_marked(alloc: Global, class: u32, ty: &CoreType) -> Result<JavaType, NoMemory>
    ensures { IfOk result (λ r. r ≡ spec.arg_marked class (written ty.now)) }
{
    if is_class(class, &ty.ty) {
        return Ok(JavaType::Var(ty.node.id));
    }
    copied(alloc, &ty.ty)
}

fn args_marked(alloc: Global, class: u32, types: &[CoreType]) -> Result<Items<JavaType>, NoMemory>
    ensures { IfOk result (λ r. r ≡ spec.args_marked class (type_row (map written types.now))) }
{
    let mut args = Items::new(alloc);
    for ty in types {
        args.push(arg_marked(alloc, class, ty)?)?;
    }
    Ok(args)
}

/// What is declared by a written type, with all its array levels.
#[tactic(auto, using(java_core::proofs::Views::type_out))]
pub fn marked(
    alloc: Global,
    class: u32,
    ty: &CoreType,
    declared: &JavaType,
) -> Result<JavaType, NoMemory>
    ensures { IfOk result (λ r. r ≡ spec.marked class (written ty.now) declared.now) }
{
    let args = args_marked(alloc, class, ty.args.as_slice())?;
    marked_head(alloc, class, ty.node.id, args, declared)
}

/// A written type whose head is no place, as that of a creation or a cast: its arguments alone are marked.
#[tactic(auto, using(java_core::proofs::Views::type_out))]
pub fn marked_inside(alloc: Global, class: u32, ty: &CoreType) -> Result<JavaType, NoMemory>
    ensures { IfOk result (λ r. r ≡ spec.marked_inside class (written ty.now)) }
{
    let args = args_marked(alloc, class, ty.args.as_slice())?;
    with_args(alloc, args, &ty.ty)
}

/// A type of the class as that of a place, by the number of its node.
pub fn as_place(alloc: Global, class: u32, node: u32, t: &JavaType) -> Result<JavaType, NoMemory>
    ensures { IfOk result (λ r. r ≡ spec.marked_head class node [] t.now) }
{
    marked_head(alloc, class, node, Items::new(alloc), t)
}

/// The place at the head of a type, below its array levels.
pub fn head_mark(t: &JavaType) -> Option<u32>
    ensures { result ≡ spec.head_mark t.now }
{
    match t {
        JavaType::Var(place) => Some(*place),
        JavaType::Array(x) => head_mark(x.get()),
        _ => None,
    }
}

/// The place that a type without array levels is.
pub fn own_mark(t: &JavaType) -> Option<u32>
    ensures { result ≡ spec.own_mark t.now }
{
    match t {
        JavaType::Var(place) => Some(*place),
        _ => None,
    }
}

/// The class at the head of a type, below its array levels.
pub fn head_class(t: &JavaType) -> Option<u32>
    ensures { result ≡ spec.head_class t.now }
{
    match t {
        JavaType::Class(class, _) => Some(*class),
        JavaType::Array(x) => head_class(x.get()),
        _ => None,
    }
}

/// Whether there is a number, and it is this one.
pub fn is_number(number: Option<u32>, other: u32) -> bool
    ensures { result ≡ spec.is_number number other }
{
    match number {
        None => false,
        Some(number) => number == other,
    }
}

fn some_class(class: u32, types: &[JavaType]) -> bool
    ensures { result ≡ list_any (spec.is_class class) types.now }
{
    for t in types {
        if is_class(class, t) {
            return true;
        }
    }
    false
}

/// Whether a type without marks is of the class below its array levels, or has it as an argument. Expressions of other types have no places.
pub fn mentions(class: u32, t: &JavaType) -> bool
    ensures { result ≡ spec.mentions class t.now }
{
    is_number(head_class(t), class) || some_class(class, args_of(t))
}

fn marks_among(alloc: Global, types: &[JavaType]) -> Result<Items<u32>, NoMemory>
    ensures { IfOk result (λ r. r ≡ spec.marks_among types.now) }
{
    let mut places = Items::new(alloc);
    for t in types {
        if let Some(place) = own_mark(t) {
            places.push(place)?;
        }
    }
    Ok(places)
}

/// The places of a type: that at its head, or those that are arguments.
pub fn places_of(alloc: Global, t: &JavaType) -> Result<Items<u32>, NoMemory>
    ensures { IfOk result (λ r. r ≡ spec.places_of t.now) }
{
    match head_mark(t) {
        Some(place) => Ok(Items::one(alloc, place)?),
        None => marks_among(alloc, args_of(t)),
    }
}

/// A type with the new head, as others that were there before ask for it: a new interface without superinterfaces is below what Object is below.
pub fn raised(alloc: Global, t: &JavaType) -> Result<JavaType, NoMemory>
    ensures { IfOk result (λ r. r ≡ spec.raised t.now) }
{
    match t {
        JavaType::Prim(p) => Ok(JavaType::Prim(*p)),
        JavaType::Null => Ok(JavaType::Null),
        JavaType::Class(_, _) => Ok(JavaType::Class(0, Items::new(alloc))),
        JavaType::Var(_) => Ok(JavaType::Class(0, Items::new(alloc))),
        JavaType::Array(x) => {
            let x = raised(alloc, x.get())?;
            Ok(JavaType::Array(Boxed::new(alloc, x)?))
        }
    }
}
