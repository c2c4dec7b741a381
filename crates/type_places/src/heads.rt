//! Written types whose head is the one that is looked for.

ghost use Rattle.std.specs.Prelude.{◌≡◌, [], ◌∷◌, IfOk, Some, map};
ghost use Rattle.java_core.specs.View.{var_plain, field_plain, written};
ghost use Rattle.type_places.specs.declared.places.Declared.TheVariants as declared;
ghost use Rattle.type_places.specs.Places as spec;

use crate::places::{Declared, TypePlace, Wanted};
use class_world::{JavaType, World};
use java_core::{CoreField, CoreType, CoreVar};
use java_tree::tree::{Node, Span};
use java_tree::{Items, NoMemory};
use std::alloc::Global;

/// The class or interface at the head of a type, below its array levels (JLS 10.1), where it has no arguments.
fn bare_head(ty: &JavaType) -> Option<u32>
    ensures { result ≡ spec.bare_head ty.now }
{
    match ty {
        JavaType::Prim(_) => None,
        JavaType::Null => None,
        JavaType::Class(class, args) => {
            if args.len() == 0 {
                return Some(*class);
            }
            None
        }
        JavaType::Var(_) => None,
        JavaType::Array(item) => bare_head(item.get()),
    }
}

/// Whether a class or interface has no type parameters (JLS 8.1.2).
fn is_bare(w: &World, class: u32) -> bool
    ensures { result ≡ spec.is_bare w.now class }
{
    match w.types.get(class as usize) {
        Some(info) => info.params == 0,
        None => false,
    }
}

fn if_bare(w: &World, class: Option<u32>) -> Option<u32>
    ensures { result ≡ spec.if_bare w.now class }
{
    match class {
        None => None,
        Some(class) => {
            if is_bare(w, class) {
                return Some(class);
            }
            None
        }
    }
}

/// The type of the head, where that begins at the byte.
#[tactic(auto, using(java_core::proofs::Views::type_out))]
fn head_at(w: &World, at: u32, ty: &CoreType) -> Option<u32>
    ensures { result ≡ spec.head_at w.now at (written ty.now) }
{
    if ty.head.from == at {
        return if_bare(w, bare_head(&ty.ty));
    }
    None
}

/// The place that is found, where none was before.
#[tactic(auto, using(java_core::proofs::Views::type_out))]
fn first_of(
    ty: &CoreType,
    old: u32,
    declared: Declared,
    found: Option<TypePlace>,
) -> Option<TypePlace>
    ensures { result ≡ spec.put_at (Some old) (written ty.now) declared found }
{
    match found {
        Some(place) => Some(place),
        None => Some(TypePlace {
            node: ty.node.id,
            head: ty.head,
            old,
            declared,
        }),
    }
}

/// Notes what a written type declares, where its head is the one that is looked for.
pub(crate) fn put(
    w: &World,
    at: u32,
    ty: &CoreType,
    declared: Declared,
    found: Option<TypePlace>,
) -> Option<TypePlace>
    ensures { result ≡ spec.put w.now at (written ty.now) declared found }
{
    match head_at(w, at, ty) {
        None => found,
        Some(old) => first_of(ty, old, declared, found),
    }
}

fn slots_of(alloc: Global, vars: &[CoreVar]) -> Result<Items<u32>, NoMemory>
    ensures { IfOk result (λ r. r ≡ spec.slots_of (map var_plain vars.now)) }
{
    let mut slots = Items::new(alloc);
    for var in vars {
        slots.push(var.slot)?;
    }
    Ok(slots)
}

fn fields_of(alloc: Global, vars: &[CoreField]) -> Result<Items<u32>, NoMemory>
    ensures { IfOk result (λ r. r ≡ spec.fields_of (map field_plain vars.now)) }
{
    let mut fields = Items::new(alloc);
    for var in vars {
        fields.push(var.field)?;
    }
    Ok(fields)
}

/// Locals of one declaration: they are in scope from there on.
pub(crate) fn put_locals(
    alloc: Global,
    w: &World,
    q: Wanted,
    node: Node,
    ty: &CoreType,
    vars: &[CoreVar],
    found: Option<TypePlace>,
) -> Result<Option<TypePlace>, NoMemory>
    ensures { IfOk result (λ r. r ≡ spec.put w.now q.at (written ty.now) (spec.locals q node (spec.slots_of (map var_plain vars.now))) found) }
{
    match head_at(w, q.at, ty) {
        None => Ok(found),
        Some(old) => {
            let declared = Declared::Locals {
                body: q.body,
                slots: slots_of(alloc, vars)?,
                scope: Span {
                    from: node.span.from,
                    to: q.end,
                },
            };
            Ok(first_of(ty, old, declared, found))
        }
    }
}

/// The variable of an enhanced for, which is in scope in that statement.
pub(crate) fn put_variable(
    alloc: Global,
    w: &World,
    q: Wanted,
    node: Node,
    ty: &CoreType,
    slot: u32,
    found: Option<TypePlace>,
) -> Result<Option<TypePlace>, NoMemory>
    ensures { IfOk result (λ r. r ≡ spec.put w.now q.at (written ty.now) (spec.locals (spec.until node q) node (slot ∷ [])) found) }
{
    match head_at(w, q.at, ty) {
        None => Ok(found),
        Some(old) => {
            let declared = Declared::Locals {
                body: q.body,
                slots: Items::one(alloc, slot)?,
                scope: node.span,
            };
            Ok(first_of(ty, old, declared, found))
        }
    }
}

/// The fields of one declaration.
pub(crate) fn put_fields(
    alloc: Global,
    w: &World,
    at: u32,
    ty: &CoreType,
    vars: &[CoreField],
    found: Option<TypePlace>,
) -> Result<Option<TypePlace>, NoMemory>
    ensures { IfOk result (λ r. r ≡ spec.put w.now at (written ty.now) (declared.Fields (spec.fields_of (map field_plain vars.now))) found) }
{
    match head_at(w, at, ty) {
        None => Ok(found),
        Some(old) => {
            let fields = fields_of(alloc, vars)?;
            Ok(first_of(ty, old, Declared::Fields(fields), found))
        }
    }
}
