//! Graphs of supertypes.

ghost use Rattle.std.specs.Prelude.{◌≡◌, ℕ, ◌⊎◌, ◌↔◌, false, List, Some, Contains, map, slice_get, IfOk, OnOk};
ghost use Rattle.java_tree.specs.View.{type_plain, decl_plain};
ghost use Rattle.class_world.specs.declared.world.JavaType.TheVariants as ty;
ghost use Rattle.type_names.specs.declared.known.JavaNames.{JavaNames};
ghost use Rattle.type_names.specs.Known.{File};
ghost use Rattle.written_types.specs.Places.{Place, IsPlace};
ghost use Rattle.type_headers.specs.Declared.{declarations, written_supers};
ghost use Rattle.super_rules.specs.Looks.{AreEntries, HasEntries, NamesOneOf, SaysClass, SaysOneOf, IsRow, IsLed, IsDrawn, Draws};

use crate::entries::Entry;
use class_world::{JavaType, TypeInfo};
use java_tree::tree::TypeExpr;
use java_tree::{BUILT_IN_TYPES, Items, NoMemory};
use std::alloc::Global;
use type_reach::Graph;
use written_types::{Named, Scope, read_type};

/// From which types edges go, and to which: to all supertypes; the same from library types alone; or to superclasses alone.
#[derive(Clone, Copy)]
pub(crate) enum Edges {
    All,
    FromLibraries,
    Superclasses,
}

/// The graph of the types, by number.
pub(crate) fn graph_of(
    alloc: Global,
    types: &[TypeInfo],
    entries: &[Entry<'_>],
    edges: Edges,
) -> Result<Graph, NoMemory>
    ensures { (java : JavaNames) (fs : List File) → HasEntries java fs types.now entries.now → IfOk result (Draws (IsDrawn java fs types.now edges) types.now) }
{
    let mut graph = Items::new(alloc);
    for (number, info) in types.iter().enumerate() {
        graph.push(drawn_row(alloc, number, info, entries, edges)?)?;
    }
    Ok(graph)
}

fn drawn_row(
    alloc: Global,
    number: usize,
    info: &TypeInfo,
    entries: &[Entry<'_>],
    edges: Edges,
) -> Result<Items<u32>, NoMemory>
    ensures { (java : JavaNames) (fs : List File) (types : List TypeInfo) → AreEntries java fs types entries.now (declarations fs) → slice_get types number ≡ Some info.now
        → IfOk result (λ row. IsRow row (IsDrawn java fs types edges number)) }
{
    match edges {
        Edges::All => row_of(alloc, number, info, entries, false),
        Edges::FromLibraries => {
            if info.user {
                return Ok(Items::new(alloc));
            }
            row_of(alloc, number, info, entries, false)
        }
        Edges::Superclasses => row_of(alloc, number, info, entries, true),
    }
}

/// The supertypes of a type, or its superclasses alone.
fn row_of(
    alloc: Global,
    number: usize,
    info: &TypeInfo,
    entries: &[Entry<'_>],
    classes: bool,
) -> Result<Items<u32>, NoMemory>
    ensures { (java : JavaNames) (fs : List File) (types : List TypeInfo) → AreEntries java fs types entries.now (declarations fs) → slice_get types number ≡ Some info.now
        → IfOk result (λ row. IsRow row (IsLed java fs types classes number)) }
{
    let first = BUILT_IN_TYPES as usize;
    if number < first {
        return built_in_row(alloc, info);
    }
    match entries.get(number - first) {
        None => Ok(Items::new(alloc)),
        Some(entry) => {
            if classes {
                class_row(alloc, entry)
            } else {
                written_row(alloc, entry)
            }
        }
    }
}

fn built_in_row(alloc: Global, info: &TypeInfo) -> Result<Items<u32>, NoMemory>
    ensures { IfOk result (λ row. IsRow row (λ g. (args : List JavaType) × Contains info.now.supers (ty.Class g args))) }
{
    let mut row = Items::new(alloc);
    for ty in info.supers.as_slice() {
        if let JavaType::Class(number, _) = ty {
            row.push(*number)?;
        }
    }
    Ok(row)
}

/// The types that the heads of the written supertypes name.
fn written_row(alloc: Global, entry: &Entry<'_>) -> Result<Items<u32>, NoMemory>
    ensures { (p : Place) → IsPlace entry.now.scope p → IfOk result (λ row. IsRow row (NamesOneOf p (written_supers (decl_plain entry.now.decl.now)))) }
{
    let mut row = Items::new(alloc);
    push_named(&entry.scope, entry.decl.extends.as_slice(), &mut row)?;
    push_named(&entry.scope, entry.decl.implements.as_slice(), &mut row)?;
    Ok(row)
}

fn push_named(scope: &Scope<'_>, xs: &[TypeExpr], row: &mut Items<u32>) -> Result<(), NoMemory>
    ensures { OnOk result ((p : Place) → IsPlace scope.now p → IsRow row.new (λ g. Contains row.old g ⊎ NamesOneOf p (map type_plain xs.now) g)) }
{
    for x in xs {
        if let Named::Type(number) = scope.head_named(&x.head) {
            row.push(number)?;
        }
    }
    Ok(())
}

/// The superclass that the declaration of a class says.
fn class_row(alloc: Global, entry: &Entry<'_>) -> Result<Items<u32>, NoMemory>
    ensures { (p : Place) → IsPlace entry.now.scope p
        → IfOk result (λ row. IsRow row (λ g. (entry.now.decl.now.interface ≡ false) × SaysOneOf p entry.now.scope.types.now (decl_plain entry.now.decl.now).extends g)) }
{
    let mut row = Items::new(alloc);
    if entry.decl.interface {
        return Ok(row);
    }
    for x in entry.decl.extends.as_slice() {
        if let Some(number) = said_class(alloc, &entry.scope, x)? {
            row.push(number)?;
        }
    }
    Ok(row)
}

/// The class, and no interface, that a written type says.
fn said_class(alloc: Global, scope: &Scope<'_>, x: &TypeExpr) -> Result<Option<u32>, NoMemory>
    ensures { (p : Place) → IsPlace scope.now p → IfOk result (λ o. (g : ℕ) → (o ≡ Some g) ↔ SaysClass p scope.now.types.now (type_plain x.now) g) }
{
    let Some(JavaType::Class(number, _)) = read_type(alloc, scope, x)? else {
        return Ok(None);
    };
    match scope.types.get(number as usize) {
        Some(info) if !info.interface => Ok(Some(number)),
        _ => Ok(None),
    }
}
