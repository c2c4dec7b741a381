//! DR2 at throws clauses, DR3, and DR12 on types.

ghost use Rattle.std.specs.Prelude.{◌≡◌, ◌↔◌, List, length, map, IsTrue, IfOk};
ghost use Rattle.java_tree.specs.View.{type_plain, unit_plain, member_plain};
ghost use Rattle.rule_order.specs.First.{IsFirst};
ghost use Rattle.type_names.specs.declared.known.JavaNames.{JavaNames};
ghost use Rattle.type_names.specs.Known.{File, files_of};
ghost use Rattle.type_names.specs.Tables.{StandsFor};
ghost use Rattle.written_types.specs.Places.{IsPlace};
ghost use Rattle.written_types.specs.Breaks.{node_of};
ghost use Rattle.rule_order.specs.Noted.{At, SomeOf, Adds};
ghost use Rattle.type_headers.specs.Declared.{Declaration, declarations, headers, place_of};
ghost use Rattle.super_rules.specs.Rules.{IsAbove, IsThrowable, IsNoThrowable, ThrowsBreaches, SuperBreaches};
ghost use Rattle.super_rules.specs.Looks.{AreEntries, IsEntry, AreFlags, TypeBreaches};

use crate::above::{is_set, throwables, types_above_themselves};
use crate::entries::{Entry, entries_of};
use class_world::TypeInfo;
use java_tree::tree::{Member, SourceUnit, TypeExpr};
use java_tree::{BUILT_IN_TYPES, NoMemory};
use rule_order::{Breach, noted};
use std::alloc::Global;
use type_names::TypeNames;
use written_types::{Named, Scope};

/// The first of DR2 at throws clauses, DR3 at types, and DR12 at types, with the number behind the DR: a type of a throws clause is Throwable or a class below it (JLS 8.4.6), no type is above itself (8.1.4, 9.1.3), and no type with type parameters is below Throwable (8.1.2). The names are those of the program of these user files and library files, and `types` has what is known of its types, by number. Takes time for the written types of supertypes and throws clauses. `NoMemory` also where there are more than 2^32 files, or type parameters of one type.
pub fn first_super_breach(
    alloc: Global,
    names: &TypeNames,
    types: &[TypeInfo],
    user: &[SourceUnit],
    lib: &[SourceUnit],
) -> Result<Option<Breach>, NoMemory>
    ensures { (java : JavaNames) (built : List TypeInfo) → length built ≡ 19 → StandsFor names.now java (files_of (map unit_plain user.now) (map unit_plain lib.now))
        → types.now ≡ headers built (files_of (map unit_plain user.now) (map unit_plain lib.now))
        → IfOk result (IsFirst (SuperBreaches java (files_of (map unit_plain user.now) (map unit_plain lib.now)) types.now)) }
{
    let entries = entries_of(alloc, names, types, user, lib)?;
    let cyclic = types_above_themselves(alloc, types, entries.as_slice())?;
    let throwable = throwables(alloc, types, entries.as_slice())?;
    Ok(first_among(entries.as_slice(), cyclic.as_slice(), throwable.as_slice()))
}

fn first_among(entries: &[Entry<'_>], cyclic: &[bool], throwable: &[bool]) -> Option<Breach>
    ensures { (java : JavaNames) (fs : List File) (types : List TypeInfo) → AreEntries java fs types entries.now (declarations fs) → AreFlags cyclic.now (λ c. IsAbove java fs types c c)
        → AreFlags throwable.now (IsThrowable java fs types) → IsFirst (SuperBreaches java fs types) result }
{
    let mut first = None;
    for (at, entry) in entries.iter().enumerate() {
        let number = BUILT_IN_TYPES as usize + at;
        first = note_type(entry, number, cyclic, throwable, first);
    }
    first
}

fn note_type(
    entry: &Entry<'_>,
    number: usize,
    cyclic: &[bool],
    throwable: &[bool],
    first: Option<Breach>,
) -> Option<Breach>
    ensures { (java : JavaNames) (fs : List File) (types : List TypeInfo) (x : Declaration) → IsEntry java fs types entry.now x → AreFlags cyclic.now (λ c. IsAbove java fs types c c)
        → AreFlags throwable.now (IsThrowable java fs types) → Adds (TypeBreaches java fs types number x) first result }
{
    let decl = entry.decl;
    let first = note_members(&entry.scope, decl.members.as_slice(), throwable, first);
    let first = noted(first, 3, decl.node, is_set(cyclic, number));
    let generic = !decl.params.is_empty();
    noted(first, 12, decl.node, generic & is_set(throwable, number))
}

fn note_members(
    scope: &Scope<'_>,
    members: &[Member],
    throwable: &[bool],
    mut first: Option<Breach>,
) -> Option<Breach>
    ensures { (java : JavaNames) (fs : List File) (types : List TypeInfo) (x : Declaration) → IsPlace scope.now (place_of java fs types x) → AreFlags throwable.now (IsThrowable java fs types)
        → Adds (SomeOf (map member_plain members.now) (ThrowsBreaches java fs types x)) first result }
{
    for m in members {
        match m {
            Member::Field { .. } => {}
            Member::Method { throws, .. } => {
                first = note_throws(scope, throws.as_slice(), throwable, first);
            }
        }
    }
    first
}

fn note_throws(
    scope: &Scope<'_>,
    throws: &[TypeExpr],
    throwable: &[bool],
    mut first: Option<Breach>,
) -> Option<Breach>
    ensures { (java : JavaNames) (fs : List File) (types : List TypeInfo) (x : Declaration) → IsPlace scope.now (place_of java fs types x) → AreFlags throwable.now (IsThrowable java fs types)
        → Adds (SomeOf (map type_plain throws.now) (λ y. At 2 (node_of y) (IsNoThrowable java fs types x y))) first result }
{
    for y in throws {
        first = noted(first, 2, y.node, is_no_throwable(scope, y, throwable));
    }
    first
}

fn is_no_throwable(scope: &Scope<'_>, y: &TypeExpr, throwable: &[bool]) -> bool
    ensures { (java : JavaNames) (fs : List File) (types : List TypeInfo) (x : Declaration) → IsPlace scope.now (place_of java fs types x) → AreFlags throwable.now (IsThrowable java fs types)
        → IsTrue result ↔ IsNoThrowable java fs types x (type_plain y.now) }
{
    match scope.head_named(&y.head) {
        Named::Variable(_) => true,
        Named::Type(number) => !is_set(throwable, number as usize),
        Named::Primitive(_) | Named::Nothing => false,
    }
}
