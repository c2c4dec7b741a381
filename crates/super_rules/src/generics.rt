//! S11: user types below generic ones.

ghost use Rattle.std.specs.Prelude.{◌≡◌, ℕ, ◌↔◌, List, true, Some, length, map, slice_get, IsTrue, IfOk};
ghost use Rattle.java_tree.specs.View.{type_plain, decl_plain, unit_plain};
ghost use Rattle.rule_order.specs.First.{IsFirst};
ghost use Rattle.type_names.specs.declared.known.JavaNames.{JavaNames};
ghost use Rattle.type_names.specs.Known.{File, files_of};
ghost use Rattle.type_names.specs.Tables.{StandsFor};
ghost use Rattle.written_types.specs.Places.{Place, IsPlace};
ghost use Rattle.type_headers.specs.Declared.{declarations, headers, written_supers};
ghost use Rattle.super_rules.specs.Rules.{IsGenericAbove, GenericSuperBreaches};
ghost use Rattle.super_rules.specs.Looks.{AreEntries, AreFlags, NamesOneOf};

use crate::above::{generic_types, is_set};
use crate::entries::{Entry, entries_of};
use class_world::TypeInfo;
use java_tree::NoMemory;
use java_tree::tree::{SourceUnit, TypeExpr};
use rule_order::{Breach, noted};
use std::alloc::Global;
use type_names::TypeNames;
use written_types::{Named, Scope};

/// S11: the first declaration of a user type with a generic supertype, raw or not, or with one that has such a type above it. The names are those of the program of these user files and library files, and `types` has what is known of its types, by number. Takes time for the written supertypes. `NoMemory` also where there are more than 2^32 files.
pub fn first_generic_super(
    alloc: Global,
    names: &TypeNames,
    types: &[TypeInfo],
    user: &[SourceUnit],
    lib: &[SourceUnit],
) -> Result<Option<Breach>, NoMemory>
    ensures { (java : JavaNames) (built : List TypeInfo) → length built ≡ 19 → StandsFor names.now java (files_of (map unit_plain user.now) (map unit_plain lib.now))
        → types.now ≡ headers built (files_of (map unit_plain user.now) (map unit_plain lib.now))
        → IfOk result (IsFirst (GenericSuperBreaches java (files_of (map unit_plain user.now) (map unit_plain lib.now)) types.now)) }
{
    let entries = entries_of(alloc, names, types, user, lib)?;
    let generic = generic_types(alloc, types, entries.as_slice())?;
    Ok(first_among(entries.as_slice(), generic.as_slice()))
}

fn first_among(entries: &[Entry<'_>], generic: &[bool]) -> Option<Breach>
    ensures { (java : JavaNames) (fs : List File) (types : List TypeInfo) → AreEntries java fs types entries.now (declarations fs) → AreFlags generic.now (IsGenericAbove java fs types)
        → IsFirst (GenericSuperBreaches java fs types) result }
{
    let mut first = None;
    for entry in entries {
        first = noted(first, 11, entry.decl.node, has_generic(entry, generic));
    }
    first
}

/// Whether a declaration of a user type has a supertype whose flag is set.
fn has_generic(entry: &Entry<'_>, generic: &[bool]) -> bool
    ensures { (p : Place) → IsPlace entry.now.scope p
        → IsTrue result ↔ ((entry.now.user ≡ true) × ((g : ℕ) × NamesOneOf p (written_supers (decl_plain entry.now.decl.now)) g × (slice_get generic.now g ≡ Some true))) }
{
    entry.user
        && (names_generic(&entry.scope, entry.decl.extends.as_slice(), generic)
            || names_generic(&entry.scope, entry.decl.implements.as_slice(), generic))
}

fn names_generic(scope: &Scope<'_>, xs: &[TypeExpr], generic: &[bool]) -> bool
    ensures { (p : Place) → IsPlace scope.now p → IsTrue result ↔ ((g : ℕ) × NamesOneOf p (map type_plain xs.now) g × (slice_get generic.now g ≡ Some true)) }
{
    for x in xs {
        if let Named::Type(number) = scope.head_named(&x.head) {
            if is_set(generic, number as usize) {
                return true;
            }
        }
    }
    false
}
