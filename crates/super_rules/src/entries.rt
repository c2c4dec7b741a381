//! The type declarations of a program in order.

ghost use Rattle.std.specs.Prelude.{◌≡◌, ◌++◌, List, Some, map, slice_get, IfOk, OnOk};
ghost use Rattle.java_tree.specs.View.{unit_plain};
ghost use Rattle.type_names.specs.declared.known.JavaNames.{JavaNames};
ghost use Rattle.type_names.specs.Known.{File, files_of};
ghost use Rattle.type_names.specs.Tables.{StandsFor, files_in};
ghost use Rattle.type_headers.specs.Declared.{Declaration, declarations, declarations_from};
ghost use Rattle.super_rules.specs.Looks.{declared_in, StandAt, AreEntries};

use class_world::TypeInfo;
use java_tree::NoMemory;
use java_tree::tree::{SourceUnit, TypeDecl};
use std::alloc::Global;
use type_names::TypeNames;
use written_types::Scope;

/// A type declaration, where its supertypes stand, and whether its file is a user file.
#[derive(Clone, Copy)]
pub(crate) struct Entry<'a> {
    pub(crate) scope: Scope<'a>,
    pub(crate) decl: &'a TypeDecl,
    pub(crate) user: bool,
}

/// The declarations of the user files, and then those of the library files; the k-th has the number 19 + k. `NoMemory` also where there are more than 2^32 files.
pub(crate) fn entries_of<'a>(
    alloc: Global,
    names: &'a TypeNames,
    types: &'a [TypeInfo],
    user: &'a [SourceUnit],
    lib: &'a [SourceUnit],
) -> Result<Vec<Entry<'a>>, NoMemory>
    ensures { (java : JavaNames) → StandsFor names.now java (files_of (map unit_plain user.now) (map unit_plain lib.now))
        → IfOk result (λ v. AreEntries java (files_of (map unit_plain user.now) (map unit_plain lib.now)) types.now v.items (declarations (files_of (map unit_plain user.now) (map unit_plain lib.now)))) }
{
    let mut entries = Vec::new(alloc);
    push_units(names, types, 0, user, true, &mut entries)?;
    push_units(names, types, user.len(), lib, false, &mut entries)?;
    Ok(entries)
}

// Files of which the first has the number `before`.
fn push_units<'a>(
    names: &'a TypeNames,
    types: &'a [TypeInfo],
    before: usize,
    units: &'a [SourceUnit],
    user: bool,
    entries: &mut Vec<Entry<'a>>,
) -> Result<(), NoMemory>
    ensures { OnOk result ((java : JavaNames) (fs : List File) (xs : List Declaration) → StandsFor names.now java fs → StandAt fs before (files_in user (map unit_plain units.now))
        → AreEntries java fs types.now entries.old.items xs → AreEntries java fs types.now entries.new.items (xs ++ declarations_from before (files_in user (map unit_plain units.now)))) }
{
    for (at, unit) in units.iter().enumerate() {
        let Ok(file) = u32::try_from(before.saturating_add(at)) else {
            return Err(NoMemory);
        };
        push_decls(names, types, file, unit, user, entries)?;
    }
    Ok(())
}

fn push_decls<'a>(
    names: &'a TypeNames,
    types: &'a [TypeInfo],
    file: u32,
    unit: &'a SourceUnit,
    user: bool,
    entries: &mut Vec<Entry<'a>>,
) -> Result<(), NoMemory>
    ensures { OnOk result ((java : JavaNames) (fs : List File) (f : File) (xs : List Declaration) → StandsFor names.now java fs → slice_get fs file ≡ Some f
        → f.unit ≡ unit_plain unit.now → f.user ≡ user
        → AreEntries java fs types.now entries.old.items xs → AreEntries java fs types.now entries.new.items (xs ++ declared_in file f)) }
{
    for decl in unit.types.as_slice() {
        let scope = Scope {
            names,
            file,
            types,
            vars: decl.params.as_slice(),
        };
        entries.push(Entry { scope, decl, user })?;
    }
    Ok(())
}
