//! The S rules over all files of a program.

ghost use Rattle.std.specs.Prelude.{◌≡◌, Bool, List, Some, map, slice_get, IfOk};
ghost use Rattle.java_tree.specs.View.{unit_plain};
ghost use Rattle.rule_order.specs.First.{IsFirst};
ghost use Rattle.type_names.specs.declared.known.JavaNames as spec;
ghost use Rattle.type_names.specs.Known.{File, files_of};
ghost use Rattle.type_names.specs.Rules.{Among};
ghost use Rattle.type_names.specs.Tables.{StandsFor, files_in};
ghost use Rattle.class_world.specs.declared.world.TypeInfo as spec_world;
ghost use Rattle.type_headers.specs.Declared.{headers};
ghost use Rattle.decl_table.specs.Bases.{AreBases};
ghost use Rattle.decl_table.specs.Program.{PlainBreaches, ScopeSet};
ghost use Rattle.decl_table.specs.Files.{StandAt};

use crate::generics::InFile;
use class_world::TypeInfo;
use decl_rules::first_plain;
use java_tree::tree::SourceUnit;
use java_tree::{Names, NoMemory};
use rule_order::{Breach, earlier};
use std::alloc::Global;
use super_rules::first_generic_super;
use type_names::{JavaNames, TypeNames, first_name_breach};

/// The first of S10 to S20, S22 and S23 that is broken, in a program whose types have these headers.
pub(crate) fn first_scope_breach(
    alloc: Global,
    names: &Names,
    java: JavaNames,
    meant: &TypeNames,
    types: &[TypeInfo],
    user: &[SourceUnit],
    lib: &[SourceUnit],
) -> Result<Option<Breach>, NoMemory>
    ensures { (built : List spec_world.TypeInfo) → AreBases built → StandsFor meant.now java (files_of (map unit_plain user.now) (map unit_plain lib.now))
        → types.now ≡ headers built (files_of (map unit_plain user.now) (map unit_plain lib.now))
        → IfOk result (λ r. IsFirst (ScopeSet names.now java (map unit_plain user.now) (map unit_plain lib.now) types.now) r) }
{
    let in_supers = first_generic_super(alloc, meant, types, user, lib)?;
    let in_names = first_name_breach(alloc, java, user, lib)?;
    let in_files = first_plain_breach(names, meant, types, user, lib)?;
    let behind = earlier(in_names, in_supers);
    Ok(earlier(in_files, behind))
}

/// The first of S10, S12, S13 and S17 to S19 that the files break.
fn first_plain_breach(
    names: &Names,
    meant: &TypeNames,
    types: &[TypeInfo],
    user: &[SourceUnit],
    lib: &[SourceUnit],
) -> Result<Option<Breach>, NoMemory>
    ensures { (j : spec.JavaNames) → StandsFor meant.now j (files_of (map unit_plain user.now) (map unit_plain lib.now))
        → IfOk result (λ r. IsFirst (Among (PlainBreaches names.now j (files_of (map unit_plain user.now) (map unit_plain lib.now)) types.now) (files_of (map unit_plain user.now) (map unit_plain lib.now))) r) }
{
    let in_user = first_of_units(names, meant, types, user, true, 0)?;
    let in_lib = first_of_units(names, meant, types, lib, false, user.len())?;
    Ok(earlier(in_user, in_lib))
}

/// The first that these files break, of which the first has the number `before`.
fn first_of_units(
    names: &Names,
    meant: &TypeNames,
    types: &[TypeInfo],
    units: &[SourceUnit],
    user: bool,
    before: usize,
) -> Result<Option<Breach>, NoMemory>
    ensures { (j : spec.JavaNames) (fs : List File) → StandsFor meant.now j fs → StandAt fs before (files_in user (map unit_plain units.now))
        → IfOk result (λ r. IsFirst (Among (PlainBreaches names.now j fs types.now) (files_in user (map unit_plain units.now))) r) }
{
    let mut first = None;
    for (at, unit) in units.iter().enumerate() {
        let Ok(file) = u32::try_from(before.saturating_add(at)) else {
            return Err(NoMemory);
        };
        let generics = InFile { meant, types, file };
        first = earlier(first, first_plain(unit, user, names, &generics));
    }
    Ok(first)
}
