//! The search over the files of a program.

ghost use Rattle.std.specs.Prelude.{◌≡◌, Bool, List, Some, map, slice_get, IfOk};
ghost use Rattle.java_tree.specs.View.{unit_plain};
ghost use Rattle.rule_order.specs.First.{IsFirst};
ghost use Rattle.rule_order.specs.Noted.{SomeOf, Adds};
ghost use Rattle.type_names.specs.Known.{File, files_of};
ghost use Rattle.type_names.specs.Tables.{StandsFor, files_in};
ghost use Rattle.type_headers.specs.Declared.{declarations_from};
ghost use Rattle.declared_types.specs.Rules.{DeclarationBreaches, DeclaredTypeBreaches};
ghost use Rattle.declared_types.specs.Looks.{declared_in, StandAt};

use crate::supers::note_decl;
use class_world::TypeInfo;
use java_tree::NoMemory;
use java_tree::tree::SourceUnit;
use rule_order::Breach;
use std::alloc::Global;
use type_names::{JavaNames, TypeNames};
use written_types::Scope;

/// The first of DR1 and DR2 that a declaration breaks outside bodies, by the node's number and the number behind the DR. `names` are those of the program of these user files and library files, and `types` has what is known of its types, by number. The time is that of one walk over the written types. `NoMemory` comes also where a file's number is 2^32 or more.
pub fn first_declared_breach(
    alloc: Global,
    names: &TypeNames,
    types: &[TypeInfo],
    user: &[SourceUnit],
    lib: &[SourceUnit],
) -> Result<Option<Breach>, NoMemory>
    ensures { (java : JavaNames) → StandsFor names.now java (files_of (map unit_plain user.now) (map unit_plain lib.now))
        → IfOk result (λ r. IsFirst (DeclaredTypeBreaches java (files_of (map unit_plain user.now) (map unit_plain lib.now)) types.now) r) }
{
    let first = note_units(alloc, names, types, 0, user, None)?;
    note_units(alloc, names, types, user.len(), lib, first)
}

// Files of which the first has the number `before`.
fn note_units(
    alloc: Global,
    names: &TypeNames,
    types: &[TypeInfo],
    before: usize,
    units: &[SourceUnit],
    mut first: Option<Breach>,
) -> Result<Option<Breach>, NoMemory>
    ensures { (java : JavaNames) (fs : List File) (user : Bool) → StandsFor names.now java fs → StandAt fs before (files_in user (map unit_plain units.now))
        → IfOk result (λ r. Adds (SomeOf (declarations_from before (files_in user (map unit_plain units.now))) (DeclarationBreaches java fs types.now)) first r) }
{
    for (at, unit) in units.iter().enumerate() {
        let Ok(file) = u32::try_from(before.saturating_add(at)) else {
            return Err(NoMemory);
        };
        first = note_unit(alloc, names, types, file, unit, first)?;
    }
    Ok(first)
}

fn note_unit(
    alloc: Global,
    names: &TypeNames,
    types: &[TypeInfo],
    file: u32,
    unit: &SourceUnit,
    mut first: Option<Breach>,
) -> Result<Option<Breach>, NoMemory>
    ensures { (java : JavaNames) (fs : List File) (f : File) → StandsFor names.now java fs → slice_get fs file ≡ Some f → f.unit ≡ unit_plain unit.now
        → IfOk result (λ r. Adds (SomeOf (declared_in file f) (DeclarationBreaches java fs types.now)) first r) }
{
    for d in unit.types.as_slice() {
        let scope = Scope {
            names,
            file,
            types,
            vars: d.params.as_slice(),
        };
        first = note_decl(alloc, &scope, d, first)?;
    }
    Ok(first)
}
