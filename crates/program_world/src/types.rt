//! The declared types of a program with their members.

ghost use Rattle.std.specs.Prelude.{◌≡◌, ◌-◌, List, Some, length, map, slice_get, IfOk, OnOk};
ghost use Rattle.std.specs.List.{range_with_len};
ghost use Rattle.java_tree.specs.View.{decl_plain, unit_plain};
ghost use Rattle.type_names.specs.declared.known.JavaNames.{JavaNames};
ghost use Rattle.type_names.specs.Known.{File, files_of};
ghost use Rattle.type_names.specs.Tables.{StandsFor, files_in};
ghost use Rattle.written_types.specs.Places.{Place, IsPlace};
ghost use Rattle.type_headers.specs.Declared.{declarations_from, headers, place_of};
ghost use Rattle.program_world.specs.ProgramWorld.{world_of};
ghost use Rattle.program_world.specs.Steps.{with_type, with_types, declared_in, AreFrom};

use crate::members::{push_fields, push_methods};
use crate::written::supers;
use built_in_types::BuiltIns;
use class_world::{TypeInfo, World};
use java_tree::tree::{SourceUnit, TypeDecl};
use java_tree::{Items, NoMemory};
use std::alloc::Global;
use type_headers::header;
use type_names::TypeNames;
use written_types::Scope;

/// The world of a program, by the table of its names and the headers of its types: the built-in types and then the declared ones in order, each with its supertypes, methods and fields (JLS 8.1, 8.3, 8.4, 8.8 and 9.1). Its `walk` and its `above` are empty. A written type that says none (DR1), or has an argument that is no reference type, stands as the null type. Takes time for the source and for the world. `NoMemory` also where there are 2^32 types, methods, fields or files.
pub fn declared_world(
    alloc: Global,
    built: BuiltIns,
    names: &TypeNames,
    types: &[TypeInfo],
    user: &[SourceUnit],
    lib: &[SourceUnit],
) -> Result<World, NoMemory>
    ensures { (j : JavaNames) → length built.types ≡ 19 → StandsFor names.now j (files_of (map unit_plain user.now) (map unit_plain lib.now))
        → types.now ≡ headers built.types (files_of (map unit_plain user.now) (map unit_plain lib.now))
        → IfOk result (λ world. world ≡ world_of built j (files_of (map unit_plain user.now) (map unit_plain lib.now))) }
{
    let BuiltIns {
        types: built_types,
        methods,
        fields,
    } = built;
    let mut world = World {
        types: built_types,
        methods,
        fields,
        walk: None,
        above: Items::new(alloc),
    };
    let scope = Scope {
        names,
        file: 0,
        types,
        vars: &[],
    };
    push_files(alloc, &scope, user, true, &mut world)?;
    let scope = Scope {
        file: number(user.len())?,
        ..scope
    };
    push_files(alloc, &scope, lib, false, &mut world)?;
    Ok(world)
}

/// Adds the types of files, of which the first has the scope's number.
fn push_files(
    alloc: Global,
    scope: &Scope<'_>,
    units: &[SourceUnit],
    user: bool,
    world: &mut World,
) -> Result<(), NoMemory>
    ensures { OnOk result ((j : JavaNames) (fs : List File) → StandsFor scope.now.names.now j fs → AreFrom scope.now.file fs (files_in user (map unit_plain units.now))
        → world.new ≡ with_types (place_of j fs scope.now.types.now) (declarations_from scope.now.file (files_in user (map unit_plain units.now))) world.old) }
{
    for (at, unit) in units.iter().enumerate() {
        let Some(file) = scope.file.checked_add(number(at)?) else {
            return Err(NoMemory);
        };
        let within = Scope { file, ..*scope };
        push_types(alloc, &within, unit, user, world)?;
    }
    Ok(())
}

/// Adds the types of the scope's file.
fn push_types(
    alloc: Global,
    scope: &Scope<'_>,
    unit: &SourceUnit,
    user: bool,
    world: &mut World,
) -> Result<(), NoMemory>
    ensures { OnOk result ((j : JavaNames) (fs : List File) → StandsFor scope.now.names.now j fs → slice_get fs scope.now.file ≡ Some (record { unit = unit_plain unit.now; user = user })
        → world.new ≡ with_types (place_of j fs scope.now.types.now) (declared_in scope.now.file (record { unit = unit_plain unit.now; user = user }) (map decl_plain unit.now.types)) world.old) }
{
    for class in unit.types.as_slice() {
        let within = Scope {
            vars: class.params.as_slice(),
            ..*scope
        };
        push_type(alloc, &within, unit, user, class, world)?;
    }
    Ok(())
}

/// Adds a type of the scope's file with its members.
fn push_type(
    alloc: Global,
    scope: &Scope<'_>,
    unit: &SourceUnit,
    user: bool,
    class: &TypeDecl,
    world: &mut World,
) -> Result<(), NoMemory>
    ensures { OnOk result ((p : Place) → IsPlace scope.now p
        → world.new ≡ with_type p (record { file = record { unit = unit_plain unit.now; user = user }; number = scope.now.file; decl = decl_plain class.now }) world.old) }
{
    let owner = number(world.types.len())?;
    let first_method = number(world.methods.len())?;
    let first_field = number(world.fields.len())?;
    push_methods(alloc, scope, owner, class, &mut world.methods)?;
    push_fields(alloc, scope, owner, class, &mut world.fields)?;
    let mut info = header(alloc, unit, user, class)?;
    info.supers = supers(alloc, scope, class)?;
    info.methods = numbers(alloc, first_method, number(world.methods.len())?)?;
    info.fields = numbers(alloc, first_field, number(world.fields.len())?)?;
    world.types.push(info)?;
    Ok(())
}

/// A count as the number of what comes next.
fn number(count: usize) -> Result<u32, NoMemory>
    ensures { IfOk result (λ n. n ≡ count) }
{
    let Ok(number) = u32::try_from(count) else {
        return Err(NoMemory);
    };
    Ok(number)
}

/// The numbers from one to below another.
fn numbers(alloc: Global, from: u32, end: u32) -> Result<Items<u32>, NoMemory>
    ensures { IfOk result (λ ns. ns ≡ range_with_len from (end - from)) }
{
    Ok(Items::from_vec((from..end).collect(alloc)?))
}
