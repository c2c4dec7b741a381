//! The types of a program before their written types are read.
#![tactic(auto)]

ghost use Rattle.std.specs.Prelude.{◌≡◌, ◌++◌, map, flat_map, IfOk, OnOk};
ghost use Rattle.java_tree.specs.View.{decl_plain, unit_plain};
ghost use Rattle.type_names.specs.Known.{files_of};
ghost use Rattle.type_names.specs.Tables.{files_in};
ghost use Rattle.type_headers.specs.Declared.{header};
ghost use Rattle.type_headers.specs.Declared as spec;
ghost use Rattle.type_headers.specs.Files.{headers_in};

use class_world::TypeInfo;
use java_tree::tree::{SourceUnit, TypeDecl};
use java_tree::{Items, NoMemory};
use std::alloc::Global;

/// The built-in types, then those that the user files declare, then those that the library files declare, each by its name, its package, its kind, its modifiers and the count of its type parameters (JLS 8.1 and 9.1). `NoMemory` also where a type has 2^32 type parameters or more.
#[tactic(auto, using(crate::proofs::Listed::listed))]
pub fn headers(
    alloc: Global,
    built: Vec<TypeInfo>,
    user: &[SourceUnit],
    lib: &[SourceUnit],
) -> Result<Vec<TypeInfo>, NoMemory>
    ensures { IfOk result (λ types. types.items ≡ spec.headers built.items (files_of (map unit_plain user.now) (map unit_plain lib.now))) }
{
    let mut types = built;
    push_files(alloc, user, true, &mut types)?;
    push_files(alloc, lib, false, &mut types)?;
    Ok(types)
}

fn push_files(
    alloc: Global,
    units: &[SourceUnit],
    user: bool,
    types: &mut Vec<TypeInfo>,
) -> Result<(), NoMemory>
    ensures { OnOk result (types.new.items ≡ types.old.items ++ flat_map headers_in (files_in user (map unit_plain units.now))) }
{
    for unit in units {
        push_types(alloc, unit, user, types)?;
    }
    Ok(())
}

fn push_types(
    alloc: Global,
    unit: &SourceUnit,
    user: bool,
    types: &mut Vec<TypeInfo>,
) -> Result<(), NoMemory>
    ensures { OnOk result (types.new.items ≡ types.old.items ++ headers_in (record { unit = unit_plain unit.now; user = user })) }
{
    for class in unit.types.as_slice() {
        types.push(header(alloc, unit, user, class)?)?;
    }
    Ok(())
}

/// What is known of a declared type before its written types are read: its supertypes, methods and fields stay empty. `NoMemory` also where it has 2^32 type parameters or more.
pub fn header(
    alloc: Global,
    unit: &SourceUnit,
    user: bool,
    class: &TypeDecl,
) -> Result<TypeInfo, NoMemory>
    ensures { IfOk result (λ info. info ≡ header (record { file = record { unit = unit_plain unit.now; user = user }; number = 0; decl = decl_plain class.now })) }
{
    let Ok(params) = u32::try_from(class.params.len()) else {
        return Err(NoMemory);
    };
    Ok(TypeInfo {
        name: class.name,
        package: Items::from_slice(alloc, unit.package.as_slice())?,
        interface: class.interface,
        mods: Items::from_slice(alloc, class.mods.as_slice())?,
        user,
        params,
        supers: Items::new(alloc),
        methods: Items::new(alloc),
        fields: Items::new(alloc),
        node: Some(class.node.id),
    })
}
