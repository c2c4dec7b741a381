//! The types of a program and their packages (JLS 3rd edition, 7.3, 7.4 and 7.6).

ghost use Rattle.std.specs.Prelude.{◌≡◌, ◌<◌, ◌-◌, ◌^◌, ◌++◌, length, map, flat_map, IfOk, OnOk};
ghost use Rattle.std.specs.List.{list_any};
ghost use Rattle.java_tree.specs.Names.{IsFront};
ghost use Rattle.java_tree.specs.View.{unit_plain, decl_plain};
ghost use Rattle.type_names.specs.Known.{AreJavaNames, is_public_mod, declared_type, types_in, types_of, files_of};
ghost use Rattle.type_names.specs.Known as spec;
ghost use Rattle.type_names.specs.Tables.{packages, brief, files_in};

use crate::paths::Packages;
use java_tree::tree::{Mod, Name, SourceUnit, TypeDecl};
use java_tree::{BUILT_IN_TYPES, Items, Names, NoMemory};
use std::alloc::Global;

/// The names that the packages of built-in types are made of: java.lang, and java.io for `PrintStream`.
#[derive(Clone, Copy, Debug, PartialEq, Eq)]
pub struct JavaNames {
    pub java: Name,
    pub lang: Name,
    pub io: Name,
}

impl JavaNames {
    /// The three names, which the table gets if it has not got them. Its other names stay.
    pub fn intern(names: &mut Names) -> Result<JavaNames, NoMemory>
        requires { length names.old < 2 ^ 32 - 3 }
        ensures are { IfOk result (λ j. AreJavaNames names.new j) }
        ensures kept { IsFront names.old names.new }
    {
        let java = names.intern("java")?;
        let lang = names.intern("lang")?;
        let io = names.intern("io")?;
        Ok(JavaNames { java, lang, io })
    }
}

/// A type of the program, its package by number. A built-in type has no node.
#[derive(Clone, Copy, Debug)]
pub(crate) struct Known {
    pub(crate) package: usize,
    pub(crate) name: Name,
    pub(crate) is_public: bool,
    pub(crate) user: bool,
    pub(crate) node: Option<u32>,
}

/// The packages of the program: java.lang and java.io, then that of each file.
pub(crate) fn packages_of(
    alloc: Global,
    java: JavaNames,
    user: &[SourceUnit],
    lib: &[SourceUnit],
) -> Result<Packages, NoMemory>
    ensures { IfOk result (λ ps. ps ≡ packages java (files_of (map unit_plain user.now) (map unit_plain lib.now))) }
{
    let mut paths = Items::new(alloc);
    paths.push(Items::from_slice(alloc, &[java.java, java.lang])?)?;
    paths.push(Items::from_slice(alloc, &[java.java, java.io])?)?;
    push_packages(alloc, user, &mut paths)?;
    push_packages(alloc, lib, &mut paths)?;
    Packages::of(alloc, paths)
}

/// The packages of the library files.
pub(crate) fn library_of(alloc: Global, lib: &[SourceUnit]) -> Result<Packages, NoMemory>
    ensures { IfOk result (λ ps. ps ≡ map (λ u. u.package) (map unit_plain lib.now)) }
{
    let mut paths = Items::new(alloc);
    push_packages(alloc, lib, &mut paths)?;
    Packages::of(alloc, paths)
}

fn push_packages(
    alloc: Global,
    units: &[SourceUnit],
    paths: &mut Items<Items<Name>>,
) -> Result<(), NoMemory>
    ensures { OnOk result (paths.new ≡ paths.old ++ map (λ u. u.package) units.now) }
{
    for unit in units {
        paths.push(Items::from_slice(alloc, unit.package.as_slice())?)?;
    }
    Ok(())
}

/// All types in order: those without a declaration, then those of the user files, then those of the library files.
pub(crate) fn known_types(
    alloc: Global,
    java: JavaNames,
    packages: &Packages,
    user: &[SourceUnit],
    lib: &[SourceUnit],
) -> Result<Vec<Known>, NoMemory>
    ensures { IfOk result (λ ts. ts.items ≡ map (brief packages.now) (types_of java (files_of (map unit_plain user.now) (map unit_plain lib.now)))) }
{
    let mut types = built_in_types(alloc, java, packages)?;
    push_types(packages, user, true, &mut types)?;
    push_types(packages, lib, false, &mut types)?;
    Ok(types)
}

fn built_in_types(
    alloc: Global,
    java: JavaNames,
    packages: &Packages,
) -> Result<Vec<Known>, NoMemory>
    ensures { IfOk result (λ ts. ts.items ≡ map (brief packages.now) (map (spec.built_in_type java) (spec.numbers_below 19))) }
{
    let lang = packages.number_of(&[java.java, java.lang]).unwrap_or(0);
    let io = packages.number_of(&[java.java, java.io]).unwrap_or(0);
    let mut types = Vec::new(alloc);
    for number in 0..BUILT_IN_TYPES {
        types.push(Known {
            package: if number == 3 { io } else { lang },
            name: Name(number),
            is_public: true,
            user: false,
            node: None,
        })?;
    }
    Ok(types)
}

fn push_types(
    packages: &Packages,
    units: &[SourceUnit],
    user: bool,
    types: &mut Vec<Known>,
) -> Result<(), NoMemory>
    ensures { OnOk result (types.new.items ≡ types.old.items ++ map (brief packages.now) (flat_map types_in (files_in user (map unit_plain units.now)))) }
{
    for unit in units {
        push_declared(packages, unit, user, types)?;
    }
    Ok(())
}

fn push_declared(
    packages: &Packages,
    unit: &SourceUnit,
    user: bool,
    types: &mut Vec<Known>,
) -> Result<(), NoMemory>
    ensures { OnOk result (types.new.items ≡ types.old.items ++ map (brief packages.now) (types_in (record { unit = unit_plain unit.now; user = user }))) }
{
    let package = packages.number_of(unit.package.as_slice()).unwrap_or(0);
    for class in unit.types.as_slice() {
        types.push(Known {
            package,
            name: class.name,
            is_public: is_public(class),
            user,
            node: Some(class.node.id),
        })?;
    }
    Ok(())
}

fn is_public(class: &TypeDecl) -> bool
    ensures { result ≡ list_any is_public_mod class.now.mods }
{
    for modifier in class.mods.as_slice() {
        if matches!(modifier, Mod::Public) {
            return true;
        }
    }
    false
}
