//! Which type a simple name means in a file (JLS 3rd edition, 6.3 and 6.5.5.1).

ghost use Rattle.std.specs.Prelude.{◌≡◌, ◌⊎◌, ℕ, ◌<◌, ◌^◌, ◌++◌, cond, nat_eq, List, length, map, slice_get, Some, None, IfOk, OnOk};
ghost use Rattle.std.specs.HashSet.{contains};
ghost use Rattle.std.specs.List.{position_from};
ghost use Rattle.java_tree.specs.declared.tree.Name as spec_name;
ghost use Rattle.java_tree.specs.View.{unit_plain};
ghost use Rattle.type_names.specs.declared.known.JavaNames as spec_java;
ghost use Rattle.type_names.specs.Known.{KnownType, File, types_of, files_of};
ghost use Rattle.type_names.specs.Sees.{meant};
ghost use Rattle.type_names.specs.Paths.{number_in};
ghost use Rattle.type_names.specs.Tables as tables;
ghost use Rattle.type_names.specs.Tables.{is_open_both, open_key, files_in, HoldsTypes, HoldsFiles, HaveHomes, StandsFor};

use crate::files::{FileNames, Home, least};
use crate::firsts::FirstTypes;
use crate::known::{JavaNames, known_types, library_of, packages_of};
use crate::name_homes::NameHomes;
use crate::paths::Packages;
use java_tree::NoMemory;
use java_tree::tree::{Name, SourceUnit};
use std::alloc::Global;
use std::collections::HashSet;

/// The types of a program by their names, and what each file sees of them.
#[derive(Drop)]
pub struct TypeNames {
    pub(crate) packages: Packages,
    pub(crate) library: Packages,
    pub(crate) firsts: FirstTypes,
    named: NameHomes,
    files: Vec<FileNames>,
}

impl TypeNames {
    /// The table of a program. Numbers of types are of 32 bits, so 2^32 types or more are want of memory too. Takes time for the types, the imports and the names of packages that are written.
    pub fn of(
        alloc: Global,
        java: JavaNames,
        user: &[SourceUnit],
        lib: &[SourceUnit],
    ) -> Result<TypeNames, NoMemory>
        ensures { IfOk result (λ t. StandsFor t java (files_of (map unit_plain user.now) (map unit_plain lib.now))) }
    {
        let packages = packages_of(alloc, java, user, lib)?;
        let library = library_of(alloc, lib)?;
        let types = known_types(alloc, java, &packages, user, lib)?;
        if types.len() > u32::MAX as usize {
            return Err(NoMemory);
        }
        let firsts = FirstTypes::of(alloc, &types)?;
        let named = NameHomes::of(alloc, &types)?;
        let mut files = Vec::new(alloc);
        push_files(alloc, java, &packages, &firsts, user, true, &mut files)?;
        push_files(alloc, java, &packages, &firsts, lib, false, &mut files)?;
        Ok(TypeNames {
            packages,
            library,
            firsts,
            named,
            files,
        })
    }

    /// The number of the type that a simple name means in a file, `None` where it means none. Files count from 0, user files before library files, and the numbers of types are those of `types_of`: built-in types first. Takes no memory, and time for the packages that the file imports on demand or for those that have a type of the name, whichever are fewer.
    pub fn meant(&self, file: u32, name: Name) -> Option<u32>
        ensures { (j : spec_java.JavaNames) (fs : List File) (f : File) → StandsFor self.now j fs → slice_get fs file ≡ Some f → result ≡ meant j fs f name }
    {
        let names = self.files.get(file as usize)?;
        if let Some(at) = names.single(name) {
            return Some(at);
        }
        let home = names.home;
        if let Some(at) = self.firsts.get(home.key(home.package, name)) {
            return Some(at);
        }
        let packages = shorter(names.on_demand.numbers.as_slice(), self.named.get(name));
        first_in(&self.firsts, home, &names.on_demand.seen, packages, name)
    }
}

fn push_files(
    alloc: Global,
    java: JavaNames,
    packages: &Packages,
    firsts: &FirstTypes,
    units: &[SourceUnit],
    user: bool,
    files: &mut Vec<FileNames>,
) -> Result<(), NoMemory>
    ensures { OnOk result ((ts : List KnownType) (fs : List File) → HoldsTypes packages.now firsts.now ts → HaveHomes packages.now (files_in user (map unit_plain units.now))
        → HoldsFiles packages.now java ts fs files.old.items → HoldsFiles packages.now java ts (fs ++ files_in user (map unit_plain units.now)) files.new.items) }
{
    for unit in units {
        files.push(FileNames::of(alloc, java, packages, firsts, unit, user)?)?;
    }
    Ok(())
}

fn shorter<'a>(a: &'a [usize], b: &'a [usize]) -> &'a [usize]
    ensures { (result.now ≡ a.now) ⊎ (result.now ≡ b.now) }
{
    if b.len() < a.len() {
        return b;
    }
    a
}

/// The first open type of a name in one of these packages that is in the set.
fn first_in(
    firsts: &FirstTypes,
    home: Home,
    seen: &HashSet<usize>,
    packages: &[usize],
    name: Name,
) -> Option<u32>
    ensures { (ps : List (List spec_name.Name)) (ts : List KnownType) (f : File) → HoldsTypes ps firsts.now ts → number_in ps f.unit.«package» ≡ Some home.«package»
        → home.user ≡ f.user → ((k p : ℕ) → slice_get packages.now k ≡ Some p → (path : List spec_name.Name) × (number_in ps path ≡ Some p))
        → result ≡ position_from (is_open_both f ps (contains nat_eq seen.now) packages.now name.0) 0 ts }
{
    let mut first = None;
    for package in packages {
        first = least(first, first_at(firsts, home, seen, *package, name));
    }
    first
}

/// The first open type of a name in a package, if this is in the set.
fn first_at(
    firsts: &FirstTypes,
    home: Home,
    seen: &HashSet<usize>,
    package: usize,
    name: Name,
) -> Option<u32>
    ensures { result ≡ cond (contains nat_eq seen.now «package») (tables.first_at firsts.now (open_key home.«package» home.user «package» name.0)) None }
{
    if seen.contains(&package) {
        firsts.get(home.key(package, name))
    } else {
        None
    }
}
