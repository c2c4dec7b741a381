//! Tests on packages and on the files that are in them.

ghost use Rattle.std.specs.Prelude.{◌≡◌, ◌↔◌, ◌⊎◌, List, IsTrue, map};
ghost use Rattle.java_tree.specs.View.{unit_plain};
ghost use Rattle.rule_order.specs.First.{IsFirst};
ghost use Rattle.type_names.specs.Known.{File};
ghost use Rattle.type_names.specs.Rules.{NamesNoPackage};
ghost use Rattle.type_names.specs.Searches.{IfBroken, IsBuiltInPackage, IsApart, BeginsBuiltIn};
ghost use Rattle.type_names.specs.Tables.{AreLibrary};
ghost use Rattle.type_names.specs.Tables as tables;

use crate::known::JavaNames;
use crate::paths::Packages;
use java_tree::BUILT_IN_TYPES;
use java_tree::tree::{Name, SourceUnit};
use rule_order::Breach;

/// The rule at a node, if it is broken.
pub(crate) fn breach_if(broken: bool, node: u32, rule: u8) -> Option<Breach>
    ensures { IsFirst (IfBroken node rule broken) result }
{
    if broken {
        Some(Breach { node, rule })
    } else {
        None
    }
}

/// Whether a built-in type is in the package.
pub(crate) fn is_built_in(java: JavaNames, path: &[Name]) -> bool
    ensures { IsTrue result ↔ IsBuiltInPackage java path.now }
{
    path == [java.java, java.lang].as_slice() || path == [java.java, java.io].as_slice()
}

/// Whether the first of the files is not in the package.
pub(crate) fn is_apart(units: &[SourceUnit], path: &[Name]) -> bool
    ensures { IsTrue result ↔ IsApart (map unit_plain units.now) path.now }
{
    match units.first() {
        Some(first) => path != first.package.as_slice(),
        None => false,
    }
}

/// Whether the package begins with the simple name of a built-in type.
pub(crate) fn begins_built_in(path: &[Name]) -> bool
    ensures { IsTrue result ↔ BeginsBuiltIn path.now }
{
    match path.first() {
        Some(name) => name.0 < BUILT_IN_TYPES,
        None => false,
    }
}

/// Whether an import on demand of a user file, or of a library file, names no package. Takes a look-up for each name of the path.
pub(crate) fn names_no_package(
    java: JavaNames,
    packages: &Packages,
    library: &Packages,
    from_user: bool,
    path: &[Name],
) -> bool
    ensures { (fs : List File) → packages.now ≡ tables.packages java fs → AreLibrary library.now fs → IsTrue result ↔ NamesNoPackage java fs from_user path.now }
{
    if from_user {
        return !packages.has(path);
    }
    if is_built_in(java, path) {
        return false;
    }
    !library.has(path)
}
