//! The rules on names of packages and types.

ghost use Rattle.std.specs.Prelude.{◌≡◌, ℕ, ◌||◌, List, map, nat_eq, IfOk, OnOk};
ghost use Rattle.std.specs.HashSet.{contains};
ghost use Rattle.java_tree.specs.Plain as spec;
ghost use Rattle.java_tree.specs.View.{unit_plain};
ghost use Rattle.rule_order.specs.First.{Either, IsFirst};
ghost use Rattle.type_names.specs.Rules.{Among, NameBreaches};
ghost use Rattle.type_names.specs.Searches.{UserBreaches, LibBreaches, TypeBreaches, IfDeclared, begin};

use crate::known::{JavaNames, Known, known_types, library_of};
use crate::packages::{begins_built_in, breach_if, is_apart, is_built_in};
use crate::paths::Packages;
use java_tree::NoMemory;
use java_tree::tree::SourceUnit;
use rule_order::{Breach, earlier};
use std::alloc::Global;
use std::collections::HashSet;

/// The first of the rules S14, S15, S20, S22 and S23 that is broken, with the number behind the S. Takes time for the types and the names of packages.
pub fn first_name_breach(
    alloc: Global,
    java: JavaNames,
    user: &[SourceUnit],
    lib: &[SourceUnit],
) -> Result<Option<Breach>, NoMemory>
    ensures { IfOk result (λ r. IsFirst (NameBreaches java (map unit_plain user.now) (map unit_plain lib.now)) r) }
{
    let library = library_of(alloc, lib)?;
    // The rules are on names alone, so the numbers of packages do not count.
    let types = known_types(alloc, java, &library, user, lib)?;
    let roots = roots_of(alloc, java, user, lib)?;
    let in_types = first_type_breach(alloc, &types, &roots)?;
    let in_files = earlier(
        first_user_breach(java, user, &library),
        first_lib_breach(lib),
    );
    Ok(earlier(in_files, in_types))
}

fn first_user_breach(java: JavaNames, user: &[SourceUnit], library: &Packages) -> Option<Breach>
    ensures { (lib : List spec.SourceUnit) → library.now ≡ map (λ u. u.package) lib
        → IsFirst (Among (UserBreaches java (map unit_plain user.now) lib) (map unit_plain user.now)) result }
{
    let mut found = None;
    for unit in user {
        found = earlier(found, user_breach(java, user, library, unit));
    }
    found
}

fn user_breach(
    java: JavaNames,
    user: &[SourceUnit],
    library: &Packages,
    unit: &SourceUnit,
) -> Option<Breach>
    ensures { (lib : List spec.SourceUnit) → library.now ≡ map (λ u. u.package) lib → IsFirst (UserBreaches java (map unit_plain user.now) lib (unit_plain unit.now)) result }
{
    let node = unit.node.id;
    let path = unit.package.as_slice();
    let one = breach_if(is_apart(user, path), node, 14);
    let own = breach_if(is_built_in(java, path) | library.has(path), node, 15);
    let name = breach_if(begins_built_in(path), node, 22);
    earlier(one, earlier(own, name))
}

fn first_lib_breach(lib: &[SourceUnit]) -> Option<Breach>
    ensures { IsFirst (Among LibBreaches (map unit_plain lib.now)) result }
{
    let mut found = None;
    for unit in lib {
        found = earlier(found, lib_breach(unit));
    }
    found
}

fn lib_breach(unit: &SourceUnit) -> Option<Breach>
    ensures { IsFirst (LibBreaches (unit_plain unit.now)) result }
{
    let node = unit.node.id;
    let named = breach_if(unit.package.is_empty(), node, 20);
    let name = breach_if(begins_built_in(unit.package.as_slice()), node, 22);
    earlier(named, name)
}

// The first identifiers of the packages.
fn roots_of(
    alloc: Global,
    java: JavaNames,
    user: &[SourceUnit],
    lib: &[SourceUnit],
) -> Result<HashSet<u32>, NoMemory>
    ensures { IfOk result (λ s. (q : ℕ) → contains nat_eq s q ≡ ((nat_eq java.java.0 q || begin user.now q) || begin lib.now q)) }
{
    let mut roots = HashSet::new(alloc);
    roots.insert(java.java.0)?;
    push_roots(user, &mut roots)?;
    push_roots(lib, &mut roots)?;
    Ok(roots)
}

fn push_roots(units: &[SourceUnit], roots: &mut HashSet<u32>) -> Result<(), NoMemory>
    ensures { OnOk result ((q : ℕ) → contains nat_eq roots.new q ≡ (contains nat_eq roots.old q || begin units.now q)) }
{
    for unit in units {
        if let Some(root) = unit.package.as_slice().first() {
            roots.insert(root.0)?;
        }
    }
    Ok(())
}

fn first_type_breach(
    alloc: Global,
    types: &[Known],
    roots: &HashSet<u32>,
) -> Result<Option<Breach>, NoMemory>
    ensures { IfOk result (λ r. IsFirst (TypeBreaches (contains nat_eq roots.now) types.now) r) }
{
    let mut found = None;
    let mut seen = HashSet::new(alloc);
    for known in types {
        let name = known.name.0;
        let here = type_breach(known, roots.contains(&name), seen.contains(&name));
        found = earlier(found, here);
        seen.insert(name)?;
    }
    Ok(found)
}

fn type_breach(known: &Known, root: bool, seen: bool) -> Option<Breach>
    ensures { IsFirst (Either (IfDeclared 22 root known.now) (IfDeclared 23 seen known.now)) result }
{
    match known.node {
        Some(node) => earlier(breach_if(root, node, 22), breach_if(seen, node, 23)),
        None => None,
    }
}
