//! What a file imports.

ghost use Rattle.std.specs.Prelude.{◌≡◌, ℕ, ◌||◌, cond, nat_eq, slice_get, List, [], ◌∷◌, Some, IfOk, OnOk, OnSome};
ghost use Rattle.std.specs.List.{list_any, position_from};
ghost use Rattle.std.specs.HashMap.{get};
ghost use Rattle.std.specs.HashSet.{contains};
ghost use Rattle.java_tree.specs.declared.tree.Name as spec_name;
ghost use Rattle.java_tree.specs.View.{unit_plain};
ghost use Rattle.type_names.specs.Known.{KnownType, File};
ghost use Rattle.type_names.specs.Sees.{same_path};
ghost use Rattle.type_names.specs.Paths.{number_in};
ghost use Rattle.type_names.specs.Tables.{least, first_at, open_key, is_open_in, is_named_by, AreSame, HoldsTypes, HoldsDemands, HoldsFile};

use crate::firsts::{FirstTypes, TypeKey};
use crate::known::JavaNames;
use crate::paths::Packages;
use java_tree::NoMemory;
use java_tree::tree::{Import, Name, SourceUnit};
use std::alloc::Global;
use std::collections::{HashMap, HashSet};

/// What is kept of a file: its package, whether it is a user file, the types that its single-type imports name, and the packages that it imports on demand.
#[derive(Drop)]
pub(crate) struct FileNames {
    pub(crate) home: Home,
    pub(crate) singles: HashMap<u32, u32>,
    pub(crate) on_demand: OnDemand,
}

impl FileNames {
    pub(crate) fn of(
        alloc: Global,
        java: JavaNames,
        packages: &Packages,
        firsts: &FirstTypes,
        unit: &SourceUnit,
        user: bool,
    ) -> Result<FileNames, NoMemory>
        ensures { IfOk result (λ n. (ts : List KnownType) (h : ℕ) → HoldsTypes packages.now firsts.now ts → number_in packages.now unit.now.«package» ≡ Some h
            → HoldsFile packages.now java ts (record { unit = unit_plain unit.now; user = user }) n) }
    {
        let package = packages.number_of(unit.package.as_slice()).unwrap_or(0);
        let home = Home { package, user };
        let imports = unit.imports.as_slice();
        Ok(FileNames {
            home,
            singles: singles_of(alloc, packages, firsts, home, imports)?,
            on_demand: on_demand_of(alloc, java, packages, imports)?,
        })
    }

    /// The type that a single-type import names.
    pub(crate) fn single(&self, name: Name) -> Option<u32>
        ensures { result ≡ get nat_eq self.now.singles name.0 }
    {
        self.singles.get(&name.0).copied()
    }
}

/// The packages that a file imports on demand, by number, as a list and as a set.
#[derive(Drop)]
pub(crate) struct OnDemand {
    pub(crate) numbers: Vec<usize>,
    pub(crate) seen: HashSet<usize>,
}

/// The package of a file, and whether it is a user file.
#[derive(Clone, Copy)]
pub(crate) struct Home {
    pub(crate) package: usize,
    pub(crate) user: bool,
}

impl Home {
    /// The key of the types of a name in a package that are open to the file.
    pub(crate) fn key(self, package: usize, name: Name) -> TypeKey
        ensures { result ≡ open_key self.«package» self.user «package» name.0 }
    {
        TypeKey {
            public_only: package != self.package,
            library_only: !self.user,
            package,
            name: name.0,
        }
    }
}

/// The lower of two numbers that may be missing.
pub(crate) fn least(a: Option<u32>, b: Option<u32>) -> Option<u32>
    ensures { result ≡ least a b }
{
    match (a, b) {
        (Some(x), Some(y)) if x > y => Some(y),
        (Some(x), _) => Some(x),
        (None, other) => other,
    }
}

/// The first open type of a name in a package.
pub(crate) fn type_in(
    packages: &Packages,
    firsts: &FirstTypes,
    home: Home,
    path: &[Name],
    name: Name,
) -> Option<u32>
    ensures { (ts : List KnownType) (f : File) → HoldsTypes packages.now firsts.now ts → number_in packages.now f.unit.«package» ≡ Some home.«package»
        → home.user ≡ f.user → result ≡ position_from (is_open_in f path.now name.0) 0 ts }
{
    match packages.number_of(path) {
        Some(package) => firsts.get(home.key(package, name)),
        None => None,
    }
}

fn singles_of(
    alloc: Global,
    packages: &Packages,
    firsts: &FirstTypes,
    home: Home,
    imports: &[Import],
) -> Result<HashMap<u32, u32>, NoMemory>
    ensures { IfOk result (λ m. (ts : List KnownType) (f : File) → HoldsTypes packages.now firsts.now ts → number_in packages.now f.unit.«package» ≡ Some home.«package»
        → home.user ≡ f.user → (x : ℕ)
        → get nat_eq m x ≡ position_from (is_named_by f imports.now x) 0 ts) }
{
    let mut singles = HashMap::new(alloc);
    for import in imports {
        note_import(packages, firsts, home, import, &mut singles)?;
    }
    Ok(singles)
}

fn note_import(
    packages: &Packages,
    firsts: &FirstTypes,
    home: Home,
    import: &Import,
    singles: &mut HashMap<u32, u32>,
) -> Result<(), NoMemory>
    ensures { OnOk result ((ts : List KnownType) (f : File) → HoldsTypes packages.now firsts.now ts → number_in packages.now f.unit.«package» ≡ Some home.«package»
        → home.user ≡ f.user → (x : ℕ)
        → get nat_eq singles.new x ≡ least (get nat_eq singles.old x) (position_from (is_named_by f (import.now ∷ []) x) 0 ts)) }
{
    if import.all {
        return Ok(());
    }
    if let Some((name, path)) = import.path.as_slice().split_last() {
        if let Some(at) = type_in(packages, firsts, home, path, *name) {
            note_single(singles, name.0, at)?;
        }
    }
    Ok(())
}

fn note_single(singles: &mut HashMap<u32, u32>, name: u32, at: u32) -> Result<(), NoMemory>
    ensures { OnOk result ((x : ℕ) → get nat_eq singles.new x ≡ cond (nat_eq name x) (least (get nat_eq singles.old x) (Some at)) (get nat_eq singles.old x)) }
{
    if let Some(first) = least(singles.get(&name).copied(), Some(at)) {
        singles.insert(name, first)?;
    }
    Ok(())
}

fn on_demand_of(
    alloc: Global,
    java: JavaNames,
    packages: &Packages,
    imports: &[Import],
) -> Result<OnDemand, NoMemory>
    ensures { IfOk result (λ d. HoldsDemands packages.now java imports.now d.numbers.items × AreSame (contains nat_eq d.seen) d.numbers.items) }
{
    let mut numbers = Vec::new(alloc);
    let mut seen = HashSet::new(alloc);
    push_package(packages, &[java.java, java.lang], &mut seen, &mut numbers)?;
    for import in imports {
        if import.all {
            push_package(packages, import.path.as_slice(), &mut seen, &mut numbers)?;
        }
    }
    Ok(OnDemand { numbers, seen })
}

/// Puts the number of a package to those seen, once, if it has one.
fn push_package(
    packages: &Packages,
    path: &[Name],
    seen: &mut HashSet<usize>,
    numbers: &mut Vec<usize>,
) -> Result<(), NoMemory>
    requires { AreSame (contains nat_eq seen.old) numbers.old.items }
    ensures same { OnOk result (AreSame (contains nat_eq seen.new) numbers.new.items) }
    ensures all { OnOk result ((q : List spec_name.Name) (p : ℕ) → number_in packages.now q ≡ Some p
        → list_any (λ y. nat_eq y p) numbers.new.items ≡ (list_any (λ y. nat_eq y p) numbers.old.items || same_path q path.now)) }
    ensures real { OnOk result (((k p : ℕ) → slice_get numbers.old.items k ≡ Some p → (q : List spec_name.Name) × (number_in packages.now q ≡ Some p))
        → (k p : ℕ) → slice_get numbers.new.items k ≡ Some p → (q : List spec_name.Name) × (number_in packages.now q ≡ Some p)) }
{
    if let Some(number) = packages.number_of(path) {
        if !seen.contains(&number) {
            seen.insert(number)?;
            numbers.push(number)?;
        }
    }
    Ok(())
}
