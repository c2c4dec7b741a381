//! The methods that a class has from both sides with one signature.

ghost use Rattle.std.specs.Prelude.{◌≡◌, ◌↔◌, ◌⊎◌, ℕ, IfOk, OnOk, IsTrue, length};
ghost use Rattle.std.specs.List.{Contains};
ghost use Rattle.std.specs.List.Sorted.{IsStrictlyIncreasing};
ghost use Rattle.class_world.specs.Sound.{IsSound};
ghost use Rattle.class_world.specs.Inheritance.{IsMemberMethod};
ghost use Rattle.member_methods.specs.Methods.{AreNamed, HoldsMethods};
ghost use Rattle.method_ties.specs.declared.Meeting as pairs;
ghost use Rattle.method_ties.specs.Ties.{AreMeetings};
ghost use Rattle.method_ties.specs.Sides.{AreAll, AreSuperclasses, IsInherited, IsLower, IsOnce, Meets};
ghost use Rattle.method_ties.specs.Tables.{HoldTables, IsKeyed, IsKeyedLower, named_by};

use crate::Meeting;
use crate::lists::{ascending, is_among};
use crate::supers::{classes, supertypes};
use crate::tables::{FEW, Key, Tables};
use class_world::World;
use java_tree::{Items, NoMemory};
use member_methods::MethodLists;
use seen_methods::{have_one_signature, is_class, is_of_class, method_of};
use std::alloc::Global;

/// Whether the method is a member of one of the types.
fn is_of_one(w: &World, lists: &MethodLists, types: &[u32], m: u32) -> bool
    requires { HoldsMethods w.now lists.now }
    ensures { IsTrue result ↔ ((s : ℕ) × Contains types.now s × IsMemberMethod w.now s m) }
{
    let Some(info) = method_of(w, m) else {
        return false;
    };
    for s in types {
        if is_among(lists.named(*s, info.name, info.params.len()), m) {
            return true;
        }
    }
    false
}

/// Whether the method is a member of the type `c`, which does not declare it.
fn is_inherited(w: &World, lists: &MethodLists, c: u32, m: u32) -> bool
    requires { HoldsMethods w.now lists.now }
    ensures { IsTrue result ↔ IsInherited w.now c m }
{
    match method_of(w, m) {
        Some(info) => {
            info.owner != c && is_among(lists.named(c, info.name, info.params.len()), m)
        }
        None => false,
    }
}

/// Whether the class `c` has the method from its superclass, the only one of `supers`, and it is one that a class declares.
fn is_lower(w: &World, lists: &MethodLists, c: u32, supers: &[u32], m: u32) -> bool
    requires lists { HoldsMethods w.now lists.now }
    requires supers { AreSuperclasses w.now c supers.now }
    ensures { IsTrue result ↔ IsLower w.now c m }
{
    is_inherited(w, lists, c, m) && is_of_class(w, m) && is_of_one(w, lists, supers, m)
}

/// Whether the method `m` meets `k`, which the class has from an interface.
fn meets(
    alloc: Global,
    w: &World,
    lists: &MethodLists,
    c: u32,
    supers: &[u32],
    m: u32,
    k: u32,
) -> Result<bool, NoMemory>
    requires sound { IsSound w.now }
    requires lists { HoldsMethods w.now lists.now }
    requires supers { AreSuperclasses w.now c supers.now }
    ensures { IfOk result (λ r. IsTrue r ↔ Meets w.now c m k) }
{
    // What an interface has from Object, the class has from both sides.
    if m == k || !is_lower(w, lists, c, supers, m) {
        return Ok(false);
    }
    have_one_signature(alloc, w, c, m, k)
}

/// Those of the methods that the class has from its superclass, and that a class declares; ascending.
fn lower_of(
    alloc: Global,
    w: &World,
    lists: &MethodLists,
    c: u32,
    supers: &[u32],
    methods: &[u32],
) -> Result<Vec<u32>, NoMemory>
    requires lists { HoldsMethods w.now lists.now }
    requires supers { AreSuperclasses w.now c supers.now }
    ensures has { IfOk result (λ v. (m : ℕ) → Contains v.items m ↔ (Contains methods.now m × IsLower w.now c m)) }
    ensures ascending { IfOk result (λ v. IsStrictlyIncreasing v.items) }
{
    let mut lower = Vec::new(alloc);
    for m in methods {
        if is_lower(w, lists, c, supers, *m) {
            lower.push(*m)?;
        }
    }
    Ok(ascending(lower))
}

/// Numbers those of a long list of the class that it has from its superclass, if it was not numbered yet.
fn number_lower(
    alloc: Global,
    w: &World,
    lists: &MethodLists,
    supers: &[u32],
    tables: &mut Tables,
    key: Key,
    listed: &[u32],
) -> Result<(), NoMemory>
    requires sound { IsSound w.now }
    requires lists { HoldsMethods w.now lists.now }
    requires supers { AreSuperclasses w.now key.owner supers.now }
    requires listed { AreNamed w.now key.owner (named_by key) key.arity listed.now }
    requires tables { HoldTables w.now (IsKeyedLower w.now) tables.old }
    ensures tables { OnOk result (HoldTables w.now (IsKeyedLower w.now) tables.new) }
    ensures class { OnOk result (tables.new.class ≡ tables.old.class) }
{
    if listed.len() <= FEW {
        return Ok(());
    }
    if tables.get(key).is_some() {
        return Ok(());
    }
    let lower = lower_of(alloc, w, lists, key.owner, supers, listed)?;
    tables.make(alloc, w, key, lower.as_slice())?;
    Ok(())
}

/// Adds the pairs of those of the methods that meet `k`, which the class has from an interface.
fn add_pairs(
    alloc: Global,
    w: &World,
    lists: &MethodLists,
    c: u32,
    supers: &[u32],
    k: u32,
    methods: &[u32],
    found: &mut Vec<Meeting>,
) -> Result<(), NoMemory>
    requires sound { IsSound w.now }
    requires lists { HoldsMethods w.now lists.now }
    requires supers { AreSuperclasses w.now c supers.now }
    requires methods { IsOnce methods.now }
    requires once { IsOnce found.old.items }
    requires new { (m : ℕ) → Contains found.old.items (record { lower = m; upper = k }) → ⊥ }
    ensures has { OnOk result ((p : pairs.Meeting) → Contains found.new.items p ↔ (Contains found.old.items p ⊎ ((p.upper ≡ k) × Contains methods.now p.lower × Meets w.now c p.lower k))) }
    ensures once { OnOk result (IsOnce found.new.items) }
{
    for m in methods {
        if meets(alloc, w, lists, c, supers, *m, k)? {
            found.push(Meeting {
                lower: *m,
                upper: k,
            })?;
        }
    }
    Ok(())
}

/// Adds the pairs of the listed methods that meet `k`; where the list was numbered, only those of the signature of `k` are looked at.
fn add_alike(
    alloc: Global,
    w: &World,
    lists: &MethodLists,
    supers: &[u32],
    tables: &Tables,
    key: Key,
    k: u32,
    listed: &[u32],
    found: &mut Vec<Meeting>,
) -> Result<(), NoMemory>
    requires sound { IsSound w.now }
    requires lists { HoldsMethods w.now lists.now }
    requires supers { AreSuperclasses w.now key.owner supers.now }
    requires listed { AreNamed w.now key.owner (named_by key) key.arity listed.now }
    requires class { tables.now.class ≡ key.owner }
    requires tables { HoldTables w.now (IsKeyedLower w.now) tables.now }
    requires once { IsOnce found.old.items }
    requires new { (m : ℕ) → Contains found.old.items (record { lower = m; upper = k }) → ⊥ }
    ensures has { OnOk result ((p : pairs.Meeting) → Contains found.new.items p ↔ (Contains found.old.items p ⊎ ((p.upper ≡ k) × IsKeyed w.now key p.lower × Meets w.now key.owner p.lower k))) }
    ensures once { OnOk result (IsOnce found.new.items) }
{
    let c = key.owner;
    match tables.get(key) {
        Some(table) => {
            let alike = table.alike(alloc, w, k)?;
            add_pairs(alloc, w, lists, c, supers, k, alike, found)
        }
        None => add_pairs(alloc, w, lists, c, supers, k, listed, found),
    }
}

/// Adds the pairs of the methods that meet `k`, which the class has from an interface.
fn add_meetings(
    alloc: Global,
    w: &World,
    lists: &MethodLists,
    c: u32,
    supers: &[u32],
    tables: &mut Tables,
    k: u32,
    found: &mut Vec<Meeting>,
) -> Result<(), NoMemory>
    requires sound { IsSound w.now }
    requires lists { HoldsMethods w.now lists.now }
    requires supers { AreSuperclasses w.now c supers.now }
    requires class { tables.old.class ≡ c }
    requires tables { HoldTables w.now (IsKeyedLower w.now) tables.old }
    requires once { IsOnce found.old.items }
    requires new { (m : ℕ) → Contains found.old.items (record { lower = m; upper = k }) → ⊥ }
    ensures class { OnOk result (tables.new.class ≡ c) }
    ensures tables { OnOk result (HoldTables w.now (IsKeyedLower w.now) tables.new) }
    ensures has { OnOk result ((p : pairs.Meeting) → Contains found.new.items p ↔ (Contains found.old.items p ⊎ ((p.upper ≡ k) × Meets w.now c p.lower k))) }
    ensures once { OnOk result (IsOnce found.new.items) }
{
    let Some(info) = method_of(w, k) else {
        return Ok(());
    };
    let arity = info.params.len();
    let key = Key {
        owner: c,
        name: info.name.0,
        arity,
    };
    let listed = lists.named(c, info.name, arity);
    number_lower(alloc, w, lists, supers, tables, key, listed)?;
    add_alike(alloc, w, lists, supers, tables, key, k, listed, found)?;
    Ok(())
}

/// The pairs that one type has from both sides.
fn meetings_of(
    alloc: Global,
    w: &World,
    lists: &MethodLists,
    c: u32,
) -> Result<Items<Meeting>, NoMemory>
    requires sound { IsSound w.now }
    requires lists { HoldsMethods w.now lists.now }
    ensures { IfOk result (λ ps. AreMeetings w.now c ps × IsOnce ps) }
{
    if !is_class(w, c) {
        return Ok(Items::new(alloc));
    }
    let above = supertypes(alloc, w, c)?;
    let supers = classes(alloc, w, above.as_slice())?;
    let upper = lists.from_interfaces(alloc, c)?;
    let mut found = Vec::new(alloc);
    let mut tables = Tables::new(alloc, c);
    for k in &upper {
        if is_inherited(w, lists, c, *k) {
            add_meetings(
                alloc,
                w,
                lists,
                c,
                supers.as_slice(),
                &mut tables,
                *k,
                &mut found,
            )?;
        }
    }
    Ok(Items::from_vec(found))
}

/// What meets in each type, by its number.
pub(crate) fn all_meetings(
    alloc: Global,
    w: &World,
    lists: &MethodLists,
) -> Result<Vec<Items<Meeting>>, NoMemory>
    requires sound { IsSound w.now }
    requires lists { HoldsMethods w.now lists.now }
    ensures { IfOk result (λ v. AreAll (λ c ps. AreMeetings w.now c ps × IsOnce ps) v.items (length w.now.types)) }
{
    // More types than numbers find no room in the memory of any machine.
    if w.types.len() > u32::MAX as usize {
        return Err(NoMemory);
    }
    let mut all = Vec::new(alloc);
    for c in 0..w.types.len() as u32 {
        all.push(meetings_of(alloc, w, lists, c)?)?;
    }
    Ok(all)
}
