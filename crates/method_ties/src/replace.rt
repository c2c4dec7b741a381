//! The methods whose place a method takes.

ghost use Rattle.std.specs.Prelude.{◌≡◌, ◌↔◌, ℕ, IfOk, OnOk, length};
ghost use Rattle.std.specs.List.{Contains};
ghost use Rattle.class_world.specs.Sound.{IsSound};
ghost use Rattle.class_world.specs.Signatures.{HaveOneSignatureIn};
ghost use Rattle.member_methods.specs.Methods.{AreInheritable, HoldsMethods};
ghost use Rattle.method_ties.specs.Ties.{AreReplaced};
ghost use Rattle.method_ties.specs.Sides.{AreAll};
ghost use Rattle.method_ties.specs.Tables.{HoldTables, IsKeyedAbove, named_by};

use crate::lists::ascending;
use crate::tables::{FEW, Key, Tables};
use class_world::World;
use java_tree::{Items, NoMemory};
use member_methods::MethodLists;
use seen_methods::{have_one_signature, method_of};
use std::alloc::Global;

/// Those of the listed methods that have one signature with `m` in the type `c`.
fn alike_of(alloc: Global, w: &World, c: u32, m: u32, listed: &[u32]) -> Result<Vec<u32>, NoMemory>
    requires { IsSound w.now }
    ensures { IfOk result (λ v. (k : ℕ) → Contains v.items k ↔ (Contains listed.now k × HaveOneSignatureIn w.now c m k)) }
{
    let mut alike = Vec::new(alloc);
    for k in listed {
        if have_one_signature(alloc, w, c, m, *k)? {
            alike.push(*k)?;
        }
    }
    Ok(alike)
}

/// Numbers a long list, if it was not numbered yet.
fn number_long(
    alloc: Global,
    w: &World,
    tables: &mut Tables,
    key: Key,
    listed: &[u32],
) -> Result<(), NoMemory>
    requires sound { IsSound w.now }
    requires listed { AreInheritable w.now key.owner (named_by key) key.arity listed.now }
    requires tables { HoldTables w.now (IsKeyedAbove w.now) tables.old }
    ensures tables { OnOk result (HoldTables w.now (IsKeyedAbove w.now) tables.new) }
    ensures class { OnOk result (tables.new.class ≡ tables.old.class) }
{
    if listed.len() <= FEW {
        return Ok(());
    }
    if tables.get(key).is_some() {
        return Ok(());
    }
    tables.make(alloc, w, key, listed)?;
    Ok(())
}

/// Those of the listed methods that have one signature with `m`; where the list was numbered, no others are looked at.
fn alike_in(
    alloc: Global,
    w: &World,
    tables: &Tables,
    key: Key,
    m: u32,
    listed: &[u32],
) -> Result<Vec<u32>, NoMemory>
    requires sound { IsSound w.now }
    requires listed { AreInheritable w.now key.owner (named_by key) key.arity listed.now }
    requires tables { HoldTables w.now (IsKeyedAbove w.now) tables.now }
    ensures { IfOk result (λ v. (k : ℕ) → Contains v.items k ↔ (IsKeyedAbove w.now key k × HaveOneSignatureIn w.now tables.now.class m k)) }
{
    match tables.get(key) {
        Some(table) => {
            let alike = table.alike(alloc, w, m)?;
            let copied = Vec::from_slice(alloc, alike)?;
            Ok(copied)
        }
        None => alike_of(alloc, w, tables.class, m, listed),
    }
}

/// The methods whose place one method takes in its own type, ascending.
fn replaced_by(
    alloc: Global,
    w: &World,
    lists: &MethodLists,
    tables: &mut Tables,
    m: u32,
) -> Result<Items<u32>, NoMemory>
    requires sound { IsSound w.now }
    requires lists { HoldsMethods w.now lists.now }
    requires tables { HoldTables w.now (IsKeyedAbove w.now) tables.old }
    ensures tables { OnOk result (HoldTables w.now (IsKeyedAbove w.now) tables.new) }
    ensures replaced { IfOk result (λ ks. AreReplaced w.now m ks) }
{
    let Some(info) = method_of(w, m) else {
        return Ok(Items::new(alloc));
    };
    let arity = info.params.len();
    let key = Key {
        owner: info.owner,
        name: info.name.0,
        arity,
    };
    let listed = lists.inheritable(info.owner, info.name, arity);
    tables.turn_to(alloc, info.owner);
    number_long(alloc, w, tables, key, listed)?;
    let alike = alike_in(alloc, w, tables, key, m, listed)?;
    Ok(Items::from_vec(ascending(alike)))
}

/// The methods whose place each takes, by its number.
pub(crate) fn all_replaced(
    alloc: Global,
    w: &World,
    lists: &MethodLists,
) -> Result<Vec<Items<u32>>, NoMemory>
    requires sound { IsSound w.now }
    requires lists { HoldsMethods w.now lists.now }
    ensures { IfOk result (λ v. AreAll (AreReplaced w.now) v.items (length w.now.methods)) }
{
    // More methods than numbers find no room in the memory of any machine.
    if w.methods.len() > u32::MAX as usize {
        return Err(NoMemory);
    }
    let mut all = Vec::new(alloc);
    let mut tables = Tables::new(alloc, 0);
    for m in 0..w.methods.len() as u32 {
        all.push(replaced_by(alloc, w, lists, &mut tables, m)?)?;
    }
    Ok(all)
}
