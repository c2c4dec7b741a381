//! Overriding through a third method (JLS 3rd edition, 8.4.8.1).

ghost use Rattle.std.specs.Prelude.{◌≡◌, ℕ, ◌<◌, ◌⊎◌, Some, false, length, IsTrue, IfOk, OnOk};
ghost use Rattle.std.specs.List.{Contains};
ghost use Rattle.shared_maps.specs.Maps.{KeepsMaps};
ghost use Rattle.class_world.specs.Sound.{IsSound};
ghost use Rattle.class_world.specs.Signatures.{AgreeBelow};
ghost use Rattle.class_world.specs.Overriding.{OverridesAtOnce, Overriding};
ghost use Rattle.overrides.specs.declared.links.Link as pairs;
ghost use Rattle.overrides.specs.Tables.{AreOfOneSize, Has, HasRow, Lacks};
ghost use Rattle.overrides.specs.AtOnce.{IsFree};
ghost use Rattle.overrides.specs.Links.{AreLinks, IsLink};
ghost use Rattle.overrides.specs.Rounds.{AreTaken, HasTaken, HasThird, IsDerived, IsFollowed, IsJoined, IsStep, IsTaken};

use crate::links::Link;
use crate::rows::Table;
use class_world::World;
use java_tree::NoMemory;
use seen_methods::agree_below;
use shared_maps::Map;
use std::alloc::Global;

/// Adds what each method overrides through one that it overrides at once, in rounds over all links, until a round adds nothing.
///
/// Beside each link stands the upper method's row as it was when all of it was taken over. A round passes over the links whose row is still that one, and where it finds no other it was the last. Where upper methods come first, a second round adds only what circles bring, as over methods of Object that interfaces declare again; and it finds a chain as it was, in the time of its links.
pub(crate) fn add_rounds(
    alloc: Global,
    w: &World,
    links: &[Link],
    table: &mut Table,
) -> Result<(), NoMemory>
    requires sound { IsSound w.now }
    requires links { AreLinks w.now links.now }
    requires table { IsDerived w.now table.old }
    ensures table { OnOk result (IsDerived w.now table.new) }
    ensures followed { OnOk result ((x : pairs.Link) → Contains links.now x → IsFollowed w.now table.new x.lower x.upper) }
{
    let mut taken = vec![in alloc; None; links.len()]?;
    'rounds: loop {
        if !add_round(alloc, w, links, &mut taken, table)? {
            return Ok(());
        }
    }
}

/// Goes over the links once, and tells whether that added something.
fn add_round(
    alloc: Global,
    w: &World,
    links: &[Link],
    taken: &mut Vec<Option<Map>>,
    table: &mut Table,
) -> Result<bool, NoMemory>
    requires sound { IsSound w.now }
    requires links { AreLinks w.now links.now }
    requires size { length taken.old.items ≡ length links.now }
    requires taken { AreTaken w.now table.old links.now taken.old.items }
    requires table { IsDerived w.now table.old }
    ensures size { OnOk result (length taken.new.items ≡ length links.now) }
    ensures taken { OnOk result (AreTaken w.now table.new links.now taken.new.items) }
    ensures table { OnOk result (IsDerived w.now table.new) }
    ensures step { IfOk result (IsStep table.old table.new) }
    ensures closed { IfOk result (λ added. added ≡ false → (x : pairs.Link) → Contains links.now x → IsFollowed w.now table.new x.lower x.upper) }
{
    let mut added = false;
    for i in 0..links.len() {
        let (row, more) = add_link(alloc, w, links[i], taken[i], table)?;
        taken[i] = Some(row);
        if more {
            added = true;
        }
    }
    Ok(added)
}

/// Adds what the lower method of a link overrides through the upper one, unless all of the upper one's row is taken over. Gives this row, and whether something was added.
fn add_link(
    alloc: Global,
    w: &World,
    link: Link,
    taken: Option<Map>,
    table: &mut Table,
) -> Result<(Map, bool), NoMemory>
    requires sound { IsSound w.now }
    requires link { IsLink w.now link }
    requires taken { HasTaken w.now table.old link taken }
    requires table { IsDerived w.now table.old }
    ensures table { OnOk result (IsDerived w.now table.new) }
    ensures maps { OnOk result (KeepsMaps table.old.maps table.new.maps) }
    ensures step { IfOk result (λ r. IsStep table.old table.new r.1) }
    ensures taken { IfOk result (λ r. IsTaken w.now table.new link.lower link.upper r.0) }
    ensures followed { IfOk result (λ r. r.1 ≡ false → IsFollowed w.now table.new link.lower link.upper) }
{
    let row = table.row(link.upper);
    if is_map(taken, row) {
        return Ok((row, false));
    }
    let added = add_through(alloc, w, link.lower, link.upper, link.free, table)?;
    Ok((row, added))
}

fn is_map(taken: Option<Map>, row: Map) -> bool
    ensures { IsTrue result → taken ≡ Some row }
{
    match taken {
        Some(map) => map == row,
        None => false,
    }
}

/// Adds what the method `m` overrides through `t`, which it overrides at once.
///
/// Where the pair is free, that is all that `t` overrides, and the two rows are united. Else the keys that the row of `m` lacks are taken one by one.
fn add_through(
    alloc: Global,
    w: &World,
    m: u32,
    t: u32,
    free: bool,
    table: &mut Table,
) -> Result<bool, NoMemory>
    requires sound { IsSound w.now }
    requires at_once { OverridesAtOnce w.now m t }
    requires free { IsTrue free → IsFree w.now m t }
    requires table { IsDerived w.now table.old }
    ensures table { OnOk result (IsDerived w.now table.new) }
    ensures maps { OnOk result (KeepsMaps table.old.maps table.new.maps) }
    ensures step { IfOk result (IsStep table.old table.new) }
    ensures joined { OnOk result (IsJoined w.now table.old table.new m t) }
{
    if free {
        return add_row(w, m, t, table);
    }
    let added = add(m, t, table)?;
    let more = add_thirds(alloc, w, m, t, table)?;
    Ok(added || more)
}

/// Adds what the method `m` overrides through `t`, which it overrides: each key that the row of `t` has and that of `m` lacks is taken by itself, with an `agree_below`.
pub(crate) fn add_thirds(
    alloc: Global,
    w: &World,
    m: u32,
    t: u32,
    table: &mut Table,
) -> Result<bool, NoMemory>
    requires sound { IsSound w.now }
    requires overrides { Overriding w.now m t }
    requires table { IsDerived w.now table.old }
    ensures table { OnOk result (IsDerived w.now table.new) }
    ensures maps { OnOk result (KeepsMaps table.old.maps table.new.maps) }
    ensures step { IfOk result (IsStep table.old table.new) }
    ensures thirds { OnOk result ((k : ℕ) → Has table.old t k → HasThird w.now m table.new k) }
{
    let mut added = false;
    let mut from = 0;
    'lacking: while let Some(k) = table.first_lacking(m, t, from) {
        if add_third(alloc, w, m, k, table)? {
            added = true;
        }
        from = k + 1;
    }
    Ok(added)
}

/// Adds `t` and all that it overrides to the row of `m`, unless all of that is there. Takes the time of the nodes that the two rows do not share, and memory for such nodes alone.
fn add_row(w: &World, m: u32, t: u32, table: &mut Table) -> Result<bool, NoMemory>
    requires at_once { OverridesAtOnce w.now m t }
    requires free { IsFree w.now m t }
    requires table { IsDerived w.now table.old }
    ensures table { OnOk result (IsDerived w.now table.new) }
    ensures maps { OnOk result (KeepsMaps table.old.maps table.new.maps) }
    ensures step { IfOk result (IsStep table.old table.new) }
    ensures joined { OnOk result (IsJoined w.now table.old table.new m t) }
{
    if !lacks_row(m, t, table) {
        return Ok(false);
    }
    table.unite(m, t)?;
    Ok(true)
}

/// Whether the row of `m` lacks `t`, or something but `m` that the row of `t` has. Takes no memory, and the time of the nodes that the two rows do not share.
pub(crate) fn lacks_row(m: u32, t: u32, table: &Table) -> bool
    ensures lacks { IsTrue result → Lacks table.now m t }
    ensures whole { result ≡ false → HasRow table.now m t }
{
    if table.get(m, t).is_none() {
        return true;
    }
    let Some(k) = table.first_lacking(m, t, 0) else {
        return false;
    };
    if k != m {
        return true;
    }
    table.first_lacking(m, t, k + 1).is_some()
}

fn add(m: u32, k: u32, table: &mut Table) -> Result<bool, NoMemory>
    requires row { m < length table.old.rows }
    requires key { k < table.old.maps.keys }
    ensures size { OnOk result (AreOfOneSize table.old table.new) }
    ensures maps { OnOk result (KeepsMaps table.old.maps table.new.maps) }
    ensures step { IfOk result (IsStep table.old table.new) }
    ensures has { OnOk result (Has table.new m k) }
    ensures only { OnOk result ((a b : ℕ) → Has table.new a b → Has table.old a b ⊎ ((a ≡ m) × (b ≡ k))) }
{
    if table.get(m, k).is_some() {
        return Ok(false);
    }
    table.set(m, k, 0)?;
    Ok(true)
}

/// Adds that `m` overrides `k`, which a method overrides that `m` overrides; unless they are one, or differ in a type below both.
fn add_third(alloc: Global, w: &World, m: u32, k: u32, table: &mut Table) -> Result<bool, NoMemory>
    requires sound { IsSound w.now }
    requires through { (m ≡ k → ⊥) → AgreeBelow w.now m k → Overriding w.now m k }
    requires table { IsDerived w.now table.old }
    ensures table { OnOk result (IsDerived w.now table.new) }
    ensures maps { OnOk result (KeepsMaps table.old.maps table.new.maps) }
    ensures step { IfOk result (IsStep table.old table.new) }
    ensures has { OnOk result (HasThird w.now m table.new k) }
{
    if m == k || !agree_below(alloc, w, m, k)? {
        return Ok(false);
    }
    add(m, k, table)
}
