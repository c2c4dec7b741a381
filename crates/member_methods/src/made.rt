//! The maps of all types, made from those of the types above them.

ghost use Rattle.std.specs.Prelude.{◌≡◌, ◌<◌, ◌^◌, ◌⊎◌, ℕ, List, Some, IfOk, OnOk, length, slice_get};
ghost use Rattle.std.specs.List.{Contains};
ghost use Rattle.class_world.specs.declared.world.World as worlds;
ghost use Rattle.class_world.specs.Inheritance.{IsPrivateMethod};
ghost use Rattle.class_world.specs.Sound.{IsSound};
ghost use Rattle.member_methods.specs.Keys.{AreKeyed};
ghost use Rattle.member_methods.specs.Signed.{AreOwnNamed, IsOwnType};
ghost use Rattle.member_methods.specs.Own.{AreOwn, AreSingle, IsInGroup};
ghost use Rattle.member_methods.specs.Tables.{IsGood, IsMapOf};
ghost use Rattle.member_methods.specs.Made.{AreApart, AreMade, HaveMaps, IsDone, IsListedIn, IsMaking, IsReady, IsWithAll, IsWithGroup};
ghost use Rattle.member_methods.specs.Made as spec;
ghost use Rattle.member_methods.specs.TypesAbove.{all_above};
ghost use Rattle.member_methods.specs.declared.own.Group as the_group;

use crate::above::{TypesAbove, directly_above};
use crate::own::{Group, groups, is_one_private, own_methods, owner_limit, without_private};
use crate::signatures::{kept, own_type};
use crate::tables::Tables;
use class_world::{JavaType, World, supers_first};
use java_tree::{Items, NoMemory};
use shared_maps::Map;
use std::alloc::Global;

/// The types' maps, by number: the list that `members` has for a key is that of its member methods, the one that `handed` has is that of those that are not private, the one that `inheritable` has is that of what the types directly above it hand down, and the one that `from_interfaces` has is that of what its direct superinterfaces do.
#[derive(Drop)]
pub(crate) struct Made {
    pub(crate) tables: Tables,
    pub(crate) members: Vec<Map>,
    pub(crate) inheritable: Vec<Map>,
    pub(crate) from_interfaces: Vec<Map>,
    handed: Vec<Map>,
}

/// The maps of all types. A number that is an owner's and no type's counts as a type that nothing is above.
pub(crate) fn all_made(alloc: Global, w: &World, keyed: &[u32]) -> Result<Made, NoMemory>
    requires sound { IsSound w.now }
    requires keyed { AreKeyed w.now keyed.now }
    requires few { length keyed.now < 2 ^ 32 }
    ensures { IfOk result (λ t. AreMade w.now keyed.now t) }
{
    let limit = owner_limit(w);
    let lists = own_methods(alloc, w, limit)?;
    let own = lists.as_slice();
    let mut made = nothing_made(alloc, keyed.len() as u32, limit)?;
    // Object comes first, since it is also above interfaces.
    made.add(alloc, w, keyed, own, 0)?;
    let order = supers_first(alloc, w)?;
    for c in order.as_slice() {
        if *c != 0 {
            made.add(alloc, w, keyed, own, *c)?;
        }
    }
    for past in w.types.len()..limit {
        made.add(alloc, w, keyed, own, past as u32)?;
    }
    Ok(made)
}

/// Empty maps.
fn nothing_made(alloc: Global, keys: u32, limit: usize) -> Result<Made, NoMemory>
    ensures { IfOk result (λ t. (w : worlds.World) (keyed : List ℕ) → length keyed ≡ keys → IsMaking w keyed limit t) }
{
    let tables = Tables::new(alloc, keys)?;
    let empty = tables.empty();
    Ok(Made {
        tables,
        members: vec![in alloc; empty; limit]?,
        inheritable: vec![in alloc; empty; limit]?,
        from_interfaces: vec![in alloc; empty; limit]?,
        handed: vec![in alloc; empty; limit]?,
    })
}

impl Made {
    /// Makes the maps of a type, where those of the types directly above it are made.
    fn add(
        &mut self,
        alloc: Global,
        w: &World,
        keyed: &[u32],
        own: &[Items<u32>],
        c: u32,
    ) -> Result<(), NoMemory>
        requires sound { IsSound w.now }
        requires keyed { AreKeyed w.now keyed.now }
        requires own { AreOwn w.now (length own.now) own.now }
        requires within { c < length own.now }
        requires making { IsMaking w.now keyed.now (length own.now) self.old }
        requires ready { IsReady w.now keyed.now self.old c }
        ensures making { OnOk result (IsMaking w.now keyed.now (length own.now) self.new) }
        ensures done { OnOk result (IsDone w.now keyed.now self.new c) }
        ensures kept { OnOk result ((d : ℕ) → IsDone w.now keyed.now self.old d → IsDone w.now keyed.now self.new d) }
    {
        let groups = groups(alloc, keyed, own[c as usize].as_slice())?;
        let above = directly_above(alloc, w, c)?;
        let (from_interfaces, inherited) = from_above(
            alloc,
            &mut self.tables,
            self.handed.as_slice(),
            &above,
        )?;
        let members = members_of(alloc, &mut self.tables, w, c, groups.as_slice(), inherited)?;
        let handed = handed_down(alloc, &mut self.tables, w, groups.as_slice(), members)?;
        self.members[c as usize] = members;
        self.inheritable[c as usize] = inheritable(above.others.as_slice(), c, inherited, handed);
        self.from_interfaces[c as usize] = from_interfaces;
        self.handed[c as usize] = handed;
        Ok(())
    }
}

/// What the direct superinterfaces of a type hand down to it, together, and what all types directly above it do.
fn from_above(
    alloc: Global,
    tables: &mut Tables,
    handed: &[Map],
    above: &TypesAbove,
) -> Result<(Map, Map), NoMemory>
    requires { HaveMaps tables.old handed.now (all_above above.now) }
    ensures interfaces { IfOk result (λ r. IsMapOf tables.old tables.new r.0 (IsListedIn tables.old handed.now above.now.interfaces.items)) }
    ensures all { IfOk result (λ r. IsMapOf tables.old tables.new r.1 (IsListedIn tables.old handed.now (all_above above.now))) }
{
    let interfaces = inherited(alloc, tables, handed, above.interfaces.as_slice())?;
    let others = inherited(alloc, tables, handed, above.others.as_slice())?;
    let all = tables.joined(alloc, interfaces, others)?;
    Ok((interfaces, all))
}

/// What some of the types directly above a type hand down to it, together.
///
/// They are halved, so that what one of them alone has, and each list, is looked at as often as their number can be halved.
fn inherited(
    alloc: Global,
    tables: &mut Tables,
    handed: &[Map],
    above: &[u32],
) -> Result<Map, NoMemory>
    requires { HaveMaps tables.old handed.now above.now }
    ensures { IfOk result (λ r. IsMapOf tables.old tables.new r (IsListedIn tables.old handed.now above.now)) }
{
    let Some((first, others)) = above.split_first() else {
        return Ok(tables.empty());
    };
    if others.is_empty() {
        return Ok(handed[*first as usize]);
    }
    let (left, right) = above.split_at(above.len() - above.len() / 2);
    let map = inherited(alloc, tables, handed, left)?;
    let more = inherited(alloc, tables, handed, right)?;
    tables.joined(alloc, map, more)
}

/// What the types directly above a type hand down to it; `others` are those that are no superinterfaces of it. `inherited` lacks what it hands down itself: it is above itself where it is Object, and that an interface.
fn inheritable(others: &[u32], c: u32, inherited: Map, handed: Map) -> Map
    ensures { ((result ≡ handed) × Contains others.now c) ⊎ ((result ≡ inherited) × (Contains others.now c → ⊥)) }
{
    if others.contains(&c) {
        handed
    } else {
        inherited
    }
}

/// What a type inherits with its own methods, which take out those of their signatures.
fn members_of(
    alloc: Global,
    tables: &mut Tables,
    w: &World,
    c: u32,
    groups: &[Group],
    inherited: Map,
) -> Result<Map, NoMemory>
    requires sound { IsSound w.now }
    requires good { IsGood tables.old inherited }
    requires apart { AreApart w.now c tables.old.maps.keys groups.now (spec.Lists tables.old inherited) }
    ensures { IfOk result (λ r. IsMapOf tables.old tables.new r (IsWithAll w.now c groups.now (spec.Lists tables.old inherited))) }
{
    let own = own_type(alloc, w, c)?;
    let mut map = inherited;
    for group in groups {
        map = with_group(alloc, tables, w, &own, group, map)?;
    }
    Ok(map)
}

/// A map with the methods of one group, which take out those of their signatures.
fn with_group(
    alloc: Global,
    tables: &mut Tables,
    w: &World,
    own: &Option<JavaType>,
    group: &Group,
    map: Map,
) -> Result<Map, NoMemory>
    requires sound { IsSound w.now }
    requires own { (c : ℕ) × IsOwnType w.now c own.now }
    requires good { IsGood tables.old map }
    requires key { group.now.key < tables.old.maps.keys }
    ensures { IfOk result (λ r. (c : ℕ) → IsOwnType w.now c own.now → ((m : ℕ) → spec.Lists tables.old map group.now.key m → AreOwnNamed w.now c group.now.methods m) → IsMapOf tables.old tables.new r (IsWithGroup w.now c group.now (spec.Lists tables.old map))) }
{
    let methods = group.methods.as_slice();
    let mut members = kept(alloc, w, own, methods, tables.listed(map, group.key))?;
    members.extend_from_slice(methods)?;
    tables.put(map, group.key, members)
}

/// A type's members without its private methods.
fn handed_down(
    alloc: Global,
    tables: &mut Tables,
    w: &World,
    groups: &[Group],
    members: Map,
) -> Result<Map, NoMemory>
    requires good { IsGood tables.old members }
    requires single { AreSingle groups.now }
    requires below { (i : ℕ) (g : the_group.Group) → slice_get groups.now i ≡ Some g → g.key < tables.old.maps.keys }
    requires private { (k m : ℕ) → spec.Lists tables.old members k m → IsPrivateMethod w.now m → IsInGroup groups.now k m }
    ensures { IfOk result (λ r. IsMapOf tables.old tables.new r (λ k m. spec.Lists tables.old members k m × (IsPrivateMethod w.now m → ⊥))) }
{
    let mut map = members;
    for group in groups {
        if is_one_private(w, group.methods.as_slice()) {
            let open = without_private(alloc, w, tables.listed(map, group.key))?;
            map = tables.put(map, group.key, open)?;
        }
    }
    Ok(map)
}
