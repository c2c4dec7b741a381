//! Lists of methods by key, in maps that share what they have in common.

ghost use Rattle.std.specs.Prelude.{◌↔◌, ◌≡◌, ◌<◌, ◌⊎◌, ℕ, [], Some, IfOk};
ghost use Rattle.std.specs.List.{Contains};
ghost use Rattle.member_methods.specs.Tables.{IsGood, IsMapOf};
ghost use Rattle.member_methods.specs.Tables as spec;

use crate::lists::Lists;
use java_tree::NoMemory;
use shared_maps::{Map, SharedMaps};
use std::alloc::Global;

/// A memory of maps from keys to lists. A map that was made stays as it is.
#[derive(Drop)]
pub(crate) struct Tables {
    pub(crate) maps: SharedMaps,
    pub(crate) lists: Lists,
}

impl Tables {
    pub(crate) fn new(alloc: Global, keys: u32) -> Result<Tables, NoMemory>
        ensures { IfOk result (λ t. t.maps.keys ≡ keys) }
    {
        Ok(Tables {
            maps: SharedMaps::new(alloc, keys)?,
            lists: Lists::new(alloc),
        })
    }

    /// The map that lists nothing.
    pub(crate) fn empty(&self) -> Map
        ensures good { IsGood self.now result }
        ensures none { (k : ℕ) → spec.listed self.now result k ≡ [] }
    {
        self.maps.empty()
    }

    /// The list of a key in a map; an empty one where it has none.
    pub(crate) fn listed(&self, map: Map, key: u32) -> &[u32]
        ensures { result.now ≡ spec.listed self.now map key }
    {
        match self.maps.get(map, key) {
            Some(list) => self.lists.get(list),
            None => &[],
        }
    }

    /// What a map lists, of all keys.
    pub(crate) fn all_listed(&self, alloc: Global, map: Map) -> Result<Vec<u32>, NoMemory>
        ensures { IfOk result (λ v. (m : ℕ) → Contains v.items m ↔ ((k : ℕ) × Contains (spec.listed self.now map k) m)) }
    {
        let mut numbers = Vec::new(alloc);
        let entries = self.maps.entries(alloc, map)?;
        for (_, list) in entries.as_slice() {
            numbers.extend_from_slice(self.lists.get(*list))?;
        }
        Ok(numbers)
    }

    /// The map with these numbers as a key's list.
    pub(crate) fn put(&mut self, map: Map, key: u32, numbers: Vec<u32>) -> Result<Map, NoMemory>
        requires good { IsGood self.old map }
        requires key { key < self.old.maps.keys }
        ensures { IfOk result (λ r. IsMapOf self.old self.new r (λ k m. ((k ≡ key) × Contains numbers.items m) ⊎ ((k ≡ key → ⊥) × Contains (spec.listed self.old map k) m))) }
    {
        let list = self.lists.add(numbers)?;
        self.maps.put(map, key, Some(list))
    }

    /// The map with, for each key, what both maps list. Takes time for the nodes that the two maps do not share and for the lists that differ.
    pub(crate) fn joined(&mut self, alloc: Global, map: Map, more: Map) -> Result<Map, NoMemory>
        requires { IsGood self.old map × IsGood self.old more }
        ensures { IfOk result (λ r. IsMapOf self.old self.new r (λ k m. Contains (spec.listed self.old map k) m ⊎ Contains (spec.listed self.old more k) m)) }
    {
        let keys = self.maps.differing(alloc, map, more)?;
        // What one map alone has is there with this, and so is what both have as the same list.
        let mut both = self.maps.union(map, more)?;
        for key in keys.as_slice() {
            both = self.joined_at(alloc, both, more, *key)?;
        }
        Ok(both)
    }

    /// The map with, for one key, also what another map lists.
    fn joined_at(&mut self, alloc: Global, map: Map, more: Map, key: u32) -> Result<Map, NoMemory>
        requires { IsGood self.old map × IsGood self.old more }
        ensures { IfOk result (λ r. IsMapOf self.old self.new r (λ k m. Contains (spec.listed self.old map k) m ⊎ ((k ≡ key) × Contains (spec.listed self.old more k) m))) }
    {
        let Some(list) = self.maps.get(more, key) else {
            return Ok(map);
        };
        let Some(here) = self.maps.get(map, key) else {
            return self.maps.put(map, key, Some(list));
        };
        let both = self.lists.joined(alloc, here, list)?;
        if both == here {
            Ok(map)
        } else {
            self.maps.put(map, key, Some(both))
        }
    }
}
