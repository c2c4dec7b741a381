//! A table of numbers by two numbers, whose rows share what they have in common.

ghost use Rattle.std.specs.Prelude.{◌≡◌, ◌==◌, ℕ, ◌+◌, ◌^◌, ◌<◌, None, if◌then◌else◌, length, IfOk, IfSome, OnOk};
ghost use Rattle.shared_maps.specs.Trees.{IsFirst};
ghost use Rattle.shared_maps.specs.Maps.{AreEntries, IsLacking, IsMap, KeepsMaps, value_in};
ghost use Rattle.overrides.specs.Tables.{AreOfOneSize, IsOfSize, IsUnited, IsWritten, value_at};

use java_tree::NoMemory;
use shared_maps::{Map, SharedMaps};
use std::alloc::Global;
use std::marker::Model;

/// A map for each row, in one memory.
#[derive(Drop)]
pub(crate) struct Table {
    maps: SharedMaps,
    rows: Vec<Map>,
}

impl Model for Table {
    ghost use Rattle.overrides.specs.Tables.{Rows, IsTable};

    ghost Value = { Rows };

    ghost view = { λ t. record { maps = t.maps; rows = t.rows.items } };

    ghost invariant = { λ t. IsTable t.maps t.rows.items };
}

impl Table {
    /// A table of empty rows, with as many keys as rows.
    pub(crate) fn new(alloc: Global, size: u32) -> Result<Table, NoMemory>
        ensures size { IfOk result (IsOfSize size) }
        ensures none { IfOk result (λ t. (m k : ℕ) → value_at t m k ≡ None) }
    {
        let maps = SharedMaps::new(alloc, size)?;
        let rows = vec![in alloc; maps.empty(); size as usize]?;
        Ok(Table { maps, rows })
    }

    pub(crate) fn get(&self, m: u32, k: u32) -> Option<u32>
        ensures { result ≡ value_at self.now m k }
    {
        match self.rows.get(m as usize) {
            Some(map) => self.maps.get(*map, k),
            None => None,
        }
    }

    /// The row as it stands. This map stays as it is when the row is written.
    pub(crate) fn row(&self, m: u32) -> Map
        ensures map { IsMap self.now.maps result }
        ensures value { (k : ℕ) → value_in self.now.maps result k ≡ value_at self.now m k }
    {
        match self.rows.get(m as usize) {
            Some(map) => *map,
            None => self.maps.empty(),
        }
    }

    /// The keys of a row with their values, ascending.
    pub(crate) fn list(&self, alloc: Global, m: u32) -> Result<Vec<(u32, u32)>, NoMemory>
        ensures { IfOk result (λ v. AreEntries (value_at self.now m) v.items) }
    {
        match self.rows.get(m as usize) {
            Some(map) => self.maps.entries(alloc, *map),
            None => Ok(Vec::new(alloc)),
        }
    }

    /// The first key from `from` on that the row of `t` has, and that of `m` has not. Takes no memory, and time for the nodes that the two rows do not share.
    pub(crate) fn first_lacking(&self, m: u32, t: u32, from: u32) -> Option<u32>
        ensures first { IsFirst (IsLacking (value_at self.now m) (value_at self.now t) from) result }
        ensures next { IfSome result (λ k. k + 1 < 2 ^ 32) }
    {
        self.maps.first_lacking(self.row(m), self.row(t), from)
    }

    pub(crate) fn set(&mut self, m: u32, k: u32, value: u32) -> Result<(), NoMemory>
        requires row { m < length self.old.rows }
        requires key { k < self.old.maps.keys }
        ensures size { OnOk result (AreOfOneSize self.old self.new) }
        ensures maps { OnOk result (KeepsMaps self.old.maps self.new.maps) }
        ensures written { OnOk result (IsWritten self.old self.new m k value) }
    {
        self.rows[m as usize] = self.maps.put(self.rows[m as usize], k, Some(value))?;
        Ok(())
    }

    /// Adds the key `t` to the row `m`, and what the row of `t` has, but for the key `m`. Takes time and memory for the nodes that the two rows do not share, and for two keys.
    pub(crate) fn unite(&mut self, m: u32, t: u32) -> Result<(), NoMemory>
        requires row { m < length self.old.rows }
        requires other { t < length self.old.rows }
        requires key { t < self.old.maps.keys }
        requires itself { m < self.old.maps.keys }
        ensures size { OnOk result (AreOfOneSize self.old self.new) }
        ensures maps { OnOk result (KeepsMaps self.old.maps self.new.maps) }
        ensures united { OnOk result (IsUnited self.old self.new m t) }
    {
        let above = without(&mut self.maps, self.rows[t as usize], m)?;
        let both = self.maps.union(self.rows[m as usize], above)?;
        self.rows[m as usize] = self.maps.put(both, t, Some(0))?;
        Ok(())
    }
}

/// The map without a key. Takes no memory where the key is not there.
fn without(maps: &mut SharedMaps, map: Map, key: u32) -> Result<Map, NoMemory>
    requires { IsMap maps.old map }
    ensures map { IfOk result (IsMap maps.new) }
    ensures value { IfOk result (λ r. (k : ℕ) → k < maps.old.keys → value_in maps.new r k ≡ (if k == key then None else value_in maps.old map k)) }
    ensures kept { KeepsMaps maps.old maps.new }
{
    if maps.get(map, key).is_none() {
        return Ok(map);
    }
    maps.put(map, key, None)
}
