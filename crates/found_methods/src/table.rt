//! A table of numbers by a row and a key, whose rows share what they have in common.

ghost use Rattle.std.specs.Prelude.{◌≡◌, ℕ, ◌<◌, Option, None, length, unwrap_or, IfOk, IfSome, OnOk};
ghost use Rattle.std.specs.List.{Contains};
ghost use Rattle.shared_maps.specs.Maps.{AreEntries};
ghost use Rattle.overrides.specs.Tables.{AreOfOneSize, IsWritten, value_at};
ghost use Rattle.found_methods.specs.Tables.{IsBegun, IsOverlaid};

use java_tree::NoMemory;
use shared_maps::{Map, SharedMaps};
use std::alloc::Global;
use std::marker::Model;

/// A map for each row, in one memory.
#[derive(Drop)]
pub(crate) struct Table {
    maps: SharedMaps,
    rows: Vec<Map>,
}

impl Model for Table {
    ghost use Rattle.overrides.specs.Tables.{Rows, IsTable};

    ghost Value = { Rows };

    ghost view = { λ t. record { maps = t.maps; rows = t.rows.items } };

    ghost invariant = { λ t. IsTable t.maps t.rows.items };
}

impl Table {
    /// A table of so many empty rows, with the keys below `keys`.
    pub(crate) fn new(alloc: Global, rows: usize, keys: u32) -> Result<Table, NoMemory>
        ensures rows { IfOk result (λ t. length t.rows ≡ rows) }
        ensures keys { IfOk result (λ t. t.maps.keys ≡ keys) }
        ensures none { IfOk result (λ t. (row key : ℕ) → value_at t row key ≡ None) }
    {
        let maps = SharedMaps::new(alloc, keys)?;
        let rows = vec![in alloc; maps.empty(); rows]?;
        Ok(Table { maps, rows })
    }

    pub(crate) fn get(&self, row: u32, key: u32) -> Option<u32>
        ensures { result ≡ value_at self.now row key }
    {
        match self.rows.get(row as usize) {
            Some(map) => self.maps.get(*map, key),
            None => None,
        }
    }

    /// The keys of a row with their values, ascending.
    pub(crate) fn list(&self, alloc: Global, row: u32) -> Result<Vec<(u32, u32)>, NoMemory>
        ensures { IfOk result (λ v. AreEntries (value_at self.now row) v.items) }
    {
        match self.rows.get(row as usize) {
            Some(map) => self.maps.entries(alloc, *map),
            None => Ok(Vec::new(alloc)),
        }
    }

    fn set(&mut self, row: u32, key: u32, value: u32) -> Result<(), NoMemory>
        requires row { row < length self.old.rows }
        requires key { key < self.old.maps.keys }
        ensures size { OnOk result (AreOfOneSize self.old self.new) }
        ensures written { OnOk result (IsWritten self.old self.new row key value) }
    {
        self.rows[row as usize] = self.maps.put(self.rows[row as usize], key, Some(value))?;
        Ok(())
    }

    /// The value of a key, which is `value` now where the key had none.
    pub(crate) fn get_or_set(&mut self, row: u32, key: u32, value: u32) -> Result<u32, NoMemory>
        requires row { row < length self.old.rows }
        requires key { key < self.old.maps.keys }
        ensures size { IfOk result (λ _. AreOfOneSize self.old self.new) }
        ensures value { IfOk result (λ v. v ≡ unwrap_or (value_at self.old row key) value) }
        ensures written { IfOk result (λ v. IsWritten self.old self.new row key v) }
    {
        match self.get(row, key) {
            Some(found) => Ok(found),
            None => {
                self.set(row, key, value)?;
                Ok(value)
            }
        }
    }

    /// Lets a row begin as another, or with no keys. Takes no memory.
    pub(crate) fn begin(&mut self, row: u32, from: Option<u32>)
        requires row { row < length self.old.rows }
        requires from { IfSome from (λ other. other < length self.old.rows) }
        ensures size { AreOfOneSize self.old self.new }
        ensures begun { IsBegun self.old self.new row from }
    {
        self.rows[row as usize] = match from {
            Some(other) => self.rows[other as usize],
            None => self.maps.empty(),
        };
    }

    /// Puts the entries of a row of another table into a row.
    pub(crate) fn set_all(&mut self, row: u32, entries: &[(u32, u32)]) -> Result<(), NoMemory>
        requires row { row < length self.old.rows }
        requires keys { (key value : ℕ) → Contains entries.now (key, value) → key < self.old.maps.keys }
        ensures size { OnOk result (AreOfOneSize self.old self.new) }
        ensures overlaid { OnOk result ((value : ℕ → Option ℕ) → AreEntries value entries.now → IsOverlaid self.old self.new row value) }
    {
        for entry in entries {
            self.set(row, entry.0, entry.1)?;
        }
        Ok(())
    }
}
