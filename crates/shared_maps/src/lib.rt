//! Maps from numbers to numbers that share what they have in common.
#![tactic(auto)]

ghost use Rattle.std.specs.Prelude.{◌≡◌, ◌==◌, ℕ, ◌+◌, ◌^◌, ◌<◌, None, if◌then◌else◌, IfOk, IfSome};
ghost use Rattle.std.specs.Option.{option_or};
ghost use Rattle.shared_maps.specs.Trees.{IsFirst};
ghost use Rattle.shared_maps.specs.Maps.{AreDiffering, AreEntries, IsLacking, IsMap, KeepsMaps, value_in};

mod trees;

use java_tree::{Items, NoMemory};
use std::alloc::Global;
use std::marker::Model;
use trees::{
    Node, add_differing, add_entries, first_lacking, found, height_for, known, united, with_value,
};

/// The number of a map. It means something in the memory alone that gave it.
#[derive(Clone, Copy, Debug, PartialEq, Eq)]
pub struct Map {
    number: u32,
}

/// A memory of maps from the keys below a limit to numbers. A map that was made stays as it is; one made from another shares with it what they have in common.
///
/// A map is a binary tree, with a level for each bit of the largest key. A node takes 12 bytes.
#[derive(Drop)]
pub struct SharedMaps {
    keys: u32,
    height: u32,
    nodes: Items<Node>,
}

impl Model for SharedMaps {
    ghost use Rattle.shared_maps.specs.Trees.{Memory, IsMemory};

    ghost Value = { Memory };

    ghost view = { λ m. record { keys = m.keys; height = m.height; nodes = m.nodes } };

    ghost invariant = { λ m. IsMemory m.keys m.height m.nodes };
}

impl SharedMaps {
    /// A memory of maps of the keys below `keys`. It has the empty map alone.
    pub fn new(alloc: Global, keys: u32) -> Result<SharedMaps, NoMemory>
        ensures { IfOk result (λ m. m.keys ≡ keys) }
    {
        Ok(SharedMaps {
            keys,
            height: height_for(keys),
            nodes: Items::one(alloc, Node::Nothing)?,
        })
    }

    /// The map with no keys. Takes no memory.
    pub fn empty(&self) -> Map
        ensures map { IsMap self.now result }
        ensures none { (k : ℕ) → value_in self.now result k ≡ None }
    {
        // What is true of every memory is known once a field is read.
        let _nodes = &self.nodes;
        Map { number: 0 }
    }

    /// The value of a key. Takes no memory, and looks at one node more than the largest key has bits, at most. A key that is not below the limit has no value, and neither has any key of a number of no map of this memory.
    pub fn get(&self, map: Map, key: u32) -> Option<u32>
        ensures { result ≡ value_in self.now map key }
    {
        if key < self.keys {
            found(self.nodes.as_slice(), self.height, map.number, key)
        } else {
            None
        }
    }

    /// The map with one key at another value, or without that key. Adds and looks at one node more than the largest key has bits, at most.
    ///
    /// A key that is not below the limit changes nothing, and a number of no map of this memory counts as the empty map. `NoMemory` also where the memory would have more than 2^32 nodes.
    pub fn put(&mut self, map: Map, key: u32, value: Option<u32>) -> Result<Map, NoMemory>
        ensures map { IfOk result (IsMap self.new) }
        ensures value { IfOk result (λ r. (k : ℕ) → k < self.old.keys → value_in self.new r k ≡ (if k == key then value else value_in self.old map k)) }
        ensures kept { KeepsMaps self.old self.new }
    {
        if key < self.keys {
            let number = with_value(&mut self.nodes, self.height, map.number, key, value)?;
            Ok(Map { number })
        } else if (map.number as usize) < self.nodes.len() {
            Ok(map)
        } else {
            Ok(Map { number: 0 })
        }
    }

    /// The keys of a map with their values, by key. Looks at two nodes for each bit of the largest key and each entry, at most, and at one more.
    pub fn entries(&self, alloc: Global, map: Map) -> Result<Vec<(u32, u32)>, NoMemory>
        ensures { IfOk result (λ v. AreEntries (value_in self.now map) v.items) }
    {
        let mut entries = Vec::new(alloc);
        add_entries(
            self.nodes.as_slice(),
            self.keys,
            self.height,
            map.number,
            0,
            &mut entries,
        )?;
        Ok(entries)
    }

    /// The map that has what `left` has, and what `right` has at keys at which `left` has nothing. A number of no map of this memory counts as the empty map.
    ///
    /// Takes time for the nodes in which the two trees differ: it looks no further where both have the same node, or one has no keys. Adds a node at most for each fork of both that it looks at, and none where the halves come out as those of one of the two. `NoMemory` also where the memory would have more than 2^32 nodes.
    pub fn union(&mut self, left: Map, right: Map) -> Result<Map, NoMemory>
        ensures map { IfOk result (IsMap self.new) }
        ensures value { IfOk result (λ r. (k : ℕ) → value_in self.new r k ≡ option_or (value_in self.old left k) (value_in self.old right k)) }
        ensures kept { KeepsMaps self.old self.new }
    {
        let first = known(self.nodes.as_slice(), left.number);
        let second = known(self.nodes.as_slice(), right.number);
        let both = united(&mut self.nodes, self.height, first, second)?;
        Ok(Map { number: both })
    }

    /// The keys that have a value in both maps, and not the same one, ascending. A number of no map of this memory counts as the empty map.
    ///
    /// Takes time for the nodes in which the two trees differ, as `union` does, and memory for the keys alone.
    pub fn differing(&self, alloc: Global, left: Map, right: Map) -> Result<Vec<u32>, NoMemory>
        ensures { IfOk result (λ v. AreDiffering (value_in self.now left) (value_in self.now right) v.items) }
    {
        let mut different = Vec::new(alloc);
        add_differing(
            self.nodes.as_slice(),
            self.keys,
            self.height,
            left.number,
            right.number,
            0,
            &mut different,
        )?;
        Ok(different)
    }

    /// The first key from `from` on that has a value in `right` and none in `left`. A number of no map of this memory counts as the empty map.
    ///
    /// Takes no memory, and time for the nodes in which the two trees differ between `from` and that key, and for a look at as many more as the largest key has bits: it looks no further where both have the same node, or `right` has no keys.
    pub fn first_lacking(&self, left: Map, right: Map, from: u32) -> Option<u32>
        ensures first { IsFirst (IsLacking (value_in self.now left) (value_in self.now right) from) result }
        ensures next { IfSome result (λ k. k + 1 < 2 ^ 32) }
    {
        let nodes = self.nodes.as_slice();
        let key = first_lacking(nodes, self.height, left.number, right.number, from)?;
        if key < self.keys { Some(key) } else { None }
    }
}
