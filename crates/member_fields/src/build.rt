//! Building the table, class by class.

ghost use Rattle.std.specs.Prelude.{◌≡◌, ℕ, ◌<◌, ◌≤◌, ◌^◌, ◌↔◌, Some, length, slice_get, IfOk, OnOk, Contains};
ghost use Rattle.class_world.specs.Sound.{IsSound};
ghost use Rattle.class_world.specs.Sequences.{IsSequence};
ghost use Rattle.member_fields.specs.Own.{ListsFields, Owns};
ghost use Rattle.member_fields.specs.Sums.{HandsDown, HasMap, IsAbove};
ghost use Rattle.member_fields.specs.Built.{Grows, IsDone, IsSized};

use crate::inherited::inherited;
use crate::values::{with_fields, without_names};
use class_world::World;
use java_tree::{Items, NoMemory};
use shared_maps::{Map, SharedMaps};
use std::alloc::Global;

/// The maps of the classes so far, by number: of their member fields, and of those that they hand down to the types below them.
#[derive(Drop)]
pub(crate) struct Build {
    pub(crate) maps: SharedMaps,
    pub(crate) members: Vec<Map>,
    pub(crate) handed: Vec<Map>,
}

impl Build {
    /// Empty maps for so many classes and for names below `names`.
    pub(crate) fn new(alloc: Global, names: u32, classes: usize) -> Result<Build, NoMemory>
        ensures { IfOk result (λ b. IsSized b names classes) }
    {
        let maps = SharedMaps::new(alloc, names)?;
        let none = maps.empty();
        Ok(Build {
            maps,
            members: vec![in alloc; none; classes]?,
            handed: vec![in alloc; none; classes]?,
        })
    }

    /// Makes the maps of all classes, of the order's in order and of those without a type.
    pub(crate) fn add_all(
        &mut self,
        alloc: Global,
        w: &World,
        own: &[Items<u32>],
        order: &[u32],
    ) -> Result<(), NoMemory>
        requires sound { IsSound w.now }
        requires few { length w.now.fields < 2 ^ 32 }
        requires own { ListsFields w.now own.now }
        requires order { IsSequence w.now order.now }
        requires sized { (names : ℕ) × IsSized self.old names (length own.now) }
        ensures sized { OnOk result ((names : ℕ) → IsSized self.old names (length own.now) → IsSized self.new names (length own.now)) }
        ensures done { OnOk result ((c : ℕ) → c < length own.now → IsDone w.now self.new c) }
    {
        // Object is directly above an interface that declares no supertype, which the order doesn't know.
        if !own.is_empty() {
            self.add(alloc, w, own[0].as_slice(), 0)?;
        }
        for c in order {
            self.add(alloc, w, own[*c as usize].as_slice(), *c)?;
        }
        for extra in w.types.len()..own.len() {
            let Ok(number) = u32::try_from(extra) else {
                return Err(NoMemory);
            };
            self.add(alloc, w, own[extra].as_slice(), number)?;
        }
        Ok(())
    }

    /// Makes the maps of a class from those of the classes directly above it and from the fields that it declares.
    fn add(&mut self, alloc: Global, w: &World, own: &[u32], c: u32) -> Result<(), NoMemory>
        requires sound { IsSound w.now }
        requires few { length w.now.fields < 2 ^ 32 }
        requires own { (f : ℕ) → Contains own.now f ↔ Owns w.now c f }
        requires members { c < length self.old.members.items }
        requires handed { c < length self.old.handed.items }
        requires above { (s : ℕ) → IsAbove w.now c s → HasMap self.old.maps self.old.handed.items (HandsDown w.now s) s }
        ensures grows { OnOk result (Grows w.now self.old self.new) }
        ensures done { OnOk result (IsDone w.now self.new c) }
    {
        let from_above = inherited(alloc, &mut self.maps, w, self.handed.as_slice(), c)?;
        let left = without_names(&mut self.maps, w, own, from_above)?;
        let members = with_fields(&mut self.maps, w, own, true, left)?;
        let handed = with_fields(&mut self.maps, w, own, false, left)?;
        self.members[c as usize] = members;
        self.handed[c as usize] = handed;
        Ok(())
    }
}
