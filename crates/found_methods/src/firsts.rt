//! The first methods of a family that are met along superclasses.

ghost use Rattle.std.specs.Prelude.{◌≡◌, ℕ, ◌<◌, List, [], ◌∷◌, Option, length, IfOk, IfSome, OnOk};
ghost use Rattle.std.specs.List.{Contains};
ghost use Rattle.shared_maps.specs.Maps.{AreEntries};
ghost use Rattle.class_world.specs.Sequences.{IsSequence};
ghost use Rattle.found_methods.specs.Own.{HoldsOwn};
ghost use Rattle.found_methods.specs.Supers.{AreSuperclasses};
ghost use Rattle.found_methods.specs.Firsts.{AreSized, HoldsFirsts, IsAdded};

use crate::own::Own;
use crate::table::Table;
use class_world::World;
use java_tree::{Items, NoMemory};
use std::alloc::Global;

/// By class and label the lowest method of the first class upwards that declares one. Where none does, the search ends with the last class that was asked, which is in `ends`: it has no superclass, or more than one, which no program's has.
#[derive(Drop)]
pub(crate) struct Firsts {
    pub(crate) table: Table,
    pub(crate) ends: Vec<u32>,
}

impl Firsts {
    /// Of all classes, each after its superclass. A row shares with that of the superclass what the class does not declare.
    ///
    /// Takes time for the types and the methods, each times the bits of the largest method's number.
    pub(crate) fn of(
        alloc: Global,
        w: &World,
        own: &Own,
        supers: &[Items<u32>],
        order: &[u32],
        count: u32,
    ) -> Result<Firsts, NoMemory>
        requires own { (labels : List ℕ) × HoldsOwn w.now labels (length w.now.methods) own.now }
        requires supers { AreSuperclasses w.now supers.now }
        requires order { IsSequence w.now order.now }
        requires count { count ≡ length w.now.methods }
        ensures { IfOk result (λ t. (labels : List ℕ) → HoldsOwn w.now labels (length w.now.methods) own.now → (c : ℕ) → c < length w.now.types → HoldsFirsts w.now labels t c) }
    {
        let mut firsts = Firsts::empty(alloc, w.types.len(), count)?;
        for c in order {
            let from = only(supers[*c as usize].as_slice());
            let entries = own.table.list(alloc, *c)?;
            firsts.add(*c, from, &entries)?;
        }
        Ok(firsts)
    }

    fn empty(alloc: Global, classes: usize, keys: u32) -> Result<Firsts, NoMemory>
        ensures { IfOk result (λ t. AreSized t classes keys) }
    {
        let table = Table::new(alloc, classes, keys)?;
        let ends = vec![in alloc; 0; classes]?;
        Ok(Firsts { table, ends })
    }

    /// Adds a class. It begins as `from`, its only superclass, and declares what `own` has by label.
    fn add(&mut self, c: u32, from: Option<u32>, own: &[(u32, u32)]) -> Result<(), NoMemory>
        requires row { c < length self.old.table.rows }
        requires end { c < length self.old.ends.items }
        requires from { IfSome from (λ s. s < length self.old.table.rows) }
        requires ends { IfSome from (λ s. s < length self.old.ends.items) }
        requires keys { (l k : ℕ) → Contains own.now (l, k) → l < self.old.table.maps.keys }
        ensures { OnOk result ((value : ℕ → Option ℕ) → AreEntries value own.now → IsAdded self.old self.new c from value) }
    {
        let end = match from {
            Some(s) => self.ends[s as usize],
            None => c,
        };
        self.ends[c as usize] = end;
        self.table.begin(c, from);
        self.table.set_all(c, own)
    }
}

/// The number of a list that has no other.
fn only(numbers: &[u32]) -> Option<u32>
    ensures { IfSome result (λ n. numbers.now ≡ n ∷ []) }
{
    match numbers {
        [n] => Some(*n),
        _ => None,
    }
}
