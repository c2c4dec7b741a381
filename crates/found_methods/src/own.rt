//! The methods of one family that a class declares.

ghost use Rattle.std.specs.Prelude.{◌≡◌, ℕ, ◌+◌, ◌<◌, List, length, IfOk, OnOk};
ghost use Rattle.overrides.specs.Families.{AreLabels};
ghost use Rattle.found_methods.specs.Own.{HoldsOwn};

use crate::table::Table;
use class_world::World;
use java_tree::{Items, NoMemory};
use seen_methods::{is_class, method_of};
use std::alloc::Global;

/// By class and label the lowest method of the label that the class declares; and at its number all of these, ascending. No other number has any.
#[derive(Drop)]
pub(crate) struct Own {
    pub(crate) table: Table,
    pub(crate) groups: Vec<Items<u32>>,
}

impl Own {
    /// Takes time for the types and the methods, each times the bits of the largest method's number.
    pub(crate) fn of(alloc: Global, w: &World, labels: &[u32], count: u32) -> Result<Own, NoMemory>
        requires labels { AreLabels w.now labels.now }
        requires count { count ≡ length w.now.methods }
        ensures { IfOk result (λ o. HoldsOwn w.now labels.now (length w.now.methods) o) }
    {
        let mut own = Own::empty(alloc, w, count)?;
        for m in 0..count {
            own.add(w, labels, m)?;
        }
        Ok(own)
    }

    fn empty(alloc: Global, w: &World, count: u32) -> Result<Own, NoMemory>
        requires count { count ≡ length w.now.methods }
        ensures { IfOk result (λ o. (labels : List ℕ) → HoldsOwn w.now labels 0 o) }
    {
        let table = Table::new(alloc, w.types.len(), count)?;
        let mut groups = Vec::new(alloc);
        for _ in 0..count {
            groups.push(Items::new(alloc))?;
        }
        Ok(Own { table, groups })
    }

    /// Adds a method, if a class declares it.
    fn add(&mut self, w: &World, labels: &[u32], m: u32) -> Result<(), NoMemory>
        requires method { m < length w.now.methods }
        requires labels { AreLabels w.now labels.now }
        requires holds { HoldsOwn w.now labels.now m self.old }
        ensures { OnOk result (HoldsOwn w.now labels.now (m + 1) self.new) }
    {
        let Some(info) = method_of(w, m) else {
            return Ok(());
        };
        if !is_class(w, info.owner) {
            return Ok(());
        }
        let lowest = self.table.get_or_set(info.owner, labels[m as usize], m)?;
        self.groups[lowest as usize].push(m)?;
        Ok(())
    }
}
