//! Labels of methods: those of one label stand among the same overloads.

ghost use Rattle.std.specs.Prelude.{◌≡◌, ◌<◌, ◌↔◌, ◌⊎◌, ℕ, Some, IfOk, IfSome, OnOk, IsTrue, length, slice_get};
ghost use Rattle.std.specs.List.{Contains};
ghost use Rattle.std.specs.List.Sorted.{IsStrictlyIncreasing};
ghost use Rattle.class_world.specs.declared.world.World as worlds;
ghost use Rattle.member_methods.specs.Methods.{HoldsMethods};
ghost use Rattle.method_groups.specs.Beside.{AreBeside};
ghost use Rattle.method_groups.specs.Labels.{Adds, AreAdditions, AreJoined, AreLabels, IsFit, IsLabelled, KeepsRows, StandsFor};
ghost use Rattle.method_groups.specs.declared.differences.Difference as differences;
ghost use Rattle.method_groups.specs.declared.labels.Row as the_row;
ghost use Rattle.method_groups.specs.declared.overloads.Overloads as the_overloads;

use crate::differences::{Difference, difference_from};
use crate::overloads::Overloads;
use class_world::World;
use java_tree::{Items, NoMemory};
use member_methods::MethodLists;
use std::alloc::Global;

/// What a label stands for: what `rest` does, and the overloads `last`.
#[derive(Clone, Copy)]
pub(crate) struct Row {
    pub(crate) rest: u32,
    pub(crate) last: Overloads,
    /// The place of a list of methods of `last`, which lacks only such as `rest` stands for; none where all are to be added.
    pub(crate) added: Option<u32>,
}

/// The rows of the labels, and the labels of the methods. The label 0 stands for nothing; each other one for the overloads in its row and in those that this leads to.
///
/// Methods that are added to overloads together, and had one label, get one label. So there are as many labels as there are sets of methods told apart on the way.
#[derive(Drop)]
pub(crate) struct Labels {
    pub(crate) rows: Vec<Row>,
    /// The label that was made last from each label; 0 if none was.
    latest: Vec<u32>,
    pub(crate) labels: Vec<u32>,
    /// Lists of methods that rows add.
    pub(crate) added: Vec<Items<u32>>,
}

impl Labels {
    /// Labels of so many methods, which stand for nothing.
    pub(crate) fn new(alloc: Global, count: usize) -> Result<Labels, NoMemory>
        ensures fit { IfOk result (λ t. IsFit t) }
        ensures size { IfOk result (λ t. length t.labels.items ≡ count) }
        ensures nothing { IfOk result (λ t. (m : ℕ) (x : the_overloads.Overloads) → IsLabelled t m x → ⊥) }
        ensures additions { IfOk result (λ t. (w : worlds.World) → AreAdditions w t.rows.items t.added.items) }
    {
        let nothing = Row {
            rest: 0,
            last: Overloads {
                member_of: 0,
                method: 0,
            },
            added: None,
        };
        Ok(Labels {
            rows: vec![in alloc; nothing]?,
            latest: vec![in alloc; 0]?,
            labels: vec![in alloc; 0; count]?,
            added: Vec::new(alloc),
        })
    }

    /// Adds overloads, whose methods these are; unless all of them stand among the overloads that were added last to each of them. Takes time for the methods.
    ///
    /// Where the same overloads were added last to most of them, the rows of those add only the methods that these overloads lack.
    pub(crate) fn add(
        &mut self,
        alloc: Global,
        w: &World,
        lists: &MethodLists,
        x: Overloads,
        methods: &[u32],
    ) -> Result<(), NoMemory>
        requires lists { HoldsMethods w.now lists.now }
        requires labels { AreLabels w.now self.old }
        requires listed { (k : ℕ) → Contains methods.now k ↔ AreBeside w.now x.member_of x.method k }
        requires ascending { IsStrictlyIncreasing methods.now }
        ensures labels { OnOk result (AreLabels w.now self.new) }
        ensures kept { OnOk result ((m : ℕ) (y : the_overloads.Overloads) → IsLabelled self.old m y → IsLabelled self.new m y) }
        ensures only { OnOk result ((m : ℕ) (y : the_overloads.Overloads) → IsLabelled self.new m y → IsLabelled self.old m y ⊎ ((y ≡ x) × Contains methods.now m)) }
        ensures joined { OnOk result ((m k : ℕ) → Contains methods.now m → Contains methods.now k → AreJoined self.new m k) }
    {
        if self.are_joined(methods) {
            return Ok(());
        }
        let before = self.mostly_last(methods);
        let fewer = difference_from(alloc, w, lists, methods, before, &mut self.added)?;
        for m in methods {
            self.add_one(*m, x, fewer)?;
        }
        Ok(())
    }

    /// The overloads that were added last to more than half of the methods, if there are such; else those of any of them, or none.
    fn mostly_last(&self, methods: &[u32]) -> Option<Overloads>
        ensures { IfSome result (λ x. (m : ℕ) × IsLabelled self.now m x) }
    {
        let mut most = None;
        // How many methods with `most` are not yet set against one with others.
        let mut lead: usize = 0;
        for m in methods {
            let last = self.last(*m);
            if lead == 0 {
                most = last;
                lead = 1;
            } else if last == most {
                lead += 1;
            } else {
                lead -= 1;
            }
        }
        most
    }

    /// Whether the overloads that were added last to the methods are the same.
    fn are_joined(&self, methods: &[u32]) -> bool
        ensures { IsTrue result → (m k : ℕ) → Contains methods.now m → Contains methods.now k → AreJoined self.now m k }
    {
        let Some(first) = methods.first() else {
            return true;
        };
        let Some(x) = self.last(*first) else {
            return false;
        };
        for m in methods {
            if !self.is_last(*m, x) {
                return false;
            }
        }
        true
    }

    /// Whether these overloads were added last to the method.
    fn is_last(&self, m: u32, x: Overloads) -> bool
        ensures { IsTrue result → IsLabelled self.now m x }
    {
        match self.last(m) {
            Some(y) => y == x,
            None => false,
        }
    }

    /// The overloads that were added last to the method.
    fn last(&self, m: u32) -> Option<Overloads>
        ensures { IfSome result (λ x. IsLabelled self.now m x) }
    {
        let label = *self.labels.get(m as usize)?;
        if label == 0 {
            return None;
        }
        let row = *self.rows.get(label as usize)?;
        Some(row.last)
    }

    /// Adds overloads to one method: all of their methods, or the fewer of the difference where the overloads that it is from were added last.
    fn add_one(&mut self, m: u32, x: Overloads, fewer: Option<Difference>) -> Result<(), NoMemory>
        requires fit { IsFit self.old }
        requires within { m < length self.old.labels.items }
        ensures fit { OnOk result (IsFit self.new) }
        ensures size { OnOk result (length self.new.labels.items ≡ length self.old.labels.items) }
        ensures has { OnOk result ((k : ℕ) (y : the_overloads.Overloads) → IsLabelled self.new k y ↔ (IsLabelled self.old k y ⊎ ((k ≡ m) × (y ≡ x)))) }
        ensures kept { OnOk result (KeepsRows self.old.rows.items self.new.rows.items) }
        ensures only { OnOk result ((n : ℕ) (row : the_row.Row) → slice_get self.new.rows.items n ≡ Some row → (slice_get self.old.rows.items n ≡ Some row) ⊎ Adds self.old.rows.items x fewer row) }
        ensures added { OnOk result (self.new.added ≡ self.old.added) }
    {
        let rest = self.labels[m as usize];
        let added = self.added_to(m, fewer);
        let label = self.label_with(rest, x, added)?;
        self.labels[m as usize] = label;
        Ok(())
    }

    /// The place of the list that is enough for the method.
    fn added_to(&self, m: u32, fewer: Option<Difference>) -> Option<u32>
        ensures { IfSome result (λ p. (d : differences.Difference) × (fewer ≡ Some d) × (d.place ≡ p) × IsLabelled self.now m d.before) }
    {
        let d = fewer?;
        if self.is_last(m, d.before) {
            return Some(d.place);
        }
        None
    }

    /// The label that stands for what `rest` does and for these overloads. If it was made last from `rest`, it is there already.
    fn label_with(&mut self, rest: u32, x: Overloads, added: Option<u32>) -> Result<u32, NoMemory>
        requires fit { IsFit self.old }
        requires within { rest < length self.old.rows.items }
        ensures fit { OnOk result (IsFit self.new) }
        ensures labels { OnOk result (self.new.labels ≡ self.old.labels) }
        ensures lists { OnOk result (self.new.added ≡ self.old.added) }
        ensures kept { OnOk result (KeepsRows self.old.rows.items self.new.rows.items) }
        ensures only { OnOk result ((n : ℕ) (row : the_row.Row) → slice_get self.new.rows.items n ≡ Some row → (slice_get self.old.rows.items n ≡ Some row) ⊎ (row ≡ record { rest = rest; last = x; added = added })) }
        ensures row { IfOk result (λ n. (0 < n) × ((row : the_row.Row) × (slice_get self.new.rows.items n ≡ Some row) × (row.rest ≡ rest) × (row.last ≡ x))) }
    {
        let latest = self.latest[rest as usize];
        if self.is_label(latest, rest, x) {
            return Ok(latest);
        }
        let Ok(label) = u32::try_from(self.rows.len()) else {
            return Err(NoMemory);
        };
        self.rows.push(Row {
            rest,
            last: x,
            added,
        })?;
        self.latest.push(0)?;
        self.latest[rest as usize] = label;
        Ok(label)
    }

    fn is_label(&self, label: u32, rest: u32, x: Overloads) -> bool
        ensures { IsTrue result → (0 < label) × ((row : the_row.Row) × (slice_get self.now.rows.items label ≡ Some row) × (row.rest ≡ rest) × (row.last ≡ x)) }
    {
        match self.rows.get(label as usize) {
            Some(row) => label > 0 && row.rest == rest && row.last == x,
            None => false,
        }
    }
}
