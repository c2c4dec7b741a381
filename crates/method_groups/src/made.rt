//! The groups, made from labels.

ghost use Rattle.std.specs.Prelude.{◌≡◌, ◌<◌, ◌↔◌, ℕ, Some, None, IfOk, OnOk, length, slice_get};
ghost use Rattle.std.specs.List.{Contains};
ghost use Rattle.std.specs.List.Sorted.{IsStrictlyIncreasing};
ghost use Rattle.class_world.specs.Inheritance.{IsGrouped};
ghost use Rattle.member_methods.specs.Methods.{HoldsMethods};
ghost use Rattle.method_groups.specs.Constructors.{found_in};
ghost use Rattle.method_groups.specs.Groups.{AreMade, AreReady, HasList, HoldsConstructors, HoldsGroups, KeepsLists};
ghost use Rattle.method_groups.specs.Beside.{AreBeside};
ghost use Rattle.method_groups.specs.Labels.{AreAdditions, AreAllLabels, AreMembers, IsAddition, IsFit, IsOverload, Passes, StandsFor};
ghost use Rattle.method_groups.specs.Taking.{AreTaken, KeepsTakers};
ghost use Rattle.method_groups.specs.declared.overloads.Overloads as the_overloads;

use crate::MethodGroups;
use crate::constructors::{Constructors, Shape, shape_of};
use crate::labels::{Labels, Row};
use crate::overloads::methods_of;
use crate::taking::take_all;
use class_world::World;
use java_tree::{Items, NoMemory};
use member_methods::MethodLists;
use std::alloc::Global;
use std::collections::HashMap;

/// The groups made so far, and the place of each label's group if it is made.
#[derive(Drop)]
pub(crate) struct Made {
    by_label: Vec<Option<u32>>,
    groups: Vec<Items<u32>>,
    /// For each method, the label that took it last into its group; 0 if none did.
    takers: Vec<u32>,
}

/// The groups of all methods.
pub(crate) fn all_groups(
    alloc: Global,
    w: &World,
    lists: &MethodLists,
    labels: &Labels,
    constructors: Constructors,
) -> Result<MethodGroups, NoMemory>
    requires lists { HoldsMethods w.now lists.now }
    requires labels { AreAllLabels w.now labels.now }
    requires constructors { HoldsConstructors w.now (found_in constructors.places) constructors.lists.items }
    ensures { IfOk result (λ t. HoldsGroups w.now t) }
{
    let Constructors {
        places: shapes,
        lists: groups,
    } = constructors;
    let mut made = Made {
        by_label: vec![in alloc; None; labels.rows.len()]?,
        groups,
        takers: vec![in alloc; 0; w.methods.len()]?,
    };
    made.make_all(alloc, w, lists, labels)?;
    let mut places = Vec::new(alloc);
    for m in 0..w.methods.len() {
        let place = made.place_of(alloc, w, lists, labels, &shapes, m)?;
        places.push(place)?;
    }
    let Made {
        by_label: _,
        groups,
        takers: _,
    } = made;
    Ok(MethodGroups { places, groups })
}

impl Made {
    /// Makes the groups of all methods' labels. Lower labels come first, since higher ones lead to them.
    fn make_all(
        &mut self,
        alloc: Global,
        w: &World,
        lists: &MethodLists,
        labels: &Labels,
    ) -> Result<(), NoMemory>
        requires lists { HoldsMethods w.now lists.now }
        requires labels { AreAllLabels w.now labels.now }
        requires ready { AreReady w.now labels.now.rows.items self.old }
        ensures ready { OnOk result (AreReady w.now labels.now.rows.items self.new) }
        ensures kept { OnOk result (KeepsLists self.old.groups.items self.new.groups.items) }
    {
        let mut order = Vec::from_slice(alloc, labels.labels.as_slice())?;
        order.sort_unstable();
        for label in order.as_slice() {
            self.place_of_label(alloc, w, lists, labels, *label)?;
        }
        Ok(())
    }

    /// The place of a method's group. Methods of one label share it, and so do constructors of one shape.
    fn place_of(
        &mut self,
        alloc: Global,
        w: &World,
        lists: &MethodLists,
        labels: &Labels,
        shapes: &HashMap<Shape, u32>,
        m: usize,
    ) -> Result<u32, NoMemory>
        requires within { m < length w.now.methods }
        requires lists { HoldsMethods w.now lists.now }
        requires labels { AreAllLabels w.now labels.now }
        requires constructors { HoldsConstructors w.now (found_in shapes.now) self.old.groups.items }
        requires ready { AreReady w.now labels.now.rows.items self.old }
        ensures ready { OnOk result (AreReady w.now labels.now.rows.items self.new) }
        ensures kept { OnOk result (KeepsLists self.old.groups.items self.new.groups.items) }
        ensures has { IfOk result (λ p. HasList self.new.groups.items p (IsGrouped w.now m)) }
    {
        let info = &w.methods.as_slice()[m];
        if info.constructor {
            if let Some(place) = shapes.get(&shape_of(info)) {
                return Ok(*place);
            }
        }
        self.place_of_label(alloc, w, lists, labels, labels.labels[m])
    }

    /// The place of the group of a label's methods, which is made if it is not there.
    fn place_of_label(
        &mut self,
        alloc: Global,
        w: &World,
        lists: &MethodLists,
        labels: &Labels,
        label: u32,
    ) -> Result<u32, NoMemory>
        requires within { label < length labels.now.rows.items }
        requires lists { HoldsMethods w.now lists.now }
        requires fit { IsFit labels.now }
        requires additions { AreAdditions w.now labels.now.rows.items labels.now.added.items }
        requires members { AreMembers w.now labels.now.rows.items label }
        requires ready { AreReady w.now labels.now.rows.items self.old }
        ensures ready { OnOk result (AreReady w.now labels.now.rows.items self.new) }
        ensures kept { OnOk result (KeepsLists self.old.groups.items self.new.groups.items) }
        ensures has { IfOk result (λ p. HasList self.new.groups.items p (IsOverload w.now labels.now.rows.items label)) }
    {
        if let Some(place) = self.by_label[label as usize] {
            return Ok(place);
        }
        let group = self.overloads_of(alloc, w, lists, labels, label)?;
        let Ok(place) = u32::try_from(self.groups.len()) else {
            return Err(NoMemory);
        };
        self.groups.push(Items::from_vec(group))?;
        self.by_label[label as usize] = Some(place);
        Ok(place)
    }

    /// All methods of the overloads that a label stands for, which has no place. A label that it leads to, and whose group is made, gives that.
    ///
    /// Takes time for the methods that rows give, as often as they give them, and for sorting the group; memory for the group.
    fn overloads_of(
        &mut self,
        alloc: Global,
        w: &World,
        lists: &MethodLists,
        labels: &Labels,
        label: u32,
    ) -> Result<Vec<u32>, NoMemory>
        requires within { label < length labels.now.rows.items }
        requires lists { HoldsMethods w.now lists.now }
        requires fit { IsFit labels.now }
        requires additions { AreAdditions w.now labels.now.rows.items labels.now.added.items }
        requires members { AreMembers w.now labels.now.rows.items label }
        requires ready { AreReady w.now labels.now.rows.items self.old }
        requires unmade { slice_get self.old.by_label.items label ≡ Some None }
        ensures has { IfOk result (λ v. (k : ℕ) → Contains v.items k ↔ IsOverload w.now labels.now.rows.items label k) }
        ensures ascending { IfOk result (λ v. IsStrictlyIncreasing v.items) }
        ensures places { OnOk result (self.new.by_label ≡ self.old.by_label) }
        ensures groups { OnOk result (self.new.groups ≡ self.old.groups) }
        ensures takers { OnOk result (KeepsTakers self.old.takers.items self.new.takers.items label) }
    {
        let mut methods = Vec::new(alloc);
        let mut at = label;
        while at > 0 {
            at = self.add_overloads(w, lists, labels, at, label, &mut methods)?;
        }
        methods.sort_unstable();
        Ok(methods)
    }

    /// Takes methods that the label `at`, but 0, stands for, into the group of `label`, and gives the label that stands for the rest.
    fn add_overloads(
        &mut self,
        w: &World,
        lists: &MethodLists,
        labels: &Labels,
        at: u32,
        label: u32,
        methods: &mut Vec<u32>,
    ) -> Result<u32, NoMemory>
        requires above { 0 < at }
        requires within { at < length labels.now.rows.items }
        requires lists { HoldsMethods w.now lists.now }
        requires fit { IsFit labels.now }
        requires additions { AreAdditions w.now labels.now.rows.items labels.now.added.items }
        requires members { AreMembers w.now labels.now.rows.items at }
        requires made { AreMade w.now labels.now.rows.items self.old }
        requires takers { length self.old.takers.items ≡ length w.now.methods }
        requires taken { AreTaken self.old.takers.items label methods.old.items }
        ensures falls { IfOk result (λ n. n < at) }
        ensures rest { IfOk result (λ n. (x : the_overloads.Overloads) → StandsFor labels.now.rows.items n x → StandsFor labels.now.rows.items at x) }
        ensures adds { IfOk result (λ n. Passes w.now labels.now.rows.items methods.old.items at methods.new.items n) }
        ensures taken { OnOk result (AreTaken self.new.takers.items label methods.new.items) }
        ensures places { OnOk result (self.new.by_label ≡ self.old.by_label) }
        ensures groups { OnOk result (self.new.groups ≡ self.old.groups) }
        ensures takers { OnOk result (KeepsTakers self.old.takers.items self.new.takers.items label) }
    {
        if let Some(place) = self.by_label[at as usize] {
            let group = self.groups[place as usize].as_slice();
            take_all(group, label, &mut self.takers, methods)?;
            return Ok(0);
        }
        let row = labels.rows[at as usize];
        let more = added_by(w, lists, labels, row);
        take_all(more, label, &mut self.takers, methods)?;
        Ok(row.rest)
    }
}

/// The methods that a row adds to those of its rest: all that the rest does not stand for, and maybe others of its last overloads.
fn added_by<'a>(w: &World, lists: &'a MethodLists, labels: &'a Labels, row: Row) -> &'a [u32]
    requires lists { HoldsMethods w.now lists.now }
    requires additions { AreAdditions w.now labels.now.rows.items labels.now.added.items }
    requires row { (n : ℕ) × (slice_get labels.now.rows.items n ≡ Some row) }
    requires member { AreBeside w.now row.last.member_of row.last.method row.last.method }
    ensures { IsAddition w.now labels.now.rows.items row.rest row.last result.now }
{
    match row.added {
        Some(place) => labels.added[place as usize].as_slice(),
        None => methods_of(w, lists, row.last),
    }
}
