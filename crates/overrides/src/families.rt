//! Families of methods: those that overriding ties to each other, in either direction.

ghost use Rattle.std.specs.Prelude.{◌≡◌, ℕ, ◌<◌, Some, length, slice_get, IfOk, OnOk};
ghost use Rattle.class_world.specs.Overriding.{OverridesAtOnce};
ghost use Rattle.shared_maps.specs.Maps.{AreEntries};
ghost use Rattle.overrides.specs.Tables.{value_at};
ghost use Rattle.overrides.specs.AtOnce.{AreAllTies};
ghost use Rattle.overrides.specs.Families.{AreAlike, AreGroups, AreLabels, AreMerging, IsMerged, IsRelabelled, KeepsAlike};

use crate::at_once::APART;
use crate::rows::Table;
use class_world::World;
use java_tree::{Items, NoMemory};
use std::alloc::Global;
use std::mem;

/// A label for each method, and the methods of each label.
#[derive(Drop)]
struct Groups {
    labels: Vec<u32>,
    members: Vec<Items<u32>>,
}

/// A label for each method, the same for those of one family. What is overridden through a third method is in the family of that one, so that the ties at once tell.
///
/// Each tie puts two groups together: the smaller one gets the other's label, so that a method's label changes as often as its group doubles.
pub(crate) fn labels_of(
    alloc: Global,
    w: &World,
    ties: &Table,
    count: u32,
) -> Result<Vec<u32>, NoMemory>
    requires ties { AreAllTies w.now ties.now }
    requires count { count ≡ length w.now.methods }
    ensures { IfOk result (λ v. AreLabels w.now v.items) }
{
    let mut groups = one_each(alloc, count)?;
    for m in 0..count {
        merge_all(alloc, w, ties, m, &mut groups)?;
    }
    let Groups { labels, members: _ } = groups;
    Ok(labels)
}

/// Each number is a group.
fn one_each(alloc: Global, count: u32) -> Result<Groups, NoMemory>
    ensures groups { IfOk result (λ g. AreGroups g.labels.items g.members.items) }
    ensures size { IfOk result (λ g. length g.labels.items ≡ count) }
    ensures apart { IfOk result (λ g. (m k : ℕ) → AreAlike g.labels.items m k → m ≡ k) }
{
    let mut labels = Vec::new(alloc);
    let mut members = Vec::new(alloc);
    for m in 0..count {
        labels.push(m)?;
        members.push(Items::one(alloc, m)?)?;
    }
    Ok(Groups { labels, members })
}

/// Puts the method `m` and those that it overrides at once into one group.
fn merge_all(
    alloc: Global,
    w: &World,
    ties: &Table,
    m: u32,
    groups: &mut Groups,
) -> Result<(), NoMemory>
    requires ties { AreAllTies w.now ties.now }
    requires groups { AreGroups groups.old.labels.items groups.old.members.items }
    requires merging { AreMerging w.now groups.old.labels.items }
    ensures groups { OnOk result (AreGroups groups.new.labels.items groups.new.members.items) }
    ensures merging { OnOk result (AreMerging w.now groups.new.labels.items) }
    ensures kept { OnOk result (KeepsAlike groups.old.labels.items groups.new.labels.items) }
    ensures all { OnOk result ((t : ℕ) → OverridesAtOnce w.now m t → AreAlike groups.new.labels.items m t) }
{
    let ties = ties.list(alloc, m)?;
    for tie in &ties {
        if tie.1 != APART {
            merge(alloc, m, tie.0, groups)?;
        }
    }
    Ok(())
}

/// Puts the groups of two numbers together.
fn merge(alloc: Global, m: u32, k: u32, groups: &mut Groups) -> Result<(), NoMemory>
    requires first { m < length groups.old.labels.items }
    requires second { k < length groups.old.labels.items }
    requires groups { AreGroups groups.old.labels.items groups.old.members.items }
    ensures groups { OnOk result (AreGroups groups.new.labels.items groups.new.members.items) }
    ensures merged { OnOk result (IsMerged groups.old.labels.items groups.new.labels.items m k) }
{
    let a = groups.labels[m as usize];
    let b = groups.labels[k as usize];
    if a == b {
        return Ok(());
    }
    if groups.members[a as usize].len() < groups.members[b as usize].len() {
        relabel(alloc, a, b, &mut groups.labels, &mut groups.members)
    } else {
        relabel(alloc, b, a, &mut groups.labels, &mut groups.members)
    }
}

/// Gives the methods of one label another. Takes time for these.
fn relabel(
    alloc: Global,
    from: u32,
    into: u32,
    labels: &mut Vec<u32>,
    members: &mut Vec<Items<u32>>,
) -> Result<(), NoMemory>
    requires two { from ≡ into → ⊥ }
    requires first { from < length labels.old.items }
    requires second { into < length labels.old.items }
    requires groups { AreGroups labels.old.items members.old.items }
    ensures groups { OnOk result (AreGroups labels.new.items members.new.items) }
    ensures relabelled { OnOk result (IsRelabelled labels.old.items labels.new.items from into) }
{
    let moved = mem::replace(&mut members[from as usize], Items::new(alloc));
    for m in moved.as_slice() {
        labels[*m as usize] = into;
        members[into as usize].push(*m)?;
    }
    Ok(())
}
