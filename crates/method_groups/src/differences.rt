//! Methods of overloads that do not stand among other overloads.

ghost use Rattle.std.specs.Prelude.{◌≡◌, ◌<◌, ◌≤◌, ◌↔◌, ◌⊎◌, ℕ, Some, IfOk, IfSome, OnOk, IsTrue, length, slice_get};
ghost use Rattle.std.specs.List.{Contains};
ghost use Rattle.std.specs.List.Sorted.{IsStrictlyIncreasing};
ghost use Rattle.member_methods.specs.Methods.{HoldsMethods};
ghost use Rattle.method_groups.specs.Beside.{AreBeside};
ghost use Rattle.method_groups.specs.Groups.{KeepsLists};
ghost use Rattle.method_groups.specs.Labels.{IsDifference};

use crate::overloads::{Overloads, methods_of};
use class_world::World;
use java_tree::{Items, NoMemory};
use member_methods::MethodLists;
use std::alloc::Global;

/// A list of methods, by its place: those that do not stand among the overloads `before`.
#[derive(Clone, Copy)]
pub(crate) struct Difference {
    pub(crate) before: Overloads,
    pub(crate) place: u32,
}

/// Adds the list of those methods that do not stand among the overloads `before` to the lists; unless there are none before, or many more, which would take long. Takes time for the methods.
pub(crate) fn difference_from(
    alloc: Global,
    w: &World,
    lists: &MethodLists,
    methods: &[u32],
    before: Option<Overloads>,
    added: &mut Vec<Items<u32>>,
) -> Result<Option<Difference>, NoMemory>
    requires lists { HoldsMethods w.now lists.now }
    requires ascending { IsStrictlyIncreasing methods.now }
    requires members { IfSome before (λ y. AreBeside w.now y.member_of y.method y.method) }
    ensures kept { OnOk result (KeepsLists added.old.items added.new.items) }
    ensures made { IfOk result (λ o. IfSome o (λ d. IsDifference w.now added.new.items methods.now d)) }
{
    let Some(before) = before else {
        return Ok(None);
    };
    let others = methods_of(w, lists, before);
    if others.len() / 2 > methods.len() {
        return Ok(None);
    }
    let Ok(place) = u32::try_from(added.len()) else {
        return Err(NoMemory);
    };
    let list = without(alloc, methods, others)?;
    added.push(Items::from_vec(list))?;
    Ok(Some(Difference { before, place }))
}

/// The methods that are not among the others; both ascend. Takes time for both.
fn without(alloc: Global, methods: &[u32], others: &[u32]) -> Result<Vec<u32>, NoMemory>
    requires methods { IsStrictlyIncreasing methods.now }
    requires others { IsStrictlyIncreasing others.now }
    ensures only { IfOk result (λ v. (k : ℕ) → Contains v.items k → Contains methods.now k × (Contains others.now k → ⊥)) }
    ensures all { IfOk result (λ v. (k : ℕ) → Contains methods.now k → Contains v.items k ⊎ Contains others.now k) }
{
    let mut left = Vec::new(alloc);
    let mut at = 0;
    for m in methods {
        at = place_from(others, at, *m);
        if !is_at(others, at, *m) {
            left.push(*m)?;
        }
    }
    Ok(left)
}

/// The first place, not below this one, where no number below m is.
fn place_from(list: &[u32], from: usize, m: u32) -> usize
    ensures below { (i k : ℕ) → i < result → slice_get list.now i ≡ Some k → (i < from) ⊎ (k < m) }
    ensures stop { (k : ℕ) → slice_get list.now result ≡ Some k → m ≤ k }
{
    let mut at = from;
    while is_below(list, at, m) {
        at += 1;
    }
    at
}

/// Whether there is a number at the place, and it is below m.
fn is_below(list: &[u32], at: usize, m: u32) -> bool
    ensures { IsTrue result ↔ ((k : ℕ) × (slice_get list.now at ≡ Some k) × (k < m)) }
{
    match list.get(at) {
        Some(k) => *k < m,
        None => false,
    }
}

/// Whether m is at the place.
fn is_at(list: &[u32], at: usize, m: u32) -> bool
    ensures { IsTrue result ↔ slice_get list.now at ≡ Some m }
{
    match list.get(at) {
        Some(k) => *k == m,
        None => false,
    }
}
