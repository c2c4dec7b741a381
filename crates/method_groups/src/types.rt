//! The labels of all methods, by the overloads of all types.

ghost use Rattle.std.specs.Prelude.{◌≡◌, ◌<◌, ◌≤◌, ◌^◌, ◌↔◌, ℕ, IfOk, OnOk, IsTrue, length};
ghost use Rattle.class_world.specs.Sound.{IsSound};
ghost use Rattle.member_methods.specs.Methods.{HoldsMethods};
ghost use Rattle.method_groups.specs.Beside.{AreBeside};
ghost use Rattle.method_groups.specs.Labels.{AreAllLabels, AreJoined, AreLabels, IsAgain, IsLimit, KeepsJoined};

use crate::labels::Labels;
use crate::overloads::{Overloads, are_alike, methods_of};
use class_world::{World, supers_first};
use java_tree::NoMemory;
use member_methods::MethodLists;
use std::alloc::Global;

/// A number above those of all types and of all methods' owners.
fn owner_limit(w: &World) -> usize
    ensures limit { IsLimit w.now result }
    ensures few { length w.now.types < result → result ≤ 2 ^ 32 }
{
    let mut limit = w.types.len();
    for info in w.methods.as_slice() {
        limit = limit.max(info.owner as usize + 1);
    }
    limit
}

/// The labels of the methods of a sound world, which stand for the overloads of all types. Takes time for the methods that the types have as members.
///
/// Subtypes come first, since their overloads often have all of those of a supertype.
pub(crate) fn labels_of(alloc: Global, w: &World, lists: &MethodLists) -> Result<Labels, NoMemory>
    requires sound { IsSound w.now }
    requires lists { HoldsMethods w.now lists.now }
    ensures { IfOk result (λ t. AreAllLabels w.now t) }
{
    let mut order = supers_first(alloc, w)?;
    let mut labels = Labels::new(alloc, w.methods.len())?;
    while let Some(c) = order.pop() {
        add_type(alloc, w, lists, c, &mut labels)?;
    }
    // A number that is an owner's and no type's counts as a type that nothing is above.
    for past in w.types.len()..owner_limit(w) {
        add_type(alloc, w, lists, past as u32, &mut labels)?;
    }
    Ok(labels)
}

/// Adds the overloads of one type.
fn add_type(
    alloc: Global,
    w: &World,
    lists: &MethodLists,
    c: u32,
    labels: &mut Labels,
) -> Result<(), NoMemory>
    requires lists { HoldsMethods w.now lists.now }
    requires labels { AreLabels w.now labels.old }
    ensures labels { OnOk result (AreLabels w.now labels.new) }
    ensures kept { OnOk result (KeepsJoined labels.old labels.new) }
    ensures all { OnOk result ((m k : ℕ) → AreBeside w.now c m k → AreJoined labels.new m k) }
{
    let members = lists.all(alloc, c)?;
    let mut last = None;
    // Those of one name and number of parameters mostly come one after the other.
    for m in members.as_slice() {
        if !is_again(w, last, *m) {
            let x = Overloads {
                member_of: c,
                method: *m,
            };
            labels.add(alloc, w, lists, x, methods_of(w, lists, x))?;
            last = Some(*m);
        }
    }
    Ok(())
}

/// Whether the method has the name and the number of parameters of the one before.
fn is_again(w: &World, last: Option<u32>, m: u32) -> bool
    ensures { IsTrue result ↔ IsAgain w.now last m }
{
    match last {
        Some(k) => are_alike(w, k, m),
        None => false,
    }
}
