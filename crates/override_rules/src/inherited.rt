//! What two methods break that a type has from both sides: from its superclass, and from an interface.

ghost use Rattle.std.specs.Prelude.{◌≡◌, ℕ, ◌↔◌, Some, IfOk, slice_get};
ghost use Rattle.class_world.specs.declared.world.TypeInfo as infos;
ghost use Rattle.rule_order.specs.First.{IsFirst};
ghost use Rattle.class_world.specs.Sound.{IsSound};
ghost use Rattle.class_world.specs.Overriding.{MeetIn};
ghost use Rattle.method_ties.specs.Ties.{AreMeetings, HoldsTies};
ghost use Rattle.override_rules.specs.Judged.{BreaksMet, BreaksPair, InheritedBreaches, IsLowest, TypeBreaches};
ghost use Rattle.class_world.specs.Typed.{HaveTypes};

use crate::lowest::{breach_at, lower};
use crate::over::lowest_broken;
use class_world::World;
use java_tree::NoMemory;
use method_ties::{Meeting, MethodTies};
use rule_order::{Breach, earlier};
use seen_methods::agree_below;
use std::alloc::Global;

/// The lowest number of a rule that two methods break that the type has from both sides. Methods of one kind break a rule only where they have one signature in each type below those that declare them; that is asked only where a rule would be broken.
fn lowest_of_pair(alloc: Global, w: &World, c: u32, m: u32, k: u32) -> Result<Option<u8>, NoMemory>
    requires sound { IsSound w.now }
    requires typed { HaveTypes w.now }
    requires met { MeetIn w.now c m k }
    ensures { IfOk result (λ o. IsLowest (BreaksPair w.now c m k) o) }
{
    match lowest_broken(alloc, w, c, m, k)? {
        None => Ok(None),
        Some(rule) => {
            if rule == 17 || agree_below(alloc, w, m, k)? {
                Ok(Some(rule))
            } else {
                Ok(None)
            }
        }
    }
}

fn lowest_met(
    alloc: Global,
    w: &World,
    c: u32,
    meetings: &[Meeting],
) -> Result<Option<u8>, NoMemory>
    requires sound { IsSound w.now }
    requires typed { HaveTypes w.now }
    requires meetings { AreMeetings w.now c meetings.now }
    ensures { IfOk result (λ o. IsLowest (BreaksMet w.now c) o) }
{
    let mut lowest = None;
    for pair in meetings {
        lowest = lower(lowest, lowest_of_pair(alloc, w, c, pair.lower, pair.upper)?);
    }
    Ok(lowest)
}

fn node_of(w: &World, c: u32) -> Option<u32>
    ensures { (n : ℕ) → (result ≡ Some n) ↔ ((info : infos.TypeInfo) × (slice_get w.now.types c ≡ Some info) × (info.node ≡ Some n)) }
{
    match w.types.get(c as usize) {
        Some(info) => info.node,
        None => None,
    }
}

/// The first breach at a type. A type without a node has none.
fn first_at_type(
    alloc: Global,
    w: &World,
    ties: &MethodTies,
    c: u32,
) -> Result<Option<Breach>, NoMemory>
    requires sound { IsSound w.now }
    requires typed { HaveTypes w.now }
    requires ties { HoldsTies w.now ties.now }
    ensures { IfOk result (λ o. IsFirst (TypeBreaches w.now c) o) }
{
    let node = node_of(w, c);
    if node.is_none() {
        return Ok(None);
    }
    let rule = lowest_met(alloc, w, c, ties.meetings(c))?;
    Ok(breach_at(node, rule))
}

/// The first breach by methods that types have from both sides. Takes time for the types and for these pairs.
pub(crate) fn first_inherited(
    alloc: Global,
    w: &World,
    ties: &MethodTies,
) -> Result<Option<Breach>, NoMemory>
    requires sound { IsSound w.now }
    requires typed { HaveTypes w.now }
    requires ties { HoldsTies w.now ties.now }
    ensures { IfOk result (λ o. IsFirst (InheritedBreaches w.now) o) }
{
    // More types than numbers find no room in the memory of any machine.
    if w.types.len() > u32::MAX as usize {
        return Err(NoMemory);
    }
    let mut first = None;
    for c in 0..w.types.len() as u32 {
        first = earlier(first, first_at_type(alloc, w, ties, c)?);
    }
    Ok(first)
}
