//! What each method overrides at once (JLS 3rd edition, 8.4.8.1 and 8.4.8.4).

ghost use Rattle.std.specs.Prelude.{◌≡◌, ℕ, ◌<◌, ◌^◌, ◌↔◌, length, IsTrue, IfOk, OnOk};
ghost use Rattle.std.specs.List.{Contains};
ghost use Rattle.class_world.specs.Sound.{IsSound};
ghost use Rattle.class_world.specs.Signatures.{AgreeBelow};
ghost use Rattle.class_world.specs.Overriding.{AreInstanceMethods, IsInstanceMethod, MeetIn, Replaces};
ghost use Rattle.method_ties.specs.Ties.{AreReplaced, HoldsTies};
ghost use Rattle.method_ties.specs.declared.Meeting as pairs;
ghost use Rattle.overrides.specs.AtOnce.{AreAllTies, AreTies, IsDeclaredTie, IsTied, KeepsTies};
ghost use Rattle.overrides.specs.Scopes.{AreOpen, IsPlain};

use crate::open_names::OpenNames;
use crate::rows::Table;
use crate::scopes::are_scoped;
use class_world::World;
use java_tree::NoMemory;
use java_tree::tree::Mod;
use method_ties::{Meeting, MethodTies};
use seen_methods::agree_below;
use std::alloc::Global;

/// The first method overrides the second at once, and has one signature with all that this one overrides, in each type below both.
pub(crate) const FREE: u32 = 0;
/// The first method overrides the second at once.
pub(crate) const ASKED: u32 = 1;
/// The methods differ in a type below both, so that the first does not override the second.
pub(crate) const APART: u32 = 2;

fn is_instance(w: &World, m: u32) -> bool
    ensures { IsTrue result ↔ IsInstanceMethod w.now m }
{
    match w.methods.get(m as usize) {
        Some(info) => !info.constructor && !info.mods.as_slice().contains(&Mod::Static),
        None => false,
    }
}

fn are_instance(w: &World, m: u32, k: u32) -> bool
    ensures { IsTrue result ↔ AreInstanceMethods w.now m k }
{
    is_instance(w, m) && is_instance(w, k)
}

/// For each method those that it overrides at once, each with `FREE` or `ASKED`; and beside them some with `APART`. Takes time for the ties, and `agree_below` once for each pair that meets.
pub(crate) fn all_at_once(
    alloc: Global,
    w: &World,
    ties: &MethodTies,
    count: u32,
) -> Result<Table, NoMemory>
    requires sound { IsSound w.now }
    requires ties { HoldsTies w.now ties.now }
    requires count { count ≡ length w.now.methods }
    ensures { IfOk result (AreAllTies w.now) }
{
    let Ok(types) = u32::try_from(w.types.len()) else {
        return Err(NoMemory);
    };
    let names = OpenNames::of(alloc, w, count)?;
    let mut table = Table::new(alloc, count)?;
    add_declared(w, ties, count, &mut table)?;
    add_inherited(alloc, w, &names, ties, types, &mut table)?;
    Ok(table)
}

/// What is written of a method and one whose place it takes: where all parameter types are of the types that declare them, what the two have in common stays below.
fn declared_tie(w: &World, count: u32) -> u32
    requires sound { IsSound w.now }
    requires count { count ≡ length w.now.methods }
    ensures { IsDeclaredTie w.now result }
{
    if are_scoped(w, count) { FREE } else { ASKED }
}

/// What is written of two methods that a class has from both sides: where no method of their name has a variable, all that overriding ties together has one list of parameter types.
fn met_tie(w: &World, names: &OpenNames, m: u32) -> u32
    requires { AreOpen w.now names.now }
    ensures tied { result ≡ APART → ⊥ }
    ensures free { result ≡ FREE → IsPlain w.now m }
{
    if names.is_plain(w, m) { FREE } else { ASKED }
}

fn add_declared(w: &World, ties: &MethodTies, count: u32, table: &mut Table) -> Result<(), NoMemory>
    requires sound { IsSound w.now }
    requires ties { HoldsTies w.now ties.now }
    requires count { count ≡ length w.now.methods }
    requires table { AreTies w.now table.old }
    ensures table { OnOk result (AreTies w.now table.new) }
    ensures all { OnOk result ((c m k : ℕ) → Replaces w.now c m k → AreInstanceMethods w.now m k → IsTied table.new m k) }
{
    let tie = declared_tie(w, count);
    for m in 0..count {
        add_replaced(w, m, ties.replaced(m), tie, table)?;
    }
    Ok(())
}

fn add_replaced(
    w: &World,
    m: u32,
    replaced: &[u32],
    tie: u32,
    table: &mut Table,
) -> Result<(), NoMemory>
    requires replaced { AreReplaced w.now m replaced.now }
    requires tie { IsDeclaredTie w.now tie }
    requires table { AreTies w.now table.old }
    ensures table { OnOk result (AreTies w.now table.new) }
    ensures kept { OnOk result (KeepsTies table.old table.new) }
    ensures all { OnOk result ((c k : ℕ) → Replaces w.now c m k → AreInstanceMethods w.now m k → IsTied table.new m k) }
{
    for k in replaced {
        if are_instance(w, m, *k) {
            table.set(m, *k, tie)?;
        }
    }
    Ok(())
}

fn add_inherited(
    alloc: Global,
    w: &World,
    names: &OpenNames,
    ties: &MethodTies,
    types: u32,
    table: &mut Table,
) -> Result<(), NoMemory>
    requires sound { IsSound w.now }
    requires names { AreOpen w.now names.now }
    requires ties { HoldsTies w.now ties.now }
    requires types { types ≡ length w.now.types }
    requires table { AreTies w.now table.old }
    ensures table { OnOk result (AreTies w.now table.new) }
    ensures kept { OnOk result (KeepsTies table.old table.new) }
    ensures all { OnOk result ((c m k : ℕ) → MeetIn w.now c m k → AreInstanceMethods w.now m k → AgreeBelow w.now m k → IsTied table.new m k) }
{
    for c in 0..types {
        add_meetings(alloc, w, names, ties.meetings(c), table)?;
    }
    Ok(())
}

fn add_meetings(
    alloc: Global,
    w: &World,
    names: &OpenNames,
    meetings: &[Meeting],
    table: &mut Table,
) -> Result<(), NoMemory>
    requires sound { IsSound w.now }
    requires names { AreOpen w.now names.now }
    requires met { (p : pairs.Meeting) → Contains meetings.now p → (c : ℕ) × MeetIn w.now c p.lower p.upper }
    requires table { AreTies w.now table.old }
    ensures table { OnOk result (AreTies w.now table.new) }
    ensures kept { OnOk result (KeepsTies table.old table.new) }
    ensures all { OnOk result ((p : pairs.Meeting) → Contains meetings.now p → AreInstanceMethods w.now p.lower p.upper → AgreeBelow w.now p.lower p.upper → IsTied table.new p.lower p.upper) }
{
    for meeting in meetings {
        add_meeting(alloc, w, names, *meeting, table)?;
    }
    Ok(())
}

/// Adds a pair that a class has from both sides, if it was not added for another class.
fn add_meeting(
    alloc: Global,
    w: &World,
    names: &OpenNames,
    meeting: Meeting,
    table: &mut Table,
) -> Result<(), NoMemory>
    requires sound { IsSound w.now }
    requires names { AreOpen w.now names.now }
    requires met { (c : ℕ) × MeetIn w.now c meeting.lower meeting.upper }
    requires table { AreTies w.now table.old }
    ensures table { OnOk result (AreTies w.now table.new) }
    ensures kept { OnOk result (KeepsTies table.old table.new) }
    ensures tied { OnOk result (AreInstanceMethods w.now meeting.lower meeting.upper → AgreeBelow w.now meeting.lower meeting.upper → IsTied table.new meeting.lower meeting.upper) }
{
    let (m, k) = (meeting.lower, meeting.upper);
    if !are_instance(w, m, k) || table.get(m, k).is_some() {
        return Ok(());
    }
    if agree_below(alloc, w, m, k)? {
        table.set(m, k, met_tie(w, names, m))
    } else {
        table.set(m, k, APART)
    }
}
