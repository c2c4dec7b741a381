//! Overriding through any third method (JLS 3rd edition, 8.4.8.1).

ghost use Rattle.std.specs.Prelude.{◌≡◌, ℕ, ◌<◌, false, length, IfOk, OnOk};
ghost use Rattle.std.specs.List.{Contains};
ghost use Rattle.class_world.specs.Sound.{IsSound};
ghost use Rattle.class_world.specs.Overriding.{OverridesAtOnce};
ghost use Rattle.overrides.specs.declared.links.Link as pairs;
ghost use Rattle.overrides.specs.Tables.{Has, HasRow};
ghost use Rattle.overrides.specs.Links.{AreAllLinks};
ghost use Rattle.overrides.specs.Rounds.{HoldsOverriding, IsClosed, IsDerived, IsStep};

use crate::links::Link;
use crate::rounds::{add_rounds, add_thirds, lacks_row};
use crate::rows::Table;
use class_world::World;
use java_tree::NoMemory;
use std::alloc::Global;

/// Adds what each method overrides: by rounds over the links, whose first step is one at once; and where these left out a third that differs from a link's lower method in a type below both, by passes over all pairs, since a method further below may override it by two longer steps.
pub(crate) fn add_all(
    alloc: Global,
    w: &World,
    links: &[Link],
    count: u32,
    table: &mut Table,
) -> Result<(), NoMemory>
    requires sound { IsSound w.now }
    requires links { AreAllLinks w.now links.now }
    requires count { count ≡ length w.now.methods }
    requires table { IsDerived w.now table.old }
    ensures { OnOk result (HoldsOverriding w.now table.new) }
{
    add_rounds(alloc, w, links, table)?;
    if !lacks_third(links, table) {
        return Ok(());
    }
    close_all(alloc, w, count, table)
}

/// Whether the lower method of a link lacks something that the upper one overrides. None does where the link is free.
fn lacks_third(links: &[Link], table: &Table) -> bool
    ensures { result ≡ false → (x : pairs.Link) → Contains links.now x → x.free ≡ false → HasRow table.now x.lower x.upper }
{
    for link in links {
        if !link.free && lacks_row(link.lower, link.upper, table) {
            return true;
        }
    }
    false
}

/// Adds what each method overrides through any other, in passes over all rows, until a pass adds nothing.
///
/// A pass lists one row after the other, and takes for each pair in it the time of the nodes that the two rows do not share, and an `agree_below` for each method that the lower one lacks.
fn close_all(alloc: Global, w: &World, count: u32, table: &mut Table) -> Result<(), NoMemory>
    requires sound { IsSound w.now }
    requires count { count ≡ length w.now.methods }
    requires table { IsDerived w.now table.old }
    requires at_once { (m t : ℕ) → OverridesAtOnce w.now m t → Has table.old m t }
    ensures { OnOk result (HoldsOverriding w.now table.new) }
{
    'passes: loop {
        if !close_rows(alloc, w, count, table)? {
            return Ok(());
        }
    }
}

/// Goes over all rows once, and tells whether that added something.
fn close_rows(alloc: Global, w: &World, count: u32, table: &mut Table) -> Result<bool, NoMemory>
    requires sound { IsSound w.now }
    requires table { IsDerived w.now table.old }
    ensures table { OnOk result (IsDerived w.now table.new) }
    ensures step { IfOk result (IsStep table.old table.new) }
    ensures closed { IfOk result (λ added. added ≡ false → (m : ℕ) → m < count → IsClosed w.now table.new m) }
{
    let mut added = false;
    for m in 0..count {
        if close_row(alloc, w, m, table)? {
            added = true;
        }
    }
    Ok(added)
}

/// Adds what the method `m` overrides through those that its row has, and tells whether that added something.
fn close_row(alloc: Global, w: &World, m: u32, table: &mut Table) -> Result<bool, NoMemory>
    requires sound { IsSound w.now }
    requires table { IsDerived w.now table.old }
    ensures table { OnOk result (IsDerived w.now table.new) }
    ensures step { IfOk result (IsStep table.old table.new) }
    ensures closed { IfOk result (λ added. added ≡ false → IsClosed w.now table.new m) }
{
    let row = table.list(alloc, m)?;
    let mut added = false;
    for entry in &row {
        if add_thirds(alloc, w, m, entry.0, table)? {
            added = true;
        }
    }
    Ok(added)
}
