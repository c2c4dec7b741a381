//! The pairs of methods of which the first overrides the second at once, listed.

ghost use Rattle.std.specs.Prelude.{◌≡◌, ℕ, ◌<◌, length, IfOk, OnOk};
ghost use Rattle.std.specs.List.{Contains};
ghost use Rattle.class_world.specs.Overriding.{OverridesAtOnce};
ghost use Rattle.overrides.specs.AtOnce.{AreAllTies};
ghost use Rattle.overrides.specs.Links.{AreAllLinks, AreLinks, HasLink};

use crate::at_once::{APART, FREE};
use crate::rows::Table;
use class_world::World;
use java_tree::NoMemory;
use std::alloc::Global;

/// A method and one that it overrides at once; `free` where it has one signature with all that this one overrides, in each type below both.
#[derive(Clone, Copy)]
pub(crate) struct Link {
    pub lower: u32,
    pub upper: u32,
    pub free: bool,
}

/// All of them, in the order of their lower methods. Takes time for the ties.
pub(crate) fn all_links(
    alloc: Global,
    w: &World,
    ties: &Table,
    order: &[u32],
) -> Result<Vec<Link>, NoMemory>
    requires ties { AreAllTies w.now ties.now }
    requires order { (m : ℕ) → m < length w.now.methods → Contains order.now m }
    ensures { IfOk result (λ v. AreAllLinks w.now v.items) }
{
    let mut links = Vec::new(alloc);
    for m in order {
        add_links(alloc, w, ties, *m, &mut links)?;
    }
    Ok(links)
}

/// Adds those of one method.
fn add_links(
    alloc: Global,
    w: &World,
    ties: &Table,
    m: u32,
    links: &mut Vec<Link>,
) -> Result<(), NoMemory>
    requires ties { AreAllTies w.now ties.now }
    requires links { AreLinks w.now links.old.items }
    ensures links { OnOk result (AreLinks w.now links.new.items) }
    ensures kept { OnOk result ((a t : ℕ) → HasLink links.old.items a t → HasLink links.new.items a t) }
    ensures all { OnOk result ((t : ℕ) → OverridesAtOnce w.now m t → HasLink links.new.items m t) }
{
    let ties = ties.list(alloc, m)?;
    for tie in &ties {
        if tie.1 != APART {
            links.push(Link {
                lower: m,
                upper: tie.0,
                free: tie.1 == FREE,
            })?;
        }
    }
    Ok(())
}
