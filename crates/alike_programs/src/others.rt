//! Methods of the new program that are called in the stead of others: those without which bodies and initialisers would be alike.

ghost use Rattle.std.specs.Prelude.{◌<◌, ◌^◌, length};
ghost use Rattle.running_code.specs.Running.{IsReady};
ghost use Rattle.alike_trees.specs.Compared as compared;

use crate::difference::Difference;
use crate::members::{body_at, fields_at};
use alike_trees::{Sides, Unlike};
use java_tree::{Items, NoMemory};
use program_maps::Map;
use running_code::Running;
use std::alloc::Global;

fn none_for(alloc: Global, count: usize) -> Result<Items<Option<u32>>, NoMemory> {
    let mut others = Items::new(alloc);
    for _ in 0..count {
        others.push(None)?;
    }
    Ok(others)
}

// Takes a method for one that has none yet.
fn take(others: &mut Items<Option<u32>>, old: u32, new: u32) -> bool {
    let free = match others.get(old as usize) {
        Some(None) => true,
        _ => false,
    };
    if free {
        *others.at_mut(old as usize) = Some(new);
    }
    free
}

/// Where calls are compared: in the body of a method, or in what the fields of a type begin with.
#[derive(Clone, Copy)]
enum Part {
    Body(u32),
    Fields(u32),
}

fn part_at(
    sides: &Sides<'_>,
    old: &Running<'_>,
    new: &Running<'_>,
    part: Part,
) -> Result<(), Difference>
    requires old { IsReady old.now }
    requires new { IsReady new.now }
    requires sides { compared.IsReady sides.now }
{
    match part {
        Part::Body(method) => body_at(sides, old, new, method),
        Part::Fields(class) => fields_at(sides, old, new, class),
    }
}

// The method that is called in the stead of another one where this part differs in that first.
fn other_called(
    sides: &Sides<'_>,
    old: &Running<'_>,
    new: &Running<'_>,
    part: Part,
) -> Option<(u32, u32)>
    requires old { IsReady old.now }
    requires new { IsReady new.now }
    requires sides { compared.IsReady sides.now }
{
    match part_at(sides, old, new, part) {
        Err(Difference::Tree(Unlike::Call { old, new, .. })) => Some((old, new)),
        _ => None,
    }
}

// Takes a method in whose stead another one is called, where this part differs in that first.
fn take_from(
    alloc: Global,
    old: &Running<'_>,
    new: &Running<'_>,
    map: &Map,
    strict: bool,
    others: &mut Items<Option<u32>>,
    part: Part,
) -> bool
    requires old { IsReady old.now }
    requires new { IsReady new.now }
    requires few { length new.now.world.now.types < 2 ^ 32 }
{
    let sides = Sides {
        alloc,
        map,
        others,
        world: new.world,
        strict,
    };
    match other_called(&sides, old, new, part) {
        Some((from, to)) => take(others, from, to),
        None => false,
    }
}

// Takes all methods in whose stead others are called in this part: no more than there are, and so many are looked for.
fn take_all(
    alloc: Global,
    old: &Running<'_>,
    new: &Running<'_>,
    map: &Map,
    strict: bool,
    others: &mut Items<Option<u32>>,
    part: Part,
)
    requires old { IsReady old.now }
    requires new { IsReady new.now }
    requires few { length new.now.world.now.types < 2 ^ 32 }
{
    for _ in 0..others.len() {
        if !take_from(alloc, old, new, map, strict, others, part) {
            break;
        }
    }
}

/// For each method of the old program another one of the new, where that is called in its stead. Takes a walk over each body and initialiser, and one more for each method
/// that has another.
pub(crate) fn others_called(
    alloc: Global,
    old: &Running<'_>,
    new: &Running<'_>,
    map: &Map,
    strict: bool,
) -> Result<Items<Option<u32>>, NoMemory>
    requires old { IsReady old.now }
    requires new { IsReady new.now }
    requires few { length new.now.world.now.types < 2 ^ 32 }
{
    let mut others = none_for(alloc, old.world.methods.len())?;
    let Ok(methods) = u32::try_from(old.world.methods.len()) else {
        return Ok(others);
    };
    let Ok(classes) = u32::try_from(old.world.types.len()) else {
        return Ok(others);
    };
    for method in 0..methods {
        take_all(
            alloc,
            old,
            new,
            map,
            strict,
            &mut others,
            Part::Body(method),
        );
    }
    for class in 0..classes {
        take_all(
            alloc,
            old,
            new,
            map,
            strict,
            &mut others,
            Part::Fields(class),
        );
    }
    Ok(others)
}
