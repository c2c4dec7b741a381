//! The maps of changes that leave all numbers as they are, or put a type in.

ghost use Rattle.std.specs.Prelude.{◌≡◌, ℕ, ◌+◌, ◌<◌, length, slice_get, Some, IfOk, IfSome};
ghost use Rattle.program_maps.specs.Ways.{LeadsBack};
ghost use Rattle.kept_behaviour.specs.Kept.{ShiftsIn, StaysIn, shifted};

use class_world::World;
use java_tree::{Items, NoMemory};
use program_maps::{Map, Numbers, identity};
use std::alloc::Global;

/// Where the numbers of a program stand once a type with so many methods is put behind others: its own number, and that of its first method.
#[derive(Clone, Copy, Debug, PartialEq, Eq)]
pub struct Inserted {
    pub at: u32,
    pub first_method: u32,
    pub methods: u32,
}

// More than 32 bits number is want of memory too.
fn numbered(count: usize) -> Result<u32, NoMemory>
    ensures { IfOk result (λ n. n ≡ count) }
{
    match u32::try_from(count) {
        Ok(count) => Ok(count),
        Err(_) => Err(NoMemory),
    }
}

fn sum(a: u32, b: u32) -> Result<u32, NoMemory>
    ensures { IfOk result (λ n. n ≡ a + b) }
{
    match a.checked_add(b) {
        Some(sum) => Ok(sum),
        None => Err(NoMemory),
    }
}

// Each number below a count to itself.
fn same(alloc: Global, count: usize) -> Result<Numbers, NoMemory>
    ensures { IfOk result (λ x. StaysIn count x) }
{
    identity(alloc, numbered(count)?)
}

// Where a number stands once so many are put in from a number on.
fn place_of(number: u32, from: u32, by: u32) -> Result<u32, NoMemory>
    ensures { IfOk result (λ to. to ≡ shifted from by number) }
{
    if number < from {
        Ok(number)
    } else {
        sum(number, by)
    }
}

// The number that then stands at a place: none where one was put in.
fn number_at(place: u32, from: u32, by: u32) -> Option<u32>
    ensures here { (k : ℕ) → place ≡ shifted from by k → result ≡ Some k }
    ensures only { IfSome result (λ k. place ≡ shifted from by k) }
{
    if place < from {
        return Some(place);
    }
    if place - from < by {
        return None;
    }
    Some(place - by)
}

// Where the numbers below a count stand.
fn places_of(alloc: Global, count: u32, from: u32, by: u32) -> Result<Items<u32>, NoMemory>
    ensures size { IfOk result (λ to. length to ≡ count) }
    ensures each { IfOk result (λ to. (k : ℕ) → k < count → slice_get to k ≡ Some (shifted from by k)) }
{
    let mut to = Items::new(alloc);
    for number in 0..count {
        to.push(place_of(number, from, by)?)?;
    }
    Ok(to)
}

// The numbers that stand at the places below a count.
fn numbers_at(alloc: Global, count: u32, from: u32, by: u32) -> Result<Items<Option<u32>>, NoMemory>
    ensures size { IfOk result (λ back. length back ≡ count) }
    ensures each { IfOk result (λ back. (k : ℕ) → shifted from by k < count → slice_get back (shifted from by k) ≡ Some (Some k)) }
{
    let mut back = Items::new(alloc);
    for place in 0..count {
        back.push(number_at(place, from, by))?;
    }
    Ok(back)
}

// Each number below a count to where it stands once so many are put in from a number on.
fn shifted_numbers(alloc: Global, count: usize, from: u32, by: u32) -> Result<Numbers, NoMemory>
    ensures to { IfOk result (λ x. ShiftsIn count from by x) }
    ensures back { IfOk result (λ x. LeadsBack x) }
    ensures to_size { IfOk result (λ x. length x.to ≡ count) }
    ensures back_size { IfOk result (λ x. length x.back ≡ count + by) }
{
    let count = numbered(count)?;
    let to = places_of(alloc, count, from, by)?;
    let back = numbers_at(alloc, sum(count, by)?, from, by)?;
    Ok(Numbers { to, back })
}

/// Each type, method and field of a world to itself.
pub(crate) fn same_numbers(alloc: Global, world: &World) -> Result<Map, NoMemory>
    ensures types { IfOk result (λ m. StaysIn (length world.now.types) m.types) }
    ensures methods { IfOk result (λ m. StaysIn (length world.now.methods) m.methods) }
    ensures fields { IfOk result (λ m. StaysIn (length world.now.fields) m.fields) }
{
    let types = same(alloc, world.types.len())?;
    let methods = same(alloc, world.methods.len())?;
    let fields = same(alloc, world.fields.len())?;
    Ok(Map {
        types,
        methods,
        fields,
    })
}

/// Each type, method and field of a world to where it stands once a type is put in.
pub(crate) fn numbers_with(
    alloc: Global,
    world: &World,
    inserted: Inserted,
) -> Result<Map, NoMemory>
    ensures types { IfOk result (λ m. ShiftsIn (length world.now.types) inserted.at 1 m.types) }
    ensures methods { IfOk result (λ m. ShiftsIn (length world.now.methods) inserted.first_method inserted.methods m.methods) }
    ensures fields { IfOk result (λ m. StaysIn (length world.now.fields) m.fields) }
{
    let types = shifted_numbers(alloc, world.types.len(), inserted.at, 1)?;
    let methods = shifted_numbers(
        alloc,
        world.methods.len(),
        inserted.first_method,
        inserted.methods,
    )?;
    let fields = same(alloc, world.fields.len())?;
    Ok(Map {
        types,
        methods,
        fields,
    })
}
