//! Where numbers stand in a list, for numbers that lie close together.

ghost use Rattle.std.specs.Prelude.{◌≡◌, ◌<◌, ◌≤◌, ℕ, length, IfOk, OnOk};
ghost use Rattle.running_code.specs.Places as spec;
ghost use Rattle.running_code.specs.Places.{IsGrown, IsPut, IsPutIn, ArePlaces};

use java_tree::NoMemory;
use std::alloc::Global;

/// For each number the place where it stands first. `above` has the places from the number `from` on upwards, `below` those of smaller numbers downwards: both are as
/// long as the numbers lie apart.
#[derive(Drop)]
pub(crate) struct Places {
    from: u32,
    above: Vec<Option<usize>>,
    below: Vec<Option<usize>>,
}

fn place_at(row: &[Option<usize>], at: u32) -> Option<usize>
    ensures { result ≡ spec.place_at row.now at }
{
    match row.get(at as usize) {
        Some(place) => *place,
        None => None,
    }
}

/// The place of a number.
pub(crate) fn place(t: &Places, number: u32) -> Option<usize>
    ensures { result ≡ spec.place t.now number }
{
    if number < t.from {
        place_at(t.below.as_slice(), t.from - 1 - number)
    } else {
        place_at(t.above.as_slice(), number - t.from)
    }
}

fn grow(row: &mut Vec<Option<usize>>, at: u32) -> Result<(), NoMemory>
    ensures { OnOk result (IsGrown row.old.items row.new.items at) }
{
    while row.len() <= at as usize {
        row.push(None)?;
    }
    Ok(())
}

// Puts a place where there is none yet.
fn put_at(row: &mut Vec<Option<usize>>, at: u32, place: usize) -> Result<(), NoMemory>
    ensures { OnOk result (IsPutIn row.old.items row.new.items at place) }
{
    grow(row, at)?;
    if row[at as usize].is_none() {
        row[at as usize] = Some(place);
    }
    Ok(())
}

fn put(t: &mut Places, number: u32, place: usize) -> Result<(), NoMemory>
    ensures { OnOk result (IsPut t.old t.new number place) }
{
    if number < t.from {
        put_at(&mut t.below, t.from - 1 - number, place)
    } else {
        put_at(&mut t.above, number - t.from, place)
    }
}

/// The first places of these numbers.
pub(crate) fn places_of(alloc: Global, numbers: &[u32]) -> Result<Places, NoMemory>
    ensures { IfOk result (λ t. ArePlaces t numbers.now) }
{
    let from = match numbers.first() {
        Some(number) => *number,
        None => 0,
    };
    let mut t = Places {
        from,
        above: Vec::new(alloc),
        below: Vec::new(alloc),
    };
    for (at, number) in numbers.iter().enumerate() {
        put(&mut t, *number, at)?;
    }
    Ok(t)
}
