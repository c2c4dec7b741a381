//! Whether what is built in keeps its numbers.

ghost use Rattle.std.specs.Prelude.{◌≡◌, ◌↔◌, IsTrue};
ghost use Rattle.program_maps.specs.Ways.{goes_to, ways};
ghost use Rattle.alike_tables.specs.Tables.{IsBuiltInKept, StaysBelow, StaysFrom};

use program_maps::{Map, Numbers, goes};

// How many types, and how many methods and constructors are built in. The field of number 0 is System.out.
const TYPES: u32 = 19;

const MEMBERS: u32 = 59;

/// Whether each number below a count goes to itself.
fn stays_below(numbers: &Numbers, count: u32) -> bool
    ensures { IsTrue result ↔ StaysBelow count (goes_to numbers.now) }
{
    for number in 0..count {
        if !goes(numbers, number, number) {
            return false;
        }
    }
    true
}

/// Whether no other number goes to one below the count.
fn stays_from(numbers: &Numbers, count: u32) -> bool
    ensures { IsTrue result ↔ StaysFrom count (goes_to numbers.now) }
{
    for (number, to) in numbers.to.as_slice().iter().enumerate() {
        if count as usize <= number && *to < count {
            return false;
        }
    }
    true
}

pub(crate) fn is_built_in_kept(map: &Map) -> bool
    ensures { IsTrue result ↔ IsBuiltInKept (ways map.now) }
{
    stays_below(&map.types, TYPES)
        && stays_below(&map.fields, 1)
        && stays_below(&map.methods, MEMBERS)
        && stays_from(&map.methods, MEMBERS)
}
