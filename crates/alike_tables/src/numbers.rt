//! Where numbers of the map go.

ghost use Rattle.std.specs.Prelude.{◌≡◌, ◌↔◌, ◌<◌, length, IsTrue};
ghost use Rattle.std.specs.Option.{option_map};
ghost use Rattle.program_maps.specs.Ways.{goes_to};
ghost use Rattle.alike_tables.specs.Tables.{HasPlaces};

use program_maps::{Numbers, goes};

/// Where a number of the list goes.
pub(crate) fn target(numbers: &Numbers, from: u32) -> u32
    requires { from < length numbers.now.to }
    ensures { result ≡ goes_to numbers.now from }
{
    numbers.to.as_slice()[from as usize]
}

/// Whether a look-up of the new program finds what the old one does, through the map.
pub(crate) fn is_led(numbers: &Numbers, before: Option<u32>, after: Option<u32>) -> bool
    ensures { IsTrue result ↔ (after ≡ option_map (goes_to numbers.now) before) }
{
    match before {
        None => after.is_none(),
        Some(from) => match after {
            None => false,
            Some(to) => goes(numbers, from, to),
        },
    }
}

/// Whether the map has a place for each number of the old program, and leads all others behind those of the new one.
pub(crate) fn has_places(numbers: &Numbers, before: usize, after: usize) -> bool
    ensures { IsTrue result ↔ HasPlaces numbers.now before after }
{
    numbers.to.len() == before && after <= numbers.back.len()
}
