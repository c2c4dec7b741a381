//! Where numbers go and come from.

ghost use Rattle.std.specs.Prelude.{◌≡◌, ℕ, ◌<◌, ◌≤◌, length, Some, IfSome, IfNone};
ghost use Rattle.program_maps.specs.Ways.{LeadsBack, goes_to};

use program_maps::Numbers;

/// Where a number of the list goes.
pub(crate) fn image(numbers: &Numbers, from: u32) -> Option<u32>
    ensures some { IfSome result (λ to. to ≡ goes_to numbers.now from) }
    ensures none { IfNone result (length numbers.now.to ≤ from) }
{
    numbers.to.get(from as usize).copied()
}

/// The number that goes to another one, if one does.
pub(crate) fn source(numbers: &Numbers, to: u32) -> Option<u32>
    ensures { LeadsBack numbers.now → to < length numbers.now.back → (from : ℕ) → goes_to numbers.now from ≡ to → result ≡ Some from }
{
    match numbers.back.get(to as usize) {
        Some(from) => *from,
        None => None,
    }
}
