//! Maps of numbers.

ghost use Rattle.std.specs.Prelude.{◌≡◌, ◌↔◌, ℕ, ◌<◌, ◌≤◌, ◌^◌, length, slice_get, IsTrue, IfOk, MatchOption, Some, None};
ghost use Rattle.program_maps.specs.Ways.{IsOneToOne, LeadsBack, goes_to};

use java_tree::{Items, NoMemory};
use std::alloc::Global;

/// Where the numbers of one kind go, and which come from where. Numbers beyond the list go behind all that are there.
#[derive(Drop)]
pub struct Numbers {
    pub to: Items<u32>,
    pub back: Items<Option<u32>>,
}

/// Where the types, methods and fields of a program stand in another one.
#[derive(Drop)]
pub struct Map {
    pub types: Numbers,
    pub methods: Numbers,
    pub fields: Numbers,
}

/// Each number below a count to itself.
pub fn identity(alloc: Global, count: u32) -> Result<Numbers, NoMemory>
    ensures same { IfOk result (λ x. (i : ℕ) → i < count → goes_to x i ≡ i) }
    ensures back { IfOk result (λ x. LeadsBack x) }
    ensures to_size { IfOk result (λ x. length x.to ≡ count) }
    ensures back_size { IfOk result (λ x. length x.back ≡ count) }
{
    let mut to = Items::new(alloc);
    let mut back = Items::new(alloc);
    for number in 0..count {
        to.push(number)?;
        back.push(Some(number))?;
    }
    Ok(Numbers { to, back })
}

/// Where a number goes: `None` where that is no number of 32 bits.
pub fn gone(numbers: &Numbers, from: u32) -> Option<u32>
    ensures { MatchOption result (2 ^ 32 ≤ goes_to numbers.now from) (λ to. to ≡ goes_to numbers.now from) }
{
    match numbers.to.get(from as usize) {
        Some(to) => Some(*to),
        None => {
            let behind = numbers.back.len().checked_add(from as usize)?;
            u32::try_from(behind).ok()
        }
    }
}

/// Whether a number goes to another one.
pub fn goes(numbers: &Numbers, from: u32, to: u32) -> bool
    ensures { IsTrue result ↔ (to ≡ goes_to numbers.now from) }
{
    match gone(numbers, from) {
        None => false,
        Some(number) => number == to,
    }
}

fn leads_to(numbers: &Numbers, to: u32, from: usize) -> bool
    ensures { IsTrue result ↔ (slice_get numbers.now.back to ≡ Some (Some from)) }
{
    match numbers.back.get(to as usize) {
        None => false,
        Some(None) => false,
        Some(Some(number)) => *number as usize == from,
    }
}

/// Whether each number of the list is led back as it came. Then no two numbers go to one.
pub fn is_one_to_one(numbers: &Numbers) -> bool
    ensures is { IsTrue result ↔ LeadsBack numbers.now }
    ensures so { IsTrue result → IsOneToOne (goes_to numbers.now) }
{
    all_lead_back(numbers)
}

fn all_lead_back(numbers: &Numbers) -> bool
    ensures { IsTrue result ↔ LeadsBack numbers.now }
{
    for (from, to) in numbers.to.as_slice().iter().enumerate() {
        if !leads_to(numbers, *to, from) {
            return false;
        }
    }
    true
}
