//! Lists of methods, by number.

ghost use Rattle.std.specs.Prelude.{◌≡◌, ◌↔◌, ℕ, List, Some, IfOk, OnOk, IsTrue, slice_get};
ghost use Rattle.std.specs.List.{Contains};
ghost use Rattle.std.specs.List.Sorted.{IsStrictlyIncreasing};
ghost use Rattle.counted_methods.specs.Made.{Grows};

use java_tree::{Items, NoMemory};

/// Whether the number is one of the ascending list; halves the list at each step.
pub(crate) fn is_among(xs: &[u32], x: u32) -> bool
    requires { IsStrictlyIncreasing xs.now }
    ensures { IsTrue result ↔ Contains xs.now x }
{
    xs.binary_search(&x).is_ok()
}

/// Whether this is the list with the number.
fn is_list(lists: &[Items<u32>], number: u32, list: &[u32]) -> bool
    ensures { IsTrue result → slice_get lists.now number ≡ Some list.now }
{
    match lists.get(number as usize) {
        Some(found) => found.as_slice() == list,
        None => false,
    }
}

/// The number of a list: `shared`, if that is its number already, or else a new one.
pub(crate) fn add_list(
    lists: &mut Items<Items<u32>>,
    shared: Option<u32>,
    list: Vec<u32>,
) -> Result<u32, NoMemory>
    ensures list { IfOk result (λ n. slice_get lists.new n ≡ Some list.items) }
    ensures grows { OnOk result (Grows lists.old lists.new) }
{
    if let Some(number) = shared {
        if is_list(lists.as_slice(), number, list.as_slice()) {
            return Ok(number);
        }
    }
    let Ok(number) = u32::try_from(lists.len()) else {
        return Err(NoMemory);
    };
    lists.push(Items::from_vec(list))?;
    Ok(number)
}
