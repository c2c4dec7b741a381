//! Ascending lists of numbers, and the list of full names.

ghost use Rattle.std.specs.Prelude.{◌≡◌, ◌≤◌, length, IfNone, IfSome, IfOk};
ghost use Rattle.std.specs.Cmp.Lexicographic.{slice_cmp};
ghost use Rattle.std.specs.List.{insert};
ghost use Rattle.std.specs.List.Sorted.{IsStrictlyIncreasing};
ghost use Rattle.std.specs.Ordering.{nat_cmp};
ghost use Rattle.interface_text.specs.Imports as spec;
ghost use Rattle.interface_text.specs.Types.{is_among};

use java_tree::{Items, NoMemory};
use std::cmp::Ordering;

/// Whether the number is one of the ascending list; halves the list at each step.
pub fn is_among(xs: &[u32], x: u32) -> bool
    requires { IsStrictlyIncreasing xs.now }
    ensures { result ≡ is_among xs.now x }
{
    xs.binary_search(&x).is_ok()
}

// How the name compares with another, byte by byte.
fn compared(name: &[u8], other: &Items<u8>) -> Ordering
    ensures { result ≡ slice_cmp nat_cmp name.now other.now }
{
    name.cmp(other.as_slice())
}

// The place of a name among ascending ones, where it is not there yet.
fn place_of(name: &[u8], found: &[Items<u8>]) -> Option<usize>
    ensures none { IfNone result (spec.put name.now found.now ≡ found.now) }
    ensures some { IfSome result (λ at. spec.put name.now found.now ≡ insert found.now at name.now) }
    ensures within { IfSome result (λ at. at ≤ length found.now) }
{
    for (at, other) in found.iter().enumerate() {
        match compared(name, other) {
            Ordering::Less => return Some(at),
            Ordering::Equal => return None,
            Ordering::Greater => {}
        }
    }
    Some(found.len())
}

/// Ascending names with one more, if it is not there yet.
pub(crate) fn put(name: Vec<u8>, found: Items<Items<u8>>) -> Result<Items<Items<u8>>, NoMemory>
    ensures { IfOk result (λ r. r ≡ spec.put name.items found) }
{
    match place_of(name.as_slice(), found.as_slice()) {
        None => Ok(found),
        Some(at) => {
            let mut found = found.into_vec();
            found.insert(at, Items::from_vec(name))?;
            Ok(Items::from_vec(found))
        }
    }
}
