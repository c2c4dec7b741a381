//! The plan of an extraction.

ghost use Rattle.std.specs.Prelude.{◌≡◌, map, IfOk};
ghost use Rattle.std.specs.List.Sorted.{IsStrictlyIncreasing};
ghost use Rattle.kept_places.specs.Kept.{IsAscending};
ghost use Rattle.extract_interface.specs.Plans as spec;

use crate::asked::Class;
use crate::declared::Declaration;
use java_tree::{Items, NoMemory};
use kept_places::Kept;
use std::alloc::Global;

/// The class, its declaration, and its methods that the new interface gets, by number.
#[derive(Clone, Copy)]
pub(crate) struct Plan<'a> {
    pub class: Class<'a>,
    pub methods: &'a [u32],
    pub declared: Declaration<'a>,
}

/// The numbers of the places.
pub(crate) fn places_of(alloc: Global, kept: &[Kept]) -> Result<Items<u32>, NoMemory>
    requires { IsAscending kept.now }
    ensures places { IfOk result (λ r. r ≡ map spec.place_of kept.now) }
    ensures ascending { IfOk result (λ r. IsStrictlyIncreasing r) }
{
    let mut places = Items::new(alloc);
    for it in kept {
        places.push(it.place)?;
    }
    Ok(places)
}
