//! The methods in an order in which those of a class's supertypes come before its own.

ghost use Rattle.std.specs.Prelude.{◌≡◌, ◌<◌, ◌↔◌, ℕ, IfOk, length};
ghost use Rattle.std.specs.List.{Contains};
ghost use Rattle.class_world.specs.Sound.{IsSound};

use class_world::{World, supers_first};
use java_tree::NoMemory;
use std::alloc::Global;

/// The place of each type in a sequence in which those of its supertypes come first.
fn places(alloc: Global, w: &World) -> Result<Vec<usize>, NoMemory>
    requires { IsSound w.now }
{
    let sequence = supers_first(alloc, w)?;
    let mut places = vec![in alloc; 0; w.types.len()]?;
    for (at, c) in sequence.iter().enumerate() {
        places[*c as usize] = at;
    }
    Ok(places)
}

/// The place of the type that declares a method.
fn place_of(w: &World, places: &[usize], m: u32) -> usize {
    match w.methods.get(m as usize) {
        Some(info) => match places.get(info.owner as usize) {
            Some(place) => *place,
            None => 0,
        },
        None => 0,
    }
}

/// The numbers of all methods.
fn all_methods(alloc: Global, w: &World) -> Result<Vec<u32>, NoMemory>
    ensures { IfOk result (λ v. (m : ℕ) → Contains v.items m ↔ (m < length w.now.methods)) }
{
    // More methods than numbers find no room in the memory of any machine.
    if w.methods.len() > u32::MAX as usize {
        return Err(NoMemory);
    }
    let mut methods = Vec::new(alloc);
    for m in 0..w.methods.len() as u32 {
        methods.push(m)?;
    }
    Ok(methods)
}

/// The numbers of all methods, those of a class's supertypes before its own. Takes the time of sorting them.
///
/// Only the time of the search hangs on the order, and so the contract does not speak of it.
pub(crate) fn in_order(alloc: Global, w: &World) -> Result<Vec<u32>, NoMemory>
    requires { IsSound w.now }
    ensures { IfOk result (λ v. (m : ℕ) → Contains v.items m ↔ (m < length w.now.methods)) }
{
    let places = places(alloc, w)?;
    let mut methods = all_methods(alloc, w)?;
    methods.sort_by_key(|m| place_of(w, places.as_slice(), *m))?;
    Ok(methods)
}
