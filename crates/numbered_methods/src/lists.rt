//! The lists of numbers.

ghost use Rattle.std.specs.Prelude.{◌≡◌, ◌++◌, ◌∷◌, [], ℕ, OnOk, nat_eq};
ghost use Rattle.std.specs.HashMap.{get};
ghost use Rattle.numbered_methods.specs.Added.{items_at};

use java_tree::{Items, NoMemory};
use std::alloc::Global;
use std::collections::HashMap;

/// Adds a method to the list of a number.
pub(crate) fn add_to(
    alloc: Global,
    lists: &mut HashMap<u32, Items<u32>>,
    number: u32,
    m: u32,
) -> Result<(), NoMemory>
    ensures here { OnOk result (items_at (get nat_eq lists.new) number ≡ items_at (get nat_eq lists.old) number ++ m ∷ []) }
    ensures others { OnOk result ((n : ℕ) → (n ≡ number → ⊥) → items_at (get nat_eq lists.new) n ≡ items_at (get nat_eq lists.old) n) }
{
    let mut list = lists.remove(&number).unwrap_or(Items::new(alloc));
    list.push(m)?;
    lists.insert(number, list)?;
    Ok(())
}
