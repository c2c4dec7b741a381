//! The fields that each type declares.

ghost use Rattle.std.specs.Prelude.{◌≡◌, ℕ, ◌<◌, ◌≤◌, ◌^◌, ◌↔◌, ◌⊎◌, length, IfOk, OnOk};
ghost use Rattle.member_fields.specs.Own.{HasOwn, ListsFields, NamesBelow};

use class_world::World;
use java_tree::{Items, NoMemory};
use std::alloc::Global;

/// A number above those of all fields' names. `NoMemory` where no `u32` is.
pub(crate) fn name_limit(w: &World) -> Result<u32, NoMemory>
    ensures { IfOk result (λ n. NamesBelow w.now n) }
{
    let mut limit = 0;
    for field in w.fields.as_slice() {
        let name = field.name.0;
        if name >= limit {
            if name == u32::MAX {
                return Err(NoMemory);
            }
            limit = name + 1;
        }
    }
    Ok(limit)
}

/// The numbers of the fields that each type declares, by the type's number. There is a list for each type, and for each number up to the largest that a field has as its owner.
pub(crate) fn own_fields(alloc: Global, w: &World) -> Result<Vec<Items<u32>>, NoMemory>
    requires { length w.now.fields < 2 ^ 32 }
    ensures { IfOk result (λ own. ListsFields w.now own.items) }
{
    let mut own = Vec::new(alloc);
    for _ in 0..w.types.len() {
        own.push(Items::new(alloc))?;
    }
    for (f, field) in w.fields.as_slice().iter().enumerate() {
        add_own(alloc, field.owner, f as u32, &mut own)?;
    }
    Ok(own)
}

/// Adds a field to its owner's list, and the lists up to that one where they are missing.
fn add_own(alloc: Global, owner: u32, f: u32, own: &mut Vec<Items<u32>>) -> Result<(), NoMemory>
    ensures size { OnOk result (length own.old.items ≤ length own.new.items) }
    ensures added { OnOk result ((c g : ℕ) → HasOwn own.new.items c g ↔ (HasOwn own.old.items c g ⊎ ((c ≡ owner) × (g ≡ f)))) }
{
    let at = owner as usize;
    for _ in own.len()..at + 1 {
        own.push(Items::new(alloc))?;
    }
    own[at].push(f)?;
    Ok(())
}
