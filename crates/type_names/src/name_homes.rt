//! The packages that have a type of a name.

ghost use Rattle.std.specs.Prelude.{◌≡◌, ◌++◌, ◌∷◌, [], ℕ, IfOk, OnOk, nat_eq};
ghost use Rattle.std.specs.HashMap.{get};
ghost use Rattle.type_names.specs.Tables.{list_at, homes_of, AreHomes};

use crate::known::Known;
use java_tree::tree::Name;
use java_tree::{Items, NoMemory};
use std::alloc::Global;
use std::collections::HashMap;

/// The packages, by number, that have a type of a name.
#[derive(Drop)]
pub(crate) struct NameHomes {
    homes: HashMap<u32, Items<usize>>,
}

impl NameHomes {
    /// Takes time for the types, and memory for a number of each.
    pub(crate) fn of(alloc: Global, types: &[Known]) -> Result<NameHomes, NoMemory>
        ensures { IfOk result (AreHomes types.now) }
    {
        let mut homes = HashMap::new(alloc);
        for known in types {
            add_home(alloc, &mut homes, known.name.0, known.package)?;
        }
        Ok(NameHomes { homes })
    }

    /// The packages of the types of a name, one for each type.
    pub(crate) fn get(&self, name: Name) -> &[usize]
        ensures { result.now ≡ homes_of self.now name.0 }
    {
        match self.homes.get(&name.0) {
            Some(packages) => packages.as_slice(),
            None => &[],
        }
    }
}

fn add_home(
    alloc: Global,
    homes: &mut HashMap<u32, Items<usize>>,
    name: u32,
    package: usize,
) -> Result<(), NoMemory>
    ensures here { OnOk result (list_at (get nat_eq homes.new) name ≡ list_at (get nat_eq homes.old) name ++ «package» ∷ []) }
    ensures others { OnOk result ((x : ℕ) → (x ≡ name → ⊥) → list_at (get nat_eq homes.new) x ≡ list_at (get nat_eq homes.old) x) }
{
    let mut packages = homes.remove(&name).unwrap_or(Items::new(alloc));
    packages.push(package)?;
    homes.insert(name, packages)?;
    Ok(())
}
