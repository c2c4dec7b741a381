//! The member methods of each type, by name and number of parameters (JLS 3rd edition, 8.4.8, 9.2 and 9.4.1).
#![tactic(auto)]

ghost use Rattle.std.specs.Prelude.{◌≡◌, ◌↔◌, ℕ, IfOk};
ghost use Rattle.std.specs.List.{Contains};
ghost use Rattle.class_world.specs.declared.world.World as worlds;
ghost use Rattle.class_world.specs.Sound.{IsSound};
ghost use Rattle.member_methods.specs.Methods.{AreFromInterfaces, AreInheritable, AreMembers, AreNamed, HoldsMethods, IsListedAt};
ghost use Rattle.member_methods.specs.Methods as spec;

mod above;
mod keys;
mod lists;
mod made;
mod own;
mod signature_set;
mod signatures;
mod tables;

use class_world::World;
use java_tree::NoMemory;
use java_tree::tree::Name;
use keys::Key;
use made::all_made;
use shared_maps::Map;
use std::alloc::Global;
use std::collections::HashMap;
use tables::Tables;

/// The member methods of all types, by type, name and number of parameters; and what the types directly above each hand down to it, all of them and its direct superinterfaces alone.
#[derive(Drop)]
pub struct MethodLists {
    keys: HashMap<Key, u32>,
    tables: Tables,
    members: Vec<Map>,
    inheritable: Vec<Map>,
    from_interfaces: Vec<Map>,
}

impl MethodLists {
    /// The member methods of all types of a sound world.
    ///
    /// Takes time for the types, their methods with the parts of their parameter types, and what the types directly above each do not share: the names and numbers of parameters that one has from elsewhere than the others, and the lists that differ, as often as the number of those types can be halved, and once more; all times the bits of a method's number. Where a type declares methods of a name and number of parameters, each that it has of them from above takes the time of finding the arguments of the type that declares it, and of its parameter types.
    pub fn of(alloc: Global, w: &World) -> Result<MethodLists, NoMemory>
        requires { IsSound w.now }
        ensures { IfOk result (λ t. HoldsMethods w.now t) }
    {
        let (keys, keyed) = keys::keyed(alloc, w)?;
        let made = all_made(alloc, w, keyed.as_slice())?;
        Ok(MethodLists {
            keys,
            tables: made.tables,
            members: made.members,
            inheritable: made.inheritable,
            from_interfaces: made.from_interfaces,
        })
    }

    /// The numbers of the member methods of the type `owner` with this name and so many parameters, ascending; those that count as one too. Constructors are no members. Takes no memory.
    pub fn named(&self, owner: u32, name: Name, arity: usize) -> &[u32]
        ensures { (w : worlds.World) → HoldsMethods w self.now → AreNamed w owner name arity result.now }
    {
        self.listed(self.members.as_slice(), owner, name, arity)
    }

    /// The numbers of the methods with this name and so many parameters that the type `owner` inherits unless one of its own takes their place: the members of the types directly above it that are not private, ascending. Takes no memory.
    pub fn inheritable(&self, owner: u32, name: Name, arity: usize) -> &[u32]
        ensures { (w : worlds.World) → HoldsMethods w self.now → AreInheritable w owner name arity result.now }
    {
        self.listed(self.inheritable.as_slice(), owner, name, arity)
    }

    /// What one of the maps lists for a name and a number of parameters; nothing where there is no such map.
    fn listed(&self, maps: &[Map], owner: u32, name: Name, arity: usize) -> &[u32]
        ensures { result.now ≡ spec.listed_in self.now maps.now owner name arity }
    {
        let Some(key) = self.keys.get(&Key {
            name: name.0,
            arity,
        })
        else {
            return &[];
        };
        match maps.get(owner as usize) {
            Some(map) => self.tables.listed(*map, *key),
            None => &[],
        }
    }

    /// The numbers of all member methods of the type `owner`. Takes time for them and for their names, each times the bits of a method's number.
    pub fn all(&self, alloc: Global, owner: u32) -> Result<Vec<u32>, NoMemory>
        ensures { (w : worlds.World) → HoldsMethods w self.now → IfOk result (λ v. AreMembers w owner v.items) }
    {
        self.all_listed(alloc, self.members.as_slice(), owner)
    }

    /// The numbers of the methods that the type `owner` inherits from its direct superinterfaces unless one of its own takes their place: the members of these that are not private, ascending. Takes time for them and for their names, each times the bits of a method's number; what several superinterfaces share is looked at once.
    pub fn from_interfaces(&self, alloc: Global, owner: u32) -> Result<Vec<u32>, NoMemory>
        ensures { (w : worlds.World) → HoldsMethods w self.now → IfOk result (λ v. AreFromInterfaces w owner v.items) }
    {
        let mut methods = self.all_listed(alloc, self.from_interfaces.as_slice(), owner)?;
        methods.sort_unstable();
        methods.dedup();
        Ok(methods)
    }

    /// All that one of the maps lists; nothing where there is no such map.
    fn all_listed(&self, alloc: Global, maps: &[Map], owner: u32) -> Result<Vec<u32>, NoMemory>
        ensures { IfOk result (λ v. (m : ℕ) → Contains v.items m ↔ IsListedAt self.now maps.now owner m) }
    {
        match maps.get(owner as usize) {
            Some(map) => self.tables.all_listed(alloc, *map),
            None => Ok(Vec::new(alloc)),
        }
    }
}
