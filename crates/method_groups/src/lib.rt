//! The groups of methods: a method with those beside it in some type (JLS 3rd edition, 8.4.8 and 8.4.9), and the constructors of a class (8.8), by number of parameters.
#![tactic(auto)]

ghost use Rattle.std.specs.Prelude.{◌<◌, ◌↔◌, ℕ, IfOk, length};
ghost use Rattle.std.specs.List.{Contains};
ghost use Rattle.std.specs.List.Sorted.{IsStrictlyIncreasing};
ghost use Rattle.class_world.specs.declared.world.World as worlds;
ghost use Rattle.class_world.specs.Inheritance.{IsGrouped};
ghost use Rattle.class_world.specs.Sound.{IsSound};
ghost use Rattle.member_methods.specs.Methods.{HoldsMethods};
ghost use Rattle.method_groups.specs.Groups.{HoldsGroups};

mod constructors;
mod differences;
mod labels;
mod made;
mod overloads;
mod taking;
mod types;

use class_world::World;
use constructors::all_constructors;
use java_tree::{Items, NoMemory};
use made::all_groups;
use member_methods::MethodLists;
use std::alloc::Global;
use types::labels_of;

/// The groups of all methods, each once, and the place of each method's.
#[derive(Drop)]
pub struct MethodGroups {
    places: Vec<u32>,
    groups: Vec<Items<u32>>,
}

impl MethodGroups {
    /// The groups of the methods of a sound world. `NoMemory` also where it has 2^32 methods or types.
    ///
    /// Takes time and memory for the methods that the types have as members, each as often as there are types that have it. Beyond that, each different group takes memory for its numbers. It takes time for sorting these, and for what is added for the overloads that its methods stand among and those of no smaller group do: a step for each method of each of them, and no memory where the group has the method already. So it is more than linear where methods of one type stand beside different others elsewhere: n such methods have n groups, each of n numbers or more.
    ///
    /// What is added for overloads are all of their methods; or, for methods that stood among the same overloads before as most of the others, only those that these lack. So where each of n subclasses overrides one of n methods, the groups take time for their numbers, and for sorting them. Worst are n types of n overloads each, of which those that come one after the other differ in most: n groups of n numbers each, and a step for each overload of each type for each group, so n * n * n steps.
    pub fn of(alloc: Global, w: &World, lists: &MethodLists) -> Result<MethodGroups, NoMemory>
        requires sound { IsSound w.now }
        requires lists { HoldsMethods w.now lists.now }
        ensures { IfOk result (λ t. HoldsGroups w.now t) }
    {
        let labels = labels_of(alloc, w, lists)?;
        let constructors = all_constructors(alloc, w)?;
        all_groups(alloc, w, lists, &labels, constructors)
    }

    /// The group of a method of the world, by number, ascending; the method is in it. Takes no memory.
    pub fn get(&self, m: u32) -> &[u32]
        ensures { (w : worlds.World) → HoldsGroups w self.now → m < length w.methods → ((k : ℕ) → Contains result.now k ↔ IsGrouped w m k) × IsStrictlyIncreasing result.now }
    {
        match self.places.get(m as usize) {
            Some(place) => match self.groups.get(*place as usize) {
                Some(list) => list.as_slice(),
                None => &[],
            },
            None => &[],
        }
    }
}
