//! Constructors by their class and their number of parameters (JLS 3rd edition, 8.8).

ghost use Rattle.std.specs.Prelude.{◌≡◌, ◌<◌, ◌↔◌, ◌⊎◌, ℕ, IfOk, OnOk};
ghost use Rattle.method_groups.specs.Constructors.{AreLists, IsListed, found_in};
ghost use Rattle.method_groups.specs.Constructors as spec;
ghost use Rattle.method_groups.specs.Groups.{HoldsConstructors};
ghost use Rattle.method_groups.specs.declared.constructors.Shape as the_shape;

use class_world::{MethodInfo, World};
use java_tree::{Items, NoMemory};
use std::alloc::Global;
use std::collections::HashMap;

/// A class, by number, and a number of parameters.
#[derive(Clone, Copy, PartialEq, Eq, Hash)]
pub(crate) struct Shape {
    pub(crate) owner: u32,
    pub(crate) arity: usize,
}

/// Lists of constructors, and the place of each shape's list.
#[derive(Drop)]
pub(crate) struct Constructors {
    pub(crate) places: HashMap<Shape, u32>,
    pub(crate) lists: Vec<Items<u32>>,
}

/// The shape of a constructor.
pub(crate) fn shape_of(info: &MethodInfo) -> Shape
    ensures { result ≡ spec.shape_of info.now }
{
    Shape {
        owner: info.owner,
        arity: info.params.len(),
    }
}

/// All constructors of a world. Takes time for the methods.
pub(crate) fn all_constructors(alloc: Global, w: &World) -> Result<Constructors, NoMemory>
    ensures { IfOk result (λ t. HoldsConstructors w.now (found_in t.places) t.lists.items) }
{
    let Ok(count) = u32::try_from(w.methods.len()) else {
        return Err(NoMemory);
    };
    let mut found = Constructors {
        places: HashMap::new(alloc),
        lists: Vec::new(alloc),
    };
    for m in 0..count {
        let info = &w.methods.as_slice()[m as usize];
        if info.constructor {
            found.add(alloc, shape_of(info), m)?;
        }
    }
    Ok(found)
}

impl Constructors {
    /// Adds a constructor, above those that are there, to the list of its shape.
    fn add(&mut self, alloc: Global, shape: Shape, m: u32) -> Result<(), NoMemory>
        requires lists { AreLists (found_in self.old.places) self.old.lists.items }
        requires above { (q : the_shape.Shape) (k : ℕ) → IsListed (found_in self.old.places) self.old.lists.items q k → k < m }
        ensures lists { OnOk result (AreLists (found_in self.new.places) self.new.lists.items) }
        ensures has { OnOk result ((q : the_shape.Shape) (k : ℕ) → IsListed (found_in self.new.places) self.new.lists.items q k ↔ (IsListed (found_in self.old.places) self.old.lists.items q k ⊎ ((q ≡ shape) × (k ≡ m)))) }
    {
        match self.places.get(&shape).copied() {
            Some(place) => self.lists[place as usize].push(m)?,
            None => {
                let Ok(place) = u32::try_from(self.lists.len()) else {
                    return Err(NoMemory);
                };
                self.places.insert(shape, place)?;
                self.lists.push(Items::one(alloc, m)?)?;
            }
        }
        Ok(())
    }
}
