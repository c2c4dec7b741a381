//! Long lists of methods, by signatures.

ghost use Rattle.std.specs.Prelude.{◌≡◌, ◌⊎◌, ℕ, None, OnOk};
ghost use Rattle.std.specs.Option.{option_map};
ghost use Rattle.std.specs.HashMap.{get};
ghost use Rattle.class_world.specs.Sound.{IsSound};
ghost use Rattle.method_ties.specs.declared.tables.Key as keys;
ghost use Rattle.method_ties.specs.Sides.{IsOnce};
ghost use Rattle.method_ties.specs.Tables.{IsMade, same_key};

use class_world::World;
use java_tree::NoMemory;
use numbered_methods::NumberedMethods;
use std::alloc::Global;
use std::collections::HashMap;

/// A list of so many methods is compared one by one, which takes no memory.
pub(crate) const FEW: usize = 4;

/// What a type has of a name and a number of parameters; all by number.
#[derive(Clone, Copy, PartialEq, Eq, Hash)]
pub(crate) struct Key {
    pub(crate) owner: u32,
    pub(crate) name: u32,
    pub(crate) arity: usize,
}

/// The lists that were numbered as the type `class` sees their methods.
#[derive(Drop)]
pub(crate) struct Tables {
    pub(crate) class: u32,
    made: HashMap<Key, NumberedMethods>,
}

impl Tables {
    /// None yet, which takes no memory.
    pub(crate) fn new(alloc: Global, class: u32) -> Tables
        ensures class { result.class ≡ class }
        ensures none { (q : keys.Key) → get same_key result.made q ≡ None }
    {
        Tables {
            class,
            made: HashMap::new(alloc),
        }
    }

    /// Forgets the lists of another type.
    pub(crate) fn turn_to(&mut self, alloc: Global, class: u32)
        ensures class { self.new.class ≡ class }
        ensures lists { (q : keys.Key) → (get same_key self.new.made q ≡ None) ⊎ ((self.new.class ≡ self.old.class) × (get same_key self.new.made q ≡ get same_key self.old.made q)) }
    {
        if self.class != class {
            *self = Tables::new(alloc, class);
        }
    }

    pub(crate) fn get(&self, key: Key) -> Option<&NumberedMethods>
        ensures { option_map (λ x. x.now) result ≡ get same_key self.now.made key }
    {
        self.made.get(&key)
    }

    /// Numbers the methods of one list.
    pub(crate) fn make(
        &mut self,
        alloc: Global,
        w: &World,
        key: Key,
        methods: &[u32],
    ) -> Result<(), NoMemory>
        requires sound { IsSound w.now }
        requires once { IsOnce methods.now }
        ensures { OnOk result (IsMade w.now methods.now key self.old self.new) }
    {
        let numbered = NumberedMethods::of(alloc, w, self.class, methods)?;
        self.made.insert(key, numbered)?;
        Ok(())
    }
}
