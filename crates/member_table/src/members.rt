//! What is known of the members of all types.

ghost use Rattle.std.specs.Prelude.{ℕ, ◌<◌, ◌↔◌, IsTrue, length};
ghost use Rattle.std.specs.List.{Contains};
ghost use Rattle.std.specs.List.Sorted.{IsStrictlyIncreasing};
ghost use Rattle.class_world.specs.declared.world.World as worlds;
ghost use Rattle.class_world.specs.Counted.{IsCountedNamed};
ghost use Rattle.class_world.specs.Inheritance.{FieldIs, IsGrouped};
ghost use Rattle.class_world.specs.Overriding.{FoundIs, IsFamily, Overriding};
ghost use Rattle.class_world.specs.Sound.{IsKnown};
ghost use Rattle.member_table.specs.Table.{HoldsMembers};

use class_world::{JavaType, World};
use counted_methods::CountedMethods;
use found_methods::FoundMethods;
use java_tree::tree::Name;
use member_fields::FieldTable;
use member_methods::MethodLists;
use method_groups::MethodGroups;
use overrides::Overrides;

/// The members of all types of a program, which of its methods override which, their families and groups, and the methods that run.
#[derive(Drop)]
pub struct Members {
    pub(crate) fields: FieldTable,
    pub(crate) lists: MethodLists,
    pub(crate) counted: CountedMethods,
    pub(crate) overrides: Overrides,
    pub(crate) groups: MethodGroups,
    pub(crate) found: FoundMethods,
}

impl Members {
    /// The number of the field that a name means in a type (JLS 8.3, 9.3): of its only member field of that name. Those of a class or interface are its members, those of an array and a type variable Object's. Takes no memory, and looks at as many nodes as the largest name of a field has bits, and one more.
    pub fn field(&self, w: &World, t: &JavaType, name: Name) -> Option<u32>
        ensures { HoldsMembers w.now self.now → FieldIs w.now t.now name result }
    {
        self.fields.get(t, name)
    }

    /// The numbers of the member methods of the type `owner` with this name and so many parameters, ascending; of members of one signature the one that counts (JLS 8.4.8.4). Constructors are no members. Takes no memory.
    pub fn methods(&self, owner: u32, name: Name, arity: usize) -> &[u32]
        ensures { (w : worlds.World) → HoldsMembers w self.now → IsKnown w owner → ((m : ℕ) → Contains result.now m ↔ IsCountedNamed w owner name arity m) × IsStrictlyIncreasing result.now }
    {
        self.counted.get(&self.lists, owner, name, arity)
    }

    /// Whether the method of the number `m` overrides that of the number `k` (JLS 8.4.8.1, 8.4.8.4, 9.4.1). No method overrides itself. Takes no memory, and a look at as many nodes as numbers of methods have bits.
    pub fn overrides(&self, m: u32, k: u32) -> bool
        ensures { (w : worlds.World) → HoldsMembers w self.now → IsTrue result ↔ Overriding w m k }
    {
        self.overrides.overrides(m, k)
    }

    /// The family of a method of the program, by number: the numbers of all methods that overriding ties to it, in either direction, ascending; its own is among them. Takes no memory.
    pub fn family(&self, m: u32) -> &[u32]
        ensures { (w : worlds.World) → HoldsMembers w self.now → m < length w.methods → ((k : ℕ) → Contains result.now k ↔ IsFamily w m k) × IsStrictlyIncreasing result.now }
    {
        self.overrides.family(m)
    }

    /// The group of a method of the program, by number: its own number, and those of the methods of its name and number of parameters that are, together with it, members of some type; of a constructor those of its class with its number of parameters. Ascending. Takes no memory.
    pub fn group(&self, m: u32) -> &[u32]
        ensures { (w : worlds.World) → HoldsMembers w self.now → m < length w.methods → ((k : ℕ) → Contains result.now k ↔ IsGrouped w m k) × IsStrictlyIncreasing result.now }
    {
        self.groups.get(m)
    }

    /// The method that runs where `method` is called on an object of the class `class` (JLS 15.12.4.4), all by number. `None` where no class declares one, and for an interface, but for a constructor, a static and a private method, which are themselves. Takes no memory.
    pub fn lookup(&self, class: u32, method: u32) -> Option<u32>
        ensures { (w : worlds.World) → HoldsMembers w self.now → FoundIs w method class result }
    {
        self.found.get(&self.overrides, &self.lists, class, method)
    }
}
