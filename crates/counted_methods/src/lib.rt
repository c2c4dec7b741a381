//! Which of several member methods of one signature counts for a call (JLS 3rd edition, 8.4.8.4 and 15.12.2).
#![tactic(auto)]

ghost use Rattle.std.specs.Prelude.{◌≡◌, ◌↔◌, ℕ, List, None, IfOk, OnOk, IsTrue};
ghost use Rattle.std.specs.Option.{option_map};
ghost use Rattle.std.specs.List.Sorted.{IsStrictlyIncreasing};
ghost use Rattle.std.specs.HashMap.{get};
ghost use Rattle.java_tree.specs.declared.tree.Name as names;
ghost use Rattle.class_world.specs.declared.world.World as worlds;
ghost use Rattle.class_world.specs.Sound.{IsKnown, IsSound};
ghost use Rattle.class_world.specs.Overriding.{IsSuperclass};
ghost use Rattle.member_methods.specs.Methods.{HoldsMethods};
ghost use Rattle.counted_methods.specs.Table.{AreCountedNamed, HoldsCounted, kept_at, place, same_place};
ghost use Rattle.counted_methods.specs.Made.{AreListed, IsAbove, IsAdded, IsDone, IsFirstOfMore, IsOrderly, IsPut};

mod chosen;
mod lists;
mod signs;
mod superclass;

use chosen::chosen;
use class_world::{World, supers_first};
use java_tree::tree::Name;
use java_tree::{Items, NoMemory};
use lists::add_list;
use member_methods::MethodLists;
use seen_methods::method_of;
use std::alloc::Global;
use std::collections::HashMap;
use superclass::superclass;

/// A type, a name and a number of parameters.
#[derive(Clone, Copy, PartialEq, Eq, Hash)]
struct Place {
    owner: u32,
    name: u32,
    arity: usize,
}

/// The member methods that count, of all types.
///
/// Of members of one signature one counts: what the superclass counts comes first, then what a class declares, then what is declared first. Lists are kept where not all members of a name and a number of parameters count, and types that have one list from their superclass share it.
#[derive(Drop)]
pub struct CountedMethods {
    places: HashMap<Place, u32>,
    lists: Items<Items<u32>>,
}

impl CountedMethods {
    /// What counts in all types of a sound world, whose member methods `lists` has. Takes time for the members of the types, each times the bits of a method's number; and for the parameter types of those that are not alone with their name and number of parameters.
    ///
    /// `NoMemory` also where a class has two superclasses, which no program declares: such a class could count its members in two ways.
    pub fn of(alloc: Global, w: &World, lists: &MethodLists) -> Result<CountedMethods, NoMemory>
        requires sound { IsSound w.now }
        requires lists { HoldsMethods w.now lists.now }
        ensures { IfOk result (λ t. HoldsCounted w.now t) }
    {
        let mut counted = CountedMethods {
            places: HashMap::new(alloc),
            lists: Items::new(alloc),
        };
        let types = supers_first(alloc, w)?;
        for c in types.as_slice() {
            counted.add_type(alloc, w, lists, *c)?;
        }
        Ok(counted)
    }

    /// The numbers of the member methods of the type `owner` that count and have this name and so many parameters, ascending. `lists` has the member methods of the same world. Takes no memory.
    pub fn get<'a>(
        &'a self,
        lists: &'a MethodLists,
        owner: u32,
        name: Name,
        arity: usize,
    ) -> &'a [u32]
        ensures { (w : worlds.World) → HoldsMethods w lists.now → HoldsCounted w self.now → IsKnown w owner → AreCountedNamed w owner name arity result.now }
    {
        self.listed(lists, owner, name, arity)
    }

    /// The list that is kept, or that of all members.
    fn listed<'a>(
        &'a self,
        lists: &'a MethodLists,
        owner: u32,
        name: Name,
        arity: usize,
    ) -> &'a [u32]
        ensures { (w : worlds.World) → HoldsMethods w lists.now → AreListed w owner name arity (kept_at self.now owner name arity) result.now }
    {
        match self.kept(owner, name, arity) {
            Some(list) => list,
            None => lists.named(owner, name, arity),
        }
    }

    /// The list that is kept for a type, a name and a number of parameters.
    fn kept(&self, owner: u32, name: Name, arity: usize) -> Option<&[u32]>
        ensures { option_map (λ l. l.now) result ≡ kept_at self.now owner name arity }
    {
        match self.number_of(owner, name, arity) {
            Some(number) => match self.lists.get(number as usize) {
                Some(list) => Some(list.as_slice()),
                None => None,
            },
            None => None,
        }
    }

    /// The number of that list.
    fn number_of(&self, owner: u32, name: Name, arity: usize) -> Option<u32>
        ensures { result ≡ get same_place self.now.places (place owner name arity) }
    {
        let place = Place {
            owner,
            name: name.0,
            arity,
        };
        self.places.get(&place).copied()
    }

    /// Adds what counts in the type `c`.
    fn add_type(
        &mut self,
        alloc: Global,
        w: &World,
        lists: &MethodLists,
        c: u32,
    ) -> Result<(), NoMemory>
        requires sound { IsSound w.now }
        requires lists { HoldsMethods w.now lists.now }
        requires orderly { IsOrderly self.old }
        requires new { (n : names.Name) (arity : ℕ) → kept_at self.old c n arity ≡ None }
        requires above { (s : ℕ) → IsSuperclass w.now c s → IsDone w.now self.old s }
        ensures orderly { OnOk result (IsOrderly self.new) }
        ensures done { OnOk result (IsDone w.now self.new c) }
        ensures others { OnOk result ((d : ℕ) (n : names.Name) (arity : ℕ) → (d ≡ c → ⊥) → kept_at self.new d n arity ≡ kept_at self.old d n arity) }
    {
        let above = superclass(w, c)?;
        let members = lists.all(alloc, c)?;
        for m in members.as_slice() {
            self.add_named(alloc, w, lists, c, above, *m)?;
        }
        Ok(())
    }

    /// Adds what counts of the members of one name and number of parameters, if `m` is the first of more.
    fn add_named(
        &mut self,
        alloc: Global,
        w: &World,
        lists: &MethodLists,
        c: u32,
        above: Option<u32>,
        m: u32,
    ) -> Result<(), NoMemory>
        requires sound { IsSound w.now }
        requires lists { HoldsMethods w.now lists.now }
        requires orderly { IsOrderly self.old }
        ensures { OnOk result ((counted : List ℕ) → IsAbove w.now self.old above counted → IsAdded w.now c m counted self.old self.new) }
    {
        let Some(info) = method_of(w, m) else {
            return Ok(());
        };
        let arity = info.params.len();
        let named = lists.named(c, info.name, arity);
        if !is_first_of_more(named, m) {
            return Ok(());
        }
        let first = match above {
            Some(s) => self.listed(lists, s, info.name, arity),
            None => &[],
        };
        let counted = chosen(alloc, w, c, info.name, first, named)?;
        if counted.as_slice() == named {
            return Ok(());
        }
        self.put(c, info.name, arity, above, counted)
    }

    /// Keeps a list. It is the superclass's, if that has the same.
    fn put(
        &mut self,
        c: u32,
        name: Name,
        arity: usize,
        above: Option<u32>,
        counted: Vec<u32>,
    ) -> Result<(), NoMemory>
        requires orderly { IsOrderly self.old }
        requires ascending { IsStrictlyIncreasing counted.items }
        ensures { OnOk result (IsPut c name arity counted.items self.old self.new) }
    {
        let shared = match above {
            Some(s) => self.number_of(s, name, arity),
            None => None,
        };
        let number = add_list(&mut self.lists, shared, counted)?;
        let place = Place {
            owner: c,
            name: name.0,
            arity,
        };
        self.places.insert(place, number)?;
        Ok(())
    }
}

/// Whether a list has more than one number, and this one first.
fn is_first_of_more(named: &[u32], m: u32) -> bool
    ensures { IsTrue result ↔ IsFirstOfMore named.now m }
{
    named.len() > 1 && named[0] == m
}
