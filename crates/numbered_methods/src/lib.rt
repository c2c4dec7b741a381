//! Methods found by the signatures that one type sees (JLS 3rd edition, 8.4.2).
#![tactic(auto)]

ghost use Rattle.std.specs.Prelude.{◌≡◌, ℕ, IfOk, OnOk, List};
ghost use Rattle.class_world.specs.Sound.{IsSound};
ghost use Rattle.signature_numbers.specs.Numbers.{AreApart};
ghost use Rattle.numbered_methods.specs.Alike.{AreAlike, IsNumbered};
ghost use Rattle.numbered_methods.specs.Added.{IsAdded, IsNumberOf, IsOnce, listed_by};

mod lists;

use class_world::World;
use java_tree::{Items, NoMemory};
use lists::add_to;
use seen_methods::{method_of, seen_params};
use signature_numbers::SignatureNumbers;
use std::alloc::Global;
use std::collections::HashMap;

/// Methods by the signatures that the type `class` sees of them: each stands in the list of its signature's number.
#[derive(Drop)]
pub struct NumberedMethods {
    class: u32,
    numbers: SignatureNumbers,
    lists: HashMap<u32, Items<u32>>,
}

impl NumberedMethods {
    /// Some methods, each once, by number, as the type `class` sees them. `NoMemory` also where their signatures have 2^32 parts.
    ///
    /// Takes time and memory for the methods and the parts of their parameter types.
    pub fn of(
        alloc: Global,
        w: &World,
        class: u32,
        methods: &[u32],
    ) -> Result<NumberedMethods, NoMemory>
        requires sound { IsSound w.now }
        requires once { IsOnce methods.now }
        ensures { IfOk result (IsNumbered w.now class methods.now) }
    {
        let mut numbered = NumberedMethods {
            class,
            numbers: SignatureNumbers::new(alloc),
            lists: HashMap::new(alloc),
        };
        for m in methods {
            numbered.add(alloc, w, *m)?;
        }
        Ok(numbered)
    }

    /// Those of the methods that have one signature with `m` in that type, in the order in which they were listed. Takes time and memory for the parameter types of `m`.
    pub fn alike(&self, alloc: Global, w: &World, m: u32) -> Result<&[u32], NoMemory>
        requires sound { IsSound w.now }
        ensures { IfOk result (λ xs. (c : ℕ) (ms : List ℕ) → IsNumbered w.now c ms self.now → AreAlike w.now c m ms xs.now) }
    {
        let number = self.number_of(alloc, w, m)?;
        Ok(self.listed(number))
    }

    fn add(&mut self, alloc: Global, w: &World, m: u32) -> Result<(), NoMemory>
        requires sound { IsSound w.now }
        requires apart { AreApart self.old.numbers }
        ensures { OnOk result (IsAdded w.now m self.old self.new) }
    {
        let Some(info) = method_of(w, m) else {
            return Ok(());
        };
        let Some(params) = seen_params(alloc, w, self.class, m)? else {
            return Ok(());
        };
        let number = self.numbers.number(info.name, params.as_slice())?;
        add_to(alloc, &mut self.lists, number, m)?;
        Ok(())
    }

    /// The number of a method's signature, if one of these methods has it.
    fn number_of(&self, alloc: Global, w: &World, m: u32) -> Result<Option<u32>, NoMemory>
        requires { IsSound w.now }
        ensures { IfOk result (IsNumberOf w.now m self.now) }
    {
        let Some(info) = method_of(w, m) else {
            return Ok(None);
        };
        match seen_params(alloc, w, self.class, m)? {
            Some(params) => Ok(self.numbers.find(info.name, params.as_slice())),
            None => Ok(None),
        }
    }

    fn listed(&self, number: Option<u32>) -> &[u32]
        ensures { result.now ≡ listed_by self.now number }
    {
        let Some(number) = number else {
            return &[];
        };
        match self.lists.get(&number) {
            Some(list) => list.as_slice(),
            None => &[],
        }
    }
}
