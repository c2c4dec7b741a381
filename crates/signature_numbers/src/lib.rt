//! Numbers for signatures: a method's name with a list of parameter types (JLS 3rd edition, 8.4.2).
#![tactic(auto)]

ghost use Rattle.std.specs.Prelude.{◌≡◌, ◌<◌, ℕ, List, None, Some, IfOk};
ghost use Rattle.java_tree.specs.declared.tree.Name as names;
ghost use Rattle.class_world.specs.declared.world.JavaType as types;
ghost use Rattle.signature_numbers.specs.Numbers.{AreApart, number_in};

mod adds;
mod codes;
mod finds;

use adds::{add_step, add_types};
use class_world::JavaType;
use codes::{Part, Step};
use finds::{find_step, find_types};
use java_tree::NoMemory;
use java_tree::tree::Name;
use std::alloc::Global;
use std::collections::HashMap;
use std::marker::Model;

/// Numbers for names with lists of parameter types. Two have one number exactly if they are the same: type variables and type arguments are compared too, and nothing is erased.
///
/// A number is that of a row of parts, and rows that begin alike share the numbers of what they have in common: so a signature also has a number where one that begins with its parameters was given one. An entry of the map is a number with a part, and takes 32 bytes at most.
#[derive(Drop)]
pub struct SignatureNumbers {
    steps: HashMap<Step, u32>,
}

impl Model for SignatureNumbers {
    ghost use Rattle.std.specs.Coded.{coded_list, coded×, coded_ℕ};
    ghost use Rattle.signature_numbers.specs.contracts.codes.Step as step;
    ghost use Rattle.signature_numbers.specs.Steps.{Steps, HasSteps};

    ghost Value = { Steps };

    ghost coded = { coded_list (coded× step.the_row.coded coded_ℕ) };

    ghost view = { λ t. t.steps.entries };

    ghost invariant = { λ t. HasSteps t.steps.entries };
}

impl SignatureNumbers {
    /// No signature has a number.
    pub fn new(alloc: Global) -> SignatureNumbers
        ensures none { (a : names.Name) (ps : List types.JavaType) → number_in result a ps ≡ None }
    {
        SignatureNumbers {
            steps: HashMap::new(alloc),
        }
    }

    /// The number of a signature, a new one if it has none. Takes time for the parts of the types.
    ///
    /// `NoMemory` also where there would be 2^32 parts. After it each signature has the number that it had.
    pub fn number(&mut self, name: Name, params: &[JavaType]) -> Result<u32, NoMemory>
        ensures number { IfOk result (λ n. number_in self.new name params.now ≡ Some n) }
        ensures kept { (a : names.Name) (ps : List types.JavaType) (n : ℕ) → number_in self.old a ps ≡ Some n → number_in self.new a ps ≡ Some n }
        ensures apart { AreApart self.new }
    {
        let named = add_step(&mut self.steps, 0, Part::Named(name.0))?;
        add_types(&mut self.steps, named, params)
    }

    /// The number of a signature, if it has one. Takes no memory, and time for the parts of the types.
    pub fn find(&self, name: Name, params: &[JavaType]) -> Option<u32>
        ensures { result ≡ number_in self.now name params.now }
    {
        let named = find_step(&self.steps, 0, Part::Named(name.0))?;
        find_types(&self.steps, named, params)
    }

    /// A number above those of all signatures; it grows with their parts.
    pub fn limit(&self) -> usize
        ensures { (a : names.Name) (ps : List types.JavaType) (n : ℕ) → number_in self.now a ps ≡ Some n → n < result }
    {
        self.steps.len() + 1
    }
}
