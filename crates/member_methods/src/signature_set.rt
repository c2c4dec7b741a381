//! Signatures of methods, to look others up in.

ghost use Rattle.std.specs.Prelude.{◌↔◌, IfOk, IsTrue};
ghost use Rattle.member_methods.specs.SignatureSets.{HasSignature, HasSignaturesOf};

use class_world::{JavaType, World};
use java_tree::NoMemory;
use java_tree::tree::Name;
use signature_numbers::SignatureNumbers;
use std::alloc::Global;
use std::collections::HashSet;

/// Names with lists of parameter types.
#[derive(Drop)]
pub(crate) struct SignatureSet {
    numbers: SignatureNumbers,
    members: HashSet<u32>,
}

impl SignatureSet {
    /// The signatures of some methods. Takes time for the parts of their parameter types.
    pub(crate) fn of(alloc: Global, w: &World, methods: &[u32]) -> Result<SignatureSet, NoMemory>
        ensures { IfOk result (HasSignaturesOf w.now methods.now) }
    {
        let mut numbers = SignatureNumbers::new(alloc);
        let mut members = HashSet::new(alloc);
        for k in methods {
            if let Some(info) = w.methods.get(*k as usize) {
                let number = numbers.number(info.name, info.params.as_slice())?;
                members.insert(number)?;
            }
        }
        Ok(SignatureSet { numbers, members })
    }

    /// Whether this name with these parameter types is one of them. Takes no memory, and time for the parts of the types.
    pub(crate) fn has(&self, name: Name, params: &[JavaType]) -> bool
        ensures { IsTrue result ↔ HasSignature self.now name params.now }
    {
        match self.numbers.find(name, params) {
            // What a signature begins with has a number too.
            Some(number) => self.members.contains(&number),
            None => false,
        }
    }
}
