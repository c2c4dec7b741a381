//! The names of methods that have type variables among their parameter types.

ghost use Rattle.std.specs.Prelude.{◌≡◌, ℕ, ◌<◌, false, length, IsTrue, IfOk, OnOk};
ghost use Rattle.java_tree.specs.declared.tree.Name as names;
ghost use Rattle.class_world.specs.declared.world.MethodInfo as infos;
ghost use Rattle.class_world.specs.Signatures.{IsMethod};
ghost use Rattle.seen_methods.specs.Closed.{AreClosed};
ghost use Rattle.overrides.specs.Scopes.{AreOpen, IsPlain, is_open};

use class_world::World;
use java_tree::NoMemory;
use seen_methods::{has_closed_params, method_of};
use std::alloc::Global;
use std::collections::HashSet;

#[derive(Drop)]
pub(crate) struct OpenNames {
    names: HashSet<u32>,
}

impl OpenNames {
    /// Those of the world's methods. Takes time for their parameter types.
    pub(crate) fn of(alloc: Global, w: &World, count: u32) -> Result<OpenNames, NoMemory>
        requires { count ≡ length w.now.methods }
        ensures { IfOk result (AreOpen w.now) }
    {
        let mut made = OpenNames {
            names: HashSet::new(alloc),
        };
        for m in 0..count {
            made.add(w, m)?;
        }
        Ok(made)
    }

    /// Adds the name of a method, if its parameter types hold a type variable.
    fn add(&mut self, w: &World, m: u32) -> Result<(), NoMemory>
        ensures kept { OnOk result ((n : names.Name) → is_open self.new n ≡ false → is_open self.old n ≡ false) }
        ensures added { OnOk result ((info : infos.MethodInfo) → IsMethod w.now m info → is_open self.new info.name ≡ false → AreClosed info.params) }
    {
        if has_closed_params(w, m) {
            return Ok(());
        }
        if let Some(info) = method_of(w, m) {
            self.names.insert(info.name.0)?;
        }
        Ok(())
    }

    /// Whether no method of the name of `m` has a type variable among its parameter types.
    pub(crate) fn is_plain(&self, w: &World, m: u32) -> bool
        requires { AreOpen w.now self.now }
        ensures { IsTrue result → IsPlain w.now m }
    {
        match method_of(w, m) {
            Some(info) => !self.names.contains(&info.name.0),
            None => false,
        }
    }
}
