//! A stack that contracts see as the list of what is on it, from the top.

ghost use Rattle.std.specs.Prelude.{◌≡◌, [], ◌∷◌, OnOk};
ghost use Rattle.run_frames.specs.Stacks.{Popped};

use java_tree::NoMemory;
use std::alloc::Global;
use std::marker::Model;

/// The last element is the top.
#[derive(Drop)]
pub struct Stack<T> {
    items: Vec<T>,
}

impl<T> Model for Stack<T> {
    ghost use Rattle.std.specs.Prelude.{List, reverse};
    ghost use Rattle.std.specs.Coded.{coded_list};

    ghost Value = { List T };

    ghost coded = { coded_list T.code };

    ghost view = { λ it. reverse it.items.items };
}

impl<T: Drop> Stack<T> {
    pub fn new(alloc: Global) -> Stack<T>
        ensures { result ≡ [] }
    {
        Stack {
            items: Vec::new(alloc),
        }
    }

    pub fn push(&mut self, x: T) -> Result<(), NoMemory>
        ensures { OnOk result (self.new ≡ x ∷ self.old) }
    {
        match self.items.push(x) {
            Ok(()) => Ok(()),
            Err(failed) => Err(failed.into()),
        }
    }

    pub fn pop(&mut self) -> Option<T>
        ensures { Popped result self.old self.new }
    {
        self.items.pop()
    }
}
