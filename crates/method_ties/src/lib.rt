//! Which methods take the place of which, and which a class has from both sides (JLS 3rd edition, 8.4.8).
#![tactic(auto)]

ghost use Rattle.std.specs.Prelude.{IfOk};
ghost use Rattle.class_world.specs.declared.world.World as worlds;
ghost use Rattle.class_world.specs.Sound.{IsSound};
ghost use Rattle.member_methods.specs.Methods.{HoldsMethods};
ghost use Rattle.method_ties.specs.Ties.{AreMeetings, AreReplaced, HoldsTies};

mod lists;
mod meet;
mod replace;
mod supers;
mod tables;

use class_world::World;
use java_tree::{Items, NoMemory};
use meet::all_meetings;
use member_methods::MethodLists;
use replace::all_replaced;
use std::alloc::Global;

/// Two different methods that a class has with one signature: one from its superclass, which a class declares, and one from an interface. Numbers of methods.
#[derive(Clone, Copy, Debug, PartialEq, Eq)]
pub struct Meeting {
    pub lower: u32,
    pub upper: u32,
}

/// The methods that each takes the place of, by its number; and what meets in each class, by its number.
#[derive(Drop)]
pub struct MethodTies {
    replaced: Vec<Items<u32>>,
    meetings: Vec<Items<Meeting>>,
}

impl MethodTies {
    /// The ties of a sound world's methods.
    ///
    /// Takes time for each method, for the members that each class has from its superinterfaces, times the bits of a method's number, and for the pairs that have one signature, each with the steps up to the types that declare the two. Where a list of one name and number of parameters has more than four methods, these are numbered by their signatures, once for the type that compares them; the methods of a type are to have numbers in a row, as in the world of a program, since the lists of another type are forgotten.
    pub fn of(alloc: Global, w: &World, lists: &MethodLists) -> Result<MethodTies, NoMemory>
        requires sound { IsSound w.now }
        requires lists { HoldsMethods w.now lists.now }
        ensures { IfOk result (λ t. HoldsTies w.now t) }
    {
        Ok(MethodTies {
            replaced: all_replaced(alloc, w, lists)?,
            meetings: all_meetings(alloc, w, lists)?,
        })
    }

    /// The methods whose place the method `m` takes in the type that declares it, ascending. Takes no memory.
    pub fn replaced(&self, m: u32) -> &[u32]
        ensures { (w : worlds.World) → HoldsTies w self.now → AreReplaced w m result.now }
    {
        match self.replaced.get(m as usize) {
            Some(list) => list.as_slice(),
            None => &[],
        }
    }

    /// The pairs that the class `c` has from both sides with one signature, each once; an interface has none. Takes no memory.
    pub fn meetings(&self, c: u32) -> &[Meeting]
        ensures { (w : worlds.World) → HoldsTies w self.now → AreMeetings w c result.now }
    {
        match self.meetings.get(c as usize) {
            Some(list) => list.as_slice(),
            None => &[],
        }
    }
}
