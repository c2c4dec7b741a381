//! Which method overrides which, and the families of methods (JLS 3rd edition, 8.4.8.1 and 8.4.8.4).
#![tactic(auto)]

ghost use Rattle.std.specs.Prelude.{◌≡◌, ℕ, ◌<◌, ◌↔◌, IsTrue, IfOk, length};
ghost use Rattle.std.specs.List.{Contains};
ghost use Rattle.std.specs.List.Sorted.{IsStrictlyIncreasing};
ghost use Rattle.class_world.specs.declared.world.World as worlds;
ghost use Rattle.class_world.specs.Sound.{IsSound};
ghost use Rattle.class_world.specs.Overriding.{IsFamily, Overriding};
ghost use Rattle.method_ties.specs.Ties.{HoldsTies};
ghost use Rattle.overrides.specs.Overrides.{HoldsOverrides};

mod at_once;
mod closed;
mod families;
mod links;
mod listed;
mod open_names;
mod order;
mod rounds;
mod rows;
mod scopes;

use at_once::all_at_once;
use class_world::World;
use closed::add_all;
use families::labels_of;
use java_tree::{Items, NoMemory};
use links::all_links;
use listed::lists_of;
use method_ties::MethodTies;
use order::in_order;
use rows::Table;
use std::alloc::Global;

/// What each method overrides, and the families: the number of each method's, and the methods of each by its number.
#[derive(Drop)]
pub struct Overrides {
    table: Table,
    labels: Vec<u32>,
    families: Vec<Items<u32>>,
}

impl Overrides {
    /// What the methods of a sound world override. `NoMemory` also where it has 2^32 methods or types.
    ///
    /// Takes `agree_below` once for each pair that meets, and two rounds over the pairs of which a method overrides the other at once, or three where circles stand among them; each look-up is one at as many nodes as method numbers have bits. The row of what a method overrides is united with that of each one that it overrides at once, in the time and memory of the nodes that the two do not share: so a chain takes time and memory for its methods, and so do the types below several chains. Where the row has that one already, the nodes that the two do not share are first looked through for a method that it lacks, up to the first such. Where type variables stand in parameter types, rows are not united: the nodes that the two do not share are gone through, once more at the end, and each method that the lower row lacks may cost an `agree_below`, and is added by itself. Where such a row lacks one at the end, since the two methods differ in a type below both, passes over all pairs of the table follow, until one adds nothing: each takes, for each pair, the time of the nodes that the two rows do not share, and an `agree_below` for each method that the lower one lacks; and the memory of one row's list, beside that of what it adds.
    pub fn of(alloc: Global, w: &World, ties: &MethodTies) -> Result<Overrides, NoMemory>
        requires sound { IsSound w.now }
        requires ties { HoldsTies w.now ties.now }
        ensures { IfOk result (λ t. HoldsOverrides w.now t) }
    {
        let Ok(count) = u32::try_from(w.methods.len()) else {
            return Err(NoMemory);
        };
        let ties = all_at_once(alloc, w, ties, count)?;
        let order = in_order(alloc, w, count)?;
        let links = all_links(alloc, w, &ties, order.as_slice())?;
        let mut table = Table::new(alloc, count)?;
        add_all(alloc, w, links.as_slice(), count, &mut table)?;
        let labels = labels_of(alloc, w, &ties, count)?;
        let families = lists_of(alloc, labels.as_slice())?;
        Ok(Overrides {
            table,
            labels,
            families,
        })
    }

    /// Whether the method `m` overrides `k`. Takes no memory, and a look at as many nodes as method numbers have bits.
    pub fn overrides(&self, m: u32, k: u32) -> bool
        ensures { (w : worlds.World) → HoldsOverrides w self.now → IsTrue result ↔ Overriding w m k }
    {
        self.table.get(m, k).is_some()
    }

    /// The family of a method of the world, ascending; the method is in it. Takes no memory.
    pub fn family(&self, m: u32) -> &[u32]
        ensures { (w : worlds.World) → HoldsOverrides w self.now → m < length w.methods → ((k : ℕ) → Contains result.now k ↔ IsFamily w m k) × IsStrictlyIncreasing result.now }
    {
        match self.labels.get(m as usize) {
            Some(label) => match self.families.get(*label as usize) {
                Some(list) => list.as_slice(),
                None => &[],
            },
            None => &[],
        }
    }
}
