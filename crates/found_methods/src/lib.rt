//! The method that a call runs (JLS 3rd edition, 15.12.4.4).
#![tactic(auto)]

ghost use Rattle.std.specs.Prelude.{◌≡◌, ℕ, ◌<◌, ◌≤◌, ◌↔◌, Some, length, slice_get, IsTrue, IfOk};
ghost use Rattle.class_world.specs.declared.world.World as worlds;
ghost use Rattle.class_world.specs.Overriding.{FoundIs, OverridesForOn};
ghost use Rattle.class_world.specs.Sound.{IsSound};
ghost use Rattle.member_methods.specs.Methods.{HoldsMethods};
ghost use Rattle.overrides.specs.Overrides.{HoldsOverrides};
ghost use Rattle.overrides.specs.Tables.{value_at};
ghost use Rattle.found_methods.specs.Callees.{ShareNumber, params_of};
ghost use Rattle.found_methods.specs.Own.{LowestIs};
ghost use Rattle.found_methods.specs.Found.{AnswerIs, HaveOverriders, HoldsFound, IsInPlaceOf, OwnAnswerIs, StopsAt};

mod callees;
mod firsts;
mod labels;
mod own;
mod supers;
mod table;

use callees::{Callee, callees_of};
use class_world::{World, supers_first};
use firsts::Firsts;
use java_tree::{Items, NoMemory};
use labels::labels_of;
use member_methods::MethodLists;
use overrides::Overrides;
use own::Own;
use std::alloc::Global;
use supers::superclasses;

/// What a look-up needs of a world. A family is known by its label, the number of its first method; `groups` has at the lowest method of a label that a class declares all of these. `most` is as many classes as can stand one above another.
#[derive(Drop)]
pub struct FoundMethods {
    callees: Vec<Callee>,
    labels: Vec<u32>,
    groups: Vec<Items<u32>>,
    firsts: Firsts,
    supers: Vec<Items<u32>>,
    most: usize,
}

impl FoundMethods {
    /// The table of a sound world. `NoMemory` also where it has 2^32 methods or types.
    ///
    /// Takes time and memory for the types and the methods, each times the bits of the largest method's number.
    pub fn of(alloc: Global, w: &World, overrides: &Overrides) -> Result<FoundMethods, NoMemory>
        requires sound { IsSound w.now }
        requires overrides { HoldsOverrides w.now overrides.now }
        ensures { IfOk result (λ t. HoldsFound w.now t) }
    {
        let Ok(count) = u32::try_from(w.methods.len()) else {
            return Err(NoMemory);
        };
        let callees = callees_of(alloc, w)?;
        let labels = labels_of(alloc, w, overrides, count)?;
        let own = Own::of(alloc, w, labels.as_slice(), count)?;
        let supers = superclasses(alloc, w)?;
        let order = supers_first(alloc, w)?;
        let most = order.len();
        let firsts = Firsts::of(alloc, w, &own, supers.as_slice(), order.as_slice(), count)?;
        let Own { table: _, groups } = own;
        Ok(FoundMethods {
            callees,
            labels,
            groups,
            firsts,
            supers,
            most,
        })
    }

    /// The method that runs where `method` is called on an object of the class (JLS 15.12.4.4), both by number: a constructor, a static and a private method are themselves; else it is the first that the classes from `class` upwards declare, of those of the method's family that are it, override it, have its parameter types, or override a member of `class` that overrides it. `None` where no class declares one, for a number of no method and, but for those that are themselves, for an interface.
    ///
    /// Takes no memory, and mostly two looks at as many nodes as the largest method's number has bits. Where parameter types hold type variables it may have to look again further up, once for each class that declares methods of the family of which none is the answer. For each method of the family that is met and neither is `method` nor overrides it nor has its parameter types, it also looks at each member of `class` with the name and the number of parameters of `method`: at most two looks for each.
    pub fn get(
        &self,
        overrides: &Overrides,
        lists: &MethodLists,
        class: u32,
        method: u32,
    ) -> Option<u32>
        ensures { (w : worlds.World) → HoldsFound w self.now → HoldsOverrides w overrides.now → HoldsMethods w lists.now → FoundIs w method class result }
    {
        if self.callees.get(method as usize)?.fixed {
            return Some(method);
        }
        if class as usize >= self.supers.len() {
            return None;
        }
        self.answer(overrides, lists, class, method, class, self.most)
    }

    /// The first answer from `class` upwards, for an object of the class `object`. `steps` bounds how many classes stand above `class`.
    fn answer(
        &self,
        overrides: &Overrides,
        lists: &MethodLists,
        object: u32,
        method: u32,
        class: u32,
        steps: usize,
    ) -> Option<u32>
        ensures { (w : worlds.World) (holds : HoldsFound w self.now) → HoldsOverrides w overrides.now → HoldsMethods w lists.now → method < length w.methods → class < length w.types → holds.ranked.rank class ≤ steps → AnswerIs w object method class result }
    {
        let label = *self.labels.get(method as usize)?;
        let lowest = self.firsts.table.get(class, label);
        let own = self.own_answer(overrides, lists, object, method, lowest);
        if own.is_some() || steps == 0 {
            return own;
        }
        let last = self.last(class, lowest)?;
        let above = self.supers.get(last as usize)?;
        for s in above.as_slice() {
            let found = self.answer(overrides, lists, object, method, *s, steps - 1);
            if found.is_some() {
                return found;
            }
        }
        None
    }

    /// The first answer that a class declares, for an object of the class `object`; `lowest` is the class's lowest method of the same family.
    fn own_answer(
        &self,
        overrides: &Overrides,
        lists: &MethodLists,
        object: u32,
        method: u32,
        lowest: Option<u32>,
    ) -> Option<u32>
        ensures { (w : worlds.World) (l c : ℕ) → HoldsFound w self.now → HoldsOverrides w overrides.now → HoldsMethods w lists.now → slice_get self.now.labels.items method ≡ Some l → LowestIs w self.now.labels.items l c lowest → OwnAnswerIs w object method c result }
    {
        let group = self.groups.get(lowest? as usize)?;
        for k in group.as_slice() {
            if self.is_in_place_of(overrides, lists, object, *k, method) {
                return Some(*k);
            }
        }
        None
    }

    /// The class that declares the method that was met from a class upwards, or the last one that was asked.
    fn last(&self, class: u32, lowest: Option<u32>) -> Option<u32>
        ensures { (w : worlds.World) (l : ℕ) → HoldsFound w self.now → class < length w.types → lowest ≡ value_at self.now.firsts.table class l → StopsAt w self.now.labels.items l class lowest result }
    {
        match lowest {
            Some(k) => Some(self.callees.get(k as usize)?.owner),
            None => Some(*self.firsts.ends.get(class as usize)?),
        }
    }

    /// Whether on an object of the class `object` the method `k` is `m`, overrides it, has its parameter types, or overrides a member that overrides it. The members are looked at last: most calls need none of them.
    fn is_in_place_of(
        &self,
        overrides: &Overrides,
        lists: &MethodLists,
        object: u32,
        k: u32,
        m: u32,
    ) -> bool
        ensures { (w : worlds.World) → HoldsFound w self.now → HoldsOverrides w overrides.now → HoldsMethods w lists.now → IsTrue result ↔ IsInPlaceOf w object k m }
    {
        if k == m {
            return true;
        }
        if overrides.overrides(k, m) || self.have_one_number(k, m) {
            return true;
        }
        self.overrides_for(overrides, lists, object, k, m)
    }

    /// Whether the method `k` overrides a member of the class `object` that overrides `m`.
    fn overrides_for(
        &self,
        overrides: &Overrides,
        lists: &MethodLists,
        object: u32,
        k: u32,
        m: u32,
    ) -> bool
        ensures { (w : worlds.World) → HoldsFound w self.now → HoldsOverrides w overrides.now → HoldsMethods w lists.now → IsTrue result ↔ OverridesForOn w object k m }
    {
        for t in self.members_like(lists, object, m) {
            if overrides.overrides(*t, m) && overrides.overrides(k, *t) {
                return true;
            }
        }
        false
    }

    /// The members of the class `object` with the name and the number of parameters of `m`: those that override it are among them.
    fn members_like<'a>(&self, lists: &'a MethodLists, object: u32, m: u32) -> &'a [u32]
        ensures { (w : worlds.World) → HoldsFound w self.now → HoldsMethods w lists.now → HaveOverriders w object m result.now }
    {
        match self.callees.get(m as usize) {
            Some(callee) => lists.named(object, callee.name, callee.arity),
            None => &[],
        }
    }

    /// Whether two methods have one list of parameter types, without type variables.
    fn have_one_number(&self, k: u32, m: u32) -> bool
        ensures { IsTrue result ↔ ShareNumber self.now.callees.items k m }
    {
        match self.params(k) {
            Some(n) => match self.params(m) {
                Some(i) => n == i,
                None => false,
            },
            None => false,
        }
    }

    fn params(&self, m: u32) -> Option<u32>
        ensures { result ≡ params_of (slice_get self.now.callees.items m) }
    {
        self.callees.get(m as usize)?.params
    }
}
