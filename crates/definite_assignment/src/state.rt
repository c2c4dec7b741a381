//! How far a walk through a body has come.

ghost use Rattle.std.specs.Prelude.{◌≡◌, [], IfOk, OnOk};
ghost use Rattle.definite_assignment.specs.Assigned as spec;
ghost use Rattle.definite_assignment.specs.Bodies.{start as start_of};
ghost use Rattle.definite_assignment.specs.Variables.{has as has_one};

use crate::variables::{add, has, unite, without};
use java_tree::{Items, NoMemory};
use reachability::{Flaw, flaw_unless};
use std::alloc::Global;
use std::mem;

/// A variable that has no value at first: a local by its slot, or a blank final field of the class by its number, with the node of its declaration.
#[derive(Clone, Copy, Debug, PartialEq, Eq)]
pub enum Variable {
    Local(u32),
    Blank { node: u32, field: u32 },
}

/// `missing` are the variables that are not definitely assigned; behind a test those that are not where it is true, and `otherwise` those that are not where it is false.
/// `breaks` and `continues` are those that are not before some jump so far that leaves the loop or switch around, or goes on with the loop around. `first` is the first
/// broken rule so far.
#[derive(Drop)]
pub struct State {
    pub missing: Items<Variable>,
    pub otherwise: Items<Variable>,
    pub breaks: Items<Variable>,
    pub continues: Items<Variable>,
    pub first: Option<Flaw>,
}

/// The variables that are not definitely assigned before the jumps so far, as a state has them.
#[derive(Drop)]
pub struct Jumps {
    pub breaks: Items<Variable>,
    pub continues: Items<Variable>,
}

/// Before a body or a value.
pub(crate) fn start(alloc: Global, missing: Items<Variable>, first: Option<Flaw>) -> State
    ensures { result ≡ start_of missing first }
{
    State {
        missing,
        otherwise: Items::new(alloc),
        breaks: Items::new(alloc),
        continues: Items::new(alloc),
        first,
    }
}

/// Moves a list out, and leaves an empty one.
pub(crate) fn take(alloc: Global, xs: &mut Items<Variable>) -> Items<Variable>
    ensures value { result ≡ xs.old }
    ensures after { xs.new ≡ [] }
{
    mem::replace(xs, Items::new(alloc))
}

/// Notes a rule as broken at a node, where it does not hold.
pub(crate) fn keep_rule(holds: bool, node: u32, rule: u8, s: &mut State)
    ensures { s.new ≡ spec.under holds node rule s.old }
{
    s.first = flaw_unless(holds, node, rule, s.first);
}

/// Whether a variable is not definitely assigned.
pub(crate) fn is_missing(s: &State, x: Variable) -> bool
    ensures { result ≡ has_one s.now.missing x }
{
    has(s.missing.as_slice(), x)
}

pub(crate) fn give(alloc: Global, x: Variable, s: &mut State) -> Result<(), NoMemory>
    ensures { OnOk result (s.new ≡ spec.given x s.old) }
{
    let rest = without(alloc, s.missing.as_slice(), x)?;
    s.missing = rest;
    Ok(())
}

pub(crate) fn ungive(x: Variable, s: &mut State) -> Result<(), NoMemory>
    ensures { OnOk result (s.new ≡ spec.ungiven x s.old) }
{
    add(&mut s.missing, x)
}

/// Behind this way too.
pub(crate) fn join(xs: &[Variable], s: &mut State) -> Result<(), NoMemory>
    ensures { OnOk result (s.new ≡ spec.joined xs.now s.old) }
{
    unite(&mut s.missing, xs)
}

/// Goes on with these, and hands out those that were missing.
pub(crate) fn go_to(xs: Items<Variable>, s: &mut State) -> Items<Variable>
    ensures value { result ≡ s.old.missing }
    ensures after { s.new ≡ spec.at xs s.old }
{
    mem::replace(&mut s.missing, xs)
}

/// A copy of those that are missing.
pub(crate) fn copy_missing(alloc: Global, s: &State) -> Result<Items<Variable>, NoMemory>
    ensures { IfOk result (λ xs. xs ≡ s.now.missing) }
{
    Ok(Items::from_slice(alloc, s.missing.as_slice())?)
}
