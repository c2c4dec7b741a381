//! Small changes of a state at a test.

ghost use Rattle.std.specs.Prelude.{◌≡◌, [], OnOk};
ghost use Rattle.definite_assignment.specs.Assigned as spec;

use crate::state::{State, Variable, copy_missing, take};
use crate::variables::unite;
use java_tree::{Items, NoMemory};
use std::alloc::Global;
use std::mem;

/// What is missing behind a test where it is true, and where it is false.
#[derive(Drop)]
pub(crate) struct Told {
    pub(crate) yes: Items<Variable>,
    pub(crate) no: Items<Variable>,
}

/// Behind a test, whether it is true or not.
pub(crate) fn merge(alloc: Global, s: &mut State) -> Result<(), NoMemory>
    ensures { OnOk result (s.new ≡ spec.merged s.old) }
{
    let no = take(alloc, &mut s.otherwise);
    unite(&mut s.missing, no.as_slice())
}

/// A test that tells nothing more.
pub(crate) fn tell_alike(alloc: Global, s: &mut State) -> Result<(), NoMemory>
    ensures { OnOk result (s.new ≡ spec.told_alike s.old) }
{
    let no = copy_missing(alloc, s)?;
    s.otherwise = no;
    Ok(())
}

/// The test `true` or `false` (JLS 16.1).
pub(crate) fn tell(alloc: Global, truth: bool, s: &mut State)
    ensures { s.new ≡ spec.told truth s.old }
{
    if truth {
        s.otherwise = Items::new(alloc);
    } else {
        s.otherwise = take(alloc, &mut s.missing);
    }
}

pub(crate) fn negate(alloc: Global, s: &mut State)
    ensures { s.new ≡ spec.negated s.old }
{
    let yes = take(alloc, &mut s.missing);
    s.missing = mem::replace(&mut s.otherwise, yes);
}

/// Goes on where the test is true, and hands out what is missing where it is false.
pub(crate) fn enter_true(alloc: Global, s: &mut State) -> Items<Variable>
    ensures value { result ≡ s.old.otherwise }
    ensures after { s.new ≡ spec.when_true s.old }
{
    take(alloc, &mut s.otherwise)
}

/// Goes on where the test is false, and hands out what is missing where it is true.
pub(crate) fn enter_false(alloc: Global, s: &mut State) -> Items<Variable>
    ensures value { result ≡ s.old.missing }
    ensures after { s.new ≡ spec.when_false s.old }
{
    let no = take(alloc, &mut s.otherwise);
    mem::replace(&mut s.missing, no)
}

pub(crate) fn also_no(no: Items<Variable>, s: &mut State) -> Result<(), NoMemory>
    ensures { OnOk result (s.new ≡ spec.also_no no s.old) }
{
    unite(&mut s.otherwise, no.as_slice())
}

pub(crate) fn also_yes(yes: Items<Variable>, s: &mut State) -> Result<(), NoMemory>
    ensures { OnOk result (s.new ≡ spec.also_yes yes s.old) }
{
    unite(&mut s.missing, yes.as_slice())
}

/// Goes on with these, and hands out what the test before told.
pub(crate) fn go_to_test(alloc: Global, xs: Items<Variable>, s: &mut State) -> Told
    ensures yes { result.yes ≡ s.old.missing }
    ensures no { result.no ≡ s.old.otherwise }
    ensures after { s.new ≡ spec.forked xs [] s.old }
{
    let no = take(alloc, &mut s.otherwise);
    let yes = mem::replace(&mut s.missing, xs);
    Told { yes, no }
}

/// Behind the second of two tests of which either may be the one, where the first told this.
pub(crate) fn both_ways(first: Told, s: &mut State) -> Result<(), NoMemory>
    ensures { OnOk result (s.new ≡ spec.both_ways first.yes first.no s.old) }
{
    unite(&mut s.missing, first.yes.as_slice())?;
    unite(&mut s.otherwise, first.no.as_slice())
}
