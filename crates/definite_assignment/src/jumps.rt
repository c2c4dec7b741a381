//! Small changes of a state at loops, switches and jumps.

ghost use Rattle.std.specs.Prelude.{◌≡◌, [], OnOk};
ghost use Rattle.definite_assignment.specs.Assigned as assigned;
ghost use Rattle.definite_assignment.specs.Bodies as spec;

use crate::state::{Jumps, State, Variable, join, take};
use crate::variables::{both, unite};
use java_tree::{Items, NoMemory};
use reachability::{Flaw, noted};
use std::alloc::Global;
use std::mem;

/// Goes into a loop, and hands out the jumps before it.
pub(crate) fn enter_loop(alloc: Global, s: &mut State) -> Jumps
    ensures value { result ≡ spec.jumps s.old }
    ensures after { s.new ≡ spec.inside s.old }
{
    let breaks = take(alloc, &mut s.breaks);
    let continues = take(alloc, &mut s.continues);
    Jumps { breaks, continues }
}

/// Goes to where the body of a loop ended or a continue leads to.
pub(crate) fn go_on(s: &mut State) -> Result<(), NoMemory>
    ensures { OnOk result (s.new ≡ spec.goes_on s.old) }
{
    unite(&mut s.missing, s.continues.as_slice())
}

/// Leaves a loop before which these were the jumps, whose test was false with these missing.
pub(crate) fn leave_loop(
    alloc: Global,
    outer: Jumps,
    no: Items<Variable>,
    s: &mut State,
) -> Result<(), NoMemory>
    ensures { OnOk result (s.new ≡ spec.behind outer no s.old) }
{
    let Jumps { breaks, continues } = outer;
    let ended = mem::replace(&mut s.breaks, breaks);
    s.missing = no;
    s.otherwise = Items::new(alloc);
    s.continues = continues;
    unite(&mut s.missing, ended.as_slice())
}

/// Leaves a loop behind its test.
pub(crate) fn leave_by_test(alloc: Global, outer: Jumps, s: &mut State) -> Result<(), NoMemory>
    ensures { OnOk result (s.new ≡ spec.behind_test outer s.old) }
{
    let no = take(alloc, &mut s.otherwise);
    leave_loop(alloc, outer, no, s)
}

/// Goes to the groups of a switch, and hands out the breaks before it.
pub(crate) fn enter_switch(alloc: Global, s: &mut State) -> Items<Variable>
    ensures value { result ≡ s.old.breaks }
    ensures after { s.new ≡ spec.in_switch s.old }
{
    s.missing = Items::new(alloc);
    s.otherwise = Items::new(alloc);
    take(alloc, &mut s.breaks)
}

/// Leaves a switch before which these were missing.
pub(crate) fn leave_switch(
    alloc: Global,
    breaks: Items<Variable>,
    has_default: bool,
    before: &[Variable],
    s: &mut State,
) -> Result<(), NoMemory>
    ensures { OnOk result (s.new ≡ spec.behind_switch breaks has_default before.now s.old) }
{
    if !has_default {
        join(before, s)?;
    }
    let ended = mem::replace(&mut s.breaks, breaks);
    s.otherwise = Items::new(alloc);
    unite(&mut s.missing, ended.as_slice())
}

pub(crate) fn break_off(alloc: Global, s: &mut State) -> Result<(), NoMemory>
    ensures { OnOk result (s.new ≡ spec.broken s.old) }
{
    let ended = take(alloc, &mut s.missing);
    unite(&mut s.breaks, ended.as_slice())
}

pub(crate) fn continue_with(alloc: Global, s: &mut State) -> Result<(), NoMemory>
    ensures { OnOk result (s.new ≡ spec.continued s.old) }
{
    let ended = take(alloc, &mut s.missing);
    unite(&mut s.continues, ended.as_slice())
}

/// A blank field that has no value at the end is noted at its declaration (JLS 8.3.1.2).
fn flaw_of(x: Variable, first: Option<Flaw>) -> Option<Flaw>
    ensures { result ≡ spec.flaw_of x first }
{
    match x {
        Variable::Local(_) => first,
        Variable::Blank { node, .. } => noted(node, 4, first),
    }
}

pub(crate) fn flaws_of(xs: &[Variable], mut first: Option<Flaw>) -> Option<Flaw>
    ensures { result ≡ spec.flaws_of xs.now first }
{
    for x in xs {
        first = flaw_of(*x, first);
    }
    first
}

pub(crate) fn return_now(alloc: Global, s: &mut State)
    ensures { s.new ≡ spec.returned s.old }
{
    let missing = take(alloc, &mut s.missing);
    s.first = flaws_of(missing.as_slice(), s.first);
}

/// A statement that does not go on.
pub(crate) fn end(alloc: Global, s: &mut State)
    ensures { s.new ≡ assigned.at [] s.old }
{
    s.missing = Items::new(alloc);
}

/// Behind a finally block, where these were missing before it: what either gives has a value.
pub(crate) fn meet(alloc: Global, xs: &[Variable], s: &mut State) -> Result<(), NoMemory>
    ensures { OnOk result (s.new ≡ spec.met xs.now s.old) }
{
    let rest = both(alloc, xs, s.missing.as_slice())?;
    s.missing = rest;
    Ok(())
}
