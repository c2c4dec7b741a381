//! The catches of a `try` (JLS 14.20).

ghost use Rattle.std.specs.Prelude.{◌≡◌, ◌++◌, Bool, IfOk, OnOk, map};
ghost use Rattle.class_world.specs.Sound.{IsSound};
ghost use Rattle.class_world.specs.declared.world.JavaType.{JavaType};
ghost use Rattle.java_core.specs.View.{catch_plain, catch_row};
ghost use Rattle.thrown_exceptions.specs.Thrown as spec;
ghost use Rattle.thrown_exceptions.specs.Thrown.{IsOrder};

use crate::classes::{EXCEPTION, THROWABLE, is_below, is_checked, is_under, push_class};
use crate::state::{Raised, State};
use class_world::World;
use java_core::CoreCatch;
use java_tree::{Items, NoMemory};
use reachability::{Flaw, flaw_unless};
use std::alloc::Global;
use type_kinds::kinds::class_number;

fn are_related(alloc: Global, w: &World, c: u32, d: u32) -> bool
    requires { IsSound w.now }
    ensures { (below : JavaType → JavaType → Bool) → IsOrder w.now below → result ≡ spec.are_related below c d }
{
    if is_below(alloc, w, c, d) {
        return true;
    }
    is_below(alloc, w, d, c)
}

/// Whether one of these may be caught as of a class.
fn may_come(alloc: Global, w: &World, raised: &[Raised], class: u32) -> bool
    requires { IsSound w.now }
    ensures { (below : JavaType → JavaType → Bool) → IsOrder w.now below → result ≡ spec.may_come below raised.now class }
{
    for exception in raised {
        if are_related(alloc, w, exception.class, class) {
            return true;
        }
    }
    false
}

/// Whether a catch of a class has something to catch, as far as that is asked: of checked exceptions, Throwable and Exception aside.
fn has_cause(alloc: Global, w: &World, raised: &[Raised], class: u32) -> bool
    requires { IsSound w.now }
    ensures { (below : JavaType → JavaType → Bool) → IsOrder w.now below → result ≡ spec.has_cause below raised.now class }
{
    if !is_checked(alloc, w, class) {
        return true;
    }
    if class == THROWABLE {
        return true;
    }
    if class == EXCEPTION {
        return true;
    }
    may_come(alloc, w, raised, class)
}

/// F7 and F8 of a catch, behind catches of the classes `before`; the block of the `try` can throw what is raised.
fn judged(
    alloc: Global,
    w: &World,
    node: u32,
    before: &[u32],
    raised: &[Raised],
    class: Option<u32>,
    first: Option<Flaw>,
) -> Option<Flaw>
    requires { IsSound w.now }
    ensures { (below : JavaType → JavaType → Bool) → IsOrder w.now below → result ≡ spec.judged below node before.now raised.now class first }
{
    match class {
        None => first,
        Some(class) => {
            let caused = has_cause(alloc, w, raised, class);
            let covered = is_under(alloc, w, before, class);
            let first = flaw_unless(caused, node, 7, first);
            flaw_unless(!covered, node, 8, first)
        }
    }
}

/// The same of each catch in turn; `before` takes on their classes.
#[tactic(auto, using(crate::proofs::Statements::catch_at))]
fn all_judged(
    alloc: Global,
    w: &World,
    catches: &[CoreCatch],
    raised: &[Raised],
    first: Option<Flaw>,
    before: &mut Items<u32>,
) -> Result<Option<Flaw>, NoMemory>
    requires { IsSound w.now }
    ensures judged { spec.Gives w.now result (λ below. spec.all_judged below before.old raised.now (catch_row (map catch_plain catches.now)) first) }
    ensures caught { OnOk result (before.new ≡ before.old ++ spec.caught (catch_row (map catch_plain catches.now))) }
{
    let mut first = first;
    for catch in catches {
        let class = class_number(&catch.param.ty);
        first = judged(
            alloc,
            w,
            catch.node.id,
            before.as_slice(),
            raised,
            class,
            first,
        );
        push_class(class, before)?;
    }
    Ok(first)
}

/// What catches of these classes leave.
fn uncaught(
    alloc: Global,
    w: &World,
    classes: &[u32],
    raised: &[Raised],
) -> Result<Items<Raised>, NoMemory>
    requires { IsSound w.now }
    ensures { spec.Gives w.now result (λ below. spec.uncaught below classes.now raised.now) }
{
    let mut left = Items::new(alloc);
    for exception in raised {
        if !is_under(alloc, w, classes, exception.class) {
            left.push(*exception)?;
        }
    }
    Ok(left)
}

/// Behind the block of a `try`: its catches are judged, and take what they catch.
pub(crate) fn passed(
    alloc: Global,
    w: &World,
    catches: &[CoreCatch],
    state: &mut State,
) -> Result<(), NoMemory>
    requires { IsSound w.now }
    ensures { spec.Makes w.now result state.new (λ below. spec.passed below (catch_row (map catch_plain catches.now)) state.old) }
{
    let mut caught = Items::new(alloc);
    let raised = state.raised.as_slice();
    let first = all_judged(alloc, w, catches, raised, state.first, &mut caught)?;
    let left = uncaught(alloc, w, caught.as_slice(), raised)?;
    state.raised = left;
    state.first = first;
    Ok(())
}
