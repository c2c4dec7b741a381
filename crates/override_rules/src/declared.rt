//! What methods break over those whose place they take where they are declared.

ghost use Rattle.std.specs.Prelude.{◌≡◌, ◌⊎◌, ◌<◌, ℕ, ◌↔◌, Some, IfOk, OnOk, length, slice_get};
ghost use Rattle.std.specs.List.{Contains};
ghost use Rattle.class_world.specs.declared.world.MethodInfo as infos;
ghost use Rattle.class_world.specs.declared.world.World as worlds;
ghost use Rattle.rule_order.specs.First.{IsFirst};
ghost use Rattle.class_world.specs.Sound.{IsSound};
ghost use Rattle.method_ties.specs.Ties.{HoldsTies};
ghost use Rattle.override_rules.specs.Judged.{AreClean, BreaksAbove, DeclaredBreaches, IsBehind, IsLowest, IsMarked, Pushes};
ghost use Rattle.class_world.specs.Typed.{HaveTypes};

use crate::lowest::{breach_at, lower};
use crate::order::in_order;
use crate::over::lowest_broken;
use class_world::World;
use java_tree::NoMemory;
use method_ties::MethodTies;
use rule_order::{Breach, earlier};
use std::alloc::Global;

/// What is to be judged behind a method: nothing where it breaks no rule, since then whoever takes its place breaks over the methods behind it only what it breaks over this one already; else the methods whose place it takes.
fn behind<'a>(ties: &'a MethodTies, clean: &[bool], t: u32) -> &'a [u32]
    ensures { (w : worlds.World) → HoldsTies w ties.now → IsBehind w clean.now t result.now }
{
    match clean.get(t as usize) {
        Some(true) => &[],
        _ => ties.replaced(t),
    }
}

/// Puts the methods that have no mark yet on the stack, and marks them.
fn push_unmarked(
    methods: &[u32],
    marks: &mut [usize],
    stamp: usize,
    stack: &mut Vec<u32>,
) -> Result<(), NoMemory>
    requires { (k : ℕ) → Contains methods.now k → k < length marks.old }
    ensures { OnOk result (Pushes (Contains methods.now) stamp marks.old marks.new stack.old.items stack.new.items) }
{
    for k in methods {
        let at = *k as usize;
        if marks[at] != stamp {
            marks[at] = stamp;
            stack.push(*k)?;
        }
    }
    Ok(())
}

/// The lowest number of a rule that the method breaks over one whose place it takes; `None` where it breaks none. The marks are those of earlier methods, and the stamp is a new one.
///
/// Where the methods whose place `m` takes at once break no rule, these alone are judged. Behind one that breaks some, the methods whose place that one takes are judged too, each once: the time is that of all these.
fn lowest_above(
    alloc: Global,
    w: &World,
    ties: &MethodTies,
    clean: &[bool],
    marks: &mut [usize],
    stamp: usize,
    m: u32,
) -> Result<Option<u8>, NoMemory>
    requires sound { IsSound w.now }
    requires typed { HaveTypes w.now }
    requires ties { HoldsTies w.now ties.now }
    requires clean { AreClean w.now clean.now }
    requires size { length marks.old ≡ length w.now.methods }
    requires fresh { (k : ℕ) → IsMarked marks.old stamp k → ⊥ }
    ensures lowest { IfOk result (λ o. IsLowest (BreaksAbove w.now m) o) }
    ensures marks { OnOk result ((s k : ℕ) → IsMarked marks.new s k → (s ≡ stamp) ⊎ IsMarked marks.old s k) }
{
    let Some(info) = w.methods.get(m as usize) else {
        return Ok(None);
    };
    let mut stack = Vec::new(alloc);
    push_unmarked(ties.replaced(m), marks, stamp, &mut stack)?;
    let mut lowest = None;
    while let Some(t) = stack.pop() {
        lowest = lower(lowest, lowest_broken(alloc, w, info.owner, m, t)?);
        push_unmarked(behind(ties, clean, t), marks, stamp, &mut stack)?;
    }
    Ok(lowest)
}

fn node_of(w: &World, m: u32) -> Option<u32>
    ensures { (n : ℕ) → (result ≡ Some n) ↔ ((info : infos.MethodInfo) × (slice_get w.now.methods m ≡ Some info) × (info.node ≡ Some n)) }
{
    match w.methods.get(m as usize) {
        Some(info) => info.node,
        None => None,
    }
}

/// The first breach by methods over those whose place they take where they are declared.
pub(crate) fn first_declared(
    alloc: Global,
    w: &World,
    ties: &MethodTies,
) -> Result<Option<Breach>, NoMemory>
    requires sound { IsSound w.now }
    requires typed { HaveTypes w.now }
    requires ties { HoldsTies w.now ties.now }
    ensures { IfOk result (λ o. IsFirst (DeclaredBreaches w.now) o) }
{
    let order = in_order(alloc, w)?;
    let methods = order.as_slice();
    let mut clean = vec![in alloc; false; w.methods.len()]?;
    let mut marks = vec![in alloc; methods.len(); w.methods.len()]?;
    let mut first = None;
    for (at, m) in methods.iter().enumerate() {
        let rule = lowest_above(alloc, w, ties, clean.as_slice(), &mut marks, at, *m)?;
        clean[*m as usize] = rule.is_none();
        first = earlier(first, breach_at(node_of(w, *m), rule));
    }
    Ok(first)
}
