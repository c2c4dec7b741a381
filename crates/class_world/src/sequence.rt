//! A sequence of the classes in which those of the declared supertypes come first (JLS 3rd edition, 8.1.4).

ghost use Rattle.std.specs.Prelude.{◌≡◌, ℕ, ◌<◌, ◌≤◌, ◌^◌, List, [], Some, true, false, length, slice_get, IsTrue, IfOk, IfSome, IfNone, ◌↔◌, ◌∷◌};
ghost use Rattle.class_world.specs.Sound.{HaveClassSupers, IsSound};
ghost use Rattle.class_world.specs.DirectSupers.{IsDirectSuper};
ghost use Rattle.class_world.specs.Merged.{FinishedBefore, IsAboveItself, IsSearch, declared_supers};
ghost use Rattle.class_world.specs.Sequences.{IsSequence};
ghost use Rattle.class_world.specs.Sorts.{IsSorted};
ghost use Rattle.class_world.specs.declared.world.JavaType.{JavaType};
ghost use Rattle.class_world.specs.declared.world.JavaType.TheVariants as ty;

use crate::supers::supers_of;
use crate::table::{class_of, is_marked};
use crate::world::World;
use java_tree::NoMemory;
use std::alloc::Global;

/// A sequence of all classes in which the classes of their declared supertypes come first, or a class above itself.
pub(crate) enum Sorted {
    Sequence(Vec<u32>),
    AboveItself(u32),
}

/// A class on the stack of the search; the classes of its first `passed` declared supertypes are finished.
#[derive(Clone, Copy)]
pub(crate) struct Visit {
    class: u32,
    passed: usize,
}

/// All classes of a sound world, those of a class's declared supertypes before it. Takes time for the types and their declared supertypes.
pub fn supers_first(alloc: Global, w: &World) -> Result<Vec<u32>, NoMemory>
    requires { IsSound w.now }
    ensures { IfOk result (λ v. IsSequence w.now v.items) }
{
    // More classes than numbers find no room in the memory of any machine.
    if w.types.len() > u32::MAX as usize {
        return Err(NoMemory);
    }
    match sort(alloc, w)? {
        Sorted::Sequence(listed) => Ok(listed),
        Sorted::AboveItself(_) => unreachable!(),
    }
}

/// Sorts the classes. Takes time for the types and their declared supertypes.
pub(crate) fn sort(alloc: Global, w: &World) -> Result<Sorted, NoMemory>
    requires supers { HaveClassSupers w.now }
    requires few { length w.now.types < 2 ^ 32 }
    ensures { IfOk result (λ r. IsSorted w.now r) }
{
    let count = w.types.len();
    let mut seen = vec![in alloc; false; count]?;
    let mut finished = vec![in alloc; false; count]?;
    let mut listed = Vec::new(alloc);
    for start in 0..count as u32 {
        if !seen[start as usize] {
            seen[start as usize] = true;
            match finish(alloc, w, start, &mut seen, &mut finished, &mut listed)? {
                Some(c) => return Ok(Sorted::AboveItself(c)),
                None => {}
            }
        }
    }
    Ok(Sorted::Sequence(listed))
}

/// Lists a class after those above it; or gives a class above itself.
fn finish(
    alloc: Global,
    w: &World,
    start: u32,
    seen: &mut Vec<bool>,
    finished: &mut Vec<bool>,
    listed: &mut Vec<u32>,
) -> Result<Option<u32>, NoMemory>
    requires supers { HaveClassSupers w.now }
    requires search { IsSearch w.now seen.old.items finished.old.items (start ∷ []) listed.old.items }
    ensures search { IfOk result (λ o. IfNone o (IsSearch w.now seen.new.items finished.new.items [] listed.new.items)) }
    ensures kept { IfOk result (λ o. IfNone o ((c : ℕ) → slice_get seen.old.items c ≡ Some true → slice_get seen.new.items c ≡ Some true)) }
    ensures above { IfOk result (λ o. IfSome o (λ c. IsAboveItself w.now c)) }
{
    let mut stack = vec![in alloc;
        Visit {
            class: start,
            passed: 0
        },
    ]?;
    while let Some(top) = stack.pop() {
        match first_unfinished(w, finished.as_slice(), top) {
            None => {
                finished[top.class as usize] = true;
                listed.push(top.class)?;
            }
            Some((place, g)) => {
                if seen[g as usize] {
                    return Ok(Some(top.class));
                }
                seen[g as usize] = true;
                stack.push(Visit {
                    passed: place,
                    ..top
                })?;
                stack.push(Visit {
                    class: g,
                    passed: 0,
                })?;
            }
        }
    }
    Ok(None)
}

/// The place and the class of the first declared supertype whose class is not finished.
fn first_unfinished(w: &World, finished: &[bool], visit: Visit) -> Option<(usize, u32)>
    requires supers { HaveClassSupers w.now }
    requires size { length finished.now ≡ length w.now.types }
    requires passed { FinishedBefore finished.now (declared_supers w.now visit.class) visit.passed }
    ensures some { IfSome result (λ r. ((args : List JavaType) × IsDirectSuper w.now visit.class (ty.Class r.1 args)) × (slice_get finished.now r.1 ≡ Some false)) }
    ensures passed { IfSome result (λ r. FinishedBefore finished.now (declared_supers w.now visit.class) r.0) }
    ensures none { IfNone result ((g : ℕ) (args : List JavaType) → IsDirectSuper w.now visit.class (ty.Class g args) → slice_get finished.now g ≡ Some true) }
{
    let supers = supers_of(w, visit.class);
    for at in visit.passed..supers.len() {
        let g = class_of(&supers[at]);
        if !is_marked(finished, g) {
            return Some((at, g));
        }
    }
    None
}
