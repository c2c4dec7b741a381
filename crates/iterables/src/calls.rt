//! The methods that the enhanced for calls (JLS 3rd edition, 14.14.2).

ghost use Rattle.std.specs.Prelude.{IfOk};
ghost use Rattle.class_world.specs.Sound.{IsKnown, IsSound};
ghost use Rattle.iterables.specs.Walks.{IsCalled};
ghost use Rattle.iterables.specs.Told.{AreSteps, Finds, FindsOne, IsMade};

use crate::members::plain;
use crate::results::{has_result, iterator_given};
use class_world::{JavaType, World};
use java_tree::tree::Primitive;
use java_tree::{Names, NoMemory};
use std::alloc::Global;

/// The method `iterator` of an interface, and the type of its result.
#[derive(Clone, Copy)]
pub(crate) struct IteratorCall {
    pub(crate) method: u32,
    pub(crate) iterators: u32,
}

/// The methods `hasNext` and `next` of an interface.
#[derive(Clone, Copy)]
pub(crate) struct StepCalls {
    pub(crate) has_next: u32,
    pub(crate) next: u32,
}

/// The member of the interface `c` that is called by this name, where it has this result and no throws clause.
fn called(
    alloc: Global,
    names: &Names,
    w: &World,
    c: u32,
    text: &str,
    t: &JavaType,
) -> Result<Option<u32>, NoMemory>
    requires sound { IsSound w.now }
    requires known { IsKnown w.now c }
    ensures { IfOk result (Finds (IsCalled names.now w.now c text.now t.now)) }
{
    let Some(m) = plain(alloc, names, w, c, text)? else {
        return Ok(None);
    };
    if has_result(alloc, w, c, m, t)? {
        Ok(Some(m))
    } else {
        Ok(None)
    }
}

/// `Iterator<T> iterator()` of the interface `c`, where `Iterator` is any type.
pub(crate) fn made(
    alloc: Global,
    names: &Names,
    w: &World,
    c: u32,
) -> Result<Option<IteratorCall>, NoMemory>
    requires sound { IsSound w.now }
    requires known { IsKnown w.now c }
    ensures { IfOk result (FindsOne (IsMade names.now w.now c)) }
{
    let Some(method) = plain(alloc, names, w, c, "iterator")? else {
        return Ok(None);
    };
    let Some(iterators) = iterator_given(alloc, w, c, method)? else {
        return Ok(None);
    };
    Ok(Some(IteratorCall { method, iterators }))
}

/// `boolean hasNext()` and `E next()` of the interface `d`.
pub(crate) fn steps(
    alloc: Global,
    names: &Names,
    w: &World,
    d: u32,
) -> Result<Option<StepCalls>, NoMemory>
    requires sound { IsSound w.now }
    requires known { IsKnown w.now d }
    ensures { IfOk result (Finds (AreSteps names.now w.now d)) }
{
    let boolean = JavaType::Prim(Primitive::Boolean);
    let Some(has_next) = called(alloc, names, w, d, "hasNext", &boolean)? else {
        return Ok(None);
    };
    let element = JavaType::Var(0);
    let Some(next) = called(alloc, names, w, d, "next", &element)? else {
        return Ok(None);
    };
    Ok(Some(StepCalls { has_next, next }))
}
