//! Iterable and its methods, by number.

ghost use Rattle.std.specs.Prelude.{IfOk};
ghost use Rattle.class_world.specs.Sound.{IsSound};
ghost use Rattle.iterables.specs.Walks.{IsIterable, IsWalked, WalkIs};
ghost use Rattle.iterables.specs.Told.{Finds, IsUsableAt};

use crate::calls::{made, steps};
use crate::texts::{is_iterable, is_iterator};
use class_world::{Walk, World};
use java_tree::{Names, NoMemory};
use std::alloc::Global;

/// The walk of the type `c`, which is java.lang.Iterable.
fn walk_of(alloc: Global, names: &Names, w: &World, c: u32) -> Result<Option<Walk>, NoMemory>
    requires sound { IsSound w.now }
    requires iterable { IsIterable names.now w.now c }
    ensures { IfOk result (Finds (IsUsableAt names.now w.now c)) }
{
    let Some(made) = made(alloc, names, w, c)? else {
        return Ok(None);
    };
    if !is_iterator(names, w, made.iterators) {
        return Ok(None);
    }
    let Some(steps) = steps(alloc, names, w, made.iterators)? else {
        return Ok(None);
    };
    Ok(Some(Walk {
        iterable: c,
        iterator: made.method,
        has_next: steps.has_next,
        next: steps.next,
    }))
}

/// The walk of the type `c`, if that is java.lang.Iterable.
fn walk_at(alloc: Global, names: &Names, w: &World, c: u32) -> Result<Option<Walk>, NoMemory>
    requires { IsSound w.now }
    ensures { IfOk result (Finds (IsUsableAt names.now w.now c)) }
{
    if is_iterable(names, w, c) {
        walk_of(alloc, names, w, c)
    } else {
        Ok(None)
    }
}

/// The numbers of the library's java.lang.Iterable and of the methods `iterator`, `hasNext` and `next`, in a sound world, where Iterable is usable: it has one parameter T and a member `iterator()` with the result `java.util.Iterator<T>`, java.util.Iterator is an interface of one parameter E with members `boolean hasNext()` and `E next()`, and none of the three has a throws clause. `None` where it is not.
///
/// Takes time for the types, and for the methods where there is such an interface; only where it inherits one of the three, the time and the memory of `MethodLists::of` too. `NoMemory` where memory runs out.
pub fn walk(alloc: Global, names: &Names, w: &World) -> Result<Option<Walk>, NoMemory>
    requires sound { IsSound w.now }
    ensures { IfOk result (λ o. WalkIs names.now o w.now) }
{
    // More types than numbers find no room in the memory of any machine.
    if w.types.len() > u32::MAX as usize {
        return Err(NoMemory);
    }
    for c in 0..w.types.len() as u32 {
        let found = walk_at(alloc, names, w, c)?;
        if found.is_some() {
            return Ok(found);
        }
    }
    Ok(None)
}

/// A sound world with its walk, in the time of `walk`. `NoMemory` where memory runs out.
pub fn with_walk(alloc: Global, names: &Names, w: World) -> Result<World, NoMemory>
    requires sound { IsSound w }
    ensures { IfOk result (IsWalked names.now w) }
{
    let walk = walk(alloc, names, &w)?;
    let World {
        types,
        methods,
        fields,
        walk: _,
        above,
    } = w;
    Ok(World {
        types,
        methods,
        fields,
        walk,
        above,
    })
}
