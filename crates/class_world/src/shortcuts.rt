//! The shortcuts up from the classes. They are those of a skew-binary jump list (Myers, An Applicative Random-Access Stack) over the declared supertypes with the longest way up: a way past n classes, each with one declared supertype, takes about log n steps.

ghost use Rattle.std.specs.Prelude.{◌≡◌, Some, slice_get, IfOk, IfSome};
ghost use Rattle.class_world.specs.Sound.{AreSupers, IsShortcut};
ghost use Rattle.class_world.specs.Merged.{HaveShortcuts, LeadsUp};

use crate::supers::supers_of;
use crate::table::{args_of, class_of};
use crate::types::{copied, substituted};
use crate::world::{Above, JavaType, TypeInfo, World};
use java_tree::NoMemory;
use std::alloc::Global;

/// The most arguments that a shortcut has, so that each takes little memory.
const MOST_ARGUMENTS: usize = 8;

/// The level of each class: how many classes are on its longest way up. Which shortcuts there are hangs on the levels, and so how many steps a way takes; nothing else does. `listed` are all classes, supertypes first. Takes time for the declared supertypes.
pub(crate) fn levels(alloc: Global, w: &World, listed: &[u32]) -> Result<Vec<u32>, NoMemory> {
    let mut levels = vec![in alloc; 0u32; w.types.len()]?;
    for c in listed {
        let level = level_over(levels.as_slice(), supers_of(w, *c));
        match levels.get_mut(*c as usize) {
            Some(place) => *place = level,
            None => {}
        }
    }
    Ok(levels)
}

/// The level of a class with these declared supertypes.
fn level_over(levels: &[u32], supers: &[JavaType]) -> u32 {
    match supers.get(highest(levels, supers)) {
        Some(d) => level_of(levels, d).saturating_add(1),
        None => 0,
    }
}

/// The level of a type's class.
fn level_of(levels: &[u32], t: &JavaType) -> u32 {
    match levels.get(class_of(t) as usize) {
        Some(level) => *level,
        None => 0,
    }
}

/// The place of the first type of the highest level.
fn highest(levels: &[u32], supers: &[JavaType]) -> usize {
    let mut best = 0;
    let mut most = 0;
    for i in 0..supers.len() {
        let level = level_of(levels, &supers[i]);
        if most < level {
            best = i;
            most = level;
        }
    }
    best
}

/// The shortcut of a class, where those of the classes above it are among the rows. Takes time for its declared supertypes.
pub(crate) fn shortcut(
    alloc: Global,
    w: &World,
    levels: &[u32],
    rows: &[Above],
    c: u32,
    info: &TypeInfo,
) -> Result<Option<JavaType>, NoMemory>
    requires supers { AreSupers w.now }
    requires known { slice_get w.now.types c ≡ Some info.now }
    requires shortcuts { HaveShortcuts w.now rows.now }
    ensures { IfOk result (λ o. IfSome o (λ t. IsShortcut w.now c info.now.params t)) }
{
    let supers = info.supers.as_slice();
    match supers.get(highest(levels, supers)) {
        Some(d) => {
            if is_small(d) {
                Ok(Some(far_type(alloc, w, levels, rows, d)?))
            } else {
                Ok(None)
            }
        }
        None => Ok(None),
    }
}

/// Whether a type has few arguments, each of which is a variable or a class without arguments. Such types with arguments of such types put are such types.
fn is_small(t: &JavaType) -> bool {
    let args = args_of(t);
    if MOST_ARGUMENTS < args.len() {
        return false;
    }
    for a in args {
        if !is_plain(a) {
            return false;
        }
    }
    true
}

fn is_plain(t: &JavaType) -> bool {
    match t {
        JavaType::Class(_, args) => args.is_empty(),
        JavaType::Var(_) => true,
        _ => false,
    }
}

/// The type to which two shortcuts lead up from a declared supertype, where they are of one length; else the declared supertype.
fn far_type(
    alloc: Global,
    w: &World,
    levels: &[u32],
    rows: &[Above],
    d: &JavaType,
) -> Result<JavaType, NoMemory>
    requires supers { AreSupers w.now }
    requires shortcuts { HaveShortcuts w.now rows.now }
    ensures { IfOk result (λ u. LeadsUp w.now d.now u) }
{
    match second_type(alloc, w, levels, rows, d)? {
        Some(u) => Ok(u),
        None => Ok(copied(alloc, d)?),
    }
}

/// The type to which two shortcuts lead up, where they are of one length, counted in levels.
fn second_type(
    alloc: Global,
    w: &World,
    levels: &[u32],
    rows: &[Above],
    s: &JavaType,
) -> Result<Option<JavaType>, NoMemory>
    requires supers { AreSupers w.now }
    requires shortcuts { HaveShortcuts w.now rows.now }
    ensures { IfOk result (λ o. IfSome o (λ u. LeadsUp w.now s.now u)) }
{
    let Some(t) = next_type(alloc, w, rows, s)? else {
        return Ok(None);
    };
    let Some(u) = next_type(alloc, w, rows, &t)? else {
        return Ok(None);
    };
    if is_even(
        level_of(levels, s),
        level_of(levels, &t),
        level_of(levels, &u),
    ) {
        Ok(Some(u))
    } else {
        Ok(None)
    }
}

/// Whether it is as far from the first level to the second as from there to the third.
fn is_even(first: u32, second: u32, third: u32) -> bool {
    u64::from(first) + u64::from(third) == 2 * u64::from(second)
}

/// The type to which the shortcut of a type's class leads.
fn next_type(
    alloc: Global,
    w: &World,
    rows: &[Above],
    t: &JavaType,
) -> Result<Option<JavaType>, NoMemory>
    requires supers { AreSupers w.now }
    requires shortcuts { HaveShortcuts w.now rows.now }
    ensures { IfOk result (λ o. IfSome o (λ u. LeadsUp w.now t.now u)) }
{
    match rows.get(class_of(t) as usize) {
        Some(row) => match &row.shortcut {
            Some(s) => Ok(Some(substituted(alloc, args_of(t), s)?)),
            None => Ok(None),
        },
        None => Ok(None),
    }
}
