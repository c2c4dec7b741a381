//! The way up from a class type to the parameterization of one class, by the bits and the shortcuts of the table. Past n classes that each declare one supertype, with few arguments that have none themselves, it takes about log n steps. A declared supertype without such arguments, or one over which no shortcut goes, is a step of its own.

ghost use Rattle.std.specs.Prelude.{◌≡◌, ℕ, List, Some, ◌↔◌, IsTrue, IfOk, IfSome, IfNone, map, slice_get};
ghost use Rattle.class_world.specs.DirectSupers.{IsDirectSuper};
ghost use Rattle.class_world.specs.Subtypes.{Parameterizes, Subtype};
ghost use Rattle.class_world.specs.Sound.{IsOfWorld, IsShortcut, IsSound};
ghost use Rattle.class_world.specs.Climbs.{HasBase, IsClassType, IsSaid, IsWayUp, LeadsTo};
ghost use Rattle.class_world.specs.Seen.{seen_as};
ghost use Rattle.class_world.specs.declared.world.JavaType.TheVariants as ty;
ghost use Rattle.class_world.specs.declared.world.TypeInfo.{TypeInfo};

use crate::seen::{Seen, are_seen};
use crate::supers::{declared_super, is_generic, is_raw, supers_of};
use crate::table::{args_of, class_of, is_set};
use crate::types::copied;
use crate::world::{JavaType, World};
use java_tree::NoMemory;
use std::alloc::Global;

/// Whether a parameterization of the class `g` is above the raw type of the class `c`, or above its types that are not raw.
pub(crate) fn has_base(w: &World, c: u32, raw: bool, g: u32) -> bool
    requires { IsSound w.now }
    ensures { (args : List JavaType) → IsSaid w.now c raw args → IsTrue result ↔ HasBase w.now (ty.Class c args) g }
{
    match w.above.get(c as usize) {
        Some(row) => {
            if raw {
                is_set(row.raw_bases.as_slice(), g as usize)
            } else {
                is_generic(w, g) && is_set(row.types.as_slice(), g as usize)
            }
        }
        None => false,
    }
}

/// The first declared supertype of the class `c` that leads to the parameterization of the class `g` above the raw type, or above those that are not raw.
fn next_super(w: &World, c: u32, raw: bool, g: u32) -> Option<&JavaType>
    requires { IsSound w.now }
    ensures some { IfSome result (λ d. IsDirectSuper w.now c d.now × LeadsTo w.now c raw d.now g) }
    ensures none { IfNone result ((args : List JavaType) → IsSaid w.now c raw args → HasBase w.now (ty.Class c args) g → c ≡ g) }
{
    for d in supers_of(w, c) {
        let h = class_of(d);
        if has_base(w, h, raw && is_generic(w, h), g) {
            return Some(d);
        }
    }
    None
}

/// The shortcut of the class `c`.
fn shortcut_of(w: &World, c: u32) -> Option<&JavaType>
    requires { IsSound w.now }
    ensures { IfSome result (λ t. (info : TypeInfo) → slice_get w.now.types c ≡ Some info → IsShortcut w.now c info.params t.now) }
{
    match w.above.get(c as usize) {
        Some(row) => match &row.shortcut {
            Some(t) => Some(t),
            None => None,
        },
        None => None,
    }
}

/// The shortcut of the class `c`, where it leads to the parameterization of the class `g` above its types that are not raw.
fn leading_shortcut(w: &World, c: u32, raw: bool, g: u32) -> Option<&JavaType>
    requires { IsSound w.now }
    ensures { IfSome result (λ d. IsWayUp w.now c raw d.now × LeadsTo w.now c raw d.now g) }
{
    if raw {
        return None;
    }
    let d = shortcut_of(w, c)?;
    if has_base(w, class_of(d), false, g) {
        Some(d)
    } else {
        None
    }
}

/// The way up from the class `c` to the parameterization of the class `g`: over the shortcut where that leads there, else over a declared supertype.
fn way_up(w: &World, c: u32, raw: bool, g: u32) -> Option<&JavaType>
    requires { IsSound w.now }
    ensures some { IfSome result (λ d. IsWayUp w.now c raw d.now × LeadsTo w.now c raw d.now g) }
    ensures none { IfNone result ((args : List JavaType) → IsSaid w.now c raw args → HasBase w.now (ty.Class c args) g → c ≡ g) }
{
    match leading_shortcut(w, c, raw, g) {
        Some(d) => Some(d),
        None => next_super(w, c, raw, g),
    }
}

/// Whether `t` is the parameterization of its class that is above the type of the class `c` with the arguments as they are seen. Goes up one step of the way a call.
pub(crate) fn is_climbed(
    w: &World,
    c: u32,
    args: &[JavaType],
    seen: &Seen<'_>,
    t: &JavaType,
) -> bool
    requires sound { IsSound w.now }
    requires class { IsOfWorld w.now (ty.Class c (map (seen_as seen.now) args.now)) }
    requires above { (g : ℕ) × Parameterizes g t.now × HasBase w.now (ty.Class c (map (seen_as seen.now) args.now)) g }
    ensures { IsTrue result ↔ Subtype w.now (ty.Class c (map (seen_as seen.now) args.now)) t.now }
{
    let g = class_of(t);
    if c == g {
        return are_seen(seen, args, args_of(t));
    }
    let raw = is_raw(w, c, args);
    let Some(d) = way_up(w, c, raw, g) else {
        return false;
    };
    if raw {
        is_climbed(w, class_of(d), &[], seen, t)
    } else {
        is_climbed(w, class_of(d), args_of(d), &Seen::Through(args, &*seen), t)
    }
}

/// The parameterization of the class `g` above a class type. Makes the type of each step of the way up, and takes no more memory than two of these.
pub(crate) fn base_above(
    alloc: Global,
    w: &World,
    t: &JavaType,
    g: u32,
) -> Result<JavaType, NoMemory>
    requires sound { IsSound w.now }
    requires class { IsClassType w.now t.now }
    requires above { HasBase w.now t.now g }
    ensures { IfOk result (λ u. Parameterizes g u × Subtype w.now t.now u) }
{
    let mut at = copied(alloc, t)?;
    while class_of(&at) != g {
        let c = class_of(&at);
        let raw = is_raw(w, c, args_of(&at));
        let Some(d) = way_up(w, c, raw, g) else {
            unreachable!();
        };
        at = declared_super(alloc, w, &at, d)?;
    }
    Ok(at)
}
