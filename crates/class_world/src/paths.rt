//! The ways up from a class to one above it, and the type of that class that they lead to (JLS 3rd edition, 8.1.5).

ghost use Rattle.std.specs.Prelude.{◌≡◌, ℕ, Some, slice_get, IsTrue, IfOk, OnOk, IfSome};
ghost use Rattle.class_world.specs.DirectSupers.{IsDirectSuper};
ghost use Rattle.class_world.specs.Subtypes.{Subtype};
ghost use Rattle.class_world.specs.Sound.{HaveClassSupers};
ghost use Rattle.class_world.specs.Climbs.{IsClassType};
ghost use Rattle.class_world.specs.Meets.{AreClassRows, ArePaths, HasFull, IsFullType};
ghost use Rattle.class_world.specs.declared.world.World.{World};

use crate::class_rows::{ClassRows, full_row};
use crate::supers::{is_generic, is_raw, supers_of};
use crate::table::{args_of, class_of, is_set};
use crate::types::{copied, substituted};
use crate::world::{JavaType, World};
use java_tree::{Items, NoMemory};
use std::alloc::Global;
use std::collections::HashMap;

/// How many types are remembered for each class of the world, on the average. What would be more is not gone, and counts as unknown.
const MOST_TYPES: usize = 64;

/// From one class up to another, by number.
#[derive(Clone, Copy, Debug, PartialEq, Eq, Hash)]
pub(crate) struct Path {
    from: u32,
    to: u32,
}

/// The ways up that were gone: the type of the class `to`, with all its arguments, that is above the class `from` with its own variables.
#[derive(Drop)]
pub(crate) struct Paths {
    types: HashMap<Path, JavaType>,
}

impl Paths {
    pub(crate) fn new(alloc: Global) -> Paths
        ensures { (w : World) → ArePaths w result }
    {
        Paths {
            types: HashMap::new(alloc),
        }
    }
}

/// The type of the class `to`, at a place of the sequence, that is above `d`; `None` where none is found. A way that was gone once is not gone again.
pub(crate) fn type_above(
    alloc: Global,
    w: &World,
    rows: &ClassRows,
    paths: &mut Paths,
    d: &JavaType,
    place: usize,
    to: u32,
) -> Result<Option<JavaType>, NoMemory>
    requires supers { HaveClassSupers w.now }
    requires rows { AreClassRows w.now rows.now }
    requires class { IsClassType w.now d.now }
    requires at { slice_get rows.now.listed place ≡ Some to }
    requires paths { ArePaths w.now paths.old }
    ensures above { IfOk result (λ o. IfSome o (λ t. IsFullType w.now to t × Subtype w.now d.now t)) }
    ensures paths { OnOk result (ArePaths w.now paths.new) }
{
    if !is_generic(w, to) {
        if !leads(w, rows, d, place) {
            return Ok(None);
        }
        return Ok(Some(JavaType::Class(to, Items::new(alloc))));
    }
    go_up(alloc, w, rows, paths, class_of(d), place, to)?;
    let t = from_path(alloc, w, paths, d, to)?;
    Ok(t)
}

/// Remembers the way from a class up to the class `to`, and those from the classes on it. It is the same for each that asks, so it ends where one was gone.
fn go_up(
    alloc: Global,
    w: &World,
    rows: &ClassRows,
    paths: &mut Paths,
    from: u32,
    place: usize,
    to: u32,
) -> Result<(), NoMemory>
    requires supers { HaveClassSupers w.now }
    requires rows { AreClassRows w.now rows.now }
    requires paths { ArePaths w.now paths.old }
    ensures { OnOk result (ArePaths w.now paths.new) }
{
    let mut way = Vec::new(alloc);
    let mut at = from;
    // A way up has no more steps than there are types.
    for _ in 0..w.types.len() {
        if at == to || paths.types.contains_key(&Path { from: at, to }) {
            break;
        }
        way.push(at)?;
        match next_up(w, rows, at, place, to) {
            Some(d) => at = class_of(d),
            None => break,
        }
    }
    while let Some(c) = way.pop() {
        remember(alloc, w, rows, paths, c, place, to)?;
    }
    Ok(())
}

/// Remembers the way from a class up to the class `to`, where that from the next class on it is known.
fn remember(
    alloc: Global,
    w: &World,
    rows: &ClassRows,
    paths: &mut Paths,
    from: u32,
    place: usize,
    to: u32,
) -> Result<(), NoMemory>
    requires supers { HaveClassSupers w.now }
    requires rows { AreClassRows w.now rows.now }
    requires paths { ArePaths w.now paths.old }
    ensures { OnOk result (ArePaths w.now paths.new) }
{
    if paths.types.len() / MOST_TYPES >= w.types.len() {
        return Ok(());
    }
    let Some(d) = next_up(w, rows, from, place, to) else {
        return Ok(());
    };
    if let Some(t) = from_path(alloc, w, paths, d, to)? {
        paths.types.insert(Path { from, to }, t)?;
    }
    Ok(())
}

/// The type of the class `to` that is above `d`, where `d` is of that class or the way up from its class was gone.
fn from_path(
    alloc: Global,
    w: &World,
    paths: &Paths,
    d: &JavaType,
    to: u32,
) -> Result<Option<JavaType>, NoMemory>
    requires supers { HaveClassSupers w.now }
    requires class { IsClassType w.now d.now }
    requires paths { ArePaths w.now paths.now }
    ensures { IfOk result (λ o. IfSome o (λ t. IsFullType w.now to t × Subtype w.now d.now t)) }
{
    let from = class_of(d);
    if is_raw(w, from, args_of(d)) {
        return Ok(None);
    }
    if from == to {
        return Ok(Some(copied(alloc, d)?));
    }
    match paths.types.get(&Path { from, to }) {
        Some(t) => Ok(Some(substituted(alloc, args_of(d), t)?)),
        None => Ok(None),
    }
}

/// The declared supertype of a class over which the way up to the class `to` goes: one of that class before the others.
fn next_up<'a>(
    w: &'a World,
    rows: &ClassRows,
    c: u32,
    place: usize,
    to: u32,
) -> Option<&'a JavaType>
    requires supers { HaveClassSupers w.now }
    requires rows { AreClassRows w.now rows.now }
    ensures { IfSome result (λ d. IsDirectSuper w.now c d.now) }
{
    for d in supers_of(w, c) {
        if class_of(d) == to {
            return Some(d);
        }
    }
    for d in supers_of(w, c) {
        if leads(w, rows, d, place) {
            return Some(d);
        }
    }
    None
}

/// Whether the bit of a place is set in the row of a type.
pub(crate) fn leads(w: &World, rows: &ClassRows, d: &JavaType, place: usize) -> bool
    requires supers { HaveClassSupers w.now }
    requires rows { AreClassRows w.now rows.now }
    requires class { IsClassType w.now d.now }
    ensures { IsTrue result → (g : ℕ) → slice_get rows.now.listed place ≡ Some g → HasFull w.now d.now g }
{
    match full_row(w, rows.rows.as_slice(), d) {
        Some(row) => is_set(row, place),
        None => false,
    }
}
