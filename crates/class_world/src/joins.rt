//! Whether the ways up from the declared supertypes of a class agree (JLS 3rd edition, 8.1.5), where each of these is below at most one parameterization of each class.

ghost use Rattle.std.specs.Prelude.{◌≡◌, ℕ, ◌+◌, ◌<◌, ◌≤◌, ◌/◌, ◌^◌, Some, length, slice_get, IsTrue, IfOk, OnOk, IfSome, IfNone};
ghost use Rattle.class_world.specs.Sound.{HaveClassSupers, IsSet};
ghost use Rattle.class_world.specs.Merged.{declared_supers};
ghost use Rattle.class_world.specs.Ordered.{IsSingleClass};
ghost use Rattle.class_world.specs.Meets.{AgreeBefore, AreClassRows, ArePaths, AreSettled, AreSingleTypes, HaveBits};

use crate::class_rows::{ClassRows, full_row};
use crate::paths::{Paths, leads, type_above};
use crate::supers::supers_of;
use crate::table::set_all;
use crate::types::is_same;
use crate::world::{JavaType, World};
use java_tree::NoMemory;
use std::alloc::Global;

/// How many classes are looked at in which the way up from one declared supertype meets those from the earlier ones. Where there are more, the answer is that it is not known.
const MOST_MEETS: usize = 16;

/// A quick test, right where it says yes: the class is below at most one parameterization of each class. Takes, for each declared supertype, the time of as many words as there are classes by 64, once for each class where its way up first meets an earlier one, and that of the ways up to these classes that were not gone yet.
pub(crate) fn is_single_join(
    alloc: Global,
    w: &World,
    rows: &ClassRows,
    paths: &mut Paths,
    c: u32,
) -> Result<bool, NoMemory>
    requires supers { HaveClassSupers w.now }
    requires rows { AreClassRows w.now rows.now }
    requires singles { AreSingleTypes w.now (declared_supers w.now c) }
    requires paths { ArePaths w.now paths.old }
    ensures single { IfOk result (λ r. IsTrue r → IsSingleClass w.now c) }
    ensures paths { OnOk result (ArePaths w.now paths.new) }
{
    let mut above = vec![in alloc; 0u64; rows.listed.len() / 64 + 1]?;
    let agree = all_agree(alloc, w, rows, paths, supers_of(w, c), above.as_mut_slice())?;
    Ok(agree)
}

/// Whether the ways up from these types agree. `above` are words without a bit, in which it sets those of the classes above them.
fn all_agree(
    alloc: Global,
    w: &World,
    rows: &ClassRows,
    paths: &mut Paths,
    supers: &[JavaType],
    above: &mut [u64],
) -> Result<bool, NoMemory>
    requires supers { HaveClassSupers w.now }
    requires rows { AreClassRows w.now rows.now }
    requires singles { AreSingleTypes w.now supers.now }
    requires paths { ArePaths w.now paths.old }
    requires len { length above.old ≡ length rows.now.listed / 64 + 1 }
    ensures agree { IfOk result (λ r. IsTrue r → AgreeBefore w.now supers.now (length supers.now)) }
    ensures paths { OnOk result (ArePaths w.now paths.new) }
{
    for at in 0..supers.len() {
        let Some(row) = full_row(w, rows.rows.as_slice(), &supers[at]) else {
            return Ok(false);
        };
        if !agrees(alloc, w, rows, paths, supers, at, above)? {
            return Ok(false);
        }
        set_all(above, row);
    }
    Ok(true)
}

/// Whether the way up from the type at a place agrees with those from the types before it, which agree with each other. `above` has the bits of what is above these.
fn agrees(
    alloc: Global,
    w: &World,
    rows: &ClassRows,
    paths: &mut Paths,
    supers: &[JavaType],
    at: usize,
    above: &[u64],
) -> Result<bool, NoMemory>
    requires supers { HaveClassSupers w.now }
    requires rows { AreClassRows w.now rows.now }
    requires singles { AreSingleTypes w.now supers.now }
    requires paths { ArePaths w.now paths.old }
    requires within { at < length supers.now }
    requires agree { AgreeBefore w.now supers.now at }
    requires above { HaveBits w.now rows.now.listed supers.now at above.now }
    requires len { length above.now ≡ length rows.now.listed / 64 + 1 }
    ensures agree { IfOk result (λ r. IsTrue r → AgreeBefore w.now supers.now (at + 1)) }
    ensures paths { OnOk result (ArePaths w.now paths.new) }
{
    let Some(row) = full_row(w, rows.rows.as_slice(), &supers[at]) else {
        return Ok(false);
    };
    let mut settled = vec![in alloc; 0u64; rows.listed.len() / 64 + 1]?;
    let settled = settled.as_mut_slice();
    for _ in 0..MOST_MEETS {
        let Some(place) = last_unsettled(above, row, settled) else {
            return Ok(true);
        };
        if !settle(alloc, w, rows, paths, supers, at, place, settled)? {
            return Ok(false);
        }
    }
    Ok(false)
}

/// Whether the type at a place of the list and one before it have one type of the class at a place of the sequence above them. If so, it sets the bits of what is above that class: no way up from the two types comes to another type of one of these.
fn settle(
    alloc: Global,
    w: &World,
    rows: &ClassRows,
    paths: &mut Paths,
    supers: &[JavaType],
    at: usize,
    place: usize,
    settled: &mut [u64],
) -> Result<bool, NoMemory>
    requires supers { HaveClassSupers w.now }
    requires rows { AreClassRows w.now rows.now }
    requires singles { AreSingleTypes w.now supers.now }
    requires paths { ArePaths w.now paths.old }
    requires within { at < length supers.now }
    requires agree { AgreeBefore w.now supers.now at }
    requires settled { AreSettled w.now rows.now.listed supers.now at settled.old }
    requires len { length settled.old ≡ length rows.now.listed / 64 + 1 }
    ensures settled { IfOk result (λ r. IsTrue r → AreSettled w.now rows.now.listed supers.now at settled.new) }
    ensures paths { OnOk result (ArePaths w.now paths.new) }
{
    let Some(meet) = rows.listed.get(place) else {
        return Ok(false);
    };
    let Some(earlier) = first_leading(w, rows, supers, at, place) else {
        return Ok(false);
    };
    let Some(t) = type_above(alloc, w, rows, paths, earlier, place, *meet)? else {
        return Ok(false);
    };
    let Some(u) = type_above(alloc, w, rows, paths, &supers[at], place, *meet)? else {
        return Ok(false);
    };
    let Some(Some(row)) = rows.rows.get(*meet as usize) else {
        return Ok(false);
    };
    if !is_same(&t, &u) {
        return Ok(false);
    }
    set_all(settled, row.as_slice());
    Ok(true)
}

/// The first of the types before a place of the list that the class at a place of the sequence is above.
fn first_leading<'a>(
    w: &World,
    rows: &ClassRows,
    supers: &'a [JavaType],
    before: usize,
    place: usize,
) -> Option<&'a JavaType>
    requires supers { HaveClassSupers w.now }
    requires rows { AreClassRows w.now rows.now }
    requires singles { AreSingleTypes w.now supers.now }
    ensures { IfSome result (λ d. (j : ℕ) × (j < before) × (slice_get supers.now j ≡ Some d.now)) }
{
    for j in 0..before {
        match supers.get(j) {
            Some(d) => {
                if leads(w, rows, d, place) {
                    return Some(d);
                }
            }
            None => {}
        }
    }
    None
}

/// The last bit that is set in both lists of words and not among the settled ones.
fn last_unsettled(words: &[u64], others: &[u64], settled: &[u64]) -> Option<usize>
    requires few { length words.now ≤ 2 ^ 58 }
    requires len { length settled.now ≡ length words.now }
    ensures { IfNone result ((q : ℕ) → IsSet words.now q → IsSet others.now q → IsSet settled.now q) }
{
    for at in 0..words.len() {
        let i = words.len() - 1 - at;
        if i < others.len() {
            let left = words[i] & others[i] & !settled[i];
            if left != 0 {
                return Some(i * 64 + (63 - left.leading_zeros()) as usize);
            }
        }
    }
    None
}
