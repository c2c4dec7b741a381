//! The classes above each class, a bit for each, by its place in a sequence in which supertypes come first (JLS 3rd edition, 8.1.4 and 8.1.5), in a world whose supertypes may be raw.

ghost use Rattle.std.specs.Prelude.{◌≡◌, ℕ, ◌+◌, ◌<◌, ◌/◌, ◌^◌, List, Some, length, slice_get, IsTrue, IfOk, OnOk, IfSome};
ghost use Rattle.class_world.specs.Types.{with_own};
ghost use Rattle.class_world.specs.Sound.{HaveClassSupers, IsSet};
ghost use Rattle.class_world.specs.Sequences.{IsSequence};
ghost use Rattle.class_world.specs.Climbs.{FlagBases, IsClassType};
ghost use Rattle.class_world.specs.Meets.{AreClassRows, AreRows, IsAboveRow, IsFullType};
ghost use Rattle.class_world.specs.declared.world.TypeInfo.{TypeInfo};

use crate::supers::{is_raw, supers_of};
use crate::table::{args_of, class_of, is_marked, set, set_all};
use crate::world::{JavaType, World};
use java_tree::{Items, NoMemory};
use std::alloc::Global;

/// The classes in a sequence, supertypes first, and the rows by class. A row has the bits of the classes of which a type with all its arguments is above the class, its own included; a bit's number is the class's place in the sequence. A class with a raw type above it has no row, and the row of one that is below no parameterized type has no bit.
#[derive(Drop)]
pub(crate) struct ClassRows {
    pub(crate) listed: Items<u32>,
    pub(crate) rows: Items<Option<Items<u64>>>,
}

/// Makes the rows of all classes. Takes time for the types, and for each declared supertype that of as many words as there are classes by 64.
pub(crate) fn class_rows(
    alloc: Global,
    w: &World,
    flags: &[bool],
    listed: Vec<u32>,
) -> Result<ClassRows, NoMemory>
    requires supers { HaveClassSupers w.now }
    requires few { length w.now.types < 2 ^ 32 }
    requires flags { FlagBases w.now flags.now }
    requires sequence { IsSequence w.now listed.items }
    ensures { IfOk result (λ rows. AreClassRows w.now rows) }
{
    let mut rows = no_rows(alloc, w.types.len())?;
    for place in 0..w.types.len() as u32 {
        add_row(alloc, w, flags, listed.as_slice(), &mut rows, place)?;
    }
    Ok(ClassRows {
        listed: Items::from_vec(listed),
        rows: Items::from_vec(rows),
    })
}

fn no_rows(alloc: Global, count: usize) -> Result<Vec<Option<Items<u64>>>, NoMemory>
    ensures len { IfOk result (λ v. length v.items ≡ count) }
    ensures none { IfOk result (λ v. (c : ℕ) (words : List ℕ) → slice_get v.items c ≡ Some (Some words) → ⊥) }
{
    let mut rows = Vec::new(alloc);
    for _ in 0..count {
        rows.push(None)?;
    }
    Ok(rows)
}

/// Writes the row of the class at a place of the sequence.
fn add_row(
    alloc: Global,
    w: &World,
    flags: &[bool],
    listed: &[u32],
    rows: &mut Vec<Option<Items<u64>>>,
    place: u32,
) -> Result<(), NoMemory>
    requires supers { HaveClassSupers w.now }
    requires flags { FlagBases w.now flags.now }
    requires sequence { IsSequence w.now listed.now }
    requires rows { AreRows w.now listed.now rows.old.items }
    requires len { length rows.old.items ≡ length w.now.types }
    ensures len { length rows.new.items ≡ length w.now.types }
    ensures rows { OnOk result (AreRows w.now listed.now rows.new.items) }
{
    if let Some(c) = listed.get(place as usize) {
        let row = row_above(alloc, w, flags, listed, rows.as_slice(), place, *c)?;
        rows[*c as usize] = row;
    }
    Ok(())
}

/// The row of the class `c` at a place of the sequence, from those of its declared supertypes' classes.
fn row_above(
    alloc: Global,
    w: &World,
    flags: &[bool],
    listed: &[u32],
    rows: &[Option<Items<u64>>],
    place: u32,
    c: u32,
) -> Result<Option<Items<u64>>, NoMemory>
    requires supers { HaveClassSupers w.now }
    requires flags { FlagBases w.now flags.now }
    requires at { slice_get listed.now place ≡ Some c }
    requires rows { AreRows w.now listed.now rows.now }
    ensures { IfOk result (λ o. IfSome o (λ words. (info : TypeInfo) → slice_get w.now.types c ≡ Some info → IsAboveRow w.now listed.now (with_own c info.params) words)) }
{
    if !is_marked(flags, c) {
        return Ok(Some(Items::new(alloc)));
    }
    let mut words = vec![in alloc; 0u64; listed.len() / 64 + 1]?;
    if fill(w, listed, rows, place, words.as_mut_slice()) {
        Ok(Some(Items::from_vec(words)))
    } else {
        Ok(None)
    }
}

/// Sets the bits of the class at a place of the sequence and of those above it, in words without a bit. `false` where a raw type is above it.
fn fill(
    w: &World,
    listed: &[u32],
    rows: &[Option<Items<u64>>],
    place: u32,
    words: &mut [u64],
) -> bool
    requires supers { HaveClassSupers w.now }
    requires within { place < length listed.now }
    requires rows { AreRows w.now listed.now rows.now }
    requires none { (q : ℕ) → IsSet words.old q → ⊥ }
    requires len { length words.old ≡ length listed.now / 64 + 1 }
    ensures { IsTrue result → (c : ℕ) (info : TypeInfo) → slice_get listed.now place ≡ Some c → slice_get w.now.types c ≡ Some info → IsAboveRow w.now listed.now (with_own c info.params) words.new }
{
    set(words, place);
    for d in supers_of(w, listed[place as usize]) {
        match full_row(w, rows, d) {
            Some(row) => set_all(words, row),
            None => return false,
        }
    }
    true
}

/// The row of a type's class, where the type is not raw and its class has one.
pub(crate) fn full_row<'a>(
    w: &World,
    rows: &'a [Option<Items<u64>>],
    d: &JavaType,
) -> Option<&'a [u64]>
    requires supers { HaveClassSupers w.now }
    requires class { IsClassType w.now d.now }
    ensures row { (listed : List ℕ) → AreRows w.now listed rows.now → IfSome result (λ words. IsAboveRow w.now listed d.now words.now) }
    ensures full { IfSome result (λ words. (g : ℕ) × IsFullType w.now g d.now) }
{
    let c = class_of(d);
    if is_raw(w, c, args_of(d)) {
        return None;
    }
    match rows.get(c as usize) {
        Some(Some(row)) => Some(row.as_slice()),
        _ => None,
    }
}
