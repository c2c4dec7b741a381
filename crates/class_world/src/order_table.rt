//! Building the table of the order (JLS 3rd edition, 8.1.4 and 8.1.5).

ghost use Rattle.std.specs.Prelude.{◌≡◌, ℕ, ◌<◌, ◌^◌, length, List, None, Some, slice_get, IfOk};
ghost use Rattle.class_world.specs.Sound.{AreSupers};
ghost use Rattle.class_world.specs.Climbs.{MarkGeneric};
ghost use Rattle.class_world.specs.DirectSupers.{IsDirectSuper};
ghost use Rattle.class_world.specs.Merged.{HasRow, HaveShortcuts};
ghost use Rattle.class_world.specs.Sequences.{IsSequence};
ghost use Rattle.class_world.specs.Ordered.{IsOrdered};
ghost use Rattle.class_world.specs.declared.world.Above.{Above};
ghost use Rattle.class_world.specs.declared.world.JavaType.{JavaType};
ghost use Rattle.class_world.specs.declared.world.JavaType.TheVariants as ty;

use crate::below_two::first_doubled;
use crate::rows::{generic_bits, row};
use crate::sequence::{Sorted, sort};
use crate::shortcuts::levels;
use crate::world::{Above, World};
use java_tree::{Items, NoMemory};
use std::alloc::Global;

/// A world with its table; or the number of a class that is above itself, or that is below two parameterizations of one class.
#[derive(Drop)]
pub enum Ordered {
    Sound(World),
    AboveItself(u32),
    BelowTwo(u32),
}

/// Gives a world the table of its order. The time is that of `first_below_two`, and of going over the declared supertypes, and for each over as many words as there are classes by 64.
pub fn with_order(alloc: Global, w: World) -> Result<Ordered, NoMemory>
    requires supers { AreSupers w }
    requires few { length w.types < 2 ^ 32 }
    ensures { IfOk result (λ r. IsOrdered w r) }
{
    let listed = match sort(alloc, &w)? {
        Sorted::AboveItself(c) => return Ok(Ordered::AboveItself(c)),
        Sorted::Sequence(listed) => listed,
    };
    if let Some(c) = first_doubled(alloc, &w)? {
        return Ok(Ordered::BelowTwo(c));
    }
    let rows = fill_rows(alloc, &w, listed.as_slice())?;
    let World {
        types,
        methods,
        fields,
        walk,
        above: _,
    } = w;
    Ok(Ordered::Sound(World {
        types,
        methods,
        fields,
        walk,
        above: Items::from_vec(rows),
    }))
}

/// The rows of all classes, those of a sequence in which supertypes come first.
fn fill_rows(alloc: Global, w: &World, listed: &[u32]) -> Result<Vec<Above>, NoMemory>
    requires supers { AreSupers w.now }
    requires few { length w.now.types < 2 ^ 32 }
    requires sequence { IsSequence w.now listed.now }
    ensures { IfOk result (λ v. (c : ℕ) → HasRow w.now v.items c) }
{
    let generic = generic_bits(alloc, w)?;
    let levels = levels(alloc, w, listed)?;
    let mut rows = empty_rows(alloc, w.types.len())?;
    for c in listed {
        add_row(
            alloc,
            w,
            generic.as_slice(),
            levels.as_slice(),
            &mut rows,
            *c,
        )?;
    }
    Ok(rows)
}

fn empty_rows(alloc: Global, count: usize) -> Result<Vec<Above>, NoMemory>
    ensures len { IfOk result (λ v. length v.items ≡ count) }
    ensures none { IfOk result (λ v. (c : ℕ) (a : Above) → slice_get v.items c ≡ Some a → a.shortcut ≡ None) }
{
    let mut rows = Vec::new(alloc);
    for _ in 0..count {
        rows.push(Above {
            types: Items::new(alloc),
            raw_bases: Items::new(alloc),
            shortcut: None,
        })?;
    }
    Ok(rows)
}

/// Writes the row of a class.
fn add_row(
    alloc: Global,
    w: &World,
    generic: &[u64],
    levels: &[u32],
    rows: &mut Vec<Above>,
    c: u32,
) -> Result<(), NoMemory>
    requires supers { AreSupers w.now }
    requires generic { MarkGeneric w.now generic.now }
    requires within { c < length w.now.types }
    requires len { length rows.old.items ≡ length w.now.types }
    requires above { (g : ℕ) (args : List JavaType) → IsDirectSuper w.now c (ty.Class g args) → HasRow w.now rows.old.items g }
    requires shortcuts { HaveShortcuts w.now rows.old.items }
    ensures len { length rows.new.items ≡ length w.now.types }
    ensures kept { (g : ℕ) → HasRow w.now rows.old.items g → HasRow w.now rows.new.items g }
    ensures shortcuts { HaveShortcuts w.now rows.new.items }
    ensures row { IfOk result (λ r. HasRow w.now rows.new.items c) }
{
    if let Some(info) = w.types.get(c as usize) {
        let row = row(alloc, w, generic, levels, rows.as_slice(), c, info)?;
        rows[c as usize] = row;
    }
    Ok(())
}
