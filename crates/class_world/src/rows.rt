//! A class's row in the table, from the rows of its declared supertypes.

ghost use Rattle.std.specs.Prelude.{◌≡◌, ℕ, ◌+◌, ◌<◌, ◌/◌, ◌^◌, [], Some, length, slice_get, ◌↔◌, IfOk};
ghost use Rattle.class_world.specs.Types.{with_own};
ghost use Rattle.class_world.specs.Subtypes.{Subtype};
ghost use Rattle.class_world.specs.Sound.{AreSupers, IsRow, IsSet};
ghost use Rattle.class_world.specs.Climbs.{HasBase, MarkGeneric};
ghost use Rattle.class_world.specs.Merged.{HaveRows, HaveShortcuts};
ghost use Rattle.class_world.specs.declared.world.JavaType.TheVariants as ty;

use crate::shortcuts::shortcut;
use crate::supers::is_generic;
use crate::table::{class_of, set, set_all, set_both};
use crate::world::{Above, TypeInfo, World};
use java_tree::{Items, NoMemory};
use std::alloc::Global;

/// The bits of the generic classes.
pub(crate) fn generic_bits(alloc: Global, w: &World) -> Result<Vec<u64>, NoMemory>
    requires { length w.now.types < 2 ^ 32 }
    ensures { IfOk result (λ v. MarkGeneric w.now v.items) }
{
    let mut words = vec![in alloc; 0u64; w.types.len() / 64 + 1]?;
    mark_generic(w, words.as_mut_slice());
    Ok(words)
}

/// Sets the bits of the generic classes, in words without a bit.
fn mark_generic(w: &World, words: &mut [u64])
    requires few { length w.now.types < 2 ^ 32 }
    requires none { (g : ℕ) → IsSet words.old g → ⊥ }
    requires len { length words.old ≡ length w.now.types / 64 + 1 }
    ensures { MarkGeneric w.now words.new }
{
    for c in 0..w.types.len() as u32 {
        if is_generic(w, c) {
            set(words, c);
        }
    }
}

/// The row of a class whose declared supertypes' classes have theirs. `generic` has the bits of the generic classes, `levels` the length of the longest way up from each class.
pub(crate) fn row(
    alloc: Global,
    w: &World,
    generic: &[u64],
    levels: &[u32],
    rows: &[Above],
    c: u32,
    info: &TypeInfo,
) -> Result<Above, NoMemory>
    requires supers { AreSupers w.now }
    requires generic { MarkGeneric w.now generic.now }
    requires known { slice_get w.now.types c ≡ Some info.now }
    requires rows { HaveRows w.now rows.now info.now.supers }
    requires shortcuts { HaveShortcuts w.now rows.now }
    ensures { IfOk result (λ a. IsRow w.now c info.now.params a) }
{
    let mut types = vec![in alloc; 0u64; w.types.len() / 64 + 1]?;
    fill(w, rows, c, info, types.as_mut_slice());
    let raw_bases = raw_row(alloc, w, generic, rows, c, info)?;
    let shortcut = shortcut(alloc, w, levels, rows, c, info)?;
    Ok(Above {
        types: Items::from_vec(types),
        raw_bases: Items::from_vec(raw_bases),
        shortcut,
    })
}

/// Sets the bits of the classes that are above without arguments, in words without a bit.
fn fill(w: &World, rows: &[Above], c: u32, info: &TypeInfo, words: &mut [u64])
    requires supers { AreSupers w.now }
    requires known { slice_get w.now.types c ≡ Some info.now }
    requires rows { HaveRows w.now rows.now info.now.supers }
    requires none { (g : ℕ) → IsSet words.old g → ⊥ }
    requires len { length words.old ≡ length w.now.types / 64 + 1 }
    ensures { (g : ℕ) → IsSet words.new g ↔ Subtype w.now (with_own c info.now.params) (ty.Class g []) }
{
    set(words, 0);
    set(words, c);
    for d in info.supers.as_slice() {
        set_all(words, types_of(rows, class_of(d)));
    }
}

fn types_of(rows: &[Above], g: u32) -> &[u64]
    ensures { (a : Above) → slice_get rows.now g ≡ Some a → result.now ≡ a.types }
{
    match rows.get(g as usize) {
        Some(row) => row.types.as_slice(),
        None => &[],
    }
}

fn raw_bases_of(rows: &[Above], g: u32) -> &[u64]
    ensures { (a : Above) → slice_get rows.now g ≡ Some a → result.now ≡ a.raw_bases }
{
    match rows.get(g as usize) {
        Some(row) => row.raw_bases.as_slice(),
        None => &[],
    }
}

/// The bits of the classes of which a parameterization is above the raw type; none where the class has no parameters.
fn raw_row(
    alloc: Global,
    w: &World,
    generic: &[u64],
    rows: &[Above],
    c: u32,
    info: &TypeInfo,
) -> Result<Vec<u64>, NoMemory>
    requires supers { AreSupers w.now }
    requires generic { MarkGeneric w.now generic.now }
    requires known { slice_get w.now.types c ≡ Some info.now }
    requires rows { HaveRows w.now rows.now info.now.supers }
    ensures { IfOk result (λ v. 0 < info.now.params → (g : ℕ) → IsSet v.items g ↔ HasBase w.now (ty.Class c []) g) }
{
    if info.params == 0 {
        return Ok(Vec::new(alloc));
    }
    let mut words = vec![in alloc; 0u64; w.types.len() / 64 + 1]?;
    fill_raw(w, generic, rows, c, info, words.as_mut_slice());
    Ok(words)
}

/// Sets the bits of the classes of which a parameterization is above the raw type, in words without a bit.
fn fill_raw(w: &World, generic: &[u64], rows: &[Above], c: u32, info: &TypeInfo, words: &mut [u64])
    requires supers { AreSupers w.now }
    requires generic { MarkGeneric w.now generic.now }
    requires known { slice_get w.now.types c ≡ Some info.now }
    requires rows { HaveRows w.now rows.now info.now.supers }
    requires some { 0 < info.now.params }
    requires none { (g : ℕ) → IsSet words.old g → ⊥ }
    requires len { length words.old ≡ length w.now.types / 64 + 1 }
    ensures { (g : ℕ) → IsSet words.new g ↔ HasBase w.now (ty.Class c []) g }
{
    for d in info.supers.as_slice() {
        let h = class_of(d);
        if is_generic(w, h) {
            set_all(words, raw_bases_of(rows, h));
        } else {
            set_both(words, types_of(rows, h), generic);
        }
    }
}
