//! The table of what is above each class.

ghost use Rattle.std.specs.Prelude.{◌≡◌, ℕ, ◌<◌, ◌/◌, List, [], ◌∷◌, ◌↔◌, Some, true, length, slice_get, IsTrue, IfOk, IfSome, IfNone};
ghost use Rattle.class_world.specs.Sound.{IsSet};
ghost use Rattle.class_world.specs.Merged.{AreWithin, ClashOne, HasPlaces, IsPlaced, Sets, SetsAll, SetsBoth, Takes};
ghost use Rattle.class_world.specs.declared.world.JavaType.TheVariants as ty;

use crate::types::is_same;
use crate::world::JavaType;
use java_tree::NoMemory;
use std::alloc::Global;

/// Sets the bit `g`.
pub(crate) fn set(words: &mut [u64], g: u32)
    requires { g / 64 < length words.old }
    ensures sets { Sets words.old words.new g }
    ensures len { length words.new ≡ length words.old }
{
    let at = g as usize / 64;
    words[at] |= 1 << (g % 64);
}

/// Sets the bits that are set in other words.
pub(crate) fn set_all(words: &mut [u64], more: &[u64])
    requires { AreWithin more.now (length words.old) }
    ensures sets { SetsAll words.old words.new more.now }
    ensures len { length words.new ≡ length words.old }
{
    for i in 0..more.len() {
        if i < words.len() {
            words[i] |= more[i];
        }
    }
}

/// Sets the bits that are set in both of two others.
pub(crate) fn set_both(words: &mut [u64], more: &[u64], mask: &[u64])
    requires { AreWithin more.now (length words.old) }
    ensures sets { SetsBoth words.old words.new more.now mask.now }
    ensures len { length words.new ≡ length words.old }
{
    for i in 0..more.len() {
        if i < words.len() && i < mask.len() {
            words[i] |= more[i] & mask[i];
        }
    }
}

/// Whether the bit `g` is set, of 64 to a word.
pub(crate) fn is_set(words: &[u64], g: usize) -> bool
    ensures { IsTrue result ↔ IsSet words.now g }
{
    match words.get(g / 64) {
        Some(word) => (*word >> (g % 64)) & 1 == 1,
        None => false,
    }
}

/// Whether the flag of a class is set.
pub(crate) fn is_marked(marks: &[bool], c: u32) -> bool
    ensures { IsTrue result ↔ (slice_get marks.now c ≡ Some true) }
{
    match marks.get(c as usize) {
        Some(mark) => *mark,
        None => false,
    }
}

/// The number of a type's class; 0 for a type that has none.
pub(crate) fn class_of(t: &JavaType) -> u32
    ensures { (g : ℕ) (args : List JavaType) → t.now ≡ ty.Class g args → result ≡ g }
{
    match t {
        JavaType::Class(g, _) => *g,
        _ => 0,
    }
}

/// A type's arguments.
pub(crate) fn args_of(t: &JavaType) -> &[JavaType]
    ensures { (g : ℕ) (args : List JavaType) → t.now ≡ ty.Class g args → result.now ≡ args }
{
    match t {
        JavaType::Class(_, args) => args.as_slice(),
        _ => &[],
    }
}

/// A list of one class type, at its place.
pub(crate) fn listed(
    alloc: Global,
    places: &mut [usize],
    t: JavaType,
) -> Result<Vec<JavaType>, NoMemory>
    requires { (g : ℕ) × (xs : List JavaType) × (t ≡ ty.Class g xs) × (g < length places.old) }
    ensures one { IfOk result (λ v. v.items ≡ t ∷ []) }
    ensures placed { IfOk result (λ v. HasPlaces v.items places.new) }
{
    places[class_of(&t) as usize] = 0;
    Ok(vec![in alloc; t]?)
}

fn is_of_class(t: &JavaType, g: u32) -> bool
    ensures { IsTrue result ↔ ((args : List JavaType) × (t.now ≡ ty.Class g args)) }
{
    match t {
        JavaType::Class(c, _) => *c == g,
        _ => false,
    }
}

/// The listed type at the place of the class `g`.
fn placed<'a>(types: &'a [JavaType], places: &[usize], g: u32) -> Option<&'a JavaType>
    ensures some { IfSome result (λ t. IsPlaced types.now places.now g t.now) }
    ensures none { IfNone result ((t : JavaType) → IsPlaced types.now places.now g t → ⊥) }
{
    let t = types.get(*places.get(g as usize)?)?;
    if is_of_class(t, g) { Some(t) } else { None }
}

/// Adds a class type, if the list doesn't cover it. `false` where another parameterization of its class is listed.
pub(crate) fn add(
    types: &mut Vec<JavaType>,
    places: &mut [usize],
    t: JavaType,
) -> Result<bool, NoMemory>
    requires class { (g : ℕ) × (xs : List JavaType) × (t ≡ ty.Class g xs) × (g < length places.old) }
    requires placed { HasPlaces types.old.items places.old }
    ensures takes { IfOk result (λ r. IsTrue r → Takes types.old.items types.new.items t) }
    ensures placed { IfOk result (λ r. IsTrue r → HasPlaces types.new.items places.new) }
    ensures other { IfOk result (λ r. (IsTrue r → ⊥) → ClashOne types.old.items t) }
{
    let g = class_of(&t);
    match placed(types.as_slice(), places, g) {
        None => {}
        Some(other) => {
            if args_of(&t).is_empty() || is_same(other, &t) {
                return Ok(true);
            }
            if !args_of(other).is_empty() {
                return Ok(false);
            }
        }
    }
    places[g as usize] = types.len();
    types.push(t)?;
    Ok(true)
}
