//! Throws clauses (JLS 3rd edition, 8.4.8.3 and 11.2).

ghost use Rattle.std.specs.Prelude.{◌↔◌, [], IsTrue, IfOk, IfSome};
ghost use Rattle.class_world.specs.declared.world.JavaType.TheVariants as ty;
ghost use Rattle.class_world.specs.Subtypes.{Subtype};
ghost use Rattle.class_world.specs.Sound.{IsOfWorld, IsSound};
ghost use Rattle.override_rules.specs.Judged.{AreClassBits, AreOfWorld, HasKnownOwner, IsBelowOne, NamesMore};
ghost use Rattle.override_rules.specs.Rules.{IsUncheckedException, ThrowsMore};
ghost use Rattle.class_world.specs.Typed.{HaveTypes};

use crate::bits::{bits_above, class_bits, have_common_bit};
use class_world::{JavaType, World, is_sub, super_as};
use java_tree::{Items, NoMemory};
use seen_methods::method_of;
use std::alloc::Global;

/// The numbers of two built-in types.
const ERROR: u32 = 6;

const RUNTIME_EXCEPTION: u32 = 7;

/// The most types that are held against others one by one.
const FEW: usize = 64;

/// Whether the class `g` without arguments is above a type.
fn is_below_class(alloc: Global, w: &World, t: &JavaType, g: u32) -> Result<bool, NoMemory>
    requires sound { IsSound w.now }
    requires types { IsOfWorld w.now t.now }
    ensures { IfOk result (λ r. IsTrue r ↔ Subtype w.now t.now (ty.Class g [])) }
{
    match t {
        JavaType::Null => Ok(true),
        _ => Ok(super_as(alloc, w, t, g)?.is_some()),
    }
}

/// Whether no throws clause needs to name the type.
fn is_unchecked_exception(alloc: Global, w: &World, t: &JavaType) -> Result<bool, NoMemory>
    requires sound { IsSound w.now }
    requires types { IsOfWorld w.now t.now }
    ensures { IfOk result (λ r. IsTrue r ↔ IsUncheckedException w.now t.now) }
{
    if is_below_class(alloc, w, t, RUNTIME_EXCEPTION)? {
        return Ok(true);
    }
    is_below_class(alloc, w, t, ERROR)
}

/// Whether a type is below one of several, by holding it against each.
fn is_below_one(w: &World, e: &JavaType, upper: &[JavaType]) -> bool
    requires sound { IsSound w.now }
    requires lower { IsOfWorld w.now e.now }
    requires upper { AreOfWorld w.now upper.now }
    ensures { IsTrue result ↔ IsBelowOne w.now e.now upper.now }
{
    for f in upper {
        if is_sub(w, e, f) {
            return true;
        }
    }
    false
}

/// The bits of the upper classes; `None` where the types are few, or one of them is no class without arguments.
fn bits_of_many(
    alloc: Global,
    w: &World,
    upper: &[JavaType],
) -> Result<Option<Items<u64>>, NoMemory>
    requires { AreOfWorld w.now upper.now }
    ensures { IfOk result (λ o. IfSome o (λ words. AreClassBits upper.now words)) }
{
    if upper.len() <= FEW {
        return Ok(None);
    }
    class_bits(alloc, w, upper)
}

/// Whether a type is below one of several, by the bits of their classes where there are such.
fn is_below_some(w: &World, e: &JavaType, upper: &[JavaType], bits: &Option<Items<u64>>) -> bool
    requires sound { IsSound w.now }
    requires lower { IsOfWorld w.now e.now }
    requires upper { AreOfWorld w.now upper.now }
    requires bits { IfSome bits.now (λ words. AreClassBits upper.now words) }
    ensures { IsTrue result ↔ IsBelowOne w.now e.now upper.now }
{
    match bits {
        Some(words) => match bits_above(w, e) {
            Some(row) => have_common_bit(row, words.as_slice()),
            None => is_below_one(w, e, upper),
        },
        None => is_below_one(w, e, upper),
    }
}

/// Whether one of the types is checked and below none of the upper ones, whose bits are given where they are many.
fn names_more_than(
    alloc: Global,
    w: &World,
    lower: &[JavaType],
    upper: &[JavaType],
    bits: &Option<Items<u64>>,
) -> Result<bool, NoMemory>
    requires sound { IsSound w.now }
    requires lower { AreOfWorld w.now lower.now }
    requires upper { AreOfWorld w.now upper.now }
    requires bits { IfSome bits.now (λ words. AreClassBits upper.now words) }
    ensures { IfOk result (λ r. IsTrue r ↔ NamesMore w.now lower.now upper.now) }
{
    for e in lower {
        if !is_below_some(w, e, upper, bits) && !is_unchecked_exception(alloc, w, e)? {
            return Ok(true);
        }
    }
    Ok(false)
}

/// Whether one of the types is checked and below none of the upper ones.
fn names_more(
    alloc: Global,
    w: &World,
    lower: &[JavaType],
    upper: &[JavaType],
) -> Result<bool, NoMemory>
    requires sound { IsSound w.now }
    requires lower { AreOfWorld w.now lower.now }
    requires upper { AreOfWorld w.now upper.now }
    ensures { IfOk result (λ r. IsTrue r ↔ NamesMore w.now lower.now upper.now) }
{
    if lower.is_empty() {
        return Ok(false);
    }
    let bits = bits_of_many(alloc, w, upper)?;
    names_more_than(alloc, w, lower, upper, &bits)
}

/// Whether the throws clause of `m` names a checked class that is not below one of those of `k`. Takes time for the names of `k`'s clause, and for each of `m`'s that of at most as many words as there are types by 64, or of 64 names.
///
/// That holds where both clauses name classes without parameters only, as in each program that breaks none of the rules on types. A class with parameters or another type in `m`'s clause is held against each of `k`'s, and so are all where there is one in `k`'s.
pub(crate) fn throws_more(alloc: Global, w: &World, m: u32, k: u32) -> Result<bool, NoMemory>
    requires sound { IsSound w.now }
    requires typed { HaveTypes w.now }
    requires owners { HasKnownOwner w.now m × HasKnownOwner w.now k }
    ensures { IfOk result (λ r. IsTrue r ↔ ThrowsMore w.now m k) }
{
    let Some(low) = method_of(w, m) else {
        return Ok(false);
    };
    let Some(high) = method_of(w, k) else {
        return Ok(false);
    };
    names_more(alloc, w, low.throws.as_slice(), high.throws.as_slice())
}
