//! Classes as bits, by number and 64 to a word.

ghost use Rattle.std.specs.Prelude.{◌≡◌, ℕ, ◌<◌, ◌/◌, [], ◌↔◌, length, IsTrue, IfOk, IfSome};
ghost use Rattle.std.specs.List.{Contains};
ghost use Rattle.class_world.specs.declared.world.JavaType.TheVariants as ty;
ghost use Rattle.class_world.specs.Sound.{IsSet, IsSound};
ghost use Rattle.class_world.specs.Merged.{Sets};
ghost use Rattle.override_rules.specs.Judged.{AreAbove, AreClassBits, AreOfWorld, HaveCommonBit};

use class_world::{JavaType, World};
use java_tree::{Items, NoMemory};
use std::alloc::Global;

/// The number of a class without arguments.
fn bare_class(t: &JavaType) -> Option<u32>
    ensures { IfSome result (λ g. t.now ≡ ty.Class g []) }
{
    match t {
        JavaType::Class(g, args) => { if args.is_empty() { Some(*g) } else { None } }
        _ => None,
    }
}

/// Sets the bit `g`.
fn set(words: &mut [u64], g: u32)
    requires { g / 64 < length words.old }
    ensures sets { Sets words.old words.new g }
    ensures len { length words.new ≡ length words.old }
{
    let at = g as usize / 64;
    words[at] |= 1 << (g % 64);
}

/// Sets the bits of the types' classes, in words without a bit. `false` where one of them is no class without arguments.
fn set_classes(types: &[JavaType], words: &mut [u64]) -> bool
    requires within { (g : ℕ) → Contains types.now (ty.Class g []) → g / 64 < length words.old }
    requires none { (g : ℕ) → IsSet words.old g → ⊥ }
    ensures { IsTrue result → AreClassBits types.now words.new }
{
    for t in types {
        match bare_class(t) {
            Some(g) => set(words, g),
            None => return false,
        }
    }
    true
}

/// The bits of the types' classes; `None` where one of them is no class without arguments.
pub(crate) fn class_bits(
    alloc: Global,
    w: &World,
    types: &[JavaType],
) -> Result<Option<Items<u64>>, NoMemory>
    requires { AreOfWorld w.now types.now }
    ensures { IfOk result (λ o. IfSome o (λ words. AreClassBits types.now words)) }
{
    let mut words = vec![in alloc; 0u64; w.types.len() / 64 + 1]?;
    if set_classes(types, words.as_mut_slice()) {
        Ok(Some(Items::from_vec(words)))
    } else {
        Ok(None)
    }
}

/// The bits of the classes above a type that is a class without parameters.
pub(crate) fn bits_above<'a>(w: &'a World, t: &JavaType) -> Option<&'a [u64]>
    requires { IsSound w.now }
    ensures { IfSome result (λ words. AreAbove w.now t.now words.now) }
{
    let c = bare_class(t)?;
    let info = w.types.get(c as usize)?;
    if info.params != 0 {
        return None;
    }
    let row = w.above.get(c as usize)?;
    Some(row.types.as_slice())
}

/// Whether a bit is set in both.
pub(crate) fn have_common_bit(a: &[u64], b: &[u64]) -> bool
    ensures { IsTrue result ↔ HaveCommonBit a.now b.now }
{
    for at in 0..a.len().min(b.len()) {
        let both = a[at] & b[at];
        if both != 0 {
            return true;
        }
    }
    false
}
