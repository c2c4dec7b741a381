//! The methods that are preferred, one of each signature (JLS 3rd edition, 8.4.8.4).

ghost use Rattle.std.specs.Prelude.{◌≡◌, ◌↔◌, ℕ, List, Some, IfOk, OnOk, IsTrue, length, nat_eq};
ghost use Rattle.std.specs.List.Sorted.{IsStrictlyIncreasing};
ghost use Rattle.std.specs.HashMap.{get};
ghost use Rattle.class_world.specs.Sound.{IsSound};
ghost use Rattle.class_world.specs.Counted.{IsPreferred};
ghost use Rattle.counted_methods.specs.Chosen.{AreChosen, AreKeptBy, HaveName, IsBest, IsBetter};

use crate::lists::is_among;
use crate::signs::signs;
use class_world::World;
use java_tree::NoMemory;
use java_tree::tree::Name;
use seen_methods::is_of_class;
use std::alloc::Global;
use std::collections::HashMap;

/// Of some methods of one name, ascending, those of which no other of their signature in the type `c` is preferred, where the superclass counts those of `above`. Takes time for the methods and their parameter types, and for the bits of their numbers.
pub(crate) fn chosen(
    alloc: Global,
    w: &World,
    c: u32,
    name: Name,
    above: &[u32],
    methods: &[u32],
) -> Result<Vec<u32>, NoMemory>
    requires sound { IsSound w.now }
    requires named { HaveName w.now name methods.now }
    requires above { IsStrictlyIncreasing above.now }
    requires ascending { IsStrictlyIncreasing methods.now }
    ensures { IfOk result (λ v. AreChosen w.now c above.now methods.now v.items) }
{
    let signs = signs(alloc, w, c, name, methods)?;
    let best = preferred(alloc, w, above, methods, signs.as_slice())?;
    kept(alloc, &best, methods, signs.as_slice())
}

/// For each sign the method that is preferred among those that have it.
fn preferred(
    alloc: Global,
    w: &World,
    above: &[u32],
    methods: &[u32],
    signs: &[Option<u32>],
) -> Result<HashMap<u32, u32>, NoMemory>
    requires above { IsStrictlyIncreasing above.now }
    requires size { length signs.now ≡ length methods.now }
    ensures { IfOk result (λ best. IsBest w.now above.now methods.now signs.now (length methods.now) (get nat_eq best)) }
{
    let mut best = HashMap::new(alloc);
    for i in 0..methods.len() {
        if let Some(sign) = signs[i] {
            add_better(&mut best, w, above, sign, methods[i])?;
        }
    }
    Ok(best)
}

/// Makes a method the best of its sign, if it is.
fn add_better(
    best: &mut HashMap<u32, u32>,
    w: &World,
    above: &[u32],
    sign: u32,
    m: u32,
) -> Result<(), NoMemory>
    requires { IsStrictlyIncreasing above.now }
    ensures { OnOk result (IsBetter w.now above.now sign m (get nat_eq best.old) (get nat_eq best.new)) }
{
    let is_better = match best.get(&sign) {
        Some(k) => is_preferred(w, above, m, *k),
        None => true,
    };
    if is_better {
        best.insert(sign, m)?;
    }
    Ok(())
}

/// Whether the first of two is preferred, where the superclass counts those of `above`.
fn is_preferred(w: &World, above: &[u32], m: u32, k: u32) -> bool
    requires { IsStrictlyIncreasing above.now }
    ensures { IsTrue result ↔ IsPreferred w.now above.now m k }
{
    let above_first = is_among(above, m);
    let above_second = is_among(above, k);
    if above_first != above_second {
        return above_first;
    }
    let first = is_of_class(w, m);
    let second = is_of_class(w, k);
    if first == second { m < k } else { first }
}

/// The methods that are the best of their signs.
fn kept(
    alloc: Global,
    best: &HashMap<u32, u32>,
    methods: &[u32],
    signs: &[Option<u32>],
) -> Result<Vec<u32>, NoMemory>
    requires ascending { IsStrictlyIncreasing methods.now }
    requires size { length signs.now ≡ length methods.now }
    ensures { IfOk result (λ v. AreKeptBy (get nat_eq best.now) methods.now signs.now v.items) }
{
    let mut kept = Vec::new(alloc);
    for i in 0..methods.len() {
        if is_best(best, signs[i], methods[i]) {
            kept.push(methods[i])?;
        }
    }
    Ok(kept)
}

/// Whether a method is the best of its sign, if it has one.
fn is_best(best: &HashMap<u32, u32>, sign: Option<u32>, m: u32) -> bool
    ensures { IsTrue result ↔ ((n : ℕ) → sign ≡ Some n → get nat_eq best.now n ≡ Some m) }
{
    match sign {
        Some(sign) => match best.get(&sign) {
            Some(k) => *k == m,
            None => false,
        },
        None => true,
    }
}
