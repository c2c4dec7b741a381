//! Numbers that say which methods have one signature in a type.

ghost use Rattle.std.specs.Prelude.{◌≡◌, ℕ, List, Some, IfOk};
ghost use Rattle.std.specs.List.{Contains};
ghost use Rattle.java_tree.specs.declared.tree.Name as names;
ghost use Rattle.class_world.specs.declared.world.JavaType as types;
ghost use Rattle.class_world.specs.declared.world.MethodInfo.{MethodInfo};
ghost use Rattle.class_world.specs.Sound.{IsSound};
ghost use Rattle.class_world.specs.Signatures.{IsMethod};
ghost use Rattle.signature_numbers.specs.Numbers.{AreApart, number_in};
ghost use Rattle.counted_methods.specs.Chosen.{AreSigns, HaveName, IsSign};

use class_world::World;
use java_tree::NoMemory;
use java_tree::tree::Name;
use seen_methods::seen_params;
use signature_numbers::SignatureNumbers;
use std::alloc::Global;

/// For each of some methods of one name the number of its signature as the type `c` sees it; `None` for one that it does not see.
pub(crate) fn signs(
    alloc: Global,
    w: &World,
    c: u32,
    name: Name,
    methods: &[u32],
) -> Result<Vec<Option<u32>>, NoMemory>
    requires sound { IsSound w.now }
    requires named { HaveName w.now name methods.now }
    ensures { IfOk result (λ v. AreSigns w.now c methods.now v.items) }
{
    let mut numbers = SignatureNumbers::new(alloc);
    let mut signs = Vec::new(alloc);
    for m in methods {
        let sign = sign(alloc, w, &mut numbers, c, name, *m)?;
        signs.push(sign)?;
    }
    Ok(signs)
}

/// The number of one method's signature.
fn sign(
    alloc: Global,
    w: &World,
    numbers: &mut SignatureNumbers,
    c: u32,
    name: Name,
    m: u32,
) -> Result<Option<u32>, NoMemory>
    requires sound { IsSound w.now }
    requires apart { AreApart numbers.old }
    ensures sign { IfOk result (IsSign w.now c name numbers.new m) }
    ensures kept { (a : names.Name) (ps : List types.JavaType) (n : ℕ) → number_in numbers.old a ps ≡ Some n → number_in numbers.new a ps ≡ Some n }
    ensures apart { AreApart numbers.new }
{
    match seen_params(alloc, w, c, m)? {
        Some(params) => {
            let number = numbers.number(name, params.as_slice())?;
            Ok(Some(number))
        }
        None => Ok(None),
    }
}
