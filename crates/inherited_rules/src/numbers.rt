//! Numbers of erased signatures (JLS 3rd edition, 4.6 and 8.4.2).

ghost use Rattle.std.specs.Prelude.{◌≡◌, IfOk, map};
ghost use Rattle.class_world.specs.Types.{erased};
ghost use Rattle.inherited_rules.specs.Numbers.{AreErased};

use class_world::{JavaType, World, erase};
use java_tree::{Items, NoMemory};
use signature_numbers::SignatureNumbers;
use std::alloc::Global;

/// For each method and constructor of the world, by number, what is one for two of one name and one list of erased parameter types.
pub(crate) fn erased_numbers(alloc: Global, w: &World) -> Result<Vec<u32>, NoMemory>
    ensures { IfOk result (λ v. AreErased w.now v.items) }
{
    let mut table = SignatureNumbers::new(alloc);
    let mut numbers = Vec::new(alloc);
    for info in w.methods.as_slice() {
        let params = all_erased(alloc, info.params.as_slice())?;
        let number = table.number(info.name, params.as_slice())?;
        numbers.push(number)?;
    }
    Ok(numbers)
}

fn all_erased(alloc: Global, types: &[JavaType]) -> Result<Items<JavaType>, NoMemory>
    ensures { IfOk result (λ ts. ts ≡ map erased types.now) }
{
    let mut erasures = Items::new(alloc);
    for t in types {
        erasures.push(erase(alloc, t)?)?;
    }
    Ok(erasures)
}
