//! DR20: two members of a type have one erased signature, and not one signature.

ghost use Rattle.std.specs.Prelude.{◌↔◌, IsTrue, IfOk};
ghost use Rattle.class_world.specs.Sound.{IsKnown, IsSound};
ghost use Rattle.member_methods.specs.Methods.{AreMembers};
ghost use Rattle.inherited_rules.specs.Rules.{HasClash};
ghost use Rattle.inherited_rules.specs.Numbers.{AreErased};

use class_world::World;
use java_tree::NoMemory;
use seen_methods::have_one_signature;
use std::alloc::Global;
use std::collections::HashMap;

/// Whether two members of the type have one erased signature, by these numbers, and not one signature. Each member is compared with the first one of its erased signature alone, since methods that have one signature with a third have one.
pub(crate) fn has_clash(
    alloc: Global,
    w: &World,
    numbers: &[u32],
    c: u32,
    members: &[u32],
) -> Result<bool, NoMemory>
    requires sound { IsSound w.now }
    requires known { IsKnown w.now c }
    requires numbers { AreErased w.now numbers.now }
    requires members { AreMembers w.now c members.now }
    ensures { IfOk result (λ r. IsTrue r ↔ HasClash w.now c) }
{
    let mut firsts = HashMap::new(alloc);
    for m in members {
        let number = numbers[*m as usize];
        match firsts.get(&number).copied() {
            Some(first) => {
                if !have_one_signature(alloc, w, c, first, *m)? {
                    return Ok(true);
                }
            }
            None => {
                firsts.insert(number, *m)?;
            }
        }
    }
    Ok(false)
}
