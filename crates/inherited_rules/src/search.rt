//! The search for the first broken rule.

ghost use Rattle.std.specs.Prelude.{◌<◌, ◌^◌, IfOk, length};
ghost use Rattle.class_world.specs.Sound.{IsKnown, IsSound};
ghost use Rattle.rule_order.specs.First.{IsFirst};
ghost use Rattle.member_methods.specs.Methods.{AreMembers, HoldsMethods};
ghost use Rattle.overrides.specs.Overrides.{HoldsOverrides};
ghost use Rattle.inherited_rules.specs.Rules.{InheritedBreaches};
ghost use Rattle.class_world.specs.Typed.{HaveTypes};
ghost use Rattle.inherited_rules.specs.Parts.{BreachesOf, IsLowest};
ghost use Rattle.inherited_rules.specs.Numbers.{AreErased};

use crate::bodies::lacks_body;
use crate::clashes::has_clash;
use crate::numbers::erased_numbers;
use crate::results::has_unlike_results;
use class_world::World;
use java_tree::NoMemory;
use member_methods::MethodLists;
use overrides::Overrides;
use rule_order::{Breach, earlier};
use std::alloc::Global;

/// The first of DR18 to DR20 that is broken: at the first type by node, and there the lowest number. `NoMemory` also where there are 2^32 types.
///
/// Takes time for the member methods of the types that have a node. For DR19 the inherited ones of a type are numbered by their signatures where two have one erased signature, or one has type variables in its parameter types and is not the type's only member of its name and number of parameters; the different results of one signature are put in the order of their types by halving, those without arguments apart from the others, and each of the first is then asked against the others by halving. Where two are unlike and classes declare some of the signature, each method that the first of these does not override is compared with all others, and each of these is asked whether it overrides both; so this takes more than a step for each method only where several methods of classes become one signature, or type variables in parameter types keep an instance method from overriding. For DR18 an abstract one is compared with at most four others, or with the bodies of its signature.
pub fn first_inherited_breach(
    alloc: Global,
    w: &World,
    lists: &MethodLists,
    overrides: &Overrides,
) -> Result<Option<Breach>, NoMemory>
    requires sound { IsSound w.now }
    requires typed { HaveTypes w.now }
    requires lists { HoldsMethods w.now lists.now }
    requires overrides { HoldsOverrides w.now overrides.now }
    ensures { IfOk result (λ o. IsFirst (InheritedBreaches w.now) o) }
{
    // More types than numbers find no room in the memory of any machine.
    if w.types.len() > u32::MAX as usize {
        return Err(NoMemory);
    }
    let numbers = erased_numbers(alloc, w)?;
    let numbers = numbers.as_slice();
    let mut first = None;
    for c in 0..w.types.len() as u32 {
        first = earlier(first, breach_of(alloc, w, lists, overrides, numbers, c)?);
    }
    Ok(first)
}

/// What a type breaks, where it has a node.
fn breach_of(
    alloc: Global,
    w: &World,
    lists: &MethodLists,
    overrides: &Overrides,
    numbers: &[u32],
    c: u32,
) -> Result<Option<Breach>, NoMemory>
    requires sound { IsSound w.now }
    requires typed { HaveTypes w.now }
    requires lists { HoldsMethods w.now lists.now }
    requires overrides { HoldsOverrides w.now overrides.now }
    requires numbers { AreErased w.now numbers.now }
    ensures { IfOk result (λ o. IsFirst (BreachesOf w.now c) o) }
{
    let Some(info) = w.types.get(c as usize) else {
        return Ok(None);
    };
    let Some(node) = info.node else {
        return Ok(None);
    };
    let members = lists.all(alloc, c)?;
    match lowest_rule(alloc, w, lists, overrides, numbers, c, members.as_slice())? {
        Some(rule) => Ok(Some(Breach { node, rule })),
        None => Ok(None),
    }
}

/// The lowest number of a rule that the type breaks.
fn lowest_rule(
    alloc: Global,
    w: &World,
    lists: &MethodLists,
    overrides: &Overrides,
    numbers: &[u32],
    c: u32,
    members: &[u32],
) -> Result<Option<u8>, NoMemory>
    requires sound { IsSound w.now }
    requires typed { HaveTypes w.now }
    requires known { IsKnown w.now c }
    requires lists { HoldsMethods w.now lists.now }
    requires overrides { HoldsOverrides w.now overrides.now }
    requires numbers { AreErased w.now numbers.now }
    requires members { AreMembers w.now c members.now }
    ensures { IfOk result (λ o. IsLowest w.now c o) }
{
    if lacks_body(alloc, w, lists, overrides, c, members)? {
        return Ok(Some(18));
    }
    if has_unlike_results(alloc, w, lists, overrides, numbers, c, members)? {
        return Ok(Some(19));
    }
    if has_clash(alloc, w, numbers, c, members)? {
        return Ok(Some(20));
    }
    Ok(None)
}
