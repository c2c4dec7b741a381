//! DR19: a type inherits methods of one signature whose results are unlike, and none of a class that overrides both.

ghost use Rattle.std.specs.Prelude.{◌≡◌, ◌↔◌, ◌⊎◌, ℕ, List, true, IsTrue, IfOk, OnOk, nat_eq};
ghost use Rattle.std.specs.List.{Contains};
ghost use Rattle.std.specs.List.Sorted.{IsStrictlyIncreasing};
ghost use Rattle.std.specs.HashSet.{contains};
ghost use Rattle.class_world.specs.Sound.{IsKnown, IsSound};
ghost use Rattle.class_world.specs.Typed.{HaveTypes};
ghost use Rattle.class_world.specs.Signatures.{HaveOneSignatureIn};
ghost use Rattle.class_world.specs.Inheritance.{IsMemberMethod};
ghost use Rattle.overrides.specs.Overrides.{HoldsOverrides};
ghost use Rattle.member_methods.specs.Methods.{AreMembers, HoldsMethods};
ghost use Rattle.inherited_rules.specs.Rules.{HasUnlikeResults, IsInherited};
ghost use Rattle.inherited_rules.specs.Numbers.{AreErased, IsClosedOrAlone};
ghost use Rattle.inherited_rules.specs.Parts.{AreJudged, HasMembers, HasUnresolvedPair, IsJudged};

use crate::methods::{ascending, declares};
use crate::unresolved::has_unresolved;
use class_world::World;
use java_tree::NoMemory;
use member_methods::MethodLists;
use numbered_methods::NumberedMethods;
use overrides::Overrides;
use seen_methods::{has_closed_params, method_of};
use std::alloc::Global;
use std::collections::HashSet;

/// Whether the type has two methods of one signature that it does not itself declare, neither result fits the other, and no method of a class among those overrides both. Where two of these members have one erased signature, by these numbers, or one has type variables in its parameter types and is not the type's only member of its name and number of parameters, they are numbered by their signatures, and those of one signature are judged together.
pub(crate) fn has_unlike_results(
    alloc: Global,
    w: &World,
    lists: &MethodLists,
    overrides: &Overrides,
    numbers: &[u32],
    c: u32,
    members: &[u32],
) -> Result<bool, NoMemory>
    requires sound { IsSound w.now }
    requires typed { HaveTypes w.now }
    requires known { IsKnown w.now c }
    requires lists { HoldsMethods w.now lists.now }
    requires overrides { HoldsOverrides w.now overrides.now }
    requires numbers { AreErased w.now numbers.now }
    requires members { AreMembers w.now c members.now }
    ensures { IfOk result (λ r. IsTrue r ↔ HasUnlikeResults w.now c) }
{
    if !may_meet(alloc, w, lists, numbers, c, members)? {
        return Ok(false);
    }
    let inherited = inherited_of(alloc, w, c, members)?;
    let inherited = inherited.as_slice();
    let table = NumberedMethods::of(alloc, w, c, inherited)?;
    let found = has_unresolved_pair(alloc, w, overrides, c, &table, inherited)?;
    Ok(found)
}

/// Tells of most types that no two methods that they inherit have one signature: no two have one erased signature, and each that has type variables in its parameter types is the type's only member of its name and number of parameters.
fn may_meet(
    alloc: Global,
    w: &World,
    lists: &MethodLists,
    numbers: &[u32],
    c: u32,
    members: &[u32],
) -> Result<bool, NoMemory>
    requires lists { HoldsMethods w.now lists.now }
    requires numbers { AreErased w.now numbers.now }
    requires members { AreMembers w.now c members.now }
    ensures { IfOk result (λ r. (m k : ℕ) → IsInherited w.now c m → IsInherited w.now c k → HaveOneSignatureIn w.now c m k → (m ≡ k) ⊎ IsTrue r) }
{
    let mut seen = HashSet::new(alloc);
    for m in members {
        if !declares(w, c, *m) {
            let is_new = seen.insert(numbers[*m as usize])?;
            if !is_new || may_meet_namesake(w, lists, c, *m) {
                return Ok(true);
            }
        }
    }
    Ok(false)
}

/// Whether the type's member has type variables in its parameter types, and is not the only one of its name and number of parameters. Two of which it is false have one signature only where they have one erased signature.
fn may_meet_namesake(w: &World, lists: &MethodLists, c: u32, m: u32) -> bool
    requires lists { HoldsMethods w.now lists.now }
    requires member { IsMemberMethod w.now c m }
    ensures { (IsTrue result → ⊥) → IsClosedOrAlone w.now c m }
{
    if has_closed_params(w, m) {
        return false;
    }
    match method_of(w, m) {
        Some(info) => lists.named(c, info.name, info.params.len()).len() > 1,
        None => false,
    }
}

/// Those of the type's members that it does not itself declare, ascending.
fn inherited_of(alloc: Global, w: &World, c: u32, members: &[u32]) -> Result<Vec<u32>, NoMemory>
    requires { AreMembers w.now c members.now }
    ensures has { IfOk result (λ v. (k : ℕ) → Contains v.items k ↔ IsInherited w.now c k) }
    ensures ascending { IfOk result (λ v. IsStrictlyIncreasing v.items) }
{
    let mut found = Vec::new(alloc);
    for k in members {
        if !declares(w, c, *k) {
            found.push(*k)?;
        }
    }
    Ok(ascending(found))
}

/// Whether two of the methods, which the table has, have one signature and unlike results, and none of them that a class declares overrides both.
fn has_unresolved_pair(
    alloc: Global,
    w: &World,
    overrides: &Overrides,
    c: u32,
    table: &NumberedMethods,
    methods: &[u32],
) -> Result<bool, NoMemory>
    requires sound { IsSound w.now }
    requires typed { HaveTypes w.now }
    requires known { IsKnown w.now c }
    requires overrides { HoldsOverrides w.now overrides.now }
    requires table { HasMembers w.now c methods.now table.now }
    ensures { IfOk result (λ r. IsTrue r ↔ HasUnresolvedPair w.now c methods.now) }
{
    let mut judged = HashSet::new(alloc);
    for m in methods {
        if judge(alloc, w, overrides, c, table, *m, &mut judged)? {
            return Ok(true);
        }
    }
    Ok(false)
}

/// Whether two of the table's methods that have this one's signature are such a pair; if not, all of these are judged, and need not be again.
fn judge(
    alloc: Global,
    w: &World,
    overrides: &Overrides,
    c: u32,
    table: &NumberedMethods,
    m: u32,
    judged: &mut HashSet<u32>,
) -> Result<bool, NoMemory>
    requires sound { IsSound w.now }
    requires typed { HaveTypes w.now }
    requires known { IsKnown w.now c }
    requires overrides { HoldsOverrides w.now overrides.now }
    ensures yes { IfOk result (λ r. (ms : List ℕ) → HasMembers w.now c ms table.now → IsTrue r → HasUnresolvedPair w.now c ms) }
    ensures no { IfOk result (λ r. (ms : List ℕ) → HasMembers w.now c ms table.now → Contains ms m → AreJudged w.now c ms (contains nat_eq judged.old) → (IsTrue r → ⊥) → IsJudged w.now c ms m × AreJudged w.now c ms (contains nat_eq judged.new)) }
{
    if judged.contains(&m) {
        return Ok(false);
    }
    let alike = table.alike(alloc, w, m)?;
    if has_unresolved(alloc, w, overrides, c, alike)? {
        return Ok(true);
    }
    insert_all(judged, alike)?;
    Ok(false)
}

fn insert_all(set: &mut HashSet<u32>, xs: &[u32]) -> Result<(), NoMemory>
    ensures { OnOk result ((x : ℕ) → (contains nat_eq set.new x ≡ true) ↔ ((contains nat_eq set.old x ≡ true) ⊎ Contains xs.now x)) }
{
    for x in xs {
        set.insert(*x)?;
    }
    Ok(())
}
