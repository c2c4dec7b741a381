//! What changes together with the head of a declared type.

ghost use Rattle.std.specs.Prelude.{◌≡◌, ℕ, [], ◌↔◌, IsTrue, IfOk, OnOk};
ghost use Rattle.class_world.specs.declared.world.World.{World as AnyWorld};
ghost use Rattle.member_table.specs.Table.{HoldsMembers};
ghost use Rattle.type_places.specs.declared.places.Declared.TheVariants as declared;
ghost use Rattle.type_places.specs.Changes.{is_flagged};
ghost use Rattle.type_places.specs.Changing as spec;

use crate::changes::Changes;
use crate::places::{Declared, TypePlace};
use class_world::World;
use java_tree::tree::Span;
use java_tree::{Items, NoMemory};
use member_table::Members;
use std::alloc::Global;

/// The scope of no local.
const NOWHERE: Span = Span { from: 0, to: 0 };

#[tactic(auto, using(crate::proofs::Flags::flag_set, crate::proofs::Flags::flag_grown))]
fn set_flag(flags: &mut Items<bool>, number: usize) -> Result<(), NoMemory>
    ensures { OnOk result (flags.new ≡ spec.with_flag number flags.old) }
{
    while flags.len() <= number {
        flags.push(false)?;
    }
    *flags.at_mut(number) = true;
    Ok(())
}

/// The flags of these numbers.
fn flags_of(alloc: Global, numbers: &[u32]) -> Result<Items<bool>, NoMemory>
    ensures { IfOk result (λ r. r ≡ spec.with_flags numbers.now []) }
{
    let mut flags = Items::new(alloc);
    for number in numbers {
        set_flag(&mut flags, *number as usize)?;
    }
    Ok(flags)
}

/// The flags of the family of a method. That of no method has none.
#[tactic(auto, using(crate::proofs::Flags::no_family))]
fn family_flags(
    alloc: Global,
    w: &World,
    members: &Members,
    method: u32,
) -> Result<Items<bool>, NoMemory>
    requires members { HoldsMembers w.now members.now }
    ensures { IfOk result (λ r. (m : ℕ) → IsTrue (is_flagged r m) ↔ spec.IsTied w.now method m) }
{
    if (method as usize) < w.methods.len() {
        return flags_of(alloc, members.family(method));
    }
    Ok(Items::new(alloc))
}

fn of_locals(
    alloc: Global,
    old: u32,
    new: u32,
    body: u32,
    slots: &[u32],
    scope: Span,
) -> Result<Changes, NoMemory>
    ensures { IfOk result (λ c. (w : AnyWorld) → spec.IsChange w old (declared.Locals body slots.now scope) new c) }
{
    let slots = flags_of(alloc, slots)?;
    Ok(Changes {
        old,
        new,
        fields: Items::new(alloc),
        results: Items::new(alloc),
        params: Items::new(alloc),
        index: 0,
        body: Some(body),
        scope,
        slots,
    })
}

#[tactic(auto, using(crate::proofs::Flags::param_change))]
fn of_param(
    alloc: Global,
    w: &World,
    members: &Members,
    old: u32,
    new: u32,
    method: u32,
    index: u32,
) -> Result<Changes, NoMemory>
    requires members { HoldsMembers w.now members.now }
    ensures { IfOk result (λ c. spec.IsChange w.now old (declared.Param method index) new c) }
{
    let params = family_flags(alloc, w, members, method)?;
    Ok(Changes {
        old,
        new,
        fields: Items::new(alloc),
        results: Items::new(alloc),
        params,
        index,
        body: None,
        scope: NOWHERE,
        slots: Items::new(alloc),
    })
}

fn of_fields(alloc: Global, old: u32, new: u32, fields: &[u32]) -> Result<Changes, NoMemory>
    ensures { IfOk result (λ c. (w : AnyWorld) → spec.IsChange w old (declared.Fields fields.now) new c) }
{
    let fields = flags_of(alloc, fields)?;
    Ok(Changes {
        old,
        new,
        fields,
        results: Items::new(alloc),
        params: Items::new(alloc),
        index: 0,
        body: None,
        scope: NOWHERE,
        slots: Items::new(alloc),
    })
}

fn of_result(alloc: Global, old: u32, new: u32, method: u32) -> Result<Changes, NoMemory>
    ensures { IfOk result (λ c. (w : AnyWorld) → spec.IsChange w old (declared.Result method) new c) }
{
    let results = flags_of(alloc, &[method])?;
    Ok(Changes {
        old,
        new,
        fields: Items::new(alloc),
        results,
        params: Items::new(alloc),
        index: 0,
        body: None,
        scope: NOWHERE,
        slots: Items::new(alloc),
    })
}

/// What changes where the head of a place comes to name the type `new`: all that is declared by it and, for a parameter, the same parameter of each method of the family
/// (JLS 8.4.8.1).
pub fn changes_of(
    alloc: Global,
    w: &World,
    members: &Members,
    place: &TypePlace,
    new: u32,
) -> Result<Changes, NoMemory>
    requires members { HoldsMembers w.now members.now }
    ensures { IfOk result (λ c. spec.IsChange w.now place.now.old place.now.declared new c) }
{
    match &place.declared {
        Declared::Locals { body, slots, scope } => {
            of_locals(alloc, place.old, new, *body, slots.as_slice(), *scope)
        }
        Declared::Param { method, index } => {
            of_param(alloc, w, members, place.old, new, *method, *index)
        }
        Declared::Fields(fields) => of_fields(alloc, place.old, new, fields.as_slice()),
        Declared::Result(method) => of_result(alloc, place.old, new, *method),
    }
}
