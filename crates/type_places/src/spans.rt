//! The heads that change in a file.

ghost use Rattle.std.specs.Prelude.{◌≡◌, IfOk, map};
ghost use Rattle.std.specs.Option.{option_copied, option_map};
ghost use Rattle.java_core.specs.View.{class_plain, file_plain, member_plain, method_plain, param_plain};
ghost use Rattle.type_places.specs.Heads as spec;

use crate::changes::Changes;
use crate::places::{Declared, TypePlace};
use java_core::{CoreClass, CoreFile, CoreMember, CoreMethod, CoreParam};
use java_tree::tree::Span;
use java_tree::{Items, NoMemory};
use std::alloc::Global;

#[tactic(auto, using(java_core::proofs::Views::type_out))]
fn head_of(param: Option<&CoreParam>) -> Option<Span>
    ensures { result ≡ spec.head_of (option_map param_plain (option_copied param.entry)) }
{
    match param {
        None => None,
        Some(param) => Some(param.written.head),
    }
}

/// The head of the parameter of a method where it changes.
#[tactic(auto, using(crate::proofs::Parts::param_at))]
fn param_head(change: &Changes, index: u32, method: &CoreMethod) -> Option<Span>
    ensures { result ≡ spec.param_head change.now index (method_plain method.now) }
{
    if change.is_param(method.method, index) {
        return head_of(method.params.get(index as usize));
    }
    None
}

fn push_head(head: Option<Span>, heads: Items<Span>) -> Result<Items<Span>, NoMemory>
    ensures { IfOk result (λ r. r ≡ spec.push_head head heads) }
{
    match head {
        None => Ok(heads),
        Some(head) => {
            let mut heads = heads;
            heads.push(head)?;
            Ok(heads)
        }
    }
}

fn in_member(
    change: &Changes,
    index: u32,
    member: &CoreMember,
    heads: Items<Span>,
) -> Result<Items<Span>, NoMemory>
    ensures { IfOk result (λ r. r ≡ spec.in_member change.now index (member_plain member.now) heads) }
{
    match member {
        CoreMember::Fields { .. } => Ok(heads),
        CoreMember::Method(method) => push_head(param_head(change, index, method), heads),
    }
}

fn in_members(
    change: &Changes,
    index: u32,
    members: &[CoreMember],
    mut heads: Items<Span>,
) -> Result<Items<Span>, NoMemory>
    ensures { IfOk result (λ r. r ≡ spec.in_members change.now index (map member_plain members.now) heads) }
{
    for member in members {
        heads = in_member(change, index, member, heads)?;
    }
    Ok(heads)
}

fn in_classes(
    change: &Changes,
    index: u32,
    classes: &[CoreClass],
    mut heads: Items<Span>,
) -> Result<Items<Span>, NoMemory>
    ensures { IfOk result (λ r. r ≡ spec.in_classes change.now index (map class_plain classes.now) heads) }
{
    for class in classes {
        heads = in_members(change, index, class.members.as_slice(), heads)?;
    }
    Ok(heads)
}

fn own_head(alloc: Global, head: Span, in_file: bool) -> Result<Items<Span>, NoMemory>
    ensures { IfOk result (λ r. r ≡ spec.own_head head in_file) }
{
    if in_file {
        return Ok(Items::one(alloc, head)?);
    }
    Ok(Items::new(alloc))
}

/// The bytes of the heads of a file that change together with a place, in the order of the file: for a parameter those of the same parameter of each method whose flag
/// is set; else the place's own head, where it stands in this file.
pub fn heads_in(
    alloc: Global,
    change: &Changes,
    place: &TypePlace,
    in_file: bool,
    file: &CoreFile,
) -> Result<Items<Span>, NoMemory>
    ensures { IfOk result (λ r. r ≡ spec.heads_in change.now place.now in_file (file_plain file.now)) }
{
    match &place.declared {
        Declared::Param { index, .. } => {
            in_classes(change, *index, file.classes.as_slice(), Items::new(alloc))
        }
        Declared::Locals { .. } => own_head(alloc, place.head, in_file),
        Declared::Fields(_) => own_head(alloc, place.head, in_file),
        Declared::Result(_) => own_head(alloc, place.head, in_file),
    }
}
