//! The types that the new file does not see by itself (JLS 7.5.1).

ghost use Rattle.std.specs.Prelude.{◌≡◌, [], ◌++◌, map, flat_map, IfOk, OnOk};
ghost use Rattle.std.specs.Option.{option_map};
ghost use Rattle.std.specs.List.Sorted.{IsStrictlyIncreasing};
ghost use Rattle.java_core.specs.View.{member_plain, method_plain, param_plain, type_row, written};
ghost use Rattle.interface_text.specs.Imports as spec;

use crate::extraction::Extraction;
use crate::lists::{is_among, put};
use crate::names::{full_name, is_same_path, package_of};
use crate::types::head_class;
use java_core::{CoreMember, CoreMethod, CoreParam, CoreType};
use java_tree::{Items, NoMemory};
use std::alloc::Global;

// Whether a file of the class's package sees a type by itself: one of its package or of that of Object, java.lang (JLS 7.5.3).
fn sees(q: &Extraction<'_>, number: u32) -> bool
    ensures { result ≡ spec.sees q.now number }
{
    let package = package_of(q.world, number);
    is_same_path(package, package_of(q.world, q.class))
        || is_same_path(package, package_of(q.world, 0))
}

fn with_head(
    alloc: Global,
    q: &Extraction<'_>,
    head: Option<u32>,
    found: Items<Items<u8>>,
) -> Result<Items<Items<u8>>, NoMemory>
    ensures { IfOk result (λ r. r ≡ spec.with_head q.now head found) }
{
    match head {
        None => Ok(found),
        Some(number) => {
            if sees(q, number) {
                return Ok(found);
            }
            put(full_name(alloc, q.world, q.names, number)?, found)
        }
    }
}

#[cycle(in_type)]
#[tactic(auto, using(java_core::proofs::Views::type_out))]
fn in_type(
    alloc: Global,
    q: &Extraction<'_>,
    ty: &CoreType,
    found: Items<Items<u8>>,
) -> Result<Items<Items<u8>>, NoMemory>
    ensures { IfOk result (λ r. r ≡ spec.in_type q.now (written ty.now) found) }
{
    let found = with_head(alloc, q, head_class(&ty.ty), found)?;
    in_types(alloc, q, ty.args.as_slice(), found)
}

#[cycle(in_type)]
fn in_types(
    alloc: Global,
    q: &Extraction<'_>,
    types: &[CoreType],
    mut found: Items<Items<u8>>,
) -> Result<Items<Items<u8>>, NoMemory>
    ensures { IfOk result (λ r. r ≡ spec.in_types q.now (type_row (map written types.now)) found) }
{
    for ty in types {
        found = in_type(alloc, q, ty, found)?;
    }
    Ok(found)
}

fn in_params(
    alloc: Global,
    q: &Extraction<'_>,
    params: &[CoreParam],
    mut found: Items<Items<u8>>,
) -> Result<Items<Items<u8>>, NoMemory>
    ensures { IfOk result (λ r. r ≡ spec.in_params q.now (map param_plain params.now) found) }
{
    for param in params {
        found = in_type(alloc, q, &param.written, found)?;
    }
    Ok(found)
}

fn in_throws(
    alloc: Global,
    q: &Extraction<'_>,
    throws: &[CoreType],
    mut found: Items<Items<u8>>,
) -> Result<Items<Items<u8>>, NoMemory>
    ensures { IfOk result (λ r. r ≡ spec.in_throws q.now (map written throws.now) found) }
{
    for ty in throws {
        found = in_type(alloc, q, ty, found)?;
    }
    Ok(found)
}

fn in_result(
    alloc: Global,
    q: &Extraction<'_>,
    ty: &Option<CoreType>,
    found: Items<Items<u8>>,
) -> Result<Items<Items<u8>>, NoMemory>
    ensures { IfOk result (λ r. r ≡ spec.in_result q.now (option_map written ty.now) found) }
{
    match ty {
        None => Ok(found),
        Some(ty) => in_type(alloc, q, ty, found),
    }
}

fn in_method(
    alloc: Global,
    q: &Extraction<'_>,
    method: &CoreMethod,
    found: Items<Items<u8>>,
) -> Result<Items<Items<u8>>, NoMemory>
    ensures { IfOk result (λ r. r ≡ spec.in_method q.now (method_plain method.now) found) }
{
    let found = in_result(alloc, q, &method.result, found)?;
    let found = in_params(alloc, q, method.params.as_slice(), found)?;
    in_throws(alloc, q, method.throws.as_slice(), found)
}

fn in_member(
    alloc: Global,
    q: &Extraction<'_>,
    member: &CoreMember,
    found: Items<Items<u8>>,
) -> Result<Items<Items<u8>>, NoMemory>
    requires { IsStrictlyIncreasing q.now.methods.now }
    ensures { IfOk result (λ r. r ≡ spec.in_member q.now (member_plain member.now) found) }
{
    match member {
        CoreMember::Fields { .. } => Ok(found),
        CoreMember::Method(method) => {
            if is_among(q.methods, method.method) {
                return in_method(alloc, q, method, found);
            }
            Ok(found)
        }
    }
}

fn in_members(
    alloc: Global,
    q: &Extraction<'_>,
    members: &[CoreMember],
    mut found: Items<Items<u8>>,
) -> Result<Items<Items<u8>>, NoMemory>
    requires { IsStrictlyIncreasing q.now.methods.now }
    ensures { IfOk result (λ r. r ≡ spec.in_members q.now (map member_plain members.now) found) }
{
    for member in members {
        found = in_member(alloc, q, member, found)?;
    }
    Ok(found)
}

fn push_line(name: &[u8], out: &mut Vec<u8>) -> Result<(), NoMemory>
    ensures { OnOk result (out.new.items ≡ out.old.items ++ spec.import_line name.now) }
{
    out.extend_from_slice(b"import ")?;
    out.extend_from_slice(name)?;
    out.extend_from_slice(b";\n")?;
    Ok(())
}

fn push_lines(found: &[Items<u8>], out: &mut Vec<u8>) -> Result<(), NoMemory>
    ensures { OnOk result (out.new.items ≡ out.old.items ++ flat_map spec.import_line found.now) }
{
    for name in found {
        push_line(name.as_slice(), out)?;
    }
    Ok(())
}

// The empty line behind imports, where there are any.
fn blank(found: &[Items<u8>]) -> &'static str
    ensures { result.now ≡ spec.blank found.now }
{
    match found.split_first() {
        None => "",
        Some((_first, _rest)) => "\n",
    }
}

/// Writes the imports of the types in the methods that are extracted, and an empty line, where there are any.
pub(crate) fn push_imports(
    alloc: Global,
    q: &Extraction<'_>,
    members: &[CoreMember],
    out: &mut Vec<u8>,
) -> Result<(), NoMemory>
    requires { IsStrictlyIncreasing q.now.methods.now }
    ensures { OnOk result (out.new.items ≡ out.old.items ++ spec.imports_text (spec.in_members q.now (map member_plain members.now) [])) }
{
    let found = in_members(alloc, q, members, Items::new(alloc))?;
    push_lines(found.as_slice(), out)?;
    out.extend_from_slice(blank(found.as_slice()).as_bytes())?;
    Ok(())
}
