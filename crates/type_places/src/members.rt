//! Declared types in members, and the place of a file.

ghost use Rattle.std.specs.Prelude.{◌≡◌, IfOk, map};
ghost use Rattle.std.specs.Option.{option_map};
ghost use Rattle.java_core.specs.View.{class_plain, file_plain, member_plain, method_plain, param_plain, stmt_plain, written};
ghost use Rattle.type_places.specs.Places as spec;

use crate::heads::{put, put_fields};
use crate::places::{Declared, TypePlace, Wanted};
use crate::stmts::walk;
use class_world::World;
use java_core::{CoreClass, CoreFile, CoreMember, CoreMethod, CoreParam, CoreStmt, CoreType};
use java_tree::NoMemory;
use std::alloc::Global;

fn in_result(
    w: &World,
    at: u32,
    method: u32,
    result_type: &Option<CoreType>,
    found: Option<TypePlace>,
) -> Option<TypePlace>
    ensures { result ≡ spec.in_result w.now at method (option_map written result_type.now) found }
{
    match result_type {
        None => found,
        Some(ty) => put(w, at, ty, Declared::Result(method), found),
    }
}

/// In parameters. More than 2^32 are want of memory.
fn in_params(
    w: &World,
    at: u32,
    method: u32,
    params: &[CoreParam],
    mut found: Option<TypePlace>,
) -> Result<Option<TypePlace>, NoMemory>
    ensures { IfOk result (λ r. r ≡ spec.in_params w.now at method 0 (map param_plain params.now) found) }
{
    for (index, param) in params.iter().enumerate() {
        let Ok(index) = u32::try_from(index) else {
            return Err(NoMemory);
        };
        found = put(
            w,
            at,
            &param.written,
            Declared::Param { method, index },
            found,
        );
    }
    Ok(found)
}

fn in_body(
    alloc: Global,
    w: &World,
    q: Wanted,
    body: &Option<CoreStmt>,
    found: Option<TypePlace>,
) -> Result<Option<TypePlace>, NoMemory>
    ensures { IfOk result (λ r. r ≡ spec.in_body w.now q (option_map stmt_plain body.now) found) }
{
    match body {
        None => Ok(found),
        Some(body) => walk(alloc, w, q, body, found),
    }
}

fn in_method(
    alloc: Global,
    w: &World,
    at: u32,
    method: &CoreMethod,
    found: Option<TypePlace>,
) -> Result<Option<TypePlace>, NoMemory>
    ensures { IfOk result (λ r. r ≡ spec.in_method w.now at (method_plain method.now) found) }
{
    let found = in_result(w, at, method.method, &method.result, found);
    let found = in_params(w, at, method.method, method.params.as_slice(), found)?;
    let q = Wanted {
        at,
        body: method.method,
        end: method.node.span.to,
    };
    in_body(alloc, w, q, &method.body, found)
}

fn in_member(
    alloc: Global,
    w: &World,
    at: u32,
    member: &CoreMember,
    found: Option<TypePlace>,
) -> Result<Option<TypePlace>, NoMemory>
    ensures { IfOk result (λ r. r ≡ spec.in_member w.now at (member_plain member.now) found) }
{
    match member {
        CoreMember::Fields { written, vars, .. } => {
            put_fields(alloc, w, at, written, vars.as_slice(), found)
        }
        CoreMember::Method(method) => in_method(alloc, w, at, method, found),
    }
}

fn in_members(
    alloc: Global,
    w: &World,
    at: u32,
    members: &[CoreMember],
    mut found: Option<TypePlace>,
) -> Result<Option<TypePlace>, NoMemory>
    ensures { IfOk result (λ r. r ≡ spec.in_members w.now at (map member_plain members.now) found) }
{
    for member in members {
        found = in_member(alloc, w, at, member, found)?;
    }
    Ok(found)
}

fn in_classes(
    alloc: Global,
    w: &World,
    at: u32,
    classes: &[CoreClass],
    mut found: Option<TypePlace>,
) -> Result<Option<TypePlace>, NoMemory>
    ensures { IfOk result (λ r. r ≡ spec.in_classes w.now at (map class_plain classes.now) found) }
{
    for class in classes {
        found = in_members(alloc, w, at, class.members.as_slice(), found)?;
    }
    Ok(found)
}

/// The place of a file whose head begins at a byte: of the declared type of locals, of the variable of an enhanced for, of a parameter, of fields or of a result, where
/// the head names a class or interface without type parameters (JLS 4.3, 8.3, 8.4, 14.4, 14.14.2).
pub fn place_in(
    alloc: Global,
    w: &World,
    file: &CoreFile,
    at: u32,
) -> Result<Option<TypePlace>, NoMemory>
    ensures { IfOk result (λ r. r ≡ spec.place_in w.now (file_plain file.now) at) }
{
    in_classes(alloc, w, at, file.classes.as_slice(), None)
}
