//! Places in members, and those of a file (JLS 8, 9).

ghost use Rattle.std.specs.Prelude.{◌≡◌, IfOk, map};
ghost use Rattle.std.specs.Option.{option_map};
ghost use Rattle.java_core.specs.View.{class_plain, field_plain, file_plain, member_plain, method_plain, param_plain, stmt_plain};
ghost use Rattle.class_places.specs.Places as spec;

use crate::exprs::optional;
use crate::places::ClassPlace;
use crate::stmts::walk;
use crate::types::{in_all_args, in_result, in_type};
use java_core::{CoreClass, CoreField, CoreFile, CoreMember, CoreMethod, CoreParam, CoreStmt};
use java_tree::{Items, NoMemory};
use std::alloc::Global;

fn in_params(
    class: u32,
    params: &[CoreParam],
    mut places: Items<ClassPlace>,
) -> Result<Items<ClassPlace>, NoMemory>
    ensures { IfOk result (λ r. r ≡ spec.in_params class (map param_plain params.now) places) }
{
    for param in params {
        places = in_type(class, &param.written, places)?;
    }
    Ok(places)
}

fn in_body(
    class: u32,
    body: &Option<CoreStmt>,
    places: Items<ClassPlace>,
) -> Result<Items<ClassPlace>, NoMemory>
    ensures { IfOk result (λ r. r ≡ spec.in_body class (option_map stmt_plain body.now) places) }
{
    match body {
        None => Ok(places),
        Some(body) => walk(class, body, places),
    }
}

fn in_method(
    class: u32,
    method: &CoreMethod,
    places: Items<ClassPlace>,
) -> Result<Items<ClassPlace>, NoMemory>
    ensures { IfOk result (λ r. r ≡ spec.in_method class (method_plain method.now) places) }
{
    let places = in_result(class, &method.result, places)?;
    let places = in_params(class, method.params.as_slice(), places)?;
    let places = in_all_args(class, method.throws.as_slice(), places)?;
    in_body(class, &method.body, places)
}

/// In the values of declared fields.
fn field_inits(
    class: u32,
    vars: &[CoreField],
    mut places: Items<ClassPlace>,
) -> Result<Items<ClassPlace>, NoMemory>
    ensures { IfOk result (λ r. r ≡ spec.field_inits class (map field_plain vars.now) places) }
{
    for var in vars {
        places = optional(class, &var.init, places)?;
    }
    Ok(places)
}

fn in_member(
    class: u32,
    member: &CoreMember,
    places: Items<ClassPlace>,
) -> Result<Items<ClassPlace>, NoMemory>
    ensures { IfOk result (λ r. r ≡ spec.in_member class (member_plain member.now) places) }
{
    match member {
        CoreMember::Fields { written, vars, .. } => {
            let places = in_type(class, written, places)?;
            field_inits(class, vars.as_slice(), places)
        }
        CoreMember::Method(method) => in_method(class, method, places),
    }
}

fn in_members(
    class: u32,
    members: &[CoreMember],
    mut places: Items<ClassPlace>,
) -> Result<Items<ClassPlace>, NoMemory>
    ensures { IfOk result (λ r. r ≡ spec.in_members class (map member_plain members.now) places) }
{
    for member in members {
        places = in_member(class, member, places)?;
    }
    Ok(places)
}

fn in_class(
    class: u32,
    declared: &CoreClass,
    places: Items<ClassPlace>,
) -> Result<Items<ClassPlace>, NoMemory>
    ensures { IfOk result (λ r. r ≡ spec.in_class class (class_plain declared.now) places) }
{
    let places = in_all_args(class, declared.extends.as_slice(), places)?;
    let places = in_all_args(class, declared.implements.as_slice(), places)?;
    in_members(class, declared.members.as_slice(), places)
}

fn in_classes(
    class: u32,
    classes: &[CoreClass],
    mut places: Items<ClassPlace>,
) -> Result<Items<ClassPlace>, NoMemory>
    ensures { IfOk result (λ r. r ≡ spec.in_classes class (map class_plain classes.now) places) }
{
    for declared in classes {
        places = in_class(class, declared, places)?;
    }
    Ok(places)
}

/// The places of a class or interface, by number, in a file, in the order of the file: where a written type names it as the declared type of locals, of the variable of
/// an enhanced for, of a parameter of a method or constructor, of fields or of a result, below any array levels (JLS 8.3, 8.4, 14.4, 14.14.2); and where it names it as
/// a type argument, wherever that stands (JLS 4.5.1).
pub fn places_in(alloc: Global, class: u32, file: &CoreFile) -> Result<Items<ClassPlace>, NoMemory>
    ensures { IfOk result (λ r. r ≡ spec.places_in class (file_plain file.now)) }
{
    in_classes(class, file.classes.as_slice(), Items::new(alloc))
}
