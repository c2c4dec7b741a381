//! The constraints on the members of classes, and on a program.

ghost use Rattle.std.specs.Prelude.{◌≡◌, IfOk, None, Some, map, take};
ghost use Rattle.std.specs.Option.{option_map};
ghost use Rattle.java_core.specs.View.{class_plain, field_plain, file_plain, member_plain, method_plain, plain, program_plain, stmt_plain};
ghost use Rattle.type_kinds.specs.Members.{field_at, method_at};
ghost use Rattle.type_facts.specs.Facts.{AreFacts, Facts, IsReady};
ghost use Rattle.type_constraints.specs.Asked.{AreTies, Gives, Ties};
ghost use Rattle.type_constraints.specs.Changed as flows;
ghost use Rattle.type_constraints.specs.Constraints as spec;
ghost use Rattle.type_constraints.specs.Declarations as declarations;

use crate::declarations::declaration;
use crate::exprs::value;
use crate::flows::field_init;
use crate::place::Place;
use crate::stmts::walk;
use crate::unmet::Unmet;
use java_core::{
    CoreClass, CoreExpr, CoreField, CoreFile, CoreMember, CoreMethod, CoreProgram, CoreStmt,
};
use java_tree::NoMemory;
use java_tree::tree::Name;
use std::alloc::Global;
use type_facts::Questions;
use type_places::Changes;

fn in_field(
    alloc: Global,
    at: &Place<'_>,
    field: u32,
    x: &Option<CoreExpr>,
    first: Option<Unmet>,
) -> Result<Option<Unmet>, NoMemory>
    requires { IsReady at.now.q }
    ensures { Gives at.now result (λ a. spec.in_field a field (option_map plain x.now) first) }
{
    match x {
        None => Ok(first),
        Some(x) => {
            let first = value(alloc, at, x, first)?;
            field_init(alloc, at, field, x, first)
        }
    }
}

fn in_fields(
    alloc: Global,
    at: &Place<'_>,
    fields: &[CoreField],
    mut first: Option<Unmet>,
) -> Result<Option<Unmet>, NoMemory>
    requires { IsReady at.now.q }
    ensures { Gives at.now result (λ a. spec.in_fields a (map field_plain fields.now) first) }
{
    for field in fields {
        first = in_field(alloc, at, field.field, &field.init, first)?;
    }
    Ok(first)
}

fn in_body(
    alloc: Global,
    at: &Place<'_>,
    body: &Option<CoreStmt>,
    first: Option<Unmet>,
) -> Result<Option<Unmet>, NoMemory>
    requires { IsReady at.now.q }
    ensures { Gives at.now result (λ a. spec.in_body a (option_map stmt_plain body.now) first) }
{
    match body {
        None => Ok(first),
        Some(body) => walk(alloc, at, body, first),
    }
}

fn in_body_of(
    alloc: Global,
    at: &Place<'_>,
    method: u32,
    body: &Option<CoreStmt>,
    first: Option<Unmet>,
) -> Result<Option<Unmet>, NoMemory>
    requires { IsReady at.now.q }
    ensures { Gives at.now result (λ a. spec.in_body (spec.in_method_of a (Some method)) (option_map stmt_plain body.now) first) }
{
    let place = Place {
        q: at.q,
        change: at.change,
        main: at.main,
        class: at.class,
        method: Some(method),
    };
    in_body(alloc, &place, body, first)
}

fn in_method(
    alloc: Global,
    at: &Place<'_>,
    method: &CoreMethod,
    first: Option<Unmet>,
) -> Result<Option<Unmet>, NoMemory>
    requires { IsReady at.now.q }
    ensures { Gives at.now result (λ a. spec.in_method a (method_plain method.now) first) }
{
    let first = declaration(alloc, at, method, first)?;
    in_body_of(alloc, at, method.method, &method.body, first)
}

fn in_member(
    alloc: Global,
    at: &Place<'_>,
    member: &CoreMember,
    first: Option<Unmet>,
) -> Result<Option<Unmet>, NoMemory>
    requires { IsReady at.now.q }
    ensures { Gives at.now result (λ a. spec.in_member a (member_plain member.now) first) }
{
    match member {
        CoreMember::Fields { vars, .. } => in_fields(alloc, at, vars.as_slice(), first),
        CoreMember::Method(method) => in_method(alloc, at, method, first),
    }
}

fn in_members(
    alloc: Global,
    at: &Place<'_>,
    members: &[CoreMember],
    mut first: Option<Unmet>,
) -> Result<Option<Unmet>, NoMemory>
    requires { IsReady at.now.q }
    ensures { Gives at.now result (λ a. spec.in_members a (map member_plain members.now) first) }
{
    for member in members {
        first = in_member(alloc, at, member, first)?;
    }
    Ok(first)
}

fn in_class(
    alloc: Global,
    at: &Place<'_>,
    class: &CoreClass,
    first: Option<Unmet>,
) -> Result<Option<Unmet>, NoMemory>
    requires { IsReady at.now.q }
    ensures { Gives at.now result (λ a. spec.in_members (spec.in_class_of a class.now.number) (map member_plain class.now.members) first) }
{
    let place = Place {
        q: at.q,
        change: at.change,
        main: at.main,
        class: class.number,
        method: None,
    };
    in_members(alloc, &place, class.members.as_slice(), first)
}

fn in_classes(
    alloc: Global,
    at: &Place<'_>,
    classes: &[CoreClass],
    mut first: Option<Unmet>,
) -> Result<Option<Unmet>, NoMemory>
    requires { IsReady at.now.q }
    ensures { Gives at.now result (λ a. spec.in_classes a (map class_plain classes.now) first) }
{
    for class in classes {
        first = in_class(alloc, at, class, first)?;
    }
    Ok(first)
}

fn in_files(alloc: Global, at: &Place<'_>, files: &[CoreFile]) -> Result<Option<Unmet>, NoMemory>
    requires { IsReady at.now.q }
    ensures { Gives at.now result (λ a. spec.in_files a (map file_plain files.now) None) }
{
    let mut first = None;
    for file in files {
        first = in_classes(alloc, at, file.classes.as_slice(), first)?;
    }
    Ok(first)
}

/// The first files, so many.
fn first_files(files: &[CoreFile], count: usize) -> &[CoreFile]
    ensures { result.now ≡ take count files.now }
{
    if count < files.len() {
        &files[..count]
    } else {
        files
    }
}

/// The first constraint that stands against a change, by node and then by kind; `None` where each is met. The first `users` files of the core are the user's, and are looked at
/// alone; `main` is the name main, where a file has it.
pub fn first_unmet(
    alloc: Global,
    q: &Questions<'_>,
    change: &Changes,
    core: &CoreProgram,
    users: usize,
    main: Option<Name>,
) -> Result<Option<Unmet>, NoMemory>
    requires ready { IsReady q.now }
    ensures { (f : Facts) → AreFacts q.now f → (t : Ties) → AreTies q.now.world.now t
        → IfOk result (λ r. r ≡ spec.first_unmet f t change.now main users (program_plain core.now)) }
{
    let place = Place {
        q: *q,
        change,
        main,
        class: 0,
        method: None,
    };
    in_files(alloc, &place, first_files(core.files.as_slice(), users))
}
