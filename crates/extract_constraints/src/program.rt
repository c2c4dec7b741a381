//! The constraints of a program's user files.

ghost use Rattle.std.specs.Prelude.{◌≡◌, IfOk, [], Some, map, take};
ghost use Rattle.std.specs.Option.{option_copied, option_map};
ghost use Rattle.java_core.specs.View.{class_plain, field_plain, file_plain, member_plain, method_plain, param_plain, plain, program_plain, stmt_plain};
ghost use Rattle.type_facts.specs.Facts.{IsReady};
ghost use Rattle.extract_constraints.specs.Links as spec;
ghost use Rattle.extract_constraints.specs.Program as whole;
ghost use Rattle.extract_constraints.specs.Told.{AreTold, Gives, Told, where_of};

use crate::declarations::declaration;
use crate::exprs::value;
use crate::flows::declare;
use crate::place::Place;
use crate::stmts::{Walked, walk, with_local};
use class_world::{JavaType, copied};
use java_core::{
    CoreClass, CoreExpr, CoreField, CoreFile, CoreMember, CoreMethod, CoreParam, CoreProgram,
    CoreStmt,
};
use java_tree::{Items, NoMemory};
use kept_places::Link;
use marked_types::{Reader, marks_of};
use std::alloc::Global;
use type_facts::Questions;

fn field_value(
    alloc: Global,
    at: &Place<'_>,
    t: Option<&JavaType>,
    x: &CoreExpr,
    links: Items<Link>,
) -> Result<Items<Link>, NoMemory>
    requires { IsReady at.now.reader.q }
    ensures { Gives at.now result (λ k a. spec.field_value k a (option_copied t.entry) (plain x.now) links) }
{
    let links = value(alloc, at, &[], x, links)?;
    match t {
        None => Ok(links),
        Some(t) => declare(alloc, at, &[], x, t, links),
    }
}

fn in_field(
    alloc: Global,
    at: &Place<'_>,
    field: u32,
    x: &Option<CoreExpr>,
    links: Items<Link>,
) -> Result<Items<Link>, NoMemory>
    requires { IsReady at.now.reader.q }
    ensures { Gives at.now result (λ k a. spec.in_field k a field (option_map plain x.now) links) }
{
    match x {
        None => Ok(links),
        Some(x) => field_value(alloc, at, at.reader.marks.field(field), x, links),
    }
}

fn in_fields(
    alloc: Global,
    at: &Place<'_>,
    fields: &[CoreField],
    mut links: Items<Link>,
) -> Result<Items<Link>, NoMemory>
    requires { IsReady at.now.reader.q }
    ensures { Gives at.now result (λ k a. spec.in_fields k a (map field_plain fields.now) links) }
{
    for field in fields {
        links = in_field(alloc, at, field.field, &field.init, links)?;
    }
    Ok(links)
}

fn or_own(alloc: Global, t: Option<&JavaType>, own: &JavaType) -> Result<JavaType, NoMemory>
    ensures { IfOk result (λ r. r ≡ spec.or_own (option_copied t.entry) own.now) }
{
    match t {
        Some(t) => copied(alloc, t),
        None => copied(alloc, own),
    }
}

/// The marked types of parameters, by slot.
fn param_locals(
    alloc: Global,
    at: &Place<'_>,
    method: u32,
    params: &[CoreParam],
) -> Result<Items<JavaType>, NoMemory>
    ensures { IfOk result (λ ls. ls ≡ spec.param_locals (where_of at.now) method 0 (map param_plain params.now) []) }
{
    let mut locals = Items::new(alloc);
    for (index, param) in params.iter().enumerate() {
        let t = or_own(alloc, at.reader.marks.param(method, index), &param.ty)?;
        locals = with_local(locals, param.slot, t)?;
    }
    Ok(locals)
}

fn in_known_body(
    alloc: Global,
    at: &Place<'_>,
    method: &CoreMethod,
    body: &CoreStmt,
    links: Items<Link>,
) -> Result<Items<Link>, NoMemory>
    requires { IsReady at.now.reader.q }
    ensures { Gives at.now result (λ k a. spec.in_body k a (method_plain method.now) (Some (stmt_plain body.now)) links) }
{
    let place = Place {
        reader: at.reader,
        methods: at.methods,
        owner: at.owner,
        method: Some(method.method),
    };
    let locals = param_locals(alloc, at, method.method, method.params.as_slice())?;
    let walked = walk(alloc, &place, body, Walked { locals, links })?;
    Ok(walked.links)
}

fn in_body(
    alloc: Global,
    at: &Place<'_>,
    method: &CoreMethod,
    links: Items<Link>,
) -> Result<Items<Link>, NoMemory>
    requires { IsReady at.now.reader.q }
    ensures { Gives at.now result (λ k a. spec.in_body k a (method_plain method.now) (option_map stmt_plain method.now.body) links) }
{
    match &method.body {
        None => Ok(links),
        Some(body) => in_known_body(alloc, at, method, body, links),
    }
}

fn in_method(
    alloc: Global,
    at: &Place<'_>,
    method: &CoreMethod,
    links: Items<Link>,
) -> Result<Items<Link>, NoMemory>
    requires { IsReady at.now.reader.q }
    ensures { Gives at.now result (λ k a. spec.in_method k a (method_plain method.now) links) }
{
    let links = declaration(alloc, at, method, links)?;
    in_body(alloc, at, method, links)
}

fn in_member(
    alloc: Global,
    at: &Place<'_>,
    member: &CoreMember,
    links: Items<Link>,
) -> Result<Items<Link>, NoMemory>
    requires { IsReady at.now.reader.q }
    ensures { Gives at.now result (λ k a. spec.in_member k a (member_plain member.now) links) }
{
    match member {
        CoreMember::Fields { vars, .. } => in_fields(alloc, at, vars.as_slice(), links),
        CoreMember::Method(method) => in_method(alloc, at, method, links),
    }
}

fn in_members(
    alloc: Global,
    at: &Place<'_>,
    members: &[CoreMember],
    mut links: Items<Link>,
) -> Result<Items<Link>, NoMemory>
    requires { IsReady at.now.reader.q }
    ensures { Gives at.now result (λ k a. spec.in_members k a (map member_plain members.now) links) }
{
    for member in members {
        links = in_member(alloc, at, member, links)?;
    }
    Ok(links)
}

fn in_class(
    alloc: Global,
    at: &Place<'_>,
    class: &CoreClass,
    links: Items<Link>,
) -> Result<Items<Link>, NoMemory>
    requires { IsReady at.now.reader.q }
    ensures { Gives at.now result (λ k a. spec.in_members k (spec.in_class_of a class.now.number) (map member_plain class.now.members) links) }
{
    let place = Place {
        reader: at.reader,
        methods: at.methods,
        owner: class.number,
        method: None,
    };
    in_members(alloc, &place, class.members.as_slice(), links)
}

fn in_classes(
    alloc: Global,
    at: &Place<'_>,
    classes: &[CoreClass],
    mut links: Items<Link>,
) -> Result<Items<Link>, NoMemory>
    requires { IsReady at.now.reader.q }
    ensures { Gives at.now result (λ k a. spec.in_classes k a (map class_plain classes.now) links) }
{
    for class in classes {
        links = in_class(alloc, at, class, links)?;
    }
    Ok(links)
}

fn in_files(
    alloc: Global,
    at: &Place<'_>,
    files: &[CoreFile],
    mut links: Items<Link>,
) -> Result<Items<Link>, NoMemory>
    requires { IsReady at.now.reader.q }
    ensures { Gives at.now result (λ k a. spec.in_files k a (map file_plain files.now) links) }
{
    for file in files {
        links = in_classes(alloc, at, file.classes.as_slice(), links)?;
    }
    Ok(links)
}

fn first_files(files: &[CoreFile], users: usize) -> &[CoreFile]
    ensures { result.now ≡ take users files.now }
{
    if users <= files.len() {
        &files[..users]
    } else {
        files
    }
}

/// The constraints on the places of a class in the first files of a program, so many, which are the user's: what changes with what, and what cannot change, where an
/// interface with these methods is put above the class and takes its place in declared types and type arguments. Places are nodes of written types, and of conditionals.
pub fn links_of<'a>(
    alloc: Global,
    q: &Questions<'a>,
    core: &CoreProgram,
    users: usize,
    class: u32,
    methods: &'a [u32],
) -> Result<Items<Link>, NoMemory>
    requires ready { IsReady q.now }
    ensures { (k : Told) → AreTold q.now k
        → IfOk result (λ ls. ls ≡ whole.links_of k q.now.world.now class methods.now users (program_plain core.now)) }
{
    let files = first_files(core.files.as_slice(), users);
    let marks = marks_of(alloc, class, q.world, files)?;
    let place = Place {
        reader: Reader {
            q: *q,
            class,
            marks: &marks,
        },
        methods,
        owner: 0,
        method: None,
    };
    in_files(alloc, &place, files, Items::new(alloc))
}
