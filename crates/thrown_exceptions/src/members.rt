//! What members throw, and what they declare (JLS 8.4.6, 11.2).

ghost use Rattle.std.specs.Prelude.{◌≡◌, Bool, IfOk, map};
ghost use Rattle.std.specs.Option.{option_map};
ghost use Rattle.class_world.specs.Sound.{IsSound};
ghost use Rattle.class_world.specs.declared.world.JavaType.{JavaType};
ghost use Rattle.java_core.specs.View.{class_plain, field_plain, file_plain, member_plain, method_plain, program_plain, stmt_plain};
ghost use Rattle.type_kinds.specs.Members.{method_at};
ghost use Rattle.thrown_exceptions.specs.Thrown as spec;
ghost use Rattle.thrown_exceptions.specs.Thrown.{IsOrder};

use crate::classes::{are_under, classes_in, is_under, throws_of};
use crate::exprs::optional;
use crate::state::{Raised, none_raised, start};
use crate::stmts::walk;
use class_world::World;
use java_core::{
    CoreClass, CoreField, CoreFile, CoreMember, CoreMethod, CoreProgram, CoreStmt, Implied,
};
use java_tree::NoMemory;
use reachability::{Flaw, flaw_unless};
use std::alloc::Global;

/// F6: each exception is declared by one of the classes.
fn declared(
    alloc: Global,
    w: &World,
    throws: &[u32],
    raised: &[Raised],
    first: Option<Flaw>,
) -> Option<Flaw>
    requires { IsSound w.now }
    ensures { (below : JavaType → JavaType → Bool) → IsOrder w.now below → result ≡ spec.declared below throws.now raised.now first }
{
    let mut first = first;
    for exception in raised {
        let is_declared = is_under(alloc, w, throws, exception.class);
        first = flaw_unless(is_declared, exception.node, 6, first);
    }
    first
}

fn in_body(
    alloc: Global,
    w: &World,
    throws: &[u32],
    body: &Option<CoreStmt>,
    first: Option<Flaw>,
) -> Result<Option<Flaw>, NoMemory>
    requires { IsSound w.now }
    ensures { spec.Gives w.now result (λ below. spec.in_body w.now below throws.now (option_map stmt_plain body.now) first) }
{
    match body {
        None => Ok(first),
        Some(body) => {
            let mut state = start(alloc, first);
            walk(alloc, w, body, &mut state)?;
            Ok(declared(alloc, w, throws, state.raised.as_slice(), state.first))
        }
    }
}

/// F10: a constructor that is called without being written throws nothing checked but what is declared (JLS 8.8.7, 8.8.9).
fn in_implied(
    alloc: Global,
    w: &World,
    throws: &[u32],
    implied: &Option<Implied>,
    first: Option<Flaw>,
) -> Option<Flaw>
    requires { IsSound w.now }
    ensures { (below : JavaType → JavaType → Bool) → IsOrder w.now below → result ≡ spec.in_implied w.now below throws.now implied.now first }
{
    match implied {
        None => first,
        Some(call) => {
            let are_declared = are_under(alloc, w, throws, throws_of(w, call.constructor));
            flaw_unless(are_declared, call.node.id, 10, first)
        }
    }
}

fn in_method(
    alloc: Global,
    w: &World,
    method: &CoreMethod,
    first: Option<Flaw>,
) -> Result<Option<Flaw>, NoMemory>
    requires { IsSound w.now }
    ensures { spec.Gives w.now result (λ below. spec.in_method w.now below (method_plain method.now) (spec.classes_in (spec.throws_of (method_at w.now method.now.method))) first) }
{
    let throws = classes_in(alloc, throws_of(w, method.method))?;
    let first = in_implied(alloc, w, throws.as_slice(), &method.implied, first);
    in_body(alloc, w, throws.as_slice(), &method.body, first)
}

fn in_field(
    alloc: Global,
    w: &World,
    field: &CoreField,
    first: Option<Flaw>,
) -> Result<Option<Flaw>, NoMemory>
    requires { IsSound w.now }
    ensures { spec.Gives w.now result (λ below. spec.in_field w.now below (field_plain field.now) first) }
{
    let mut state = start(alloc, first);
    optional(alloc, w, &field.init, &mut state)?;
    Ok(none_raised(field.node.id, &state))
}

fn in_fields(
    alloc: Global,
    w: &World,
    fields: &[CoreField],
    first: Option<Flaw>,
) -> Result<Option<Flaw>, NoMemory>
    requires { IsSound w.now }
    ensures { spec.Gives w.now result (λ below. spec.in_fields w.now below (map field_plain fields.now) first) }
{
    let mut first = first;
    for field in fields {
        first = in_field(alloc, w, field, first)?;
    }
    Ok(first)
}

fn in_member(
    alloc: Global,
    w: &World,
    member: &CoreMember,
    first: Option<Flaw>,
) -> Result<Option<Flaw>, NoMemory>
    requires { IsSound w.now }
    ensures { spec.Gives w.now result (λ below. spec.in_member w.now below (member_plain member.now) first) }
{
    match member {
        CoreMember::Fields { vars, .. } => in_fields(alloc, w, vars.as_slice(), first),
        CoreMember::Method(method) => in_method(alloc, w, method, first),
    }
}

fn in_members(
    alloc: Global,
    w: &World,
    members: &[CoreMember],
    first: Option<Flaw>,
) -> Result<Option<Flaw>, NoMemory>
    requires { IsSound w.now }
    ensures { spec.Gives w.now result (λ below. spec.in_members w.now below (map member_plain members.now) first) }
{
    let mut first = first;
    for member in members {
        first = in_member(alloc, w, member, first)?;
    }
    Ok(first)
}

fn in_class(
    alloc: Global,
    w: &World,
    class: &CoreClass,
    first: Option<Flaw>,
) -> Result<Option<Flaw>, NoMemory>
    requires { IsSound w.now }
    ensures { spec.Gives w.now result (λ below. spec.in_class w.now below (class_plain class.now) first) }
{
    let first = in_members(alloc, w, class.members.as_slice(), first)?;
    Ok(in_implied(alloc, w, &[], &class.default, first))
}

fn in_classes(
    alloc: Global,
    w: &World,
    classes: &[CoreClass],
    first: Option<Flaw>,
) -> Result<Option<Flaw>, NoMemory>
    requires { IsSound w.now }
    ensures { spec.Gives w.now result (λ below. spec.in_classes w.now below (map class_plain classes.now) first) }
{
    let mut first = first;
    for class in classes {
        first = in_class(alloc, w, class, first)?;
    }
    Ok(first)
}

fn in_files(
    alloc: Global,
    w: &World,
    files: &[CoreFile],
    first: Option<Flaw>,
) -> Result<Option<Flaw>, NoMemory>
    requires { IsSound w.now }
    ensures { spec.Gives w.now result (λ below. spec.in_files w.now below (map file_plain files.now) first) }
{
    let mut first = first;
    for file in files {
        first = in_classes(alloc, w, file.classes.as_slice(), first)?;
    }
    Ok(first)
}

/// The first of F6 to F10 that a program breaks (JLS 11.2, 14.19, 14.20), by node and then by rule.
pub fn unhandled(alloc: Global, w: &World, program: &CoreProgram) -> Result<Option<Flaw>, NoMemory>
    requires sound { IsSound w.now }
    ensures { spec.Gives w.now result (λ below. spec.unhandled w.now below (program_plain program.now)) }
{
    in_files(alloc, w, program.files.as_slice(), None)
}
