//! Definite assignment in members and programs (JLS 8.3.1.2, 8.3.2.3 and 16.7 to 16.9).

ghost use Rattle.std.specs.Prelude.{◌≡◌, IfOk, OnOk, map};
ghost use Rattle.std.specs.Option.{option_map};
ghost use Rattle.java_core.specs.View.{class_plain, field_plain, file_plain, member_plain, method_plain, plain, program_plain, stmt_plain, stmts_plain};
ghost use Rattle.type_kinds.specs.Members.{method_at};
ghost use Rattle.definite_assignment.specs.Bodies as spec;

use crate::blanks::{add_blanks, all_counted, is_blank, is_static};
use crate::exprs::value;
use crate::jumps::flaws_of;
use crate::state::{Variable, start};
use crate::stmts::walk;
use class_world::World;
use java_core::{
    CoreClass, CoreExpr, CoreField, CoreFile, CoreMember, CoreMethod, CoreProgram, CoreStmt,
    CoreStmtForm,
};
use java_tree::{Items, NoMemory};
use reachability::{Flaw, flaw_unless};
use std::alloc::Global;

/// Whether a statement calls another constructor of the class (JLS 8.8.7.1).
#[tactic(auto, using(crate::proofs::Statements::stmt_at))]
fn is_this_call(a: &CoreStmt) -> bool
    ensures { result ≡ spec.is_this_call (stmt_plain a.now) }
{
    match &a.form {
        CoreStmtForm::ThisCall { .. } => true,
        _ => false,
    }
}

fn first_is_this_call(stmts: &[CoreStmt]) -> bool
    ensures { result ≡ spec.first_is_this_call (stmts_plain stmts.now) }
{
    match stmts.get(0) {
        None => false,
        Some(a) => is_this_call(a),
    }
}

#[tactic(auto, using(crate::proofs::Statements::stmt_at))]
fn begins_with_this(a: &CoreStmt) -> bool
    ensures { result ≡ spec.begins_with_this (stmt_plain a.now) }
{
    match &a.form {
        CoreStmtForm::Block(stmts) => first_is_this_call(stmts.as_slice()),
        _ => false,
    }
}

/// Whether it is a constructor that gives the blank final fields their values: one that does not begin with `this(..)`.
fn is_first(w: &World, method: u32, a: &CoreStmt) -> bool
    ensures { result ≡ spec.is_first (method_at w.now method) (stmt_plain a.now) }
{
    match w.methods.get(method as usize) {
        None => false,
        Some(info) => {
            if !info.constructor {
                return false;
            }
            !begins_with_this(a)
        }
    }
}

fn in_body(
    alloc: Global,
    w: &World,
    missing: &[Variable],
    a: &CoreStmt,
    first: &mut Option<Flaw>,
) -> Result<(), NoMemory>
    ensures { OnOk result (first.new ≡ spec.in_body w.now missing.now (stmt_plain a.now) first.old) }
{
    let missing = Items::from_slice(alloc, missing)?;
    let mut s = start(alloc, missing, *first);
    walk(alloc, w, a, &mut s)?;
    *first = s.first;
    Ok(())
}

fn in_first_body(
    alloc: Global,
    w: &World,
    is_first: bool,
    blanks: &[Variable],
    a: &CoreStmt,
    first: &mut Option<Flaw>,
) -> Result<(), NoMemory>
    ensures { OnOk result (first.new ≡ spec.in_first_body w.now is_first blanks.now (stmt_plain a.now) first.old) }
{
    if is_first {
        all_counted(alloc, a, blanks, first)?;
        return in_body(alloc, w, blanks, a, first);
    }
    in_body(alloc, w, &[], a, first)
}

fn in_method(
    alloc: Global,
    w: &World,
    blanks: &[Variable],
    m: &CoreMethod,
    first: &mut Option<Flaw>,
) -> Result<(), NoMemory>
    ensures { OnOk result (first.new ≡ spec.in_method w.now blanks.now (method_plain m.now) (option_map stmt_plain m.now.body) first.old) }
{
    match &m.body {
        None => Ok(()),
        Some(a) => in_first_body(alloc, w, is_first(w, m.method, a), blanks, a, first),
    }
}

fn in_expr(
    alloc: Global,
    w: &World,
    field: u32,
    missing: &[Variable],
    x: &CoreExpr,
    first: &mut Option<Flaw>,
) -> Result<(), NoMemory>
    ensures { OnOk result (first.new ≡ spec.in_expr w.now field missing.now (plain x.now) first.old) }
{
    let missing = Items::from_slice(alloc, missing)?;
    let mut s = start(alloc, missing, *first);
    value(alloc, w, Some(field), x, &mut s)?;
    *first = s.first;
    Ok(())
}

/// The value of a field: that of a static one has no blank fields in sight.
fn in_value(
    alloc: Global,
    w: &World,
    blanks: &[Variable],
    x: &CoreField,
    first: &mut Option<Flaw>,
) -> Result<(), NoMemory>
    ensures { OnOk result (first.new ≡ spec.in_value w.now blanks.now (field_plain x.now) (option_map plain x.now.init) first.old) }
{
    match &x.init {
        None => {
            *first = flaw_unless(!is_blank(w, true, x), x.node.id, 4, *first);
            Ok(())
        }
        Some(y) => {
            if is_static(w, x.field) {
                return in_expr(alloc, w, x.field, &[], y, first);
            }
            in_expr(alloc, w, x.field, blanks, y, first)
        }
    }
}

fn in_fields(
    alloc: Global,
    w: &World,
    blanks: &[Variable],
    xs: &[CoreField],
    first: &mut Option<Flaw>,
) -> Result<(), NoMemory>
    ensures { OnOk result (first.new ≡ spec.in_fields w.now blanks.now (map field_plain xs.now) first.old) }
{
    for x in xs {
        in_value(alloc, w, blanks, x, first)?;
    }
    Ok(())
}

fn in_member(
    alloc: Global,
    w: &World,
    blanks: &[Variable],
    member: &CoreMember,
    first: &mut Option<Flaw>,
) -> Result<(), NoMemory>
    ensures { OnOk result (first.new ≡ spec.in_member w.now blanks.now (member_plain member.now) first.old) }
{
    match member {
        CoreMember::Fields { vars, .. } => in_fields(alloc, w, blanks, vars.as_slice(), first),
        CoreMember::Method(m) => in_method(alloc, w, blanks, m, first),
    }
}

fn in_members(
    alloc: Global,
    w: &World,
    blanks: &[Variable],
    members: &[CoreMember],
    first: &mut Option<Flaw>,
) -> Result<(), NoMemory>
    ensures { OnOk result (first.new ≡ spec.in_members w.now blanks.now (map member_plain members.now) first.old) }
{
    for member in members {
        in_member(alloc, w, blanks, member, first)?;
    }
    Ok(())
}

/// A default constructor gives no field a value.
fn in_default(is_default: bool, blanks: &[Variable], first: &mut Option<Flaw>)
    ensures { first.new ≡ spec.in_default is_default blanks.now first.old }
{
    if is_default {
        *first = flaws_of(blanks, *first);
    }
}

fn in_class(
    alloc: Global,
    w: &World,
    class: &CoreClass,
    first: &mut Option<Flaw>,
) -> Result<(), NoMemory>
    ensures { OnOk result (first.new ≡ spec.in_class w.now (spec.blanks w.now (map member_plain class.now.members)) (class_plain class.now) first.old) }
{
    let mut blanks = Items::new(alloc);
    add_blanks(w, class.members.as_slice(), &mut blanks)?;
    in_members(alloc, w, blanks.as_slice(), class.members.as_slice(), first)?;
    in_default(class.default.is_some(), blanks.as_slice(), first);
    Ok(())
}

fn in_classes(
    alloc: Global,
    w: &World,
    classes: &[CoreClass],
    first: &mut Option<Flaw>,
) -> Result<(), NoMemory>
    ensures { OnOk result (first.new ≡ spec.in_classes w.now (map class_plain classes.now) first.old) }
{
    for class in classes {
        in_class(alloc, w, class, first)?;
    }
    Ok(())
}

fn in_files(
    alloc: Global,
    w: &World,
    files: &[CoreFile],
    first: &mut Option<Flaw>,
) -> Result<(), NoMemory>
    ensures { OnOk result (first.new ≡ spec.in_files w.now (map file_plain files.now) first.old) }
{
    for file in files {
        in_classes(alloc, w, file.classes.as_slice(), first)?;
    }
    Ok(())
}

/// The first broken rule of F3 (a local has a value before it is used), F4 (a blank final field gets its value once), F5 (a final local has a value), F11 (a field is
/// not used by its simple name in the value of one before it) and F12 (a blank final field is not used before it has a value); `None` where the program keeps them.
pub fn unassigned(alloc: Global, w: &World, program: &CoreProgram) -> Result<Option<Flaw>, NoMemory>
    ensures { IfOk result (λ r. r ≡ spec.unassigned w.now (program_plain program.now)) }
{
    let mut first = None;
    in_files(alloc, w, program.files.as_slice(), &mut first)?;
    Ok(first)
}
