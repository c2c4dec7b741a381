//! The blank final fields of a class (JLS 8.3.1.2), and how often a constructor gives them values.

ghost use Rattle.std.specs.Prelude.{◌≡◌, ◌++◌, OnOk, map};
ghost use Rattle.java_core.specs.View.{field_plain, member_plain, plain, stmt_plain, stmts_plain};
ghost use Rattle.type_kinds.specs.Members.{field_at};
ghost use Rattle.definite_assignment.specs.Bodies as spec;

use crate::fields::is_this;
use crate::state::Variable;
use class_world::World;
use java_core::{CoreExpr, CoreField, CoreForm, CoreMember, CoreStmt, CoreStmtForm};
use java_tree::{Items, NoMemory};
use reachability::{Flaw, is_same_truth, noted};
use std::alloc::Global;
use type_kinds::members::{is_final_field, is_static_field};

pub(crate) fn is_static(w: &World, field: u32) -> bool
    ensures { result ≡ spec.is_static w.now (field_at w.now field) }
{
    match w.fields.get(field as usize) {
        None => false,
        Some(info) => is_static_field(w, info),
    }
}

/// Whether it is a final field without a value of its own, that is static where `of_class` says so.
pub(crate) fn is_blank(w: &World, of_class: bool, x: &CoreField) -> bool
    ensures { result ≡ spec.is_blank w.now of_class (field_plain x.now) }
{
    if x.init.is_some() {
        return false;
    }
    if !is_final_field(w, x.field) {
        return false;
    }
    is_same_truth(of_class, is_static(w, x.field))
}

fn add_blank_vars(w: &World, xs: &[CoreField], out: &mut Items<Variable>) -> Result<(), NoMemory>
    ensures { OnOk result (out.new ≡ out.old ++ spec.blank_vars w.now (map field_plain xs.now)) }
{
    for x in xs {
        if is_blank(w, false, x) {
            out.push(Variable::Blank {
                node: x.node.id,
                field: x.field,
            })?;
        }
    }
    Ok(())
}

fn add_blanks_in(w: &World, member: &CoreMember, out: &mut Items<Variable>) -> Result<(), NoMemory>
    ensures { OnOk result (out.new ≡ out.old ++ spec.blanks_in w.now (member_plain member.now)) }
{
    match member {
        CoreMember::Fields { vars, .. } => add_blank_vars(w, vars.as_slice(), out),
        CoreMember::Method(_) => Ok(()),
    }
}

/// Puts the blank final instance fields of a class on a list.
pub(crate) fn add_blanks(
    w: &World,
    members: &[CoreMember],
    out: &mut Items<Variable>,
) -> Result<(), NoMemory>
    ensures { OnOk result (out.new ≡ out.old ++ spec.blanks w.now (map member_plain members.now)) }
{
    for member in members {
        add_blanks_in(w, member, out)?;
    }
    Ok(())
}

/// Whether it is the field k of the object itself.
#[tactic(auto, using(java_core::proofs::Views::plain_at))]
fn is_own(k: u32, x: &CoreExpr) -> bool
    ensures { result ≡ spec.is_own k (plain x.now) }
{
    match &x.form {
        CoreForm::Field { of, field, .. } => is_this(of.get()) && *field == k,
        _ => false,
    }
}

/// Whether an expression gives the field k its value.
#[tactic(auto, using(java_core::proofs::Views::plain_at))]
fn assigns(k: u32, x: &CoreExpr) -> bool
    ensures { result ≡ spec.assigns k (plain x.now) }
{
    match &x.form {
        CoreForm::Assign { to, .. } => is_own(k, to.get()),
        _ => false,
    }
}

fn add_set(k: u32, x: &CoreExpr, out: &mut Items<u32>) -> Result<(), NoMemory>
    ensures { OnOk result (out.new ≡ out.old ++ spec.set_by k (plain x.now)) }
{
    if assigns(k, x) {
        out.push(x.node.id)?;
    }
    Ok(())
}

#[tactic(auto, using(crate::proofs::Statements::stmt_at))]
fn add_sets_by(k: u32, a: &CoreStmt, out: &mut Items<u32>) -> Result<(), NoMemory>
    ensures { OnOk result (out.new ≡ out.old ++ spec.sets_by k (stmt_plain a.now)) }
{
    match &a.form {
        CoreStmtForm::Value(x) => add_set(k, x, out),
        _ => Ok(()),
    }
}

fn add_sets_in(k: u32, stmts: &[CoreStmt], out: &mut Items<u32>) -> Result<(), NoMemory>
    ensures { OnOk result (out.new ≡ out.old ++ spec.sets_in k (stmts_plain stmts.now)) }
{
    for a in stmts {
        add_sets_by(k, a, out)?;
    }
    Ok(())
}

/// Puts the nodes of the statements directly in a body that give the field k its value on a list.
#[tactic(auto, using(crate::proofs::Statements::stmt_at))]
fn add_sets(k: u32, a: &CoreStmt, out: &mut Items<u32>) -> Result<(), NoMemory>
    ensures { OnOk result (out.new ≡ out.old ++ spec.sets k (stmt_plain a.now)) }
{
    match &a.form {
        CoreStmtForm::Block(stmts) => add_sets_in(k, stmts.as_slice(), out),
        _ => Ok(()),
    }
}

/// A blank final field that is given no value is noted at its declaration, one that is given more at the second.
fn counted(node: u32, sets: &[u32], first: Option<Flaw>) -> Option<Flaw>
    ensures { result ≡ spec.counted node sets.now first }
{
    match sets {
        [] => noted(node, 4, first),
        [_] => first,
        [_, second, ..] => noted(*second, 4, first),
    }
}

fn one_counted(
    alloc: Global,
    a: &CoreStmt,
    x: Variable,
    first: &mut Option<Flaw>,
) -> Result<(), NoMemory>
    ensures { OnOk result (first.new ≡ spec.one_counted (stmt_plain a.now) x first.old) }
{
    match x {
        Variable::Local(_) => Ok(()),
        Variable::Blank { node, field } => {
            let mut sets = Items::new(alloc);
            add_sets(field, a, &mut sets)?;
            *first = counted(node, sets.as_slice(), *first);
            Ok(())
        }
    }
}

/// A constructor gives each blank final field a value, once.
pub(crate) fn all_counted(
    alloc: Global,
    a: &CoreStmt,
    xs: &[Variable],
    first: &mut Option<Flaw>,
) -> Result<(), NoMemory>
    ensures { OnOk result (first.new ≡ spec.all_counted (stmt_plain a.now) xs.now first.old) }
{
    for x in xs {
        one_counted(alloc, a, *x, first)?;
    }
    Ok(())
}
