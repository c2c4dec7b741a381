//! Declared types in statements (JLS 14.4, 14.14.2).

ghost use Rattle.std.specs.Prelude.{◌≡◌, IfOk, map};
ghost use Rattle.std.specs.Option.{option_map};
ghost use Rattle.java_core.specs.View.{catch_plain, catch_row, group_plain, group_row, stmt_maybe, stmt_plain, stmts_plain};
ghost use Rattle.type_places.specs.Places as spec;

use crate::heads::{put_locals, put_variable};
use crate::places::{TypePlace, Wanted};
use class_world::World;
use java_core::{CoreCatch, CoreGroup, CoreStmt, CoreStmtForm};
use java_tree::tree::Node;
use java_tree::{Boxed, NoMemory};
use std::alloc::Global;

/// In a statement at whose end the scope of its locals ends.
fn until(node: Node, q: Wanted) -> Wanted
    ensures { result ≡ spec.until node q }
{
    Wanted {
        at: q.at,
        body: q.body,
        end: node.span.to,
    }
}

/// The place that is found behind a statement, for what was found before it.
#[cycle(walk)]
pub(crate) fn walk(
    alloc: Global,
    w: &World,
    q: Wanted,
    s: &CoreStmt,
    found: Option<TypePlace>,
) -> Result<Option<TypePlace>, NoMemory>
    ensures { IfOk result (λ r. r ≡ spec.walk w.now q (stmt_plain s.now) found) }
{
    let node = s.node;
    match &s.form {
        CoreStmtForm::Block(stmts) => walks(alloc, w, until(node, q), stmts.as_slice(), found),
        CoreStmtForm::Local { written, vars, .. } => {
            put_locals(alloc, w, q, node, written, vars.as_slice(), found)
        }
        CoreStmtForm::If { yes, no, .. } => {
            let found = walk(alloc, w, q, yes.get(), found)?;
            maybe_walk(alloc, w, q, no, found)
        }
        CoreStmtForm::While { body, .. } => walk(alloc, w, q, body.get(), found),
        CoreStmtForm::Do { body, .. } => walk(alloc, w, q, body.get(), found),
        CoreStmtForm::For { init, body, .. } => {
            let q = until(node, q);
            let found = walks(alloc, w, q, init.as_slice(), found)?;
            walk(alloc, w, q, body.get(), found)
        }
        CoreStmtForm::ForEach {
            written,
            var,
            body,
            ..
        } => {
            let found = put_variable(alloc, w, q, node, written, var.slot, found)?;
            walk(alloc, w, q, body.get(), found)
        }
        CoreStmtForm::Switch { groups, .. } => {
            walk_groups(alloc, w, until(node, q), groups.as_slice(), found)
        }
        CoreStmtForm::Try {
            body,
            catches,
            last,
        } => {
            let found = walk(alloc, w, q, body.get(), found)?;
            let found = walk_catches(alloc, w, q, catches.as_slice(), found)?;
            maybe_walk(alloc, w, q, last, found)
        }
        CoreStmtForm::Empty
        | CoreStmtForm::Value(_)
        | CoreStmtForm::Break
        | CoreStmtForm::Continue
        | CoreStmtForm::Return(_)
        | CoreStmtForm::Throw(_)
        | CoreStmtForm::ThisCall { .. }
        | CoreStmtForm::SuperCall { .. } => Ok(found),
    }
}

#[cycle(walk)]
fn maybe_walk(
    alloc: Global,
    w: &World,
    q: Wanted,
    s: &Option<Boxed<CoreStmt>>,
    found: Option<TypePlace>,
) -> Result<Option<TypePlace>, NoMemory>
    ensures { IfOk result (λ r. r ≡ spec.maybe_walk w.now q (stmt_maybe (option_map stmt_plain s.now)) found) }
{
    match s {
        None => Ok(found),
        Some(s) => walk(alloc, w, q, s.get(), found),
    }
}

#[cycle(walk)]
fn walks(
    alloc: Global,
    w: &World,
    q: Wanted,
    stmts: &[CoreStmt],
    mut found: Option<TypePlace>,
) -> Result<Option<TypePlace>, NoMemory>
    ensures { IfOk result (λ r. r ≡ spec.walks w.now q (stmts_plain stmts.now) found) }
{
    for s in stmts {
        found = walk(alloc, w, q, s, found)?;
    }
    Ok(found)
}

/// A local of one group is in scope in those behind it (JLS 14.11).
#[cycle(walk)]
fn walk_groups(
    alloc: Global,
    w: &World,
    q: Wanted,
    groups: &[CoreGroup],
    mut found: Option<TypePlace>,
) -> Result<Option<TypePlace>, NoMemory>
    ensures { IfOk result (λ r. r ≡ spec.groups w.now q (group_row (map group_plain groups.now)) found) }
{
    for group in groups {
        found = walks(alloc, w, q, group.body.as_slice(), found)?;
    }
    Ok(found)
}

#[cycle(walk)]
fn walk_catches(
    alloc: Global,
    w: &World,
    q: Wanted,
    catches: &[CoreCatch],
    mut found: Option<TypePlace>,
) -> Result<Option<TypePlace>, NoMemory>
    ensures { IfOk result (λ r. r ≡ spec.catches w.now q (catch_row (map catch_plain catches.now)) found) }
{
    for catch in catches {
        found = walk(alloc, w, q, catch.body.get(), found)?;
    }
    Ok(found)
}
