//! Places in statements (JLS 14).

ghost use Rattle.std.specs.Prelude.{◌≡◌, IfOk, map};
ghost use Rattle.std.specs.Option.{option_map};
ghost use Rattle.java_core.specs.View.{catch_plain, catch_row, group_plain, group_row, stmt_maybe, stmt_plain, stmts_plain};
ghost use Rattle.class_places.specs.Places as spec;

use crate::exprs::{inits, optional, value, values};
use crate::places::ClassPlace;
use crate::types::{in_args, in_type};
use java_core::{CoreCatch, CoreGroup, CoreStmt, CoreStmtForm};
use java_tree::{Boxed, Items, NoMemory};

/// In a statement, its parts in the order of the file.
#[cycle(walk)]
pub(crate) fn walk(
    class: u32,
    s: &CoreStmt,
    places: Items<ClassPlace>,
) -> Result<Items<ClassPlace>, NoMemory>
    ensures { IfOk result (λ r. r ≡ spec.walk class (stmt_plain s.now) places) }
{
    match &s.form {
        CoreStmtForm::Block(stmts) => walks(class, stmts.as_slice(), places),
        CoreStmtForm::Local { written, vars, .. } => {
            let places = in_type(class, written, places)?;
            inits(class, vars.as_slice(), places)
        }
        CoreStmtForm::If { test, yes, no } => {
            let places = value(class, test, places)?;
            let places = walk(class, yes.get(), places)?;
            maybe_walk(class, no, places)
        }
        CoreStmtForm::While { test, body } => {
            let places = value(class, test, places)?;
            walk(class, body.get(), places)
        }
        CoreStmtForm::Do { body, test } => {
            let places = walk(class, body.get(), places)?;
            value(class, test, places)
        }
        CoreStmtForm::For {
            init,
            test,
            step,
            body,
        } => {
            let places = walks(class, init.as_slice(), places)?;
            let places = optional(class, test, places)?;
            let places = values(class, step.as_slice(), places)?;
            walk(class, body.get(), places)
        }
        CoreStmtForm::ForEach {
            written,
            over,
            body,
            ..
        } => {
            let places = in_type(class, written, places)?;
            let places = value(class, over, places)?;
            walk(class, body.get(), places)
        }
        CoreStmtForm::Switch { on, groups } => {
            let places = value(class, on, places)?;
            walk_groups(class, groups.as_slice(), places)
        }
        CoreStmtForm::Return(x) => optional(class, x, places),
        CoreStmtForm::Value(x) => value(class, x, places),
        CoreStmtForm::Throw(x) => value(class, x, places),
        CoreStmtForm::Try {
            body,
            catches,
            last,
        } => {
            let places = walk(class, body.get(), places)?;
            let places = walk_catches(class, catches.as_slice(), places)?;
            maybe_walk(class, last, places)
        }
        CoreStmtForm::ThisCall { args, .. } => values(class, args.as_slice(), places),
        CoreStmtForm::SuperCall { args, .. } => values(class, args.as_slice(), places),
        CoreStmtForm::Empty | CoreStmtForm::Break | CoreStmtForm::Continue => Ok(places),
    }
}

#[cycle(walk)]
fn maybe_walk(
    class: u32,
    s: &Option<Boxed<CoreStmt>>,
    places: Items<ClassPlace>,
) -> Result<Items<ClassPlace>, NoMemory>
    ensures { IfOk result (λ r. r ≡ spec.maybe_walk class (stmt_maybe (option_map stmt_plain s.now)) places) }
{
    match s {
        None => Ok(places),
        Some(s) => walk(class, s.get(), places),
    }
}

#[cycle(walk)]
fn walks(
    class: u32,
    stmts: &[CoreStmt],
    mut places: Items<ClassPlace>,
) -> Result<Items<ClassPlace>, NoMemory>
    ensures { IfOk result (λ r. r ≡ spec.walks class (stmts_plain stmts.now) places) }
{
    for s in stmts {
        places = walk(class, s, places)?;
    }
    Ok(places)
}

#[cycle(walk)]
fn walk_groups(
    class: u32,
    groups: &[CoreGroup],
    mut places: Items<ClassPlace>,
) -> Result<Items<ClassPlace>, NoMemory>
    ensures { IfOk result (λ r. r ≡ spec.groups class (group_row (map group_plain groups.now)) places) }
{
    for group in groups {
        places = walks(class, group.body.as_slice(), places)?;
    }
    Ok(places)
}

/// The head of the type of a catch is no place.
#[cycle(walk)]
fn walk_catches(
    class: u32,
    catches: &[CoreCatch],
    mut places: Items<ClassPlace>,
) -> Result<Items<ClassPlace>, NoMemory>
    ensures { IfOk result (λ r. r ≡ spec.catches class (catch_row (map catch_plain catches.now)) places) }
{
    for catch in catches {
        let caught = in_args(class, &catch.param.written, places)?;
        places = walk(class, catch.body.get(), caught)?;
    }
    Ok(places)
}
