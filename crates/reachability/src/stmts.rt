//! The ways through statements, a clause of JLS 14.21 a form.

ghost use Rattle.std.specs.Prelude.{◌≡◌, map};
ghost use Rattle.std.specs.Option.{option_map};
ghost use Rattle.java_core.specs.View.{catch_plain, catch_row, group_plain, group_row, stmt_maybe, stmt_plain, stmts_plain};
ghost use Rattle.reachability.specs.Reached as spec;

use crate::constants::{is_constant, is_endless, is_never};
use crate::groups::has_default;
use crate::ways::{
    Ways, at, behind_do, behind_loop, behind_switch, behind_try, broken, continued, in_catches,
    in_switch, inside, or_alive, reached, unless,
};
use java_core::{CoreCatch, CoreGroup, CoreStmt, CoreStmtForm};
use java_tree::Boxed;

/// The ways behind a statement, for those before it.
#[cycle(walk)]
pub(crate) fn walk(s: &CoreStmt, w: Ways) -> Ways
    ensures { result ≡ spec.walk (stmt_plain s.now) w }
{
    let here = reached(s.node, w);
    match &s.form {
        CoreStmtForm::Block(stmts) => walks(stmts.as_slice(), here),
        CoreStmtForm::Local { .. }
        | CoreStmtForm::Empty
        | CoreStmtForm::Value(_)
        | CoreStmtForm::ThisCall { .. }
        | CoreStmtForm::SuperCall { .. } => here,
        CoreStmtForm::If { yes, no, .. } => otherwise(w.alive, no, walk(yes.get(), here)),
        CoreStmtForm::While { test, body } => {
            let entered = unless(w.alive, is_constant(false, test));
            let ends = unless(w.alive, is_constant(true, test));
            behind_loop(w, ends, walk(body.get(), inside(entered, here)))
        }
        CoreStmtForm::Do { body, test } => {
            behind_do(w, test, walk(body.get(), inside(w.alive, here)))
        }
        CoreStmtForm::For {
            init,
            test,
            body,
            ..
        } => {
            let entered = unless(w.alive, is_never(test));
            let ends = unless(w.alive, is_endless(test));
            let ready = walks(init.as_slice(), here);
            behind_loop(w, ends, walk(body.get(), inside(entered, ready)))
        }
        CoreStmtForm::ForEach { body, .. } => {
            behind_loop(w, w.alive, walk(body.get(), inside(w.alive, here)))
        }
        CoreStmtForm::Switch { groups, .. } => {
            let has_default = has_default(groups.as_slice());
            let body = walk_groups(w.alive, groups.as_slice(), in_switch(here));
            behind_switch(w, has_default, body)
        }
        CoreStmtForm::Break => broken(here),
        CoreStmtForm::Continue => continued(here),
        CoreStmtForm::Return(_) => at(false, here),
        CoreStmtForm::Throw(_) => at(false, here),
        CoreStmtForm::Try {
            body,
            catches,
            last,
        } => {
            let block = walk(body.get(), inside(w.alive, here));
            let caught = walk_catches(w.alive, catches.as_slice(), in_catches(w, block));
            finished(w.alive, last, block, caught)
        }
    }
}

#[cycle(walk)]
fn walks(stmts: &[CoreStmt], mut w: Ways) -> Ways
    ensures { result ≡ spec.walks (stmts_plain stmts.now) w }
{
    for s in stmts {
        w = walk(s, w);
    }
    w
}

/// Behind an `if`, for the ways behind its first branch.
#[cycle(walk)]
fn otherwise(alive: bool, no: &Option<Boxed<CoreStmt>>, w: Ways) -> Ways
    ensures { result ≡ spec.otherwise alive (stmt_maybe (option_map stmt_plain no.now)) w }
{
    match no {
        None => at(alive, w),
        Some(no) => or_alive(w.alive, walk(no.get(), at(alive, w))),
    }
}

#[cycle(walk)]
fn walk_groups(alive: bool, groups: &[CoreGroup], mut w: Ways) -> Ways
    ensures { result ≡ spec.groups alive (group_row (map group_plain groups.now)) w }
{
    for group in groups {
        w = walks(group.body.as_slice(), at(alive, w));
    }
    w
}

#[cycle(walk)]
fn walk_catches(alive: bool, catches: &[CoreCatch], mut w: Ways) -> Ways
    ensures { result ≡ spec.catches alive (catch_row (map catch_plain catches.now)) w }
{
    for catch in catches {
        w = or_alive(w.alive, walk(catch.body.get(), at(alive, w)));
    }
    w
}

/// Behind a try, for the ways behind its block and behind its catches.
#[cycle(walk)]
fn finished(alive: bool, last: &Option<Boxed<CoreStmt>>, block: Ways, w: Ways) -> Ways
    ensures { result ≡ spec.finished alive (stmt_maybe (option_map stmt_plain last.now)) block w }
{
    match last {
        None => behind_try(block, w.alive, at(true, w)),
        Some(last) => behind_try(block, w.alive, walk(last.get(), at(alive, w))),
    }
}
