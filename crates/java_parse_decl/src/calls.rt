//! Where this(..) and super(..) stand (JLS 8.8.7).

ghost use Rattle.std.specs.Prelude.{◌≡◌, map};
ghost use Rattle.java_tree.specs.View.{stmt_plain, stmts_plain, group_plain, group_row, catch_plain, catch_row};
ghost use Rattle.java_parse_decl.specs.Parse as spec;

use java_tree::tree::{Catch, Group, Stmt, StmtForm};

/// Whether neither stands in a statement.
#[cycle(calls)]
fn calls_none(x: &Stmt) -> bool
    ensures { result ≡ spec.calls_none (stmt_plain x.now) }
{
    match &x.form {
        StmtForm::ThisCall(_) | StmtForm::SuperCall(_) => false,
        StmtForm::Block(body) => all_call_none(body.as_slice()),
        StmtForm::If { yes, no, .. } => match no {
            Some(no) => calls_none(yes.get()) && calls_none(no.get()),
            None => calls_none(yes.get()),
        },
        StmtForm::While { body, .. } | StmtForm::Do { body, .. } | StmtForm::ForEach { body, .. } =>
            calls_none(body.get()),
        StmtForm::For { init, body, .. } => {
            all_call_none(init.as_slice()) && calls_none(body.get())
        }
        StmtForm::Switch { groups, .. } => groups_call_none(groups.as_slice()),
        StmtForm::Try {
            body,
            catches,
            last,
        } => match last {
            Some(last) => {
                calls_none(body.get())
                    && catches_call_none(catches.as_slice())
                    && calls_none(last.get())
            }
            None => calls_none(body.get()) && catches_call_none(catches.as_slice()),
        },
        StmtForm::Local { .. }
        | StmtForm::Empty
        | StmtForm::Value(_)
        | StmtForm::Break
        | StmtForm::Continue
        | StmtForm::Return(_)
        | StmtForm::Throw(_) => true,
    }
}

#[cycle(calls)]
fn all_call_none(xs: &[Stmt]) -> bool
    ensures { result ≡ spec.all_call_none (stmts_plain xs.now) }
{
    for x in xs {
        if !calls_none(x) {
            return false;
        }
    }
    true
}

#[cycle(calls)]
fn groups_call_none(groups: &[Group]) -> bool
    ensures { result ≡ spec.groups_call_none (group_row (map group_plain groups.now)) }
{
    for group in groups {
        if !all_call_none(group.body.as_slice()) {
            return false;
        }
    }
    true
}

#[cycle(calls)]
fn catches_call_none(catches: &[Catch]) -> bool
    ensures { result ≡ spec.catches_call_none (catch_row (map catch_plain catches.now)) }
{
    for catch in catches {
        if !calls_none(catch.body.get()) {
            return false;
        }
    }
    true
}

fn may_be_first(x: &Stmt) -> bool
    ensures { result ≡ spec.may_be_first (stmt_plain x.now) }
{
    match &x.form {
        StmtForm::ThisCall(_) | StmtForm::SuperCall(_) => true,
        _ => calls_none(x),
    }
}

fn starts_in_place(xs: &[Stmt]) -> bool
    ensures { result ≡ spec.starts_in_place (stmts_plain xs.now) }
{
    match xs.split_first() {
        Some((first, rest)) => may_be_first(first) && all_call_none(rest),
        None => true,
    }
}

/// Whether both stand in a body only where they may: first in that of a constructor.
pub fn calls_in_place(constructor: bool, body: &Stmt) -> bool
    ensures { result ≡ spec.calls_in_place constructor (stmt_plain body.now) }
{
    if !constructor {
        return calls_none(body);
    }
    match &body.form {
        StmtForm::Block(body) => starts_in_place(body.as_slice()),
        _ => calls_none(body),
    }
}
