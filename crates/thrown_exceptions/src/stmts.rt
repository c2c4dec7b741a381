//! What statements can throw (JLS 11.2.2).

ghost use Rattle.std.specs.Prelude.{◌≡◌, [], Bool, OnOk, map};
ghost use Rattle.std.specs.Option.{option_map};
ghost use Rattle.class_world.specs.Sound.{IsSound};
ghost use Rattle.class_world.specs.declared.world.JavaType.{JavaType};
ghost use Rattle.java_core.specs.View.{catch_plain, catch_row, group_plain, group_row, stmt_maybe, stmt_plain, stmts_plain};
ghost use Rattle.thrown_exceptions.specs.Thrown as spec;
ghost use Rattle.thrown_exceptions.specs.Thrown.{IsOrder};

use crate::catches::passed;
use crate::classes::{called, raise};
use crate::exprs::{locals, optional, value, values};
use crate::state::{State, let_through, put_before, take_raised};
use class_world::World;
use java_core::{CoreCatch, CoreGroup, CoreStmt, CoreStmtForm};
use java_tree::{Boxed, NoMemory};
use reachability::completes;
use std::alloc::Global;

/// A statement is walked, its parts in the order of the file.
#[cycle(walk)]
pub(crate) fn walk(
    alloc: Global,
    w: &World,
    s: &CoreStmt,
    state: &mut State,
) -> Result<(), NoMemory>
    requires { IsSound w.now }
    ensures { spec.Makes w.now result state.new (λ below. spec.walk w.now below (stmt_plain s.now) state.old) }
{
    match &s.form {
        CoreStmtForm::Block(stmts) => walks(alloc, w, stmts.as_slice(), state),
        CoreStmtForm::Local { vars, .. } => locals(alloc, w, vars.as_slice(), state),
        CoreStmtForm::Empty | CoreStmtForm::Break | CoreStmtForm::Continue => Ok(()),
        CoreStmtForm::Value(x) => value(alloc, w, x, state),
        CoreStmtForm::If { test, yes, no } => {
            value(alloc, w, test, state)?;
            walk(alloc, w, yes.get(), state)?;
            maybe_walk(alloc, w, no, state)
        }
        CoreStmtForm::While { test, body } => {
            value(alloc, w, test, state)?;
            walk(alloc, w, body.get(), state)
        }
        CoreStmtForm::Do { body, test } => {
            walk(alloc, w, body.get(), state)?;
            value(alloc, w, test, state)
        }
        CoreStmtForm::For {
            init,
            test,
            step,
            body,
        } => {
            walks(alloc, w, init.as_slice(), state)?;
            optional(alloc, w, test, state)?;
            values(alloc, w, step.as_slice(), state)?;
            walk(alloc, w, body.get(), state)
        }
        CoreStmtForm::ForEach { over, body, .. } => {
            value(alloc, w, over, state)?;
            walk(alloc, w, body.get(), state)
        }
        CoreStmtForm::Switch { on, groups } => {
            value(alloc, w, on, state)?;
            walk_groups(alloc, w, groups.as_slice(), state)
        }
        CoreStmtForm::Return(x) => optional(alloc, w, x, state),
        CoreStmtForm::Throw(x) => {
            value(alloc, w, x, state)?;
            raise(alloc, w, s.node.id, &x.ty, state)
        }
        CoreStmtForm::Try {
            body,
            catches,
            last,
        } => walk_try(alloc, w, body.get(), catches.as_slice(), last, state),
        CoreStmtForm::ThisCall { constructor, args } => {
            values(alloc, w, args.as_slice(), state)?;
            called(alloc, w, s.node, *constructor, state)
        }
        CoreStmtForm::SuperCall { constructor, args } => {
            values(alloc, w, args.as_slice(), state)?;
            called(alloc, w, s.node, *constructor, state)
        }
    }
}

#[cycle(walk)]
fn maybe_walk(
    alloc: Global,
    w: &World,
    s: &Option<Boxed<CoreStmt>>,
    state: &mut State,
) -> Result<(), NoMemory>
    requires { IsSound w.now }
    ensures { spec.Makes w.now result state.new (λ below. spec.maybe_walk w.now below (stmt_maybe (option_map stmt_plain s.now)) state.old) }
{
    match s {
        None => Ok(()),
        Some(s) => walk(alloc, w, s.get(), state),
    }
}

#[cycle(walk)]
fn walks(alloc: Global, w: &World, stmts: &[CoreStmt], state: &mut State) -> Result<(), NoMemory>
    requires { IsSound w.now }
    ensures { spec.Makes w.now result state.new (λ below. spec.walks w.now below (stmts_plain stmts.now) state.old) }
{
    for s in stmts {
        walk(alloc, w, s, state)?;
    }
    Ok(())
}

#[cycle(walk)]
fn walk_groups(
    alloc: Global,
    w: &World,
    groups: &[CoreGroup],
    state: &mut State,
) -> Result<(), NoMemory>
    requires { IsSound w.now }
    ensures { spec.Makes w.now result state.new (λ below. spec.groups w.now below (group_row (map group_plain groups.now)) state.old) }
{
    for group in groups {
        walks(alloc, w, group.body.as_slice(), state)?;
    }
    Ok(())
}

/// The blocks of catches, each behind what the block of the `try` leaves.
#[cycle(walk)]
fn walk_catches(
    alloc: Global,
    w: &World,
    catches: &[CoreCatch],
    state: &mut State,
) -> Result<(), NoMemory>
    requires { IsSound w.now }
    ensures { spec.Makes w.now result state.new (λ below. spec.catches w.now below (catch_row (map catch_plain catches.now)) state.old) }
{
    for catch in catches {
        walk(alloc, w, catch.body.get(), state)?;
    }
    Ok(())
}

#[cycle(walk)]
fn walk_try(
    alloc: Global,
    w: &World,
    body: &CoreStmt,
    catches: &[CoreCatch],
    last: &Option<Boxed<CoreStmt>>,
    state: &mut State,
) -> Result<(), NoMemory>
    requires { IsSound w.now }
    ensures { spec.Makes w.now result state.new (λ below. spec.whole_try w.now below body.now catches.now last.now state.old) }
{
    let before = take_raised(alloc, state);
    walk_parts(alloc, w, body, catches, last, state)?;
    put_before(before, state)
}

/// The parts of a `try`, before which nothing can be thrown.
#[cycle(walk)]
fn walk_parts(
    alloc: Global,
    w: &World,
    body: &CoreStmt,
    catches: &[CoreCatch],
    last: &Option<Boxed<CoreStmt>>,
    state: &mut State,
) -> Result<(), NoMemory>
    requires { IsSound w.now }
    ensures { spec.Makes w.now result state.new (λ below. spec.try_parts w.now below body.now catches.now last.now state.old) }
{
    walk(alloc, w, body, state)?;
    passed(alloc, w, catches, state)?;
    walk_catches(alloc, w, catches, state)?;
    finished(alloc, w, last, state)
}

/// The finally block, to which comes what the block and the catches can throw.
#[cycle(walk)]
fn finished(
    alloc: Global,
    w: &World,
    last: &Option<Boxed<CoreStmt>>,
    state: &mut State,
) -> Result<(), NoMemory>
    requires { IsSound w.now }
    ensures { spec.Makes w.now result state.new (λ below. spec.finished w.now below (stmt_maybe (option_map stmt_plain last.now)) state.old) }
{
    match last {
        None => Ok(()),
        Some(last) => {
            let raised = take_raised(alloc, state);
            walk(alloc, w, last.get(), state)?;
            let_through(completes(last.get()), raised, state)
        }
    }
}
