//! Definite assignment in statements (JLS 14 and 16.2).

ghost use Rattle.std.specs.Prelude.{◌≡◌, None, OnOk, map};
ghost use Rattle.std.specs.Option.{option_map};
ghost use Rattle.java_core.specs.View.{catch_plain, catch_row, group_plain, group_row, plain, plains, stmt_maybe, stmt_plain, stmts_plain};
ghost use Rattle.reachability.specs.Reached.{has_default as has_default_label};
ghost use Rattle.definite_assignment.specs.Assigned as assigned;
ghost use Rattle.definite_assignment.specs.Bodies as spec;
ghost use Rattle.definite_assignment.specs.Variables.{without as without_one};
ghost use Rattle.definite_assignment.specs.declared.state.Variable.TheVariants as v;

use crate::exprs::{test, value, values};
use crate::forks::enter_true;
use crate::jumps::{
    break_off, continue_with, end, enter_loop, enter_switch, go_on, leave_by_test, leave_loop,
    leave_switch, meet, return_now,
};
use crate::locals::{add_declared_in, optional, optional_test, vars_given};
use crate::state::{Jumps, State, Variable, copy_missing, give, go_to, join};
use crate::variables::without;
use class_world::World;
use java_core::{CoreCatch, CoreExpr, CoreGroup, CoreStmt, CoreStmtForm, CoreVar};
use java_tree::{Boxed, Items, NoMemory};
use reachability::has_default;
use std::alloc::Global;

/// A statement, a clause a form.
#[cycle(walk)]
#[tactic(auto, using(crate::proofs::Statements::stmt_at))]
pub(crate) fn walk(alloc: Global, w: &World, a: &CoreStmt, s: &mut State) -> Result<(), NoMemory>
    ensures { OnOk result (s.new ≡ spec.walk w.now (stmt_plain a.now) s.old) }
{
    match &a.form {
        CoreStmtForm::Block(stmts) => walks(alloc, w, stmts.as_slice(), s),
        CoreStmtForm::Local { is_final, vars, .. } => {
            vars_given(alloc, w, *is_final, vars.as_slice(), s)
        }
        CoreStmtForm::Empty => Ok(()),
        CoreStmtForm::Value(x) => value(alloc, w, None, x, s),
        CoreStmtForm::If { test: x, yes, no } => {
            test(alloc, w, None, x, s)?;
            branches(alloc, w, yes.get(), no, s)
        }
        CoreStmtForm::While { test: x, body } => while_loop(alloc, w, x, body.get(), s),
        CoreStmtForm::Do { body, test: x } => do_loop(alloc, w, body.get(), x, s),
        CoreStmtForm::For {
            init,
            test: x,
            step,
            body,
        } => {
            walks(alloc, w, init.as_slice(), s)?;
            for_loop(alloc, w, x, step.as_slice(), body.get(), s)
        }
        CoreStmtForm::ForEach {
            var,
            over,
            body,
            ..
        } => for_each(alloc, w, var, over, body.get(), s),
        CoreStmtForm::Switch { on, groups } => {
            value(alloc, w, None, on, s)?;
            switch(alloc, w, groups.as_slice(), s)
        }
        CoreStmtForm::Break => break_off(alloc, s),
        CoreStmtForm::Continue => continue_with(alloc, s),
        CoreStmtForm::Return(x) => {
            optional(alloc, w, x, s)?;
            return_now(alloc, s);
            Ok(())
        }
        CoreStmtForm::Throw(x) => {
            value(alloc, w, None, x, s)?;
            end(alloc, s);
            Ok(())
        }
        CoreStmtForm::Try {
            body,
            catches,
            last,
        } => tried(alloc, w, body.get(), catches.as_slice(), last, s),
        CoreStmtForm::ThisCall { args, .. } => values(alloc, w, None, args.as_slice(), s),
        CoreStmtForm::SuperCall { args, .. } => values(alloc, w, None, args.as_slice(), s),
    }
}

#[cycle(walk)]
fn walks(alloc: Global, w: &World, stmts: &[CoreStmt], s: &mut State) -> Result<(), NoMemory>
    ensures { OnOk result (s.new ≡ spec.walks w.now (stmts_plain stmts.now) s.old) }
{
    for a in stmts {
        walk(alloc, w, a, s)?;
    }
    Ok(())
}

/// The branches of an `if`, behind its test.
#[cycle(walk)]
fn branches(
    alloc: Global,
    w: &World,
    yes: &CoreStmt,
    no: &Option<Boxed<CoreStmt>>,
    s: &mut State,
) -> Result<(), NoMemory>
    ensures { OnOk result (s.new ≡ assigned.arms (spec.walk w.now (stmt_plain yes.now)) (spec.maybe_walk w.now (stmt_maybe (option_map stmt_plain no.now))) s.old) }
{
    let when_false = enter_true(alloc, s);
    walk(alloc, w, yes, s)?;
    let ended = go_to(when_false, s);
    maybe_walk(alloc, w, no, s)?;
    join(ended.as_slice(), s)
}

#[cycle(walk)]
fn maybe_walk(
    alloc: Global,
    w: &World,
    a: &Option<Boxed<CoreStmt>>,
    s: &mut State,
) -> Result<(), NoMemory>
    ensures { OnOk result (s.new ≡ spec.maybe_walk w.now (stmt_maybe (option_map stmt_plain a.now)) s.old) }
{
    match a {
        None => Ok(()),
        Some(a) => walk(alloc, w, a.get(), s),
    }
}

#[cycle(walk)]
fn while_loop(
    alloc: Global,
    w: &World,
    x: &CoreExpr,
    body: &CoreStmt,
    s: &mut State,
) -> Result<(), NoMemory>
    ensures { OnOk result (s.new ≡ spec.while_loop (assigned.test w.now None (plain x.now)) (spec.walk w.now (stmt_plain body.now)) s.old) }
{
    let outer = enter_loop(alloc, s);
    test(alloc, w, None, x, s)?;
    let no = enter_true(alloc, s);
    walk(alloc, w, body, s)?;
    leave_loop(alloc, outer, no, s)
}

#[cycle(walk)]
fn do_loop(
    alloc: Global,
    w: &World,
    body: &CoreStmt,
    x: &CoreExpr,
    s: &mut State,
) -> Result<(), NoMemory>
    ensures { OnOk result (s.new ≡ spec.do_loop (spec.walk w.now (stmt_plain body.now)) (assigned.test w.now None (plain x.now)) s.old) }
{
    let outer = enter_loop(alloc, s);
    walk(alloc, w, body, s)?;
    go_on(s)?;
    test(alloc, w, None, x, s)?;
    leave_by_test(alloc, outer, s)
}

/// A `for` behind its first part.
#[cycle(walk)]
fn for_loop(
    alloc: Global,
    w: &World,
    x: &Option<CoreExpr>,
    step: &[CoreExpr],
    body: &CoreStmt,
    s: &mut State,
) -> Result<(), NoMemory>
    ensures { OnOk result (s.new ≡ spec.for_of w.now x.now step.now body.now s.old) }
{
    let outer = enter_loop(alloc, s);
    optional_test(alloc, w, x, s)?;
    for_body(alloc, w, step, body, outer, s)
}

#[cycle(walk)]
fn for_body(
    alloc: Global,
    w: &World,
    step: &[CoreExpr],
    body: &CoreStmt,
    outer: Jumps,
    s: &mut State,
) -> Result<(), NoMemory>
    ensures { OnOk result (s.new ≡ spec.while_body (spec.stepped (assigned.values w.now None (plains step.now)) (spec.walk w.now (stmt_plain body.now))) outer s.old) }
{
    let no = enter_true(alloc, s);
    walk(alloc, w, body, s)?;
    go_on(s)?;
    values(alloc, w, None, step, s)?;
    leave_loop(alloc, outer, no, s)
}

#[cycle(walk)]
fn for_each(
    alloc: Global,
    w: &World,
    var: &CoreVar,
    over: &CoreExpr,
    body: &CoreStmt,
    s: &mut State,
) -> Result<(), NoMemory>
    ensures { OnOk result (s.new ≡ spec.for_each var.now.slot (assigned.value w.now None (plain over.now)) (spec.walk w.now (stmt_plain body.now)) s.old) }
{
    let outer = enter_loop(alloc, s);
    value(alloc, w, None, over, s)?;
    each_item(alloc, w, var, body, outer, s)
}

#[cycle(walk)]
fn each_item(
    alloc: Global,
    w: &World,
    var: &CoreVar,
    body: &CoreStmt,
    outer: Jumps,
    s: &mut State,
) -> Result<(), NoMemory>
    ensures { OnOk result (s.new ≡ spec.each_item var.now.slot (spec.walk w.now (stmt_plain body.now)) outer s.old) }
{
    let before = copy_missing(alloc, s)?;
    give(alloc, Variable::Local(var.slot), s)?;
    walk(alloc, w, body, s)?;
    leave_loop(alloc, outer, before, s)
}

/// The groups of a switch, behind its value.
#[cycle(walk)]
fn switch(alloc: Global, w: &World, groups: &[CoreGroup], s: &mut State) -> Result<(), NoMemory>
    ensures { OnOk result (s.new ≡ spec.switch_of w.now groups.now s.old) }
{
    let at_first = copy_missing(alloc, s)?;
    let before = go_to(Items::new(alloc), s);
    let breaks = enter_switch(alloc, s);
    walk_groups(alloc, w, at_first, groups, s)?;
    leave_switch(alloc, breaks, has_default(groups), before.as_slice(), s)
}

/// Each group is reached from the switch too, before which these are missing.
#[cycle(walk)]
fn walk_groups(
    alloc: Global,
    w: &World,
    mut before: Items<Variable>,
    groups: &[CoreGroup],
    s: &mut State,
) -> Result<(), NoMemory>
    ensures { OnOk result (s.new ≡ spec.groups w.now before (group_row (map group_plain groups.now)) s.old) }
{
    for group in groups {
        join(before.as_slice(), s)?;
        walks(alloc, w, group.body.as_slice(), s)?;
        add_declared_in(group.body.as_slice(), &mut before)?;
    }
    Ok(())
}

#[cycle(walk)]
fn tried(
    alloc: Global,
    w: &World,
    body: &CoreStmt,
    catches: &[CoreCatch],
    last: &Option<Boxed<CoreStmt>>,
    s: &mut State,
) -> Result<(), NoMemory>
    ensures { OnOk result (s.new ≡ spec.try_of w.now body.now catches.now last.now s.old) }
{
    let before = copy_missing(alloc, s)?;
    walk(alloc, w, body, s)?;
    walk_catches(alloc, w, before.as_slice(), catches, s)?;
    finished(alloc, w, before, last, s)
}

/// The catches of a try before which these were missing.
#[cycle(walk)]
fn walk_catches(
    alloc: Global,
    w: &World,
    before: &[Variable],
    catches: &[CoreCatch],
    s: &mut State,
) -> Result<(), NoMemory>
    ensures { OnOk result (s.new ≡ spec.catches w.now before.now (catch_row (map catch_plain catches.now)) s.old) }
{
    for catch in catches {
        caught(alloc, w, before, catch.param.slot, catch.body.get(), s)?;
    }
    Ok(())
}

#[cycle(walk)]
fn caught(
    alloc: Global,
    w: &World,
    before: &[Variable],
    slot: u32,
    body: &CoreStmt,
    s: &mut State,
) -> Result<(), NoMemory>
    ensures { OnOk result (s.new ≡ spec.caught (without_one before.now (v.Local slot)) (spec.walk w.now (stmt_plain body.now)) s.old) }
{
    let missing = without(alloc, before, Variable::Local(slot))?;
    let ended = go_to(missing, s);
    walk(alloc, w, body, s)?;
    join(ended.as_slice(), s)
}

#[cycle(walk)]
fn finished(
    alloc: Global,
    w: &World,
    before: Items<Variable>,
    last: &Option<Boxed<CoreStmt>>,
    s: &mut State,
) -> Result<(), NoMemory>
    ensures { OnOk result (s.new ≡ spec.finished w.now before (stmt_maybe (option_map stmt_plain last.now)) s.old) }
{
    match last {
        None => Ok(()),
        Some(last) => {
            let ended = go_to(before, s);
            walk(alloc, w, last.get(), s)?;
            meet(alloc, ended.as_slice(), s)
        }
    }
}
