//! The constraints on statements. The marked types of locals stand by slot; a declaration replaces what a slot held before.

ghost use Rattle.std.specs.Prelude.{◌≡◌, ◌≤◌, IfOk, false, length, map};
ghost use Rattle.std.specs.Option.{option_copied, option_map};
ghost use Rattle.class_world.specs.declared.world.JavaType.{JavaType};
ghost use Rattle.java_core.specs.View.{catch_plain, catch_row, group_plain, group_row, plain, plains, stmt_maybe, stmt_plain, stmts_plain, var_plain, written as written_plain};
ghost use Rattle.type_facts.specs.Facts.{IsReady};
ghost use Rattle.marked_types.specs.Marked as marking;
ghost use Rattle.extract_constraints.specs.Arguments as arguments;
ghost use Rattle.extract_constraints.specs.Links as spec;
ghost use Rattle.extract_constraints.specs.Told.{Gives, where_of};

use crate::arguments::{own_call, super_call};
use crate::exprs::{optional, value, values};
use crate::flows::{declare, value_to_maybe, walked};
use crate::place::{Place, need_maybe, value_type};
use class_world::{JavaType, copied};
use java_core::{CoreCatch, CoreExpr, CoreGroup, CoreStmt, CoreStmtForm, CoreType, CoreVar};
use java_tree::{Boxed, Items, NoMemory};
use kept_places::{Kind, Link};
use marked_types::marking::{marked, mentions, own_mark};
use std::alloc::Global;

/// The marked types of the locals, by slot, and the links so far.
#[derive(Drop)]
pub struct Walked {
    pub locals: Items<JavaType>,
    pub links: Items<Link>,
}

// The locals with room for those before a slot: none stands for what was not there.
fn with_room(locals: Items<JavaType>, slot: usize) -> Result<Items<JavaType>, NoMemory>
    ensures room { IfOk result (λ ls. slot ≤ length ls) }
    ensures same { IfOk result (λ ls. (t : JavaType) → spec.with_local ls slot t ≡ spec.with_local locals slot t) }
{
    let mut locals = locals;
    for _ in locals.len()..slot {
        locals.push(JavaType::Null)?;
    }
    Ok(locals)
}

/// Notes the type of a local, by its slot.
pub(crate) fn with_local(
    locals: Items<JavaType>,
    slot: u32,
    t: JavaType,
) -> Result<Items<JavaType>, NoMemory>
    ensures { IfOk result (λ ls. ls ≡ spec.with_local locals slot t) }
{
    let at = slot as usize;
    let mut locals = with_room(locals, at)?;
    if at < locals.len() {
        *locals.at_mut(at) = t;
        return Ok(locals);
    }
    locals.push(t)?;
    Ok(locals)
}

fn init_to(
    alloc: Global,
    at: &Place<'_>,
    locals: &[JavaType],
    x: &Option<CoreExpr>,
    t: &JavaType,
    links: Items<Link>,
) -> Result<Items<Link>, NoMemory>
    requires { IsReady at.now.reader.q }
    ensures { Gives at.now result (λ k a. spec.init_to k a locals.now (option_map plain x.now) t.now links) }
{
    match x {
        None => Ok(links),
        Some(x) => {
            let links = value(alloc, at, locals, x, links)?;
            declare(alloc, at, locals, x, t, links)
        }
    }
}

/// A declared local and its value; the variable is in scope there (JLS 14.4.2).
fn local(
    alloc: Global,
    at: &Place<'_>,
    written: &CoreType,
    var: &CoreVar,
    s: Walked,
) -> Result<Walked, NoMemory>
    requires { IsReady at.now.reader.q }
    ensures { Gives at.now result (λ k a. spec.declared_local k a var.now.slot
        (marking.marked a.reading.class (written_plain written.now) var.now.ty) (option_map plain var.now.init) s) }
{
    let t = marked(alloc, at.reader.class, written, &var.ty)?;
    let Walked { locals, links } = s;
    let locals = with_local(locals, var.slot, copied(alloc, &t)?)?;
    let links = init_to(alloc, at, locals.as_slice(), &var.init, &t, links)?;
    Ok(Walked { locals, links })
}

fn locals(
    alloc: Global,
    at: &Place<'_>,
    written: &CoreType,
    vars: &[CoreVar],
    mut s: Walked,
) -> Result<Walked, NoMemory>
    requires { IsReady at.now.reader.q }
    ensures { Gives at.now result (λ k a. spec.locals k a (written_plain written.now) (map var_plain vars.now) s) }
{
    for var in vars {
        s = local(alloc, at, written, var, s)?;
    }
    Ok(s)
}

/// The variable of a loop takes the items of a value.
fn looped(
    alloc: Global,
    at: &Place<'_>,
    written: &CoreType,
    var: &CoreVar,
    x: &CoreExpr,
    s: Walked,
) -> Result<Walked, NoMemory>
    requires { IsReady at.now.reader.q }
    ensures { Gives at.now result (λ k a. spec.looped k a (written_plain written.now) (var_plain var.now) (plain x.now) s) }
{
    let t = marked(alloc, at.reader.class, written, &var.ty)?;
    let Walked { locals, links } = s;
    let links = value(alloc, at, locals.as_slice(), x, links)?;
    let links = walked(alloc, at, locals.as_slice(), x, &t, links)?;
    let locals = with_local(locals, var.slot, t)?;
    Ok(Walked { locals, links })
}

/// A thrown value stays of its class (JLS 14.18).
#[tactic(auto, using(java_core::proofs::Views::plain_at))]
fn thrown(
    alloc: Global,
    at: &Place<'_>,
    node: u32,
    x: &CoreExpr,
    locals: &[JavaType],
    links: Items<Link>,
) -> Result<Items<Link>, NoMemory>
    requires { IsReady at.now.reader.q }
    ensures { Gives at.now result (λ k a. spec.thrown k a node (plain x.now) locals.now links) }
{
    let links = value(alloc, at, locals, x, links)?;
    if mentions(at.reader.class, &x.ty) {
        let t = value_type(alloc, at, locals, x)?;
        return need_maybe(own_mark(&t), node, Kind::Throws, links);
    }
    Ok(links)
}

fn given_mark<'a>(at: &Place<'a>) -> Option<&'a JavaType>
    ensures { option_copied result ≡ spec.given_mark (where_of at.now) at.now.method }
{
    match at.method {
        None => None,
        Some(method) => at.reader.marks.result(method),
    }
}

/// What a method gives.
fn returned(
    alloc: Global,
    at: &Place<'_>,
    x: &Option<CoreExpr>,
    locals: &[JavaType],
    links: Items<Link>,
) -> Result<Items<Link>, NoMemory>
    requires { IsReady at.now.reader.q }
    ensures { Gives at.now result (λ k a. spec.returned k a (option_map plain x.now) locals.now links) }
{
    match x {
        None => Ok(links),
        Some(x) => {
            let links = value(alloc, at, locals, x, links)?;
            value_to_maybe(alloc, at, locals, x, given_mark(at), links)
        }
    }
}

// ---- expressions of statements: they leave the locals as they are

fn on_value(alloc: Global, at: &Place<'_>, x: &CoreExpr, s: Walked) -> Result<Walked, NoMemory>
    requires { IsReady at.now.reader.q }
    ensures { Gives at.now result (λ k a. spec.same_locals s (λ ls. spec.value k a ls (plain x.now))) }
{
    let Walked { locals, links } = s;
    let links = value(alloc, at, locals.as_slice(), x, links)?;
    Ok(Walked { locals, links })
}

fn on_values(alloc: Global, at: &Place<'_>, xs: &[CoreExpr], s: Walked) -> Result<Walked, NoMemory>
    requires { IsReady at.now.reader.q }
    ensures { Gives at.now result (λ k a. spec.same_locals s (λ ls. spec.values k a ls (plains xs.now))) }
{
    let Walked { locals, links } = s;
    let links = values(alloc, at, locals.as_slice(), xs, links)?;
    Ok(Walked { locals, links })
}

fn on_optional(
    alloc: Global,
    at: &Place<'_>,
    x: &Option<CoreExpr>,
    s: Walked,
) -> Result<Walked, NoMemory>
    requires { IsReady at.now.reader.q }
    ensures { Gives at.now result (λ k a. spec.same_locals s (λ ls. spec.optional k a ls (option_map plain x.now))) }
{
    let Walked { locals, links } = s;
    let links = optional(alloc, at, locals.as_slice(), x, links)?;
    Ok(Walked { locals, links })
}

fn on_return(
    alloc: Global,
    at: &Place<'_>,
    x: &Option<CoreExpr>,
    s: Walked,
) -> Result<Walked, NoMemory>
    requires { IsReady at.now.reader.q }
    ensures { Gives at.now result (λ k a. spec.same_locals s (spec.returned k a (option_map plain x.now))) }
{
    let Walked { locals, links } = s;
    let links = returned(alloc, at, x, locals.as_slice(), links)?;
    Ok(Walked { locals, links })
}

fn on_throw(
    alloc: Global,
    at: &Place<'_>,
    node: u32,
    x: &CoreExpr,
    s: Walked,
) -> Result<Walked, NoMemory>
    requires { IsReady at.now.reader.q }
    ensures { Gives at.now result (λ k a. spec.same_locals s (spec.thrown k a node (plain x.now))) }
{
    let Walked { locals, links } = s;
    let links = thrown(alloc, at, node, x, locals.as_slice(), links)?;
    Ok(Walked { locals, links })
}

fn on_this_call(
    alloc: Global,
    at: &Place<'_>,
    node: u32,
    constructor: u32,
    args: &[CoreExpr],
    s: Walked,
) -> Result<Walked, NoMemory>
    requires { IsReady at.now.reader.q }
    ensures { Gives at.now result (λ k a. spec.same_locals s (λ ls l. arguments.own_call k a ls node false constructor
        (plains args.now) (spec.values k a ls (plains args.now) l))) }
{
    let Walked { locals, links } = s;
    let links = values(alloc, at, locals.as_slice(), args, links)?;
    let links = own_call(
        alloc,
        at,
        locals.as_slice(),
        node,
        false,
        constructor,
        args,
        links,
    )?;
    Ok(Walked { locals, links })
}

fn on_super_call(
    alloc: Global,
    at: &Place<'_>,
    node: u32,
    constructor: u32,
    args: &[CoreExpr],
    s: Walked,
) -> Result<Walked, NoMemory>
    requires { IsReady at.now.reader.q }
    ensures { Gives at.now result (λ k a. spec.same_locals s (λ ls l. arguments.super_call k a ls node constructor
        (plains args.now) (spec.values k a ls (plains args.now) l))) }
{
    let Walked { locals, links } = s;
    let links = values(alloc, at, locals.as_slice(), args, links)?;
    let links = super_call(alloc, at, locals.as_slice(), node, constructor, args, links)?;
    Ok(Walked { locals, links })
}

/// The parameter of a catch is no place.
fn caught(alloc: Global, slot: u32, t: &JavaType, s: Walked) -> Result<Walked, NoMemory>
    ensures { IfOk result (λ r. r ≡ spec.walked_with (spec.with_local s.locals slot t.now) s.links) }
{
    let Walked { locals, links } = s;
    let locals = with_local(locals, slot, copied(alloc, t)?)?;
    Ok(Walked { locals, links })
}

/// The constraints on a statement, its parts in the order of the file.
#[cycle(walk)]
pub(crate) fn walk(
    alloc: Global,
    at: &Place<'_>,
    stmt: &CoreStmt,
    s: Walked,
) -> Result<Walked, NoMemory>
    requires { IsReady at.now.reader.q }
    ensures { Gives at.now result (λ k a. spec.walk k a (stmt_plain stmt.now) s) }
{
    match &stmt.form {
        CoreStmtForm::Block(stmts) => walks(alloc, at, stmts.as_slice(), s),
        CoreStmtForm::Local { written, vars, .. } => locals(alloc, at, written, vars.as_slice(), s),
        CoreStmtForm::Empty | CoreStmtForm::Break | CoreStmtForm::Continue => Ok(s),
        CoreStmtForm::Value(x) => on_value(alloc, at, x, s),
        CoreStmtForm::If { test, yes, no } => {
            let s = on_value(alloc, at, test, s)?;
            let s = walk(alloc, at, yes.get(), s)?;
            maybe_walk(alloc, at, no, s)
        }
        CoreStmtForm::While { test, body } => {
            let s = on_value(alloc, at, test, s)?;
            walk(alloc, at, body.get(), s)
        }
        CoreStmtForm::Do { body, test } => {
            let s = walk(alloc, at, body.get(), s)?;
            on_value(alloc, at, test, s)
        }
        CoreStmtForm::For {
            init,
            test,
            step,
            body,
        } => {
            let s = walks(alloc, at, init.as_slice(), s)?;
            let s = on_optional(alloc, at, test, s)?;
            let s = on_values(alloc, at, step.as_slice(), s)?;
            walk(alloc, at, body.get(), s)
        }
        CoreStmtForm::ForEach {
            written,
            var,
            over,
            body,
            ..
        } => {
            let s = looped(alloc, at, written, var, over, s)?;
            walk(alloc, at, body.get(), s)
        }
        CoreStmtForm::Switch { on, groups } => {
            let s = on_value(alloc, at, on, s)?;
            walk_groups(alloc, at, groups.as_slice(), s)
        }
        CoreStmtForm::Return(x) => on_return(alloc, at, x, s),
        CoreStmtForm::Throw(x) => on_throw(alloc, at, stmt.node.id, x, s),
        CoreStmtForm::Try {
            body,
            catches,
            last,
        } => {
            let s = walk(alloc, at, body.get(), s)?;
            let s = walk_catches(alloc, at, catches.as_slice(), s)?;
            maybe_walk(alloc, at, last, s)
        }
        CoreStmtForm::ThisCall { constructor, args } => {
            on_this_call(alloc, at, stmt.node.id, *constructor, args.as_slice(), s)
        }
        CoreStmtForm::SuperCall { constructor, args } => {
            on_super_call(alloc, at, stmt.node.id, *constructor, args.as_slice(), s)
        }
    }
}

#[cycle(walk)]
fn maybe_walk(
    alloc: Global,
    at: &Place<'_>,
    stmt: &Option<Boxed<CoreStmt>>,
    s: Walked,
) -> Result<Walked, NoMemory>
    requires { IsReady at.now.reader.q }
    ensures { Gives at.now result (λ k a. spec.maybe_walk k a (stmt_maybe (option_map stmt_plain stmt.now)) s) }
{
    match stmt {
        None => Ok(s),
        Some(stmt) => walk(alloc, at, stmt.get(), s),
    }
}

#[cycle(walk)]
fn walks(
    alloc: Global,
    at: &Place<'_>,
    stmts: &[CoreStmt],
    mut s: Walked,
) -> Result<Walked, NoMemory>
    requires { IsReady at.now.reader.q }
    ensures { Gives at.now result (λ k a. spec.walks k a (stmts_plain stmts.now) s) }
{
    for stmt in stmts {
        s = walk(alloc, at, stmt, s)?;
    }
    Ok(s)
}

#[cycle(walk)]
fn walk_groups(
    alloc: Global,
    at: &Place<'_>,
    groups: &[CoreGroup],
    mut s: Walked,
) -> Result<Walked, NoMemory>
    requires { IsReady at.now.reader.q }
    ensures { Gives at.now result (λ k a. spec.groups k a (group_row (map group_plain groups.now)) s) }
{
    for group in groups {
        s = walks(alloc, at, group.body.as_slice(), s)?;
    }
    Ok(s)
}

#[cycle(walk)]
fn walk_catches(
    alloc: Global,
    at: &Place<'_>,
    catches: &[CoreCatch],
    mut s: Walked,
) -> Result<Walked, NoMemory>
    requires { IsReady at.now.reader.q }
    ensures { Gives at.now result (λ k a. spec.catches k a (catch_row (map catch_plain catches.now)) s) }
{
    for catch in catches {
        let caught = caught(alloc, catch.param.slot, &catch.param.ty, s)?;
        s = walk(alloc, at, catch.body.get(), caught)?;
    }
    Ok(s)
}
