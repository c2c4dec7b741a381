//! The unchecked operations of statements.

ghost use Rattle.std.specs.Prelude.{◌≡◌, ◌++◌, Bool, None, OnOk, Some, map};
ghost use Rattle.std.specs.Option.{option_map};
ghost use Rattle.class_world.specs.declared.world.JavaType.{JavaType};
ghost use Rattle.java_core.specs.View.{catch_plain, catch_row, group_plain, group_row, plain, stmt_maybe, stmt_plain, stmts_plain, var_plain};
ghost use Rattle.type_facts.specs.Facts.{AreFacts, Facts, IsReady};
ghost use Rattle.unchecked_ops.specs.Casting.{AreCasts};
ghost use Rattle.unchecked_ops.specs.Operations as spec;

use crate::exprs::{each_ops, is_for, method_args, ops};
use class_world::JavaType;
use java_core::{CoreCatch, CoreExpr, CoreGroup, CoreStmt, CoreStmtForm, CoreVar};
use java_tree::tree::Node;
use java_tree::{Boxed, Items, NoMemory};
use std::alloc::Global;
use type_facts::Questions;
use type_facts::asks::is_unchecked_alone;

/// The operations of an expression that may be missing, and that goes to no variable.
pub(crate) fn option_ops(
    alloc: Global,
    q: &Questions<'_>,
    above: &JavaType,
    x: &Option<CoreExpr>,
    out: &mut Items<Node>,
) -> Result<(), NoMemory>
    requires { IsReady q.now }
    ensures { spec.Puts q.now result out.old out.new (λ f u. spec.value_ops f u above.now None (option_map plain x.now)) }
{
    match x {
        None => Ok(()),
        Some(x) => ops(alloc, q, above, false, x, out),
    }
}

/// The operations of a value that may be missing, for a variable of a type.
pub(crate) fn init_ops(
    alloc: Global,
    q: &Questions<'_>,
    above: &JavaType,
    ty: &JavaType,
    x: &Option<CoreExpr>,
    out: &mut Items<Node>,
) -> Result<(), NoMemory>
    requires { IsReady q.now }
    ensures { spec.Puts q.now result out.old out.new (λ f u. spec.value_ops f u above.now (Some ty.now) (option_map plain x.now)) }
{
    match x {
        None => Ok(()),
        Some(x) => {
            let unchecked = is_for(q, ty, x);
            ops(alloc, q, above, unchecked, x, out)
        }
    }
}

fn return_ops(
    alloc: Global,
    q: &Questions<'_>,
    above: &JavaType,
    given: &Option<JavaType>,
    x: &Option<CoreExpr>,
    out: &mut Items<Node>,
) -> Result<(), NoMemory>
    requires { IsReady q.now }
    ensures { spec.Puts q.now result out.old out.new (λ f u. spec.value_ops f u above.now given.now (option_map plain x.now)) }
{
    match given {
        None => option_ops(alloc, q, above, x, out),
        Some(ty) => init_ops(alloc, q, above, ty, x, out),
    }
}

fn var_ops(
    alloc: Global,
    q: &Questions<'_>,
    above: &JavaType,
    vars: &[CoreVar],
    out: &mut Items<Node>,
) -> Result<(), NoMemory>
    requires { IsReady q.now }
    ensures { spec.Puts q.now result out.old out.new (λ f u. spec.var_ops f u above.now (map var_plain vars.now)) }
{
    for var in vars {
        init_ops(alloc, q, above, &var.ty, &var.init, out)?;
    }
    Ok(())
}

/// The operations of a statement in a method that gives values of the type, where there is one.
#[cycle(stmts)]
#[tactic(auto, using(crate::proofs::Statements::stmt_at))]
pub(crate) fn stmt_ops(
    alloc: Global,
    q: &Questions<'_>,
    own: &JavaType,
    above: &JavaType,
    given: &Option<JavaType>,
    s: &CoreStmt,
    out: &mut Items<Node>,
) -> Result<(), NoMemory>
    requires { IsReady q.now }
    ensures { spec.Puts q.now result out.old out.new (λ f u. spec.stmt_ops f u own.now above.now given.now (stmt_plain s.now)) }
{
    match &s.form {
        CoreStmtForm::Block(stmts) => {
            stmts_ops(alloc, q, own, above, given, stmts.as_slice(), out)
        }
        CoreStmtForm::Local { vars, .. } => var_ops(alloc, q, above, vars.as_slice(), out),
        CoreStmtForm::Empty | CoreStmtForm::Break | CoreStmtForm::Continue => Ok(()),
        CoreStmtForm::Value(x) => ops(alloc, q, above, false, x, out),
        CoreStmtForm::If { test, yes, no } => {
            ops(alloc, q, above, false, test, out)?;
            stmt_ops(alloc, q, own, above, given, yes.get(), out)?;
            maybe_stmt(alloc, q, own, above, given, no, out)
        }
        CoreStmtForm::While { test, body } => {
            ops(alloc, q, above, false, test, out)?;
            stmt_ops(alloc, q, own, above, given, body.get(), out)
        }
        CoreStmtForm::Do { body, test } => {
            stmt_ops(alloc, q, own, above, given, body.get(), out)?;
            ops(alloc, q, above, false, test, out)
        }
        CoreStmtForm::For {
            init,
            test,
            step,
            body,
        } => {
            stmts_ops(alloc, q, own, above, given, init.as_slice(), out)?;
            option_ops(alloc, q, above, test, out)?;
            each_ops(alloc, q, above, step.as_slice(), out)?;
            stmt_ops(alloc, q, own, above, given, body.get(), out)
        }
        CoreStmtForm::ForEach {
            var,
            over,
            item,
            body,
            ..
        } => {
            let unchecked = is_unchecked_alone(q, item, &var.ty);
            ops(alloc, q, above, unchecked, over, out)?;
            stmt_ops(alloc, q, own, above, given, body.get(), out)
        }
        CoreStmtForm::Switch { on, groups } => {
            ops(alloc, q, above, false, on, out)?;
            group_ops(alloc, q, own, above, given, groups.as_slice(), out)
        }
        CoreStmtForm::Return(x) => return_ops(alloc, q, above, given, x, out),
        CoreStmtForm::Throw(x) => ops(alloc, q, above, false, x, out),
        CoreStmtForm::Try {
            body,
            catches,
            last,
        } => {
            stmt_ops(alloc, q, own, above, given, body.get(), out)?;
            catch_ops(alloc, q, own, above, given, catches.as_slice(), out)?;
            maybe_stmt(alloc, q, own, above, given, last, out)
        }
        CoreStmtForm::ThisCall { constructor, args } => {
            method_args(alloc, q, above, own, *constructor, args.as_slice(), out)
        }
        CoreStmtForm::SuperCall { constructor, args } => {
            method_args(alloc, q, above, above, *constructor, args.as_slice(), out)
        }
    }
}

#[cycle(stmts)]
fn maybe_stmt(
    alloc: Global,
    q: &Questions<'_>,
    own: &JavaType,
    above: &JavaType,
    given: &Option<JavaType>,
    s: &Option<Boxed<CoreStmt>>,
    out: &mut Items<Node>,
) -> Result<(), NoMemory>
    requires { IsReady q.now }
    ensures { spec.Puts q.now result out.old out.new (λ f u. spec.maybe_stmt f u own.now above.now given.now (stmt_maybe (option_map stmt_plain s.now))) }
{
    match s {
        None => Ok(()),
        Some(s) => stmt_ops(alloc, q, own, above, given, s.get(), out),
    }
}

#[cycle(stmts)]
fn stmts_ops(
    alloc: Global,
    q: &Questions<'_>,
    own: &JavaType,
    above: &JavaType,
    given: &Option<JavaType>,
    stmts: &[CoreStmt],
    out: &mut Items<Node>,
) -> Result<(), NoMemory>
    requires { IsReady q.now }
    ensures { spec.Puts q.now result out.old out.new (λ f u. spec.stmts_ops f u own.now above.now given.now (stmts_plain stmts.now)) }
{
    for s in stmts {
        stmt_ops(alloc, q, own, above, given, s, out)?;
    }
    Ok(())
}

#[cycle(stmts)]
fn group_ops(
    alloc: Global,
    q: &Questions<'_>,
    own: &JavaType,
    above: &JavaType,
    given: &Option<JavaType>,
    groups: &[CoreGroup],
    out: &mut Items<Node>,
) -> Result<(), NoMemory>
    requires { IsReady q.now }
    ensures { spec.Puts q.now result out.old out.new (λ f u. spec.group_ops f u own.now above.now given.now (group_row (map group_plain groups.now))) }
{
    for group in groups {
        stmts_ops(alloc, q, own, above, given, group.body.as_slice(), out)?;
    }
    Ok(())
}

#[cycle(stmts)]
fn catch_ops(
    alloc: Global,
    q: &Questions<'_>,
    own: &JavaType,
    above: &JavaType,
    given: &Option<JavaType>,
    catches: &[CoreCatch],
    out: &mut Items<Node>,
) -> Result<(), NoMemory>
    requires { IsReady q.now }
    ensures { spec.Puts q.now result out.old out.new (λ f u. spec.catch_ops f u own.now above.now given.now (catch_row (map catch_plain catches.now))) }
{
    for catch in catches {
        stmt_ops(alloc, q, own, above, given, catch.body.get(), out)?;
    }
    Ok(())
}
