//! Declared locals (JLS 14.4 and 16.2.4).

ghost use Rattle.std.specs.Prelude.{◌≡◌, None, OnOk, map};
ghost use Rattle.std.specs.Option.{option_map};
ghost use Rattle.java_core.specs.View.{plain, stmt_plain, stmts_plain, var_plain};
ghost use Rattle.definite_assignment.specs.Bodies as spec;
ghost use Rattle.definite_assignment.specs.Variables.{either};

use crate::exprs::{test, value};
use crate::forks::tell;
use crate::state::{State, Variable, give, keep_rule, ungive};
use crate::variables::add;
use class_world::World;
use java_core::{CoreExpr, CoreStmt, CoreStmtForm, CoreVar};
use java_tree::{Items, NoMemory};
use std::alloc::Global;

/// A value that may be missing.
pub(crate) fn optional(
    alloc: Global,
    w: &World,
    x: &Option<CoreExpr>,
    s: &mut State,
) -> Result<(), NoMemory>
    ensures { OnOk result (s.new ≡ spec.optional w.now None (option_map plain x.now) s.old) }
{
    match x {
        None => Ok(()),
        Some(x) => value(alloc, w, None, x, s),
    }
}

/// The test of a loop, which goes on where it has none.
pub(crate) fn optional_test(
    alloc: Global,
    w: &World,
    x: &Option<CoreExpr>,
    s: &mut State,
) -> Result<(), NoMemory>
    ensures { OnOk result (s.new ≡ spec.optional_test w.now (option_map plain x.now) s.old) }
{
    match x {
        None => {
            tell(alloc, true, s);
            Ok(())
        }
        Some(x) => test(alloc, w, None, x, s),
    }
}

fn var_given(
    alloc: Global,
    w: &World,
    is_final: bool,
    var: &CoreVar,
    s: &mut State,
) -> Result<(), NoMemory>
    ensures { OnOk result (s.new ≡ spec.var_given w.now is_final (var_plain var.now) (option_map plain var.now.init) s.old) }
{
    ungive(Variable::Local(var.slot), s)?;
    match &var.init {
        None => {
            keep_rule(!is_final, var.node.id, 5, s);
            Ok(())
        }
        Some(x) => {
            value(alloc, w, None, x, s)?;
            give(alloc, Variable::Local(var.slot), s)
        }
    }
}

pub(crate) fn vars_given(
    alloc: Global,
    w: &World,
    is_final: bool,
    vars: &[CoreVar],
    s: &mut State,
) -> Result<(), NoMemory>
    ensures { OnOk result (s.new ≡ spec.vars_given w.now is_final (map var_plain vars.now) s.old) }
{
    for var in vars {
        var_given(alloc, w, is_final, var, s)?;
    }
    Ok(())
}

/// Puts the locals of a declaration on a list.
fn add_slots(vars: &[CoreVar], xs: &mut Items<Variable>) -> Result<(), NoMemory>
    ensures { OnOk result (xs.new ≡ either xs.old (spec.slots_of (map var_plain vars.now))) }
{
    for var in vars {
        add(xs, Variable::Local(var.slot))?;
    }
    Ok(())
}

#[tactic(auto, using(crate::proofs::Statements::stmt_at))]
fn add_declared_by(s: &CoreStmt, xs: &mut Items<Variable>) -> Result<(), NoMemory>
    ensures { OnOk result (xs.new ≡ either xs.old (spec.declared_by (stmt_plain s.now))) }
{
    match &s.form {
        CoreStmtForm::Local { vars, .. } => add_slots(vars.as_slice(), xs),
        _ => Ok(()),
    }
}

/// Puts the locals that statements declare on a list.
pub(crate) fn add_declared_in(stmts: &[CoreStmt], xs: &mut Items<Variable>) -> Result<(), NoMemory>
    ensures { OnOk result (xs.new ≡ either xs.old (spec.declared_in (stmts_plain stmts.now))) }
{
    for s in stmts {
        add_declared_by(s, xs)?;
    }
    Ok(())
}
