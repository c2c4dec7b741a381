//! The declaration of locals (JLS 14.4), and the expressions of a for.

ghost use Rattle.std.specs.Prelude.{◌≡◌, Option, map, OnOk};
ghost use Rattle.std.specs.Option.{option_map};
ghost use Rattle.java_tree.specs.View as view;
ghost use Rattle.java_core.specs.Plain as p;
ghost use Rattle.java_core.specs.View.{plain, written, var_plain, stmt_plain};
ghost use Rattle.checked.specs.Checked.{Checked, Fine, Meets};
ghost use Rattle.type_facts.specs.Facts.{AreFacts, Facts, IsReady};
ghost use Rattle.check_stmt.specs.Fronts.{IsFront};
ghost use Rattle.check_stmt.specs.Pieces as piece;
ghost use Rattle.check_stmt.specs.Statements as spec;

use crate::scopes::{declare, spot_of, with_levels};
use crate::vars::{var_set, var_unset};
use check_expr::exprs::{check, check_initial};
use checked::Stop;
use class_world::{JavaType, copied};
use java_core::{CoreExpr, CoreStmt, CoreStmtForm, CoreType, CoreVar};
use java_tree::Items;
use java_tree::tree::{Expr, Node, Var};
use operator_rules::Use;
use std::alloc::Global;
use type_facts::Questions;
use type_facts::scope::{Locals, Place};

/// A declared variable, which its own value sees.
#[tactic(auto, using(crate::proofs::Fronts::front_same))]
fn check_var(
    alloc: Global,
    q: &Questions<'_>,
    place: &Place,
    locals: &mut Locals,
    ty: &JavaType,
    is_final: bool,
    var: &Var,
) -> Result<CoreVar, Stop>
    requires ready { IsReady q.now }
    ensures meets { (f : Facts) → AreFacts q.now f → Meets var_plain result (spec.var_of f place.now locals.old ty.now is_final (view.var_plain var.now) (option_map view.plain var.now.init)) }
    ensures scope { OnOk result (locals.new ≡ piece.declared locals.old var.now.name ty.now is_final) }
    ensures front { IsFront locals.old locals.new }
{
    let spot = spot_of(locals, var.name)?;
    declare(alloc, locals, var.name, ty, is_final)?;
    match &var.init {
        None => var_unset(alloc, spot, var.node, var.name, ty),
        Some(init) => {
            let init = check_initial(alloc, q, place, locals, ty, init);
            var_set(alloc, q, spot, var.node, var.name, ty, init)
        }
    }
}

#[tactic(auto, using(crate::proofs::Fronts::front_then, crate::proofs::Fronts::front_same, crate::proofs::Steps::vars_end))]
fn check_vars(
    alloc: Global,
    q: &Questions<'_>,
    place: &Place,
    locals: &mut Locals,
    ty: &JavaType,
    is_final: bool,
    vars: &[Var],
) -> Result<Items<CoreVar>, Stop>
    requires ready { IsReady q.now }
    ensures meets { (f : Facts) → AreFacts q.now f → Meets (map var_plain) result (spec.vars_of f place.now locals.old ty.now is_final (map view.var_plain vars.now)) }
    ensures front { IsFront locals.old locals.new }
{
    let mut done = Items::new(alloc);
    for var in vars {
        let ty = with_levels(alloc, copied(alloc, ty)?, var.dims)?;
        done.push(check_var(alloc, q, place, locals, &ty, is_final, var)?)?;
    }
    Ok(done)
}

/// The same, with the variables out of scope behind them.
#[tactic(auto, using(crate::proofs::Fronts::front_take))]
fn check_all_vars(
    alloc: Global,
    q: &Questions<'_>,
    place: &Place,
    locals: &mut Locals,
    ty: &JavaType,
    is_final: bool,
    vars: &[Var],
) -> Result<Items<CoreVar>, Stop>
    requires ready { IsReady q.now }
    ensures meets { (f : Facts) → AreFacts q.now f → Meets (map var_plain) result (spec.vars_of f place.now locals.old ty.now is_final (map view.var_plain vars.now)) }
    ensures kept { locals.new ≡ locals.old }
{
    let depth = locals.len();
    let made = check_vars(alloc, q, place, locals, ty, is_final, vars);
    locals.truncate(depth);
    made
}

#[tactic(auto, using(java_core::proofs::Views::type_out))]
fn local_typed(
    alloc: Global,
    q: &Questions<'_>,
    place: &Place,
    locals: &mut Locals,
    node: Node,
    is_final: bool,
    ty: CoreType,
    vars: &[Var],
) -> Result<CoreStmt, Stop>
    requires ready { IsReady q.now }
    ensures meets { (f : Facts) → AreFacts q.now f → Meets stmt_plain result (spec.local_of f place.now node is_final locals.old (map view.var_plain vars.now) (Fine (written ty))) }
    ensures kept { locals.new ≡ locals.old }
{
    let vars = check_all_vars(alloc, q, place, locals, &ty.ty, is_final, vars)?;
    Ok(CoreStmt {
        node,
        form: CoreStmtForm::Local {
            is_final,
            written: ty,
            vars,
        },
    })
}

/// A declaration of locals (JLS 14.4): T4, T5.
pub fn local_of(
    alloc: Global,
    q: &Questions<'_>,
    place: &Place,
    locals: &mut Locals,
    node: Node,
    is_final: bool,
    ty: Result<CoreType, Stop>,
    vars: &[Var],
) -> Result<CoreStmt, Stop>
    requires ready { IsReady q.now }
    ensures meets { (f : Facts) → AreFacts q.now f → (a : Checked p.Written) → Meets written ty a → Meets stmt_plain result (spec.local_of f place.now node is_final locals.old (map view.var_plain vars.now) a) }
    ensures kept { locals.new ≡ locals.old }
{
    let ty = ty?;
    local_typed(alloc, q, place, locals, node, is_final, ty, vars)
}

/// The expressions of a for, each performed (JLS 14.14.1).
#[tactic(auto, using(crate::proofs::Steps::performed_end))]
pub fn check_performed(
    alloc: Global,
    q: &Questions<'_>,
    place: &Place,
    locals: &Locals,
    es: &[Expr],
) -> Result<Items<CoreExpr>, Stop>
    requires ready { IsReady q.now }
    ensures { (f : Facts) → AreFacts q.now f → Meets (map plain) result (spec.performed f place.now locals.now (view.plains es.now)) }
{
    let mut done = Items::new(alloc);
    for e in es {
        done.push(check(alloc, q, place, locals, Use::Perform, e)?)?;
    }
    Ok(done)
}
