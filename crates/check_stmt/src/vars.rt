//! Declared locals and the parameters of catches (JLS 14.4, 14.20).

ghost use Rattle.std.specs.Prelude.{◌≡◌, Some, map, IfOk};
ghost use Rattle.java_tree.specs.View as view;
ghost use Rattle.java_core.specs.Plain as p;
ghost use Rattle.java_core.specs.View.{plain, written, var_plain, param_plain, stmt_plain, catch_plain};
ghost use Rattle.checked.specs.Checked.{Checked, Meets};
ghost use Rattle.type_kinds.specs.Kinds as kinds;
ghost use Rattle.type_facts.specs.Facts.{AreFacts, Facts, IsReady};
ghost use Rattle.check_stmt.specs.Pieces as spec;

use crate::pieces::throwable;
use crate::scopes::{Spot, with_levels};
use checked::Stop;
use class_world::{JavaType, copied};
use java_core::{CoreCatch, CoreExpr, CoreParam, CoreStmt, CoreType, CoreVar};
use java_tree::tree::{Name, Node, Param};
use java_tree::{Boxed, NoMemory};
use std::alloc::Global;
use type_facts::Questions;
use type_facts::asks::{is_below, may_assign};
use type_kinds::conversions::converted_value;
use type_kinds::kinds::class_number;

fn var_made(
    alloc: Global,
    slot: u32,
    node: Node,
    name: Name,
    ty: &JavaType,
    init: CoreExpr,
) -> Result<CoreVar, NoMemory>
    ensures { IfOk result (λ r. var_plain r ≡ spec.var_made slot node name ty.now (Some (kinds.converted ty.now (plain init)))) }
{
    let init = converted_value(alloc, ty, init)?;
    Ok(CoreVar {
        node,
        name,
        slot,
        ty: copied(alloc, ty)?,
        init: Some(init),
    })
}

#[tactic(auto, using(java_core::proofs::Views::plain_at))]
fn var_fine(
    alloc: Global,
    q: &Questions<'_>,
    spot: Spot,
    node: Node,
    name: Name,
    ty: &JavaType,
    init: CoreExpr,
) -> Result<CoreVar, Stop>
    requires ready { IsReady q.now }
    ensures { (f : Facts) → AreFacts q.now f → Meets var_plain result (spec.var_fine f spot node name ty.now (plain init)) }
{
    if !may_assign(q, &init.ty, ty) {
        return Err(Stop::Broken {
            node: node.id,
            rule: 4,
        });
    }
    if spot.taken {
        return Err(Stop::Broken {
            node: node.id,
            rule: 5,
        });
    }
    Ok(var_made(alloc, spot.slot, node, name, ty, init)?)
}

/// A variable with a value (JLS 14.4): T4 reads the value, T5 nothing.
pub fn var_set(
    alloc: Global,
    q: &Questions<'_>,
    spot: Spot,
    node: Node,
    name: Name,
    ty: &JavaType,
    init: Result<CoreExpr, Stop>,
) -> Result<CoreVar, Stop>
    requires ready { IsReady q.now }
    ensures { (f : Facts) → AreFacts q.now f → (a : Checked p.Expr) → Meets plain init a → Meets var_plain result (spec.var_set f spot node name ty.now a) }
{
    match init {
        Ok(init) => var_fine(alloc, q, spot, node, name, ty, init),
        Err(Stop::NoMemory) => Err(Stop::NoMemory),
        Err(Stop::Broken { node: m, rule }) => {
            if spot.taken {
                return Err(Stop::Broken {
                    node: node.id,
                    rule: 5,
                });
            }
            Err(Stop::Broken { node: m, rule })
        }
    }
}

/// A variable without a value (JLS 14.4): T5.
pub fn var_unset(
    alloc: Global,
    spot: Spot,
    node: Node,
    name: Name,
    ty: &JavaType,
) -> Result<CoreVar, Stop>
    ensures { Meets var_plain result (spec.var_unset spot node name ty.now) }
{
    if spot.taken {
        return Err(Stop::Broken {
            node: node.id,
            rule: 5,
        });
    }
    Ok(CoreVar {
        node,
        name,
        slot: spot.slot,
        ty: copied(alloc, ty)?,
        init: None,
    })
}

#[tactic(auto, using(java_core::proofs::Views::type_out))]
fn param_made(alloc: Global, slot: u32, x: &Param, ty: CoreType) -> Result<CoreParam, NoMemory>
    ensures { IfOk result (λ r. param_plain r ≡ spec.param_made slot (view.param_plain x.now) (written ty)) }
{
    let of = with_levels(alloc, copied(alloc, &ty.ty)?, x.dims)?;
    Ok(CoreParam {
        node: x.node,
        is_final: x.is_final,
        name: x.name,
        slot,
        ty: of,
        written: ty,
    })
}

/// The parameter of a catch (JLS 14.20): T5.
pub fn param_of(
    alloc: Global,
    spot: Spot,
    x: &Param,
    ty: Result<CoreType, Stop>,
) -> Result<CoreParam, Stop>
    ensures { (a : Checked p.Written) → Meets written ty a → Meets param_plain result (spec.param_of spot (view.param_plain x.now) a) }
{
    match ty {
        Ok(ty) => {
            if spot.taken {
                return Err(Stop::Broken {
                    node: x.node.id,
                    rule: 5,
                });
            }
            Ok(param_made(alloc, spot.slot, x, ty)?)
        }
        Err(Stop::NoMemory) => Err(Stop::NoMemory),
        Err(Stop::Broken { node: m, rule }) => {
            if spot.taken {
                return Err(Stop::Broken {
                    node: x.node.id,
                    rule: 5,
                });
            }
            Err(Stop::Broken { node: m, rule })
        }
    }
}

/// Whether a type is a class below Throwable.
fn is_caught(alloc: Global, q: &Questions<'_>, ty: &JavaType) -> bool
    requires ready { IsReady q.now }
    ensures { (f : Facts) → AreFacts q.now f → result ≡ spec.is_caught f ty.now }
{
    let above = throwable(alloc);
    if class_number(ty).is_none() {
        return false;
    }
    is_below(q, ty, &above)
}

/// T17 at a catch, which reads the parameter's type.
#[tactic(auto, using(java_core::proofs::Views::type_out))]
fn caught(
    alloc: Global,
    q: &Questions<'_>,
    x: &Param,
    ty: &Result<CoreType, Stop>,
) -> Result<bool, NoMemory>
    requires ready { IsReady q.now }
    ensures { (f : Facts) → AreFacts q.now f → (a : Checked p.Written) → Meets written ty.now a → IfOk result (λ r. r ≡ spec.caught f (view.param_plain x.now) a) }
{
    match ty {
        Ok(ty) => {
            let ty = with_levels(alloc, copied(alloc, &ty.ty)?, x.dims)?;
            Ok(is_caught(alloc, q, &ty))
        }
        Err(Stop::NoMemory) => Err(NoMemory),
        Err(Stop::Broken { .. }) => Ok(true),
    }
}

/// A catch (JLS 14.20): T17, and T5 at its parameter.
pub fn catch_of(
    alloc: Global,
    q: &Questions<'_>,
    spot: Spot,
    node: Node,
    x: &Param,
    ty: Result<CoreType, Stop>,
    body: Result<Boxed<CoreStmt>, Stop>,
) -> Result<CoreCatch, Stop>
    requires ready { IsReady q.now }
    ensures { (f : Facts) → AreFacts q.now f → (a : Checked p.Written) (b : Checked p.Stmt) → Meets written ty a → Meets stmt_plain body b → Meets catch_plain result (spec.catch_of f spot node (view.param_plain x.now) a b) }
{
    if !caught(alloc, q, x, &ty)? {
        return Err(Stop::Broken {
            node: node.id,
            rule: 17,
        });
    }
    let param = param_of(alloc, spot, x, ty)?;
    let body = body?;
    Ok(CoreCatch { node, param, body })
}
