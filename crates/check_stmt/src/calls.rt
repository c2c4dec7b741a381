//! Calls of constructors in constructors (JLS 8.8.5.1).

ghost use Rattle.std.specs.Prelude.{◌≡◌, List, map, IfOk};
ghost use Rattle.java_tree.specs.View as view;
ghost use Rattle.java_core.specs.Plain as p;
ghost use Rattle.java_core.specs.View.{plain, row, stmt_plain};
ghost use Rattle.checked.specs.Checked.{Checked, Meets};
ghost use Rattle.type_kinds.specs.Kinds.{converted_all as all_converted};
ghost use Rattle.type_facts.specs.Facts.{AreFacts, Facts, IsReady};
ghost use Rattle.check_expr.specs.Typed.{typeds};
ghost use Rattle.check_stmt.specs.Pieces as spec;

use check_expr::exprs::check_all;
use checked::Stop;
use class_world::{JavaType, copied};
use java_core::{CoreExpr, CoreStmt, CoreStmtForm};
use java_tree::tree::{Expr, Node};
use java_tree::{Items, NoMemory};
use member_uses::{constructor, superclass};
use std::alloc::Global;
use type_facts::Questions;
use type_facts::scope::{Locals, Place, own_type};
use type_kinds::conversions::converted_all;

fn result_copied(alloc: Global, ty: &Option<JavaType>) -> Result<Option<JavaType>, NoMemory>
    ensures { IfOk result (λ r. r ≡ ty.now) }
{
    match ty {
        None => Ok(None),
        Some(ty) => Ok(Some(copied(alloc, ty)?)),
    }
}

/// The place of the arguments of this(..) and super(..), where there is no `this`.
fn before_this(alloc: Global, place: &Place) -> Result<Place, NoMemory>
    ensures { IfOk result (λ r. r ≡ spec.before_this place.now) }
{
    Ok(Place {
        class: place.class,
        vars: Items::from_slice(alloc, place.vars.as_slice())?,
        is_static: true,
        in_static: place.in_static,
        blanks: Items::from_slice(alloc, place.blanks.as_slice())?,
        result: result_copied(alloc, &place.result)?,
    })
}

/// The arguments of this(..) and super(..) (JLS 8.8.5.1).
pub fn args_before_this(
    alloc: Global,
    q: &Questions<'_>,
    place: &Place,
    locals: &Locals,
    es: &[Expr],
) -> Result<Items<CoreExpr>, Stop>
    requires ready { IsReady q.now }
    ensures { (f : Facts) → AreFacts q.now f → Meets (map plain) result (typeds f (spec.before_this place.now) locals.now (view.plains es.now)) }
{
    let before = before_this(alloc, place)?;
    check_all(alloc, q, &before, locals, es)
}

fn this_made(
    alloc: Global,
    node: Node,
    constructor: u32,
    params: &[JavaType],
    args: Items<CoreExpr>,
) -> Result<CoreStmt, NoMemory>
    ensures { IfOk result (λ r. stmt_plain r ≡ p.ThisCall node constructor (row (all_converted params.now (map plain args)))) }
{
    let args = converted_all(alloc, params, args)?;
    Ok(CoreStmt {
        node,
        form: CoreStmtForm::ThisCall { constructor, args },
    })
}

fn this_called(
    alloc: Global,
    q: &Questions<'_>,
    place: &Place,
    node: Node,
    args: Items<CoreExpr>,
) -> Result<CoreStmt, Stop>
    requires ready { IsReady q.now }
    ensures { (f : Facts) → AreFacts q.now f → Meets stmt_plain result (spec.this_called f place.now node (map plain args)) }
{
    let own = own_type(alloc, place)?;
    match constructor(alloc, q, place, &own, args.as_slice())? {
        None => Err(Stop::Broken {
            node: node.id,
            rule: 39,
        }),
        Some(chosen) => Ok(this_made(alloc, node, chosen.method, chosen.params.as_slice(), args)?),
    }
}

/// A call of another constructor of the class (JLS 8.8.5.1): T39.
pub fn this_call(
    alloc: Global,
    q: &Questions<'_>,
    place: &Place,
    node: Node,
    args: Result<Items<CoreExpr>, Stop>,
) -> Result<CoreStmt, Stop>
    requires ready { IsReady q.now }
    ensures { (f : Facts) → AreFacts q.now f → (xs : Checked (List p.Expr)) → Meets (map plain) args xs → Meets stmt_plain result (spec.this_call f place.now node xs) }
{
    let args = args?;
    this_called(alloc, q, place, node, args)
}

fn super_made(
    alloc: Global,
    node: Node,
    constructor: u32,
    params: &[JavaType],
    args: Items<CoreExpr>,
) -> Result<CoreStmt, NoMemory>
    ensures { IfOk result (λ r. stmt_plain r ≡ p.SuperFirst node constructor (row (all_converted params.now (map plain args)))) }
{
    let args = converted_all(alloc, params, args)?;
    Ok(CoreStmt {
        node,
        form: CoreStmtForm::SuperCall { constructor, args },
    })
}

fn super_called(
    alloc: Global,
    q: &Questions<'_>,
    place: &Place,
    node: Node,
    above: &JavaType,
    args: Items<CoreExpr>,
) -> Result<CoreStmt, Stop>
    requires ready { IsReady q.now }
    ensures { (f : Facts) → AreFacts q.now f → Meets stmt_plain result (spec.super_called f place.now node above.now (map plain args)) }
{
    match constructor(alloc, q, place, above, args.as_slice())? {
        None => Err(Stop::Broken {
            node: node.id,
            rule: 39,
        }),
        Some(chosen) => Ok(super_made(alloc, node, chosen.method, chosen.params.as_slice(), args)?),
    }
}

/// A call of a constructor of the class above (JLS 8.8.5.1): T39.
pub fn super_call(
    alloc: Global,
    q: &Questions<'_>,
    place: &Place,
    node: Node,
    args: Result<Items<CoreExpr>, Stop>,
) -> Result<CoreStmt, Stop>
    requires ready { IsReady q.now }
    ensures { (f : Facts) → AreFacts q.now f → (xs : Checked (List p.Expr)) → Meets (map plain) args xs → Meets stmt_plain result (spec.super_call f place.now node xs) }
{
    let args = args?;
    match superclass(alloc, q.world, place.class)? {
        None => Err(Stop::Broken {
            node: node.id,
            rule: 39,
        }),
        Some(above) => super_called(alloc, q, place, node, &above, args),
    }
}
