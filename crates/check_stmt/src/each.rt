//! The enhanced for (JLS 14.14.2).

ghost use Rattle.std.specs.Prelude.{◌≡◌, None, IfOk};
ghost use Rattle.java_core.specs.Plain as p;
ghost use Rattle.java_core.specs.View.{plain, written, var_plain, stmt_plain};
ghost use Rattle.checked.specs.Checked.{Checked, Meets};
ghost use Rattle.operator_rules.specs.Writtens.{type_said};
ghost use Rattle.type_facts.specs.Facts.{AreFacts, Facts, IsReady};
ghost use Rattle.check_stmt.specs.Pieces as spec;

use crate::scopes::Spot;
use checked::Stop;
use class_world::{JavaType, copied, erase};
use java_core::{CoreExpr, CoreStmt, CoreStmtForm, CoreType, CoreVar};
use java_tree::tree::{Name, Node};
use java_tree::{Boxed, Items, NoMemory};
use std::alloc::Global;
use type_facts::Questions;
use type_facts::asks::{is_below, may_assign, super_as};
use type_kinds::kinds::{args_of, element};

/// What a loop takes: its type, and whether each value is cast to it.
#[derive(Drop)]
pub struct Item {
    pub ty: JavaType,
    pub is_cast: bool,
}

/// The argument of a type below Iterable, Object where it is raw.
fn argument(alloc: Global, args: &[JavaType]) -> Result<JavaType, NoMemory>
    ensures { IfOk result (λ r. r ≡ spec.argument args.now) }
{
    match args {
        [x] => copied(alloc, x),
        _ => Ok(JavaType::Class(0, Items::new(alloc))),
    }
}

/// What a type below Iterable gives.
fn cast_item(alloc: Global, q: &Questions<'_>, t: &JavaType) -> Result<Item, NoMemory>
    requires ready { IsReady q.now }
    ensures { (f : Facts) → AreFacts q.now f → IfOk result (λ r. r ≡ spec.cast_item f (spec.given t.now)) }
{
    let ty = argument(alloc, args_of(t))?;
    let object = JavaType::Class(0, Items::new(alloc));
    let erased = erase(alloc, &ty)?;
    let is_cast = !is_below(q, &object, &erased);
    Ok(Item { ty, is_cast })
}

/// What a type gives that is no array, where it is below Iterable.
fn walked_item(alloc: Global, q: &Questions<'_>, t: &JavaType) -> Result<Option<Item>, NoMemory>
    requires ready { IsReady q.now }
    ensures { (f : Facts) → AreFacts q.now f → IfOk result (λ r. r ≡ spec.items_by f None t.now) }
{
    let Some(walk) = q.world.walk else {
        return Ok(None);
    };
    match super_as(alloc, q, t, walk.iterable)? {
        None => Ok(None),
        Some(above) => Ok(Some(cast_item(alloc, q, &above)?)),
    }
}

fn items_of(alloc: Global, q: &Questions<'_>, t: &JavaType) -> Result<Option<Item>, NoMemory>
    requires ready { IsReady q.now }
    ensures { (f : Facts) → AreFacts q.now f → IfOk result (λ r. r ≡ spec.items_of f t.now) }
{
    match element(t) {
        None => walked_item(alloc, q, t),
        Some(ty) => Ok(Some(Item {
            ty: copied(alloc, ty)?,
            is_cast: false,
        })),
    }
}

/// T9 for an array, T10 for another type.
fn items_rule(t: &JavaType) -> u8
    ensures { result ≡ spec.items_rule t.now }
{
    if element(t).is_some() { 9 } else { 10 }
}

#[tactic(auto, using(java_core::proofs::Views::type_out))]
fn each_var(
    alloc: Global,
    slot: u32,
    node: Node,
    name: Name,
    ty: &CoreType,
) -> Result<CoreVar, NoMemory>
    ensures { IfOk result (λ r. var_plain r ≡ spec.var_made slot node name (type_said (written ty.now)) None) }
{
    Ok(CoreVar {
        node,
        name,
        slot,
        ty: copied(alloc, &ty.ty)?,
        init: None,
    })
}

fn each_made(
    node: Node,
    is_final: bool,
    var: CoreVar,
    ty: CoreType,
    over: CoreExpr,
    item: Item,
    body: Boxed<CoreStmt>,
) -> CoreStmt
    ensures { stmt_plain result ≡ p.ForEach node is_final (written ty) (var_plain var) (plain over) item.ty item.is_cast (stmt_plain body) }
{
    let Item { ty: item, is_cast } = item;
    CoreStmt {
        node,
        form: CoreStmtForm::ForEach {
            is_final,
            written: ty,
            var,
            over,
            item,
            implied: is_cast,
            body,
        },
    }
}

fn each_of(
    alloc: Global,
    node: Node,
    is_final: bool,
    name: Name,
    slot: u32,
    ty: CoreType,
    over: CoreExpr,
    item: Item,
    body: Result<Boxed<CoreStmt>, Stop>,
) -> Result<CoreStmt, Stop>
    ensures { (b : Checked p.Stmt) → Meets stmt_plain body b → Meets stmt_plain result (spec.each_of node is_final name slot (written ty) (plain over) item b) }
{
    let body = body?;
    let var = each_var(alloc, slot, node, name, &ty)?;
    Ok(each_made(node, is_final, var, ty, over, item, body))
}

#[tactic(auto, using(java_core::proofs::Views::plain_at, java_core::proofs::Views::type_out))]
fn each_over(
    alloc: Global,
    q: &Questions<'_>,
    node: Node,
    is_final: bool,
    name: Name,
    slot: u32,
    ty: CoreType,
    over: CoreExpr,
    body: Result<Boxed<CoreStmt>, Stop>,
) -> Result<CoreStmt, Stop>
    requires ready { IsReady q.now }
    ensures { (f : Facts) → AreFacts q.now f → (b : Checked p.Stmt) → Meets stmt_plain body b → Meets stmt_plain result (spec.each_over f node is_final name slot (written ty) (plain over) b) }
{
    let rule = items_rule(&over.ty);
    let Some(item) = items_of(alloc, q, &over.ty)? else {
        return Err(Stop::Broken {
            node: node.id,
            rule,
        });
    };
    if !may_assign(q, &item.ty, &ty.ty) {
        return Err(Stop::Broken {
            node: node.id,
            rule,
        });
    }
    each_of(alloc, node, is_final, name, slot, ty, over, item, body)
}

/// An enhanced for (JLS 14.14.2): T5, T9, T10.
pub fn foreach(
    alloc: Global,
    q: &Questions<'_>,
    node: Node,
    is_final: bool,
    name: Name,
    spot: Spot,
    ty: Result<CoreType, Stop>,
    over: Result<CoreExpr, Stop>,
    body: Result<Boxed<CoreStmt>, Stop>,
) -> Result<CoreStmt, Stop>
    requires ready { IsReady q.now }
    ensures { (f : Facts) → AreFacts q.now f → (a : Checked p.Written) (b : Checked p.Expr) (c : Checked p.Stmt) → Meets written ty a → Meets plain over b → Meets stmt_plain body c → Meets stmt_plain result (spec.foreach f node is_final name spot a b c) }
{
    if spot.taken {
        return Err(Stop::Broken {
            node: node.id,
            rule: 5,
        });
    }
    let ty = ty?;
    let over = over?;
    each_over(alloc, q, node, is_final, name, spot.slot, ty, over, body)
}
