//! Arrays: their items, and what they may be made of (JLS 10.4, 15.10 and 15.13).

ghost use Rattle.std.specs.Prelude.{◌≡◌, IfOk, map};
ghost use Rattle.java_core.specs.Plain as p;
ghost use Rattle.java_core.specs.View.{plain};
ghost use Rattle.checked.specs.Checked.{Checked, Meets};
ghost use Rattle.operator_rules.specs.Operators as spec;

use checked::Stop;
use class_world::{JavaType, copied};
use java_core::{CoreExpr, CoreForm};
use java_tree::tree::{Node, Primitive};
use java_tree::{Boxed, Items, NoMemory};
use std::alloc::Global;
use type_kinds::conversions::{converted, converted_value};
use type_kinds::kinds::{element, is_short};

#[tactic(auto, using(java_core::proofs::Views::plain_at))]
fn index_made(
    alloc: Global,
    node: Node,
    ty: JavaType,
    of: Boxed<CoreExpr>,
    at: Boxed<CoreExpr>,
) -> Result<CoreExpr, NoMemory>
    ensures { IfOk result (λ r. plain r ≡ spec.index_made node ty (plain of) (plain at)) }
{
    let at = converted(alloc, &JavaType::Prim(Primitive::Int), at)?;
    Ok(CoreExpr {
        node,
        ty,
        form: CoreForm::Index { of, at },
    })
}

#[tactic(auto, using(java_core::proofs::Views::plain_at))]
fn index_of(
    alloc: Global,
    node: Node,
    of: Boxed<CoreExpr>,
    at: Boxed<CoreExpr>,
) -> Result<CoreExpr, Stop>
    ensures { Meets plain result (spec.index_of node (plain of) (plain at)) }
{
    let broken = Stop::Broken {
        node: node.id,
        rule: 31,
    };
    let Some(ty) = element(&of.get().ty) else {
        return Err(broken);
    };
    if !is_short(&at.get().ty) {
        return Err(broken);
    }
    let ty = copied(alloc, ty)?;
    Ok(index_made(alloc, node, ty, of, at)?)
}

/// An item of an array, by its place (JLS 10.4, 15.13).
pub fn index(
    alloc: Global,
    node: Node,
    of: Result<Boxed<CoreExpr>, Stop>,
    at: Result<Boxed<CoreExpr>, Stop>,
) -> Result<CoreExpr, Stop>
    ensures { (a b : Checked p.Expr) → Meets plain of a → Meets plain at b → Meets plain result (spec.index node a b) }
{
    let of = of?;
    let at = at?;
    index_of(alloc, node, of, at)
}

/// Whether an array may be made with items of a type: one without type arguments, and no type variable, under all array levels (JLS 15.10).
pub fn is_creatable(t: &JavaType) -> bool
    ensures { result ≡ spec.is_creatable t.now }
{
    match t {
        JavaType::Prim(_) => true,
        JavaType::Null => true,
        JavaType::Class(_, args) => args.len() == 0,
        JavaType::Var(_) => false,
        JavaType::Array(x) => is_creatable(x.get()),
    }
}

/// Whether all can be sizes of arrays (JLS 15.10).
#[tactic(auto, using(java_core::proofs::Views::plain_at))]
pub fn are_short(xs: &[CoreExpr]) -> bool
    ensures { result ≡ spec.are_short (map plain xs.now) }
{
    for x in xs {
        if !is_short(&x.ty) {
            return false;
        }
    }
    true
}

/// A size of an array, as int (JLS 15.10.1).
fn size(alloc: Global, x: CoreExpr) -> Result<CoreExpr, NoMemory>
    ensures { IfOk result (λ r. plain r ≡ spec.size (plain x)) }
{
    converted_value(alloc, &JavaType::Prim(Primitive::Int), x)
}

/// Sizes of arrays, as int (JLS 15.10.1).
pub fn sizes(alloc: Global, xs: Items<CoreExpr>) -> Result<Items<CoreExpr>, NoMemory>
    ensures { IfOk result (λ r. map plain r ≡ spec.sizes (map plain xs)) }
{
    let mut done = Items::new(alloc);
    for x in xs.into_vec() {
        done.push(size(alloc, x)?)?;
    }
    Ok(done)
}
