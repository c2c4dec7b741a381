//! Conversions of values to other primitive types (JLS 5.1.2, 5.2, 5.3 and 5.6).

ghost use Rattle.std.specs.Prelude.{◌≡◌, true, IfOk, map};
ghost use Rattle.java_core.specs.View.{plain};
ghost use Rattle.type_kinds.specs.Kinds as spec;

use crate::kinds::{kind_type, primitive};
use class_world::{JavaType, copied};
use java_core::{CoreExpr, CoreForm, Kind};
use java_tree::tree::Primitive;
use java_tree::{Boxed, Items, NoMemory};
use std::alloc::Global;

fn is_same_primitive(p: Primitive, q: Primitive) -> bool
    ensures { result ≡ spec.same_primitive p q }
{
    match p {
        Primitive::Int => q == Primitive::Int,
        Primitive::Long => q == Primitive::Long,
        Primitive::Char => q == Primitive::Char,
        Primitive::Boolean => q == Primitive::Boolean,
    }
}

/// Whether both types are primitive, and not the same.
fn differ(s: &JavaType, t: &JavaType) -> bool
    ensures { result ≡ spec.differ (spec.primitive s.now) (spec.primitive t.now) }
{
    match primitive(s) {
        None => false,
        Some(p) => match primitive(t) {
            None => false,
            Some(q) => !is_same_primitive(p, q),
        },
    }
}

/// A value in a widening conversion to this type.
#[tactic(auto, using(java_core::proofs::Views::plain_at))]
fn widened(ty: JavaType, x: Boxed<CoreExpr>) -> CoreExpr
    ensures { plain result ≡ spec.widened_if true ty (plain x) }
{
    CoreExpr {
        node: x.get().node,
        ty,
        form: CoreForm::Widen(x),
    }
}

/// A value for a variable of the type: where both are primitive and not the same it is widened (JLS 5.1.2).
#[tactic(auto, using(java_core::proofs::Views::plain_at))]
pub fn converted(
    alloc: Global,
    ty: &JavaType,
    x: Boxed<CoreExpr>,
) -> Result<Boxed<CoreExpr>, NoMemory>
    ensures { IfOk result (λ r. plain r ≡ spec.converted ty.now (plain x)) }
{
    if differ(ty, &x.get().ty) {
        let x = widened(copied(alloc, ty)?, x);
        return Ok(Boxed::new(alloc, x)?);
    }
    Ok(x)
}

/// The same of a value that stands in no box.
#[tactic(auto, using(java_core::proofs::Views::plain_at))]
pub fn converted_value(alloc: Global, ty: &JavaType, x: CoreExpr) -> Result<CoreExpr, NoMemory>
    ensures { IfOk result (λ r. plain r ≡ spec.converted ty.now (plain x)) }
{
    if differ(ty, &x.ty) {
        let x = Boxed::new(alloc, x)?;
        return Ok(widened(copied(alloc, ty)?, x));
    }
    Ok(x)
}

/// Each argument of a call, for its parameter's type (JLS 5.3).
pub fn converted_all(
    alloc: Global,
    tys: &[JavaType],
    xs: Items<CoreExpr>,
) -> Result<Items<CoreExpr>, NoMemory>
    ensures { IfOk result (λ r. map plain r ≡ spec.converted_all tys.now (map plain xs)) }
{
    let mut rest = xs.into_vec();
    let mut done = Items::new(alloc);
    for ty in tys {
        if rest.is_empty() {
            return Ok(done);
        }
        let x = rest.remove(0);
        done.push(converted_value(alloc, ty, x)?)?;
    }
    Ok(done)
}

/// An operand of an operator on numbers of this kind (JLS 5.6).
pub fn operand(alloc: Global, kind: Kind, x: Boxed<CoreExpr>) -> Result<Boxed<CoreExpr>, NoMemory>
    ensures { IfOk result (λ r. plain r ≡ spec.operand kind (plain x)) }
{
    let ty = kind_type(alloc, kind);
    converted(alloc, &ty, x)
}
