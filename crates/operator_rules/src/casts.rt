//! Casts and `instanceof` (JLS 15.16 and 15.20.2).

ghost use Rattle.std.specs.Prelude.{◌≡◌, IfOk};
ghost use Rattle.java_core.specs.Plain as p;
ghost use Rattle.java_core.specs.View.{plain};
ghost use Rattle.java_core.specs.View as view;
ghost use Rattle.checked.specs.Checked.{Checked, Meets};
ghost use Rattle.type_facts.specs.Facts.{AreFacts, Facts, IsReady};
ghost use Rattle.operator_rules.specs.Operators as spec;

use checked::Stop;
use class_world::{JavaType, copied};
use java_core::{CoreExpr, CoreForm, CoreType};
use java_tree::tree::{Node, Primitive};
use java_tree::{Boxed, NoMemory};
use std::alloc::Global;
use type_facts::Questions;
use type_facts::asks::may_cast;
use type_kinds::kinds::{is_boolean, is_numeric, is_primitive, is_reference};

fn primitive_cast(s: &JavaType, t: &JavaType) -> bool
    ensures { result ≡ spec.primitive_cast s.now t.now }
{
    if is_numeric(s) && is_numeric(t) {
        return true;
    }
    is_boolean(s) && is_boolean(t)
}

fn cast_rule(t: &JavaType) -> u8
    ensures { result ≡ spec.cast_rule t.now }
{
    if is_primitive(t) { 55 } else { 56 }
}

/// Whether a value of one type may be cast to the other.
fn may_be_cast(alloc: Global, q: &Questions, s: &JavaType, t: &JavaType) -> bool
    requires { IsReady q.now }
    ensures { (f : Facts) → AreFacts q.now f → result ≡ spec.may_be_cast f s.now t.now }
{
    if is_primitive(t) {
        return primitive_cast(s, t);
    }
    if is_primitive(s) {
        return false;
    }
    may_cast(alloc, q, s, t)
}

#[tactic(auto, using(java_core::proofs::Views::plain_at, crate::proofs::TypeSteps::type_of))]
fn cast_made(
    alloc: Global,
    node: Node,
    written: CoreType,
    close: u32,
    of: Boxed<CoreExpr>,
) -> Result<CoreExpr, NoMemory>
    ensures { IfOk result (λ r. plain r ≡ spec.cast_made node (view.written written) close (plain of)) }
{
    let ty = copied(alloc, &written.ty)?;
    Ok(CoreExpr {
        node,
        ty,
        form: CoreForm::Cast { written, close, of },
    })
}

#[tactic(auto, using(java_core::proofs::Views::plain_at, crate::proofs::TypeSteps::type_of))]
fn cast_of(
    alloc: Global,
    q: &Questions,
    node: Node,
    written: CoreType,
    close: u32,
    of: Boxed<CoreExpr>,
) -> Result<CoreExpr, Stop>
    requires { IsReady q.now }
    ensures { (f : Facts) → AreFacts q.now f → Meets plain result (spec.cast_of f node (view.written written) close (plain of)) }
{
    if !may_be_cast(alloc, q, &of.get().ty, &written.ty) {
        return Err(Stop::Broken {
            node: node.id,
            rule: cast_rule(&written.ty),
        });
    }
    Ok(cast_made(alloc, node, written, close, of)?)
}

/// A written cast (JLS 15.16).
pub fn cast(
    alloc: Global,
    q: &Questions,
    node: Node,
    written: Result<CoreType, Stop>,
    close: u32,
    of: Result<Boxed<CoreExpr>, Stop>,
) -> Result<CoreExpr, Stop>
    requires { IsReady q.now }
    ensures { (f : Facts) → AreFacts q.now f → (a : Checked p.Written) (b : Checked p.Expr) → Meets view.written written a → Meets plain of b → Meets plain result (spec.cast f node a close b) }
{
    let written = written?;
    let of = of?;
    cast_of(alloc, q, node, written, close, of)
}

/// Whether a type is no type variable, and no array of one (JLS 15.20.2).
fn is_no_variable(t: &JavaType) -> bool
    ensures { result ≡ spec.is_no_variable t.now }
{
    match t {
        JavaType::Prim(_) => true,
        JavaType::Null => true,
        JavaType::Class(_, _) => true,
        JavaType::Var(_) => false,
        JavaType::Array(x) => is_no_variable(x.get()),
    }
}

fn may_be_tested(alloc: Global, q: &Questions, s: &JavaType, t: &JavaType) -> bool
    requires { IsReady q.now }
    ensures { (f : Facts) → AreFacts q.now f → result ≡ spec.may_be_tested f (spec.is_no_variable t.now) s.now t.now }
{
    if is_primitive(s) {
        return false;
    }
    if !is_reference(t) {
        return false;
    }
    if !is_no_variable(t) {
        return false;
    }
    may_cast(alloc, q, s, t)
}

#[tactic(auto, using(java_core::proofs::Views::plain_at, crate::proofs::TypeSteps::type_of))]
fn tested(
    alloc: Global,
    q: &Questions,
    node: Node,
    of: Boxed<CoreExpr>,
    written: CoreType,
) -> Result<CoreExpr, Stop>
    requires { IsReady q.now }
    ensures { (f : Facts) → AreFacts q.now f → Meets plain result (spec.tested f node (plain of) (view.written written)) }
{
    if !may_be_tested(alloc, q, &of.get().ty, &written.ty) {
        return Err(Stop::Broken {
            node: node.id,
            rule: 57,
        });
    }
    Ok(CoreExpr {
        node,
        ty: JavaType::Prim(Primitive::Boolean),
        form: CoreForm::InstanceOf { of, written },
    })
}

/// A test of a value's class (JLS 15.20.2).
pub fn instance_of(
    alloc: Global,
    q: &Questions,
    node: Node,
    of: Result<Boxed<CoreExpr>, Stop>,
    written: Result<CoreType, Stop>,
) -> Result<CoreExpr, Stop>
    requires { IsReady q.now }
    ensures { (f : Facts) → AreFacts q.now f → (a : Checked p.Expr) (b : Checked p.Written) → Meets plain of a → Meets view.written written b → Meets plain result (spec.instance_of f node a b) }
{
    let of = of?;
    let written = written?;
    tested(alloc, q, node, of, written)
}
