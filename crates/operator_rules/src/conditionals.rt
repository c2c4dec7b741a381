//! Conditionals (JLS 15.25).

ghost use Rattle.std.specs.Prelude.{◌≡◌, IfOk, None, Some};
ghost use Rattle.java_core.specs.Plain as p;
ghost use Rattle.java_core.specs.View.{plain};
ghost use Rattle.checked.specs.Checked.{Broken, Checked, Meets};
ghost use Rattle.type_facts.specs.Facts.{AreFacts, Facts, IsReady};
ghost use Rattle.operator_rules.specs.Operators as spec;

use checked::Stop;
use class_world::{JavaType, copied};
use java_core::{CoreExpr, CoreForm};
use java_tree::tree::{Node, Primitive};
use java_tree::{Boxed, NoMemory};
use std::alloc::Global;
use type_facts::Questions;
use type_facts::asks::is_below;
use type_kinds::conversions::converted;
use type_kinds::kinds::{is_boolean, is_long, is_primitive, primitive};

/// Whether two primitives have one type, or are int and long.
fn primitives_join(s: Option<Primitive>, t: Option<Primitive>) -> bool
    ensures { result ≡ spec.primitives_join s t }
{
    match s {
        None => false,
        Some(Primitive::Int) => is_int_or_long(t),
        Some(Primitive::Long) => is_int_or_long(t),
        Some(Primitive::Char) => match t {
            Some(Primitive::Char) => true,
            _ => false,
        },
        Some(Primitive::Boolean) => match t {
            Some(Primitive::Boolean) => true,
            _ => false,
        },
    }
}

fn is_int_or_long(t: Option<Primitive>) -> bool
    ensures { result ≡ spec.is_int_or_long t }
{
    match t {
        Some(Primitive::Int) => true,
        Some(Primitive::Long) => true,
        _ => false,
    }
}

/// The larger one of int and long.
fn wider(alloc: Global, s: &JavaType, t: &JavaType) -> Result<JavaType, NoMemory>
    ensures { IfOk result (λ r. r ≡ spec.wider s.now t.now) }
{
    if is_long(s) || is_long(t) {
        Ok(JavaType::Prim(Primitive::Long))
    } else {
        copied(alloc, s)
    }
}

fn joined_numbers(alloc: Global, s: &JavaType, t: &JavaType) -> Result<Option<JavaType>, NoMemory>
    ensures { IfOk result (λ r. r ≡ spec.joined_primitives s.now t.now) }
{
    if primitives_join(primitive(s), primitive(t)) {
        Ok(Some(wider(alloc, s, t)?))
    } else {
        Ok(None)
    }
}

/// The one of two reference types that the other is below.
fn larger(
    alloc: Global,
    q: &Questions,
    s: &JavaType,
    t: &JavaType,
) -> Result<Option<JavaType>, NoMemory>
    requires { IsReady q.now }
    ensures { (f : Facts) → AreFacts q.now f → IfOk result (λ r. r ≡ spec.larger f s.now t.now) }
{
    if is_below(q, s, t) {
        return Ok(Some(copied(alloc, t)?));
    }
    if is_below(q, t, s) {
        return Ok(Some(copied(alloc, s)?));
    }
    Ok(None)
}

fn is_one_primitive(s: &JavaType, t: &JavaType) -> bool
    ensures { result ≡ spec.is_one_primitive s.now t.now }
{
    is_primitive(s) || is_primitive(t)
}

/// The type of a conditional of these arms.
fn joined(
    alloc: Global,
    q: &Questions,
    s: &JavaType,
    t: &JavaType,
) -> Result<Option<JavaType>, NoMemory>
    requires { IsReady q.now }
    ensures { (f : Facts) → AreFacts q.now f → IfOk result (λ r. r ≡ spec.joined f s.now t.now) }
{
    if is_one_primitive(s, t) {
        joined_numbers(alloc, s, t)
    } else {
        larger(alloc, q, s, t)
    }
}

fn join_rule(s: &JavaType, t: &JavaType) -> u8
    ensures { result ≡ spec.join_rule s.now t.now }
{
    if is_one_primitive(s, t) { 53 } else { 54 }
}

#[tactic(auto, using(java_core::proofs::Views::plain_at))]
fn cond_made(
    alloc: Global,
    node: Node,
    ty: JavaType,
    test: Boxed<CoreExpr>,
    yes: Boxed<CoreExpr>,
    no: Boxed<CoreExpr>,
) -> Result<CoreExpr, NoMemory>
    ensures { IfOk result (λ r. plain r ≡ spec.cond_made node ty (plain test) (plain yes) (plain no)) }
{
    let yes = converted(alloc, &ty, yes)?;
    let no = converted(alloc, &ty, no)?;
    Ok(CoreExpr {
        node,
        ty,
        form: CoreForm::Cond { test, yes, no },
    })
}

#[tactic(auto, using(java_core::proofs::Views::plain_at))]
fn cond_of(
    alloc: Global,
    q: &Questions,
    node: Node,
    test: Boxed<CoreExpr>,
    yes: Boxed<CoreExpr>,
    no: Boxed<CoreExpr>,
) -> Result<CoreExpr, Stop>
    requires { IsReady q.now }
    ensures { (f : Facts) → AreFacts q.now f → Meets plain result (spec.cond_of f node (plain test) (plain yes) (plain no)) }
{
    match joined(alloc, q, &yes.get().ty, &no.get().ty)? {
        None => Err(Stop::Broken {
            node: node.id,
            rule: join_rule(&yes.get().ty, &no.get().ty),
        }),
        Some(ty) => Ok(cond_made(alloc, node, ty, test, yes, no)?),
    }
}

/// The arms under a test that holds no rule itself.
fn arms_of(
    alloc: Global,
    q: &Questions,
    node: Node,
    test: Boxed<CoreExpr>,
    yes: Result<Boxed<CoreExpr>, Stop>,
    no: Result<Boxed<CoreExpr>, Stop>,
) -> Result<CoreExpr, Stop>
    requires { IsReady q.now }
    ensures { (f : Facts) → AreFacts q.now f → (b c : Checked p.Expr) → Meets plain yes b → Meets plain no c → Meets plain result (spec.arms_of f node (plain test) b c) }
{
    let yes = yes?;
    let no = no?;
    cond_of(alloc, q, node, test, yes, no)
}

/// The rule on the arms, behind a test that breaks a rule at a node of its own.
#[tactic(auto, using(java_core::proofs::Views::plain_at))]
fn broken_of(
    alloc: Global,
    q: &Questions,
    node: Node,
    m: u32,
    rule: u8,
    yes: &CoreExpr,
    no: &CoreExpr,
) -> Result<CoreExpr, Stop>
    requires { IsReady q.now }
    ensures { (f : Facts) → AreFacts q.now f → Meets plain result (spec.broken_of f node m rule (plain yes.now) (plain no.now)) }
{
    match joined(alloc, q, &yes.ty, &no.ty)? {
        None => Err(Stop::Broken {
            node: node.id,
            rule: join_rule(&yes.ty, &no.ty),
        }),
        Some(_) => Err(Stop::Broken { node: m, rule }),
    }
}

fn broken_arms(
    alloc: Global,
    q: &Questions,
    node: Node,
    m: u32,
    rule: u8,
    yes: Result<Boxed<CoreExpr>, Stop>,
    no: Result<Boxed<CoreExpr>, Stop>,
) -> Result<CoreExpr, Stop>
    requires { IsReady q.now }
    ensures { (f : Facts) → AreFacts q.now f → (b c : Checked p.Expr) → Meets plain yes b → Meets plain no c → Meets plain result (spec.broken_arms f node m rule b c) }
{
    match yes {
        Ok(yes) => match no {
            Ok(no) => broken_of(alloc, q, node, m, rule, yes.get(), no.get()),
            Err(Stop::NoMemory) => Err(Stop::NoMemory),
            Err(Stop::Broken { .. }) => Err(Stop::Broken { node: m, rule }),
        },
        Err(Stop::NoMemory) => Err(Stop::NoMemory),
        Err(Stop::Broken { .. }) => Err(Stop::Broken { node: m, rule }),
    }
}

/// A conditional (JLS 15.25). The rule on the test reads the test alone, that on the arms both arms.
#[tactic(auto, using(java_core::proofs::Views::plain_at))]
pub fn cond(
    alloc: Global,
    q: &Questions,
    node: Node,
    test: Result<Boxed<CoreExpr>, Stop>,
    yes: Result<Boxed<CoreExpr>, Stop>,
    no: Result<Boxed<CoreExpr>, Stop>,
) -> Result<CoreExpr, Stop>
    requires { IsReady q.now }
    ensures { (f : Facts) → AreFacts q.now f → (a b c : Checked p.Expr) → Meets plain test a → Meets plain yes b → Meets plain no c → Meets plain result (spec.cond f node a b c) }
{
    match test {
        Ok(test) => {
            if !is_boolean(&test.get().ty) {
                return Err(Stop::Broken {
                    node: node.id,
                    rule: 7,
                });
            }
            arms_of(alloc, q, node, test, yes, no)
        }
        Err(Stop::NoMemory) => Err(Stop::NoMemory),
        Err(Stop::Broken { node: m, rule }) => broken_arms(alloc, q, node, m, rule, yes, no),
    }
}
