//! Calls of methods.

ghost use Rattle.std.specs.Prelude.{◌≡◌, IfOk, Some, map};
ghost use Rattle.java_core.specs.Plain as p;
ghost use Rattle.java_core.specs.View.{plain, form_plain, plains};
ghost use Rattle.checked.specs.Checked.{Meets};
ghost use Rattle.type_kinds.specs.Kinds as kinds;
ghost use Rattle.type_facts.specs.Facts.{AreFacts, Facts, IsReady};
ghost use Rattle.member_uses.specs.Receivers.{receiver};
ghost use Rattle.member_uses.specs.Targets as spec;

use crate::fields::this;
use crate::methods::{choice, is_abstract, is_static_method};
use crate::receiver::{Receiver, receiver_type};
use checked::Stop;
use class_world::{JavaType, MethodInfo, erase};
use java_core::{Before, CoreExpr, CoreForm};
use java_tree::tree::{Name, Node};
use java_tree::{Boxed, Items, NoMemory};
use method_choice::Candidate;
use operator_rules::Use;
use operator_rules::uses::is_performed;
use std::alloc::Global;
use type_facts::Questions;
use type_facts::asks::is_unchecked_alone;
use type_facts::scope::Place;
use type_facts::seen::{accessed, as_seen, seen_by};
use type_kinds::conversions::converted_all;

#[tactic(auto, using(java_core::proofs::Views::static_call))]
fn named_call(before: Before, method: u32, args: Items<CoreExpr>) -> CoreForm
    ensures { form_plain result ≡ p.StaticCall before p.NoExpr method (plains args) }
{
    CoreForm::StaticCall {
        before,
        of: None,
        method,
        args,
    }
}

fn this_call(
    alloc: Global,
    place: &Place,
    node: Node,
    is_static: bool,
    method: u32,
    args: Items<CoreExpr>,
) -> Result<CoreForm, NoMemory>
    ensures { IfOk result (λ r. form_plain r ≡ spec.call_form place.now node spec.OfThis is_static method (map plain args)) }
{
    if is_static {
        return Ok(named_call(Before::Nothing, method, args));
    }
    Ok(CoreForm::Call {
        of: this(alloc, place, node)?,
        simple: true,
        method,
        args,
    })
}

#[tactic(auto, using(java_core::proofs::Views::static_call_on))]
fn value_call(of: Boxed<CoreExpr>, is_static: bool, method: u32, args: Items<CoreExpr>) -> CoreForm
    ensures { form_plain result ≡ spec.value_call (plain of) is_static method (map plain args) }
{
    if is_static {
        CoreForm::StaticCall {
            before: Before::Nothing,
            of: Some(of),
            method,
            args,
        }
    } else {
        CoreForm::Call {
            of,
            simple: false,
            method,
            args,
        }
    }
}

fn super_call(is_static: bool, method: u32, args: Items<CoreExpr>) -> CoreForm
    ensures { form_plain result ≡ spec.super_call is_static method (map plain args) }
{
    if is_static {
        named_call(Before::Super, method, args)
    } else {
        CoreForm::SuperCall { method, args }
    }
}

fn call_form(
    alloc: Global,
    place: &Place,
    node: Node,
    of: Receiver,
    is_static: bool,
    method: u32,
    args: Items<CoreExpr>,
) -> Result<CoreForm, NoMemory>
    ensures { IfOk result (λ r. form_plain r ≡ spec.call_form place.now node (receiver of) is_static method (map plain args)) }
{
    match of {
        Receiver::This => this_call(alloc, place, node, is_static, method, args),
        Receiver::Value(of) => Ok(value_call(of, is_static, method, args)),
        Receiver::Type(named, class) => Ok(named_call(Before::Type(named, class), method, args)),
        Receiver::Super(_) => Ok(super_call(is_static, method, args)),
    }
}

// The call with its arguments converted (JLS 5.3).
fn converted_call(
    alloc: Global,
    place: &Place,
    node: Node,
    of: Receiver,
    is_static: bool,
    c: &Candidate,
    args: Items<CoreExpr>,
) -> Result<CoreForm, NoMemory>
    ensures { IfOk result (λ r. form_plain r ≡ spec.call_form place.now node (receiver of) is_static c.now.method (kinds.converted_all c.now.params (map plain args))) }
{
    let args = converted_all(alloc, c.params.as_slice(), args)?;
    call_form(alloc, place, node, of, is_static, c.method, args)
}

// Whether an argument fits its parameter by an unchecked conversion alone (JLS 5.1.9).
#[cycle(some_unchecked)]
#[tactic(auto, using(java_core::proofs::Views::plain_at))]
fn some_unchecked(q: &Questions<'_>, args: &[CoreExpr], params: &[JavaType]) -> bool
    requires ready { IsReady q.now }
    ensures { (f : Facts) → AreFacts q.now f → result ≡ spec.some_unchecked f (map plain args.now) params.now }
{
    match args.split_first() {
        None => false,
        Some((arg, args)) => match params.split_first() {
            None => false,
            Some((param, params)) => {
                is_unchecked_alone(q, &arg.ty, param) || some_unchecked(q, args, params)
            }
        },
    }
}

fn erased_if(alloc: Global, erases: bool, ty: JavaType) -> Result<JavaType, NoMemory>
    ensures { IfOk result (λ r. r ≡ spec.erased_if erases ty) }
{
    if erases { erase(alloc, &ty) } else { Ok(ty) }
}

// The result of a method as a type sees it, erased after an unchecked conversion (JLS 15.12.2.6).
fn result_seen(
    alloc: Global,
    q: &Questions<'_>,
    ty: &JavaType,
    m: &MethodInfo,
    erases: bool,
    declared: &JavaType,
) -> Result<JavaType, NoMemory>
    requires ready { IsReady q.now }
    ensures { (f : Facts) → AreFacts q.now f → IfOk result (λ r. r ≡ spec.result_seen f ty.now m.now erases (Some declared.now)) }
{
    let seen = seen_by(alloc, q, ty, m.owner, is_static_method(m))?;
    let seen = as_seen(alloc, &seen, declared)?;
    erased_if(alloc, erases, seen)
}

#[tactic(auto, using(java_core::proofs::Views::plain_at))]
fn called_as(
    alloc: Global,
    q: &Questions<'_>,
    node: Node,
    ty: &JavaType,
    m: &MethodInfo,
    erases: bool,
    form: CoreForm,
) -> Result<CoreExpr, NoMemory>
    requires ready { IsReady q.now }
    ensures { (f : Facts) → AreFacts q.now f → IfOk result (λ r. plain r ≡ spec.called_as f node m.now.result (spec.result_seen f ty.now m.now erases m.now.result) (form_plain form)) }
{
    match &m.result {
        None => Ok(CoreExpr {
            node,
            ty: JavaType::Null,
            form,
        }),
        Some(declared) => {
            let seen = result_seen(alloc, q, ty, m, erases, declared)?;
            accessed(alloc, q, node, declared, seen, form)
        }
    }
}

fn call_made(
    alloc: Global,
    q: &Questions<'_>,
    place: &Place,
    node: Node,
    of: Receiver,
    c: &Candidate,
    m: &MethodInfo,
    args: Items<CoreExpr>,
) -> Result<CoreExpr, NoMemory>
    requires ready { IsReady q.now }
    ensures { (f : Facts) → AreFacts q.now f → IfOk result (λ r. plain r ≡ spec.call_made f place.now node (receiver of) c.now m.now (map plain args)) }
{
    let ty = receiver_type(alloc, place, &of)?;
    let erases = some_unchecked(q, args.as_slice(), c.params.as_slice());
    let form = converted_call(alloc, place, node, of, is_static_method(m), c, args)?;
    called_as(alloc, q, node, &ty, m, erases, form)
}

// Whether a method, static or not, may be called so (JLS 15.12.3).
fn may_call(q: &Questions<'_>, place: &Place, of: &Receiver, m: &MethodInfo) -> bool
    ensures { (f : Facts) → AreFacts q.now f → result ≡ spec.may_call f place.now (receiver of.now) m.now }
{
    match of {
        Receiver::This => {
            if is_static_method(m) {
                true
            } else {
                !place.is_static
            }
        }
        Receiver::Value(_) => true,
        Receiver::Type(_, _) => is_static_method(m),
        Receiver::Super(_) => !is_abstract(q.world, m),
    }
}

fn call_rule(of: &Receiver) -> u8
    ensures { result ≡ spec.call_rule (receiver of.now) }
{
    match of {
        Receiver::This => 32,
        Receiver::Value(_) => 33,
        Receiver::Type(_, _) => 34,
        Receiver::Super(_) => 35,
    }
}

// Only a statement calls a void method (JLS 15.12.3).
fn may_answer(how: Use, m: &MethodInfo) -> bool
    ensures { result ≡ spec.may_answer how m.now }
{
    if m.result.is_some() {
        true
    } else {
        is_performed(how)
    }
}

fn judged(
    alloc: Global,
    q: &Questions<'_>,
    place: &Place,
    how: Use,
    node: Node,
    of: Receiver,
    c: &Candidate,
    m: &MethodInfo,
    args: Items<CoreExpr>,
) -> Result<CoreExpr, Stop>
    requires ready { IsReady q.now }
    ensures { (f : Facts) → AreFacts q.now f → Meets plain result (spec.judged f place.now how node (receiver of) c.now m.now (map plain args)) }
{
    if !may_answer(how, m) {
        return Err(Stop::Broken {
            node: node.id,
            rule: 6,
        });
    }
    if !may_call(q, place, &of, m) {
        return Err(Stop::Broken {
            node: node.id,
            rule: call_rule(&of),
        });
    }
    Ok(call_made(alloc, q, place, node, of, c, m, args)?)
}

fn called_by(
    alloc: Global,
    q: &Questions<'_>,
    place: &Place,
    how: Use,
    node: Node,
    of: Receiver,
    c: &Candidate,
    args: Items<CoreExpr>,
) -> Result<CoreExpr, Stop>
    requires ready { IsReady q.now }
    ensures { (f : Facts) → AreFacts q.now f → Meets plain result (spec.called_by f place.now how node (receiver of) c.now (map plain args)) }
{
    match q.world.methods.get(c.method as usize) {
        None => Err(Stop::Broken {
            node: node.id,
            rule: 36,
        }),
        Some(m) => judged(alloc, q, place, how, node, of, c, m, args),
    }
}

/// A call of a method of this name (JLS 15.12): T6, T32 and T34 to T37.
pub fn called(
    alloc: Global,
    q: &Questions<'_>,
    place: &Place,
    how: Use,
    node: Node,
    of: Receiver,
    name: Name,
    args: Items<CoreExpr>,
) -> Result<CoreExpr, Stop>
    requires ready { IsReady q.now }
    ensures { (f : Facts) → AreFacts q.now f → Meets plain result (spec.called f place.now how node (receiver of) name (map plain args)) }
{
    match choice(alloc, q, place, &of, name, args.as_slice())? {
        None => Err(Stop::Broken {
            node: node.id,
            rule: 36,
        }),
        Some(c) => called_by(alloc, q, place, how, node, of, &c, args),
    }
}
