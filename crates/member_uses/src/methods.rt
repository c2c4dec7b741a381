//! Methods and constructors that a call may choose.

ghost use Rattle.std.specs.Prelude.{◌≡◌, ◌∷◌, [], ◌++◌, IfOk, OnOk, Some, map, slice_get};
ghost use Rattle.java_core.specs.View.{plain};
ghost use Rattle.class_world.specs.Inheritance as inheritance;
ghost use Rattle.type_kinds.specs.Kinds.{ty_of};
ghost use Rattle.type_facts.specs.Facts.{AreFacts, Facts, IsReady};
ghost use Rattle.type_facts.specs.Members as members;
ghost use Rattle.method_choice.specs.Choice as choices;
ghost use Rattle.member_uses.specs.Receivers.{receiver};
ghost use Rattle.member_uses.specs.Targets as spec;

use crate::receiver::{Receiver, receiver_type};
use class_world::{Declared, JavaType, MethodInfo, World};
use java_core::CoreExpr;
use java_tree::tree::{Mod, Name};
use java_tree::{Items, NoMemory};
use method_choice::{Candidate, Params, chosen};
use std::alloc::Global;
use type_facts::Questions;
use type_facts::asks::{has_access, methods_named};
use type_facts::scope::Place;
use type_facts::seen::{Seen, as_seen, seen_by};
use type_kinds::kinds::{class_number, has};
use type_kinds::members::is_interface;

/// Whether a method is static (JLS 8.4.3.2).
pub fn is_static_method(m: &MethodInfo) -> bool
    ensures { result ≡ spec.is_static_method m.now }
{
    has(Mod::Static, m.mods.as_slice())
}

/// Whether a method has no body (JLS 8.4.3.1, 9.4).
pub fn is_abstract(w: &World, m: &MethodInfo) -> bool
    ensures { result ≡ spec.is_abstract w.now m.now }
{
    if has(Mod::Abstract, m.mods.as_slice()) {
        true
    } else {
        is_interface(w, m.owner)
    }
}

fn all_seen(alloc: Global, seen: &Seen, tys: &[JavaType]) -> Result<Params, NoMemory>
    ensures { IfOk result (λ ts. ts ≡ map (members.as_seen seen.now) tys.now) }
{
    let mut done = Params::new(alloc);
    for ty in tys {
        done.push(as_seen(alloc, seen, ty)?)?;
    }
    Ok(done)
}

// A method's parameter types as a type sees them.
fn seen_params(
    alloc: Global,
    q: &Questions<'_>,
    ty: &JavaType,
    m: &MethodInfo,
) -> Result<Params, NoMemory>
    requires ready { IsReady q.now }
    ensures { (f : Facts) → AreFacts q.now f → IfOk result (λ ts. ts ≡ spec.seen_params f ty.now m.now) }
{
    let seen = seen_by(alloc, q, ty, m.owner, is_static_method(m))?;
    all_seen(alloc, &seen, m.params.as_slice())
}

fn add_candidate(
    alloc: Global,
    q: &Questions<'_>,
    ty: &JavaType,
    method: u32,
    done: &mut Items<Candidate>,
) -> Result<(), NoMemory>
    requires ready { IsReady q.now }
    ensures { (f : Facts) → AreFacts q.now f → OnOk result (done.new ≡ done.old ++ spec.candidate f ty.now method (slice_get f.world.methods method)) }
{
    match q.world.methods.get(method as usize) {
        None => Ok(()),
        Some(m) => {
            let params = seen_params(alloc, q, ty, m)?;
            done.push(Candidate { method, params })?;
            Ok(())
        }
    }
}

// The methods of these numbers, as a type has them.
fn candidates(
    alloc: Global,
    q: &Questions<'_>,
    ty: &JavaType,
    methods: &[u32],
) -> Result<Items<Candidate>, NoMemory>
    requires ready { IsReady q.now }
    ensures { (f : Facts) → AreFacts q.now f → IfOk result (λ cs. cs ≡ spec.candidates f ty.now methods.now) }
{
    let mut done = Items::new(alloc);
    for method in methods {
        add_candidate(alloc, q, ty, *method, &mut done)?;
    }
    Ok(done)
}

fn add_accessible(
    q: &Questions<'_>,
    place: &Place,
    method: u32,
    done: &mut Items<u32>,
) -> Result<(), NoMemory>
    ensures { (f : Facts) → AreFacts q.now f → OnOk result (done.new ≡ done.old ++ spec.accessible f place.now (method ∷ [])) }
{
    if has_access(q, place.class, Declared::Method(method)) {
        done.push(method)?;
    }
    Ok(())
}

// Those that the class of a place can access (JLS 6.6).
fn accessible(
    alloc: Global,
    q: &Questions<'_>,
    place: &Place,
    methods: &[u32],
) -> Result<Items<u32>, NoMemory>
    ensures { (f : Facts) → AreFacts q.now f → IfOk result (λ ks. ks ≡ spec.accessible f place.now methods.now) }
{
    let mut done = Items::new(alloc);
    for method in methods {
        add_accessible(q, place, *method, &mut done)?;
    }
    Ok(done)
}

// A simple name may name any method of its class.
fn reachable(
    alloc: Global,
    q: &Questions<'_>,
    place: &Place,
    of: &Receiver,
    methods: &[u32],
) -> Result<Items<u32>, NoMemory>
    ensures { (f : Facts) → AreFacts q.now f → IfOk result (λ ks. ks ≡ spec.reachable f place.now (receiver of.now) methods.now) }
{
    match of {
        Receiver::This => Ok(Items::from_slice(alloc, methods)?),
        Receiver::Value(_) => accessible(alloc, q, place, methods),
        Receiver::Type(_, _) => accessible(alloc, q, place, methods),
        Receiver::Super(_) => accessible(alloc, q, place, methods),
    }
}

// The class whose members a type has (JLS 4.4, 10.7).
fn holder(t: &JavaType) -> Option<u32>
    ensures { result ≡ inheritance.holder t.now }
{
    match t {
        JavaType::Prim(_) => None,
        JavaType::Null => None,
        JavaType::Class(c, _) => Some(*c),
        JavaType::Var(_) => Some(0),
        JavaType::Array(_) => Some(0),
    }
}

fn named_in<'a>(q: &Questions<'a>, class: Option<u32>, name: Name, arity: usize) -> &'a [u32]
    requires ready { IsReady q.now }
    ensures { (f : Facts) → AreFacts q.now f → result.now ≡ spec.named_in f class name arity }
{
    match class {
        None => &[],
        Some(c) => methods_named(q, c, name, arity),
    }
}

// The one that a call with these arguments chooses (JLS 15.12.2).
#[tactic(auto, using(std::proofs::lemmas::Option::slice_get_read))]
fn pick(q: &Questions<'_>, args: &[CoreExpr], all: Items<Candidate>) -> Option<Candidate>
    requires ready { IsReady q.now }
    ensures { (f : Facts) → AreFacts q.now f → result ≡ choices.chosen f (map ty_of (map plain args.now)) all }
{
    match chosen(q, args, all.as_slice()) {
        None => None,
        Some(at) => {
            let mut all = all.into_vec();
            Some(all.swap_remove(at))
        }
    }
}

/// The method of this name that a call on a receiver chooses (JLS 15.12.1, 15.12.2), with its parameter types as the receiver sees them.
#[tactic(auto, using(crate::proofs::Steps::length_of_args))]
pub fn choice(
    alloc: Global,
    q: &Questions<'_>,
    place: &Place,
    of: &Receiver,
    name: Name,
    args: &[CoreExpr],
) -> Result<Option<Candidate>, NoMemory>
    requires ready { IsReady q.now }
    ensures { (f : Facts) → AreFacts q.now f → IfOk result (λ c. c ≡ spec.choice f place.now (receiver of.now) name (map plain args.now)) }
{
    let ty = receiver_type(alloc, place, of)?;
    let named = named_in(q, holder(&ty), name, args.len());
    let open = reachable(alloc, q, place, of, named)?;
    let all = candidates(alloc, q, &ty, open.as_slice())?;
    Ok(pick(q, args, all))
}

fn is_constructor(w: &World, method: u32, arity: usize) -> bool
    ensures { result ≡ spec.is_constructor arity (slice_get w.now.methods method) }
{
    match w.methods.get(method as usize) {
        None => false,
        Some(m) => {
            if m.constructor {
                m.params.len() == arity
            } else {
                false
            }
        }
    }
}

fn add_constructor(
    q: &Questions<'_>,
    arity: usize,
    method: u32,
    done: &mut Items<u32>,
) -> Result<(), NoMemory>
    ensures { (f : Facts) → AreFacts q.now f → OnOk result (done.new ≡ done.old ++ spec.constructors_among f arity (method ∷ [])) }
{
    if is_constructor(q.world, method, arity) {
        done.push(method)?;
    }
    Ok(())
}

fn constructors_among(
    alloc: Global,
    q: &Questions<'_>,
    arity: usize,
    methods: &[u32],
) -> Result<Items<u32>, NoMemory>
    ensures { (f : Facts) → AreFacts q.now f → IfOk result (λ ks. ks ≡ spec.constructors_among f arity methods.now) }
{
    let mut done = Items::new(alloc);
    for method in methods {
        add_constructor(q, arity, *method, &mut done)?;
    }
    Ok(done)
}

fn constructors_of(
    alloc: Global,
    q: &Questions<'_>,
    arity: usize,
    class: u32,
) -> Result<Items<u32>, NoMemory>
    ensures { (f : Facts) → AreFacts q.now f → IfOk result (λ ks. ks ≡ spec.constructors_of f arity (slice_get f.world.types class)) }
{
    match q.world.types.get(class as usize) {
        None => Ok(Items::new(alloc)),
        Some(info) => constructors_among(alloc, q, arity, info.methods.as_slice()),
    }
}

#[tactic(auto, using(crate::proofs::Steps::length_of_types))]
fn constructor_in(
    alloc: Global,
    q: &Questions<'_>,
    place: &Place,
    ty: &JavaType,
    class: u32,
    args: &[CoreExpr],
) -> Result<Option<Candidate>, NoMemory>
    requires ready { IsReady q.now }
    ensures { (f : Facts) → AreFacts q.now f → IfOk result (λ c. c ≡ spec.constructor_in f place.now ty.now (Some class) (map ty_of (map plain args.now))) }
{
    let declared = constructors_of(alloc, q, args.len(), class)?;
    let open = accessible(alloc, q, place, declared.as_slice())?;
    let all = candidates(alloc, q, ty, open.as_slice())?;
    Ok(pick(q, args, all))
}

/// The constructor of a class type that an accessible use with these arguments chooses (JLS 8.8.7.1, 15.9.3). `None` where there is none, and for a type of no class.
pub fn constructor(
    alloc: Global,
    q: &Questions<'_>,
    place: &Place,
    ty: &JavaType,
    args: &[CoreExpr],
) -> Result<Option<Candidate>, NoMemory>
    requires ready { IsReady q.now }
    ensures { (f : Facts) → AreFacts q.now f → IfOk result (λ c. c ≡ spec.constructor f place.now ty.now (map ty_of (map plain args.now))) }
{
    match class_number(ty) {
        None => Ok(None),
        Some(class) => constructor_in(alloc, q, place, ty, class, args),
    }
}
