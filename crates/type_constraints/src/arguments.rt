//! Arguments whose types change.

ghost use Rattle.std.specs.Prelude.{◌≡◌, ◌||◌, ◌&&◌, not, false, slice_get, IfOk, Some};
ghost use Rattle.std.specs.Option.{option_map};
ghost use Rattle.java_core.specs.View.{maybe, plain, plains};
ghost use Rattle.class_world.specs.Inheritance as inheritance;
ghost use Rattle.type_kinds.specs.Members.{method_at};
ghost use Rattle.type_places.specs.Changes.{is_param};
ghost use Rattle.type_facts.specs.Facts.{IsReady};
ghost use Rattle.member_uses.specs.Targets as targets;
ghost use Rattle.type_constraints.specs.Arguments as spec;
ghost use Rattle.type_constraints.specs.Asked.{Gives, Tells};
ghost use Rattle.type_constraints.specs.Changed as changes;
ghost use Rattle.type_constraints.specs.Uses as uses;

use crate::changed::{changed, new_fits};
use crate::flows::flow;
use crate::groups::{is_several, own_type, super_type};
use crate::place::{Place, fits, sees};
use crate::receivers::named_in;
use crate::results::seen_method;
use crate::unmet::{Constraint, Unmet, unless};
use class_world::{JavaType, MethodInfo, World, copied};
use java_core::{Before, CoreExpr};
use java_tree::{Boxed, Items, NoMemory};
use std::alloc::Global;
use type_facts::seen::{Seen, as_seen};
use type_kinds::kinds::class_number;

// ---- whose method it is

fn named_type(alloc: Global, at: &Place<'_>, before: Before) -> Result<JavaType, NoMemory>
    ensures { Gives at.now result (λ a. spec.named_type a before) }
{
    match before {
        Before::Nothing => own_type(alloc, at),
        Before::Super => super_type(alloc, at),
        Before::Type(_, class) => Ok(JavaType::Class(class, Items::new(alloc))),
    }
}

/// The type whose static method is called (JLS 15.12.1).
#[tactic(auto, using(java_core::proofs::Views::plain_at))]
fn static_type(
    alloc: Global,
    at: &Place<'_>,
    before: Before,
    x: &Option<Boxed<CoreExpr>>,
) -> Result<JavaType, NoMemory>
    ensures { Gives at.now result (λ a. spec.static_type a before (maybe (option_map plain x.now))) }
{
    match x {
        None => named_type(alloc, at, before),
        Some(x) => copied(alloc, &x.get().ty),
    }
}

fn is_nothing(before: Before) -> bool
    ensures { result ≡ spec.is_nothing before }
{
    match before {
        Before::Nothing => true,
        Before::Super => false,
        Before::Type(_, _) => false,
    }
}

fn is_simple(before: Before, x: &Option<Boxed<CoreExpr>>) -> bool
    ensures { result ≡ spec.is_simple before (maybe (option_map plain x.now)) }
{
    match x {
        None => is_nothing(before),
        Some(_) => false,
    }
}

// ---- a group of one signature

fn param_seen(
    alloc: Global,
    seen: &Seen,
    types: &[JavaType],
    index: usize,
) -> Result<Option<JavaType>, NoMemory>
    ensures { IfOk result (λ r. r ≡ spec.param_seen seen.now types.now index) }
{
    match types.get(index) {
        None => Ok(None),
        Some(t) => Ok(Some(as_seen(alloc, seen, t)?)),
    }
}

fn to_type(
    alloc: Global,
    at: &Place<'_>,
    to_changes: bool,
    t: &Option<JavaType>,
    x: &CoreExpr,
    first: Option<Unmet>,
) -> Result<Option<Unmet>, NoMemory>
    requires { IsReady at.now.q }
    ensures { Gives at.now result (λ a. changes.flow_to a to_changes t.now (plain x.now) first) }
{
    match t {
        None => Ok(first),
        Some(t) => flow(alloc, at, to_changes, t, x, first),
    }
}

/// An argument goes to the parameter at its place. More than 2^32 - 1 arguments are want of memory.
fn to_param(
    alloc: Global,
    at: &Place<'_>,
    seen: &Seen,
    types: &[JavaType],
    m: u32,
    index: usize,
    x: &CoreExpr,
    first: Option<Unmet>,
) -> Result<Option<Unmet>, NoMemory>
    requires { IsReady at.now.q }
    ensures { Gives at.now result (λ a. changes.flow_to a (is_param a.change m index) (spec.param_seen seen.now types.now index) (plain x.now) first) }
{
    if index > u32::MAX as usize {
        return Err(NoMemory);
    }
    let to_changes = at.change.is_param(m, index as u32);
    let t = param_seen(alloc, seen, types, index)?;
    to_type(alloc, at, to_changes, &t, x, first)
}

fn to_params(
    alloc: Global,
    at: &Place<'_>,
    seen: &Seen,
    types: &[JavaType],
    m: u32,
    xs: &[CoreExpr],
    mut first: Option<Unmet>,
) -> Result<Option<Unmet>, NoMemory>
    requires { IsReady at.now.q }
    ensures { Gives at.now result (λ a. spec.to_params a seen.now types.now m 0 (plains xs.now) first) }
{
    for (i, x) in xs.iter().enumerate() {
        first = to_param(alloc, at, seen, types, m, i, x, first)?;
    }
    Ok(first)
}

// ---- a group of several

#[tactic(auto, using(java_core::proofs::Views::plain_at))]
fn type_takes_alike(
    alloc: Global,
    at: &Place<'_>,
    x: &CoreExpr,
    t: &JavaType,
) -> Result<bool, NoMemory>
    requires { IsReady at.now.q }
    ensures { Gives at.now result (λ a. spec.takes_alike a (plain x.now) (Some t.now)) }
{
    let new = new_fits(alloc, at, &x.ty, t)?;
    Ok(is_same(fits(at, &x.ty, t), new))
}

fn is_same(a: bool, b: bool) -> bool
    ensures { result ≡ spec.is_same a b }
{
    if a { b } else { !b }
}

fn takes_alike(
    alloc: Global,
    at: &Place<'_>,
    x: &CoreExpr,
    t: &Option<JavaType>,
) -> Result<bool, NoMemory>
    requires { IsReady at.now.q }
    ensures { Gives at.now result (λ a. spec.takes_alike a (plain x.now) t.now) }
{
    match t {
        None => Ok(true),
        Some(t) => type_takes_alike(alloc, at, x, t),
    }
}

fn method_takes_alike(
    alloc: Global,
    at: &Place<'_>,
    t: &JavaType,
    index: usize,
    x: &CoreExpr,
    info: &MethodInfo,
) -> Result<bool, NoMemory>
    requires { IsReady at.now.q }
    ensures { Gives at.now result (λ a. spec.known_takes_alike a t.now index (plain x.now) (Some info.now)) }
{
    let seen = seen_method(alloc, at, t, info)?;
    let param = param_seen(alloc, &seen, info.params.as_slice(), index)?;
    takes_alike(alloc, at, x, &param)
}

/// Whether a method takes an argument as before.
fn known_takes_alike(
    alloc: Global,
    at: &Place<'_>,
    t: &JavaType,
    index: usize,
    x: &CoreExpr,
    k: u32,
) -> Result<bool, NoMemory>
    requires { IsReady at.now.q }
    ensures { Gives at.now result (λ a. spec.known_takes_alike a t.now index (plain x.now) (method_at a.world k)) }
{
    match at.q.world.methods.get(k as usize) {
        None => Ok(true),
        Some(info) => method_takes_alike(alloc, at, t, index, x, info),
    }
}

fn is_open(at: &Place<'_>, free: bool, k: u32) -> bool
    ensures { Tells at.now result (λ a. spec.is_open a free k) }
{
    if free {
        return true;
    }
    sees(at, k)
}

fn open_takes_alike(
    alloc: Global,
    at: &Place<'_>,
    free: bool,
    t: &JavaType,
    index: usize,
    x: &CoreExpr,
    k: u32,
) -> Result<bool, NoMemory>
    requires { IsReady at.now.q }
    ensures { Gives at.now result (λ a. not (spec.is_open a free k) || spec.known_takes_alike a t.now index (plain x.now) (method_at a.world k)) }
{
    if is_open(at, free, k) {
        return known_takes_alike(alloc, at, t, index, x, k);
    }
    Ok(true)
}

fn each_takes_alike(
    alloc: Global,
    at: &Place<'_>,
    free: bool,
    t: &JavaType,
    index: usize,
    x: &CoreExpr,
    methods: &[u32],
) -> Result<bool, NoMemory>
    requires { IsReady at.now.q }
    ensures { Gives at.now result (λ a. spec.each_takes_alike a free t.now index (plain x.now) methods.now) }
{
    for k in methods {
        if !open_takes_alike(alloc, at, free, t, index, x, *k)? {
            return Ok(false);
        }
    }
    Ok(true)
}

fn is_constructor(w: &World, arity: usize, k: u32) -> bool
    ensures { result ≡ targets.is_constructor arity (method_at w.now k) }
{
    match w.methods.get(k as usize) {
        None => false,
        Some(info) => {
            if info.constructor {
                info.params.len() == arity
            } else {
                false
            }
        }
    }
}

fn is_open_constructor(at: &Place<'_>, arity: usize, k: u32) -> bool
    ensures { Tells at.now result (λ a. targets.is_constructor arity (method_at a.world k) && uses.sees a k) }
{
    if is_constructor(at.q.world, arity, k) {
        return sees(at, k);
    }
    false
}

fn constructs_alike(
    alloc: Global,
    at: &Place<'_>,
    t: &JavaType,
    arity: usize,
    index: usize,
    x: &CoreExpr,
    k: u32,
) -> Result<bool, NoMemory>
    requires { IsReady at.now.q }
    ensures { Gives at.now result (λ a. spec.constructs_alike a t.now arity index (plain x.now) k) }
{
    if is_open_constructor(at, arity, k) {
        return known_takes_alike(alloc, at, t, index, x, k);
    }
    Ok(true)
}

fn each_constructs_alike(
    alloc: Global,
    at: &Place<'_>,
    t: &JavaType,
    arity: usize,
    index: usize,
    x: &CoreExpr,
    methods: &[u32],
) -> Result<bool, NoMemory>
    requires { IsReady at.now.q }
    ensures { Gives at.now result (λ a. spec.each_constructs_alike a t.now arity index (plain x.now) methods.now) }
{
    for k in methods {
        if !constructs_alike(alloc, at, t, arity, index, x, *k)? {
            return Ok(false);
        }
    }
    Ok(true)
}

fn methods_of(w: &World, class: u32) -> &[u32]
    ensures { result.now ≡ spec.methods_of (slice_get w.now.types class) }
{
    match w.types.get(class as usize) {
        None => &[],
        Some(info) => info.methods.as_slice(),
    }
}

fn declared_in<'a>(at: &Place<'a>, class: Option<u32>) -> &'a [u32]
    ensures { Tells at.now result.now (λ a. spec.declared_in a class) }
{
    match class {
        None => &[],
        Some(class) => methods_of(at.q.world, class),
    }
}

/// The class whose members a type has (JLS 4.4, 10.7).
fn holder(t: &JavaType) -> Option<u32>
    ensures { result ≡ inheritance.holder t.now }
{
    match t {
        JavaType::Prim(_) => None,
        JavaType::Null => None,
        JavaType::Class(class, _) => Some(*class),
        JavaType::Var(_) => Some(0),
        JavaType::Array(_) => Some(0),
    }
}

/// Whether each method or constructor that a call may choose takes an argument as before.
fn is_chosen_still(
    alloc: Global,
    at: &Place<'_>,
    free: bool,
    t: &JavaType,
    info: &MethodInfo,
    index: usize,
    x: &CoreExpr,
) -> Result<bool, NoMemory>
    requires { IsReady at.now.q }
    ensures { Gives at.now result (λ a. spec.is_chosen_still a free t.now info.now info.now.constructor index (plain x.now)) }
{
    let arity = info.params.len();
    if info.constructor {
        let methods = declared_in(at, class_number(t));
        return each_constructs_alike(alloc, at, t, arity, index, x, methods);
    }
    let methods = named_in(at, holder(t), info.name, arity);
    each_takes_alike(alloc, at, free, t, index, x, methods)
}

fn is_kept_or_chosen(
    alloc: Global,
    at: &Place<'_>,
    free: bool,
    t: &JavaType,
    info: &MethodInfo,
    index: usize,
    x: &CoreExpr,
) -> Result<bool, NoMemory>
    requires { IsReady at.now.q }
    ensures { Gives at.now result (λ a. not (changes.changed a (plain x.now)) || spec.is_chosen_still a free t.now info.now info.now.constructor index (plain x.now)) }
{
    if changed(alloc, at, x)? {
        return is_chosen_still(alloc, at, free, t, info, index, x);
    }
    Ok(true)
}

#[tactic(auto, using(java_core::proofs::Views::plain_at))]
fn to_candidates(
    alloc: Global,
    at: &Place<'_>,
    free: bool,
    t: &JavaType,
    info: &MethodInfo,
    index: usize,
    x: &CoreExpr,
    first: Option<Unmet>,
) -> Result<Option<Unmet>, NoMemory>
    requires { IsReady at.now.q }
    ensures { Gives at.now result (λ a. spec.to_candidates a free t.now info.now index (plain x.now) first) }
{
    let chosen = is_kept_or_chosen(alloc, at, free, t, info, index, x)?;
    Ok(unless(chosen, x.node.id, Constraint::Overload, first))
}

fn to_several(
    alloc: Global,
    at: &Place<'_>,
    free: bool,
    t: &JavaType,
    info: &MethodInfo,
    xs: &[CoreExpr],
    mut first: Option<Unmet>,
) -> Result<Option<Unmet>, NoMemory>
    requires { IsReady at.now.q }
    ensures { Gives at.now result (λ a. spec.to_several a free t.now info.now 0 (plains xs.now) first) }
{
    for (i, x) in xs.iter().enumerate() {
        first = to_candidates(alloc, at, free, t, info, i, x, first)?;
    }
    Ok(first)
}

// ---- the arguments of a method or constructor

fn to_one(
    alloc: Global,
    at: &Place<'_>,
    t: &JavaType,
    m: u32,
    info: &MethodInfo,
    xs: &[CoreExpr],
    first: Option<Unmet>,
) -> Result<Option<Unmet>, NoMemory>
    requires { IsReady at.now.q }
    ensures { Gives at.now result (λ a. spec.to_params a (uses.seen_method a.facts t.now info.now) info.now.params m 0 (plains xs.now) first) }
{
    let seen = seen_method(alloc, at, t, info)?;
    to_params(alloc, at, &seen, info.params.as_slice(), m, xs, first)
}

fn to_known(
    alloc: Global,
    at: &Place<'_>,
    free: bool,
    t: &JavaType,
    m: u32,
    info: &MethodInfo,
    xs: &[CoreExpr],
    first: Option<Unmet>,
) -> Result<Option<Unmet>, NoMemory>
    requires { IsReady at.now.q }
    ensures { Gives at.now result (λ a. spec.to_method a free t.now m (Some info.now) (plains xs.now) first) }
{
    if is_several(alloc, at, m, info)? {
        return to_several(alloc, at, free, t, info, xs, first);
    }
    to_one(alloc, at, t, m, info, xs, first)
}

fn to_method(
    alloc: Global,
    at: &Place<'_>,
    free: bool,
    t: &JavaType,
    m: u32,
    xs: &[CoreExpr],
    first: Option<Unmet>,
) -> Result<Option<Unmet>, NoMemory>
    requires { IsReady at.now.q }
    ensures { Gives at.now result (λ a. spec.to_method a free t.now m (method_at a.world m) (plains xs.now) first) }
{
    match at.q.world.methods.get(m as usize) {
        None => Ok(first),
        Some(info) => to_known(alloc, at, free, t, m, info, xs, first),
    }
}

fn some_changed(alloc: Global, at: &Place<'_>, xs: &[CoreExpr]) -> Result<bool, NoMemory>
    requires { IsReady at.now.q }
    ensures { Gives at.now result (λ a. spec.some_changed a (plains xs.now)) }
{
    for x in xs {
        if changed(alloc, at, x)? {
            return Ok(true);
        }
    }
    Ok(false)
}

/// The arguments of a method or constructor, as a type has it; `free` says that every method of the class may be named.
pub(crate) fn arguments(
    alloc: Global,
    at: &Place<'_>,
    free: bool,
    t: &JavaType,
    m: u32,
    xs: &[CoreExpr],
    first: Option<Unmet>,
) -> Result<Option<Unmet>, NoMemory>
    requires { IsReady at.now.q }
    ensures { Gives at.now result (λ a. spec.arguments a free t.now m (plains xs.now) first) }
{
    if some_changed(alloc, at, xs)? {
        return to_method(alloc, at, free, t, m, xs, first);
    }
    Ok(first)
}

fn to_own(
    alloc: Global,
    at: &Place<'_>,
    m: u32,
    xs: &[CoreExpr],
    first: Option<Unmet>,
) -> Result<Option<Unmet>, NoMemory>
    requires { IsReady at.now.q }
    ensures { Gives at.now result (λ a. spec.to_method a false (spec.own_type a) m (method_at a.world m) (plains xs.now) first) }
{
    let t = own_type(alloc, at)?;
    to_method(alloc, at, false, &t, m, xs, first)
}

/// The arguments of a constructor of the class around.
pub(crate) fn own_arguments(
    alloc: Global,
    at: &Place<'_>,
    m: u32,
    xs: &[CoreExpr],
    first: Option<Unmet>,
) -> Result<Option<Unmet>, NoMemory>
    requires { IsReady at.now.q }
    ensures { Gives at.now result (λ a. spec.arguments a false (spec.own_type a) m (plains xs.now) first) }
{
    if some_changed(alloc, at, xs)? {
        return to_own(alloc, at, m, xs, first);
    }
    Ok(first)
}

fn to_super(
    alloc: Global,
    at: &Place<'_>,
    m: u32,
    xs: &[CoreExpr],
    first: Option<Unmet>,
) -> Result<Option<Unmet>, NoMemory>
    requires { IsReady at.now.q }
    ensures { Gives at.now result (λ a. spec.to_method a false (spec.super_type a) m (method_at a.world m) (plains xs.now) first) }
{
    let t = super_type(alloc, at)?;
    to_method(alloc, at, false, &t, m, xs, first)
}

/// The arguments of a method or constructor of the class above.
pub(crate) fn super_arguments(
    alloc: Global,
    at: &Place<'_>,
    m: u32,
    xs: &[CoreExpr],
    first: Option<Unmet>,
) -> Result<Option<Unmet>, NoMemory>
    requires { IsReady at.now.q }
    ensures { Gives at.now result (λ a. spec.arguments a false (spec.super_type a) m (plains xs.now) first) }
{
    if some_changed(alloc, at, xs)? {
        return to_super(alloc, at, m, xs, first);
    }
    Ok(first)
}

fn to_static(
    alloc: Global,
    at: &Place<'_>,
    before: Before,
    x: &Option<Boxed<CoreExpr>>,
    m: u32,
    xs: &[CoreExpr],
    first: Option<Unmet>,
) -> Result<Option<Unmet>, NoMemory>
    requires { IsReady at.now.q }
    ensures { Gives at.now result (λ a. spec.to_static a before (maybe (option_map plain x.now)) m (plains xs.now) first) }
{
    let t = static_type(alloc, at, before, x)?;
    to_method(alloc, at, is_simple(before, x), &t, m, xs, first)
}

/// The arguments of a static method.
pub(crate) fn static_arguments(
    alloc: Global,
    at: &Place<'_>,
    before: Before,
    x: &Option<Boxed<CoreExpr>>,
    m: u32,
    xs: &[CoreExpr],
    first: Option<Unmet>,
) -> Result<Option<Unmet>, NoMemory>
    requires { IsReady at.now.q }
    ensures { Gives at.now result (λ a. spec.static_arguments a before (maybe (option_map plain x.now)) m (plains xs.now) first) }
{
    if some_changed(alloc, at, xs)? {
        return to_static(alloc, at, before, x, m, xs, first);
    }
    Ok(first)
}
