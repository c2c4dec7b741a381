//! Members of a value whose type changes.

ghost use Rattle.std.specs.Prelude.{◌≡◌, ◌||◌, not, is_some, Some};
ghost use Rattle.std.specs.Option.{option_map};
ghost use Rattle.java_core.specs.View.{maybe, plain};
ghost use Rattle.type_kinds.specs.Kinds.{element as element_of, ty_of};
ghost use Rattle.type_kinds.specs.Members.{field_at, method_at};
ghost use Rattle.type_facts.specs.Facts.{IsReady};
ghost use Rattle.member_uses.specs.Targets.{named_in as named};
ghost use Rattle.type_constraints.specs.Asked.{Gives, Tells};
ghost use Rattle.type_constraints.specs.Uses as spec;

use crate::changed::{changed, raised};
use crate::place::{Place, field_named, is_equal, methods_named, overrides, sees};
use crate::results::{give_alike, is_static_method, throw_alike};
use crate::unmet::{Constraint, Unmet, noted, unless};
use class_world::{FieldInfo, JavaType, MethodInfo};
use java_core::CoreExpr;
use java_tree::tree::{Name, Node};
use java_tree::{Boxed, NoMemory};
use std::alloc::Global;
use type_kinds::kinds::{class_number, element};

fn is_array(t: &JavaType) -> bool
    ensures { result ≡ is_some (element_of t.now) }
{
    element(t).is_some()
}

/// Whether the type of a value changes, and is of a class.
#[tactic(auto, using(java_core::proofs::Views::plain_at))]
fn is_changed_object(alloc: Global, at: &Place<'_>, x: &CoreExpr) -> Result<bool, NoMemory>
    requires { IsReady at.now.q }
    ensures { Gives at.now result (λ a. spec.is_changed_object a (plain x.now)) }
{
    if changed(alloc, at, x)? {
        return Ok(!is_array(&x.ty));
    }
    Ok(false)
}

// ---- methods

fn is_one(at: &Place<'_>, k: u32, m: u32) -> bool
    requires { IsReady at.now.q }
    ensures { Tells at.now result (λ a. spec.is_one a.ties k m) }
{
    if is_equal(k, m) {
        return true;
    }
    overrides(at, k, m)
}

/// Whether a method may be called, and is another one or one that the other overrides.
fn may_answer(at: &Place<'_>, m: u32, k: u32) -> bool
    requires { IsReady at.now.q }
    ensures { Tells at.now result (λ a. spec.may_answer a m k) }
{
    if sees(at, k) {
        return is_one(at, m, k);
    }
    false
}

/// The first of these methods that may be called in place of one.
fn found_among(at: &Place<'_>, m: u32, methods: &[u32]) -> Option<u32>
    requires { IsReady at.now.q }
    ensures { Tells at.now result (λ a. spec.found_among a m methods.now) }
{
    for k in methods {
        if may_answer(at, m, *k) {
            return Some(*k);
        }
    }
    None
}

/// Whether a method may be called, and is another one or overrides it.
fn stands_for(at: &Place<'_>, k: u32, j: u32) -> bool
    requires { IsReady at.now.q }
    ensures { Tells at.now result (λ a. spec.stands_for a k j) }
{
    if sees(at, j) {
        return is_one(at, j, k);
    }
    false
}

fn is_known(at: &Place<'_>, old: &[u32], k: u32) -> bool
    requires { IsReady at.now.q }
    ensures { Tells at.now result (λ a. spec.is_known a old.now k) }
{
    for j in old {
        if stands_for(at, k, *j) {
            return true;
        }
    }
    false
}

fn is_unseen_or_known(at: &Place<'_>, old: &[u32], k: u32) -> bool
    requires { IsReady at.now.q }
    ensures { Tells at.now result (λ a. not (spec.sees a k) || spec.is_known a old.now k) }
{
    if sees(at, k) {
        return is_known(at, old, k);
    }
    true
}

/// Whether each new method that may be called is one of the old ones, or overridden by one.
fn are_known(at: &Place<'_>, old: &[u32], new: &[u32]) -> bool
    requires { IsReady at.now.q }
    ensures { Tells at.now result (λ a. spec.are_known a old.now new.now) }
{
    for k in new {
        if !is_unseen_or_known(at, old, *k) {
            return false;
        }
    }
    true
}

/// The methods with a name and so many parameters, of a class, where it is one.
pub(crate) fn named_in<'a>(
    at: &Place<'a>,
    class: Option<u32>,
    name: Name,
    arity: usize,
) -> &'a [u32]
    requires { IsReady at.now.q }
    ensures { Tells at.now result.now (λ a. named a.facts class name arity) }
{
    match class {
        None => &[],
        Some(c) => methods_named(at, c, name, arity),
    }
}

fn like_it<'a>(at: &Place<'a>, t: &JavaType, info: &MethodInfo) -> &'a [u32]
    requires { IsReady at.now.q }
    ensures { Tells at.now result.now (λ a. spec.like_it a.facts t.now info.now) }
{
    named_in(at, class_number(t), info.name, info.params.len())
}

/// A call at a node, of a method on an old type. The new type has this one in its place.
#[derive(Clone, Copy)]
struct Use<'a> {
    node: Node,
    new: &'a JavaType,
    old: &'a JavaType,
    method: u32,
    info: &'a MethodInfo,
}

fn answered_by(
    alloc: Global,
    at: &Place<'_>,
    u: &Use<'_>,
    k: u32,
    found: &MethodInfo,
    first: Option<Unmet>,
) -> Result<Option<Unmet>, NoMemory>
    requires { IsReady at.now.q }
    ensures { Gives at.now result (λ a. spec.answered a u.now.node u.now.new.now u.now.old.now k (Some found.now) u.now.method u.now.info.now first) }
{
    let gives = give_alike(alloc, at, u.new, u.old, k, found, u.method, u.info)?;
    let throws = throw_alike(alloc, at, found, u.info)?;
    let first = unless(gives, u.node.id, Constraint::Result, first);
    Ok(unless(throws, u.node.id, Constraint::Throws, first))
}

fn answered(
    alloc: Global,
    at: &Place<'_>,
    u: &Use<'_>,
    k: u32,
    first: Option<Unmet>,
) -> Result<Option<Unmet>, NoMemory>
    requires { IsReady at.now.q }
    ensures { Gives at.now result (λ a. spec.answered a u.now.node u.now.new.now u.now.old.now k (method_at a.world k) u.now.method u.now.info.now first) }
{
    match at.q.world.methods.get(k as usize) {
        None => Ok(noted(u.node.id, Constraint::Member, first)),
        Some(found) => answered_by(alloc, at, u, k, found, first),
    }
}

fn found(
    alloc: Global,
    at: &Place<'_>,
    u: &Use<'_>,
    k: Option<u32>,
    first: Option<Unmet>,
) -> Result<Option<Unmet>, NoMemory>
    requires { IsReady at.now.q }
    ensures { Gives at.now result (λ a. spec.found a u.now.node u.now.new.now u.now.old.now k u.now.method u.now.info.now first) }
{
    match k {
        None => Ok(noted(u.node.id, Constraint::Member, first)),
        Some(k) => answered(alloc, at, u, k, first),
    }
}

fn among(
    alloc: Global,
    at: &Place<'_>,
    u: &Use<'_>,
    new: &[u32],
    old: &[u32],
    first: Option<Unmet>,
) -> Result<Option<Unmet>, NoMemory>
    requires { IsReady at.now.q }
    ensures { Gives at.now result (λ a. spec.among a u.now.node u.now.new.now u.now.old.now new.now old.now u.now.method u.now.info.now first) }
{
    let known = are_known(at, old, new);
    let first = unless(known, u.node.id, Constraint::Overload, first);
    found(alloc, at, u, found_among(at, u.method, new), first)
}

fn used(
    alloc: Global,
    at: &Place<'_>,
    u: &Use<'_>,
    is_static: bool,
    first: Option<Unmet>,
) -> Result<Option<Unmet>, NoMemory>
    requires { IsReady at.now.q }
    ensures { Gives at.now result (λ a. spec.used a u.now.node u.now.new.now u.now.old.now u.now.method u.now.info.now is_static first) }
{
    if is_static {
        return Ok(noted(u.node.id, Constraint::Member, first));
    }
    let new = like_it(at, u.new, u.info);
    let old = like_it(at, u.old, u.info);
    among(alloc, at, u, new, old, first)
}

fn used_known(
    alloc: Global,
    at: &Place<'_>,
    node: Node,
    old: &JavaType,
    method: u32,
    info: &MethodInfo,
    first: Option<Unmet>,
) -> Result<Option<Unmet>, NoMemory>
    requires { IsReady at.now.q }
    ensures { Gives at.now result (λ a. spec.used_known a node old.now method (Some info.now) first) }
{
    let new = raised(alloc, at.change, old)?;
    let u = Use {
        node,
        new: &new,
        old,
        method,
        info,
    };
    used(alloc, at, &u, is_static_method(info), first)
}

fn used_on(
    alloc: Global,
    at: &Place<'_>,
    node: Node,
    old: &JavaType,
    method: u32,
    first: Option<Unmet>,
) -> Result<Option<Unmet>, NoMemory>
    requires { IsReady at.now.q }
    ensures { Gives at.now result (λ a. spec.used_known a node old.now method (method_at a.world method) first) }
{
    match at.q.world.methods.get(method as usize) {
        None => Ok(first),
        Some(info) => used_known(alloc, at, node, old, method, info, first),
    }
}

/// A method of a value is called at a node (JLS 15.12).
#[tactic(auto, using(java_core::proofs::Views::plain_at))]
pub(crate) fn method_use(
    alloc: Global,
    at: &Place<'_>,
    node: Node,
    x: &CoreExpr,
    method: u32,
    first: Option<Unmet>,
) -> Result<Option<Unmet>, NoMemory>
    requires { IsReady at.now.q }
    ensures { Gives at.now result (λ a. spec.method_use a node (plain x.now) method first) }
{
    if is_changed_object(alloc, at, x)? {
        return used_on(alloc, at, node, &x.ty, method, first);
    }
    Ok(first)
}

pub(crate) fn maybe_method_use(
    alloc: Global,
    at: &Place<'_>,
    node: Node,
    x: &Option<Boxed<CoreExpr>>,
    method: u32,
    first: Option<Unmet>,
) -> Result<Option<Unmet>, NoMemory>
    requires { IsReady at.now.q }
    ensures { Gives at.now result (λ a. spec.maybe_method_use a node (maybe (option_map plain x.now)) method first) }
{
    match x {
        None => Ok(first),
        Some(x) => method_use(alloc, at, node, x.get(), method, first),
    }
}

// ---- fields

fn is_number(number: u32, found: Option<u32>) -> bool
    ensures { result ≡ spec.is_number number found }
{
    match found {
        None => false,
        Some(k) => k == number,
    }
}

fn has_known_field(
    alloc: Global,
    at: &Place<'_>,
    old: &JavaType,
    field: u32,
    info: &FieldInfo,
) -> Result<bool, NoMemory>
    requires { IsReady at.now.q }
    ensures { Gives at.now result (λ a. spec.has_field a old.now field (Some info.now)) }
{
    let new = raised(alloc, at.change, old)?;
    Ok(is_number(field, field_named(at, &new, info.name)))
}

fn has_field(alloc: Global, at: &Place<'_>, old: &JavaType, field: u32) -> Result<bool, NoMemory>
    requires { IsReady at.now.q }
    ensures { Gives at.now result (λ a. spec.has_field a old.now field (field_at a.world field)) }
{
    match at.q.world.fields.get(field as usize) {
        None => Ok(false),
        Some(info) => has_known_field(alloc, at, old, field, info),
    }
}

#[tactic(auto, using(java_core::proofs::Views::plain_at))]
fn keeps_field(alloc: Global, at: &Place<'_>, x: &CoreExpr, field: u32) -> Result<bool, NoMemory>
    requires { IsReady at.now.q }
    ensures { Gives at.now result (λ a. not (spec.is_changed_object a (plain x.now)) || spec.has_field a (ty_of (plain x.now)) field (field_at a.world field)) }
{
    if is_changed_object(alloc, at, x)? {
        return has_field(alloc, at, &x.ty, field);
    }
    Ok(true)
}

/// A field of a value is used at a node (JLS 15.11).
pub(crate) fn field_use(
    alloc: Global,
    at: &Place<'_>,
    node: Node,
    x: &CoreExpr,
    field: u32,
    first: Option<Unmet>,
) -> Result<Option<Unmet>, NoMemory>
    requires { IsReady at.now.q }
    ensures { Gives at.now result (λ a. spec.field_use a node (plain x.now) field first) }
{
    let keeps = keeps_field(alloc, at, x, field)?;
    Ok(unless(keeps, node.id, Constraint::Field, first))
}

pub(crate) fn maybe_field_use(
    alloc: Global,
    at: &Place<'_>,
    node: Node,
    x: &Option<Boxed<CoreExpr>>,
    field: u32,
    first: Option<Unmet>,
) -> Result<Option<Unmet>, NoMemory>
    requires { IsReady at.now.q }
    ensures { Gives at.now result (λ a. spec.maybe_field_use a node (maybe (option_map plain x.now)) field first) }
{
    match x {
        None => Ok(first),
        Some(x) => field_use(alloc, at, node, x.get(), field, first),
    }
}
