//! Values that go to what has a declared type, and arms of conditionals.

ghost use Rattle.std.specs.Prelude.{◌≡◌, ◌==◌, ◌||◌, IfOk, Some, true, slice_get};
ghost use Rattle.std.specs.Option.{option_copied};
ghost use Rattle.java_core.specs.View.{form_plain, plain, plains};
ghost use Rattle.type_facts.specs.Facts.{IsReady};
ghost use Rattle.marked_types.specs.Marked as marking;
ghost use Rattle.extract_constraints.specs.Flows as spec;
ghost use Rattle.extract_constraints.specs.Told.{Gives};

use crate::place::{Place, fits, need, need_maybe, need_unless, step, super_as, value_type};
use class_world::{JavaType, World, copied};
use java_core::{CoreExpr, CoreForm};
use java_tree::{Items, NoMemory};
use kept_places::{Kind, Link};
use marked_types::marking::{head_class, head_mark, is_number, mentions, own_mark, raised};
use std::alloc::Global;
use type_kinds::kinds::{args_of, class_number, element};

// ---- types that stay equal

fn tied(
    place: u32,
    other: u32,
    node: u32,
    kind: Kind,
    links: Items<Link>,
) -> Result<Items<Link>, NoMemory>
    ensures { IfOk result (λ ls. ls ≡ spec.tied (place == other) place other node kind links) }
{
    if place == other {
        return Ok(links);
    }
    let links = step(place, other, node, kind, links)?;
    step(other, place, node, kind, links)
}

/// Two heads or arguments stay equal, by their places.
pub(crate) fn equal(
    place: Option<u32>,
    other: Option<u32>,
    node: u32,
    kind: Kind,
    links: Items<Link>,
) -> Result<Items<Link>, NoMemory>
    ensures { IfOk result (λ ls. ls ≡ spec.equal place other node kind links) }
{
    match place {
        Some(p) => match other {
            Some(q) => tied(p, q, node, kind, links),
            None => need(p, node, kind, links),
        },
        None => need_maybe(other, node, kind, links),
    }
}

/// Arguments stay equal, by their places.
pub(crate) fn all_equal(
    xs: &[JavaType],
    ys: &[JavaType],
    node: u32,
    mut links: Items<Link>,
) -> Result<Items<Link>, NoMemory>
    ensures { IfOk result (λ ls. ls ≡ spec.all_equal xs.now ys.now node links) }
{
    for (x, y) in xs.iter().zip(ys) {
        links = equal(own_mark(x), own_mark(y), node, Kind::Argument, links)?;
    }
    Ok(links)
}

fn args_equal(
    t: &Option<JavaType>,
    ys: &[JavaType],
    node: u32,
    links: Items<Link>,
) -> Result<Items<Link>, NoMemory>
    ensures { IfOk result (λ ls. ls ≡ spec.args_equal t.now ys.now node links) }
{
    match t {
        None => Ok(links),
        Some(t) => all_equal(args_of(t), ys, node, links),
    }
}

fn arguments_at(
    alloc: Global,
    at: &Place<'_>,
    s: &JavaType,
    class: Option<u32>,
    ys: &[JavaType],
    node: u32,
    links: Items<Link>,
) -> Result<Items<Link>, NoMemory>
    requires { IsReady at.now.reader.q }
    ensures { Gives at.now result (λ k a. spec.arguments_at k s.now class ys.now node links) }
{
    match class {
        None => Ok(links),
        Some(class) => match ys {
            [] => Ok(links),
            [_, ..] => {
                let up = super_as(alloc, at, s, class)?;
                args_equal(&up, ys, node, links)
            }
        },
    }
}

/// The arguments of a type stay those that another one has at its class.
pub(crate) fn equal_arguments(
    alloc: Global,
    at: &Place<'_>,
    s: &JavaType,
    t: &JavaType,
    node: u32,
    links: Items<Link>,
) -> Result<Items<Link>, NoMemory>
    requires { IsReady at.now.reader.q }
    ensures { Gives at.now result (λ k a. spec.equal_arguments k s.now t.now node links) }
{
    arguments_at(alloc, at, s, class_number(t), args_of(t), node, links)
}

// ---- flows (JLS 5.2)

/// Whether the new type of what had this type fits another one.
pub(crate) fn new_fits(
    alloc: Global,
    at: &Place<'_>,
    s: &JavaType,
    t: &JavaType,
) -> Result<bool, NoMemory>
    requires { IsReady at.now.reader.q }
    ensures { Gives at.now result (λ k a. k.facts.fits (marking.raised s.now) t.now) }
{
    let new = raised(alloc, s)?;
    Ok(fits(at, &new, t))
}

fn to_type(
    alloc: Global,
    at: &Place<'_>,
    place: u32,
    s: &JavaType,
    t: &JavaType,
    to: Option<u32>,
    node: u32,
    links: Items<Link>,
) -> Result<Items<Link>, NoMemory>
    requires { IsReady at.now.reader.q }
    ensures { Gives at.now result (λ k a. spec.to_type k place s.now t.now to node links) }
{
    match to {
        Some(to) => step(place, to, node, Kind::Assign, links),
        None => {
            let met = new_fits(alloc, at, s, t)?;
            need_unless(met, place, node, Kind::Assign, links)
        }
    }
}

/// A value of one type goes to what has the other.
pub(crate) fn flow(
    alloc: Global,
    at: &Place<'_>,
    s: &JavaType,
    t: &JavaType,
    node: u32,
    links: Items<Link>,
) -> Result<Items<Link>, NoMemory>
    requires { IsReady at.now.reader.q }
    ensures { Gives at.now result (λ k a. spec.flow k s.now t.now node links) }
{
    match head_mark(s) {
        Some(place) => to_type(alloc, at, place, s, t, head_mark(t), node, links),
        None => equal_arguments(alloc, at, s, t, node, links),
    }
}

/// The value of an expression goes to what has this type.
#[tactic(auto, using(java_core::proofs::Views::plain_at))]
pub(crate) fn value_to(
    alloc: Global,
    at: &Place<'_>,
    locals: &[JavaType],
    x: &CoreExpr,
    t: &JavaType,
    links: Items<Link>,
) -> Result<Items<Link>, NoMemory>
    requires { IsReady at.now.reader.q }
    ensures { Gives at.now result (λ k a. spec.value_to k a locals.now (plain x.now) t.now links) }
{
    if mentions(at.reader.class, &x.ty) {
        let s = value_type(alloc, at, locals, x)?;
        return flow(alloc, at, &s, t, x.node.id, links);
    }
    Ok(links)
}

pub(crate) fn value_to_maybe(
    alloc: Global,
    at: &Place<'_>,
    locals: &[JavaType],
    x: &CoreExpr,
    t: Option<&JavaType>,
    links: Items<Link>,
) -> Result<Items<Link>, NoMemory>
    requires { IsReady at.now.reader.q }
    ensures { Gives at.now result (λ k a. spec.value_to_maybe k a locals.now (plain x.now) (option_copied t.entry) links) }
{
    match t {
        None => Ok(links),
        Some(t) => value_to(alloc, at, locals, x, t, links),
    }
}

/// A value or the items in braces go to what has this type: of items an array is made (JLS 10.6).
#[cycle(items)]
#[tactic(auto, using(java_core::proofs::Views::plain_at))]
pub(crate) fn initialise(
    alloc: Global,
    at: &Place<'_>,
    locals: &[JavaType],
    x: &CoreExpr,
    t: Option<&JavaType>,
    links: Items<Link>,
) -> Result<Items<Link>, NoMemory>
    requires { IsReady at.now.reader.q }
    ensures { Gives at.now result (λ k a. spec.initialise k a locals.now (plain x.now) (option_copied t.entry) links) }
{
    match &x.form {
        CoreForm::Filled(items) => match t {
            None => Ok(links),
            Some(t) => initialise_all(alloc, at, locals, items.as_slice(), element(t), links),
        },
        _ => value_to_maybe(alloc, at, locals, x, t, links),
    }
}

#[cycle(items)]
fn initialise_all(
    alloc: Global,
    at: &Place<'_>,
    locals: &[JavaType],
    items: &[CoreExpr],
    t: Option<&JavaType>,
    mut links: Items<Link>,
) -> Result<Items<Link>, NoMemory>
    requires { IsReady at.now.reader.q }
    ensures { Gives at.now result (λ k a. spec.initialise_all k a locals.now (plains items.now) (option_copied t.entry) links) }
{
    for item in items {
        links = initialise(alloc, at, locals, item, t, links)?;
    }
    Ok(links)
}

fn is_filled_form(form: &CoreForm) -> bool
    ensures { result ≡ spec.is_filled_form (form_plain form.now) }
{
    match form {
        CoreForm::Filled(_) => true,
        _ => false,
    }
}

#[tactic(auto, using(java_core::proofs::Views::plain_at))]
fn is_filled(x: &CoreExpr) -> bool
    ensures { result ≡ spec.is_filled (plain x.now) }
{
    is_filled_form(&x.form)
}

fn need_if_filled(
    filled: bool,
    t: &JavaType,
    node: u32,
    links: Items<Link>,
) -> Result<Items<Link>, NoMemory>
    ensures { IfOk result (λ ls. ls ≡ spec.need_if_filled filled t.now node links) }
{
    if filled {
        return need_maybe(head_mark(t), node, Kind::Assign, links);
    }
    Ok(links)
}

/// The value of a declared variable: items in braces make an array of its declared type, which then stays.
#[tactic(auto, using(java_core::proofs::Views::plain_at))]
pub(crate) fn declare(
    alloc: Global,
    at: &Place<'_>,
    locals: &[JavaType],
    x: &CoreExpr,
    t: &JavaType,
    links: Items<Link>,
) -> Result<Items<Link>, NoMemory>
    requires { IsReady at.now.reader.q }
    ensures { Gives at.now result (λ k a. spec.declare k a locals.now (plain x.now) t.now links) }
{
    let links = need_if_filled(is_filled(x), t, x.node.id, links)?;
    initialise(alloc, at, locals, x, Some(t), links)
}

// ---- conditionals (JLS 15.25)

fn to_inner(
    place: u32,
    inner: Option<u32>,
    node: u32,
    links: Items<Link>,
) -> Result<Items<Link>, NoMemory>
    ensures { IfOk result (λ ls. ls ≡ spec.to_inner place inner node links) }
{
    match inner {
        None => Ok(links),
        Some(inner) => step(place, inner, node, Kind::Arm, links),
    }
}

/// An arm that changes beside one that stays, of types s and t; `inner` is the conditional's own place, where it has one.
fn lone_arm(
    alloc: Global,
    at: &Place<'_>,
    place: u32,
    s: &JavaType,
    t: &JavaType,
    inner: Option<u32>,
    node: u32,
    links: Items<Link>,
) -> Result<Items<Link>, NoMemory>
    requires { IsReady at.now.reader.q }
    ensures { Gives at.now result (λ k a. spec.lone_arm k place s.now t.now inner node links) }
{
    if new_fits(alloc, at, s, t)? {
        return Ok(links);
    }
    if fits(at, t, s) {
        return to_inner(place, inner, node, links);
    }
    need(place, node, Kind::Arm, links)
}

fn arm_heads(
    alloc: Global,
    at: &Place<'_>,
    first: Option<u32>,
    second: Option<u32>,
    s: &JavaType,
    t: &JavaType,
    inner: Option<u32>,
    node: u32,
    links: Items<Link>,
) -> Result<Items<Link>, NoMemory>
    requires { IsReady at.now.reader.q }
    ensures { Gives at.now result (λ k a. spec.arm_heads k first second s.now t.now inner node links) }
{
    match first {
        Some(p) => match second {
            Some(q) => {
                let links = to_inner(p, inner, node, links)?;
                to_inner(q, inner, node, links)
            }
            None => lone_arm(alloc, at, p, s, t, inner, node, links),
        },
        None => match second {
            Some(q) => lone_arm(alloc, at, q, t, s, inner, node, links),
            None => Ok(links),
        },
    }
}

fn inner_place(of_class: bool, node: u32) -> Option<u32>
    ensures { result ≡ spec.inner_place of_class node }
{
    if of_class { Some(node) } else { None }
}

#[tactic(auto, using(java_core::proofs::Views::plain_at))]
fn known_arms(
    alloc: Global,
    at: &Place<'_>,
    locals: &[JavaType],
    e: &CoreExpr,
    yes: &CoreExpr,
    no: &CoreExpr,
    links: Items<Link>,
) -> Result<Items<Link>, NoMemory>
    requires { IsReady at.now.reader.q }
    ensures { Gives at.now result (λ k a. spec.arms_if true k a locals.now (plain e.now) (plain yes.now) (plain no.now) links) }
{
    let first = value_type(alloc, at, locals, yes)?;
    let second = value_type(alloc, at, locals, no)?;
    let whole = value_type(alloc, at, locals, e)?;
    let node = e.node.id;
    let inner = inner_place(is_number(head_class(&e.ty), at.reader.class), node);
    let one = head_mark(&first);
    let other = head_mark(&second);
    let links = arm_heads(alloc, at, one, other, &yes.ty, &no.ty, inner, node, links)?;
    let links = equal_arguments(alloc, at, &first, &whole, yes.node.id, links)?;
    equal_arguments(alloc, at, &second, &whole, no.node.id, links)
}

fn either_mentions(class: u32, s: &JavaType, t: &JavaType) -> bool
    ensures { result ≡ (marking.mentions class s.now || marking.mentions class t.now) }
{
    mentions(class, s) || mentions(class, t)
}

/// The arms of a conditional.
#[tactic(auto, using(java_core::proofs::Views::plain_at))]
pub(crate) fn arms(
    alloc: Global,
    at: &Place<'_>,
    locals: &[JavaType],
    e: &CoreExpr,
    yes: &CoreExpr,
    no: &CoreExpr,
    links: Items<Link>,
) -> Result<Items<Link>, NoMemory>
    requires { IsReady at.now.reader.q }
    ensures { Gives at.now result (λ k a. spec.arms k a locals.now (plain e.now) (plain yes.now) (plain no.now) links) }
{
    if either_mentions(at.reader.class, &yes.ty, &no.ty) {
        return known_arms(alloc, at, locals, e, yes, no, links);
    }
    Ok(links)
}

// ---- casts (JLS 15.16)

fn is_generic(w: &World, class: u32) -> bool
    ensures { result ≡ spec.is_generic_info (slice_get w.now.types class) }
{
    match w.types.get(class as usize) {
        None => false,
        Some(info) => 0 < info.params,
    }
}

fn both_args(
    s: &Option<JavaType>,
    t: &Option<JavaType>,
    node: u32,
    links: Items<Link>,
) -> Result<Items<Link>, NoMemory>
    ensures { IfOk result (λ ls. ls ≡ spec.both_args s.now t.now node links) }
{
    match s {
        None => Ok(links),
        Some(s) => match t {
            None => Ok(links),
            Some(t) => all_equal(args_of(s), args_of(t), node, links),
        },
    }
}

/// The arguments that two types have at a class above both stay equal.
fn equal_above(
    alloc: Global,
    at: &Place<'_>,
    s: &JavaType,
    t: &JavaType,
    class: u32,
    node: u32,
    links: Items<Link>,
) -> Result<Items<Link>, NoMemory>
    requires { IsReady at.now.reader.q }
    ensures { Gives at.now result (λ k a. spec.equal_above (spec.is_generic_info (slice_get (spec.world a).types class)) k s.now t.now class node links) }
{
    if is_generic(at.reader.q.world, class) {
        let one = super_as(alloc, at, s, class)?;
        let other = super_as(alloc, at, t, class)?;
        return both_args(&one, &other, node, links);
    }
    Ok(links)
}

fn equal_below(
    alloc: Global,
    at: &Place<'_>,
    s: &JavaType,
    t: &JavaType,
    count: u32,
    node: u32,
    mut links: Items<Link>,
) -> Result<Items<Link>, NoMemory>
    requires { IsReady at.now.reader.q }
    ensures { Gives at.now result (λ k a. spec.equal_below k a s.now t.now count node links) }
{
    for class in 0..count {
        links = equal_above(alloc, at, s, t, class, node, links)?;
    }
    Ok(links)
}

fn cast_of(
    alloc: Global,
    at: &Place<'_>,
    place: Option<u32>,
    s: &JavaType,
    t: &JavaType,
    node: u32,
    operand: u32,
    links: Items<Link>,
) -> Result<Items<Link>, NoMemory>
    requires { IsReady at.now.reader.q }
    ensures { Gives at.now result (λ k a. spec.cast_of place k a s.now t.now node operand links) }
{
    match place {
        Some(place) => need(place, node, Kind::Argument, links),
        None => {
            let Ok(count) = u32::try_from(at.reader.q.world.types.len()) else {
                return Err(NoMemory);
            };
            equal_below(alloc, at, s, t, count, operand, links)
        }
    }
}

/// A value of one type is cast to the other: where that has arguments, the head stays, and the arguments stay equal.
pub(crate) fn cast(
    alloc: Global,
    at: &Place<'_>,
    s: &JavaType,
    t: &JavaType,
    node: u32,
    operand: u32,
    links: Items<Link>,
) -> Result<Items<Link>, NoMemory>
    requires { IsReady at.now.reader.q }
    ensures { Gives at.now result (λ k a. spec.cast k a s.now t.now node operand links) }
{
    match args_of(t) {
        [] => Ok(links),
        [_, ..] => cast_of(alloc, at, head_mark(s), s, t, node, operand, links),
    }
}

// ---- loops over a value (JLS 14.14.2)

fn first_arg(alloc: Global, t: &Option<JavaType>) -> Result<Option<JavaType>, NoMemory>
    ensures { IfOk result (λ r. r ≡ spec.first_arg t.now) }
{
    match t {
        None => Ok(None),
        Some(t) => match args_of(t).get(0) {
            None => Ok(None),
            Some(x) => Ok(Some(copied(alloc, x)?)),
        },
    }
}

fn walked_by(alloc: Global, at: &Place<'_>, s: &JavaType) -> Result<Option<JavaType>, NoMemory>
    requires { IsReady at.now.reader.q }
    ensures { Gives at.now result (λ k a. spec.walked_by k (spec.world a).walk s.now) }
{
    match &at.reader.q.world.walk {
        None => Ok(None),
        Some(walk) => {
            let up = super_as(alloc, at, s, walk.iterable)?;
            first_arg(alloc, &up)
        }
    }
}

/// The type of the items of a value.
fn item(alloc: Global, at: &Place<'_>, s: &JavaType) -> Result<Option<JavaType>, NoMemory>
    requires { IsReady at.now.reader.q }
    ensures { Gives at.now result (λ k a. spec.item k a s.now) }
{
    match element(s) {
        Some(x) => Ok(Some(copied(alloc, x)?)),
        None => walked_by(alloc, at, s),
    }
}

fn flow_maybe(
    alloc: Global,
    at: &Place<'_>,
    s: &Option<JavaType>,
    t: &JavaType,
    node: u32,
    links: Items<Link>,
) -> Result<Items<Link>, NoMemory>
    requires { IsReady at.now.reader.q }
    ensures { Gives at.now result (λ k a. spec.flow_maybe k s.now t.now node links) }
{
    match s {
        None => Ok(links),
        Some(s) => flow(alloc, at, s, t, node, links),
    }
}

/// The items of a value go to a variable of this type.
#[tactic(auto, using(java_core::proofs::Views::plain_at))]
pub(crate) fn walked(
    alloc: Global,
    at: &Place<'_>,
    locals: &[JavaType],
    x: &CoreExpr,
    t: &JavaType,
    links: Items<Link>,
) -> Result<Items<Link>, NoMemory>
    requires { IsReady at.now.reader.q }
    ensures { Gives at.now result (λ k a. spec.walked k a locals.now (plain x.now) t.now links) }
{
    if mentions(at.reader.class, &x.ty) {
        let s = value_type(alloc, at, locals, x)?;
        let s = item(alloc, at, &s)?;
        return flow_maybe(alloc, at, &s, t, x.node.id, links);
    }
    Ok(links)
}
