//! Methods beside those that they override, are overloaded with or hide.

ghost use Rattle.std.specs.Prelude.{◌≡◌, ◌==◌, ◌&&◌, ◌∷◌, ◌++◌, [], filter, map, not, option_and_then, if◌then◌else◌, IfOk, Some};
ghost use Rattle.std.specs.Option.{option_copied};
ghost use Rattle.java_core.specs.View.{method_plain, param_plain};
ghost use Rattle.type_kinds.specs.Kinds as kinds;
ghost use Rattle.type_facts.specs.Facts.{IsReady};
ghost use Rattle.marked_types.specs.Marked as marking;
ghost use Rattle.marked_types.specs.Table as table;
ghost use Rattle.member_uses.specs.Targets as targets;
ghost use Rattle.extract_constraints.specs.Arguments as seeing;
ghost use Rattle.extract_constraints.specs.Declarations as spec;
ghost use Rattle.extract_constraints.specs.Told.{Gives, Tells, where_of};

use crate::flows::{all_equal, equal, equal_arguments, new_fits};
use crate::groups::{has_double, have_one_erasure, is_several};
use crate::place::{
    Place, family, method_info, methods_named, need_all, need_maybe, need_unless, overrides, step,
};
use crate::receivers::is_static;
use class_world::{JavaType, MethodInfo};
use java_core::{CoreMethod, CoreParam};
use java_tree::tree::Name;
use java_tree::{Items, NoMemory};
use kept_places::{Kind, Link};
use marked_types::marking::{head_mark, places_of};
use member_uses::superclass;
use std::alloc::Global;
use type_kinds::kinds::{args_of, class_number};

fn or_seen<'a>(marked: Option<&'a JavaType>, seen: Option<&'a JavaType>) -> Option<&'a JavaType>
    ensures { option_copied result ≡ seeing.or_seen (option_copied marked.entry) (option_copied seen.entry) }
{
    match marked {
        Some(t) => Some(t),
        None => seen,
    }
}

fn param_in(info: Option<&MethodInfo>, index: usize) -> Option<&JavaType>
    ensures { option_copied result ≡ spec.param_in (option_copied info.entry) index }
{
    match info {
        None => None,
        Some(info) => info.params.get(index),
    }
}

fn result_in(info: Option<&MethodInfo>) -> Option<&JavaType>
    ensures { option_copied result ≡ table.result_of (option_copied info.entry) }
{
    match info {
        None => None,
        Some(info) => match &info.result {
            None => None,
            Some(t) => Some(t),
        },
    }
}

/// The declared type of a parameter, by its place from 0, marked where a user declares it.
fn param_declared<'a>(at: &Place<'a>, m: u32, index: usize) -> Option<&'a JavaType>
    ensures { option_copied result ≡ spec.param_declared (where_of at.now) m index }
{
    or_seen(
        at.reader.marks.param(m, index),
        param_in(method_info(at, m), index),
    )
}

/// The declared result, marked where a user declares it.
fn result_declared<'a>(at: &Place<'a>, m: u32) -> Option<&'a JavaType>
    ensures { option_copied result ≡ spec.result_declared (where_of at.now) m }
{
    or_seen(at.reader.marks.result(m), result_in(method_info(at, m)))
}

// A number that is not another one.
fn is_other(m: u32, j: u32) -> bool
    ensures { result ≡ not (m == j) }
{
    m != j
}

// ---- static methods that it hides (JLS 8.4.8.2)

fn hides_info(
    alloc: Global,
    at: &Place<'_>,
    info: &MethodInfo,
    other: &MethodInfo,
) -> Result<bool, NoMemory>
    requires { IsReady at.now.reader.q }
    ensures { Gives at.now result (λ k a. spec.hides_info k info.now (Some other.now)) }
{
    if is_static(other) {
        return have_one_erasure(alloc, at, info, other);
    }
    Ok(false)
}

fn hides(alloc: Global, at: &Place<'_>, info: &MethodInfo, m: u32) -> Result<bool, NoMemory>
    requires { IsReady at.now.reader.q }
    ensures { Gives at.now result (λ k a. spec.hides k a info.now m) }
{
    match method_info(at, m) {
        None => Ok(false),
        Some(other) => hides_info(alloc, at, info, other),
    }
}

fn class_above(alloc: Global, at: &Place<'_>) -> Result<Option<u32>, NoMemory>
    ensures { IfOk result (λ r. r ≡ option_and_then kinds.class_number (targets.superclass at.now.reader.q.world.now at.now.owner)) }
{
    match superclass(alloc, at.reader.q.world, at.owner)? {
        None => Ok(None),
        Some(t) => Ok(class_number(&t)),
    }
}

fn named_in<'a>(at: &Place<'a>, class: Option<u32>, name: Name, arity: usize) -> &'a [u32]
    requires { IsReady at.now.reader.q }
    ensures { Tells at.now result.now (λ k a. targets.named_in k.facts class name arity) }
{
    match class {
        None => &[],
        Some(class) => methods_named(at, class, name, arity),
    }
}

fn put_if(wanted: bool, m: u32, found: Items<u32>) -> Result<Items<u32>, NoMemory>
    ensures { IfOk result (λ ms. ms ≡ (if wanted then found ++ (m ∷ []) else found)) }
{
    let mut found = found;
    if wanted {
        found.push(m)?;
    }
    Ok(found)
}

fn hidden_among(
    alloc: Global,
    at: &Place<'_>,
    info: &MethodInfo,
    methods: &[u32],
) -> Result<Items<u32>, NoMemory>
    requires { IsReady at.now.reader.q }
    ensures { Gives at.now result (λ k a. filter (spec.hides k a info.now) methods.now) }
{
    let mut hidden = Items::new(alloc);
    for m in methods {
        let wanted = hides(alloc, at, info, *m)?;
        hidden = put_if(wanted, *m, hidden)?;
    }
    Ok(hidden)
}

/// The static methods that a static method hides.
fn hidden_by(alloc: Global, at: &Place<'_>, info: &MethodInfo) -> Result<Items<u32>, NoMemory>
    requires { IsReady at.now.reader.q }
    ensures { Gives at.now result (λ k a. spec.hidden_by k a info.now) }
{
    if is_static(info) {
        let class = class_above(alloc, at)?;
        let methods = named_in(at, class, info.name, info.params.len());
        return hidden_among(alloc, at, info, methods);
    }
    Ok(Items::new(alloc))
}

// ---- parameters, at the parameter

fn hidden_param(
    t: &JavaType,
    other: Option<&JavaType>,
    node: u32,
    links: Items<Link>,
) -> Result<Items<Link>, NoMemory>
    ensures { IfOk result (λ r. r ≡ spec.hidden_param t.now (option_copied other.entry) node links) }
{
    match other {
        None => Ok(links),
        Some(u) => {
            let links = need_maybe(head_mark(t), node, Kind::Overload, links)?;
            let links = need_maybe(head_mark(u), node, Kind::Overload, links)?;
            all_equal(args_of(t), args_of(u), node, links)
        }
    }
}

fn hidden_params(
    at: &Place<'_>,
    t: &JavaType,
    index: usize,
    node: u32,
    hidden: &[u32],
    mut links: Items<Link>,
) -> Result<Items<Link>, NoMemory>
    ensures { IfOk result (λ r. r ≡ spec.hidden_params (where_of at.now) t.now index node hidden.now links) }
{
    for m in hidden {
        links = hidden_param(t, param_declared(at, *m, index), node, links)?;
    }
    Ok(links)
}

fn same_param(
    t: &JavaType,
    other: Option<&JavaType>,
    node: u32,
    links: Items<Link>,
) -> Result<Items<Link>, NoMemory>
    ensures { IfOk result (λ r. r ≡ spec.same_param t.now (option_copied other.entry) node links) }
{
    match other {
        None => Ok(links),
        Some(u) => {
            let links = equal(head_mark(t), head_mark(u), node, Kind::Override, links)?;
            all_equal(args_of(t), args_of(u), node, links)
        }
    }
}

fn unless_first(
    other: bool,
    at: &Place<'_>,
    first: u32,
    t: &JavaType,
    index: usize,
    node: u32,
    links: Items<Link>,
) -> Result<Items<Link>, NoMemory>
    ensures { IfOk result (λ r. r ≡ spec.unless_first (not other) (where_of at.now) first t.now index node links) }
{
    if other {
        return same_param(t, param_declared(at, first, index), node, links);
    }
    Ok(links)
}

/// A parameter stays equal to the same parameter of the first method of the family.
fn family_param(
    at: &Place<'_>,
    m: u32,
    t: &JavaType,
    index: usize,
    node: u32,
    family: &[u32],
    links: Items<Link>,
) -> Result<Items<Link>, NoMemory>
    ensures { IfOk result (λ r. r ≡ spec.family_param (where_of at.now) m t.now index node family.now links) }
{
    match family.first() {
        None => Ok(links),
        Some(first) => unless_first(is_other(*first, m), at, *first, t, index, node, links),
    }
}

fn need_all_if(
    several: bool,
    places: &[u32],
    node: u32,
    links: Items<Link>,
) -> Result<Items<Link>, NoMemory>
    ensures { IfOk result (λ r. r ≡ spec.need_all_if several places.now node links) }
{
    if several {
        return need_all(places, node, Kind::Overload, links);
    }
    Ok(links)
}

fn need_maybe_if(
    double: bool,
    place: Option<u32>,
    node: u32,
    links: Items<Link>,
) -> Result<Items<Link>, NoMemory>
    ensures { IfOk result (λ r. r ≡ spec.need_maybe_if double place node links) }
{
    if double {
        return need_maybe(place, node, Kind::Overload, links);
    }
    Ok(links)
}

/// A parameter beside other signatures of the group.
fn param_in_group(
    alloc: Global,
    at: &Place<'_>,
    m: u32,
    info: &MethodInfo,
    t: &JavaType,
    node: u32,
    links: Items<Link>,
) -> Result<Items<Link>, NoMemory>
    requires { IsReady at.now.reader.q }
    ensures { Gives at.now result (λ k a. spec.param_in_group k a m info.now t.now node links) }
{
    let places = places_of(alloc, t)?;
    let several = is_several(alloc, at, m, info)?;
    let double = has_double(alloc, at, m, info)?;
    let links = need_all_if(several, places.as_slice(), node, links)?;
    need_maybe_if(double, head_mark(t), node, links)
}

fn param_with(
    alloc: Global,
    at: &Place<'_>,
    m: u32,
    info: &MethodInfo,
    hidden: &[u32],
    t: &JavaType,
    index: usize,
    node: u32,
    links: Items<Link>,
) -> Result<Items<Link>, NoMemory>
    requires { IsReady at.now.reader.q }
    ensures { Gives at.now result (λ k a. spec.param_with (marking.places_of t.now) k a m info.now hidden.now t.now index node links) }
{
    let places = places_of(alloc, t)?;
    if places.as_slice().is_empty() {
        return Ok(links);
    }
    let grouped = param_in_group(alloc, at, m, info, t, node, links)?;
    let tied = family_param(at, m, t, index, node, family(at, m), grouped)?;
    hidden_params(at, t, index, node, hidden, tied)
}

fn param(
    alloc: Global,
    at: &Place<'_>,
    m: u32,
    info: &MethodInfo,
    hidden: &[u32],
    index: usize,
    x: &CoreParam,
    links: Items<Link>,
) -> Result<Items<Link>, NoMemory>
    requires { IsReady at.now.reader.q }
    ensures { Gives at.now result (λ k a. spec.param_of (table.param_mark a.reading.marks m index) k a m info.now hidden.now index x.now.node.id links) }
{
    match at.reader.marks.param(m, index) {
        None => Ok(links),
        Some(t) => param_with(alloc, at, m, info, hidden, t, index, x.node.id, links),
    }
}

fn params(
    alloc: Global,
    at: &Place<'_>,
    m: u32,
    info: &MethodInfo,
    hidden: &[u32],
    xs: &[CoreParam],
    mut links: Items<Link>,
) -> Result<Items<Link>, NoMemory>
    requires { IsReady at.now.reader.q }
    ensures { Gives at.now result (λ k a. spec.params k a m info.now hidden.now 0 (map param_plain xs.now) links) }
{
    for (index, x) in xs.iter().enumerate() {
        links = param(alloc, at, m, info, hidden, index, x, links)?;
    }
    Ok(links)
}

// ---- results, at the method

fn overridden_among(
    alloc: Global,
    at: &Place<'_>,
    m: u32,
    methods: &[u32],
) -> Result<Items<u32>, NoMemory>
    requires { IsReady at.now.reader.q }
    ensures { Gives at.now result (λ k a. filter (k.ties.overrides m) methods.now) }
{
    let mut found = Items::new(alloc);
    for j in methods {
        found = put_if(overrides(at, m, *j), *j, found)?;
    }
    Ok(found)
}

/// The methods that a method overrides.
fn overridden_by(alloc: Global, at: &Place<'_>, m: u32) -> Result<Items<u32>, NoMemory>
    requires { IsReady at.now.reader.q }
    ensures { Gives at.now result (λ k a. spec.overridden_by k m) }
{
    overridden_among(alloc, at, m, family(at, m))
}

/// Whether one method overrides another one, and not the other way round.
fn overrides_alone(at: &Place<'_>, m: u32, j: u32) -> bool
    requires { IsReady at.now.reader.q }
    ensures { Tells at.now result (λ k a. k.ties.overrides m j && not (k.ties.overrides j m)) }
{
    if overrides(at, m, j) {
        return !overrides(at, j, m);
    }
    false
}

fn stands_before(at: &Place<'_>, m: u32, j: u32) -> bool
    requires { IsReady at.now.reader.q }
    ensures { Tells at.now result (λ k a. not (m == j) && (k.ties.overrides m j && not (k.ties.overrides j m))) }
{
    if is_other(m, j) {
        return overrides_alone(at, m, j);
    }
    false
}

/// Whether one of these methods stands between a method and one of them that it overrides. Of two that override each other none stands before the other.
fn is_behind(at: &Place<'_>, overridden: &[u32], j: u32) -> bool
    requires { IsReady at.now.reader.q }
    ensures { Tells at.now result (λ k a. spec.is_behind k overridden.now j) }
{
    for m in overridden {
        if stands_before(at, *m, j) {
            return true;
        }
    }
    false
}

fn result_head(
    alloc: Global,
    at: &Place<'_>,
    t: &JavaType,
    u: &JavaType,
    node: u32,
    links: Items<Link>,
) -> Result<Items<Link>, NoMemory>
    requires { IsReady at.now.reader.q }
    ensures { Gives at.now result (λ k a. spec.result_head k t.now u.now (marking.head_mark t.now) (marking.head_mark u.now) node links) }
{
    match head_mark(t) {
        None => equal_arguments(alloc, at, t, u, node, links),
        Some(place) => match head_mark(u) {
            Some(to) => step(place, to, node, Kind::Result, links),
            None => {
                let met = new_fits(alloc, at, t, u)?;
                need_unless(met, place, node, Kind::Result, links)
            }
        },
    }
}

/// The new result of a method goes to that of one which it overrides or hides.
fn result_for(
    alloc: Global,
    at: &Place<'_>,
    t: &JavaType,
    other: Option<&JavaType>,
    node: u32,
    links: Items<Link>,
) -> Result<Items<Link>, NoMemory>
    requires { IsReady at.now.reader.q }
    ensures { Gives at.now result (λ k a. spec.result_for k t.now (option_copied other.entry) node links) }
{
    match other {
        None => Ok(links),
        Some(u) => result_head(alloc, at, t, u, node, links),
    }
}

fn result_unless(
    alloc: Global,
    at: &Place<'_>,
    behind: bool,
    t: &JavaType,
    j: u32,
    node: u32,
    links: Items<Link>,
) -> Result<Items<Link>, NoMemory>
    requires { IsReady at.now.reader.q }
    ensures { Gives at.now result (λ k a. spec.result_unless behind k a t.now j node links) }
{
    if behind {
        return Ok(links);
    }
    result_for(alloc, at, t, result_declared(at, j), node, links)
}

fn for_overridden(
    alloc: Global,
    at: &Place<'_>,
    t: &JavaType,
    node: u32,
    methods: &[u32],
    mut links: Items<Link>,
) -> Result<Items<Link>, NoMemory>
    requires { IsReady at.now.reader.q }
    ensures { Gives at.now result (λ k a. spec.for_overridden k a t.now node methods.now methods.now links) }
{
    for j in methods {
        let behind = is_behind(at, methods, *j);
        links = result_unless(alloc, at, behind, t, *j, node, links)?;
    }
    Ok(links)
}

fn for_hidden(
    alloc: Global,
    at: &Place<'_>,
    t: &JavaType,
    node: u32,
    hidden: &[u32],
    mut links: Items<Link>,
) -> Result<Items<Link>, NoMemory>
    requires { IsReady at.now.reader.q }
    ensures { Gives at.now result (λ k a. spec.for_hidden k a t.now node hidden.now links) }
{
    for j in hidden {
        links = result_for(alloc, at, t, result_declared(at, *j), node, links)?;
    }
    Ok(links)
}

fn result_with(
    alloc: Global,
    at: &Place<'_>,
    m: u32,
    hidden: &[u32],
    t: &JavaType,
    node: u32,
    links: Items<Link>,
) -> Result<Items<Link>, NoMemory>
    requires { IsReady at.now.reader.q }
    ensures { Gives at.now result (λ k a. spec.result_with (marking.places_of t.now) k a m hidden.now t.now node links) }
{
    let places = places_of(alloc, t)?;
    if places.as_slice().is_empty() {
        return Ok(links);
    }
    let overridden = overridden_by(alloc, at, m)?;
    let placed = for_overridden(alloc, at, t, node, overridden.as_slice(), links)?;
    for_hidden(alloc, at, t, node, hidden, placed)
}

fn result(
    alloc: Global,
    at: &Place<'_>,
    m: u32,
    hidden: &[u32],
    node: u32,
    links: Items<Link>,
) -> Result<Items<Link>, NoMemory>
    requires { IsReady at.now.reader.q }
    ensures { Gives at.now result (λ k a. spec.result (table.result_mark a.reading.marks m) k a m hidden.now node links) }
{
    match at.reader.marks.result(m) {
        None => Ok(links),
        Some(t) => result_with(alloc, at, m, hidden, t, node, links),
    }
}

// ---- a method or constructor

fn declared(
    alloc: Global,
    at: &Place<'_>,
    method: &CoreMethod,
    info: &MethodInfo,
    hidden: &[u32],
    links: Items<Link>,
) -> Result<Items<Link>, NoMemory>
    requires { IsReady at.now.reader.q }
    ensures { Gives at.now result (λ k a. spec.declared k a (method_plain method.now) info.now hidden.now links) }
{
    let links = result(alloc, at, method.method, hidden, method.node.id, links)?;
    params(
        alloc,
        at,
        method.method,
        info,
        hidden,
        method.params.as_slice(),
        links,
    )
}

/// The declaration of a method or constructor.
pub(crate) fn declaration(
    alloc: Global,
    at: &Place<'_>,
    method: &CoreMethod,
    links: Items<Link>,
) -> Result<Items<Link>, NoMemory>
    requires { IsReady at.now.reader.q }
    ensures { Gives at.now result (λ k a. spec.declaration k a (method_plain method.now) links) }
{
    match method_info(at, method.method) {
        None => Ok(links),
        Some(info) => {
            let hidden = hidden_by(alloc, at, info)?;
            declared(alloc, at, method, info, hidden.as_slice(), links)
        }
    }
}
