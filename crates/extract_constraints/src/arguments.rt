//! Arguments: to the parameters of a group of one signature, or among the candidates of several (JLS 15.12.2).

ghost use Rattle.std.specs.Prelude.{◌≡◌, ◌&&◌, ◌||◌, not, IfOk, Some};
ghost use Rattle.std.specs.List.{list_any};
ghost use Rattle.std.specs.Option.{option_copied, option_map};
ghost use Rattle.class_world.specs.Inheritance as inheritance;
ghost use Rattle.java_core.specs.View.{maybe, plain, plains};
ghost use Rattle.kept_places.specs.declared.links.Kind.TheVariants as kind;
ghost use Rattle.type_kinds.specs.Kinds as kinds;
ghost use Rattle.type_facts.specs.Facts.{IsReady};
ghost use Rattle.type_facts.specs.Members as members;
ghost use Rattle.marked_types.specs.Marked as marking;
ghost use Rattle.extract_constraints.specs.Arguments as spec;
ghost use Rattle.extract_constraints.specs.Arguments.{call_of};
ghost use Rattle.extract_constraints.specs.Flows as flowing;
ghost use Rattle.extract_constraints.specs.Told as told;
ghost use Rattle.extract_constraints.specs.Told.{Gives, Tells, where_of};

use crate::flows::{new_fits, value_to_maybe};
use crate::groups::{is_several, own_type, super_type};
use crate::place::{
    Place, fits, method_info, methods_named, need_all, need_unless, sees, super_as, value_type,
};
use crate::receivers::{is_static, method_use, methods_of};
use class_world::{JavaType, MethodInfo, copied};
use java_core::{Before, CoreExpr};
use java_tree::{Boxed, Items, NoMemory};
use kept_places::{Kind, Link};
use marked_types::marking::{head_mark, is_number, mentions, own_mark, places_of};
use std::alloc::Global;
use type_facts::seen::{Seen, as_seen, seen_by};
use type_kinds::kinds::{args_of, class_number};

/// A call of a method or constructor: its node, the type that has it, with marks and without, and whether a simple name may name any method of that type.
#[derive(Clone, Copy)]
pub struct Called<'a> {
    pub node: u32,
    pub marked: &'a JavaType,
    pub ty: &'a JavaType,
    pub free: bool,
    pub method: u32,
    pub info: &'a MethodInfo,
}

/// How a type sees what a method or constructor declares (JLS 4.5.2, 4.8).
fn seen_method(
    alloc: Global,
    at: &Place<'_>,
    t: &JavaType,
    info: &MethodInfo,
) -> Result<Seen, NoMemory>
    requires { IsReady at.now.reader.q }
    ensures { Gives at.now result (λ k a. spec.seen_method k t.now info.now) }
{
    seen_by(alloc, &at.reader.q, t, info.owner, is_static(info))
}

fn param_seen(
    alloc: Global,
    seen: &Seen,
    types: &[JavaType],
    index: usize,
) -> Result<Option<JavaType>, NoMemory>
    ensures { IfOk result (λ r. r ≡ spec.param_seen seen.now types.now index) }
{
    match types.get(index) {
        None => Ok(None),
        Some(t) => Ok(Some(as_seen(alloc, seen, t)?)),
    }
}

// ---- a group of one signature

fn param_type(
    alloc: Global,
    at: &Place<'_>,
    call: &Called<'_>,
    index: usize,
) -> Result<Option<JavaType>, NoMemory>
    requires { IsReady at.now.reader.q }
    ensures { Gives at.now result (λ k a. spec.param_type k a (call_of call.now) index) }
{
    match at.reader.marks.param(call.method, index) {
        Some(t) => Ok(Some(copied(alloc, t)?)),
        None => {
            let seen = seen_method(alloc, at, call.marked, call.info)?;
            param_seen(alloc, &seen, call.info.params.as_slice(), index)
        }
    }
}

fn to_param(
    alloc: Global,
    at: &Place<'_>,
    locals: &[JavaType],
    call: &Called<'_>,
    index: usize,
    x: &CoreExpr,
    links: Items<Link>,
) -> Result<Items<Link>, NoMemory>
    requires { IsReady at.now.reader.q }
    ensures { Gives at.now result (λ k a. flowing.value_to_maybe k a locals.now (plain x.now) (spec.param_type k a (call_of call.now) index) links) }
{
    let t = param_type(alloc, at, call, index)?;
    value_to_maybe(alloc, at, locals, x, t.as_ref(), links)
}

fn to_params(
    alloc: Global,
    at: &Place<'_>,
    locals: &[JavaType],
    call: &Called<'_>,
    xs: &[CoreExpr],
    mut links: Items<Link>,
) -> Result<Items<Link>, NoMemory>
    requires { IsReady at.now.reader.q }
    ensures { Gives at.now result (λ k a. spec.to_params k a locals.now (call_of call.now) 0 (plains xs.now) links) }
{
    for (index, x) in xs.iter().enumerate() {
        links = to_param(alloc, at, locals, call, index, x, links)?;
    }
    Ok(links)
}

// ---- candidates

/// The class whose members a type has (JLS 4.4, 10.7).
fn holder(t: &JavaType) -> Option<u32>
    ensures { result ≡ inheritance.holder t.now }
{
    match t {
        JavaType::Prim(_) => None,
        JavaType::Null => None,
        JavaType::Class(class, _) => Some(*class),
        JavaType::Var(_) => Some(0),
        JavaType::Array(_) => Some(0),
    }
}

/// The methods or constructors among which a call chooses, whether or not they may be named.
fn named<'a>(at: &Place<'a>, call: &Called<'_>) -> &'a [u32]
    requires { IsReady at.now.reader.q }
    ensures { Tells at.now result.now (λ k a. spec.named k a (call_of call.now)) }
{
    match holder(call.ty) {
        None => &[],
        Some(class) => {
            if call.info.constructor {
                methods_of(at.reader.q.world, class)
            } else {
                methods_named(at, class, call.info.name, call.info.params.len())
            }
        }
    }
}

fn same(a: bool, b: bool) -> bool
    ensures { result ≡ spec.same a b }
{
    if a { b } else { !b }
}

fn is_like(call: &Called<'_>, info: &MethodInfo) -> bool
    ensures { result ≡ spec.is_like (call_of call.now) info.now }
{
    same(call.info.constructor, info.constructor) && info.params.len() == call.info.params.len()
}

fn may_name(at: &Place<'_>, call: &Called<'_>, m: u32) -> bool
    requires { IsReady at.now.reader.q }
    ensures { Tells at.now result (λ k a. call.now.free || spec.sees k a m) }
{
    if call.free {
        return true;
    }
    sees(at, m)
}

fn is_candidate(at: &Place<'_>, call: &Called<'_>, m: u32, info: &MethodInfo) -> bool
    requires { IsReady at.now.reader.q }
    ensures { Tells at.now result (λ k a. spec.is_like (call_of call.now) info.now && (call.now.free || spec.sees k a m)) }
{
    if is_like(call, info) {
        return may_name(at, call, m);
    }
    false
}

/// The method of a number, where it may be named and takes so many arguments.
fn candidate<'a>(at: &Place<'a>, call: &Called<'_>, m: u32) -> Option<&'a MethodInfo>
    requires { IsReady at.now.reader.q }
    ensures { Tells at.now (option_copied result) (λ k a. spec.candidate k a (call_of call.now) m) }
{
    match method_info(at, m) {
        None => None,
        Some(info) => {
            if is_candidate(at, call, m, info) {
                Some(info)
            } else {
                None
            }
        }
    }
}

// ---- a group of several

fn some_mark(types: &[JavaType], place: u32) -> bool
    ensures { result ≡ list_any (λ x. marking.is_number (marking.own_mark x) place) types.now }
{
    for t in types {
        if is_number(own_mark(t), place) {
            return true;
        }
    }
    false
}

fn has_place(place: u32, t: &Option<JavaType>) -> bool
    ensures { result ≡ spec.has_place place t.now }
{
    match t {
        None => false,
        Some(t) => some_mark(args_of(t), place),
    }
}

fn is_kept(before: bool, place: u32, up: &Option<JavaType>) -> bool
    ensures { result ≡ (not before || not (spec.has_place place up.now)) }
{
    if before {
        return !has_place(place, up);
    }
    true
}

/// Whether a parameter with arguments takes, as before, an argument in whose type a place among the arguments changes.
fn as_argument(
    alloc: Global,
    at: &Place<'_>,
    before: bool,
    s: &JavaType,
    place: u32,
    class: Option<u32>,
    args: &[JavaType],
) -> Result<bool, NoMemory>
    requires { IsReady at.now.reader.q }
    ensures { Gives at.now result (λ k a. spec.as_argument k before s.now place class args.now) }
{
    match class {
        None => Ok(true),
        Some(class) => {
            if args.is_empty() {
                return Ok(true);
            }
            let up = super_as(alloc, at, s, class)?;
            Ok(is_kept(before, place, &up))
        }
    }
}

fn takes_type(
    alloc: Global,
    at: &Place<'_>,
    old: &JavaType,
    s: &JavaType,
    place: u32,
    t: &JavaType,
) -> Result<bool, NoMemory>
    requires { IsReady at.now.reader.q }
    ensures { Gives at.now result (λ k a. spec.takes_alike k old.now s.now place (Some t.now)) }
{
    let before = fits(at, old, t);
    if is_number(head_mark(s), place) {
        let behind = new_fits(alloc, at, s, t)?;
        return Ok(same(before, behind));
    }
    as_argument(alloc, at, before, s, place, class_number(t), args_of(t))
}

/// Whether a parameter takes an argument as before where a place in its type changes.
fn takes_alike(
    alloc: Global,
    at: &Place<'_>,
    old: &JavaType,
    s: &JavaType,
    place: u32,
    t: &Option<JavaType>,
) -> Result<bool, NoMemory>
    requires { IsReady at.now.reader.q }
    ensures { Gives at.now result (λ k a. spec.takes_alike k old.now s.now place t.now) }
{
    match t {
        None => Ok(true),
        Some(t) => takes_type(alloc, at, old, s, place, t),
    }
}

fn candidate_alike(
    alloc: Global,
    at: &Place<'_>,
    call: &Called<'_>,
    old: &JavaType,
    s: &JavaType,
    place: u32,
    index: usize,
    info: Option<&MethodInfo>,
) -> Result<bool, NoMemory>
    requires { IsReady at.now.reader.q }
    ensures { Gives at.now result (λ k a. spec.candidate_alike k (call_of call.now) old.now s.now place index (option_copied info.entry)) }
{
    match info {
        None => Ok(true),
        Some(info) => {
            let seen = seen_method(alloc, at, call.ty, info)?;
            let t = param_seen(alloc, &seen, info.params.as_slice(), index)?;
            takes_alike(alloc, at, old, s, place, &t)
        }
    }
}

/// Whether each candidate takes an argument as before where a place in its type changes.
fn is_chosen_still(
    alloc: Global,
    at: &Place<'_>,
    call: &Called<'_>,
    old: &JavaType,
    s: &JavaType,
    place: u32,
    index: usize,
    methods: &[u32],
) -> Result<bool, NoMemory>
    requires { IsReady at.now.reader.q }
    ensures { Gives at.now result (λ k a. spec.is_chosen_still k a (call_of call.now) old.now s.now place index methods.now) }
{
    for m in methods {
        let info = candidate(at, call, *m);
        if !candidate_alike(alloc, at, call, old, s, place, index, info)? {
            return Ok(false);
        }
    }
    Ok(true)
}

fn need_each(
    alloc: Global,
    at: &Place<'_>,
    call: &Called<'_>,
    old: &JavaType,
    s: &JavaType,
    index: usize,
    node: u32,
    places: &[u32],
    mut links: Items<Link>,
) -> Result<Items<Link>, NoMemory>
    requires { IsReady at.now.reader.q }
    ensures { Gives at.now result (λ k a. spec.need_each k a (call_of call.now) old.now s.now index node places.now links) }
{
    for place in places {
        let methods = named(at, call);
        let met = is_chosen_still(alloc, at, call, old, s, *place, index, methods)?;
        links = need_unless(met, *place, node, Kind::Overload, links)?;
    }
    Ok(links)
}

fn to_candidates(
    alloc: Global,
    at: &Place<'_>,
    locals: &[JavaType],
    call: &Called<'_>,
    index: usize,
    x: &CoreExpr,
    links: Items<Link>,
) -> Result<Items<Link>, NoMemory>
    requires { IsReady at.now.reader.q }
    ensures { Gives at.now result (λ k a. spec.to_candidates k a locals.now (call_of call.now) index (plain x.now) links) }
{
    if mentions(at.reader.class, &x.ty) {
        let s = value_type(alloc, at, locals, x)?;
        let places = places_of(alloc, &s)?;
        let places = places.as_slice();
        return need_each(alloc, at, call, &x.ty, &s, index, x.node.id, places, links);
    }
    Ok(links)
}

fn all_to_candidates(
    alloc: Global,
    at: &Place<'_>,
    locals: &[JavaType],
    call: &Called<'_>,
    xs: &[CoreExpr],
    mut links: Items<Link>,
) -> Result<Items<Link>, NoMemory>
    requires { IsReady at.now.reader.q }
    ensures { Gives at.now result (λ k a. spec.all_to_candidates k a locals.now (call_of call.now) 0 (plains xs.now) links) }
{
    for (index, x) in xs.iter().enumerate() {
        links = to_candidates(alloc, at, locals, call, index, x, links)?;
    }
    Ok(links)
}

fn put_in_param(
    alloc: Global,
    seen: &Seen,
    node: u32,
    t: &JavaType,
    links: Items<Link>,
) -> Result<Items<Link>, NoMemory>
    ensures { IfOk result (λ r. r ≡ told.need_all (marking.places_of (members.as_seen seen.now t.now)) node kind.Overload links) }
{
    let t = as_seen(alloc, seen, t)?;
    let places = places_of(alloc, &t)?;
    need_all(places.as_slice(), node, Kind::Overload, links)
}

fn put_in_params(
    alloc: Global,
    seen: &Seen,
    node: u32,
    types: &[JavaType],
    mut links: Items<Link>,
) -> Result<Items<Link>, NoMemory>
    ensures { IfOk result (λ r. r ≡ spec.put_in_params seen.now node types.now links) }
{
    for t in types {
        links = put_in_param(alloc, seen, node, t, links)?;
    }
    Ok(links)
}

fn put_in_candidate(
    alloc: Global,
    at: &Place<'_>,
    call: &Called<'_>,
    info: Option<&MethodInfo>,
    links: Items<Link>,
) -> Result<Items<Link>, NoMemory>
    requires { IsReady at.now.reader.q }
    ensures { Gives at.now result (λ k a. spec.put_in_candidate k (call_of call.now) (option_copied info.entry) links) }
{
    match info {
        None => Ok(links),
        Some(info) => {
            let seen = seen_method(alloc, at, call.marked, info)?;
            put_in_params(alloc, &seen, call.node, info.params.as_slice(), links)
        }
    }
}

fn put_in_each(
    alloc: Global,
    at: &Place<'_>,
    call: &Called<'_>,
    methods: &[u32],
    mut links: Items<Link>,
) -> Result<Items<Link>, NoMemory>
    requires { IsReady at.now.reader.q }
    ensures { Gives at.now result (λ k a. spec.put_in_each k a (call_of call.now) methods.now links) }
{
    for m in methods {
        links = put_in_candidate(alloc, at, call, candidate(at, call, *m), links)?;
    }
    Ok(links)
}

fn put_with(
    alloc: Global,
    at: &Place<'_>,
    call: &Called<'_>,
    links: Items<Link>,
) -> Result<Items<Link>, NoMemory>
    requires { IsReady at.now.reader.q }
    ensures { Gives at.now result (λ k a. spec.put_with (kinds.args_of call.now.marked.now) k a (call_of call.now) links) }
{
    if args_of(call.marked).is_empty() {
        return Ok(links);
    }
    put_in_each(alloc, at, call, named(at, call), links)
}

// ---- calls

fn some_mention(class: u32, xs: &[CoreExpr]) -> bool
    ensures { result ≡ spec.some_mention class (plains xs.now) }
{
    for x in xs {
        if mentions(class, &x.ty) {
            return true;
        }
    }
    false
}

fn is_concerned(at: &Place<'_>, ty: &JavaType, xs: &[CoreExpr]) -> bool
    ensures { result ≡ spec.is_concerned (where_of at.now) ty.now (plains xs.now) }
{
    some_mention(at.reader.class, xs) || mentions(at.reader.class, ty)
}

fn to_group(
    alloc: Global,
    at: &Place<'_>,
    locals: &[JavaType],
    call: &Called<'_>,
    xs: &[CoreExpr],
    several: bool,
    links: Items<Link>,
) -> Result<Items<Link>, NoMemory>
    requires { IsReady at.now.reader.q }
    ensures { Gives at.now result (λ k a. spec.to_group several k a locals.now (call_of call.now) (plains xs.now) links) }
{
    if several {
        let links = all_to_candidates(alloc, at, locals, call, xs, links)?;
        return put_with(alloc, at, call, links);
    }
    to_params(alloc, at, locals, call, xs, links)
}

fn arguments(
    alloc: Global,
    at: &Place<'_>,
    locals: &[JavaType],
    call: &Called<'_>,
    xs: &[CoreExpr],
    links: Items<Link>,
) -> Result<Items<Link>, NoMemory>
    requires { IsReady at.now.reader.q }
    ensures { Gives at.now result (λ k a. spec.arguments k a locals.now (call_of call.now) (plains xs.now) links) }
{
    if is_concerned(at, call.ty, xs) {
        let several = is_several(alloc, at, call.method, call.info)?;
        return to_group(alloc, at, locals, call, xs, several, links);
    }
    Ok(links)
}

/// The arguments of a call of a method or constructor of a type, with marks and without; `free` says that a simple name may name any method of that type.
pub(crate) fn call(
    alloc: Global,
    at: &Place<'_>,
    locals: &[JavaType],
    node: u32,
    marked: &JavaType,
    ty: &JavaType,
    free: bool,
    method: u32,
    xs: &[CoreExpr],
    links: Items<Link>,
) -> Result<Items<Link>, NoMemory>
    requires { IsReady at.now.reader.q }
    ensures { Gives at.now result (λ k a. spec.call k a locals.now node marked.now ty.now free method (plains xs.now) links) }
{
    match method_info(at, method) {
        None => Ok(links),
        Some(info) => {
            let called = Called {
                node,
                marked,
                ty,
                free,
                method,
                info,
            };
            arguments(alloc, at, locals, &called, xs, links)
        }
    }
}

/// A call that names a method or constructor of the class around.
pub(crate) fn own_call(
    alloc: Global,
    at: &Place<'_>,
    locals: &[JavaType],
    node: u32,
    free: bool,
    method: u32,
    xs: &[CoreExpr],
    links: Items<Link>,
) -> Result<Items<Link>, NoMemory>
    requires { IsReady at.now.reader.q }
    ensures { Gives at.now result (λ k a. spec.own_call k a locals.now node free method (plains xs.now) links) }
{
    let own = own_type(alloc, at);
    call(alloc, at, locals, node, &own, &own, free, method, xs, links)
}

/// A call that names a method or constructor of the class above.
pub(crate) fn super_call(
    alloc: Global,
    at: &Place<'_>,
    locals: &[JavaType],
    node: u32,
    method: u32,
    xs: &[CoreExpr],
    links: Items<Link>,
) -> Result<Items<Link>, NoMemory>
    requires { IsReady at.now.reader.q }
    ensures { Gives at.now result (λ k a. spec.super_call k a locals.now node method (plains xs.now) links) }
{
    let above = super_type(alloc, at)?;
    call(
        alloc, at, locals, node, &above, &above, false, method, xs, links,
    )
}

fn named_call(
    alloc: Global,
    at: &Place<'_>,
    locals: &[JavaType],
    node: u32,
    before: Before,
    method: u32,
    xs: &[CoreExpr],
    links: Items<Link>,
) -> Result<Items<Link>, NoMemory>
    requires { IsReady at.now.reader.q }
    ensures { Gives at.now result (λ k a. spec.named_call k a locals.now node before method (plains xs.now) links) }
{
    match before {
        Before::Nothing => own_call(alloc, at, locals, node, true, method, xs, links),
        Before::Super => super_call(alloc, at, locals, node, method, xs, links),
        Before::Type(_, class) => {
            let t = JavaType::Class(class, Items::new(alloc));
            call(alloc, at, locals, node, &t, &t, false, method, xs, links)
        }
    }
}

fn receiver(
    alloc: Global,
    at: &Place<'_>,
    locals: &[JavaType],
    x: &CoreExpr,
) -> Result<JavaType, NoMemory>
    requires { IsReady at.now.reader.q }
    ensures { Gives at.now result (λ k a. spec.receiver k a locals.now (plain x.now)) }
{
    if mentions(at.reader.class, &x.ty) {
        return value_type(alloc, at, locals, x);
    }
    copied(alloc, &x.ty)
}

/// A method of a value is called.
pub(crate) fn value_call(
    alloc: Global,
    at: &Place<'_>,
    locals: &[JavaType],
    node: u32,
    x: &CoreExpr,
    free: bool,
    method: u32,
    xs: &[CoreExpr],
    links: Items<Link>,
) -> Result<Items<Link>, NoMemory>
    requires { IsReady at.now.reader.q }
    ensures { Gives at.now result (λ k a. spec.value_call k a locals.now node (plain x.now) free method (plains xs.now) links) }
{
    let marked = receiver(alloc, at, locals, x)?;
    let links = method_use(at, &marked, method, node, links)?;
    call(
        alloc, at, locals, node, &marked, &x.ty, free, method, xs, links,
    )
}

/// A static call, before which a type, a value or nothing stands.
pub(crate) fn static_call(
    alloc: Global,
    at: &Place<'_>,
    locals: &[JavaType],
    node: u32,
    before: Before,
    x: &Option<Boxed<CoreExpr>>,
    method: u32,
    xs: &[CoreExpr],
    links: Items<Link>,
) -> Result<Items<Link>, NoMemory>
    requires { IsReady at.now.reader.q }
    ensures { Gives at.now result (λ k a. spec.static_call k a locals.now node before (maybe (option_map plain x.now)) method (plains xs.now) links) }
{
    match x {
        None => named_call(alloc, at, locals, node, before, method, xs, links),
        Some(x) => value_call(alloc, at, locals, node, x.get(), false, method, xs, links),
    }
}
