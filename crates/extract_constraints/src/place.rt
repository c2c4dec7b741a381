//! Where code stands, the questions on its types, and links.

ghost use Rattle.std.specs.Prelude.{◌≡◌, ◌==◌, ◌↔◌, ◌<◌, IsTrue, IfOk, length};
ghost use Rattle.std.specs.Option.{option_copied};
ghost use Rattle.class_world.specs.declared.access.Declared.TheVariants as declared;
ghost use Rattle.java_core.specs.View.{plain};
ghost use Rattle.type_facts.specs.Facts.{IsReady};
ghost use Rattle.type_kinds.specs.Members.{method_at};
ghost use Rattle.extract_constraints.specs.Flows.{value_type as marked_type};
ghost use Rattle.extract_constraints.specs.Told as told;
ghost use Rattle.extract_constraints.specs.Told.{Gives, Tells};

use class_world::{Declared, JavaType, MethodInfo, World};
use java_core::CoreExpr;
use java_tree::tree::Name;
use java_tree::{Items, NoMemory};
use kept_places::{Kind, Link};
use marked_types::{Reader, read};
use std::alloc::Global;
use type_facts::asks;

/// Where code stands: in which program, with which class and marks, and the class's methods that the new interface gets; in which class and in which method's body.
#[derive(Clone, Copy)]
pub struct Place<'a> {
    pub reader: Reader<'a>,
    pub methods: &'a [u32],
    pub owner: u32,
    pub method: Option<u32>,
}

/// Whether a value of one type can be assigned to a variable of the other (JLS 5.2).
pub(crate) fn fits(at: &Place<'_>, s: &JavaType, t: &JavaType) -> bool
    requires { IsReady at.now.reader.q }
    ensures { Tells at.now result (λ k a. k.facts.fits s.now t.now) }
{
    asks::may_assign(&at.reader.q, s, t)
}

/// Whether a type is a subtype of another (JLS 4.10).
pub(crate) fn is_below(at: &Place<'_>, s: &JavaType, t: &JavaType) -> bool
    requires { IsReady at.now.reader.q }
    ensures { Tells at.now result (λ k a. k.facts.sub s.now t.now) }
{
    asks::is_below(&at.reader.q, s, t)
}

/// The supertype of a type with a class (JLS 4.10.2).
pub(crate) fn super_as(
    alloc: Global,
    at: &Place<'_>,
    t: &JavaType,
    class: u32,
) -> Result<Option<JavaType>, NoMemory>
    requires { IsReady at.now.reader.q }
    ensures { Gives at.now result (λ k a. k.facts.super_as t.now class) }
{
    asks::super_as(alloc, &at.reader.q, t, class)
}

/// The methods of a class with a name and so many parameters.
pub(crate) fn methods_named<'a>(at: &Place<'a>, class: u32, name: Name, arity: usize) -> &'a [u32]
    requires { IsReady at.now.reader.q }
    ensures { Tells at.now result.now (λ k a. k.facts.methods class name arity) }
{
    asks::methods_named(&at.reader.q, class, name, arity)
}

/// Whether the class around has access to a method (JLS 6.6).
pub(crate) fn sees(at: &Place<'_>, method: u32) -> bool
    ensures { Tells at.now result (λ k a. k.facts.sees a.owner (declared.Method method)) }
{
    asks::has_access(&at.reader.q, at.owner, Declared::Method(method))
}

/// The marked type of an expression.
pub(crate) fn value_type(
    alloc: Global,
    at: &Place<'_>,
    locals: &[JavaType],
    e: &CoreExpr,
) -> Result<JavaType, NoMemory>
    requires { IsReady at.now.reader.q }
    ensures { Gives at.now result (λ k a. marked_type k a locals.now (plain e.now)) }
{
    read(alloc, &at.reader, locals, e)
}

/// Whether two numbers are the same.
pub(crate) fn is_equal(j: u32, m: u32) -> bool
    ensures { result ≡ (j == m) }
{
    j == m
}

/// Whether a method overrides another one (JLS 8.4.8.1).
pub(crate) fn overrides(at: &Place<'_>, method: u32, other: u32) -> bool
    requires { IsReady at.now.reader.q }
    ensures { Tells at.now result (λ k a. k.ties.overrides method other) }
{
    at.reader.q.members.overrides(method, other)
}

/// A method, by its number.
pub(crate) fn method_info<'a>(at: &Place<'a>, method: u32) -> Option<&'a MethodInfo>
    ensures { option_copied result ≡ method_at at.now.reader.q.world.now method }
{
    at.reader.q.world.methods.get(method as usize)
}

fn is_known(w: &World, method: u32) -> bool
    ensures { IsTrue result ↔ (method < length w.now.methods) }
{
    (method as usize) < w.methods.len()
}

/// The methods that overriding ties to a method, its own number among them, ascending.
pub(crate) fn family<'a>(at: &Place<'a>, method: u32) -> &'a [u32]
    requires { IsReady at.now.reader.q }
    ensures { Tells at.now result.now (λ k a. k.ties.family method) }
{
    if is_known(at.reader.q.world, method) {
        at.reader.q.members.family(method)
    } else {
        &[]
    }
}

/// The methods with its name and number of parameters that some type has together with a method, its own number among them, ascending.
pub(crate) fn group<'a>(at: &Place<'a>, method: u32) -> &'a [u32]
    requires { IsReady at.now.reader.q }
    ensures { Tells at.now result.now (λ k a. k.ties.group method) }
{
    if is_known(at.reader.q.world, method) {
        at.reader.q.members.group(method)
    } else {
        &[]
    }
}

// ---- links

fn linked(link: Link, links: Items<Link>) -> Result<Items<Link>, NoMemory>
    ensures { IfOk result (λ ls. ls ≡ told.linked link links) }
{
    let mut links = links;
    links.push(link)?;
    Ok(links)
}

/// A place cannot change.
pub(crate) fn need(
    place: u32,
    node: u32,
    kind: Kind,
    links: Items<Link>,
) -> Result<Items<Link>, NoMemory>
    ensures { IfOk result (λ ls. ls ≡ told.need place node kind links) }
{
    let link = Link {
        from: place,
        node,
        kind,
        to: None,
    };
    linked(link, links)
}

/// A place changes another one.
pub(crate) fn step(
    place: u32,
    to: u32,
    node: u32,
    kind: Kind,
    links: Items<Link>,
) -> Result<Items<Link>, NoMemory>
    ensures { IfOk result (λ ls. ls ≡ told.step place to node kind links) }
{
    let link = Link {
        from: place,
        node,
        kind,
        to: Some(to),
    };
    linked(link, links)
}

pub(crate) fn need_all(
    places: &[u32],
    node: u32,
    kind: Kind,
    mut links: Items<Link>,
) -> Result<Items<Link>, NoMemory>
    ensures { IfOk result (λ ls. ls ≡ told.need_all places.now node kind links) }
{
    for place in places {
        links = need(*place, node, kind, links)?;
    }
    Ok(links)
}

pub(crate) fn need_maybe(
    place: Option<u32>,
    node: u32,
    kind: Kind,
    links: Items<Link>,
) -> Result<Items<Link>, NoMemory>
    ensures { IfOk result (λ ls. ls ≡ told.need_maybe place node kind links) }
{
    match place {
        None => Ok(links),
        Some(place) => need(place, node, kind, links),
    }
}

pub(crate) fn need_unless(
    met: bool,
    place: u32,
    node: u32,
    kind: Kind,
    links: Items<Link>,
) -> Result<Items<Link>, NoMemory>
    ensures { IfOk result (λ ls. ls ≡ told.need_unless met place node kind links) }
{
    if met {
        return Ok(links);
    }
    need(place, node, kind, links)
}
