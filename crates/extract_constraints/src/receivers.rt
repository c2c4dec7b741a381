//! Members of a value that is of the class: the new interface has them, or the value's type stays.

ghost use Rattle.std.specs.Prelude.{◌≡◌, ◌&&◌, slice_get, Some};
ghost use Rattle.std.specs.Option.{option_copied, option_map};
ghost use Rattle.java_core.specs.View.{maybe, plain};
ghost use Rattle.member_uses.specs.Targets.{is_static_method};
ghost use Rattle.type_facts.specs.Facts.{IsReady};
ghost use Rattle.type_kinds.specs.Members.{method_at};
ghost use Rattle.extract_constraints.specs.Flows.{world};
ghost use Rattle.extract_constraints.specs.Receivers as spec;
ghost use Rattle.extract_constraints.specs.Told.{Gives, Tells};

use crate::groups::is_among;
use crate::place::{Place, is_equal, method_info, need_maybe, need_unless, overrides, value_type};
use class_world::{JavaType, MethodInfo, World};
use java_core::CoreExpr;
use java_tree::tree::Mod;
use java_tree::{Boxed, Items, NoMemory};
use kept_places::{Kind, Link};
use marked_types::marking::{mentions, own_mark};
use std::alloc::Global;
use type_kinds::kinds::has;

/// Whether a method is static (JLS 8.4.3.2).
pub(crate) fn is_static(info: &MethodInfo) -> bool
    ensures { result ≡ is_static_method info.now }
{
    has(Mod::Static, info.mods.as_slice())
}

/// The methods that a type declares, by its number.
pub(crate) fn methods_of(w: &World, class: u32) -> &[u32]
    ensures { result.now ≡ spec.methods_of (slice_get w.now.types class) }
{
    match w.types.get(class as usize) {
        None => &[],
        Some(info) => info.methods.as_slice(),
    }
}

fn is_public_method(info: Option<&MethodInfo>) -> bool
    ensures { result ≡ spec.is_public_method (option_copied info.entry) }
{
    match info {
        None => false,
        Some(info) => {
            if info.constructor {
                return false;
            }
            has(Mod::Public, info.mods.as_slice())
        }
    }
}

fn is_one(at: &Place<'_>, m: u32, j: u32) -> bool
    requires { IsReady at.now.reader.q }
    ensures { Tells at.now result (λ k a. spec.is_one k m j) }
{
    if is_equal(j, m) {
        return true;
    }
    overrides(at, m, j)
}

fn is_public_one(at: &Place<'_>, m: u32, j: u32) -> bool
    requires { IsReady at.now.reader.q }
    ensures { Tells at.now result (λ k a. spec.is_public_method (method_at (world a) j) && spec.is_one k m j) }
{
    if is_public_method(method_info(at, j)) {
        return is_one(at, m, j);
    }
    false
}

/// Whether a method is a public one of Object, which an interface has too (JLS 9.2), or overrides one.
fn is_of_object(at: &Place<'_>, m: u32) -> bool
    requires { IsReady at.now.reader.q }
    ensures { Tells at.now result (λ k a. spec.is_of_object k a m) }
{
    let methods = methods_of(at.reader.q.world, 0);
    for j in methods {
        if is_public_one(at, m, *j) {
            return true;
        }
    }
    false
}

fn answers_info(at: &Place<'_>, m: u32, info: &MethodInfo) -> bool
    requires { IsReady at.now.reader.q }
    ensures { Tells at.now result (λ k a. spec.answers_info k a m (Some info.now)) }
{
    if is_static(info) {
        return false;
    }
    if is_among(at.methods, m) {
        return true;
    }
    is_of_object(at, m)
}

/// Whether the new interface has an instance method that a call chooses, or one that it overrides.
fn answers_still(at: &Place<'_>, m: u32) -> bool
    requires { IsReady at.now.reader.q }
    ensures { Tells at.now result (λ k a. spec.answers_still k a m) }
{
    match method_info(at, m) {
        None => false,
        Some(info) => answers_info(at, m, info),
    }
}

/// A method of a value of this type is called at a node.
pub(crate) fn method_use(
    at: &Place<'_>,
    receiver: &JavaType,
    m: u32,
    node: u32,
    links: Items<Link>,
) -> Result<Items<Link>, NoMemory>
    requires { IsReady at.now.reader.q }
    ensures { Gives at.now result (λ k a. spec.method_use k a receiver.now m node links) }
{
    match own_mark(receiver) {
        None => Ok(links),
        Some(place) => need_unless(answers_still(at, m), place, node, Kind::Member, links),
    }
}

/// A field of a value is used at a node: an interface has none.
pub(crate) fn field_use(
    alloc: Global,
    at: &Place<'_>,
    locals: &[JavaType],
    x: &CoreExpr,
    node: u32,
    links: Items<Link>,
) -> Result<Items<Link>, NoMemory>
    requires { IsReady at.now.reader.q }
    ensures { Gives at.now result (λ k a. spec.field_use k a locals.now (plain x.now) node links) }
{
    if mentions(at.reader.class, &x.ty) {
        let receiver = value_type(alloc, at, locals, x)?;
        return need_maybe(own_mark(&receiver), node, Kind::Field, links);
    }
    Ok(links)
}

/// The same for a static field, before which a value may stand.
pub(crate) fn maybe_field_use(
    alloc: Global,
    at: &Place<'_>,
    locals: &[JavaType],
    x: &Option<Boxed<CoreExpr>>,
    node: u32,
    links: Items<Link>,
) -> Result<Items<Link>, NoMemory>
    requires { IsReady at.now.reader.q }
    ensures { Gives at.now result (λ k a. spec.maybe_field_use k a locals.now (maybe (option_map plain x.now)) node links) }
{
    match x {
        None => Ok(links),
        Some(x) => field_use(alloc, at, locals, x.get(), node, links),
    }
}
