//! Methods whose own declared types change.

ghost use Rattle.std.specs.Prelude.{◌≡◌, ◌==◌, ◌||◌, ◌&&◌, not, option_and_then, slice_get, IfOk, Some};
ghost use Rattle.std.specs.List.{list_any};
ghost use Rattle.std.specs.Option.{option_copied, option_map};
ghost use Rattle.java_tree.specs.declared.tree.Mod.TheVariants as mods;
ghost use Rattle.java_core.specs.View.{method_plain, param_plain};
ghost use Rattle.type_kinds.specs.Kinds as kinds;
ghost use Rattle.type_kinds.specs.Members.{method_at};
ghost use Rattle.type_places.specs.Changes as change;
ghost use Rattle.type_facts.specs.Facts.{AreFacts, Facts, IsReady};
ghost use Rattle.member_uses.specs.Targets as targets;
ghost use Rattle.type_constraints.specs.Arguments as groups;
ghost use Rattle.type_constraints.specs.Asked.{AreTies, Gives, Tells, Ties, asked};
ghost use Rattle.type_constraints.specs.Declarations as spec;

use crate::groups::{are_tied, have_one_erasure, is_several, own_type};
use crate::place::{Place, family, fits, group, overrides};
use crate::receivers::named_in;
use crate::results::{is_static_method, result_after, result_on};
use crate::unmet::{Constraint, Unmet, unless};
use class_world::{JavaType, MethodInfo, World};
use java_core::{CoreMethod, CoreParam};
use java_tree::NoMemory;
use java_tree::tree::{Mod, Name, Node};
use member_uses::superclass;
use std::alloc::Global;
use type_kinds::kinds::{class_number, element, has, is_string};

// ---- methods that stay as they are

fn is_user_type(w: &World, class: u32) -> bool
    ensures { result ≡ spec.is_user_type (slice_get w.now.types class) }
{
    match w.types.get(class as usize) {
        None => false,
        Some(info) => info.user,
    }
}

fn is_foreign_method(w: &World, k: u32) -> bool
    ensures { result ≡ spec.is_foreign_method w.now (method_at w.now k) }
{
    match w.methods.get(k as usize) {
        None => false,
        Some(info) => !is_user_type(w, info.owner),
    }
}

fn some_foreign(w: &World, methods: &[u32]) -> bool
    ensures { result ≡ list_any (λ k. spec.is_foreign_method w.now (method_at w.now k)) methods.now }
{
    for k in methods {
        if is_foreign_method(w, *k) {
            return true;
        }
    }
    false
}

/// Whether a library or built-in type declares one of a method's family.
fn is_foreign(at: &Place<'_>, m: u32) -> bool
    requires { IsReady at.now.q }
    ensures { Tells at.now result (λ a. spec.is_foreign a m) }
{
    some_foreign(at.q.world, family(at, m))
}

fn is_string_array(t: Option<&JavaType>) -> bool
    ensures { result ≡ spec.is_string_array (option_copied t.entry) }
{
    match t {
        None => false,
        Some(t) => is_string(t),
    }
}

fn is_one_array(types: &[JavaType]) -> bool
    ensures { result ≡ spec.is_one_array types.now }
{
    match types.split_first() {
        None => false,
        Some((t, rest)) => {
            if rest.is_empty() {
                return is_string_array(element(t));
            }
            false
        }
    }
}

fn is_name(name: Name, wanted: Option<Name>) -> bool
    ensures { result ≡ spec.is_name name wanted }
{
    match wanted {
        None => false,
        Some(other) => name.0 == other.0,
    }
}

fn is_public_and_static(info: &MethodInfo) -> bool
    ensures { result ≡ (kinds.has mods.Public info.now.mods && kinds.has mods.Static info.now.mods) }
{
    if has(Mod::Public, info.mods.as_slice()) {
        return has(Mod::Static, info.mods.as_slice());
    }
    false
}

/// Whether a method is the one that a run begins with (JLS 12.1.4).
fn is_main(at: &Place<'_>, info: &MethodInfo) -> bool
    ensures { Tells at.now result (λ a. spec.is_main a info.now) }
{
    if info.constructor {
        return false;
    }
    if !is_name(info.name, at.main) {
        return false;
    }
    if !is_public_and_static(info) {
        return false;
    }
    if info.result.is_some() {
        return false;
    }
    is_one_array(info.params.as_slice())
}

fn stays(at: &Place<'_>, m: u32, info: &MethodInfo) -> bool
    requires { IsReady at.now.q }
    ensures { Tells at.now result (λ a. spec.is_main a info.now || spec.is_foreign a m) }
{
    if is_main(at, info) {
        return true;
    }
    is_foreign(at, m)
}

// ---- signatures beside it

fn have_one_erasure_with(
    alloc: Global,
    at: &Place<'_>,
    info: &MethodInfo,
    k: u32,
) -> Result<bool, NoMemory>
    requires { IsReady at.now.q }
    ensures { Gives at.now result (λ a. spec.have_one_erasure_with a info.now (method_at a.world k)) }
{
    match at.q.world.methods.get(k as usize) {
        None => Ok(false),
        Some(other) => have_one_erasure(alloc, at, info, other),
    }
}

fn is_among(numbers: &[u32], k: u32) -> bool
    ensures { result ≡ list_any (λ j. j == k) numbers.now }
{
    for j in numbers {
        if *j == k {
            return true;
        }
    }
    false
}

fn is_of_family(at: &Place<'_>, m: u32, k: u32) -> bool
    requires { IsReady at.now.q }
    ensures { Tells at.now result (λ a. spec.is_of_family a m k) }
{
    is_among(family(at, m), k)
}

fn is_double(
    alloc: Global,
    at: &Place<'_>,
    m: u32,
    info: &MethodInfo,
    k: u32,
) -> Result<bool, NoMemory>
    requires { IsReady at.now.q }
    ensures { Gives at.now result (λ a. not (groups.are_tied a m k) && spec.have_one_erasure_with a info.now (method_at a.world k) && not (spec.is_of_family a m k)) }
{
    if are_tied(at, m, k) {
        return Ok(false);
    }
    if have_one_erasure_with(alloc, at, info, k)? {
        return Ok(!is_of_family(at, m, k));
    }
    Ok(false)
}

/// Whether another method of the group has a method's signature, and is not of its family.
fn has_double(alloc: Global, at: &Place<'_>, m: u32, info: &MethodInfo) -> Result<bool, NoMemory>
    requires { IsReady at.now.q }
    ensures { Gives at.now result (λ a. spec.has_double a m info.now) }
{
    let others = group(at, m);
    for k in others {
        if is_double(alloc, at, m, info, *k)? {
            return Ok(true);
        }
    }
    Ok(false)
}

fn has_other(alloc: Global, at: &Place<'_>, m: u32, info: &MethodInfo) -> Result<bool, NoMemory>
    requires { IsReady at.now.q }
    ensures { Gives at.now result (λ a. groups.is_several a m info.now || spec.has_double a m info.now) }
{
    if is_several(alloc, at, m, info)? {
        return Ok(true);
    }
    has_double(alloc, at, m, info)
}

// ---- static methods that it hides (JLS 8.4.8.2)

fn is_hidden_method(
    alloc: Global,
    at: &Place<'_>,
    info: &MethodInfo,
    other: &MethodInfo,
) -> Result<bool, NoMemory>
    requires { IsReady at.now.q }
    ensures { Gives at.now result (λ a. spec.is_hidden_method a info.now (Some other.now)) }
{
    if is_static_method(other) {
        return have_one_erasure(alloc, at, info, other);
    }
    Ok(false)
}

fn is_hidden(alloc: Global, at: &Place<'_>, info: &MethodInfo, k: u32) -> Result<bool, NoMemory>
    requires { IsReady at.now.q }
    ensures { Gives at.now result (λ a. spec.is_hidden a info.now k) }
{
    match at.q.world.methods.get(k as usize) {
        None => Ok(false),
        Some(other) => is_hidden_method(alloc, at, info, other),
    }
}

fn class_above(alloc: Global, at: &Place<'_>) -> Result<Option<u32>, NoMemory>
    ensures { Gives at.now result (λ a. option_and_then kinds.class_number (targets.superclass a.world a.class)) }
{
    match superclass(alloc, at.q.world, at.class)? {
        None => Ok(None),
        Some(t) => Ok(class_number(&t)),
    }
}

/// The methods of the class above that have a static method's name and number of parameters.
fn above_it<'a>(alloc: Global, at: &Place<'a>, info: &MethodInfo) -> Result<&'a [u32], NoMemory>
    requires { IsReady at.now.q }
    ensures { (f : Facts) → AreFacts at.now.q f → (t : Ties) → AreTies at.now.q.world.now t → IfOk result (λ r. r.now ≡ spec.methods_above (asked at.now f t) info.now) }
{
    if is_static_method(info) {
        let class = class_above(alloc, at)?;
        return Ok(named_in(at, class, info.name, info.params.len()));
    }
    Ok(&[])
}

// ---- parameters

fn either_changes(at: &Place<'_>, m: u32, k: u32) -> bool
    ensures { Tells at.now result (λ a. spec.either_changes a m k) }
{
    if at.change.is_param(m, at.change.index) {
        return true;
    }
    at.change.is_param(k, at.change.index)
}

fn is_hidden_by_change(
    alloc: Global,
    at: &Place<'_>,
    m: u32,
    info: &MethodInfo,
    k: u32,
) -> Result<bool, NoMemory>
    requires { IsReady at.now.q }
    ensures { Gives at.now result (λ a. spec.is_hidden_by_change a m info.now k) }
{
    if either_changes(at, m, k) {
        return is_hidden(alloc, at, info, k);
    }
    Ok(false)
}

fn some_hidden_by_change(
    alloc: Global,
    at: &Place<'_>,
    m: u32,
    info: &MethodInfo,
    above: &[u32],
) -> Result<bool, NoMemory>
    requires { IsReady at.now.q }
    ensures { Gives at.now result (λ a. list_any (spec.is_hidden_by_change a m info.now) above.now) }
{
    for k in above {
        if is_hidden_by_change(alloc, at, m, info, *k)? {
            return Ok(true);
        }
    }
    Ok(false)
}

/// Whether the parameter of a static method, or of one that it hides, changes.
fn changes_hiding(
    alloc: Global,
    at: &Place<'_>,
    m: u32,
    info: &MethodInfo,
) -> Result<bool, NoMemory>
    requires { IsReady at.now.q }
    ensures { Gives at.now result (λ a. spec.changes_hiding a m info.now) }
{
    let above = above_it(alloc, at, info)?;
    some_hidden_by_change(alloc, at, m, info, above)
}

fn changed_param(
    alloc: Global,
    at: &Place<'_>,
    m: u32,
    info: &MethodInfo,
    node: Node,
    first: Option<Unmet>,
) -> Result<Option<Unmet>, NoMemory>
    requires { IsReady at.now.q }
    ensures { Gives at.now result (λ a. spec.changed_param (change.is_param a.change m a.change.index) a m info.now node first) }
{
    if !at.change.is_param(m, at.change.index) {
        return Ok(first);
    }
    let has_other = has_other(alloc, at, m, info)?;
    let first = unless(!stays(at, m, info), node.id, Constraint::Override, first);
    Ok(unless(!has_other, node.id, Constraint::Overload, first))
}

fn param_at(
    alloc: Global,
    at: &Place<'_>,
    m: u32,
    info: &MethodInfo,
    x: &CoreParam,
    first: Option<Unmet>,
) -> Result<Option<Unmet>, NoMemory>
    requires { IsReady at.now.q }
    ensures { Gives at.now result (λ a. spec.param a m info.now (Some (param_plain x.now)) first) }
{
    let first = changed_param(alloc, at, m, info, x.node, first)?;
    let hiding = changes_hiding(alloc, at, m, info)?;
    Ok(unless(!hiding, x.node.id, Constraint::Overload, first))
}

fn param(
    alloc: Global,
    at: &Place<'_>,
    m: u32,
    info: &MethodInfo,
    x: Option<&CoreParam>,
    first: Option<Unmet>,
) -> Result<Option<Unmet>, NoMemory>
    requires { IsReady at.now.q }
    ensures { Gives at.now result (λ a. spec.param a m info.now (option_map param_plain (option_copied x.entry)) first) }
{
    match x {
        None => Ok(first),
        Some(x) => param_at(alloc, at, m, info, x, first),
    }
}

// ---- results

fn fits_result(at: &Place<'_>, s: &Option<JavaType>, t: &Option<JavaType>) -> bool
    requires { IsReady at.now.q }
    ensures { Tells at.now result (λ a. spec.fits_result a s.now t.now) }
{
    match s {
        None => true,
        Some(s) => match t {
            None => true,
            Some(t) => fits(at, s, t),
        },
    }
}

fn gives_for_known(
    alloc: Global,
    at: &Place<'_>,
    t: &JavaType,
    m: u32,
    info: &MethodInfo,
    k: u32,
    other: &MethodInfo,
) -> Result<bool, NoMemory>
    requires { IsReady at.now.q }
    ensures { Gives at.now result (λ a. spec.gives_for a t.now m info.now k (Some other.now)) }
{
    let below = result_after(alloc, at, m, info)?;
    let above = result_on(alloc, at, t, k, other)?;
    Ok(fits_result(at, &below, &above))
}

/// Whether what a method gives after the change fits what another one gives, as a type sees it.
fn gives_for(
    alloc: Global,
    at: &Place<'_>,
    t: &JavaType,
    m: u32,
    info: &MethodInfo,
    k: u32,
) -> Result<bool, NoMemory>
    requires { IsReady at.now.q }
    ensures { Gives at.now result (λ a. spec.gives_for a t.now m info.now k (method_at a.world k)) }
{
    match at.q.world.methods.get(k as usize) {
        None => Ok(true),
        Some(other) => gives_for_known(alloc, at, t, m, info, k, other),
    }
}

fn gives_if_overridden(
    alloc: Global,
    at: &Place<'_>,
    t: &JavaType,
    m: u32,
    info: &MethodInfo,
    k: u32,
) -> Result<bool, NoMemory>
    requires { IsReady at.now.q }
    ensures { Gives at.now result (λ a. not (a.ties.overrides m k) || spec.gives_for a t.now m info.now k (method_at a.world k)) }
{
    if overrides(at, m, k) {
        return gives_for(alloc, at, t, m, info, k);
    }
    Ok(true)
}

fn gives_for_overridden(
    alloc: Global,
    at: &Place<'_>,
    t: &JavaType,
    m: u32,
    info: &MethodInfo,
    methods: &[u32],
) -> Result<bool, NoMemory>
    requires { IsReady at.now.q }
    ensures { Gives at.now result (λ a. spec.gives_for_overridden a t.now m info.now methods.now) }
{
    for k in methods {
        if !gives_if_overridden(alloc, at, t, m, info, *k)? {
            return Ok(false);
        }
    }
    Ok(true)
}

fn gives_if_hidden(
    alloc: Global,
    at: &Place<'_>,
    t: &JavaType,
    m: u32,
    info: &MethodInfo,
    k: u32,
) -> Result<bool, NoMemory>
    requires { IsReady at.now.q }
    ensures { Gives at.now result (λ a. not (spec.is_hidden a info.now k) || spec.gives_for a t.now m info.now k (method_at a.world k)) }
{
    if is_hidden(alloc, at, info, k)? {
        return gives_for(alloc, at, t, m, info, k);
    }
    Ok(true)
}

fn gives_for_hidden(
    alloc: Global,
    at: &Place<'_>,
    t: &JavaType,
    m: u32,
    info: &MethodInfo,
    methods: &[u32],
) -> Result<bool, NoMemory>
    requires { IsReady at.now.q }
    ensures { Gives at.now result (λ a. spec.gives_for_hidden a t.now m info.now methods.now) }
{
    for k in methods {
        if !gives_if_hidden(alloc, at, t, m, info, *k)? {
            return Ok(false);
        }
    }
    Ok(true)
}

fn gives_for_all(
    alloc: Global,
    at: &Place<'_>,
    t: &JavaType,
    m: u32,
    info: &MethodInfo,
) -> Result<bool, NoMemory>
    requires { IsReady at.now.q }
    ensures { Gives at.now result (λ a. spec.gives_for_all a t.now m info.now) }
{
    if gives_for_overridden(alloc, at, t, m, info, family(at, m))? {
        let above = above_it(alloc, at, info)?;
        return gives_for_hidden(alloc, at, t, m, info, above);
    }
    Ok(false)
}

fn changed_result(
    alloc: Global,
    at: &Place<'_>,
    m: u32,
    info: &MethodInfo,
    node: Node,
    first: Option<Unmet>,
) -> Result<Option<Unmet>, NoMemory>
    requires { IsReady at.now.q }
    ensures { Gives at.now result (λ a. spec.result (change.is_result a.change m) a m info.now node first) }
{
    if !at.change.is_result(m) {
        return Ok(first);
    }
    let own = own_type(alloc, at)?;
    let gives = gives_for_all(alloc, at, &own, m, info)?;
    Ok(unless(gives, node.id, Constraint::Result, first))
}

fn known_declaration(
    alloc: Global,
    at: &Place<'_>,
    method: &CoreMethod,
    info: &MethodInfo,
    first: Option<Unmet>,
) -> Result<Option<Unmet>, NoMemory>
    requires { IsReady at.now.q }
    ensures { Gives at.now result (λ a. spec.declaration a (method_plain method.now) (Some info.now) first) }
{
    let first = changed_result(alloc, at, method.method, info, method.node, first)?;
    let x = method.params.get(at.change.index as usize);
    param(alloc, at, method.method, info, x, first)
}

/// The declaration of a method or constructor.
pub(crate) fn declaration(
    alloc: Global,
    at: &Place<'_>,
    method: &CoreMethod,
    first: Option<Unmet>,
) -> Result<Option<Unmet>, NoMemory>
    requires { IsReady at.now.q }
    ensures { Gives at.now result (λ a. spec.declaration a (method_plain method.now) (method_at a.world method.now.method) first) }
{
    match at.q.world.methods.get(method.method as usize) {
        None => Ok(first),
        Some(info) => known_declaration(alloc, at, method, info, first),
    }
}
