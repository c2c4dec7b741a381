//! Values that go to places of declared types.

ghost use Rattle.std.specs.Prelude.{◌≡◌, ◌||◌, not, Some};
ghost use Rattle.std.specs.Option.{option_copied};
ghost use Rattle.java_core.specs.declared.expr.Kind.TheVariants as operands;
ghost use Rattle.java_core.specs.View.{form_plain, plain, plains, var_plain};
ghost use Rattle.type_kinds.specs.Kinds.{element as element_of, ty_of};
ghost use Rattle.type_kinds.specs.Members.{field_at, method_at};
ghost use Rattle.type_places.specs.Changes as change;
ghost use Rattle.type_facts.specs.Facts.{IsReady};
ghost use Rattle.type_constraints.specs.Asked.{Gives, Tells};
ghost use Rattle.type_constraints.specs.Changed as spec;

use crate::changed::{changed, is_local, new_fits, raised};
use crate::place::{Place, fits, is_below, super_as};
use crate::unmet::{Constraint, Unmet, unless};
use class_world::{FieldInfo, JavaType, Walk, World};
use java_core::{CoreExpr, CoreForm, CoreVar, Kind};
use java_tree::NoMemory;
use java_tree::tree::Node;
use std::alloc::Global;
use type_kinds::kinds::{element, is_string};

/// Whether a value keeps its type, or its new type fits another one.
#[tactic(auto, using(java_core::proofs::Views::plain_at))]
fn still_fits(alloc: Global, at: &Place<'_>, t: &JavaType, x: &CoreExpr) -> Result<bool, NoMemory>
    requires { IsReady at.now.q }
    ensures { Gives at.now result (λ a. not (spec.changed a (plain x.now)) || spec.fits_after a (plain x.now) t.now) }
{
    if changed(alloc, at, x)? {
        return new_fits(alloc, at, &x.ty, t);
    }
    Ok(true)
}

/// A value goes to a place of a type, which changes or not.
#[tactic(auto, using(java_core::proofs::Views::plain_at))]
pub(crate) fn flow(
    alloc: Global,
    at: &Place<'_>,
    to_changes: bool,
    t: &JavaType,
    x: &CoreExpr,
    first: Option<Unmet>,
) -> Result<Option<Unmet>, NoMemory>
    requires { IsReady at.now.q }
    ensures { Gives at.now result (λ a. spec.flow a to_changes t.now (plain x.now) first) }
{
    if to_changes {
        return Ok(first);
    }
    let is_fit = still_fits(alloc, at, t, x)?;
    Ok(unless(is_fit, x.node.id, Constraint::Assign, first))
}

fn flow_to(
    alloc: Global,
    at: &Place<'_>,
    to_changes: bool,
    t: Option<&JavaType>,
    x: &CoreExpr,
    first: Option<Unmet>,
) -> Result<Option<Unmet>, NoMemory>
    requires { IsReady at.now.q }
    ensures { Gives at.now result (λ a. spec.flow_to a to_changes (option_copied t.entry) (plain x.now) first) }
{
    match t {
        None => Ok(first),
        Some(t) => flow(alloc, at, to_changes, t, x, first),
    }
}

fn is_filled_form(form: &CoreForm) -> bool
    ensures { result ≡ spec.is_filled_form (form_plain form.now) }
{
    match form {
        CoreForm::Filled(_) => true,
        _ => false,
    }
}

#[tactic(auto, using(java_core::proofs::Views::plain_at))]
fn is_filled(x: &CoreExpr) -> bool
    ensures { result ≡ spec.is_filled (plain x.now) }
{
    is_filled_form(&x.form)
}

/// The value of a variable. Of items in braces alone an array of the declared type is made (JLS 10.6).
#[tactic(auto, using(java_core::proofs::Views::plain_at))]
pub(crate) fn init(
    alloc: Global,
    at: &Place<'_>,
    to_changes: bool,
    t: &JavaType,
    x: &CoreExpr,
    first: Option<Unmet>,
) -> Result<Option<Unmet>, NoMemory>
    requires { IsReady at.now.q }
    ensures { Gives at.now result (λ a. spec.init a to_changes t.now (plain x.now) first) }
{
    if to_changes {
        return Ok(unless(!is_filled(x), x.node.id, Constraint::Assign, first));
    }
    flow(alloc, at, false, t, x, first)
}

/// The value of a field.
pub(crate) fn field_init(
    alloc: Global,
    at: &Place<'_>,
    field: u32,
    x: &CoreExpr,
    first: Option<Unmet>,
) -> Result<Option<Unmet>, NoMemory>
    requires { IsReady at.now.q }
    ensures { Gives at.now result (λ a. spec.field_init a field (field_at a.world field) (plain x.now) first) }
{
    match at.q.world.fields.get(field as usize) {
        None => Ok(first),
        Some(info) => init(alloc, at, at.change.is_field(field), &info.ty, x, first),
    }
}

/// The items of an array of a type.
pub(crate) fn items(
    alloc: Global,
    at: &Place<'_>,
    t: &JavaType,
    xs: &[CoreExpr],
    mut first: Option<Unmet>,
) -> Result<Option<Unmet>, NoMemory>
    requires { IsReady at.now.q }
    ensures { Gives at.now result (λ a. spec.items a t.now (plains xs.now) first) }
{
    for x in xs {
        first = flow_to(alloc, at, false, element(t), x, first)?;
    }
    Ok(first)
}

/// The declared type of what a method gives.
fn result_of(w: &World, method: u32) -> Option<&JavaType>
    ensures { option_copied result ≡ spec.result_of (method_at w.now method) }
{
    match w.methods.get(method as usize) {
        None => None,
        Some(info) => info.result.as_ref(),
    }
}

/// A value that the method around gives.
pub(crate) fn given(
    alloc: Global,
    at: &Place<'_>,
    x: &CoreExpr,
    first: Option<Unmet>,
) -> Result<Option<Unmet>, NoMemory>
    requires { IsReady at.now.q }
    ensures { Gives at.now result (λ a. spec.given a at.now.method (plain x.now) first) }
{
    match at.method {
        None => Ok(first),
        Some(method) => flow_to(
            alloc,
            at,
            at.change.is_result(method),
            result_of(at.q.world, method),
            x,
            first,
        ),
    }
}

// ---- concatenations (JLS 15.18.1)

#[tactic(auto, using(java_core::proofs::Views::plain_at))]
fn is_changed_string(alloc: Global, at: &Place<'_>, x: &CoreExpr) -> Result<bool, NoMemory>
    requires { IsReady at.now.q }
    ensures { Gives at.now result (λ a. spec.is_changed_string a (plain x.now)) }
{
    if is_string(&x.ty) {
        return changed(alloc, at, x);
    }
    Ok(false)
}

#[tactic(auto, using(java_core::proofs::Views::plain_at))]
fn is_kept_string(alloc: Global, at: &Place<'_>, x: &CoreExpr) -> Result<bool, NoMemory>
    requires { IsReady at.now.q }
    ensures { Gives at.now result (λ a. spec.is_kept_string a (plain x.now)) }
{
    if is_string(&x.ty) {
        return Ok(!changed(alloc, at, x)?);
    }
    Ok(false)
}

/// Whether a text is made still of an operand beside another one.
fn is_joined(alloc: Global, at: &Place<'_>, x: &CoreExpr, y: &CoreExpr) -> Result<bool, NoMemory>
    requires { IsReady at.now.q }
    ensures { Gives at.now result (λ a. not (spec.is_changed_string a (plain x.now)) || spec.is_kept_string a (plain y.now)) }
{
    if is_changed_string(alloc, at, x)? {
        return is_kept_string(alloc, at, y);
    }
    Ok(true)
}

#[tactic(auto, using(java_core::proofs::Views::plain_at))]
fn operand(
    alloc: Global,
    at: &Place<'_>,
    x: &CoreExpr,
    y: &CoreExpr,
    first: Option<Unmet>,
) -> Result<Option<Unmet>, NoMemory>
    requires { IsReady at.now.q }
    ensures { Gives at.now result (λ a. spec.operand a (plain x.now) (plain y.now) first) }
{
    let joined = is_joined(alloc, at, x, y)?;
    Ok(unless(joined, x.node.id, Constraint::Assign, first))
}

fn operands(
    alloc: Global,
    at: &Place<'_>,
    x: &CoreExpr,
    y: &CoreExpr,
    first: Option<Unmet>,
) -> Result<Option<Unmet>, NoMemory>
    requires { IsReady at.now.q }
    ensures { Gives at.now result (λ a. spec.operand a (plain y.now) (plain x.now) (spec.operand a (plain x.now) (plain y.now) first)) }
{
    let first = operand(alloc, at, x, y, first)?;
    operand(alloc, at, y, x, first)
}

/// The operands of an operator of a kind.
pub(crate) fn joined(
    alloc: Global,
    at: &Place<'_>,
    kind: Kind,
    x: &CoreExpr,
    y: &CoreExpr,
    first: Option<Unmet>,
) -> Result<Option<Unmet>, NoMemory>
    requires { IsReady at.now.q }
    ensures { Gives at.now result (λ a. spec.joined a kind (plain x.now) (plain y.now) first) }
{
    match kind {
        Kind::Int => Ok(first),
        Kind::Long => Ok(first),
        Kind::Boolean => Ok(first),
        Kind::Reference => Ok(first),
        Kind::Text => operands(alloc, at, x, y, first),
    }
}

#[tactic(auto, using(java_core::proofs::Views::plain_at))]
fn text_appended(
    alloc: Global,
    at: &Place<'_>,
    x: &CoreExpr,
    first: Option<Unmet>,
) -> Result<Option<Unmet>, NoMemory>
    requires { IsReady at.now.q }
    ensures { Gives at.now result (λ a. spec.appended a operands.Text (plain x.now) first) }
{
    let is_changed = is_changed_string(alloc, at, x)?;
    Ok(unless(!is_changed, x.node.id, Constraint::Assign, first))
}

/// What an assignment with an operator of a kind changes (JLS 15.26.2).
pub(crate) fn appended(
    alloc: Global,
    at: &Place<'_>,
    kind: Kind,
    x: &CoreExpr,
    first: Option<Unmet>,
) -> Result<Option<Unmet>, NoMemory>
    requires { IsReady at.now.q }
    ensures { Gives at.now result (λ a. spec.appended a kind (plain x.now) first) }
{
    match kind {
        Kind::Int => Ok(first),
        Kind::Long => Ok(first),
        Kind::Boolean => Ok(first),
        Kind::Reference => Ok(first),
        Kind::Text => text_appended(alloc, at, x, first),
    }
}

// ---- conditionals (JLS 15.25)

/// Whether the new type of what had one type fits another, or the other way round.
fn new_meets(alloc: Global, at: &Place<'_>, s: &JavaType, t: &JavaType) -> Result<bool, NoMemory>
    requires { IsReady at.now.q }
    ensures { Gives at.now result (λ a. spec.meets a.facts (change.raised a.change s.now) t.now) }
{
    let new = raised(alloc, at.change, s)?;
    if fits(at, &new, t) {
        return Ok(true);
    }
    Ok(fits(at, t, &new))
}

fn arms_meet(
    alloc: Global,
    at: &Place<'_>,
    first: bool,
    second: bool,
    s: &JavaType,
    t: &JavaType,
) -> Result<bool, NoMemory>
    requires { IsReady at.now.q }
    ensures { Gives at.now result (λ a. spec.arms_meet a first second s.now t.now) }
{
    if first {
        if second {
            return Ok(true);
        }
        return new_meets(alloc, at, s, t);
    }
    if second {
        return new_meets(alloc, at, t, s);
    }
    Ok(true)
}

#[tactic(auto, using(java_core::proofs::Views::plain_at))]
fn are_arms(alloc: Global, at: &Place<'_>, yes: &CoreExpr, no: &CoreExpr) -> Result<bool, NoMemory>
    requires { IsReady at.now.q }
    ensures { Gives at.now result (λ a. spec.arms_meet a (spec.changed a (plain yes.now)) (spec.changed a (plain no.now)) (ty_of (plain yes.now)) (ty_of (plain no.now))) }
{
    let first = changed(alloc, at, yes)?;
    let second = changed(alloc, at, no)?;
    arms_meet(alloc, at, first, second, &yes.ty, &no.ty)
}

/// The arms of the conditional at a node.
pub(crate) fn arms(
    alloc: Global,
    at: &Place<'_>,
    node: Node,
    yes: &CoreExpr,
    no: &CoreExpr,
    first: Option<Unmet>,
) -> Result<Option<Unmet>, NoMemory>
    requires { IsReady at.now.q }
    ensures { Gives at.now result (λ a. spec.arms a node (plain yes.now) (plain no.now) first) }
{
    let meet = are_arms(alloc, at, yes, no)?;
    Ok(unless(meet, node.id, Constraint::Arm, first))
}

// ---- loops over a value (JLS 14.14.2), and throw (JLS 14.18)

/// Whether two types are each below the other one.
pub(crate) fn is_alike(at: &Place<'_>, s: &JavaType, t: &JavaType) -> bool
    requires { IsReady at.now.q }
    ensures { Tells at.now result (λ a. spec.is_alike a.facts s.now t.now) }
{
    if is_below(at, s, t) {
        return is_below(at, t, s);
    }
    false
}

pub(crate) fn are_alike(at: &Place<'_>, s: &Option<JavaType>, t: &Option<JavaType>) -> bool
    requires { IsReady at.now.q }
    ensures { Tells at.now result (λ a. spec.are_alike a.facts s.now t.now) }
{
    match s {
        None => t.is_none(),
        Some(s) => match t {
            None => false,
            Some(t) => is_alike(at, s, t),
        },
    }
}

fn is_same_iterable(
    alloc: Global,
    at: &Place<'_>,
    walk: &Walk,
    t: &JavaType,
) -> Result<bool, NoMemory>
    requires { IsReady at.now.q }
    ensures { Gives at.now result (λ a. spec.walks_alike a (Some walk.now) t.now) }
{
    let new = raised(alloc, at.change, t)?;
    let above_new = super_as(alloc, at, &new, walk.iterable)?;
    let above_old = super_as(alloc, at, t, walk.iterable)?;
    Ok(are_alike(at, &above_new, &above_old))
}

fn walks_alike(alloc: Global, at: &Place<'_>, t: &JavaType) -> Result<bool, NoMemory>
    requires { IsReady at.now.q }
    ensures { Gives at.now result (λ a. spec.walks_alike a a.world.walk t.now) }
{
    match &at.q.world.walk {
        None => Ok(false),
        Some(walk) => is_same_iterable(alloc, at, walk, t),
    }
}

/// Whether a loop's variable changes, or the new type of an item fits it.
fn item_fits(
    alloc: Global,
    at: &Place<'_>,
    var: &CoreVar,
    item: &JavaType,
) -> Result<bool, NoMemory>
    requires { IsReady at.now.q }
    ensures { Gives at.now result (λ a. spec.is_local a.change a.method var.now.slot var.now.node || a.facts.fits (change.raised a.change item.now) var.now.ty) }
{
    if is_local(at, var.slot, var.node) {
        return Ok(true);
    }
    new_fits(alloc, at, item, &var.ty)
}

#[tactic(auto, using(java_core::proofs::Views::plain_at))]
fn walked(
    alloc: Global,
    at: &Place<'_>,
    var: &CoreVar,
    x: &CoreExpr,
    first: Option<Unmet>,
) -> Result<Option<Unmet>, NoMemory>
    requires { IsReady at.now.q }
    ensures { Gives at.now result (λ a. spec.walked a (var_plain var.now) (plain x.now) (element_of (ty_of (plain x.now))) first) }
{
    match element(&x.ty) {
        Some(item) => {
            let is_fit = item_fits(alloc, at, var, item)?;
            Ok(unless(is_fit, x.node.id, Constraint::Assign, first))
        }
        None => {
            let same = walks_alike(alloc, at, &x.ty)?;
            Ok(unless(same, x.node.id, Constraint::Member, first))
        }
    }
}

/// A loop over a value.
pub(crate) fn for_each(
    alloc: Global,
    at: &Place<'_>,
    var: &CoreVar,
    x: &CoreExpr,
    first: Option<Unmet>,
) -> Result<Option<Unmet>, NoMemory>
    requires { IsReady at.now.q }
    ensures { Gives at.now result (λ a. spec.for_each a (var_plain var.now) (plain x.now) first) }
{
    if changed(alloc, at, x)? {
        return walked(alloc, at, var, x, first);
    }
    Ok(first)
}

/// A value is thrown at a node.
pub(crate) fn thrown(
    alloc: Global,
    at: &Place<'_>,
    node: Node,
    x: &CoreExpr,
    first: Option<Unmet>,
) -> Result<Option<Unmet>, NoMemory>
    requires { IsReady at.now.q }
    ensures { Gives at.now result (λ a. spec.thrown a node (plain x.now) first) }
{
    let is_changed = changed(alloc, at, x)?;
    Ok(unless(!is_changed, node.id, Constraint::Throws, first))
}
