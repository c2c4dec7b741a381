//! The type of an expression, with the marks of the declared type that it is read from.

ghost use Rattle.std.specs.Prelude.{◌≡◌, [], IfOk, slice_get};
ghost use Rattle.std.specs.Option.{option_copied};
ghost use Rattle.java_core.specs.View.{plain};
ghost use Rattle.type_kinds.specs.Kinds.{ty_of};
ghost use Rattle.type_facts.specs.Facts.{AreFacts, Facts, IsReady};
ghost use Rattle.marked_types.specs.Marked as marked;
ghost use Rattle.marked_types.specs.Read as spec;

use crate::marking::{as_place, head_class, is_number, marked_inside};
use crate::marks::Marks;
use class_world::{FieldInfo, JavaType, MethodInfo, copied};
use java_core::{CoreExpr, CoreForm};
use java_tree::NoMemory;
use java_tree::tree::Mod;
use std::alloc::Global;
use type_facts::Questions;
use type_facts::asks::is_below;
use type_facts::seen::{as_seen, seen_by};
use type_kinds::kinds::{element, has};

/// What types are read by: the questions of a program, a class by its number, and the marks of its places in what users declare.
#[derive(Clone, Copy)]
pub struct Reader<'a> {
    pub q: Questions<'a>,
    pub class: u32,
    pub marks: &'a Marks,
}

fn or_own(alloc: Global, t: Option<&JavaType>, own: &JavaType) -> Result<JavaType, NoMemory>
    ensures { IfOk result (λ r. r ≡ spec.or_own (option_copied t.entry) own.now) }
{
    match t {
        Some(t) => copied(alloc, t),
        None => copied(alloc, own),
    }
}

fn local_type(locals: &[JavaType], slot: u32) -> Option<&JavaType>
    ensures { option_copied result ≡ slice_get locals.now slot }
{
    locals.get(slot as usize)
}

// ---- fields and methods

fn seen_field(
    alloc: Global,
    q: &Questions<'_>,
    receiver: &JavaType,
    info: Option<&FieldInfo>,
    own: &JavaType,
) -> Result<JavaType, NoMemory>
    requires { IsReady q.now }
    ensures { (f : Facts) → AreFacts q.now f → IfOk result (λ r. r ≡ spec.seen_field f receiver.now (option_copied info.entry) own.now) }
{
    match info {
        None => copied(alloc, own),
        Some(info) => {
            let fixed = has(Mod::Static, info.mods.as_slice());
            let seen = seen_by(alloc, q, receiver, info.owner, fixed)?;
            as_seen(alloc, &seen, &info.ty)
        }
    }
}

fn field_of(
    alloc: Global,
    at: &Reader<'_>,
    receiver: &JavaType,
    field: u32,
    own: &JavaType,
) -> Result<JavaType, NoMemory>
    requires { IsReady at.now.q }
    ensures { (f : Facts) → AreFacts at.now.q f → IfOk result (λ r. r ≡ spec.field_of f (spec.reading_of at.now) receiver.now field own.now) }
{
    match at.marks.field(field) {
        Some(t) => copied(alloc, t),
        None => {
            let info = at.q.world.fields.get(field as usize);
            seen_field(alloc, &at.q, receiver, info, own)
        }
    }
}

fn seen_given(
    alloc: Global,
    q: &Questions<'_>,
    receiver: &JavaType,
    info: &MethodInfo,
    own: &JavaType,
) -> Result<JavaType, NoMemory>
    requires { IsReady q.now }
    ensures { (f : Facts) → AreFacts q.now f → IfOk result (λ r. r ≡ spec.seen_given f receiver.now info.now info.now.result own.now) }
{
    match &info.result {
        None => copied(alloc, own),
        Some(t) => {
            let fixed = has(Mod::Static, info.mods.as_slice());
            let seen = seen_by(alloc, q, receiver, info.owner, fixed)?;
            as_seen(alloc, &seen, t)
        }
    }
}

fn seen_result(
    alloc: Global,
    q: &Questions<'_>,
    receiver: &JavaType,
    info: Option<&MethodInfo>,
    own: &JavaType,
) -> Result<JavaType, NoMemory>
    requires { IsReady q.now }
    ensures { (f : Facts) → AreFacts q.now f → IfOk result (λ r. r ≡ spec.seen_result f receiver.now (option_copied info.entry) own.now) }
{
    match info {
        None => copied(alloc, own),
        Some(info) => seen_given(alloc, q, receiver, info, own),
    }
}

fn result_of(
    alloc: Global,
    at: &Reader<'_>,
    receiver: &JavaType,
    method: u32,
    own: &JavaType,
) -> Result<JavaType, NoMemory>
    requires { IsReady at.now.q }
    ensures { (f : Facts) → AreFacts at.now.q f → IfOk result (λ r. r ≡ spec.result_of f (spec.reading_of at.now) receiver.now method own.now) }
{
    match at.marks.result(method) {
        Some(t) => copied(alloc, t),
        None => {
            let info = at.q.world.methods.get(method as usize);
            seen_result(alloc, &at.q, receiver, info, own)
        }
    }
}

// ---- expressions

/// The type of an expression: where a declared type gives it, that one's marks are on it. `locals` are the marked types of locals, by slot.
#[cycle(read)]
#[tactic(auto, using(java_core::proofs::Views::plain_at))]
pub fn read(
    alloc: Global,
    at: &Reader<'_>,
    locals: &[JavaType],
    e: &CoreExpr,
) -> Result<JavaType, NoMemory>
    requires { IsReady at.now.q }
    ensures { (f : Facts) → AreFacts at.now.q f → IfOk result (λ r. r ≡ spec.read f (spec.reading_of at.now) locals.now (plain e.now)) }
{
    match &e.form {
        CoreForm::Paren(of) => read(alloc, at, locals, of.get()),
        CoreForm::Implied(of) => read(alloc, at, locals, of.get()),
        CoreForm::Assign { to, .. } => read(alloc, at, locals, to.get()),
        CoreForm::Compound { to, .. } => read(alloc, at, locals, to.get()),
        CoreForm::Local(slot) => or_own(alloc, local_type(locals, *slot), &e.ty),
        CoreForm::Field { of, field, .. } => {
            let receiver = read(alloc, at, locals, of.get())?;
            field_of(alloc, at, &receiver, *field, &e.ty)
        }
        CoreForm::SuperField(field) => or_own(alloc, at.marks.field(*field), &e.ty),
        CoreForm::StaticField { field, .. } => or_own(alloc, at.marks.field(*field), &e.ty),
        CoreForm::Index { of, .. } => {
            let array = read(alloc, at, locals, of.get())?;
            or_own(alloc, element(&array), &e.ty)
        }
        CoreForm::Call { of, method, .. } => {
            let receiver = read(alloc, at, locals, of.get())?;
            result_of(alloc, at, &receiver, *method, &e.ty)
        }
        CoreForm::SuperCall { method, .. } => or_own(alloc, at.marks.result(*method), &e.ty),
        CoreForm::StaticCall { method, .. } => or_own(alloc, at.marks.result(*method), &e.ty),
        CoreForm::New { written, .. } => marked_inside(alloc, at.class, written),
        CoreForm::Cast { written, .. } => marked_inside(alloc, at.class, written),
        CoreForm::Cond { yes, no, .. } => {
            conditional(alloc, at, locals, e.node.id, &e.ty, yes.get(), no.get())
        }
        CoreForm::Int(_)
        | CoreForm::Long(_)
        | CoreForm::Char(_)
        | CoreForm::Text(_)
        | CoreForm::Truth(_)
        | CoreForm::Null
        | CoreForm::This
        | CoreForm::Widen(_)
        | CoreForm::Length(_)
        | CoreForm::NewArray { .. }
        | CoreForm::NewFilled { .. }
        | CoreForm::Filled(_)
        | CoreForm::Unary { .. }
        | CoreForm::Step { .. }
        | CoreForm::Binary { .. }
        | CoreForm::Logic { .. }
        | CoreForm::InstanceOf { .. } => copied(alloc, &e.ty),
    }
}

// A conditional that is of the class is a place of its own; any other one has the type of its larger arm.
#[cycle(read)]
#[tactic(auto, using(java_core::proofs::Views::plain_at))]
fn conditional(
    alloc: Global,
    at: &Reader<'_>,
    locals: &[JavaType],
    node: u32,
    ty: &JavaType,
    yes: &CoreExpr,
    no: &CoreExpr,
) -> Result<JavaType, NoMemory>
    requires { IsReady at.now.q }
    ensures { (f : Facts) → AreFacts at.now.q f
        → IfOk result (λ r. r ≡ spec.conditional (marked.is_number (marked.head_class ty.now) at.now.class) (f.sub (ty_of (plain no.now)) (ty_of (plain yes.now)))
        (marked.marked_head at.now.class node [] ty.now) (spec.read f (spec.reading_of at.now) locals.now (plain yes.now)) (spec.read f (spec.reading_of at.now) locals.now (plain no.now))) }
{
    if is_number(head_class(ty), at.class) {
        return as_place(alloc, at.class, node, ty);
    }
    if is_below(&at.q, &no.ty, &yes.ty) {
        return read(alloc, at, locals, yes);
    }
    read(alloc, at, locals, no)
}
