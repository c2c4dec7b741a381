//! Conversions of values (JLS 5.1, 5.5).

ghost use Rattle.std.specs.Prelude.{◌≡◌};
ghost use Rattle.type_kinds.specs.Kinds as kinds;
ghost use Rattle.core_meaning.specs.declared.values.Value.TheVariants as v;
ghost use Rattle.core_meaning.specs.BuiltIns.{class_cast_exception};
ghost use Rattle.core_meaning.specs.Outcome.{Gives, and_then, misfit as went_wrong, throws_plain, with_some};
ghost use Rattle.core_meaning.specs.Variables.{cast, cast_or, fitted as fitted_to, fitted_by, implied_cast, instance_of};
ghost use Rattle.core_meaning.specs.Statements.{cast_if, item_before, taken};
ghost use Rattle.run_frames.specs.Frames.{a_truth, valued};
ghost use Rattle.run_frames.specs.Runs.{Leads};
ghost use Rattle.running_code.specs.Running.{IsReady, Makes};
ghost use Rattle.run_values.specs.Does.{Does};
ghost use Rattle.run_values.specs.Found.{taken_from};
ghost use Rattle.run_values.specs.Tests.{below, held_as, instance, passed};

use crate::throws::{CLASS_CAST, NULL_POINTER, give, misfit, throw_plain};
use class_world::JavaType;
use core_meaning::{State, Value};
use java_tree::NoMemory;
use primitive_operators::as_primitive;
use run_frames::{Answer, Focus, Run};
use run_state::frames::set_local;
use run_state::reads::{items_of, thing_at};
use running_code::{Running, text_is_below, thing_is_below};
use std::alloc::Global;
use type_kinds::kinds::primitive;

fn fitted(ty: &JavaType, value: Value) -> Option<Value>
    ensures { result ≡ fitted_by (kinds.primitive ty.now) value }
{
    match primitive(ty) {
        None => Some(value),
        Some(to) => as_primitive(to, value),
    }
}

/// The widening of a value to a type, or the narrowing of what an assignment takes back.
pub fn fit<'a>(
    alloc: Global,
    run: &mut Run<'a>,
    ty: &JavaType,
    value: Value,
) -> Result<Focus<'a>, NoMemory>
    ensures { Leads run.old result run.new (λ p s. valued (fitted_to ty.now value s)) }
{
    give(alloc, run, fitted(ty, value))
}

/// Whether what a reference is at run time is below a type; none where it is nothing.
fn is_below(
    alloc: Global,
    g: &Running<'_>,
    state: &State,
    ty: &JavaType,
    value: Value,
) -> Result<Option<bool>, NoMemory>
    requires { IsReady g.now }
    ensures { Makes g.now result (λ c. below c ty.now value state.now) }
{
    match value {
        Value::Ref(thing) => match thing_at(state, thing) {
            None => Ok(None),
            Some(thing) => Ok(Some(thing_is_below(alloc, g, thing, ty)?)),
        },
        Value::Text(_) => Ok(Some(text_is_below(alloc, g, ty)?)),
        _ => Ok(None),
    }
}

/// Whether a variable of a type may hold a reference. Null is below each type.
pub(crate) fn holds(
    alloc: Global,
    g: &Running<'_>,
    state: &State,
    ty: &JavaType,
    value: Value,
) -> Result<Option<bool>, NoMemory>
    requires { IsReady g.now }
    ensures { Makes g.now result (λ c. held_as c ty.now value state.now) }
{
    match value {
        Value::Null => Ok(Some(true)),
        _ => is_below(alloc, g, state, ty, value),
    }
}

fn is_instance(
    alloc: Global,
    g: &Running<'_>,
    state: &State,
    ty: &JavaType,
    value: Value,
) -> Result<Option<bool>, NoMemory>
    requires { IsReady g.now }
    ensures { Makes g.now result (λ c. instance c ty.now value state.now) }
{
    match value {
        Value::Null => Ok(Some(false)),
        _ => is_below(alloc, g, state, ty, value),
    }
}

fn give_implied<'a>(
    alloc: Global,
    run: &mut Run<'a>,
    held: Option<bool>,
    value: Value,
) -> Result<Focus<'a>, NoMemory>
    ensures { Leads run.old result run.new (λ p s. valued (passed held value went_wrong s)) }
{
    match held {
        None => misfit(alloc, run),
        Some(false) => misfit(alloc, run),
        Some(true) => Ok(Focus::Gives(Answer::Value(value))),
    }
}

/// A cast that is not written.
pub fn imply<'a>(
    alloc: Global,
    g: &'a Running<'a>,
    run: &mut Run<'a>,
    ty: &JavaType,
    value: Value,
) -> Result<Focus<'a>, NoMemory>
    requires { IsReady g.now }
    ensures { Does g.now run.old result run.new (λ p s. valued (implied_cast p ty.now value s)) }
{
    let held = holds(alloc, g, &run.state, ty, value)?;
    give_implied(alloc, run, held, value)
}

fn give_cast<'a>(
    alloc: Global,
    run: &mut Run<'a>,
    held: Option<bool>,
    value: Value,
) -> Result<Focus<'a>, NoMemory>
    ensures { Leads run.old result run.new (λ p s. valued (passed held value (throws_plain class_cast_exception) s)) }
{
    match held {
        None => misfit(alloc, run),
        Some(false) => throw_plain(alloc, run, CLASS_CAST),
        Some(true) => Ok(Focus::Gives(Answer::Value(value))),
    }
}

fn cast_reference<'a>(
    alloc: Global,
    g: &'a Running<'a>,
    run: &mut Run<'a>,
    ty: &JavaType,
    value: Value,
) -> Result<Focus<'a>, NoMemory>
    requires { IsReady g.now }
    ensures { Does g.now run.old result run.new (λ p s. valued (cast_or p ty.now value s (throws_plain class_cast_exception))) }
{
    let held = holds(alloc, g, &run.state, ty, value)?;
    give_cast(alloc, run, held, value)
}

/// A written cast (JLS 15.16).
pub fn cast<'a>(
    alloc: Global,
    g: &'a Running<'a>,
    run: &mut Run<'a>,
    ty: &JavaType,
    value: Value,
) -> Result<Focus<'a>, NoMemory>
    requires { IsReady g.now }
    ensures { Does g.now run.old result run.new (λ p s. valued (cast p ty.now value s)) }
{
    match primitive(ty) {
        None => cast_reference(alloc, g, run, ty, value),
        Some(to) => give(alloc, run, as_primitive(to, value)),
    }
}

fn give_truth<'a>(
    alloc: Global,
    run: &mut Run<'a>,
    truth: Option<bool>,
) -> Result<Focus<'a>, NoMemory>
    ensures { Leads run.old result run.new (λ p s. valued (with_some truth s (λ b. Gives (v.Truth b) s))) }
{
    match truth {
        None => misfit(alloc, run),
        Some(truth) => Ok(Focus::Gives(Answer::Value(Value::Truth(truth)))),
    }
}

/// `instanceof` (JLS 15.20.2).
pub fn test_instance<'a>(
    alloc: Global,
    g: &'a Running<'a>,
    run: &mut Run<'a>,
    ty: &JavaType,
    value: Value,
) -> Result<Focus<'a>, NoMemory>
    requires { IsReady g.now }
    ensures { Does g.now run.old result run.new (λ p s. valued (instance_of p ty.now value s)) }
{
    let truth = is_instance(alloc, g, &run.state, ty, value)?;
    give_truth(alloc, run, truth)
}

fn take_fitted<'a>(
    alloc: Global,
    run: &mut Run<'a>,
    slot: u32,
    ty: &JavaType,
    value: Value,
) -> Result<Focus<'a>, NoMemory>
    ensures { Leads run.old result run.new (λ p s. a_truth (taken slot ty.now value s)) }
{
    match fitted(ty, value) {
        None => misfit(alloc, run),
        Some(value) => {
            set_local(&mut run.state, slot, value)?;
            Ok(Focus::Gives(Answer::Truth(true)))
        }
    }
}

fn take_held<'a>(
    alloc: Global,
    run: &mut Run<'a>,
    slot: u32,
    ty: &JavaType,
    held: Option<bool>,
    value: Value,
) -> Result<Focus<'a>, NoMemory>
    ensures { Leads run.old result run.new (λ p s. a_truth (and_then (passed held value went_wrong s) (taken slot ty.now))) }
{
    match held {
        None => misfit(alloc, run),
        Some(false) => misfit(alloc, run),
        Some(true) => take_fitted(alloc, run, slot, ty, value),
    }
}

fn take_cast<'a>(
    alloc: Global,
    g: &'a Running<'a>,
    run: &mut Run<'a>,
    slot: u32,
    ty: &JavaType,
    item: &JavaType,
    value: Value,
) -> Result<Focus<'a>, NoMemory>
    requires { IsReady g.now }
    ensures { Does g.now run.old result run.new (λ p s. a_truth (and_then (implied_cast p item.now value s) (taken slot ty.now))) }
{
    let held = holds(alloc, g, &run.state, item, value)?;
    take_held(alloc, run, slot, ty, held, value)
}

/// The variable of an enhanced `for` takes what next() answered (JLS 14.14.2).
pub fn take<'a>(
    alloc: Global,
    g: &'a Running<'a>,
    run: &mut Run<'a>,
    slot: u32,
    ty: &JavaType,
    item: &JavaType,
    implied: bool,
    value: Value,
) -> Result<Focus<'a>, NoMemory>
    requires { IsReady g.now }
    ensures { Does g.now run.old result run.new (λ p s. a_truth (and_then (cast_if implied p item.now value s) (taken slot ty.now))) }
{
    if implied {
        take_cast(alloc, g, run, slot, ty, item, value)
    } else {
        take_fitted(alloc, run, slot, ty, value)
    }
}

fn take_from<'a>(
    alloc: Global,
    run: &mut Run<'a>,
    slot: u32,
    ty: &JavaType,
    array: u64,
    turn: u64,
) -> Result<Focus<'a>, NoMemory>
    ensures { Leads run.old result run.new (λ p s. a_truth (taken_from slot ty.now array turn s)) }
{
    let Some(items) = items_of(&run.state, array) else {
        return misfit(alloc, run);
    };
    match items.get(turn as usize).copied() {
        None => Ok(Focus::Gives(Answer::Truth(false))),
        Some(value) => take_fitted(alloc, run, slot, ty, value),
    }
}

/// The variable of an enhanced `for` takes the next item of an array, if there is one.
pub fn take_item<'a>(
    alloc: Global,
    run: &mut Run<'a>,
    slot: u32,
    ty: &JavaType,
    array: Value,
    turn: u64,
) -> Result<Focus<'a>, NoMemory>
    ensures { Leads run.old result run.new (λ p s. a_truth (item_before slot ty.now array turn s)) }
{
    match array {
        Value::Null => throw_plain(alloc, run, NULL_POINTER),
        Value::Ref(array) => take_from(alloc, run, slot, ty, array, turn),
        _ => misfit(alloc, run),
    }
}
