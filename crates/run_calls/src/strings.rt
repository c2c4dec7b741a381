//! The methods of String (JLS 4.3.3).

ghost use Rattle.std.specs.Prelude.{◌≡◌, [], ◌∷◌, IfOk};
ghost use Rattle.std.specs.Option.{option_copied};
ghost use Rattle.core_meaning.specs.declared.values.State.{State as RunState};
ghost use Rattle.core_meaning.specs.declared.values.Value.TheVariants as v;
ghost use Rattle.core_meaning.specs.declared.built_ins.BuiltIn.TheVariants as b;
ghost use Rattle.core_meaning.specs.Texts as spec;
ghost use Rattle.core_meaning.specs.Members as members;
ghost use Rattle.core_meaning.specs.Outcome.{Gives, with_int, with_some};
ghost use Rattle.run_frames.specs.Frames.{valued};
ghost use Rattle.run_frames.specs.Runs.{Leads};
ghost use Rattle.run_calls.specs.Units.{given_cut, given_part, given_unit, object_in, refused, units_in};

use crate::table::{NULL_POINTER_EXCEPTION, STRING_INDEX_EXCEPTION};
use core_meaning::{State, Value};
use java_strings::{length_of, number_units, same_units};
use java_tree::{Items, NoMemory};
use run_frames::{Answer, Focus, Run};
use run_state::reads;
use run_values::{make_text, misfit, throw_plain, throw_saying};
use std::alloc::Global;

/// What a value does that is not what an operation needs: null throws NullPointerException.
pub(crate) fn refuse<'a>(
    alloc: Global,
    run: &mut Run<'a>,
    value: Value,
) -> Result<Focus<'a>, NoMemory>
    ensures { Leads run.old result run.new (λ p s. refused value s) }
{
    match value {
        Value::Null => throw_plain(alloc, run, NULL_POINTER_EXCEPTION),
        _ => misfit(alloc, run),
    }
}

/// The number of an object or array.
pub(crate) fn object_in(value: Value) -> Option<u64>
    ensures { result ≡ object_in value }
{
    match value {
        Value::Ref(object) => Some(object),
        _ => None,
    }
}

/// The units of a string.
pub(crate) fn units_in(state: &State, value: Value) -> Option<&[u16]>
    ensures { option_copied result ≡ units_in value state.now }
{
    match value {
        Value::Text(text) => reads::units_of(state, text),
        _ => None,
    }
}

#[tactic(auto, using(crate::proofs::Units::with_units_by))]
pub(crate) fn length<'a>(
    alloc: Global,
    run: &mut Run<'a>,
    this: Value,
) -> Result<Focus<'a>, NoMemory>
    ensures { Leads run.old result run.new (λ p s. valued (members.plain b.Length this [] s)) }
{
    match units_in(&run.state, this) {
        None => refuse(alloc, run, this),
        Some(units) => Ok(Focus::Gives(Answer::Value(Value::Int(length_of(units))))),
    }
}

#[tactic(auto, using(crate::proofs::Units::with_units_by))]
pub(crate) fn hash<'a>(alloc: Global, run: &mut Run<'a>, this: Value) -> Result<Focus<'a>, NoMemory>
    ensures { Leads run.old result run.new (λ p s. valued (members.plain b.StringHashCode this [] s)) }
{
    match units_in(&run.state, this) {
        None => refuse(alloc, run, this),
        Some(units) => Ok(Focus::Gives(Answer::Value(Value::Int(java_strings::hash_of(units))))),
    }
}

/// The unit at an index, or else what the index says as a string.
#[tactic(auto, using(crate::proofs::Units::low_at_most))]
fn unit_at(alloc: Global, units: &[u16], at: i32) -> Result<Result<u16, Items<u16>>, NoMemory>
    ensures { IfOk result (λ r. (s : RunState) → given_unit r s ≡ members.char_at units.now at s) }
{
    if 0 <= at && at < length_of(units) {
        return Ok(Ok(units[at.unsigned_abs() as usize]));
    }
    Ok(Err(number_units(alloc, i64::from(at))?))
}

#[tactic(auto, using(crate::proofs::Units::with_units_by))]
pub(crate) fn char_at<'a>(
    alloc: Global,
    run: &mut Run<'a>,
    this: Value,
    at: Value,
) -> Result<Focus<'a>, NoMemory>
    ensures { Leads run.old result run.new (λ p s. valued (members.plain b.CharAt this (at ∷ []) s)) }
{
    match units_in(&run.state, this) {
        None => refuse(alloc, run, this),
        Some(units) => match at {
            Value::Int(at) => match unit_at(alloc, units, at)? {
                Ok(unit) => Ok(Focus::Gives(Answer::Value(Value::Char(unit)))),
                Err(index) => throw_saying(alloc, run, STRING_INDEX_EXCEPTION, index),
            },
            _ => misfit(alloc, run),
        },
    }
}

/// The units between two indices, or else what the index says that is wrong: where it begins, if that is below 0 or above the length, else where it ends.
#[tactic(auto, using(crate::proofs::Units::low_at_most))]
fn cut(
    alloc: Global,
    units: &[u16],
    from: i32,
    to: i32,
) -> Result<Result<Items<u16>, Items<u16>>, NoMemory>
    ensures { IfOk result (λ r. (s : RunState) → given_cut r s ≡ members.substring units.now from to s) }
{
    let length = length_of(units);
    if from < 0 || length < from {
        return Ok(Err(number_units(alloc, i64::from(from))?));
    }
    if to < from || length < to {
        return Ok(Err(number_units(alloc, i64::from(to))?));
    }
    let part = &units[from.unsigned_abs() as usize..to.unsigned_abs() as usize];
    Ok(Ok(Items::from_slice(alloc, part)?))
}

/// The same of two values, if they are ints.
fn part(
    alloc: Global,
    units: &[u16],
    from: Value,
    to: Value,
) -> Result<Option<Result<Items<u16>, Items<u16>>>, NoMemory>
    ensures { IfOk result (λ r. (s : RunState) → given_part r s ≡ with_int from s (λ z. with_int to s (λ w. members.substring units.now z w s))) }
{
    match from {
        Value::Int(from) => match to {
            Value::Int(to) => Ok(Some(cut(alloc, units, from, to)?)),
            _ => Ok(None),
        },
        _ => Ok(None),
    }
}

/// The same of one value, up to the end.
fn part_from(
    alloc: Global,
    units: &[u16],
    from: Value,
) -> Result<Option<Result<Items<u16>, Items<u16>>>, NoMemory>
    ensures { IfOk result (λ r. (s : RunState) → given_part r s ≡ with_int from s (λ z. members.substring units.now z (spec.length_of units.now) s)) }
{
    match from {
        Value::Int(from) => Ok(Some(cut(alloc, units, from, length_of(units))?)),
        _ => Ok(None),
    }
}

fn give_part<'a>(
    alloc: Global,
    run: &mut Run<'a>,
    part: Option<Result<Items<u16>, Items<u16>>>,
) -> Result<Focus<'a>, NoMemory>
    ensures { Leads run.old result run.new (λ p s. valued (given_part part s)) }
{
    match part {
        None => misfit(alloc, run),
        Some(Ok(units)) => make_text(alloc, run, units),
        Some(Err(index)) => throw_saying(alloc, run, STRING_INDEX_EXCEPTION, index),
    }
}

pub(crate) fn substring_from<'a>(
    alloc: Global,
    run: &mut Run<'a>,
    this: Value,
    from: Value,
) -> Result<Focus<'a>, NoMemory>
    ensures { Leads run.old result run.new (λ p s. valued (members.plain b.SubstringFrom this (from ∷ []) s)) }
{
    match units_in(&run.state, this) {
        None => refuse(alloc, run, this),
        Some(units) => {
            let part = part_from(alloc, units, from)?;
            give_part(alloc, run, part)
        }
    }
}

pub(crate) fn substring_between<'a>(
    alloc: Global,
    run: &mut Run<'a>,
    this: Value,
    from: Value,
    to: Value,
) -> Result<Focus<'a>, NoMemory>
    ensures { Leads run.old result run.new (λ p s. valued (members.plain b.SubstringBetween this (from ∷ to ∷ []) s)) }
{
    match units_in(&run.state, this) {
        None => refuse(alloc, run, this),
        Some(units) => {
            let part = part(alloc, units, from, to)?;
            give_part(alloc, run, part)
        }
    }
}

#[tactic(auto, using(crate::proofs::Units::with_units_by))]
pub(crate) fn compare<'a>(
    alloc: Global,
    run: &mut Run<'a>,
    this: Value,
    other: Value,
) -> Result<Focus<'a>, NoMemory>
    ensures { Leads run.old result run.new (λ p s. valued (members.plain b.CompareTo this (other ∷ []) s)) }
{
    match units_in(&run.state, this) {
        None => refuse(alloc, run, this),
        Some(units) => match units_in(&run.state, other) {
            None => refuse(alloc, run, other),
            Some(others) => {
                let difference = java_strings::difference(units, others);
                Ok(Focus::Gives(Answer::Value(Value::Int(difference))))
            }
        },
    }
}

/// Whether a value is a string of these units. There is no answer where it is a string that is not there.
fn is_text(state: &State, units: &[u16], other: Value) -> Option<bool>
    ensures { with_some result state.now (λ b. Gives (v.Truth b) state.now) ≡ members.equals_text units.now other state.now }
{
    match other {
        Value::Text(text) => Some(same_units(units, reads::units_of(state, text)?)),
        _ => Some(false),
    }
}

#[tactic(auto, using(crate::proofs::Units::with_units_by))]
pub(crate) fn equals<'a>(
    alloc: Global,
    run: &mut Run<'a>,
    this: Value,
    other: Value,
) -> Result<Focus<'a>, NoMemory>
    ensures { Leads run.old result run.new (λ p s. valued (members.plain b.StringEquals this (other ∷ []) s)) }
{
    match units_in(&run.state, this) {
        None => refuse(alloc, run, this),
        Some(units) => match is_text(&run.state, units, other) {
            None => misfit(alloc, run),
            Some(same) => Ok(Focus::Gives(Answer::Value(Value::Truth(same)))),
        },
    }
}
