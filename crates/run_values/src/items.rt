//! Items of arrays (JLS 15.13).

ghost use Rattle.std.specs.Prelude.{◌≡◌};
ghost use Rattle.type_kinds.specs.Kinds as kinds;
ghost use Rattle.core_meaning.specs.declared.values.Variable.TheVariants as var;
ghost use Rattle.core_meaning.specs.Variables.{index_in as index_among, read, store};
ghost use Rattle.run_frames.specs.Frames.{valued};
ghost use Rattle.run_frames.specs.Runs.{Leads};
ghost use Rattle.running_code.specs.Running.{IsReady, Makes};
ghost use Rattle.run_values.specs.Does.{Does};
ghost use Rattle.run_values.specs.Found.{among, found_at, item_read, item_stored, stored_at, stored_by};
ghost use Rattle.run_values.specs.Tests as tests;

use crate::casts::holds;
use crate::throws::{
    ARRAY_INDEX, ARRAY_STORE, NULL_POINTER, give, misfit, throw_number, throw_plain,
};
use class_world::JavaType;
use core_meaning::{State, Value};
use java_tree::NoMemory;
use run_frames::{Answer, Focus, Run};
use run_state::changes::set_item;
use run_state::reads::{element_of, item_count, item_of};
use running_code::Running;
use std::alloc::Global;
use type_kinds::kinds::primitive;

/// What an array and an index name: an item; nothing, where the array is null, or where it has no item there; nothing, since there is no rule for it.
#[derive(Clone, Copy)]
enum Found {
    At { array: u64, at: usize },
    NoArray,
    Outside(i32),
    NoRule,
}

fn index_in(at: i32, count: usize) -> Option<usize>
    ensures { result ≡ index_among at count }
{
    if at < 0 {
        return None;
    }
    let at = at.unsigned_abs() as usize;
    if at < count { Some(at) } else { None }
}

fn find_among(array: u64, count: usize, at: Value) -> Found
    ensures { result ≡ among array count at }
{
    match at {
        Value::Int(z) => match index_in(z, count) {
            None => Found::Outside(z),
            Some(at) => Found::At { array, at },
        },
        _ => Found::NoRule,
    }
}

/// Null test, then bounds test (JLS 15.13.1).
fn find_item(state: &State, of: Value, at: Value) -> Found
    ensures { result ≡ found_at of at state.now }
{
    match of {
        Value::Null => Found::NoArray,
        Value::Ref(array) => match item_count(state, array) {
            None => Found::NoRule,
            Some(count) => find_among(array, count, at),
        },
        _ => Found::NoRule,
    }
}

fn read_found<'a>(alloc: Global, run: &mut Run<'a>, found: Found) -> Result<Focus<'a>, NoMemory>
    ensures { Leads run.old result run.new (λ p s. valued (item_read found s)) }
{
    match found {
        Found::At { array, at } => {
            let item = item_of(&run.state, array, at);
            give(alloc, run, item)
        }
        Found::NoArray => throw_plain(alloc, run, NULL_POINTER),
        Found::Outside(at) => throw_number(alloc, run, ARRAY_INDEX, at),
        Found::NoRule => misfit(alloc, run),
    }
}

/// What an item of an array is.
pub(crate) fn read_item<'a>(
    alloc: Global,
    run: &mut Run<'a>,
    of: Value,
    at: Value,
) -> Result<Focus<'a>, NoMemory>
    ensures { Leads run.old result run.new (λ p s. valued (read p (var.Item of at) s)) }
{
    let found = find_item(&run.state, of, at);
    read_found(alloc, run, found)
}

fn holds_reference(
    alloc: Global,
    g: &Running<'_>,
    state: &State,
    element: &JavaType,
    value: Value,
) -> Result<Option<bool>, NoMemory>
    requires { IsReady g.now }
    ensures { Makes g.now result (λ c. tests.storable_by (kinds.primitive element.now) c element.now value state.now) }
{
    match primitive(element) {
        None => holds(alloc, g, state, element, value),
        Some(_) => Ok(Some(true)),
    }
}

/// The store test of an array (JLS 10.10); none where there is no array, or the value is nothing.
fn may_store(
    alloc: Global,
    g: &Running<'_>,
    state: &State,
    array: u64,
    value: Value,
) -> Result<Option<bool>, NoMemory>
    requires { IsReady g.now }
    ensures { Makes g.now result (λ c. tests.may_store c array value state.now) }
{
    match element_of(state, array) {
        None => Ok(None),
        Some(element) => holds_reference(alloc, g, state, element, value),
    }
}

fn store_tested<'a>(
    alloc: Global,
    run: &mut Run<'a>,
    may: Option<bool>,
    array: u64,
    at: usize,
    value: Value,
) -> Result<Focus<'a>, NoMemory>
    ensures { Leads run.old result run.new (λ p s. valued (stored_by may array at value s)) }
{
    match may {
        None => misfit(alloc, run),
        Some(false) => throw_plain(alloc, run, ARRAY_STORE),
        Some(true) => {
            set_item(&mut run.state, array, at, value);
            Ok(Focus::Gives(Answer::Value(value)))
        }
    }
}

fn store_at<'a>(
    alloc: Global,
    g: &'a Running<'a>,
    run: &mut Run<'a>,
    array: u64,
    at: usize,
    value: Value,
) -> Result<Focus<'a>, NoMemory>
    requires { IsReady g.now }
    ensures { Does g.now run.old result run.new (λ p s. valued (stored_at p.code array at value s)) }
{
    let may = may_store(alloc, g, &run.state, array, value)?;
    store_tested(alloc, run, may, array, at, value)
}

fn store_found<'a>(
    alloc: Global,
    g: &'a Running<'a>,
    run: &mut Run<'a>,
    found: Found,
    value: Value,
) -> Result<Focus<'a>, NoMemory>
    requires { IsReady g.now }
    ensures { Does g.now run.old result run.new (λ p s. valued (item_stored p.code found value s)) }
{
    match found {
        Found::At { array, at } => store_at(alloc, g, run, array, at, value),
        Found::NoArray => throw_plain(alloc, run, NULL_POINTER),
        Found::Outside(at) => throw_number(alloc, run, ARRAY_INDEX, at),
        Found::NoRule => misfit(alloc, run),
    }
}

/// An item of an array takes a value.
pub(crate) fn store_item<'a>(
    alloc: Global,
    g: &'a Running<'a>,
    run: &mut Run<'a>,
    of: Value,
    at: Value,
    value: Value,
) -> Result<Focus<'a>, NoMemory>
    requires { IsReady g.now }
    ensures { Does g.now run.old result run.new (λ p s. valued (store p (var.Item of at) value s)) }
{
    let found = find_item(&run.state, of, at);
    store_found(alloc, g, run, found, value)
}
