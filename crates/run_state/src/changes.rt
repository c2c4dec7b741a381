//! What changes in a state.

ghost use Rattle.std.specs.Prelude.{◌≡◌, OnOk};
ghost use Rattle.core_meaning.specs.State as spec;

use class_world::JavaType;
use core_meaning::{Held, Progress, State, Thing, Value};
use java_tree::{Items, NoMemory};

/// A static field takes a value.
pub fn set_static(state: &mut State, field: u32, value: Value)
    ensures { state.new ≡ spec.with_static field value state.old }
{
    let at = field as usize;
    if at < state.statics.len() {
        *state.statics.at_mut(at) = Some(value);
    }
}

/// The initialisation of a type has come this far.
pub fn set_progress(state: &mut State, class: u32, progress: Progress)
    ensures { state.new ≡ spec.with_progress class progress state.old }
{
    let at = class as usize;
    if at < state.progress.len() {
        *state.progress.at_mut(at) = progress;
    }
}

/// The run has gone wrong.
pub fn go_wrong(state: &mut State)
    ensures { state.new ≡ spec.gone_wrong state.old }
{
    state.wrong = true;
}

/// A method is entered.
pub fn add_entered(state: &mut State, method: u32) -> Result<(), NoMemory>
    ensures { OnOk result (state.new ≡ spec.with_entered method state.old) }
{
    state.entered.push(method)?;
    Ok(())
}

fn set_value(held: &mut Held, field: u32, value: Value)
    ensures { held.new ≡ spec.with_value field value held.old }
{
    if held.field == field {
        held.value = value;
    }
}

fn set_held(fields: &mut Items<Held>, field: u32, value: Value)
    ensures { fields.new ≡ spec.with_held field value fields.old }
{
    for i in 0..fields.len() {
        set_value(fields.at_mut(i), field, value);
    }
}

fn change_field(thing: &mut Thing, field: u32, value: Value)
    ensures { thing.new ≡ spec.thing_with field value thing.old }
{
    match thing {
        Thing::Object { fields, .. } => set_held(fields, field, value),
        Thing::Array { .. } => {}
    }
}

/// A field of an object takes a value.
#[tactic(auto, using(crate::proofs::Changed::changed_past))]
pub fn set_field(state: &mut State, object: u64, field: u32, value: Value)
    ensures { state.new ≡ spec.with_field object field value state.old }
{
    let at = object as usize;
    if at < state.heap.len() {
        change_field(state.heap.at_mut(at), field, value);
    }
}

fn change_message(thing: &mut Thing, value: Value)
    ensures { thing.new ≡ spec.thing_saying value thing.old }
{
    match thing {
        Thing::Object { message, .. } => *message = value,
        Thing::Array { .. } => {}
    }
}

/// A throwable takes its message.
#[tactic(auto, using(crate::proofs::Changed::changed_past))]
pub fn set_message(state: &mut State, object: u64, value: Value)
    ensures { state.new ≡ spec.with_message object value state.old }
{
    let at = object as usize;
    if at < state.heap.len() {
        change_message(state.heap.at_mut(at), value);
    }
}

fn change_item(thing: &mut Thing, at: usize, value: Value)
    ensures { thing.new ≡ spec.thing_item at value thing.old }
{
    match thing {
        Thing::Object { .. } => {}
        Thing::Array { items, .. } => {
            if at < items.len() {
                *items.at_mut(at) = value;
            }
        }
    }
}

/// An item of an array takes a value.
#[tactic(auto, using(crate::proofs::Changed::changed_past))]
pub fn set_item(state: &mut State, array: u64, at: usize, value: Value)
    ensures { state.new ≡ spec.with_item array at value state.old }
{
    let place = array as usize;
    if place < state.heap.len() {
        change_item(state.heap.at_mut(place), at, value);
    }
}

/// An array takes the place of what has a number.
pub fn set_array(state: &mut State, array: u64, element: JavaType, items: Items<Value>)
    ensures { state.new ≡ spec.with_array array element items state.old }
{
    let at = array as usize;
    if at < state.heap.len() {
        *state.heap.at_mut(at) = Thing::Array { element, items };
    }
}
