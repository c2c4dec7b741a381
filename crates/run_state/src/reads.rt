//! What a state holds.

ghost use Rattle.std.specs.Prelude.{◌≡◌, is_some, slice_get};
ghost use Rattle.std.specs.Option.{option_copied};
ghost use Rattle.core_meaning.specs.State as spec;
ghost use Rattle.core_meaning.specs.Classes.{class_of as class_of_value, class_of_thing};

use class_world::JavaType;
use core_meaning::{Held, Progress, State, Thing, Value};

/// The number of the class Object.
const OBJECT: u32 = 0;

/// The number of the class String.
const STRING: u32 = 1;

/// What a parameter or local holds, where it holds something.
pub fn in_slot(state: &State, slot: u32) -> Option<Value>
    ensures { result ≡ spec.in_slot slot state.now.frame }
{
    *state.frame.slots.get(slot as usize)?
}

/// What a static field holds.
pub fn in_static(state: &State, field: u32) -> Option<Value>
    ensures { result ≡ spec.in_static field state.now }
{
    *state.statics.get(field as usize)?
}

/// How far the initialisation of a type is (JLS 12.4.2).
pub fn progress_of(state: &State, class: u32) -> Option<Progress>
    ensures { result ≡ slice_get state.now.progress class }
{
    state.progress.get(class as usize).copied()
}

/// The units of a string.
pub fn units_of(state: &State, text: u64) -> Option<&[u16]>
    ensures { option_copied result ≡ slice_get state.now.texts text }
{
    Some(state.texts.get(text as usize)?.as_slice())
}

/// The object or array with a number.
pub fn thing_at(state: &State, thing: u64) -> Option<&Thing>
    ensures { option_copied result ≡ spec.thing_at thing state.now }
{
    state.heap.get(thing as usize)
}

fn held(fields: &[Held], field: u32) -> Option<Value>
    ensures { result ≡ spec.held field fields.now }
{
    let held = fields.iter().find(|held| held.field == field)?;
    Some(held.value)
}

fn field_in(thing: &Thing, field: u32) -> Option<Value>
    ensures { result ≡ spec.thing_field field thing.now }
{
    match thing {
        Thing::Object { fields, .. } => held(fields.as_slice(), field),
        Thing::Array { .. } => None,
    }
}

/// What a field of an object holds.
pub fn field_of(state: &State, object: u64, field: u32) -> Option<Value>
    ensures { result ≡ spec.field_of object field state.now }
{
    field_in(thing_at(state, object)?, field)
}

fn message_in(thing: &Thing) -> Option<Value>
    ensures { result ≡ spec.thing_message thing.now }
{
    match thing {
        Thing::Object { message, .. } => Some(*message),
        Thing::Array { .. } => None,
    }
}

/// The message of an object, which is null in any but a throwable.
pub fn message_of(state: &State, object: u64) -> Option<Value>
    ensures { result ≡ spec.message_of object state.now }
{
    message_in(thing_at(state, object)?)
}

fn items_in(thing: &Thing) -> Option<&[Value]>
    ensures { option_copied result ≡ spec.thing_items thing.now }
{
    match thing {
        Thing::Object { .. } => None,
        Thing::Array { items, .. } => Some(items.as_slice()),
    }
}

/// The items of an array.
pub fn items_of(state: &State, array: u64) -> Option<&[Value]>
    ensures { option_copied result ≡ spec.items_of array state.now }
{
    items_in(thing_at(state, array)?)
}

/// Whether what has a number is an array.
pub fn is_array(state: &State, array: u64) -> bool
    ensures { result ≡ is_some (spec.items_of array state.now) }
{
    items_of(state, array).is_some()
}

/// How many items an array has.
pub fn item_count(state: &State, array: u64) -> Option<usize>
    ensures { result ≡ spec.item_count array state.now }
{
    Some(items_of(state, array)?.len())
}

/// An item of an array, where there is an array and such an item.
pub fn item_of(state: &State, array: u64, at: usize) -> Option<Value>
    ensures { result ≡ spec.item_of array at state.now }
{
    items_of(state, array)?.get(at).copied()
}

fn element_in(thing: &Thing) -> Option<&JavaType>
    ensures { option_copied result ≡ spec.thing_element thing.now }
{
    match thing {
        Thing::Object { .. } => None,
        Thing::Array { element, .. } => Some(element),
    }
}

/// The type of an array's items.
pub fn element_of(state: &State, array: u64) -> Option<&JavaType>
    ensures { option_copied result ≡ spec.element_of array state.now }
{
    element_in(thing_at(state, array)?)
}

fn class_in(thing: &Thing) -> u32
    ensures { result ≡ class_of_thing thing.now }
{
    match thing {
        Thing::Object { class, .. } => *class,
        Thing::Array { .. } => OBJECT,
    }
}

/// The class in which a method of an object, array or string is looked up (JLS 15.12.4.4).
pub fn class_of(state: &State, value: Value) -> Option<u32>
    ensures { result ≡ class_of_value value state.now }
{
    match value {
        Value::Ref(thing) => Some(class_in(thing_at(state, thing)?)),
        Value::Text(_) => Some(STRING),
        _ => None,
    }
}
