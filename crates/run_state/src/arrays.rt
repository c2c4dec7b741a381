//! New arrays, of one dimension or more (JLS 15.10.1).

ghost use Rattle.std.specs.Prelude.{◌≡◌, length, replicate, IfOk, OnOk};
ghost use Rattle.core_meaning.specs.declared.values.Thing.TheVariants.{Array};
ghost use Rattle.core_meaning.specs.State.{with_thing};
ghost use Rattle.core_meaning.specs.Code as code;
ghost use Rattle.core_meaning.specs.Expressions as spec;
ghost use Rattle.core_meaning.specs.Outcome as outcome;
ghost use Rattle.run_state.specs.Ends.{Ends};

use crate::changes::set_array;
use crate::heap::add_thing;
use crate::stop::Stop;
use crate::throws;
use class_world::{JavaType, copied};
use core_meaning::{State, Thing, Value};
use java_tree::tree::Primitive;
use java_tree::{Items, NoMemory};
use std::alloc::Global;
use type_kinds::kinds::{element, primitive};

/// The value that a variable of a type has at first (JLS 4.12.5).
pub fn default_value(t: &JavaType) -> Value
    ensures { result ≡ code.default_value t.now }
{
    match primitive(t) {
        Some(Primitive::Int) => Value::Int(0),
        Some(Primitive::Long) => Value::Long(0),
        Some(Primitive::Char) => Value::Char(0),
        Some(Primitive::Boolean) => Value::Truth(false),
        None => Value::Null,
    }
}

fn misfit(alloc: Global, state: &mut State) -> Result<Value, Stop>
    ensures { Ends result state.new (outcome.misfit state.old) }
{
    let thrown = throws::misfit(alloc, state)?;
    Err(Stop::Threw(thrown))
}

/// A new array of first values, and its number.
fn add_array(
    alloc: Global,
    state: &mut State,
    size: usize,
    item: &JavaType,
) -> Result<u64, NoMemory>
    ensures number { IfOk result (λ r. r ≡ length state.old.heap) }
    ensures after { OnOk result (state.new ≡ with_thing (Array item.now (replicate size (code.default_value item.now))) state.old) }
{
    let items = Items::from_vec(vec![in alloc; default_value(item); size]?);
    let element = copied(alloc, item)?;
    add_thing(state, Thing::Array { element, items })
}

/// Arrays of these sizes, the outer before its inner ones; behind the last size stand first values. It is a misfit where the type is that of arrays of fewer dimensions.
#[cycle(arrays)]
pub fn arrays_of(
    alloc: Global,
    state: &mut State,
    sizes: &[usize],
    t: &JavaType,
) -> Result<Value, Stop>
    ensures { Ends result state.new (spec.arrays_of sizes.now t.now state.old) }
{
    match sizes.split_first() {
        None => Ok(default_value(t)),
        Some((size, inner)) => match element(t) {
            None => misfit(alloc, state),
            Some(item) => array_of(alloc, state, *size, inner, item),
        },
    }
}

#[cycle(arrays)]
fn array_of(
    alloc: Global,
    state: &mut State,
    size: usize,
    inner: &[usize],
    item: &JavaType,
) -> Result<Value, Stop>
    ensures { Ends result state.new (spec.array_with item.now size (spec.repeated size (spec.arrays_of inner.now item.now)) state.old) }
{
    let array = add_array(alloc, state, size, item)?;
    if inner.is_empty() {
        return Ok(Value::Ref(array));
    }
    let items = repeated(alloc, state, size, inner, item)?;
    set_array(state, array, copied(alloc, item)?, items);
    Ok(Value::Ref(array))
}

#[cycle(arrays)]
fn repeated(
    alloc: Global,
    state: &mut State,
    size: usize,
    sizes: &[usize],
    t: &JavaType,
) -> Result<Items<Value>, Stop>
    ensures { Ends result state.new (spec.repeated size (spec.arrays_of sizes.now t.now) state.old) }
{
    let mut items = Items::new(alloc);
    for _made in 0..size {
        items.push(arrays_of(alloc, state, sizes, t)?)?;
    }
    Ok(items)
}
