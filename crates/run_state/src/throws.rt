//! Exceptions that the machine throws.

ghost use Rattle.run_state.specs.Ends.{Throws};
ghost use Rattle.core_meaning.specs.declared.values.Value.{Value as ValueType};
ghost use Rattle.core_meaning.specs.Outcome.{throws, throws_plain, throws_saying, misfit as misfit_of};

use crate::changes::go_wrong;
use crate::heap::{add_text, add_thing};
use core_meaning::{State, Thing, Value};
use java_tree::{Items, NoMemory};
use std::alloc::Global;

/// The number of ClassCastException.
const CLASS_CAST: u32 = 10;

fn throw(alloc: Global, state: &mut State, class: u32, message: Value) -> Result<u64, NoMemory>
    ensures { Throws {A = ValueType} result state.new (throws class message state.old) }
{
    let fields = Items::new(alloc);
    add_thing(
        state,
        Thing::Object {
            class,
            fields,
            message,
        },
    )
}

/// Throws a new object of a class, with no message.
pub fn throw_plain(alloc: Global, state: &mut State, class: u32) -> Result<u64, NoMemory>
    ensures { Throws {A = ValueType} result state.new (throws_plain class state.old) }
{
    throw(alloc, state, class, Value::Null)
}

/// Throws a new object of a class, with a new string for a message.
pub fn throw_saying(
    alloc: Global,
    state: &mut State,
    class: u32,
    units: Items<u16>,
) -> Result<u64, NoMemory>
    ensures { Throws {A = ValueType} result state.new (throws_saying class units state.old) }
{
    let message = add_text(state, units)?;
    throw(alloc, state, class, Value::Text(message))
}

/// What an operation does that has no rule for what it meets: the run has gone wrong.
pub fn misfit(alloc: Global, state: &mut State) -> Result<u64, NoMemory>
    ensures { Throws {A = ValueType} result state.new (misfit_of state.old) }
{
    go_wrong(state);
    throw_plain(alloc, state, CLASS_CAST)
}
