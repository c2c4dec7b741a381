//! New objects, arrays and strings.

ghost use Rattle.std.specs.Prelude.{◌≡◌, length, IfOk, OnOk};
ghost use Rattle.core_meaning.specs.State as spec;

use core_meaning::{State, Thing};
use java_tree::{Items, NoMemory};

/// A new object or array, and its number.
pub fn add_thing(state: &mut State, thing: Thing) -> Result<u64, NoMemory>
    ensures number { IfOk result (λ r. r ≡ length state.old.heap) }
    ensures after { OnOk result (state.new ≡ spec.with_thing thing state.old) }
{
    let number = state.heap.len() as u64;
    state.heap.push(thing)?;
    Ok(number)
}

/// A new string, and its identity.
pub fn add_text(state: &mut State, units: Items<u16>) -> Result<u64, NoMemory>
    ensures number { IfOk result (λ r. r ≡ length state.old.texts) }
    ensures after { OnOk result (state.new ≡ spec.with_text units state.old) }
{
    let number = state.texts.len() as u64;
    state.texts.push(units)?;
    Ok(number)
}
