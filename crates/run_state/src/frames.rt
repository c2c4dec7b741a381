//! Steps, frames and locals.

ghost use Rattle.std.specs.Prelude.{◌≡◌, OnOk};
ghost use Rattle.core_meaning.specs.State as spec;
ghost use Rattle.run_state.specs.Ends.{TakesStep};

use core_meaning::{Frame, State, Value};
use java_tree::{Items, NoMemory};
use std::mem;

/// Takes a step, where one is left, and says whether one was.
pub fn take_step(state: &mut State) -> bool
    ensures { TakesStep state.old result state.new }
{
    if state.left == 0 {
        return false;
    }
    state.left -= 1;
    true
}

/// Puts a frame in the place of the one that there is, which it gives.
pub fn swap_frame(state: &mut State, frame: Frame) -> Frame
    ensures after { state.new ≡ spec.with_frame frame state.old }
    ensures before { result ≡ state.old.frame }
{
    mem::replace(&mut state.frame, frame)
}

#[tactic(auto, using(crate::proofs::Slots::with_slot_set, crate::proofs::Slots::with_slot_grown))]
fn set_slot(slots: &mut Items<Option<Value>>, at: usize, value: Value) -> Result<(), NoMemory>
    ensures { OnOk result (slots.new ≡ spec.with_slot at value slots.old) }
{
    while slots.len() <= at {
        slots.push(None)?;
    }
    *slots.at_mut(at) = Some(value);
    Ok(())
}

/// A parameter or local takes a value.
pub fn set_local(state: &mut State, slot: u32, value: Value) -> Result<(), NoMemory>
    ensures { OnOk result (state.new ≡ spec.with_local slot value state.old) }
{
    set_slot(&mut state.frame.slots, slot as usize, value)
}
