//! Strings: of literals, and of arrays of characters.

ghost use Rattle.std.specs.Prelude.{◌≡◌, option_and_then, IfOk, slice_get};
ghost use Rattle.core_meaning.specs.State as spec;
ghost use Rattle.core_meaning.specs.Members.{chars_of as chars_among};
ghost use Rattle.core_meaning.specs.Texts as texts;
ghost use Rattle.run_state.specs.Ends.{IsLiteral};
ghost use Rattle.std.specs.List.{find};

use crate::heap::add_text;
use crate::reads::{items_of, units_of};
use core_meaning::{State, Value};
use java_tree::{Items, NoMemory};
use std::alloc::Global;

fn is_text(state: &State, units: &[u16], text: u64) -> bool
    ensures { result ≡ texts.is_text units.now state.now.texts text }
{
    match units_of(state, text) {
        None => false,
        Some(others) => units == others,
    }
}

fn find_literal(state: &State, units: &[u16]) -> Option<u64>
    ensures { result ≡ find (texts.is_text units.now state.now.texts) state.now.literals }
{
    for text in state.literals.as_slice() {
        if is_text(state, units, *text) {
            return Some(*text);
        }
    }
    None
}

/// The string of a literal: equal literals are one object (JLS 3.10.5).
pub fn literal(alloc: Global, state: &mut State, units: &[u16]) -> Result<u64, NoMemory>
    ensures { IsLiteral result state.new units.now state.old }
{
    if let Some(text) = find_literal(state, units) {
        return Ok(text);
    }
    let text = add_text(state, Items::from_slice(alloc, units)?)?;
    state.literals.push(text)?;
    Ok(text)
}

fn chars_in(alloc: Global, items: &[Value]) -> Result<Option<Items<u16>>, NoMemory>
    ensures { IfOk result (λ r. r ≡ chars_among items.now) }
{
    let mut chars = Items::new(alloc);
    for item in items {
        match item {
            Value::Char(c) => chars.push(*c)?,
            _ => return Ok(None),
        }
    }
    Ok(Some(chars))
}

/// The characters of an array that has nothing else.
pub fn chars_at(alloc: Global, state: &State, array: u64) -> Result<Option<Items<u16>>, NoMemory>
    ensures { IfOk result (λ r. r ≡ option_and_then chars_among (spec.items_of array state.now)) }
{
    match items_of(state, array) {
        None => Ok(None),
        Some(items) => chars_in(alloc, items),
    }
}
