//! What the machine throws by itself (JLS 11.3.1), and objects that a program throws.

ghost use Rattle.core_meaning.specs.Outcome.{Gives, Threw, misfit, throws_plain, throws_saying, with_reference, with_some};
ghost use Rattle.core_meaning.specs.Texts as texts;
ghost use Rattle.run_frames.specs.Frames.{valued};
ghost use Rattle.run_frames.specs.Runs.{Leads};

use core_meaning::Value;
use java_strings::number_units;
use java_tree::{Items, NoMemory};
use run_frames::{Answer, Focus, Run};
use run_state::throws;
use std::alloc::Global;

/// The number of ArithmeticException.
pub(crate) const ARITHMETIC: u32 = 8;

/// The number of NullPointerException.
pub(crate) const NULL_POINTER: u32 = 9;

/// The number of ClassCastException.
pub(crate) const CLASS_CAST: u32 = 10;

/// The number of ArrayStoreException.
pub(crate) const ARRAY_STORE: u32 = 11;

/// The number of NegativeArraySizeException.
pub(crate) const NEGATIVE_ARRAY_SIZE: u32 = 12;

/// The number of ArrayIndexOutOfBoundsException.
pub(crate) const ARRAY_INDEX: u32 = 14;

/// The run has gone wrong: an operation met values that it has no rule for.
pub fn misfit<'a>(alloc: Global, run: &mut Run<'a>) -> Result<Focus<'a>, NoMemory>
    ensures { Leads run.old result run.new (λ p s. misfit s) }
{
    let thrown = throws::misfit(alloc, &mut run.state)?;
    Ok(Focus::Threw(thrown))
}

/// An exception of the machine without a message is thrown.
pub fn throw_plain<'a>(alloc: Global, run: &mut Run<'a>, class: u32) -> Result<Focus<'a>, NoMemory>
    ensures { Leads run.old result run.new (λ p s. throws_plain class s) }
{
    let thrown = throws::throw_plain(alloc, &mut run.state, class)?;
    Ok(Focus::Threw(thrown))
}

/// An exception of the machine with a message is thrown.
pub fn throw_saying<'a>(
    alloc: Global,
    run: &mut Run<'a>,
    class: u32,
    units: Items<u16>,
) -> Result<Focus<'a>, NoMemory>
    ensures { Leads run.old result run.new (λ p s. throws_saying class units s) }
{
    let thrown = throws::throw_saying(alloc, &mut run.state, class, units)?;
    Ok(Focus::Threw(thrown))
}

/// A program throws an object; null throws NullPointerException (JLS 14.18).
pub fn throw_value<'a>(
    alloc: Global,
    run: &mut Run<'a>,
    value: Value,
) -> Result<Focus<'a>, NoMemory>
    ensures { Leads run.old result run.new (λ p s. with_reference value s (λ k. Threw k s)) }
{
    match value {
        Value::Null => throw_plain(alloc, run, NULL_POINTER),
        Value::Ref(thrown) => Ok(Focus::Threw(thrown)),
        _ => misfit(alloc, run),
    }
}

/// An exception of the machine is thrown whose message is a number.
pub(crate) fn throw_number<'a>(
    alloc: Global,
    run: &mut Run<'a>,
    class: u32,
    number: i32,
) -> Result<Focus<'a>, NoMemory>
    ensures { Leads run.old result run.new (λ p s. throws_saying class (texts.number_units number) s) }
{
    let units = number_units(alloc, i64::from(number))?;
    throw_saying(alloc, run, class, units)
}

/// The value of a piece that gives one wherever it has a rule for what it meets.
pub(crate) fn give<'a>(
    alloc: Global,
    run: &mut Run<'a>,
    value: Option<Value>,
) -> Result<Focus<'a>, NoMemory>
    ensures { Leads run.old result run.new (λ p s. valued (with_some value s (λ a. Gives a s))) }
{
    match value {
        None => misfit(alloc, run),
        Some(value) => Ok(Focus::Gives(Answer::Value(value))),
    }
}
