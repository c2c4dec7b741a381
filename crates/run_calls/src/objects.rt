//! The methods of Object, and the messages of throwables.

ghost use Rattle.core_meaning.specs.declared.values.Value.TheVariants as v;
ghost use Rattle.core_meaning.specs.State.{message_of};
ghost use Rattle.core_meaning.specs.Numbers.{same_reference};
ghost use Rattle.core_meaning.specs.Members.{identity_hash, saying};
ghost use Rattle.core_meaning.specs.Outcome.{Gives, with_reference, with_some};
ghost use Rattle.run_frames.specs.Frames.{valued};
ghost use Rattle.run_frames.specs.Runs.{Leads};

use crate::strings::{object_in, refuse};
use core_meaning::Value;
use java_tree::NoMemory;
use run_frames::{Answer, Focus, Run};
use run_state::changes::set_message;
use run_state::reads;
use run_values::misfit;
use std::alloc::Global;

/// Whether two references are one.
pub(crate) fn compare_references<'a>(
    alloc: Global,
    run: &mut Run<'a>,
    this: Value,
    other: Value,
) -> Result<Focus<'a>, NoMemory>
    ensures { Leads run.old result run.new (λ p s. valued (with_some (same_reference this other) s (λ y. Gives (v.Truth y) s))) }
{
    match primitive_operators::same_reference(this, other) {
        None => misfit(alloc, run),
        Some(same) => Ok(Focus::Gives(Answer::Value(Value::Truth(same)))),
    }
}

/// The identity hash of an object or array: the low 32 bits of its number.
#[tactic(auto, using(java_strings::proofs::Comparing::low_length))]
pub(crate) fn hash_identity<'a>(
    alloc: Global,
    run: &mut Run<'a>,
    this: Value,
) -> Result<Focus<'a>, NoMemory>
    ensures { Leads run.old result run.new (λ p s. valued (identity_hash this s)) }
{
    match this {
        Value::Ref(object) => {
            let hash = ((object % 0x1_0000_0000) as u32).cast_signed();
            Ok(Focus::Gives(Answer::Value(Value::Int(hash))))
        }
        _ => misfit(alloc, run),
    }
}

/// A new throwable takes its message.
#[tactic(auto, using(crate::proofs::Units::with_reference_by))]
pub(crate) fn take_message<'a>(
    alloc: Global,
    run: &mut Run<'a>,
    this: Value,
    message: Value,
) -> Result<Focus<'a>, NoMemory>
    ensures { Leads run.old result run.new (λ p s. valued (saying this message s)) }
{
    match object_in(this) {
        None => refuse(alloc, run, this),
        Some(object) => match reads::message_of(&run.state, object) {
            None => misfit(alloc, run),
            Some(_) => {
                set_message(&mut run.state, object, message);
                Ok(Focus::Gives(Answer::Value(Value::Null)))
            }
        },
    }
}

/// The message of a throwable.
#[tactic(auto, using(crate::proofs::Units::with_reference_by))]
pub(crate) fn read_message<'a>(
    alloc: Global,
    run: &mut Run<'a>,
    this: Value,
) -> Result<Focus<'a>, NoMemory>
    ensures { Leads run.old result run.new (λ p s. valued (with_reference this s (λ r. with_some (message_of r s) s (λ m. Gives m s)))) }
{
    match object_in(this) {
        None => refuse(alloc, run, this),
        Some(object) => match reads::message_of(&run.state, object) {
            None => misfit(alloc, run),
            Some(message) => Ok(Focus::Gives(Answer::Value(message))),
        },
    }
}
