//! Members that call hashCode() or getMessage(), and calls that the language makes by itself (JLS 15.18.1.1).

ghost use Rattle.std.specs.Prelude.{[]};
ghost use Rattle.core_meaning.specs.BuiltIns as numbers;
ghost use Rattle.core_meaning.specs.Members as spec;
ghost use Rattle.core_meaning.specs.Members.{asked, entered_or, plain, speaking};
ghost use Rattle.run_frames.specs.Frames.{valued};
ghost use Rattle.running_code.specs.Running.{IsReady};
ghost use Rattle.run_values.specs.Does.{Does};
ghost use Rattle.run_calls.specs.Asked.{object_told, throwable_told};

use crate::calls::enter;
use crate::members::perform_alone;
use crate::strings::{object_in, refuse};
use crate::table::{GET_MESSAGE, HASH_CODE, built_in};
use core_meaning::{BuiltIn, Value};
use java_tree::{Items, NoMemory};
use run_frames::{Focus, ForValue, Run, Waits};
use run_state::reads::{class_of, thing_at};
use run_values::misfit;
use running_code::{Running, found, name_of};
use std::alloc::Global;

fn enter_or_plain<'a>(
    alloc: Global,
    g: &'a Running<'a>,
    run: &mut Run<'a>,
    method: u32,
    this: Value,
) -> Result<Focus<'a>, NoMemory>
    requires { IsReady g.now }
    ensures { Does g.now run.old result run.new (λ p s. valued (entered_or plain (numbers.built_in method) p method this [] s)) }
{
    match built_in(method) {
        None => enter(alloc, g, run, method, this, Items::new(alloc)),
        Some(member) => perform_alone(alloc, run, member, this),
    }
}

/// An object is asked by a method whose built-in forms call nothing.
fn ask_plain<'a>(
    alloc: Global,
    g: &'a Running<'a>,
    run: &mut Run<'a>,
    method: u32,
    of: Value,
) -> Result<Focus<'a>, NoMemory>
    requires { IsReady g.now }
    ensures { Does g.now run.old result run.new (λ p s. valued (asked plain p method of s)) }
{
    match class_of(&run.state, of) {
        None => misfit(alloc, run),
        Some(class) => match found(g, method, class) {
            None => misfit(alloc, run),
            Some(method) => enter_or_plain(alloc, g, run, method, of),
        },
    }
}

/// The name of the class, `@` and what hashCode() answers.
#[tactic(auto, using(run_frames::proofs::Outcomes::then_then))]
fn tell_object<'a>(
    alloc: Global,
    g: &'a Running<'a>,
    run: &mut Run<'a>,
    this: Value,
    object: u64,
) -> Result<Focus<'a>, NoMemory>
    requires { IsReady g.now }
    ensures { Does g.now run.old result run.new (λ p s. valued (object_told p this object s)) }
{
    match thing_at(&run.state, object) {
        None => misfit(alloc, run),
        Some(thing) => {
            let name = name_of(alloc, g, thing)?;
            run.stack.push(Waits::Value(ForValue::Hash(name)))?;
            ask_plain(alloc, g, run, HASH_CODE, this)
        }
    }
}

/// The name of the class, and what getMessage() answers.
#[tactic(auto, using(run_frames::proofs::Outcomes::then_then))]
fn tell_throwable<'a>(
    alloc: Global,
    g: &'a Running<'a>,
    run: &mut Run<'a>,
    this: Value,
    object: u64,
) -> Result<Focus<'a>, NoMemory>
    requires { IsReady g.now }
    ensures { Does g.now run.old result run.new (λ p s. valued (throwable_told p this object s)) }
{
    match thing_at(&run.state, object) {
        None => misfit(alloc, run),
        Some(thing) => {
            let name = name_of(alloc, g, thing)?;
            run.stack.push(Waits::Value(ForValue::Message(name)))?;
            ask_plain(alloc, g, run, GET_MESSAGE, this)
        }
    }
}

#[tactic(auto, using(crate::proofs::Units::with_reference_by))]
fn object_text<'a>(
    alloc: Global,
    g: &'a Running<'a>,
    run: &mut Run<'a>,
    this: Value,
) -> Result<Focus<'a>, NoMemory>
    requires { IsReady g.now }
    ensures { Does g.now run.old result run.new (λ p s. valued (spec.object_text p this s)) }
{
    match object_in(this) {
        None => refuse(alloc, run, this),
        Some(object) => tell_object(alloc, g, run, this, object),
    }
}

#[tactic(auto, using(crate::proofs::Units::with_reference_by))]
fn throwable_text<'a>(
    alloc: Global,
    g: &'a Running<'a>,
    run: &mut Run<'a>,
    this: Value,
) -> Result<Focus<'a>, NoMemory>
    requires { IsReady g.now }
    ensures { Does g.now run.old result run.new (λ p s. valued (spec.throwable_text p this s)) }
{
    match object_in(this) {
        None => refuse(alloc, run, this),
        Some(object) => tell_throwable(alloc, g, run, this, object),
    }
}

/// A built-in method or constructor without arguments that calls no toString().
pub(crate) fn speak<'a>(
    alloc: Global,
    g: &'a Running<'a>,
    run: &mut Run<'a>,
    member: BuiltIn,
    this: Value,
) -> Result<Focus<'a>, NoMemory>
    requires { IsReady g.now }
    ensures { Does g.now run.old result run.new (λ p s. valued (speaking p member this [] s)) }
{
    match member {
        BuiltIn::ObjectToString => object_text(alloc, g, run, this),
        BuiltIn::ThrowableToString => throwable_text(alloc, g, run, this),
        _ => perform_alone(alloc, run, member, this),
    }
}

fn enter_or_speak<'a>(
    alloc: Global,
    g: &'a Running<'a>,
    run: &mut Run<'a>,
    method: u32,
    this: Value,
) -> Result<Focus<'a>, NoMemory>
    requires { IsReady g.now }
    ensures { Does g.now run.old result run.new (λ p s. valued (entered_or (speaking p) (numbers.built_in method) p method this [] s)) }
{
    match built_in(method) {
        None => enter(alloc, g, run, method, this, Items::new(alloc)),
        Some(member) => speak(alloc, g, run, member, this),
    }
}

/// An object is asked by a method whose built-in forms call no toString().
pub(crate) fn ask_speaking<'a>(
    alloc: Global,
    g: &'a Running<'a>,
    run: &mut Run<'a>,
    method: u32,
    of: Value,
) -> Result<Focus<'a>, NoMemory>
    requires { IsReady g.now }
    ensures { Does g.now run.old result run.new (λ p s. valued (asked (speaking p) p method of s)) }
{
    match class_of(&run.state, of) {
        None => misfit(alloc, run),
        Some(class) => match found(g, method, class) {
            None => misfit(alloc, run),
            Some(method) => enter_or_speak(alloc, g, run, method, of),
        },
    }
}
