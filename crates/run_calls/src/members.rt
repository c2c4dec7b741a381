//! Built-in members.

ghost use Rattle.std.specs.Prelude.{[], ◌∷◌};
ghost use Rattle.core_meaning.specs.Members as spec;
ghost use Rattle.core_meaning.specs.Members.{performed, with_one};
ghost use Rattle.run_frames.specs.Frames.{valued};
ghost use Rattle.run_frames.specs.Runs.{Leads};
ghost use Rattle.running_code.specs.Running.{IsReady};
ghost use Rattle.run_values.specs.Does.{Does};

use crate::asks::speak;
use crate::objects::{compare_references, hash_identity, read_message, take_message};
use crate::strings;
use crate::texts::{print, print_chars, print_units};
use core_meaning::{BuiltIn, Value};
use java_tree::{Items, NoMemory};
use run_frames::{Answer, Focus, Run};
use run_values::misfit;
use running_code::Running;
use std::alloc::Global;

/// A built-in method or constructor without arguments that calls nothing.
pub(crate) fn perform_alone<'a>(
    alloc: Global,
    run: &mut Run<'a>,
    member: BuiltIn,
    this: Value,
) -> Result<Focus<'a>, NoMemory>
    ensures { Leads run.old result run.new (λ p s. valued (spec.plain member this [] s)) }
{
    match member {
        BuiltIn::NewObject => Ok(Focus::Gives(Answer::Value(Value::Null))),
        BuiltIn::NewThrowable { message: false } => Ok(Focus::Gives(Answer::Value(Value::Null))),
        BuiltIn::ObjectHashCode => hash_identity(alloc, run, this),
        BuiltIn::Length => strings::length(alloc, run, this),
        BuiltIn::StringHashCode => strings::hash(alloc, run, this),
        BuiltIn::StringToString => Ok(Focus::Gives(Answer::Value(this))),
        BuiltIn::PrintLine => print_units(alloc, run, true, Items::new(alloc)),
        BuiltIn::GetMessage => read_message(alloc, run, this),
        _ => misfit(alloc, run),
    }
}

/// The same with one argument.
fn perform_with_one<'a>(
    alloc: Global,
    run: &mut Run<'a>,
    member: BuiltIn,
    this: Value,
    x: Value,
) -> Result<Focus<'a>, NoMemory>
    ensures { Leads run.old result run.new (λ p s. valued (spec.plain member this (x ∷ []) s)) }
{
    match member {
        BuiltIn::NewThrowable { message: true } => take_message(alloc, run, this, x),
        BuiltIn::ObjectEquals => compare_references(alloc, run, this, x),
        BuiltIn::CharAt => strings::char_at(alloc, run, this, x),
        BuiltIn::SubstringFrom => strings::substring_from(alloc, run, this, x),
        BuiltIn::CompareTo => strings::compare(alloc, run, this, x),
        BuiltIn::StringEquals => strings::equals(alloc, run, this, x),
        BuiltIn::PrintChars { line } => print_chars(alloc, run, line, x),
        _ => misfit(alloc, run),
    }
}

/// The same with two arguments.
fn perform_with_two<'a>(
    alloc: Global,
    run: &mut Run<'a>,
    member: BuiltIn,
    this: Value,
    x: Value,
    y: Value,
) -> Result<Focus<'a>, NoMemory>
    ensures { Leads run.old result run.new (λ p s. valued (spec.plain member this (x ∷ y ∷ []) s)) }
{
    match member {
        BuiltIn::SubstringBetween => strings::substring_between(alloc, run, this, x, y),
        _ => misfit(alloc, run),
    }
}

/// A built-in method or constructor that calls nothing.
#[tactic(auto, using(crate::proofs::Args::of_more))]
fn perform_plain<'a>(
    alloc: Global,
    run: &mut Run<'a>,
    member: BuiltIn,
    this: Value,
    args: Items<Value>,
) -> Result<Focus<'a>, NoMemory>
    ensures { Leads run.old result run.new (λ p s. valued (spec.plain member this args s)) }
{
    match args.as_slice() {
        [] => perform_alone(alloc, run, member, this),
        [x] => perform_with_one(alloc, run, member, this, *x),
        [x, y] => perform_with_two(alloc, run, member, this, *x, *y),
        _ => misfit(alloc, run),
    }
}

/// A built-in method or constructor that calls no toString().
#[tactic(auto, using(crate::proofs::Args::speaks_plain))]
fn perform_speaking<'a>(
    alloc: Global,
    g: &'a Running<'a>,
    run: &mut Run<'a>,
    member: BuiltIn,
    this: Value,
    args: Items<Value>,
) -> Result<Focus<'a>, NoMemory>
    requires { IsReady g.now }
    ensures { Does g.now run.old result run.new (λ p s. valued (spec.speaking p member this args s)) }
{
    if args.is_empty() {
        return speak(alloc, g, run, member, this);
    }
    perform_plain(alloc, run, member, this, args)
}

#[tactic(auto, using(crate::proofs::Args::not_one))]
fn perform_print<'a>(
    alloc: Global,
    g: &'a Running<'a>,
    run: &mut Run<'a>,
    line: bool,
    args: Items<Value>,
) -> Result<Focus<'a>, NoMemory>
    requires { IsReady g.now }
    ensures { Does g.now run.old result run.new (λ p s. valued (with_one args s (λ x. spec.print p line x s))) }
{
    match args.as_slice() {
        [x] => print(alloc, g, run, line, *x),
        _ => misfit(alloc, run),
    }
}

/// A built-in method or constructor.
#[tactic(auto, using(crate::proofs::Args::performs_speaking))]
pub fn perform<'a>(
    alloc: Global,
    g: &'a Running<'a>,
    run: &mut Run<'a>,
    member: BuiltIn,
    this: Value,
    args: Items<Value>,
) -> Result<Focus<'a>, NoMemory>
    requires { IsReady g.now }
    ensures { Does g.now run.old result run.new (λ p s. valued (performed p member this args s)) }
{
    match member {
        BuiltIn::Print { line } => perform_print(alloc, g, run, line, args),
        _ => perform_speaking(alloc, g, run, member, this, args),
    }
}
