//! Variables: how they are read and take values (JLS 15.11 to 15.13, 15.26).

ghost use Rattle.std.specs.Prelude.{if◌then◌else◌, pos};
ghost use Rattle.core_meaning.specs.declared.values.Value.TheVariants as v;
ghost use Rattle.core_meaning.specs.declared.values.Variable.TheVariants as var;
ghost use Rattle.core_meaning.specs.State.{in_static, item_count as counted, with_static};
ghost use Rattle.core_meaning.specs.Numbers.{stepped};
ghost use Rattle.core_meaning.specs.Outcome.{Gives, and_then, with_some};
ghost use Rattle.core_meaning.specs.Variables.{read, store};
ghost use Rattle.core_meaning.specs.Expressions.{array_length};
ghost use Rattle.run_frames.specs.Frames.{nothing, valued};
ghost use Rattle.run_frames.specs.Runs.{Leads};
ghost use Rattle.running_code.specs.Running.{IsReady};
ghost use Rattle.run_values.specs.Does.{Does};
ghost use Rattle.run_values.specs.Found.{held_set};

use crate::items::{read_item, store_item};
use crate::throws::{NULL_POINTER, give, misfit, throw_plain};
use core_meaning::{Value, Variable};
use java_tree::NoMemory;
use primitive_operators::stepped;
use run_frames::run::initialise_for;
use run_frames::{Answer, Focus, ForNothing, ForValue, Run, Waits};
use run_state::changes::{set_field, set_static};
use run_state::frames::set_local;
use run_state::reads::{field_of, in_slot, in_static, item_count};
use running_code::{Running, field_owner, is_constant};
use std::alloc::Global;

fn read_field<'a>(
    alloc: Global,
    run: &mut Run<'a>,
    of: Value,
    field: u32,
) -> Result<Focus<'a>, NoMemory>
    ensures { Leads run.old result run.new (λ p s. valued (read p (var.Field of field) s)) }
{
    match of {
        Value::Null => throw_plain(alloc, run, NULL_POINTER),
        Value::Ref(object) => {
            let held = field_of(&run.state, object, field);
            give(alloc, run, held)
        }
        _ => misfit(alloc, run),
    }
}

fn read_ready<'a>(
    alloc: Global,
    g: &'a Running<'a>,
    run: &mut Run<'a>,
    field: u32,
) -> Result<Focus<'a>, NoMemory>
    requires { IsReady g.now }
    ensures { Does g.now run.old result run.new (λ p s. valued (read p (var.Static field) s)) }
{
    if is_constant(g, field) {
        return read_static(alloc, run, field);
    }
    match field_owner(g, field) {
        None => misfit(alloc, run),
        Some(class) => initialise_for(run, class, ForNothing::ReadStatic(field)),
    }
}

/// What a variable holds. Before a static field is read, the type that declares it is initialised.
pub fn read<'a>(
    alloc: Global,
    g: &'a Running<'a>,
    run: &mut Run<'a>,
    of: Variable,
) -> Result<Focus<'a>, NoMemory>
    requires { IsReady g.now }
    ensures { Does g.now run.old result run.new (λ p s. valued (read p of s)) }
{
    match of {
        Variable::Local(slot) => {
            let held = in_slot(&run.state, slot);
            give(alloc, run, held)
        }
        Variable::Field { of, field } => read_field(alloc, run, of, field),
        Variable::Static(field) => read_ready(alloc, g, run, field),
        Variable::Item { of, at } => read_item(alloc, run, of, at),
    }
}

/// What a static field holds, whose type is initialised.
pub fn read_static<'a>(alloc: Global, run: &mut Run<'a>, field: u32) -> Result<Focus<'a>, NoMemory>
    ensures { Leads run.old result run.new (λ p s. valued (with_some (in_static field s) s (λ a. Gives a s))) }
{
    let held = in_static(&run.state, field);
    give(alloc, run, held)
}

fn store_field<'a>(
    alloc: Global,
    run: &mut Run<'a>,
    of: Value,
    field: u32,
    value: Value,
) -> Result<Focus<'a>, NoMemory>
    ensures { Leads run.old result run.new (λ p s. valued (store p (var.Field of field) value s)) }
{
    match of {
        Value::Null => throw_plain(alloc, run, NULL_POINTER),
        Value::Ref(object) => set_held(alloc, run, object, field, value),
        _ => misfit(alloc, run),
    }
}

fn set_held<'a>(
    alloc: Global,
    run: &mut Run<'a>,
    object: u64,
    field: u32,
    value: Value,
) -> Result<Focus<'a>, NoMemory>
    ensures { Leads run.old result run.new (λ p s. valued (held_set object field value s)) }
{
    match field_of(&run.state, object, field) {
        None => misfit(alloc, run),
        Some(_) => {
            set_field(&mut run.state, object, field, value);
            Ok(Focus::Gives(Answer::Value(value)))
        }
    }
}

fn store_ready<'a>(
    alloc: Global,
    g: &'a Running<'a>,
    run: &mut Run<'a>,
    field: u32,
    value: Value,
) -> Result<Focus<'a>, NoMemory>
    requires { IsReady g.now }
    ensures { Does g.now run.old result run.new (λ p s. valued (store p (var.Static field) value s)) }
{
    if is_constant(g, field) {
        return store_static(alloc, run, field, value);
    }
    match field_owner(g, field) {
        None => misfit(alloc, run),
        Some(class) => initialise_for(run, class, ForNothing::StoreStatic { field, value }),
    }
}

/// A variable takes a value, which is the value of the assignment.
pub fn store<'a>(
    alloc: Global,
    g: &'a Running<'a>,
    run: &mut Run<'a>,
    to: Variable,
    value: Value,
) -> Result<Focus<'a>, NoMemory>
    requires { IsReady g.now }
    ensures { Does g.now run.old result run.new (λ p s. valued (store p to value s)) }
{
    match to {
        Variable::Local(slot) => {
            set_local(&mut run.state, slot, value)?;
            Ok(Focus::Gives(Answer::Value(value)))
        }
        Variable::Field { of, field } => store_field(alloc, run, of, field, value),
        Variable::Static(field) => store_ready(alloc, g, run, field, value),
        Variable::Item { of, at } => store_item(alloc, g, run, of, at, value),
    }
}

/// A static field takes a value, whose type is initialised.
pub fn store_static<'a>(
    alloc: Global,
    run: &mut Run<'a>,
    field: u32,
    value: Value,
) -> Result<Focus<'a>, NoMemory>
    ensures { Leads run.old result run.new (λ p s. valued (with_some (in_static field s) s (λ old. Gives value (with_static field value s)))) }
{
    match in_static(&run.state, field) {
        None => misfit(alloc, run),
        Some(_) => {
            set_static(&mut run.state, field, value);
            Ok(Focus::Gives(Answer::Value(value)))
        }
    }
}

/// A static field takes the value of its initialiser.
pub fn give_static<'a>(
    alloc: Global,
    run: &mut Run<'a>,
    field: u32,
    value: Value,
) -> Result<Focus<'a>, NoMemory>
    ensures { Leads run.old result run.new (λ p s. nothing (with_some (in_static field s) s (λ old. Gives tt (with_static field value s)))) }
{
    match in_static(&run.state, field) {
        None => misfit(alloc, run),
        Some(_) => {
            set_static(&mut run.state, field, value);
            Ok(Focus::Gives(Answer::Nothing))
        }
    }
}

/// A variable takes a value, and another one is the answer. A local, the most common one, takes it at once.
fn store_answering<'a>(
    alloc: Global,
    g: &'a Running<'a>,
    run: &mut Run<'a>,
    to: Variable,
    value: Value,
    answer: Value,
) -> Result<Focus<'a>, NoMemory>
    requires { IsReady g.now }
    ensures { Does g.now run.old result run.new (λ p s. valued (and_then (store p to value s) (λ c s. Gives answer s))) }
{
    match to {
        Variable::Local(slot) => {
            set_local(&mut run.state, slot, value)?;
            Ok(Focus::Gives(Answer::Value(answer)))
        }
        _ => {
            run.stack.push(Waits::Value(ForValue::Replace(answer)))?;
            store(alloc, g, run, to, value)
        }
    }
}

fn store_next<'a>(
    alloc: Global,
    g: &'a Running<'a>,
    run: &mut Run<'a>,
    before: bool,
    to: Variable,
    next: Value,
    value: Value,
) -> Result<Focus<'a>, NoMemory>
    requires { IsReady g.now }
    ensures { Does g.now run.old result run.new (λ p s. valued (and_then (store p to next s) (λ c s. Gives (if before then next else value) s))) }
{
    if before {
        store_answering(alloc, g, run, to, next, next)
    } else {
        store_answering(alloc, g, run, to, next, value)
    }
}

/// `++` and `--` on what a variable holds (JLS 15.14.2, 15.15.1).
pub fn step_variable<'a>(
    alloc: Global,
    g: &'a Running<'a>,
    run: &mut Run<'a>,
    up: bool,
    before: bool,
    to: Variable,
    value: Value,
) -> Result<Focus<'a>, NoMemory>
    requires { IsReady g.now }
    ensures { Does g.now run.old result run.new (λ p s. valued (with_some (stepped up value) s (λ b. and_then (store p to b s) (λ c s. Gives (if before then b else value) s)))) }
{
    match stepped(up, value) {
        None => misfit(alloc, run),
        Some(next) => store_next(alloc, g, run, before, to, next, value),
    }
}

fn give_length<'a>(alloc: Global, run: &mut Run<'a>, array: u64) -> Result<Focus<'a>, NoMemory>
    ensures { Leads run.old result run.new (λ p s. valued (with_some (counted array s) s (λ n. Gives (v.Int (pos n)) s))) }
{
    let Some(count) = item_count(&run.state, array) else {
        return misfit(alloc, run);
    };
    // no array is longer: an int says its length, or it has so many items in the text
    match i32::try_from(count) {
        Ok(length) => Ok(Focus::Gives(Answer::Value(Value::Int(length)))),
        Err(_) => Err(NoMemory),
    }
}

/// How long an array is (JLS 10.7).
pub fn array_length<'a>(alloc: Global, run: &mut Run<'a>, of: Value) -> Result<Focus<'a>, NoMemory>
    ensures { Leads run.old result run.new (λ p s. valued (array_length of s)) }
{
    match of {
        Value::Null => throw_plain(alloc, run, NULL_POINTER),
        Value::Ref(array) => give_length(alloc, run, array),
        _ => misfit(alloc, run),
    }
}
