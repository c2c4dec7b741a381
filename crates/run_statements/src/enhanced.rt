//! The enhanced `for` (JLS 14.14.2).

ghost use Rattle.java_core.specs.View.{stmt_plain};
ghost use Rattle.core_meaning.specs.Statements.{each_item, stmt, walked};
ghost use Rattle.run_frames.specs.declared.waits.ForValue.TheVariants as for_value;
ghost use Rattle.run_frames.specs.Frames.{a_truth, ended, on_value};
ghost use Rattle.running_code.specs.Running.{IsReady};
ghost use Rattle.run_values.specs.Does.{Does};
ghost use Rattle.run_statements.specs.Parts.{next_taken};

use crate::loops::begin_loop;
use class_world::{JavaType, Walk};
use core_meaning::Value;
use java_core::CoreStmt;
use java_tree::{Boxed, Items, NoMemory};
use run_calls::call;
use run_frames::{Answer, Focus, ForValue, Loop, Run, Waits};
use run_values::{misfit, throw_plain};
use running_code::Running;
use std::alloc::Global;
use type_kinds::kinds::element;

/// The number of NullPointerException.
const NULL_POINTER: u32 = 9;

fn each_item<'a>(
    alloc: Global,
    g: &'a Running<'a>,
    run: &mut Run<'a>,
    slot: u32,
    ty: &'a JavaType,
    body: &'a Boxed<CoreStmt>,
    array: Value,
) -> Result<Focus<'a>, NoMemory>
    requires { IsReady g.now }
    ensures { Does g.now run.old result run.new (λ p s. ended (each_item p slot ty.now array (stmt p (stmt_plain body.now)) s)) }
{
    match array {
        Value::Null => throw_plain(alloc, run, NULL_POINTER),
        Value::Ref(_) => {
            let of = Loop::Items {
                slot,
                ty,
                array,
                body,
            };
            begin_loop(alloc, g, run, of)
        }
        _ => misfit(alloc, run),
    }
}

/// Over what is no array, iterator() is called once.
fn each_walked<'a>(
    alloc: Global,
    g: &'a Running<'a>,
    run: &mut Run<'a>,
    slot: u32,
    ty: &'a JavaType,
    item: &'a JavaType,
    implied: bool,
    body: &'a Boxed<CoreStmt>,
    value: Value,
) -> Result<Focus<'a>, NoMemory>
    requires { IsReady g.now }
    ensures { Does g.now run.old result run.new (λ p s. ended (walked p p.code.world.walk slot ty.now item.now implied value (stmt p (stmt_plain body.now)) s)) }
{
    match g.world.walk {
        None => misfit(alloc, run),
        Some(walk) => {
            run.stack.push(Waits::Value(ForValue::Iterator {
                walk,
                slot,
                ty,
                item,
                implied,
                body,
            }))?;
            call(alloc, g, run, walk.iterator, value, Items::new(alloc))
        }
    }
}

/// The loop over a value, as an array or by its iterator.
pub fn each<'a>(
    alloc: Global,
    g: &'a Running<'a>,
    run: &mut Run<'a>,
    slot: u32,
    ty: &'a JavaType,
    over: &'a JavaType,
    item: &'a JavaType,
    implied: bool,
    body: &'a Boxed<CoreStmt>,
    value: Value,
) -> Result<Focus<'a>, NoMemory>
    requires { IsReady g.now }
    ensures { Does g.now run.old result run.new (λ p s. on_value p (for_value.Each slot ty.entry over.entry item.entry implied body.entry) value s) }
{
    match element(over) {
        Some(_) => each_item(alloc, g, run, slot, ty, body, value),
        None => each_walked(alloc, g, run, slot, ty, item, implied, body, value),
    }
}

/// The loop by an iterator.
pub fn iterate<'a>(
    alloc: Global,
    g: &'a Running<'a>,
    run: &mut Run<'a>,
    walk: Walk,
    slot: u32,
    ty: &'a JavaType,
    item: &'a JavaType,
    implied: bool,
    body: &'a Boxed<CoreStmt>,
    iterator: Value,
) -> Result<Focus<'a>, NoMemory>
    requires { IsReady g.now }
    ensures { Does g.now run.old result run.new (λ p s. on_value p (for_value.Iterator walk slot ty.entry item.entry implied body.entry) iterator s) }
{
    let of = Loop::Walk {
        walk,
        slot,
        ty,
        item,
        implied,
        iterator,
        body,
    };
    begin_loop(alloc, g, run, of)
}

/// The variable takes what next() answers.
fn take_next<'a>(
    alloc: Global,
    g: &'a Running<'a>,
    run: &mut Run<'a>,
    next: u32,
    slot: u32,
    ty: &'a JavaType,
    item: &'a JavaType,
    implied: bool,
    iterator: Value,
) -> Result<Focus<'a>, NoMemory>
    requires { IsReady g.now }
    ensures { Does g.now run.old result run.new (λ p s. a_truth (next_taken p next slot ty.now item.now implied iterator s)) }
{
    run.stack.push(Waits::Value(ForValue::Next {
        slot,
        ty,
        item,
        implied,
    }))?;
    call(alloc, g, run, next, iterator, Items::new(alloc))
}

/// Where hasNext() says so, next() is called.
pub fn has_next<'a>(
    alloc: Global,
    g: &'a Running<'a>,
    run: &mut Run<'a>,
    walk: Walk,
    slot: u32,
    ty: &'a JavaType,
    item: &'a JavaType,
    implied: bool,
    iterator: Value,
    value: Value,
) -> Result<Focus<'a>, NoMemory>
    requires { IsReady g.now }
    ensures { Does g.now run.old result run.new (λ p s. on_value p (for_value.HasNext walk slot ty.entry item.entry implied iterator) value s) }
{
    match value {
        Value::Truth(true) => take_next(
            alloc, g, run, walk.next, slot, ty, item, implied, iterator,
        ),
        Value::Truth(false) => Ok(Focus::Gives(Answer::Truth(false))),
        _ => misfit(alloc, run),
    }
}
