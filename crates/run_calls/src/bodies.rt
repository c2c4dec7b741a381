//! Bodies of methods and constructors, in frames of their own.

ghost use Rattle.std.specs.Prelude.{◌≡◌, [], Some, OnOk, IfOk, map};
ghost use Rattle.core_meaning.specs.Code.{Written};
ghost use Rattle.java_core.specs.View.{stmt_plain};
ghost use Rattle.core_meaning.specs.Statements.{begun};
ghost use Rattle.core_meaning.specs.Calls.{body, place_at};
ghost use Rattle.run_frames.specs.Frames.{and_ending, ended, on_ending, valued};
ghost use Rattle.run_frames.specs.Runs.{Leads};
ghost use Rattle.running_code.specs.Bodies.{body_plain};
ghost use Rattle.running_code.specs.Running.{IsReady};
ghost use Rattle.run_values.specs.Does.{Does};
ghost use Rattle.run_calls.specs.Opened.{body_in, entered_from, entered_in, entered_of, opened};

use crate::calls::run_body;
use core_meaning::{Frame, Value};
use java_core::CoreStmt;
use java_tree::{Items, NoMemory};
use run_frames::{Answer, Focus, ForEnding, ForValues, Run, Waits};
use run_state::changes::add_entered;
use run_state::frames::{swap_frame, take_step};
use run_values::misfit;
use running_code::{CodeBody, Running, body_of};
use std::alloc::Global;

/// The slots of arguments: a parameter's slot is its position.
pub(crate) fn slots_of(alloc: Global, args: &[Value]) -> Result<Items<Option<Value>>, NoMemory>
    ensures { IfOk result (λ r. r ≡ map Some args.now) }
{
    let mut slots = Items::new(alloc);
    for x in args {
        slots.push(Some(*x))?;
    }
    Ok(slots)
}

/// What is done next is done in a new frame, for a type, at a depth; then what waits is done where the caller was.
pub(crate) fn open_frame<'a>(
    run: &mut Run<'a>,
    depth: u64,
    frame: Frame,
    class: u32,
) -> Result<(), NoMemory>
    ensures { OnOk result (run.new ≡ opened depth frame class run.old) }
{
    let caller = swap_frame(&mut run.state, frame);
    run.stack.push(Waits::Leave {
        frame: caller,
        depth: run.depth,
        class: run.class,
    })?;
    run.depth = depth;
    run.class = class;
    Ok(())
}

/// The constructor of the superclass is the next to run. It is called by what waits, so that no call here is inside another one.
fn begin_first<'a>(
    alloc: Global,
    run: &mut Run<'a>,
    first: u32,
    waits: ForEnding<'a>,
) -> Result<Focus<'a>, NoMemory>
    ensures { Leads run.old result run.new (λ p s. and_ending (ended (begun p first [] s)) (on_ending p waits.entry)) }
{
    run.stack.push(Waits::Ending(waits))?;
    run.stack.push(Waits::Values(ForValues::SuperFirst(first)))?;
    Ok(Focus::Gives(Answer::Values(Items::new(alloc))))
}

/// A written body runs, behind the constructor of the superclass if there is one.
fn begin_written<'a>(
    alloc: Global,
    run: &mut Run<'a>,
    first: Option<u32>,
    written: &'a CoreStmt,
) -> Result<Focus<'a>, NoMemory>
    ensures { Leads run.old result run.new (λ p s. valued (body p (Written first (stmt_plain written.now)) s)) }
{
    match first {
        None => run_body(alloc, run, written),
        Some(first) => begin_first(alloc, run, first, ForEnding::Body(written)),
    }
}

/// A body runs.
fn begin_body<'a>(
    alloc: Global,
    run: &mut Run<'a>,
    code: CodeBody<'a>,
) -> Result<Focus<'a>, NoMemory>
    ensures { Leads run.old result run.new (λ p s. valued (body p (body_plain code.entry) s)) }
{
    match code {
        CodeBody::Written { first, body } => begin_written(alloc, run, first, body),
        CodeBody::Default { first } => begin_first(alloc, run, first, ForEnding::Answered),
    }
}

/// A body runs in a new frame.
fn open_body<'a>(
    alloc: Global,
    run: &mut Run<'a>,
    depth: u64,
    class: u32,
    method: u32,
    code: CodeBody<'a>,
    frame: Frame,
) -> Result<Focus<'a>, NoMemory>
    ensures { Leads run.old result run.new (λ p s. valued (body_in (place_at p.code depth class) method (body_plain code.entry) frame s)) }
{
    add_entered(&mut run.state, method)?;
    open_frame(run, depth, frame, class)?;
    begin_body(alloc, run, code)
}

/// The same, where a step is left.
#[tactic(auto, using(crate::proofs::Frames::entered_step, crate::proofs::Frames::no_step))]
fn enter_deeper<'a>(
    alloc: Global,
    run: &mut Run<'a>,
    depth: u64,
    class: u32,
    method: u32,
    code: CodeBody<'a>,
    frame: Frame,
) -> Result<Focus<'a>, NoMemory>
    ensures { Leads run.old result run.new (λ p s. valued (entered_in (place_at p.code depth class) method (body_plain code.entry) frame s)) }
{
    if take_step(&mut run.state) {
        open_body(alloc, run, depth, class, method, code, frame)
    } else {
        Ok(Focus::AtBound)
    }
}

/// The same, where one more call may be open.
#[tactic(auto, using(crate::proofs::Frames::entered_less))]
fn enter_body<'a>(
    alloc: Global,
    run: &mut Run<'a>,
    class: u32,
    method: u32,
    code: CodeBody<'a>,
    frame: Frame,
) -> Result<Focus<'a>, NoMemory>
    ensures { Leads run.old result run.new (λ p s. valued (entered_from p.code run.old.depth class method (body_plain code.entry) frame s)) }
{
    if run.depth == 0 {
        return Ok(Focus::AtBound);
    }
    enter_deeper(alloc, run, run.depth - 1, class, method, code, frame)
}

/// A method or constructor of a type is entered.
pub(crate) fn enter_in<'a>(
    alloc: Global,
    g: &'a Running<'a>,
    run: &mut Run<'a>,
    class: u32,
    method: u32,
    frame: Frame,
) -> Result<Focus<'a>, NoMemory>
    requires { IsReady g.now }
    ensures { Does g.now run.old result run.new (λ p s. valued (entered_of p.code run.old.depth class method frame s)) }
{
    match body_of(g, class, method) {
        None => misfit(alloc, run),
        Some(body) => enter_body(alloc, run, class, method, body, frame),
    }
}
