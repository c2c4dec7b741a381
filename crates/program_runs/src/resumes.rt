//! What was on the top of the stack goes on with an outcome.

ghost use Rattle.std.specs.Prelude.{◌≡◌};
ghost use Rattle.core_meaning.specs.Outcome.{Gives, Threw, finally, misfit, rescued};
ghost use Rattle.run_frames.specs.Frames.{ended, in_ending, in_nothing, in_truth, in_units, in_value, in_values, in_variable, on, on_ending, on_nothing, on_truth, on_units, on_value, on_values, on_variable};
ghost use Rattle.run_frames.specs.declared.waits.Waits.TheVariants as w;
ghost use Rattle.run_frames.specs.Runs.{Leads};
ghost use Rattle.core_meaning.specs.State.{with_frame};
ghost use Rattle.running_code.specs.Running.{IsReady};
ghost use Rattle.run_values.specs.Does.{Does};
ghost use Rattle.run_statements.specs.Parts.{last_block};
ghost use Rattle.program_runs.specs.Ends.{Resumes, Stops, caught_by, ending_in};

use crate::answers::{
    give_ending, give_nothing, give_truth, give_units, give_value, give_values, give_variable,
};
use core_meaning::{Ending, Frame};
use java_core::{CoreCatch, CoreStmt};
use java_tree::{Boxed, Items, NoMemory};
use run_calls::{fail, settle};
use run_frames::{
    Answer, Focus, ForEnding, ForNothing, ForTruth, ForUnits, ForValue, ForValues, ForVariable,
    Run, Waits,
};
use run_state::throws::misfit as go_wrong;
use run_statements::{finally_ended, finally_threw, rescue};
use run_values::misfit;
use running_code::Running;
use std::alloc::Global;

// An answer of another kind goes wrong.
fn to_value<'a>(
    alloc: Global,
    g: &'a Running<'a>,
    run: &mut Run<'a>,
    waits: ForValue<'a>,
    answer: Answer,
) -> Result<Focus<'a>, NoMemory>
    requires { IsReady g.now }
    ensures { Does g.now run.old result run.new (λ p s. in_value answer s (on_value p waits.entry)) }
{
    match answer {
        Answer::Value(value) => give_value(alloc, g, run, waits, value),
        _ => misfit(alloc, run),
    }
}

// An answer of another kind goes wrong.
fn to_variable<'a>(
    alloc: Global,
    g: &'a Running<'a>,
    run: &mut Run<'a>,
    waits: ForVariable<'a>,
    answer: Answer,
) -> Result<Focus<'a>, NoMemory>
    requires { IsReady g.now }
    ensures { Does g.now run.old result run.new (λ p s. in_variable answer s (on_variable p waits.entry)) }
{
    match answer {
        Answer::Variable(to) => give_variable(alloc, g, run, waits, to),
        _ => misfit(alloc, run),
    }
}

// An answer of another kind goes wrong.
fn to_values<'a>(
    alloc: Global,
    g: &'a Running<'a>,
    run: &mut Run<'a>,
    waits: ForValues<'a>,
    answer: Answer,
) -> Result<Focus<'a>, NoMemory>
    requires { IsReady g.now }
    ensures { Does g.now run.old result run.new (λ p s. in_values answer s (on_values p waits.entry)) }
{
    match answer {
        Answer::Values(args) => give_values(alloc, g, run, waits, args),
        _ => misfit(alloc, run),
    }
}

// An answer of another kind goes wrong.
fn to_units<'a>(
    alloc: Global,
    g: &'a Running<'a>,
    run: &mut Run<'a>,
    waits: ForUnits,
    answer: Answer,
) -> Result<Focus<'a>, NoMemory>
    requires { IsReady g.now }
    ensures { Does g.now run.old result run.new (λ p s. in_units answer s (on_units p waits)) }
{
    match answer {
        Answer::Units(units) => give_units(alloc, g, run, waits, units),
        _ => misfit(alloc, run),
    }
}

// An answer of another kind goes wrong.
fn to_truth<'a>(
    alloc: Global,
    g: &'a Running<'a>,
    run: &mut Run<'a>,
    waits: ForTruth<'a>,
    answer: Answer,
) -> Result<Focus<'a>, NoMemory>
    requires { IsReady g.now }
    ensures { Does g.now run.old result run.new (λ p s. in_truth answer s (on_truth p waits.entry)) }
{
    match answer {
        Answer::Truth(holds) => give_truth(alloc, g, run, waits, holds),
        _ => misfit(alloc, run),
    }
}

// An answer of another kind goes wrong.
fn to_ending<'a>(
    alloc: Global,
    g: &'a Running<'a>,
    run: &mut Run<'a>,
    waits: ForEnding<'a>,
    answer: Answer,
) -> Result<Focus<'a>, NoMemory>
    requires { IsReady g.now }
    ensures { Does g.now run.old result run.new (λ p s. in_ending answer s (on_ending p waits.entry)) }
{
    match answer {
        Answer::Ending(ending) => give_ending(alloc, g, run, waits, ending),
        _ => misfit(alloc, run),
    }
}

// An answer that is something goes wrong.
fn to_nothing<'a>(
    alloc: Global,
    g: &'a Running<'a>,
    run: &mut Run<'a>,
    waits: ForNothing<'a>,
    answer: Answer,
) -> Result<Focus<'a>, NoMemory>
    requires { IsReady g.now }
    ensures { Does g.now run.old result run.new (λ p s. in_nothing answer s (on_nothing p waits.entry)) }
{
    match answer {
        Answer::Nothing => give_nothing(alloc, g, run, waits),
        _ => misfit(alloc, run),
    }
}

// How a statement ended, where that is the answer.
fn ending_in(answer: Answer) -> Option<Ending>
    ensures { result ≡ ending_in answer }
{
    match answer {
        Answer::Ending(ending) => Some(ending),
        _ => None,
    }
}

// An answer of another kind goes wrong, and the finally block runs.
#[tactic(auto, using(crate::proofs::Wrong::misfit_as))]
fn finally_wrong<'a>(
    alloc: Global,
    run: &mut Run<'a>,
    last: &'a Option<Boxed<CoreStmt>>,
) -> Result<Focus<'a>, NoMemory>
    ensures { Leads run.old result run.new (λ p s. ended (finally (misfit s) (last_block last.now p))) }
{
    let thrown = go_wrong(alloc, &mut run.state)?;
    finally_threw(run, last, thrown)
}

#[tactic(auto, using(crate::proofs::Wrong::misfit_as))]
fn rescue_wrong<'a>(
    alloc: Global,
    run: &mut Run<'a>,
    catches: &'a Items<CoreCatch>,
) -> Result<Focus<'a>, NoMemory>
    ensures { Leads run.old result run.new (λ p s. ended (rescued (misfit s) (caught_by catches.now p))) }
{
    let thrown = go_wrong(alloc, &mut run.state)?;
    rescue(run, catches, thrown)
}

// The block of a `try` has ended.
fn to_finally<'a>(
    alloc: Global,
    run: &mut Run<'a>,
    last: &'a Option<Boxed<CoreStmt>>,
    answer: Answer,
) -> Result<Focus<'a>, NoMemory>
    ensures { Leads run.old result run.new (λ p s. on p (w.Finally last.entry) (Gives answer s)) }
{
    match ending_in(answer) {
        Some(ending) => finally_ended(run, last, ending),
        None => finally_wrong(alloc, run, last),
    }
}

fn to_rescue<'a>(
    alloc: Global,
    run: &mut Run<'a>,
    catches: &'a Items<CoreCatch>,
    answer: Answer,
) -> Result<Focus<'a>, NoMemory>
    ensures { Leads run.old result run.new (λ p s. on p (w.Rescue catches.entry) (Gives answer s)) }
{
    match ending_in(answer) {
        Some(ending) => Ok(Focus::Gives(Answer::Ending(ending))),
        None => rescue_wrong(alloc, run, catches),
    }
}

// The initialisers of a type have run.
fn to_settle<'a>(
    alloc: Global,
    g: &'a Running<'a>,
    run: &mut Run<'a>,
    class: u32,
    answer: Answer,
) -> Result<Focus<'a>, NoMemory>
    requires { IsReady g.now }
    ensures { Does g.now run.old result run.new (λ p s. on p (w.Settle class) (Gives answer s)) }
{
    match answer {
        Answer::Nothing => settle(alloc, run, class),
        _ => {
            let thrown = go_wrong(alloc, &mut run.state)?;
            fail(alloc, g, run, class, thrown)
        }
    }
}

// Back in the frame and the place of the caller.
fn leave(run: &mut Run<'_>, frame: Frame, depth: u64, class: u32)
    ensures { run.new ≡ record run.old { state = with_frame frame run.old.state; depth = depth; class = class } }
{
    run.state.frame = frame;
    run.depth = depth;
    run.class = class;
}

/// With an answer.
pub(crate) fn resume<'a>(
    alloc: Global,
    g: &'a Running<'a>,
    run: &mut Run<'a>,
    waits: Waits<'a>,
    answer: Answer,
) -> Result<Focus<'a>, NoMemory>
    requires { IsReady g.now }
    ensures { Resumes g.now run.old waits.entry result run.new (λ s. Gives answer s) }
{
    match waits {
        Waits::Value(waits) => to_value(alloc, g, run, waits, answer),
        Waits::Nothing(waits) => to_nothing(alloc, g, run, waits, answer),
        Waits::Values(waits) => to_values(alloc, g, run, waits, answer),
        Waits::Variable(waits) => to_variable(alloc, g, run, waits, answer),
        Waits::Units(waits) => to_units(alloc, g, run, waits, answer),
        Waits::Truth(waits) => to_truth(alloc, g, run, waits, answer),
        Waits::Ending(waits) => to_ending(alloc, g, run, waits, answer),
        Waits::Finally(last) => to_finally(alloc, run, last, answer),
        Waits::Rescue(catches) => to_rescue(alloc, run, catches, answer),
        Waits::Leave {
            frame,
            depth,
            class,
        } => {
            leave(run, frame, depth, class);
            Ok(Focus::Gives(answer))
        }
        Waits::Settle(class) => to_settle(alloc, g, run, class, answer),
    }
}

/// With a thrown object.
pub(crate) fn unwind<'a>(
    alloc: Global,
    g: &'a Running<'a>,
    run: &mut Run<'a>,
    waits: Waits<'a>,
    thrown: u64,
) -> Result<Focus<'a>, NoMemory>
    requires { IsReady g.now }
    ensures { Resumes g.now run.old waits.entry result run.new (λ s. Threw thrown s) }
{
    match waits {
        Waits::Finally(last) => finally_threw(run, last, thrown),
        Waits::Rescue(catches) => rescue(run, catches, thrown),
        Waits::Leave {
            frame,
            depth,
            class,
        } => {
            leave(run, frame, depth, class);
            Ok(Focus::Threw(thrown))
        }
        Waits::Settle(class) => fail(alloc, g, run, class, thrown),
        _ => Ok(Focus::Threw(thrown)),
    }
}

/// Where no step is left.
pub(crate) fn stop<'a>(run: &mut Run<'a>, waits: Waits<'a>) -> Focus<'a>
    ensures { Stops run.old waits.entry result run.new }
{
    match waits {
        Waits::Leave {
            frame,
            depth,
            class,
        } => {
            leave(run, frame, depth, class);
            Focus::AtBound
        }
        _ => Focus::AtBound,
    }
}
