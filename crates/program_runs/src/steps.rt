//! Steps, one behind the other.

ghost use Rattle.run_frames.specs.declared.focus.Focus.TheVariants as f;
ghost use Rattle.running_code.specs.Running.{IsReady};
ghost use Rattle.program_runs.specs.Ends.{EndsAtBound, Proceeds, RunsOut};

use crate::ended::{Ended, Next};
use crate::resumes::{resume, stop, unwind};
use java_tree::NoMemory;
use run_calls::initialise;
use run_expressions::{current, value, variable};
use run_frames::{Answer, Focus, Run};
use run_statements::{catches_from, groups_from, statement};
use running_code::Running;
use std::alloc::Global;

// An answer goes to what waits for it.
fn give<'a>(
    alloc: Global,
    g: &'a Running<'a>,
    run: &mut Run<'a>,
    answer: Answer,
) -> Result<Next<'a>, NoMemory>
    requires { IsReady g.now }
    ensures { Proceeds g.now run.old (f.Gives answer) result run.new }
{
    match run.stack.pop() {
        None => Ok(Next::Ends(Ended::Gave(answer))),
        Some(waits) => Ok(Next::Goes(resume(alloc, g, run, waits, answer)?)),
    }
}

// A thrown object goes through what waits.
fn throw<'a>(
    alloc: Global,
    g: &'a Running<'a>,
    run: &mut Run<'a>,
    thrown: u64,
) -> Result<Next<'a>, NoMemory>
    requires { IsReady g.now }
    ensures { Proceeds g.now run.old (f.Threw thrown) result run.new }
{
    match run.stack.pop() {
        None => Ok(Next::Ends(Ended::Threw(thrown))),
        Some(waits) => Ok(Next::Goes(unwind(alloc, g, run, waits, thrown)?)),
    }
}

// Nothing that waits goes on.
fn end<'a>(run: &mut Run<'a>) -> Next<'a>
    ensures { EndsAtBound run.old result run.new }
{
    match run.stack.pop() {
        None => Next::Ends(Ended::Bound),
        Some(waits) => Next::Goes(stop(run, waits)),
    }
}

// A step of what is to be done.
fn proceed<'a>(
    alloc: Global,
    g: &'a Running<'a>,
    run: &mut Run<'a>,
    focus: Focus<'a>,
) -> Result<Next<'a>, NoMemory>
    requires { IsReady g.now }
    ensures { Proceeds g.now run.old focus.entry result run.new }
{
    match focus {
        Focus::Value(x) => Ok(Next::Goes(value(alloc, g, run, x)?)),
        Focus::Variable(x) => Ok(Next::Goes(variable(alloc, g, run, x)?)),
        Focus::Current(x, of) => Ok(Next::Goes(current(alloc, g, run, x, of)?)),
        Focus::Statement(x) => Ok(Next::Goes(statement(alloc, g, run, x)?)),
        Focus::Groups {
            groups,
            at,
            label,
            by_label,
        } => Ok(Next::Goes(groups_from(run, groups, at, label, by_label)?)),
        Focus::Catches {
            thrown,
            catches,
            at,
        } => Ok(Next::Goes(catches_from(alloc, g, run, thrown, catches, at)?)),
        Focus::Initialise(class) => Ok(Next::Goes(initialise(alloc, g, run, class)?)),
        Focus::Gives(answer) => give(alloc, g, run, answer),
        Focus::Threw(thrown) => throw(alloc, g, run, thrown),
        Focus::AtBound => Ok(end(run)),
    }
}

/// All steps of what is to be done. More than 2^64 of them count as want of memory.
pub(crate) fn run_out<'a>(
    alloc: Global,
    g: &'a Running<'a>,
    run: &mut Run<'a>,
    focus: Focus<'a>,
) -> Result<Ended, NoMemory>
    requires { IsReady g.now }
    ensures { RunsOut g.now run.old focus.entry result run.new }
{
    let mut focus = focus;
    for _ in 0..u64::MAX {
        match proceed(alloc, g, run, focus)? {
            Next::Goes(next) => focus = next,
            Next::Ends(ended) => return Ok(ended),
        }
    }
    Err(NoMemory)
}
