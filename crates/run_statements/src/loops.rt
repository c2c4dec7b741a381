//! Loops, a turn at a time (JLS 14.12 to 14.14).

ghost use Rattle.std.specs.Prelude.{◌+◌};
ghost use Rattle.std.specs.Option.{option_map};
ghost use Rattle.java_core.specs.View.{plain, plains};
ghost use Rattle.core_meaning.specs.declared.values.Ending.TheVariants.{Goes};
ghost use Rattle.core_meaning.specs.Outcome.{Gives, and_turns, choose};
ghost use Rattle.core_meaning.specs.Expressions.{values};
ghost use Rattle.core_meaning.specs.Statements.{and_updates, done, tested, tested_or};
ghost use Rattle.run_frames.specs.declared.waits.ForEnding.TheVariants as for_ending;
ghost use Rattle.run_frames.specs.declared.waits.ForTruth.TheVariants as for_truth;
ghost use Rattle.run_frames.specs.Frames.{a_truth, before, done_looped, ended, looped, on_ending, on_truth};
ghost use Rattle.run_frames.specs.Runs.{Leads};
ghost use Rattle.running_code.specs.Running.{IsReady};
ghost use Rattle.run_values.specs.Does.{Does};
ghost use Rattle.run_statements.specs.Turns.{do_tested, turned};

use core_meaning::Ending;
use java_core::{CoreExpr, CoreStmt};
use java_tree::{Boxed, Items, NoMemory};
use run_calls::call;
use run_frames::run::{evaluate, evaluate_all, execute};
use run_frames::{Answer, Focus, ForEnding, ForTruth, ForValue, ForValues, Loop, Run, Waits};
use run_state::frames::take_step;
use run_values::take_item;
use running_code::Running;
use std::alloc::Global;

/// A `for` without a test goes on (JLS 14.14.1.2).
fn test_or<'a>(run: &mut Run<'a>, test: &'a Option<CoreExpr>) -> Result<Focus<'a>, NoMemory>
    ensures { Leads run.old result run.new (λ p s. a_truth (tested_or p (option_map plain test.now) s)) }
{
    match test {
        None => Ok(Focus::Gives(Answer::Truth(true))),
        Some(test) => evaluate(run, test, ForValue::Test),
    }
}

/// What stands before the body of a turn says whether there is one.
fn test_turn<'a>(
    alloc: Global,
    g: &'a Running<'a>,
    run: &mut Run<'a>,
    turn: u64,
    of: Loop<'a>,
) -> Result<Focus<'a>, NoMemory>
    requires { IsReady g.now }
    ensures { Does g.now run.old result run.new (λ p s. a_truth (before p of.entry turn s)) }
{
    match of {
        Loop::While { test, .. } => evaluate(run, test, ForValue::Test),
        Loop::For { test, .. } => test_or(run, test),
        Loop::Items {
            slot,
            ty,
            array,
            ..
        } => take_item(alloc, run, slot, ty, array, turn),
        Loop::Walk {
            walk,
            slot,
            ty,
            item,
            implied,
            iterator,
            ..
        } => {
            run.stack.push(Waits::Value(ForValue::HasNext {
                walk,
                slot,
                ty,
                item,
                implied,
                iterator,
            }))?;
            call(alloc, g, run, walk.has_next, iterator, Items::new(alloc))
        }
    }
}

/// A turn begins with its test; `turns` more may follow.
fn begin_turn<'a>(
    alloc: Global,
    g: &'a Running<'a>,
    run: &mut Run<'a>,
    turns: u64,
    turn: u64,
    of: Loop<'a>,
) -> Result<Focus<'a>, NoMemory>
    requires { IsReady g.now }
    ensures { Does g.now run.old result run.new (λ p s. ended (looped p of.entry (turns + 1) turn s)) }
{
    run.stack
        .push(Waits::Truth(ForTruth::Loop { turns, turn, of }))?;
    test_turn(alloc, g, run, turn, of)
}

/// A loop begins. It may make as many turns as calls may be open, and one more.
pub fn begin_loop<'a>(
    alloc: Global,
    g: &'a Running<'a>,
    run: &mut Run<'a>,
    of: Loop<'a>,
) -> Result<Focus<'a>, NoMemory>
    requires { IsReady g.now }
    ensures { Does g.now run.old result run.new (λ p s. ended (looped p of.entry p.turns 0 s)) }
{
    let turns = run.depth;
    begin_turn(alloc, g, run, turns, 0, of)
}

/// A turn of at most `turns`.
pub fn turn_or_end<'a>(
    alloc: Global,
    g: &'a Running<'a>,
    run: &mut Run<'a>,
    turns: u64,
    turn: u64,
    of: Loop<'a>,
) -> Result<Focus<'a>, NoMemory>
    requires { IsReady g.now }
    ensures { Does g.now run.old result run.new (λ p s. ended (looped p of.entry turns turn s)) }
{
    if turns == 0 {
        return Ok(Focus::AtBound);
    }
    begin_turn(alloc, g, run, turns - 1, turn, of)
}

/// The body of a turn, whose step is taken. Behind it comes the turn with the number `turn`.
fn run_body<'a>(
    run: &mut Run<'a>,
    turns: u64,
    turn: u64,
    of: Loop<'a>,
) -> Result<Focus<'a>, NoMemory>
    ensures { Leads run.old result run.new (λ p s. ended (turned p of.entry turns turn s)) }
{
    let waits = ForEnding::Loop { turns, turn, of };
    match of {
        Loop::While { body, .. } => execute(run, body.get(), waits),
        Loop::For { step, body, .. } => {
            run.stack.push(Waits::Ending(waits))?;
            execute(run, body.get(), ForEnding::Updates(step))
        }
        Loop::Items { body, .. } => execute(run, body.get(), waits),
        Loop::Walk { body, .. } => execute(run, body.get(), waits),
    }
}

/// The body runs where the test holds and a step is left. Turns that cannot be counted count as want of memory: no run makes so many.
pub fn loop_body<'a>(
    run: &mut Run<'a>,
    turns: u64,
    turn: u64,
    of: Loop<'a>,
    test: bool,
) -> Result<Focus<'a>, NoMemory>
    ensures { Leads run.old result run.new (λ p s. on_truth p (for_truth.Loop turns turn of.entry) test s) }
{
    if !test {
        return Ok(Focus::Gives(Answer::Ending(Ending::Goes)));
    }
    if !take_step(&mut run.state) {
        return Ok(Focus::AtBound);
    }
    match turn.checked_add(1) {
        None => Err(NoMemory),
        Some(next) => run_body(run, turns, next, of),
    }
}

/// Behind the body of a turn: a `continue` goes on with the loop, a `break` ends it (JLS 14.15, 14.16).
pub fn after_body<'a>(
    alloc: Global,
    g: &'a Running<'a>,
    run: &mut Run<'a>,
    turns: u64,
    turn: u64,
    of: Loop<'a>,
    ending: Ending,
) -> Result<Focus<'a>, NoMemory>
    requires { IsReady g.now }
    ensures { Does g.now run.old result run.new (λ p s. on_ending p (for_ending.Loop turns turn of.entry) ending s) }
{
    match ending {
        Ending::Goes => turn_or_end(alloc, g, run, turns, turn, of),
        Ending::Continues => turn_or_end(alloc, g, run, turns, turn, of),
        Ending::Breaks => Ok(Focus::Gives(Answer::Ending(Ending::Goes))),
        Ending::Returns(_) => Ok(Focus::Gives(Answer::Ending(ending))),
    }
}

/// The updates of a `for` behind its body (JLS 14.14.1.2).
pub fn updates<'a>(
    alloc: Global,
    run: &mut Run<'a>,
    step: &'a Items<CoreExpr>,
    ending: Ending,
) -> Result<Focus<'a>, NoMemory>
    ensures { Leads run.old result run.new (λ p s. ended (and_updates ending (λ s. done (values p (plains step.now) s)) s)) }
{
    match ending {
        Ending::Goes => evaluate_all(alloc, run, step, ForValues::Done),
        Ending::Continues => evaluate_all(alloc, run, step, ForValues::Done),
        Ending::Breaks => Ok(Focus::Gives(Answer::Ending(Ending::Breaks))),
        Ending::Returns(_) => Ok(Focus::Gives(Answer::Ending(ending))),
    }
}

/// A turn of a `do` begins with its body, where a step is left; `turns` more may follow.
fn do_turn<'a>(
    run: &mut Run<'a>,
    turns: u64,
    body: &'a Boxed<CoreStmt>,
    test: &'a CoreExpr,
) -> Result<Focus<'a>, NoMemory>
    ensures { Leads run.old result run.new (λ p s. ended (done_looped p body.now (tested p (plain test.now)) (turns + 1) s)) }
{
    if !take_step(&mut run.state) {
        return Ok(Focus::AtBound);
    }
    execute(run, body.get(), ForEnding::Do { turns, body, test })
}

/// A `do` begins (JLS 14.13).
pub fn begin_do<'a>(
    run: &mut Run<'a>,
    body: &'a Boxed<CoreStmt>,
    test: &'a CoreExpr,
) -> Result<Focus<'a>, NoMemory>
    ensures { Leads run.old result run.new (λ p s. ended (done_looped p body.now (tested p (plain test.now)) p.turns s)) }
{
    let turns = run.depth;
    do_turn(run, turns, body, test)
}

/// A turn of a `do` of at most `turns`.
pub fn do_or_end<'a>(
    run: &mut Run<'a>,
    turns: u64,
    body: &'a Boxed<CoreStmt>,
    test: &'a CoreExpr,
) -> Result<Focus<'a>, NoMemory>
    ensures { Leads run.old result run.new (λ p s. ended (done_looped p body.now (tested p (plain test.now)) turns s)) }
{
    if turns == 0 {
        return Ok(Focus::AtBound);
    }
    do_turn(run, turns - 1, body, test)
}

/// A `do` goes on where its test holds.
pub fn do_again<'a>(
    run: &mut Run<'a>,
    turns: u64,
    body: &'a Boxed<CoreStmt>,
    test: &'a CoreExpr,
    holds: bool,
) -> Result<Focus<'a>, NoMemory>
    ensures { Leads run.old result run.new (λ p s. on_truth p (for_truth.Do turns body.entry test.entry) holds s) }
{
    if !holds {
        return Ok(Focus::Gives(Answer::Ending(Ending::Goes)));
    }
    do_or_end(run, turns, body, test)
}

fn test_do<'a>(
    run: &mut Run<'a>,
    turns: u64,
    body: &'a Boxed<CoreStmt>,
    test: &'a CoreExpr,
) -> Result<Focus<'a>, NoMemory>
    ensures { Leads run.old result run.new (λ p s. ended (do_tested p body.now (plain test.now) turns s)) }
{
    run.stack
        .push(Waits::Truth(ForTruth::Do { turns, body, test }))?;
    evaluate(run, test, ForValue::Test)
}

/// Behind the body of a `do` comes its test.
pub fn after_do<'a>(
    run: &mut Run<'a>,
    turns: u64,
    body: &'a Boxed<CoreStmt>,
    test: &'a CoreExpr,
    ending: Ending,
) -> Result<Focus<'a>, NoMemory>
    ensures { Leads run.old result run.new (λ p s. on_ending p (for_ending.Do turns body.entry test.entry) ending s) }
{
    match ending {
        Ending::Goes => test_do(run, turns, body, test),
        Ending::Continues => test_do(run, turns, body, test),
        Ending::Breaks => Ok(Focus::Gives(Answer::Ending(Ending::Goes))),
        Ending::Returns(_) => Ok(Focus::Gives(Answer::Ending(ending))),
    }
}
