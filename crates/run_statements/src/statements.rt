//! What begins when a statement does.

ghost use Rattle.std.specs.Option.{option_map};
ghost use Rattle.java_core.specs.View.{plain, stmt_plain, stmts_plain};
ghost use Rattle.core_meaning.specs.Outcome.{and_then};
ghost use Rattle.core_meaning.specs.Statements.{stmt, stmts};
ghost use Rattle.run_frames.specs.Frames.{ended, looped};
ghost use Rattle.run_frames.specs.Runs.{Leads};
ghost use Rattle.running_code.specs.Running.{IsReady};
ghost use Rattle.run_values.specs.Does.{Does};
ghost use Rattle.run_statements.specs.Parts.{tried};
ghost use Rattle.run_statements.specs.Turns.{returned};

use crate::loops::{begin_do, begin_loop};
use crate::pieces::locals_from;
use core_meaning::Ending;
use java_core::{CoreCatch, CoreExpr, CoreStmt, CoreStmtForm};
use java_tree::{Boxed, Items, NoMemory};
use run_frames::run::{evaluate, evaluate_all, execute_from};
use run_frames::{Answer, Focus, ForEnding, ForValue, ForValues, Loop, Run, Waits};
use running_code::Running;
use std::alloc::Global;

/// The initial statements of a `for`, and behind them its turns (JLS 14.14.1).
fn begin_for<'a>(
    run: &mut Run<'a>,
    init: &'a Items<CoreStmt>,
    of: Loop<'a>,
) -> Result<Focus<'a>, NoMemory>
    ensures { Leads run.old result run.new (λ p s. ended (and_then (stmts p (stmts_plain init.now) s) (λ f s. looped p of.entry p.turns 0 s))) }
{
    run.stack.push(Waits::Ending(ForEnding::Initial(of)))?;
    execute_from(run, init, 0)
}

/// The block of a `try`, for which its catches and the finally block wait (JLS 14.20).
fn begin_try<'a>(
    run: &mut Run<'a>,
    body: &'a Boxed<CoreStmt>,
    catches: &'a Items<CoreCatch>,
    last: &'a Option<Boxed<CoreStmt>>,
) -> Result<Focus<'a>, NoMemory>
    ensures { Leads run.old result run.new (λ p s. ended (tried p body.now catches.now last.now s)) }
{
    run.stack.push(Waits::Finally(last))?;
    run.stack.push(Waits::Rescue(catches))?;
    Ok(Focus::Statement(body.get()))
}

/// A `return` (JLS 14.17).
fn begin_return<'a>(run: &mut Run<'a>, x: &'a Option<CoreExpr>) -> Result<Focus<'a>, NoMemory>
    ensures { Leads run.old result run.new (λ p s. ended (returned (option_map plain x.now) p s)) }
{
    match x {
        None => Ok(Focus::Gives(Answer::Ending(Ending::Returns(None)))),
        Some(x) => evaluate(run, x, ForValue::Return),
    }
}

/// A statement begins.
pub fn statement<'a>(
    alloc: Global,
    g: &'a Running<'a>,
    run: &mut Run<'a>,
    x: &'a CoreStmt,
) -> Result<Focus<'a>, NoMemory>
    requires { IsReady g.now }
    ensures { Does g.now run.old result run.new (λ p s. ended (stmt p (stmt_plain x.now) s)) }
{
    match &x.form {
        CoreStmtForm::Block(stmts) => execute_from(run, stmts, 0),
        CoreStmtForm::Local { vars, .. } => locals_from(run, vars, 0),
        CoreStmtForm::Empty => Ok(Focus::Gives(Answer::Ending(Ending::Goes))),
        CoreStmtForm::Value(x) => evaluate(run, x, ForValue::Done),
        CoreStmtForm::If { test, yes, no } => evaluate(run, test, ForValue::If { yes, no }),
        CoreStmtForm::While { test, body } => {
            begin_loop(alloc, g, run, Loop::While { test, body })
        }
        CoreStmtForm::Do { body, test } => begin_do(run, body, test),
        CoreStmtForm::For {
            init,
            test,
            step,
            body,
        } => begin_for(run, init, Loop::For { test, step, body }),
        CoreStmtForm::ForEach {
            var,
            over,
            item,
            implied,
            body,
            ..
        } => evaluate(
            run,
            over,
            ForValue::Each {
                slot: var.slot,
                ty: &var.ty,
                over: &over.ty,
                item,
                implied: *implied,
                body,
            },
        ),
        CoreStmtForm::Switch { on, groups } => evaluate(run, on, ForValue::Switch(groups)),
        CoreStmtForm::Break => Ok(Focus::Gives(Answer::Ending(Ending::Breaks))),
        CoreStmtForm::Continue => Ok(Focus::Gives(Answer::Ending(Ending::Continues))),
        CoreStmtForm::Return(x) => begin_return(run, x),
        CoreStmtForm::Throw(x) => evaluate(run, x, ForValue::Throw),
        CoreStmtForm::Try {
            body,
            catches,
            last,
        } => begin_try(run, body, catches, last),
        CoreStmtForm::ThisCall { constructor, args } => {
            evaluate_all(alloc, run, args, ForValues::ThisCall(*constructor))
        }
        CoreStmtForm::SuperCall { constructor, args } => {
            evaluate_all(alloc, run, args, ForValues::SuperFirst(*constructor))
        }
    }
}
