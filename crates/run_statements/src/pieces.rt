//! Statements in a row, declared locals, and tests (JLS 14.2, 14.4, 14.9).

ghost use Rattle.std.specs.Prelude.{drop, map, true, false};
ghost use Rattle.std.specs.Option.{option_map};
ghost use Rattle.java_core.specs.View.{plain, stmt_maybe, stmt_plain, stmts_plain, var_plain};
ghost use Rattle.core_meaning.specs.declared.values.Ending.TheVariants.{Goes};
ghost use Rattle.core_meaning.specs.State.{with_local};
ghost use Rattle.core_meaning.specs.Outcome.{Gives, and_goes, by_truth};
ghost use Rattle.core_meaning.specs.Statements as spec;
ghost use Rattle.core_meaning.specs.Statements.{local_by, locals, maybe_stmt};
ghost use Rattle.run_frames.specs.declared.focus.Answer.TheVariants as an;
ghost use Rattle.run_frames.specs.declared.waits.ForValue.TheVariants as for_value;
ghost use Rattle.run_frames.specs.Frames.{a_truth, ended, on_value};
ghost use Rattle.run_frames.specs.Runs.{Leads};

use core_meaning::{Ending, Value};
use java_core::{CoreExpr, CoreStmt, CoreVar};
use java_tree::{Boxed, Items, NoMemory};
use run_frames::run::{evaluate, execute_from};
use run_frames::{Answer, Focus, ForEnding, ForValue, Run, Waits};
use run_state::frames::set_local;
use run_values::misfit;
use std::alloc::Global;

/// The statements of a block behind one that has ended.
pub fn stmts_after<'a>(
    run: &mut Run<'a>,
    stmts: &'a Items<CoreStmt>,
    at: usize,
    ending: Ending,
) -> Result<Focus<'a>, NoMemory>
    ensures { Leads run.old result run.new (λ p s. ended (and_goes ending s (spec.stmts p (stmts_plain (drop at stmts.now))))) }
{
    match ending {
        Ending::Goes => execute_from(run, stmts, at),
        _ => Ok(Focus::Gives(Answer::Ending(ending))),
    }
}

/// A local takes the value of its initialiser, if it has one.
fn declare<'a>(
    run: &mut Run<'a>,
    slot: u32,
    init: &'a Option<CoreExpr>,
) -> Result<Focus<'a>, NoMemory>
    ensures { Leads run.old result run.new (λ p s. ended (local_by (option_map plain init.now) p slot s)) }
{
    match init {
        None => Ok(Focus::Gives(Answer::Ending(Ending::Goes))),
        Some(x) => evaluate(run, x, ForValue::Local(slot)),
    }
}

/// Locals are declared from a place on.
pub fn locals_from<'a>(
    run: &mut Run<'a>,
    vars: &'a Items<CoreVar>,
    at: usize,
) -> Result<Focus<'a>, NoMemory>
    ensures { Leads run.old result run.new (λ p s. ended (locals p (map var_plain (drop at vars.now)) s)) }
{
    match vars.as_slice().get(at) {
        None => Ok(Focus::Gives(Answer::Ending(Ending::Goes))),
        Some(var) => {
            run.stack
                .push(Waits::Ending(ForEnding::Locals { vars, at: at + 1 }))?;
            declare(run, var.slot, &var.init)
        }
    }
}

/// A local takes a value.
pub fn local<'a>(run: &mut Run<'a>, slot: u32, value: Value) -> Result<Focus<'a>, NoMemory>
    ensures { Leads run.old result run.new (λ p s. Gives (an.Ending Goes) (with_local slot value s)) }
{
    set_local(&mut run.state, slot, value)?;
    Ok(Focus::Gives(Answer::Ending(Ending::Goes)))
}

/// What a test says.
pub fn test<'a>(alloc: Global, run: &mut Run<'a>, value: Value) -> Result<Focus<'a>, NoMemory>
    ensures { Leads run.old result run.new (λ p s. a_truth (by_truth value (λ s. Gives true s) (λ s. Gives false s) s)) }
{
    match value {
        Value::Truth(truth) => Ok(Focus::Gives(Answer::Truth(truth))),
        _ => misfit(alloc, run),
    }
}

fn otherwise<'a>(run: &mut Run<'a>, no: &'a Option<Boxed<CoreStmt>>) -> Result<Focus<'a>, NoMemory>
    ensures { Leads run.old result run.new (λ p s. ended (maybe_stmt p (stmt_maybe (option_map stmt_plain no.now)) s)) }
{
    match no {
        None => Ok(Focus::Gives(Answer::Ending(Ending::Goes))),
        Some(no) => Ok(Focus::Statement(no.get())),
    }
}

/// The statement that a test chooses (JLS 14.9).
pub fn if_else<'a>(
    alloc: Global,
    run: &mut Run<'a>,
    yes: &'a Boxed<CoreStmt>,
    no: &'a Option<Boxed<CoreStmt>>,
    value: Value,
) -> Result<Focus<'a>, NoMemory>
    ensures { Leads run.old result run.new (λ p s. on_value p (for_value.If yes.entry no.entry) value s) }
{
    match value {
        Value::Truth(true) => Ok(Focus::Statement(yes.get())),
        Value::Truth(false) => otherwise(run, no),
        _ => misfit(alloc, run),
    }
}
