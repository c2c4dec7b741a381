//! `try` (JLS 14.20).

ghost use Rattle.std.specs.Prelude.{drop, map};
ghost use Rattle.std.specs.Option.{option_map};
ghost use Rattle.java_core.specs.View.{catch_plain, catch_row, stmt_plain};
ghost use Rattle.core_meaning.specs.declared.values.Value.TheVariants as v;
ghost use Rattle.core_meaning.specs.State.{with_local};
ghost use Rattle.core_meaning.specs.Outcome.{Gives, Threw, finally, rescued};
ghost use Rattle.core_meaning.specs.Classes.{type_of};
ghost use Rattle.core_meaning.specs.Variables.{is_below};
ghost use Rattle.core_meaning.specs.Statements.{caught, stmt};
ghost use Rattle.run_frames.specs.declared.waits.ForEnding.TheVariants as for_ending;
ghost use Rattle.run_frames.specs.Frames.{ended, on_ending, restored};
ghost use Rattle.run_frames.specs.Runs.{Leads};
ghost use Rattle.running_code.specs.Running.{IsReady, Makes};
ghost use Rattle.run_values.specs.Does.{Does};
ghost use Rattle.run_statements.specs.Parts.{last_block};

use class_world::JavaType;
use core_meaning::{Ending, State, Value};
use java_core::{CoreCatch, CoreStmt};
use java_tree::{Boxed, Items, NoMemory};
use run_frames::run::execute;
use run_frames::{Answer, Focus, ForEnding, Run, Saved};
use run_state::frames::set_local;
use run_state::reads::thing_at;
use run_values::misfit;
use running_code::{Running, thing_is_below};
use std::alloc::Global;

/// The finally block, if there is one, behind a block that has ended or thrown.
fn run_last<'a>(
    run: &mut Run<'a>,
    last: &'a Option<Boxed<CoreStmt>>,
    saved: Saved,
) -> Result<Focus<'a>, NoMemory>
    ensures { Leads run.old result run.new (λ p s. ended (finally (restored saved s) (last_block last.now p))) }
{
    match last {
        None => restore(run, saved),
        Some(last) => execute(run, last.get(), ForEnding::After(saved)),
    }
}

/// A `try` ends as its block or its catches did.
fn restore<'a>(run: &mut Run<'a>, saved: Saved) -> Result<Focus<'a>, NoMemory>
    ensures { Leads run.old result run.new (λ p s. ended (restored saved s)) }
{
    match saved {
        Saved::Ending(ending) => Ok(Focus::Gives(Answer::Ending(ending))),
        Saved::Threw(thrown) => Ok(Focus::Threw(thrown)),
    }
}

/// The block of a `try`, or its catch, has ended.
pub fn finally_ended<'a>(
    run: &mut Run<'a>,
    last: &'a Option<Boxed<CoreStmt>>,
    ending: Ending,
) -> Result<Focus<'a>, NoMemory>
    ensures { Leads run.old result run.new (λ p s. ended (finally (Gives ending s) (last_block last.now p))) }
{
    run_last(run, last, Saved::Ending(ending))
}

/// The block of a `try`, or its catch, has thrown.
pub fn finally_threw<'a>(
    run: &mut Run<'a>,
    last: &'a Option<Boxed<CoreStmt>>,
    thrown: u64,
) -> Result<Focus<'a>, NoMemory>
    ensures { Leads run.old result run.new (λ p s. ended (finally (Threw thrown s) (last_block last.now p))) }
{
    run_last(run, last, Saved::Threw(thrown))
}

/// Behind the finally block, which counts where it ends by a jump.
pub fn after_finally<'a>(
    run: &mut Run<'a>,
    saved: Saved,
    ending: Ending,
) -> Result<Focus<'a>, NoMemory>
    ensures { Leads run.old result run.new (λ p s. on_ending p (for_ending.After saved) ending s) }
{
    match ending {
        Ending::Goes => restore(run, saved),
        _ => Ok(Focus::Gives(Answer::Ending(ending))),
    }
}

/// The block of a `try` has thrown.
pub fn rescue<'a>(
    run: &mut Run<'a>,
    catches: &'a Items<CoreCatch>,
    thrown: u64,
) -> Result<Focus<'a>, NoMemory>
    ensures { Leads run.old result run.new (λ p s. ended (rescued (Threw thrown s) (λ k s. caught p k (catch_row (map catch_plain catches.now)) s))) }
{
    Ok(Focus::Catches {
        thrown,
        catches,
        at: 0,
    })
}

/// Whether a thrown object is below a type, where there is such an object.
fn is_caught(
    alloc: Global,
    g: &Running<'_>,
    state: &State,
    thrown: u64,
    ty: &JavaType,
) -> Result<Option<bool>, NoMemory>
    requires { IsReady g.now }
    ensures { Makes g.now result (λ c. option_map (λ u. is_below c u ty.now) (type_of (v.Ref thrown) state.now)) }
{
    match thing_at(state, thrown) {
        None => Ok(None),
        Some(thing) => Ok(Some(thing_is_below(alloc, g, thing, ty)?)),
    }
}

/// The first catch, from a place on, that is above a thrown object (JLS 14.20.1).
pub fn catches_from<'a>(
    alloc: Global,
    g: &'a Running<'a>,
    run: &mut Run<'a>,
    thrown: u64,
    catches: &'a Items<CoreCatch>,
    at: usize,
) -> Result<Focus<'a>, NoMemory>
    requires { IsReady g.now }
    ensures { Does g.now run.old result run.new (λ p s. ended (caught p thrown (catch_row (map catch_plain (drop at catches.now))) s)) }
{
    match catches.as_slice().get(at) {
        None => Ok(Focus::Threw(thrown)),
        Some(catch) => match is_caught(alloc, g, &run.state, thrown, &catch.param.ty)? {
            None => misfit(alloc, run),
            Some(true) => run_catch(run, thrown, catch.param.slot, &catch.body),
            Some(false) => Ok(Focus::Catches {
                thrown,
                catches,
                at: at + 1,
            }),
        },
    }
}

/// The parameter of a catch takes the thrown object, and its block runs.
fn run_catch<'a>(
    run: &mut Run<'a>,
    thrown: u64,
    slot: u32,
    body: &'a Boxed<CoreStmt>,
) -> Result<Focus<'a>, NoMemory>
    ensures { Leads run.old result run.new (λ p s. ended (stmt p (stmt_plain body.now) (with_local slot (v.Ref thrown) s))) }
{
    set_local(&mut run.state, slot, Value::Ref(thrown))?;
    Ok(Focus::Statement(body.get()))
}
