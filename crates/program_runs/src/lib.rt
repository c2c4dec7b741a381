//! The run of a checked program: its main method within a number of steps, and what is reported of it (JLS 3rd edition, 12.1.4).
#![tactic(auto)]

ghost use Rattle.std.specs.Prelude.{◌≡◌, IfOk, map};
ghost use Rattle.std.specs.String.{string_bytes};
ghost use Rattle.class_world.specs.Sound.{IsSound};
ghost use Rattle.java_core.specs.View.{program_plain};
ghost use Rattle.member_table.specs.Table.{HoldsMembers};
ghost use Rattle.running_code.specs.Running.{IsReady};
ghost use Rattle.program_runs.specs.Told.{IsRun};
ghost use Rattle.program_runs.specs.Answers.{Reports, ReportsNamed, ended_end};

pub mod answer;
mod answers;
mod classes;
pub mod ended;
mod reports;
mod resumes;
mod runs;
mod starts;
mod steps;

use crate::classes::main_class;
use crate::ended::Ended;
use crate::reports::report;
use crate::runs::run_class;
pub use answer::RunAnswer;
use class_world::World;
use core_meaning::{End, State, Value};
use java_core::CoreProgram;
use java_tree::{Names, NoMemory};
use member_table::Members;
use run_state::reads::class_of;
use running_code::{Running, prepare};
pub use runs::most_initialised;
use std::alloc::Global;

/// Object, by number.
const OBJECT: u32 = 0;

// How a run ended.
fn end_of(ended: &Ended, state: &State) -> End
    ensures { result ≡ ended_end ended.now state.now }
{
    match ended {
        Ended::Gave(_) => End::Normal,
        Ended::Threw(thrown) => End::Threw(class_of(state, Value::Ref(*thrown)).unwrap_or(OBJECT)),
        Ended::Bound => End::AtBound,
    }
}

// The run of a class, and its report.
fn reported<'a>(
    alloc: Global,
    g: &'a Running<'a>,
    class: u32,
    args: &[String],
    steps: u64,
) -> Result<RunAnswer, NoMemory>
    requires { IsReady g.now }
    ensures { Reports g.now result class (map string_bytes args.now) steps }
{
    let piece = run_class(alloc, g, class, args, steps)?;
    let end = end_of(&piece.ended, &piece.state);
    let report = report(alloc, g, piece.state.printed.as_slice(), end)?;
    Ok(RunAnswer::Ran { report, end })
}

// The run of the user's class of a name.
fn run_named<'a, 'p>(
    alloc: Global,
    g: &'a Running<'p>,
    users: usize,
    class: &str,
    args: &[String],
    steps: u64,
) -> Result<RunAnswer, NoMemory>
    requires { IsReady g.now }
    ensures { ReportsNamed g.now result users class.now (map string_bytes args.now) steps }
{
    match main_class(g, users, class) {
        None => Ok(RunAnswer::NoMain),
        Some(number) => reported(alloc, g, number, args, steps),
    }
}

/// Runs the main method of the user's class of a name, with arguments, for so many steps: a step is an entry of a method or constructor, or a turn of a loop. The first
/// `users` files are the user's.
pub fn run_main<'a>(
    alloc: Global,
    world: &'a World,
    names: &'a Names,
    core: &'a CoreProgram,
    members: &'a Members,
    users: usize,
    class: &str,
    args: &[String],
    steps: u64,
) -> Result<RunAnswer, NoMemory>
    requires sound { IsSound world.now }
    requires members { HoldsMembers world.now members.now }
    ensures { IfOk result (IsRun world.now names.now (program_plain core.now) users class.now (map string_bytes args.now) steps) }
{
    let g = prepare(alloc, world, names, core, members)?;
    run_named(alloc, &g, users, class, args, steps)
}
