//! `switch` (JLS 14.11).

ghost use Rattle.std.specs.Prelude.{◌≡◌, drop, map};
ghost use Rattle.java_core.specs.View.{group_plain, group_row};
ghost use Rattle.core_meaning.specs.Statements as spec;
ghost use Rattle.core_meaning.specs.Statements.{chosen, from_group, has_default, has_group, has_label};
ghost use Rattle.run_frames.specs.declared.waits.ForEnding.TheVariants as for_ending;
ghost use Rattle.run_frames.specs.declared.waits.ForValue.TheVariants as for_value;
ghost use Rattle.run_frames.specs.Frames.{ended, on_ending, on_value};
ghost use Rattle.run_frames.specs.Runs.{Leads};
ghost use Rattle.run_statements.specs.Parts.{group_then, switched};

use core_meaning::{Ending, Value};
use java_core::{CoreGroup, CoreStmt};
use java_tree::{Items, NoMemory};
use run_frames::run::execute_from;
use run_frames::{Answer, Focus, ForEnding, Run, Waits};
use run_values::misfit;
use std::alloc::Global;

fn has_label(labels: &[Option<i32>], number: i32) -> bool
    ensures { result ≡ has_label number labels.now }
{
    for label in labels {
        if *label == Some(number) {
            return true;
        }
    }
    false
}

fn has_default(labels: &[Option<i32>]) -> bool
    ensures { result ≡ has_default labels.now }
{
    for label in labels {
        if label.is_none() {
            return true;
        }
    }
    false
}

fn is_chosen(labels: &[Option<i32>], number: i32, by_label: bool) -> bool
    ensures { result ≡ chosen by_label number labels.now }
{
    if by_label {
        has_label(labels, number)
    } else {
        has_default(labels)
    }
}

/// Whether a group has the label of a number.
#[tactic(auto, using(crate::proofs::Forms::group_at))]
fn has_group(groups: &[CoreGroup], number: i32) -> bool
    ensures { result ≡ has_group (has_label number) (group_row (map group_plain groups.now)) }
{
    for group in groups {
        if has_label(group.labels.as_slice(), number) {
            return true;
        }
    }
    false
}

/// The group of the label of a number is sought, or else that of `default`.
fn switch_on<'a>(
    run: &mut Run<'a>,
    groups: &'a Items<CoreGroup>,
    label: i32,
) -> Result<Focus<'a>, NoMemory>
    ensures { Leads run.old result run.new (λ p s. ended (switched label (group_row (map group_plain groups.now)) p s)) }
{
    run.stack.push(Waits::Ending(ForEnding::Switch))?;
    let by_label = has_group(groups.as_slice(), label);
    Ok(Focus::Groups {
        groups,
        at: 0,
        label,
        by_label,
    })
}

/// A switch goes on by the number of its selector.
pub fn switch<'a>(
    alloc: Global,
    run: &mut Run<'a>,
    groups: &'a Items<CoreGroup>,
    value: Value,
) -> Result<Focus<'a>, NoMemory>
    ensures { Leads run.old result run.new (λ p s. on_value p (for_value.Switch groups.entry) value s) }
{
    match value {
        Value::Int(number) => switch_on(run, groups, number),
        Value::Char(c) => switch_on(run, groups, i32::from(c)),
        _ => misfit(alloc, run),
    }
}

/// A `break` ends the switch.
pub fn switch_after<'a>(run: &mut Run<'a>, ending: Ending) -> Result<Focus<'a>, NoMemory>
    ensures { Leads run.old result run.new (λ p s. on_ending p for_ending.Switch ending s) }
{
    match ending {
        Ending::Breaks => Ok(Focus::Gives(Answer::Ending(Ending::Goes))),
        _ => Ok(Focus::Gives(Answer::Ending(ending))),
    }
}

/// The statements of a group, behind which stand the groups from a place on.
fn run_group<'a>(
    run: &mut Run<'a>,
    body: &'a Items<CoreStmt>,
    groups: &'a Items<CoreGroup>,
    at: usize,
) -> Result<Focus<'a>, NoMemory>
    ensures { Leads run.old result run.new (λ p s. ended (group_then p body.now groups.now at s)) }
{
    run.stack
        .push(Waits::Ending(ForEnding::Groups { groups, at }))?;
    execute_from(run, body, 0)
}

/// The groups from a place on, one behind the other.
pub fn groups_run<'a>(
    run: &mut Run<'a>,
    groups: &'a Items<CoreGroup>,
    at: usize,
) -> Result<Focus<'a>, NoMemory>
    ensures { Leads run.old result run.new (λ p s. ended (spec.groups p (group_row (map group_plain (drop at groups.now))) s)) }
{
    match groups.as_slice().get(at) {
        None => Ok(Focus::Gives(Answer::Ending(Ending::Goes))),
        Some(group) => run_group(run, &group.body, groups, at + 1),
    }
}

/// A group falls through into the next, unless it jumps.
pub fn groups_after<'a>(
    run: &mut Run<'a>,
    groups: &'a Items<CoreGroup>,
    at: usize,
    ending: Ending,
) -> Result<Focus<'a>, NoMemory>
    ensures { Leads run.old result run.new (λ p s. on_ending p (for_ending.Groups groups.entry at) ending s) }
{
    match ending {
        Ending::Goes => groups_run(run, groups, at),
        _ => Ok(Focus::Gives(Answer::Ending(ending))),
    }
}

/// The groups from the first on, from a place on, that the switch goes on at.
pub fn groups_from<'a>(
    run: &mut Run<'a>,
    groups: &'a Items<CoreGroup>,
    at: usize,
    label: i32,
    by_label: bool,
) -> Result<Focus<'a>, NoMemory>
    ensures { Leads run.old result run.new (λ p s. ended (from_group p (chosen by_label label) (group_row (map group_plain (drop at groups.now))) s)) }
{
    match groups.as_slice().get(at) {
        None => Ok(Focus::Gives(Answer::Ending(Ending::Goes))),
        Some(group) => {
            if is_chosen(group.labels.as_slice(), label, by_label) {
                return run_group(run, &group.body, groups, at + 1);
            }
            Ok(Focus::Groups {
                groups,
                at: at + 1,
                label,
                by_label,
            })
        }
    }
}
