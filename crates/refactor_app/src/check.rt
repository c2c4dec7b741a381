//! What becomes of a check.

ghost use Rattle.std.specs.Prelude.{◌≡◌, ◌≤◌, length, map, Err, IfOk};
ghost use Rattle.std.specs.String.{string_bytes};
ghost use Rattle.java_tree.specs.Names.{AreDistinct};
ghost use Rattle.java_tree.specs.View.{unit_plain};
ghost use Rattle.class_world.specs.declared.world.World.{World};
ghost use Rattle.class_world.specs.Sound.{IsSound};
ghost use Rattle.decl_table.specs.Program.{Program};
ghost use Rattle.checker.specs.Checking.{IsCheckedBy};
ghost use Rattle.member_table.specs.Table.{HoldsMembers};
ghost use Rattle.source_files.specs.Held.{AreSmall};
ghost use Rattle.refactor_app.specs.Checked.{Answers, AreFilesOf};
ghost use Rattle.refactor_app.specs.Refusals as spec;
ghost use Rattle.refactor_app.specs.Words.{Files, inputs};

use crate::lines::{broken_line, check_report};
use checked_files::Declared;
use checker::{CheckFault, CheckedProgram, check_files};
use java_tree::tree::SourceUnit;
use java_tree::{Broken, Family, Items, Names, NoMemory};
use std::alloc::Global;

/// What a check of files answers.
#[derive(Drop)]
pub enum CheckAnswer {
    /// The line that names the first broken rule.
    Refused(String),
    /// The report of a check, and the program that breaks no rule.
    Passed {
        report: String,
        checked: CheckedProgram,
    },
}

// A rule on types at a node.
fn type_rule(node: u32, rule: u8) -> Broken
    ensures { result ≡ spec.type_rule node rule }
{
    Broken {
        family: Family::T,
        number: rule,
        node: Some(node),
    }
}

// A rule on flow at a node.
fn flow_rule(node: u32, rule: u8) -> Broken
    ensures { result ≡ spec.flow_rule node rule }
{
    Broken {
        family: Family::F,
        number: rule,
        node: Some(node),
    }
}

// The refusal of a rule that a check names.
fn refused(
    alloc: Global,
    file_names: &[String],
    texts: &[Items<u8>],
    units: &[SourceUnit],
    rule: Broken,
) -> Result<CheckAnswer, NoMemory>
    requires small { AreSmall texts.now }
    ensures { (p : Program) (w : World) (fs : Files) → inputs fs ≡ map string_bytes file_names.now → spec.IsCheckRefusal p w rule
        → IfOk result (Answers fs texts.now (map unit_plain units.now) p w) }
{
    let line = broken_line(alloc, file_names, texts, units, rule)?;
    Ok(CheckAnswer::Refused(line))
}

// The refusal of what stops a check.
fn stopped(
    alloc: Global,
    file_names: &[String],
    texts: &[Items<u8>],
    units: &[SourceUnit],
    fault: CheckFault,
) -> Result<CheckAnswer, NoMemory>
    requires small { AreSmall texts.now }
    ensures { (p : Program) (w : World) (fs : Files) → inputs fs ≡ map string_bytes file_names.now → IsCheckedBy p w (Err fault)
        → IfOk result (Answers fs texts.now (map unit_plain units.now) p w) }
{
    match fault {
        CheckFault::Type { node, rule } => {
            refused(alloc, file_names, texts, units, type_rule(node, rule))
        }
        CheckFault::Flow { node, rule } => {
            refused(alloc, file_names, texts, units, flow_rule(node, rule))
        }
        CheckFault::NoMemory => Err(NoMemory),
    }
}

/// What the check of files answers whose declarations break no rule and say this. The first `users` files are the user's, and the table has the names that the
/// built-in types need.
pub fn check(
    alloc: Global,
    file_names: &[String],
    texts: &[Items<u8>],
    units: &[SourceUnit],
    users: usize,
    table: &Names,
    declared: &Declared,
) -> Result<CheckAnswer, NoMemory>
    requires small { AreSmall texts.now }
    requires users { users ≤ length units.now }
    requires sound { IsSound declared.now.world }
    requires members { HoldsMembers declared.now.world declared.now.members }
    requires distinct { AreDistinct table.now }
    requires program { (p : Program) × AreFilesOf users table.now (map unit_plain units.now) p }
    ensures { (p : Program) (fs : Files) → AreFilesOf users table.now (map unit_plain units.now) p
        → inputs fs ≡ map string_bytes file_names.now → IfOk result (Answers fs texts.now (map unit_plain units.now) p declared.now.world) }
{
    let (user, lib) = units.split_at(users);
    match check_files(alloc, &declared.world, &declared.members, table, user, lib) {
        Ok(checked) => {
            let report = check_report(alloc, file_names, texts, checked.operations.as_slice())?;
            Ok(CheckAnswer::Passed { report, checked })
        }
        Err(fault) => stopped(alloc, file_names, texts, units, fault),
    }
}
