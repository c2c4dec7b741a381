//! The check of texts, by the way that it goes: trees, declarations, types and flow.

ghost use Rattle.std.specs.Prelude.{◌≤◌, length, map, Ok, IfOk};
ghost use Rattle.java_tree.specs.View.{unit_plain};
ghost use Rattle.source_files.specs.Held.{AreSmall};
ghost use Rattle.source_files.specs.Answers.{HasParsed};
ghost use Rattle.checked_files.specs.Checked.{AreAsked, AreChecked, AreDeclaredIn};

use crate::declarations::{Declared, judge_declarations};
use checker::{CheckFault, CheckedProgram, check_files};
use java_tree::tree::SourceUnit;
use java_tree::{Fault, Items, Names};
use source_files::{Parsed, TreeStop, parse_files};
use std::alloc::Global;

/// A program that breaks no rule. The table has the names of its files, and behind them those that the built-in types need.
#[derive(Drop)]
pub struct CheckedFiles {
    pub names: Names,
    pub units: Items<SourceUnit>,
    pub declared: Declared,
    pub checked: CheckedProgram,
}

/// What stands against a program; each has its own want of memory.
#[derive(Clone, Copy, Debug)]
pub enum FilesFault {
    /// A text has no tree that is allowed.
    Tree(TreeStop),
    /// The declarations break a rule.
    Declared(Fault),
    /// The bodies break a rule on types or flow.
    Checked(CheckFault),
}

// Checks a program that declares this.
fn check_declared(
    alloc: Global,
    texts: &[Items<u8>],
    users: usize,
    names: Names,
    units: Items<SourceUnit>,
    declared: Declared,
) -> Result<CheckedFiles, FilesFault>
    requires users { users ≤ length units }
    requires declared { AreDeclaredIn users texts.now names (map unit_plain units) declared }
    ensures checked { AreChecked users texts.now result }
    ensures asked { IfOk result (λ x. AreAsked x) }
{
    let (user, lib) = units.as_slice().split_at(users);
    match check_files(alloc, &declared.world, &declared.members, &names, user, lib) {
        Ok(checked) => Ok(CheckedFiles {
            names,
            units,
            declared,
            checked,
        }),
        Err(fault) => Err(FilesFault::Checked(fault)),
    }
}

// Checks a program with these trees.
fn check_trees(
    alloc: Global,
    texts: &[Items<u8>],
    users: usize,
    parsed: Parsed,
) -> Result<CheckedFiles, FilesFault>
    requires users { users ≤ length texts.now }
    requires trees { HasParsed texts.now (Ok parsed) }
    ensures checked { AreChecked users texts.now result }
    ensures asked { IfOk result (λ x. AreAsked x) }
{
    let Parsed { mut names, units } = parsed;
    match judge_declarations(alloc, users, units.as_slice(), &mut names) {
        Ok(declared) => check_declared(alloc, texts, users, names, units, declared),
        Err(fault) => Err(FilesFault::Declared(fault)),
    }
}

/// Checks the program of these texts, of which so many first ones are the user's and the others those of libraries (JLS 3rd edition, chapters 3 to 16). Takes the steps
/// that a check of files takes behind their reading: the limits on files (256), on the bytes of a file (1,048,576) and on words are the caller's to test.
pub fn check_texts(
    alloc: Global,
    texts: &[Items<u8>],
    users: usize,
) -> Result<CheckedFiles, FilesFault>
    requires few { length texts.now ≤ 256 }
    requires small { AreSmall texts.now }
    requires users { users ≤ length texts.now }
    ensures checked { AreChecked users texts.now result }
    ensures asked { IfOk result (λ x. AreAsked x) }
{
    match parse_files(alloc, texts) {
        Ok(parsed) => check_trees(alloc, texts, users, parsed),
        Err(stop) => Err(FilesFault::Tree(stop)),
    }
}
