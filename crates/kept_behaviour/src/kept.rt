//! The comparison of a program with new files.

ghost use Rattle.std.specs.Prelude.{◌≡◌, ◌≤◌, ◌↔◌, length, IsTrue, IfOk, OnOk};
ghost use Rattle.source_files.specs.Held.{AreSmall};
ghost use Rattle.checked_files.specs.Checked.{AreAsked, AreChecked};
ghost use Rattle.running_code.specs.Running.{IsMadeOf, IsReady};
ghost use Rattle.kept_behaviour.specs.Kept as spec;
ghost use Rattle.kept_behaviour.specs.Kept.{Keeps, KeepsBy, KeepsIn, KeepsWith};

use crate::maps::{Inserted, numbers_with, same_numbers};
use alike_programs::first_difference;
use checked_files::{CheckedFiles, FilesFault, check_texts};
use checker::CheckFault;
use java_tree::{Fault, Items, NoMemory};
use program_maps::Map;
use running_code::{Running, prepare};
use source_files::TreeStop;
use std::alloc::Global;

/// The most files of a program, and the most bytes of one.
const MOST_FILES: usize = 256;

const MOST_BYTES: usize = 1_048_576;

fn are_small(texts: &[Items<u8>]) -> bool
    ensures { IsTrue result ↔ AreSmall texts.now }
{
    match texts.split_first() {
        None => true,
        Some((text, rest)) => text.len() <= MOST_BYTES && are_small(rest),
    }
}

fn is_want_of_memory(fault: FilesFault) -> bool {
    match fault {
        FilesFault::Tree(TreeStop::NoMemory) => true,
        FilesFault::Declared(Fault::NoMemory) => true,
        FilesFault::Checked(CheckFault::NoMemory) => true,
        _ => false,
    }
}

fn running(alloc: Global, files: &CheckedFiles) -> Result<Running<'_>, NoMemory>
    requires { AreAsked files.now }
    ensures ready { IfOk result (λ g. IsReady g) }
    ensures same { IfOk result (λ g. IsMadeOf g files.now.declared.world files.now.names files.now.checked.core files.now.declared.members) }
{
    prepare(
        alloc,
        &files.declared.world,
        &files.names,
        &files.checked.core,
        &files.declared.members,
    )
}

// Whether a checked program behaves as the old one, through a map of the numbers.
fn is_alike(
    alloc: Global,
    old: &Running<'_>,
    files: &CheckedFiles,
    map: &Map,
    strict: bool,
) -> Result<bool, NoMemory>
    requires ready { IsReady old.now }
    requires asked { AreAsked files.now }
    ensures { IfOk result (λ r. IsTrue r → KeepsIn old.now files.now map.now strict) }
{
    let new = running(alloc, files)?;
    let difference = first_difference(alloc, old, &new, map, strict)?;
    Ok(difference.is_none())
}

// Whether the program of new files breaks no rule and behaves as the old one, through a map of the numbers.
fn keeps_by(
    alloc: Global,
    old: &Running<'_>,
    texts: &[Items<u8>],
    users: usize,
    map: &Map,
    strict: bool,
) -> Result<bool, NoMemory>
    requires ready { IsReady old.now }
    ensures { IfOk result (λ r. IsTrue r → KeepsBy old.now texts.now users map.now strict) }
{
    if texts.len() > MOST_FILES || users > texts.len() || !are_small(texts) {
        return Ok(false);
    }
    match check_texts(alloc, texts, users) {
        Ok(files) => is_alike(alloc, old, &files, map, strict),
        Err(fault) => {
            if is_want_of_memory(fault) {
                Err(NoMemory)
            } else {
                Ok(false)
            }
        }
    }
}

/// Whether the program of new files, of which so many first ones are the user's, breaks no rule, has the types, methods and fields of the old one under their numbers,
/// and behaves as it in every run. Files that are too many or too large keep nothing.
pub fn keeps_behaviour(
    alloc: Global,
    old: &Running<'_>,
    texts: &[Items<u8>],
    users: usize,
) -> Result<bool, NoMemory>
    requires ready { IsReady old.now }
    ensures { IfOk result (λ r. IsTrue r → Keeps old.now texts.now users) }
{
    let map = same_numbers(alloc, old.world)?;
    keeps_by(alloc, old, texts, users, &map, true)
}

/// The same of new files that declare one type more, and of each run of the old program in which nothing goes wrong. The other types, methods and fields stand in the
/// order that they had.
pub fn keeps_with_type(
    alloc: Global,
    old: &Running<'_>,
    texts: &[Items<u8>],
    users: usize,
    inserted: Inserted,
) -> Result<bool, NoMemory>
    requires ready { IsReady old.now }
    ensures { IfOk result (λ r. IsTrue r → KeepsWith old.now texts.now users inserted) }
{
    let map = numbers_with(alloc, old.world, inserted)?;
    keeps_by(alloc, old, texts, users, &map, false)
}
