//! The new files of a change.

ghost use Rattle.std.specs.Prelude.{◌≡◌, ◌<◌, ◌==◌, ℕ, length, slice_get, Some, IfOk, IfSome};
ghost use Rattle.std.specs.Option.{option_copied};
ghost use Rattle.source_files.specs.Held.{AreSmall};
ghost use Rattle.type_facts.specs.Facts.{AreFacts, Facts, IsReady};
ghost use Rattle.unchecked_ops.specs.Programs.{AreFileFacts};
ghost use Rattle.generalize_declared.specs.Plans as spec;
ghost use Rattle.generalize_declared.specs.Plans.{AreSourceFacts, HasEdits};

use crate::asked::{CheckedSource, Wish};
use crate::names::full_name;
use changed_files::{NewFiles, new_files};
use java_core::CoreFile;
use java_tree::tree::{Name, Span};
use java_tree::{Items, NoMemory};
use std::alloc::Global;
use type_facts::Questions;
use type_facts::asks::mean;
use type_places::{Changes, TypePlace, heads_in};

// Whether a name means the type in the file of the questions.
fn is_seen(q: &Questions<'_>, name: Name, target: u32) -> bool
    ensures { (f : Facts) → AreFacts q.now f → result ≡ spec.is_seen f name target }
{
    match mean(q, name) {
        None => false,
        Some(number) => number == target,
    }
}

// Of each of the first files, so many, whether it sees the type.
fn seen_in(
    alloc: Global,
    q: &Questions<'_>,
    count: u32,
    name: Name,
    target: u32,
) -> Result<Items<bool>, NoMemory>
    ensures count { IfOk result (λ r. length r ≡ count) }
    ensures seen { (fs : ℕ → Facts) → AreFileFacts q.now count fs → IfOk result (λ r. (i : ℕ) → i < count → slice_get r i ≡ Some (spec.is_seen (fs i) name target)) }
{
    let mut seen = Items::new(alloc);
    for file in 0..count {
        let asked = Questions { file, ..*q };
        seen.push(is_seen(&asked, name, target))?;
    }
    Ok(seen)
}

fn file_heads(
    alloc: Global,
    changes: &Changes,
    place: &TypePlace,
    here: bool,
    file: Option<&CoreFile>,
) -> Result<Items<Span>, NoMemory>
    ensures { IfOk result (λ r. r ≡ spec.file_heads changes.now place.now here (option_copied file.entry)) }
{
    match file {
        None => Ok(Items::new(alloc)),
        Some(file) => heads_in(alloc, changes, place, here, file),
    }
}

// Of each of the first files, so many, the heads that change.
fn heads_of(
    alloc: Global,
    files: &[CoreFile],
    count: u32,
    wish: Wish,
    place: &TypePlace,
    changes: &Changes,
) -> Result<Items<Items<Span>>, NoMemory>
    ensures count { IfOk result (λ r. length r ≡ count) }
    ensures heads { IfOk result (λ r. (i : ℕ) → i < count → slice_get r i ≡ Some (spec.file_heads changes.now place.now (i == wish.file) (slice_get files.now i))) }
{
    let mut heads = Items::new(alloc);
    for file in 0..count {
        let here = file as usize == wish.file;
        heads.push(file_heads(alloc, changes, place, here, files.get(file as usize))?)?;
    }
    Ok(heads)
}

/// The new files of a change, if its edits can be made.
pub(crate) fn files_of(
    alloc: Global,
    q: &Questions<'_>,
    source: &CheckedSource<'_>,
    wish: Wish,
    word: &str,
    place: &TypePlace,
    target: u32,
    changes: &Changes,
) -> Result<Option<NewFiles>, NoMemory>
    requires ready { IsReady q.now }
    requires small { AreSmall source.now.texts.now }
    requires texts { length source.now.texts.now ≡ length source.now.units.now }
    requires file { wish.file < length source.now.units.now }
    ensures { (fs : ℕ → Facts) → AreSourceFacts q.now source.now fs
        → IfOk result (λ r. IfSome r (HasEdits fs source.now wish word.now place.now target changes.now)) }
{
    let Some(name) = source.names.find(word) else {
        return Ok(None);
    };
    let Ok(count) = u32::try_from(source.units.len()) else {
        return Ok(None);
    };
    let sees = seen_in(alloc, q, count, name, target)?;
    let heads = heads_of(
        alloc,
        source.core.files.as_slice(),
        count,
        wish,
        place,
        changes,
    )?;
    let full_name = full_name(alloc, source.names, q.world, target, word)?;
    new_files(
        alloc,
        source.texts,
        source.units,
        sees.as_slice(),
        heads.as_slice(),
        word.as_bytes(),
        full_name.as_slice(),
    )
}
