//! The command: what stands against it, or the new files.

ghost use Rattle.std.specs.Prelude.{◌≡◌, ◌<◌, ◌^◌, [], ℕ, length, None, IfOk};
ghost use Rattle.java_tree.specs.Names.{AreDistinct};
ghost use Rattle.source_files.specs.Held.{AreSmall};
ghost use Rattle.type_facts.specs.Facts.{Facts, IsReady};
ghost use Rattle.generalize_declared.specs.Asked.{HasPlace};
ghost use Rattle.generalize_declared.specs.Plans.{Answers, AreSourceFacts, IsAsked, IsMet};

use crate::asked::{CheckedSource, Wish, is_above, place_asked, target_of};
use crate::edits::files_of;
use crate::tried::try_change;
use changed_files::NewFiles;
use java_tree::NoMemory;
use kept_behaviour::keeps_behaviour;
use running_code::prepare;
use std::alloc::Global;
use type_constraints::Unmet;
use type_facts::Questions;
use type_places::{Changes, TypePlace};

/// What stands against a change, with the number of its node: an unchecked operation (S21); that no declared type begins at the place that can change (V1); that there is
/// no such type to which it may go (V2); that the type is not above the place's own (V3); a constraint; or that the new files would break a rule or behave otherwise (KEEP).
#[derive(Clone, Copy, Debug, PartialEq, Eq)]
pub enum Against {
    Unchecked(u32),
    NoPlace,
    NoTarget(u32),
    NotAbove(u32),
    Unmet(Unmet),
    Kept(u32),
}

#[derive(Drop)]
pub enum Answer {
    Against(Against),
    Changed(NewFiles),
}

// The new files of a change that meets all constraints, if they keep the program's behaviour.
fn on_met(
    alloc: Global,
    q: &Questions<'_>,
    source: &CheckedSource<'_>,
    wish: Wish,
    word: &str,
    place: &TypePlace,
    target: u32,
    changes: &Changes,
) -> Result<Answer, NoMemory>
    requires ready { IsReady q.now }
    requires small { AreSmall source.now.texts.now }
    requires texts { length source.now.texts.now ≡ length source.now.units.now }
    requires file { wish.file < length source.now.units.now }
    ensures { (fs : ℕ → Facts) → AreSourceFacts q.now source.now fs
        → IsMet fs source.now wish word.now place.now target changes.now
        → IfOk result (Answers fs source.now wish word.now) }
{
    let kept = Answer::Against(Against::Kept(place.node));
    let made = files_of(alloc, q, source, wish, word, place, target, changes)?;
    let Some(new) = made else {
        return Ok(kept);
    };
    let old = prepare(alloc, q.world, source.names, source.core, q.members)?;
    let keeps = keeps_behaviour(alloc, &old, new.texts.as_slice(), source.users)?;
    if keeps {
        Ok(Answer::Changed(new))
    } else {
        Ok(kept)
    }
}

// What becomes of the change of a place to a type above its own.
fn on_target(
    alloc: Global,
    q: &Questions<'_>,
    source: &CheckedSource<'_>,
    wish: Wish,
    word: &str,
    place: &TypePlace,
    target: u32,
) -> Result<Answer, NoMemory>
    requires ready { IsReady q.now }
    requires small { AreSmall source.now.texts.now }
    requires texts { length source.now.texts.now ≡ length source.now.units.now }
    requires file { wish.file < length source.now.units.now }
    ensures { (fs : ℕ → Facts) → AreSourceFacts q.now source.now fs
        → IsAsked fs source.now wish word.now place.now target → IfOk result (Answers fs source.now wish word.now) }
{
    let tried = try_change(alloc, q, source, place, target)?;
    match tried.unmet {
        Some(unmet) => Ok(Answer::Against(Against::Unmet(unmet))),
        None => on_met(alloc, q, source, wish, word, place, target, &tried.changes),
    }
}

// What becomes of the change of a place.
fn on_place(
    alloc: Global,
    q: &Questions<'_>,
    source: &CheckedSource<'_>,
    wish: Wish,
    word: &str,
    place: &TypePlace,
) -> Result<Answer, NoMemory>
    requires ready { IsReady q.now }
    requires small { AreSmall source.now.texts.now }
    requires distinct { AreDistinct source.now.names.now }
    requires texts { length source.now.texts.now ≡ length source.now.units.now }
    requires file { wish.file < length source.now.units.now }
    requires types { length q.now.world.now.types < 2 ^ 32 }
    requires clean { source.now.operations.now ≡ [] }
    requires place { HasPlace q.now.world.now source.now wish place.now }
    ensures { (fs : ℕ → Facts) → AreSourceFacts q.now source.now fs
        → IfOk result (Answers fs source.now wish word.now) }
{
    let Some(target) = target_of(q.world, source, wish.file, word) else {
        return Ok(Answer::Against(Against::NoTarget(place.node)));
    };
    let first = Questions { file: 0, ..*q };
    if is_above(alloc, &first, target, place.old) {
        on_target(alloc, q, source, wish, word, place, target)
    } else {
        Ok(Answer::Against(Against::NotAbove(place.node)))
    }
}

// What becomes of a change of a program without unchecked operations.
fn on_clean(
    alloc: Global,
    q: &Questions<'_>,
    source: &CheckedSource<'_>,
    wish: Wish,
    word: &str,
) -> Result<Answer, NoMemory>
    requires ready { IsReady q.now }
    requires small { AreSmall source.now.texts.now }
    requires distinct { AreDistinct source.now.names.now }
    requires texts { length source.now.texts.now ≡ length source.now.units.now }
    requires file { wish.file < length source.now.units.now }
    requires types { length q.now.world.now.types < 2 ^ 32 }
    requires clean { source.now.operations.now ≡ [] }
    ensures { (fs : ℕ → Facts) → AreSourceFacts q.now source.now fs
        → IfOk result (Answers fs source.now wish word.now) }
{
    let place = place_asked(alloc, q.world, source, wish)?;
    match place {
        Some(place) => on_place(alloc, q, source, wish, word, &place),
        None => Ok(Answer::Against(Against::NoPlace)),
    }
}

/// What becomes of `generalize` of a checked program: the head of the declared type at a place of a user file is to become the type of this name. The questions are those
/// of its first file.
pub fn generalize(
    alloc: Global,
    q: &Questions<'_>,
    source: &CheckedSource<'_>,
    wish: Wish,
    word: &str,
) -> Result<Answer, NoMemory>
    requires ready { IsReady q.now }
    requires small { AreSmall source.now.texts.now }
    requires distinct { AreDistinct source.now.names.now }
    requires texts { length source.now.texts.now ≡ length source.now.units.now }
    requires file { wish.file < length source.now.units.now }
    ensures { (fs : ℕ → Facts) → AreSourceFacts q.now source.now fs
        → IfOk result (Answers fs source.now wish word.now) }
{
    if u32::try_from(q.world.types.len()).is_err() {
        return Err(NoMemory);
    }
    match source.operations {
        [first, ..] => Ok(Answer::Against(Against::Unchecked(first.node.id))),
        [] => on_clean(alloc, q, source, wish, word),
    }
}
