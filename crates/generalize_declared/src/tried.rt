//! A change of a place that is tried.

ghost use Rattle.std.specs.Prelude.{◌≡◌, ◌<◌, ℕ, length, IfOk};
ghost use Rattle.type_facts.specs.Facts.{Facts, IsReady};
ghost use Rattle.generalize_declared.specs.Plans.{AreSourceFacts, IsTried};

use crate::asked::CheckedSource;
use java_tree::NoMemory;
use std::alloc::Global;
use type_constraints::{Unmet, first_unmet};
use type_facts::Questions;
use type_places::{Changes, TypePlace, changes_of};

/// What changes with a place, and the first constraint that stands against it.
#[derive(Drop)]
pub(crate) struct Tried {
    pub changes: Changes,
    pub unmet: Option<Unmet>,
}

/// The change of a place to a type, by number.
pub(crate) fn try_change(
    alloc: Global,
    q: &Questions<'_>,
    source: &CheckedSource<'_>,
    place: &TypePlace,
    target: u32,
) -> Result<Tried, NoMemory>
    requires ready { IsReady q.now }
    requires some { 0 < length source.now.units.now }
    ensures { (fs : ℕ → Facts) → AreSourceFacts q.now source.now fs
        → IfOk result (λ r. IsTried (fs 0) source.now place.now target r.changes r.unmet) }
{
    let changes = changes_of(alloc, q.world, q.members, place, target)?;
    let main = source.names.find("main");
    let first = Questions { file: 0, ..*q };
    let unmet = first_unmet(alloc, &first, &changes, source.core, source.users, main)?;
    Ok(Tried { changes, unmet })
}
