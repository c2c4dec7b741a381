//! The comparison of two programs.

ghost use Rattle.std.specs.Prelude.{◌≡◌, ◌↔◌, None, IsTrue, IfOk};
ghost use Rattle.program_maps.specs.Ways.{ways};
ghost use Rattle.running_code.specs.Running.{IsReady};
ghost use Rattle.alike_programs.specs.Alike.{AlikeTold, KnowsClasses};

use crate::difference::Difference;
use crate::known::are_known;
use crate::members::members_alike;
use crate::others::others_called;
use alike_lookups::calls_found;
use alike_order::order_kept;
use alike_tables::tables_alike;
use alike_trees::Sides;
use java_tree::NoMemory;
use program_maps::Map;
use running_code::Running;
use std::alloc::Global;

// Whether the classes of both cores have numbers of their worlds.
fn are_both_known(old: &Running<'_>, new: &Running<'_>) -> bool
    ensures { IsTrue result ↔ (KnowsClasses old.now × KnowsClasses new.now) }
{
    are_known(old.core.files.as_slice(), old.world.types.len())
        && are_known(new.core.files.as_slice(), new.world.types.len())
}

/// Where two checked programs differ first; nowhere where the new one prints the same bytes, enters the same methods and ends in the same way as the old one, for all
/// arguments and every bound, from each class that declares a main method. Where `strict`, this is so of all runs, and else of those of the old program in which
/// nothing goes wrong. Takes time for both programs, and for each pair of types.
pub fn first_difference(
    alloc: Global,
    old: &Running<'_>,
    new: &Running<'_>,
    map: &Map,
    strict: bool,
) -> Result<Option<Difference>, NoMemory>
    requires old { IsReady old.now }
    requires new { IsReady new.now }
    ensures { IfOk result (λ r. r ≡ None → AlikeTold old.now new.now (ways map.now) strict) }
{
    if !tables_alike(alloc, old, new, map)? || !are_both_known(old, new) {
        return Ok(Some(Difference::Tables));
    }
    if u32::try_from(new.world.types.len()).is_err() {
        return Ok(Some(Difference::Tables));
    }
    if !order_kept(alloc, old.world, new.world, &map.types) {
        return Ok(Some(Difference::Order));
    }
    let others = others_called(alloc, old, new, map, strict)?;
    if !calls_found(old, new, map, &others, strict) {
        return Ok(Some(Difference::Calls));
    }
    let sides = Sides {
        alloc,
        map,
        others: &others,
        world: new.world,
        strict,
    };
    match members_alike(&sides, old, new) {
        Err(difference) => Ok(Some(difference)),
        Ok(()) => Ok(None),
    }
}
