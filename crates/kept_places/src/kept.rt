//! The places that can't change.

ghost use Rattle.std.specs.Prelude.{◌≡◌, IfOk};
ghost use Rattle.kept_places.specs.Kept.{AreKept};
ghost use Rattle.kept_places.specs.Found as spec;

use crate::check::{Chain, are_shortest};
use crate::links::{Kept, Link};
use crate::search::find_chains;
use java_tree::{Items, NoMemory};
use std::alloc::Global;

fn kept_at(links: &[Link], chain: Option<Chain>) -> Option<Kept>
    ensures { result ≡ spec.kept_at links.now chain }
{
    let chain = chain?;
    let first = links.get(chain.first as usize)?;
    Some(Kept {
        place: first.from,
        node: first.node,
        kind: first.kind,
        next: first.to,
    })
}

fn kept_of(alloc: Global, links: &[Link], found: &[Option<Chain>]) -> Result<Items<Kept>, NoMemory>
    ensures { IfOk result (λ ks. ks ≡ spec.kept_of links.now found.now) }
{
    let mut all = Items::new(alloc);
    for chain in found {
        if let Some(kept) = kept_at(links, *chain) {
            all.push(kept)?;
        }
    }
    Ok(all)
}

/// The places, in ascending order, that can't change: from them a chain of links leads to a need. With each the first link of its shortest chain stands, of several the
/// least by node, kind and next place. Takes time for the links and for the numbers up to the largest place.
pub fn kept_places(alloc: Global, links: &[Link]) -> Result<Items<Kept>, NoMemory>
    ensures { IfOk result (AreKept links.now) }
{
    let found = find_chains(alloc, links)?;
    // It always fits: the search is only not proved.
    if !are_shortest(links, found.as_slice()) {
        return Err(NoMemory);
    }
    kept_of(alloc, links, found.as_slice())
}
