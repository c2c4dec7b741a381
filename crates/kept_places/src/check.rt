//! The check of what a search has found.

ghost use Rattle.std.specs.Prelude.{◌≡◌, ◌&&◌};
ghost use Rattle.kept_places.specs.Found as spec;

use crate::links::{Link, is_not_after};

/// A chain of a place: how many links stand behind its first one, and the first one's number in the list of links.
#[derive(Clone, Copy)]
pub(crate) struct Chain {
    pub(crate) behind: u32,
    pub(crate) first: u32,
}

pub(crate) fn chain_at(found: &[Option<Chain>], place: u32) -> Option<Chain>
    ensures { result ≡ spec.chain_at found.now place }
{
    match found.get(place as usize) {
        Some(chain) => *chain,
        None => None,
    }
}

/// How many links stand behind a link with this target, where it begins a chain.
pub(crate) fn links_behind(found: &[Option<Chain>], to: Option<u32>) -> Option<u64>
    ensures { result ≡ spec.links_behind found.now to }
{
    let Some(place) = to else {
        return Some(0);
    };
    match chain_at(found, place) {
        Some(chain) => Some(u64::from(chain.behind) + 1),
        None => None,
    }
}

pub(crate) fn is_first_not_after(links: &[Link], chain: Chain, link: Link) -> bool
    ensures { result ≡ spec.is_first_not_after links.now chain link }
{
    match links.get(chain.first as usize) {
        Some(first) => is_not_after(*first, link),
        None => false,
    }
}

/// Where a link begins a chain, its place has one that is no longer and, if they are equally long, doesn't begin with a later link.
fn link_fits(links: &[Link], found: &[Option<Chain>], link: Link) -> bool
    ensures { result ≡ spec.link_fits links.now found.now link }
{
    let Some(behind) = links_behind(found, link.to) else {
        return true;
    };
    let Some(chain) = chain_at(found, link.from) else {
        return false;
    };
    let least = u64::from(chain.behind);
    least < behind || least == behind && is_first_not_after(links, chain, link)
}

/// The first link of a chain leads from this place, and begins a chain of this length.
fn chain_fits(links: &[Link], found: &[Option<Chain>], place: usize, chain: Chain) -> bool
    ensures { result ≡ spec.chain_fits links.now found.now place chain }
{
    let Some(first) = links.get(chain.first as usize) else {
        return false;
    };
    let Some(behind) = links_behind(found, first.to) else {
        return false;
    };
    first.from as usize == place && behind == u64::from(chain.behind)
}

fn links_fit(links: &[Link], found: &[Option<Chain>]) -> bool
    ensures { result ≡ spec.links_fit links.now found.now links.now }
{
    for link in links {
        if !link_fits(links, found, *link) {
            return false;
        }
    }
    true
}

fn chains_fit(links: &[Link], found: &[Option<Chain>]) -> bool
    ensures { result ≡ spec.chains_fit links.now found.now 0 found.now }
{
    for place in 0..found.len() {
        if let Some(chain) = found[place]
            && !chain_fits(links, found, place, chain)
        {
            return false;
        }
    }
    true
}

/// Whether the chains that were found are shortest ones with the least first links, and no other place has one.
pub(crate) fn are_shortest(links: &[Link], found: &[Option<Chain>]) -> bool
    ensures { result ≡ (spec.links_fit links.now found.now links.now && spec.chains_fit links.now found.now 0 found.now) }
{
    links_fit(links, found) && chains_fit(links, found)
}
