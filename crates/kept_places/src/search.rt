//! A search for the shortest chain of each place, from the needs backwards. What it finds is checked behind it.

use crate::check::{Chain, chain_at, is_first_not_after, links_behind};
use crate::links::Link;
use java_tree::NoMemory;
use std::alloc::Global;
use std::mem;

/// The links into each place, by their numbers in the list of links: one of them, and beside each link another one into its place.
#[derive(Drop)]
struct Sources {
    one: Vec<Option<u32>>,
    other: Vec<Option<u32>>,
}

/// The chains that are found so far, by place, and the places that have one, in the order in which they were reached.
#[derive(Drop)]
struct Search {
    found: Vec<Option<Chain>>,
    reached: Vec<u32>,
}

fn number_of(at: usize) -> Result<u32, NoMemory> {
    match u32::try_from(at) {
        Ok(number) => Ok(number),
        Err(_) => Err(NoMemory),
    }
}

/// One more than the largest place from which a link leads. Only such places are kept.
fn count_of(links: &[Link]) -> usize {
    let mut largest: u32 = 0;
    for link in links {
        largest = largest.max(link.from);
    }
    largest as usize + 1
}

/// Puts a link before the others into its place, and gives the one that was the first.
fn put_first(one: &mut Vec<Option<u32>>, link: Link, number: u32) -> Option<u32> {
    let place = link.to? as usize;
    if place < one.len() {
        return mem::replace(&mut one[place], Some(number));
    }
    None
}

fn sources_of(alloc: Global, links: &[Link], count: usize) -> Result<Sources, NoMemory> {
    let mut one = vec![in alloc; None; count]?;
    let mut other = Vec::new(alloc);
    for (at, link) in links.iter().enumerate() {
        let next = put_first(&mut one, *link, number_of(at)?);
        other.push(next)?;
    }
    Ok(Sources { one, other })
}

fn link_at(numbers: &[Option<u32>], at: u32) -> Option<u32> {
    match numbers.get(at as usize) {
        Some(number) => *number,
        None => None,
    }
}

impl Search {
    fn reach(&mut self, place: u32, chain: Chain) -> Result<(), NoMemory> {
        let at = place as usize;
        if at < self.found.len() && self.found[at].is_none() {
            self.found[at] = Some(chain);
            self.reached.push(place)?;
        }
        Ok(())
    }

    fn reach_needs(&mut self, links: &[Link]) -> Result<(), NoMemory> {
        for (at, link) in links.iter().enumerate() {
            if link.to.is_none() {
                let first = number_of(at)?;
                self.reach(link.from, Chain { behind: 0, first })?;
            }
        }
        Ok(())
    }

    /// Reaches the places that step to a place with a chain.
    fn reach_sources(
        &mut self,
        links: &[Link],
        sources: &Sources,
        place: u32,
        chain: Chain,
    ) -> Result<(), NoMemory> {
        let behind = chain.behind.saturating_add(1);
        let mut next = link_at(sources.one.as_slice(), place);
        for _ in 0..links.len() {
            let Some(first) = next else {
                return Ok(());
            };
            if let Some(link) = links.get(first as usize) {
                self.reach(link.from, Chain { behind, first })?;
            }
            next = link_at(sources.other.as_slice(), first);
        }
        Ok(())
    }

    /// Reaches all places that have a chain. Each place is reached once, so there are no more turns than places.
    fn reach_all(&mut self, links: &[Link], sources: &Sources) -> Result<(), NoMemory> {
        for turn in 0..self.found.len() {
            let Some(place) = self.reached.get(turn) else {
                return Ok(());
            };
            let place = *place;
            if let Some(chain) = chain_at(self.found.as_slice(), place) {
                self.reach_sources(links, sources, place, chain)?;
            }
        }
        Ok(())
    }

    /// Makes the least of the links that begin a shortest chain its first one.
    fn choose_first(&mut self, links: &[Link]) -> Result<(), NoMemory> {
        for (at, link) in links.iter().enumerate() {
            let place = link.from as usize;
            let chain = chain_at(self.found.as_slice(), link.from);
            if let Some(chain) = better(links, self.found.as_slice(), chain, *link, number_of(at)?)
                && place < self.found.len()
            {
                self.found[place] = Some(chain);
            }
        }
        Ok(())
    }
}

/// The chain that begins with a link instead of its first one, where it is as long and the link is before the first.
fn better(
    links: &[Link],
    found: &[Option<Chain>],
    chain: Option<Chain>,
    link: Link,
    first: u32,
) -> Option<Chain> {
    let chain = chain?;
    let behind = links_behind(found, link.to)?;
    if behind == u64::from(chain.behind) && !is_first_not_after(links, chain, link) {
        return Some(Chain {
            behind: chain.behind,
            first,
        });
    }
    None
}

/// For each place from which a link leads a shortest chain, if it has one, with the least first link.
pub(crate) fn find_chains(alloc: Global, links: &[Link]) -> Result<Vec<Option<Chain>>, NoMemory> {
    let count = count_of(links);
    let sources = sources_of(alloc, links, count)?;
    let mut search = Search {
        found: vec![in alloc; None; count]?,
        reached: Vec::new(alloc),
    };
    search.reach_needs(links)?;
    search.reach_all(links, &sources)?;
    search.choose_first(links)?;
    let Search { found, .. } = search;
    Ok(found)
}
