//! A table of the places of nodes, by their numbers.

ghost use Rattle.std.specs.Prelude.{◌≡◌, ◌<◌, ℕ, [], ◌∷◌, length, map, IfOk};
ghost use Rattle.java_tree.specs.View.{unit_plain};
ghost use Rattle.node_places.specs.Places.{place_of};
ghost use Rattle.node_lists.specs.Table.{or_later, told, told_of};

use crate::nodes_of;
use java_tree::tree::{Node, SourceUnit};
use java_tree::{Items, NoMemory};
use node_places::NodePlace;
use std::alloc::Global;

/// The place that a table tells of a number: none behind its end.
pub fn place_in(table: &[Option<NodePlace>], number: u32) -> Option<NodePlace>
    ensures { result ≡ told table.now number }
{
    match table.get(number as usize) {
        Some(place) => *place,
        None => None,
    }
}

// The table with a row of a number, which tells nothing new.
fn grown(table: Items<Option<NodePlace>>, number: u32) -> Result<Items<Option<NodePlace>>, NoMemory>
    ensures room { IfOk result (λ t. number < length t) }
    ensures same { IfOk result (λ t. (k : ℕ) → told t k ≡ told table k) }
{
    let mut table = table;
    for _ in table.len()..number as usize + 1 {
        table.push(None)?;
    }
    Ok(table)
}

// Notes the place of a node in a file, unless one of its number is noted.
fn noted(
    table: Items<Option<NodePlace>>,
    file: usize,
    node: Node,
) -> Result<Items<Option<NodePlace>>, NoMemory>
    ensures { IfOk result (λ t. (k : ℕ) → told t k ≡ or_later (told table k) (told_of file k (node ∷ []))) }
{
    let mut table = grown(table, node.id)?;
    let row = node.id as usize;
    if table.as_slice()[row].is_none() {
        let at = node.span.from;
        *table.at_mut(row) = Some(NodePlace { file, at });
    }
    Ok(table)
}

fn all_noted(
    mut table: Items<Option<NodePlace>>,
    file: usize,
    nodes: &[Node],
) -> Result<Items<Option<NodePlace>>, NoMemory>
    ensures { IfOk result (λ t. (k : ℕ) → told t k ≡ or_later (told table k) (told_of file k nodes.now)) }
{
    for node in nodes {
        table = noted(table, file, *node)?;
    }
    Ok(table)
}

/// The places of all nodes of files, by their numbers: that of the first node, in the order of the files and of their texts, where several have one number.
/// Takes time and memory for the nodes and the largest of their numbers.
pub fn places_of(alloc: Global, units: &[SourceUnit]) -> Result<Items<Option<NodePlace>>, NoMemory>
    ensures { IfOk result (λ t. (k : ℕ) → told t k ≡ place_of (map unit_plain units.now) k) }
{
    let mut table = Items::new(alloc);
    for (file, unit) in units.iter().enumerate() {
        let nodes = nodes_of(alloc, unit)?;
        table = all_noted(table, file, nodes.as_slice())?;
    }
    Ok(table)
}
