//! A graph with its edges turned round.

ghost use Rattle.std.specs.Prelude.{◌≡◌, ℕ, ◌<◌, length, ◌↔◌, ◌⊎◌, IfOk, OnOk, Contains};
ghost use Rattle.type_reach.specs.Sources.{HasTarget, IsReverse};

use crate::Graph;
use java_tree::{Items, NoMemory};
use std::alloc::Global;

/// For each node the nodes of the edges that go to it.
pub(crate) fn reversed(alloc: Global, graph: &Graph) -> Result<Vec<Items<usize>>, NoMemory>
    ensures { IfOk result (λ v. IsReverse graph.now v.items) }
{
    let mut sources = Vec::new(alloc);
    for _ in 0..graph.len() {
        sources.push(Items::new(alloc))?;
    }
    for (node, targets) in graph.as_slice().iter().enumerate() {
        add_source(node, targets.as_slice(), &mut sources)?;
    }
    Ok(sources)
}

fn add_source(node: usize, targets: &[u32], sources: &mut Vec<Items<usize>>) -> Result<(), NoMemory>
    ensures size { OnOk result (length sources.new.items ≡ length sources.old.items) }
    ensures added { OnOk result ((a b : ℕ) → HasTarget sources.new.items b a ↔ (HasTarget sources.old.items b a ⊎ ((a ≡ node) × Contains targets.now b × (b < length sources.old.items)))) }
{
    for target in targets {
        let at = *target as usize;
        if at < sources.len() {
            sources[at].push(node)?;
        }
    }
    Ok(())
}
